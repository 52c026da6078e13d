//! A table with a key of two parts, one of pairs, and a list.
use std::cmp::Ordering;
use std::test::Fail;
use wb_list::{ItemTest, Items, Keyed, Memory, Roomy, Sorted, TryClone};

/// An item of a table with a key of two parts.
#[derive(Debug, PartialEq, Eq, Drop)]
struct Seat {
    row: u32,
    place: u16,
    guest: u8,
}

impl Keyed for Seat {
    type Key = (u32, u16);

    ghost key_of = { λ seat. (seat.row, seat.place) };

    fn compare(&self, key: &(u32, u16)) -> Ordering {
        self.row.cmp(&key.0).then(self.place.cmp(&key.1))
    }

    fn compare_to(&self, other: &Seat) -> Ordering {
        self.row.cmp(&other.row).then(self.place.cmp(&other.place))
    }
}

impl TryClone for Seat {
    fn try_clone(&self) -> Result<Seat, Memory> {
        Ok(Seat {
            row: self.row,
            place: self.place,
            guest: self.guest,
        })
    }
}

/// The seats of a guest.
#[derive(Drop)]
struct OfGuest(u8);

impl ItemTest<Seat> for OfGuest {
    ghost use Rattle.std.specs.Prelude.{◌==◌};

    ghost passes = { λ test seat. seat.guest == test.0 };

    fn passes(&self, seat: &Seat) -> bool {
        seat.guest == self.0
    }
}

fn seated(row: u32, place: u16, guest: u8) -> Seat {
    Seat { row, place, guest }
}

#[test]
fn a_table_stands_in_the_order_of_its_keys(rt: HostRuntime) -> Result<(), Fail> {
    let mut table = Sorted::new(rt.alloc());
    table.reserve(4)?;
    for item in [seated(2, 1, 7), seated(1, 9, 8), seated(1, 2, 7)] {
        assert!(rt; table.find(&(item.row, item.place)).is_none());
        table.reserve(1)?;
        table.set(item);
    }
    table.reserve(1)?;
    table.set(seated(1, 9, 5));
    assert_eq!(rt;
        table.as_slice(),
        [seated(1, 2, 7), seated(1, 9, 5), seated(2, 1, 7)].as_slice()
    );
    assert_eq!(rt; table.find(&(1, 9)).ok_or("a seat")?.guest, 5);
    assert_eq!(rt; table.take(&(1, 9)), Some(seated(1, 9, 5)));
    assert_eq!(rt; table.take(&(1, 9)), None);
    assert_eq!(rt; table.len(), 2);
    assert_eq!(rt; table.get(1).row, 2);
    let copy = table.try_clone()?;
    table.drop_passing(&OfGuest(7));
    assert_eq!(rt; table.len(), 0);
    assert_eq!(rt;
        copy.into_vec().as_slice(),
        [seated(1, 2, 7), seated(2, 1, 7)].as_slice()
    );
    Ok(())
}

#[test]
fn a_new_key_is_added_to_a_table_of_pairs(rt: HostRuntime) -> Result<(), Fail> {
    let mut table = Sorted::of(Vec::<(u32, u8)>::new(rt.alloc()));
    table.reserve(1)?;
    if table.find(&3).is_none() {
        table.add((3, 30));
    }
    assert_eq!(rt; table.as_slice(), [(3, 30)].as_slice());
    assert!(rt; Vec::<u8>::new(table.allocator()).is_empty());
    Ok(())
}

#[test]
fn lists_take_items_at_their_places(rt: HostRuntime) -> Result<(), Fail> {
    let mut list = Items::new(rt.alloc());
    for guest in [1, 2] {
        list.push(seated(1, 1, guest))?;
    }
    let copy = list.try_clone()?;
    assert!(rt; copy == list);
    assert_eq!(rt; copy.len(), 2);
    assert_eq!(rt; copy.get(1).guest, 2);
    let mut places = Roomy::of(list.into_vec());
    places.reserve(2)?;
    places.push(seated(1, 1, 3));
    places.reserve(1)?;
    places.insert(0, seated(1, 1, 0));
    assert_eq!(rt; places.len(), 4);
    assert_eq!(rt; places.remove(1), seated(1, 1, 1));
    assert_eq!(rt; places.get(1).guest, 2);
    assert_eq!(rt; places.as_slice().len(), 3);
    assert_eq!(rt; Roomy::<u8>::new(rt.alloc()).len(), 0);
    let pair = (seated(1, 1, 4), seated(1, 1, 5)).try_clone()?;
    assert_eq!(rt; pair.1.guest, 5);
    Ok(())
}
