//! The fields of a form, found by their ids.
ghost use Rattle.std.specs.Prelude.{◌≡◌, ◌++◌, ◌∷◌, [], map, take, ◌&&◌, false, None, Bool, IfOk, IfErr, OnOk, OnErr};
ghost use Rattle.std.specs.Option.{option_map_or};
ghost use Rattle.std.specs.List.{list_any};
ghost use Rattle.wb_base.specs.declared.form.Field.{Field as FieldOf};
ghost use Rattle.wb_base.specs.FormFields.{is_field};
ghost use Rattle.wb_base.specs.FormFaults.{first_by, is_double};
ghost use Rattle.wb_form.specs.Index.{IsFaultOf};

use crate::fields::{has_twice, options_of};
use std::alloc::Global;
use std::cmp::Ordering;
use std::marker::Model;
use wb_base::{Field, Memory, Text};
use wb_list::{Keyed, Sorted};

/// A field and its place in a form, counted from 0.
#[derive(Drop)]
struct Placed<'a> {
    field: &'a Field,
    place: usize,
}

impl<'a> Keyed for Placed<'a> {
    type Key = Text;

    ghost key_of = { λ p. p.field.now.id };

    fn compare(&self, key: &Text) -> Ordering {
        self.field.id.cmp(key)
    }

    fn compare_to(&self, other: &Placed<'a>) -> Ordering {
        self.field.id.cmp(&other.field.id)
    }
}

/// Fields of distinct ids, found by binary search, seen as their list in form order.
#[derive(Drop)]
pub struct Index<'a> {
    fields: Vec<&'a Field>,
    places: Sorted<Placed<'a>>,
}

impl<'a> Model for Index<'a> {
    ghost use Rattle.std.specs.Prelude.{List, map};
    ghost use Rattle.wb_base.specs.declared.form.Field.{Field as FieldOf};
    ghost use Rattle.wb_form.specs.Index.{IsIndexOf};

    ghost Value = { List FieldOf };

    ghost view = { λ i. map (λ f. f.now) i.fields.items };

    ghost invariant = { λ i. IsIndexOf (map (λ f. f.now) i.fields.items) i.places.items };
}

/// Why fields have no index.
pub enum IndexFault<'a> {
    /// A field has the id of an earlier one, or two options of one id.
    Double(&'a Text),
    /// There was no memory.
    Memory,
}

impl<'a> From<Memory> for IndexFault<'a> {
    ghost use Rattle.wb_form.specs.declared.index.IndexFault.TheVariants.{Memory as NoMemory};

    ghost from_gives = { λ _ e. e ≡ NoMemory };

    fn from(_: Memory) -> IndexFault<'a> {
        IndexFault::Memory
    }
}

impl<'a> Index<'a> {
    /// No field.
    fn new(alloc: Global) -> Index<'a>
        ensures { result ≡ [] }
    {
        Index {
            fields: Vec::new(alloc),
            places: Sorted::new(alloc),
        }
    }

    /// The fields in form order.
    pub fn fields(&self) -> &[&'a Field]
        ensures { map (λ f. f.now) result.now ≡ self.now }
    {
        self.fields.as_slice()
    }

    /// The field of an id, where it stands before a place.
    pub fn find(&self, id: &Text, before: usize) -> Option<&'a Field>
        ensures { (test : FieldOf → Bool) → list_any (λ f. is_field id.now f && test f) (take before self.now) ≡ option_map_or (λ f. test f.now) result false }
    {
        match self.places.find(id) {
            Some(placed) => if placed.place < before {
                Some(placed.field)
            } else {
                None
            },
            None => None,
        }
    }

    /// Whether a field before a place has an id.
    pub fn has(&self, id: &Text, before: usize) -> bool
        ensures { result ≡ list_any (is_field id.now) (take before self.now) }
    {
        self.find(id, before).is_some()
    }

    /// Puts a field of another id at the end.
    fn add(&mut self, field: &'a Field) -> Result<(), Memory>
        requires { list_any (is_field field.now.id) self.old ≡ false }
        ensures ok { OnOk result (self.new ≡ self.old ++ field.now ∷ []) }
        ensures err { OnErr result (self.new ≡ self.old) }
    {
        self.places.reserve(1)?;
        let place = self.fields.len();
        self.fields.push(field)?;
        self.places.add(Placed { field, place });
        Ok(())
    }

    /// The index of these fields, or the first that has an id or an option's id twice.
    pub fn of(alloc: Global, fields: &[&'a Field]) -> Result<Index<'a>, IndexFault<'a>>
        ensures all { IfOk result (λ index. index ≡ map (λ f. f.now) fields.now) }
        ensures distinct { IfOk result (λ index. first_by is_double (map (λ f. f.now) fields.now) ≡ None) }
        ensures double { IfErr result (IsFaultOf (map (λ f. f.now) fields.now)) }
    {
        let mut index = Index::new(alloc);
        for (at, field) in fields.iter().enumerate() {
            if index.has(&field.id, at) || has_twice(options_of(&field.kind)) {
                return Err(IndexFault::Double(&field.id));
            }
            index.add(*field)?;
        }
        Ok(index)
    }
}
