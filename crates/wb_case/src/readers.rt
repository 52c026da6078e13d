//! The users who read a report.
ghost use Rattle.std.specs.Prelude.{◌≡◌, ◌+◌, ◌≤◌, ◌<◌, ◌==◌, not, [], length, filter, insert, OnOk};
ghost use Rattle.std.specs.List.{list_any};
ghost use Rattle.wb_model.specs.Trails.{with_reader};

use std::alloc::Global;
use std::marker::Model;
use wb_base::{Memory, UserId};

/// The users who read a report, ascending, seen as their list and the room that there is for more.
#[derive(Drop)]
pub struct Readers {
    users: Vec<UserId>,
}

impl Model for Readers {
    ghost use Rattle.std.specs.Prelude.{ℕ, ◌-◌};
    ghost use Rattle.std.specs.Vec.{vec_len, vec_capacity};
    ghost use Rattle.wb_list.specs.Room.{Room};

    ghost Value = { Room ℕ };

    ghost view = { λ readers. record { items = readers.users.items; spare = vec_capacity readers.users - vec_len readers.users } };
}

// Where a reader goes: before the first that is greater.
fn place(readers: &[UserId], user: UserId) -> usize
    ensures within { result ≤ length readers.now }
    ensures place { insert readers.now result user ≡ with_reader user readers.now }
{
    for (at, other) in readers.iter().enumerate() {
        if user.id() < other.id() {
            return at;
        }
    }
    readers.len()
}

impl Readers {
    /// No reader. It takes no memory.
    pub fn new(alloc: Global) -> Readers
        ensures { result.items ≡ [] }
    {
        Readers {
            users: Vec::new(alloc),
        }
    }

    /// How many there are.
    pub fn len(&self) -> usize
        ensures { result ≡ length self.now.items }
    {
        self.users.len()
    }

    /// All of them, ascending.
    pub fn as_slice(&self) -> &[UserId]
        ensures { result.now ≡ self.now.items }
    {
        self.users.as_slice()
    }

    /// Whether a user is one of them.
    pub fn contains(&self, user: UserId) -> bool
        ensures { result ≡ list_any (λ x. x == user) self.now.items }
    {
        self.users.iter().any(|other| *other == user)
    }

    /// Makes room for n more.
    pub fn reserve(&mut self, n: usize) -> Result<(), Memory>
        ensures items { self.new.items ≡ self.old.items }
        ensures room { OnOk result (n ≤ self.new.spare) }
        ensures kept { self.old.spare ≤ self.new.spare }
    {
        self.users.reserve(n)?;
        Ok(())
    }

    /// Puts a user among them, into room that was made.
    pub fn insert(&mut self, user: UserId)
        requires { 0 < self.old.spare }
        ensures items { self.new.items ≡ with_reader user self.old.items }
        ensures room { self.old.spare ≤ self.new.spare + 1 }
    {
        let at = place(&self.users, user);
        let inserted = self.users.insert(at, user);
        inserted.unwrap()
    }

    /// Takes a user out from among them.
    pub fn remove(&mut self, user: UserId)
        ensures items { self.new.items ≡ filter (λ x. not (x == user)) self.old.items }
        ensures room { self.old.spare ≤ self.new.spare }
    {
        self.users.retain(|other| *other != user);
    }

    /// Puts others in their place, into room that was made.
    pub fn replace(&mut self, users: &[UserId])
        requires { length users.now ≤ self.old.spare }
        ensures items { self.new.items ≡ users.now }
        ensures room { self.old.spare ≤ self.new.spare + length users.now }
    {
        self.users.clear();
        let extended = self.users.extend_from_slice(users);
        extended.unwrap()
    }
}
