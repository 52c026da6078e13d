//! A keeper of rows in a store.
ghost use Rattle.std.specs.Prelude.{◌≡◌, ◌⊎◌, ◌≤◌, ◌<◌, ℕ, Some, None, All, IsSome, IfOk, OnOk, OnErr, Err, Ok, sum_by};
ghost use Rattle.wb_list.specs.Keyed.{IsAscending};
ghost use Rattle.wb_base.specs.Outside.{KeeperHasCause};
ghost use Rattle.wb_base.specs.KeptRows.{key_cmp, key_of, IsGoodChange};
ghost use Rattle.wb_etcd.specs.declared.standing.Standing.TheVariants.{Unloaded as IsUnloaded, Holds as HoldsSince, Ended as HasEnded};
ghost use Rattle.wb_base.specs.Outside.{count_with, count_after};
ghost use Rattle.wb_etcd.specs.Transactions.{operations};
ghost use Rattle.wb_transport.specs.Dials.{Dialed};
ghost use Rattle.wb_etcd.specs.Exchanges.{connection};
ghost use Rattle.wb_etcd.specs.Holding.{EtcdState, operation_limit, held_since, after_fault, Commits, HasTakenOver};

use crate::standing::{NotKept, Standing};
use crate::store::Store;
use crate::taking::{commit, take};
use std::alloc::Global;
use std::marker::Model;
use wb_base::{Change, KeepErr, Keeper, Row};
use wb_transport::Dial;

/// A keeper of rows in a store of etcd, which one host holds at a time. It promises nothing of its rows, since others may write
/// them; what it sends and which answers it takes is told by its dialer.
#[derive(Drop)]
pub struct EtcdKeeper<D: Dial> {
    alloc: Global,
    dial: D,
    store: Store,
    standing: Standing,
    faults: u64,
}

impl<D: Dial> Model for EtcdKeeper<D> {
    ghost use Rattle.wb_etcd.specs.Holding.{EtcdState};

    ghost Value = { EtcdState };

    ghost view = { λ k. record { endpoints = k.store.endpoints; prefix = k.store.prefix; standing = k.standing; told = (D.end k.dial).told; faults = k.faults } };
}

// Counts a call that failed, where no memory was wanting.
fn counted(faults: &mut u64, why: KeepErr) -> KeepErr
    ensures why { result ≡ why }
    ensures count { faults.new ≡ count_with faults.old why }
    ensures later { faults.old ≤ faults.new }
{
    match why {
        KeepErr::Memory => {}
        KeepErr::Failed => *faults = faults.saturating_add(1),
    }
    why
}

impl<D: Dial> EtcdKeeper<D> {
    /// A keeper of the rows in a store, which is called by this dialer.
    pub fn new(alloc: Global, dial: D, store: Store) -> EtcdKeeper<D>
        ensures { result ≡ record { endpoints = store.endpoints; prefix = store.prefix; standing = IsUnloaded; told = (D.end dial).told; faults = 0 } }
    {
        EtcdKeeper {
            alloc,
            dial,
            store,
            standing: Standing::Unloaded,
            faults: 0,
        }
    }

    /// Its dialer.
    pub fn dialer(&self) -> &D
        ensures { (D.end result.now).told ≡ self.now.told }
    {
        &self.dial
    }

    /// How it stands with its store.
    pub fn standing(&self) -> Standing
        ensures { result ≡ self.now.standing }
    {
        self.standing
    }
}

impl<D: Dial> Keeper for EtcdKeeper<D> {
    ghost end = { λ k. record { honest = ⊥; holds = λ _. ⊥; count = k.faults } };

    fn faults(&self) -> u64 {
        self.faults
    }

    /// Takes the store from whoever held it.
    fn load(&mut self) -> Result<Vec<Row>, KeepErr>
        ensures ascending { IfOk result (λ loaded. IsAscending key_cmp key_of loaded.items) }
        ensures cause { KeeperHasCause self.old.faults self.new.faults result }
        ensures count { self.new.faults ≡ count_after self.old.faults result }
        ensures taken { (x : Dialed) → self.old.told ≡ Some x → IfOk result (λ loaded. HasTakenOver self.old x self.new loaded.items) }
        ensures failed { OnErr result (held_since self.new.standing ≡ None) }
        ensures ended { self.old.standing ≡ HasEnded → (result ≡ Err KeepErr.Failed) × (self.new ≡ after_fault self.old) }
    {
        if self.standing == Standing::Ended {
            return Err(counted(&mut self.faults, KeepErr::Failed));
        }
        self.standing = Standing::Unloaded;
        let taken = take(
            self.alloc,
            &mut self.dial,
            self.store.endpoints.as_slice(),
            self.store.prefix.as_bytes(),
        );
        match taken {
            Ok((revision, rows)) => {
                self.standing = Standing::Holds(revision);
                Ok(rows)
            }
            Err(why) => Err(counted(&mut self.faults, why)),
        }
    }

    /// Makes all changes in one transaction, which is made only while this host holds the store.
    fn apply(&mut self, changes: &[Change]) -> Result<(), KeepErr>
        requires { All IsGoodChange changes.now }
        ensures cause { KeeperHasCause self.old.faults self.new.faults result }
        ensures count { self.new.faults ≡ count_after self.old.faults result }
        ensures made { (x : Dialed) → self.old.told ≡ Some x → OnOk result ((revision : ℕ) × (y : Dialed) × (self.old.standing ≡ HoldsSince revision) × (self.new.told ≡ Some y) × Commits self.old.endpoints self.old.prefix revision x y changes.now) }
        ensures held { OnOk result (self.new.standing ≡ self.old.standing) }
        ensures ended { OnErr result ((self.new.standing ≡ self.old.standing) ⊎ (self.new.standing ≡ HasEnded)) }
        ensures idle { held_since self.old.standing ≡ None → (result ≡ Err KeepErr.Failed) × (self.new ≡ after_fault self.old) }
        ensures many { operation_limit < sum_by operations changes.now → (result ≡ Err KeepErr.Failed) × (self.new ≡ after_fault self.old) }
        ensures unreached { (x : Dialed) → self.old.told ≡ Some x → (connection self.old.endpoints x).line ≡ None → self.new.standing ≡ self.old.standing }
        ensures reached { (x : Dialed) → self.old.told ≡ Some x → sum_by operations changes.now ≤ operation_limit → IsSome (connection self.old.endpoints x).line → result ≡ Err KeepErr.Failed → held_since self.new.standing ≡ None }
        // It ended, or no endpoint gave it a link: nothing was sent.
        ensures unsure { (x : Dialed) → self.old.told ≡ Some x → OnErr result ((self.new.standing ≡ HasEnded) ⊎ (self.new.told ≡ Some x)) }
    {
        let Standing::Holds(revision) = self.standing else {
            return Err(counted(&mut self.faults, KeepErr::Failed));
        };
        let made = commit(
            self.alloc,
            &mut self.dial,
            self.store.endpoints.as_slice(),
            self.store.prefix.as_bytes(),
            revision,
            changes,
        );
        match made {
            Ok(()) => Ok(()),
            Err(NotKept::Unsent(why)) => Err(counted(&mut self.faults, why)),
            Err(NotKept::Sent(why)) => {
                self.standing = Standing::Ended;
                Err(counted(&mut self.faults, why))
            }
        }
    }
}
