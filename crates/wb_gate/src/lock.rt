//! A gate that is a lock.
ghost use Rattle.std.specs.Prelude.{◌≡◌, ◌≢◌, ◌+◌, IfOk, IfErr, IsOk};
ghost use Rattle.wb_desk.specs.GoneOn.{IsLater};
ghost use Rattle.wb_desk.specs.Hosted.{Hosted, parts_of, turns_of, numbers_drawn};
ghost use Rattle.wb_desk.specs.Whole.{IsWholeHost};
ghost use Rattle.wb_gate.specs.Closing.{ClosesExactly};
ghost use Rattle.wb_model.specs.Drawn.{numbers_of};
ghost use Rattle.wb_model.specs.Rows.{rows_of};
ghost use Rattle.wb_tables.specs.Standing.{hosts_of};

use std::sync::ledger::Ledger;
use std::sync::{Mutex, Wait};
use wb_base::Keeper;
use wb_desk::{Closed, Gate, Job, Kept, KeptBack, Origin, Pass, Tally};

/// A host under a lock: one job at a time is in.
#[derive(Drop)]
pub struct LockGate<K: Keeper, A: Origin, B: Ledger> {
    host: Mutex<Kept<K, A, B>>,
}

impl<K: Keeper, A: Origin, B: Ledger> LockGate<K, A, B> {
    /// Puts a host under a lock.
    pub fn over(kept: Kept<K, A, B>) -> LockGate<K, A, B> {
        LockGate {
            host: Mutex::new(kept),
        }
    }
}

impl<K: Keeper, A: Origin, B: Ledger, J: Job<K, A, B>> Gate<K, A, B, J> for LockGate<K, A, B> {
    type Own = Pass<A, B>;

    // A pass is of the host by its ledgers, which say what it was opened with.
    ghost of = { λ gate pass. Unit {0} };

    ghost parts = { λ pass. pass.parts };

    ghost ran = { λ pass job told pass'. (host : Hosted) × (host' : Hosted) × (host.opened ≡ A.desk) × (host'.opened ≡ A.desk) × IsWholeHost host × IsWholeHost host' × J.does job host pass host' pass' told };

    fn enter<R: Wait>(&self, rt: &R, own: &mut Pass<A, B>, job: J) -> J::Told {
        let mut kept = self.host.lock(rt);
        kept.is_whole();
        let told = job.run(&mut *kept, own);
        kept.is_whole();
        told
    }
}

/// A host and passes to it, which do not add up to its books.
#[derive(Drop)]
pub struct NotAll<K: Keeper, A: Origin, B: Ledger> {
    pub gate: LockGate<K, A, B>,
    pub passes: Vec<Pass<A, B>>,
    /// The two books.
    pub book: Tally,
    /// The sums of the passes' shares.
    pub sum: Tally,
}

/// Takes the host out of its lock and apart where the passes' shares add up to its books, and else gives all back. They do where the
/// passes have all the parts of the ledgers.
pub fn close<K: Keeper, A: Origin, B: Ledger>(
    gate: LockGate<K, A, B>,
    passes: Vec<Pass<A, B>>,
) -> Result<Closed<K>, NotAll<K, A, B>>
    ensures ok { IfOk result (λ c. (c.turns ≡ turns_of passes.items) × (c.numbers ≡ numbers_drawn passes.items)) }
    ensures kept { IfOk result (λ c. (K.end c.keeper).honest → (K.end c.keeper).holds (rows_of (hosts_of c.desk).list)) }
    // The host is the one that was opened, gone on by the turns of its book.
    ensures opened { IfOk result (λ c. (c.desk.turns ≡ A.desk.turns + c.turns) × (numbers_of (hosts_of c.desk) ≡ numbers_of (hosts_of A.desk) + c.numbers) × IsLater A.desk c.turns c.desk) }
    ensures honest { IfOk result (λ c. (K.end c.keeper).honest → A.honest) }
    ensures back { IfErr result (λ k. k.passes.items ≡ passes.items) }
    ensures sums { IfErr result (λ k. (k.sum.turns ≡ turns_of passes.items) × (k.sum.numbers ≡ numbers_drawn passes.items)) }
    ensures differ { IfErr result (λ k. k.sum.turns ≡ k.book.turns → k.sum.numbers ≢ k.book.numbers) }
    ensures exact { ClosesExactly A.desk (turns_of passes.items) (numbers_drawn passes.items) (λ k. k.book) result }
    ensures all { parts_of passes.items ≡ A.parts → parts_of passes.items ≡ B.parts → IsOk result }
{
    let LockGate { host } = gate;
    let kept = host.into_inner();
    kept.is_whole();
    match kept.close(passes) {
        Ok(closed) => Ok(closed),
        Err(back) => {
            let KeptBack {
                kept,
                passes,
                book,
                sum,
            } = back;
            Err(NotAll {
                gate: LockGate::over(kept),
                passes,
                book,
                sum,
            })
        }
    }
}
