//! The call that serves.
ghost use Rattle.std.specs.Prelude.{◌≡◌, ◌≢◌, ◌⊎◌, ℕ, List, Option, Some, None, Err, IfSome, true, false, vec_len, IfOk};
ghost use Rattle.wb_base.specs.declared.rows.Row.{Row as KeptRow};
ghost use Rattle.wb_tables.specs.Standing.{Standing};
ghost use Rattle.wb_server.specs.Workers.{AllHaveNone, OneFailed};
ghost use Rattle.wb_cli.specs.declared.plans.Lock.{Lock as LockOf};
ghost use Rattle.wb_cli.specs.declared.plans.Plan.TheVariants.{Serve};
ghost use Rattle.wb_cli.specs.CommandLine.{Asks};
ghost use Rattle.wb_server.specs.Serves.{AsksLock, HasEndedServing, IsServeForm, ServesNone, OpensOne, ServesAsked, ServesUnlessHindered, IsUntouched, WhereOpens};

use crate::starting::start;
use crate::stations::{ServeEnd, serve_by};
use std::alloc::Global;
use std::sync::Wait;
use std::thread::Threads;
use wb_base::{Keeper, Source, Text};
use wb_cli::{Lock, Plan, PlanFault, Status, plan};
use wb_desk::Closed;
use wb_front::Station;
use wb_promise::{a_desk_leaves_rows_that_are_read, each_script_is_as_promised};
use wb_transport::{Listener, Ticker};

/// How a call that was to serve ended, with the keeper, where it came back: always, but where a host was opened and there was no memory
/// for its workers.
#[derive(Drop)]
pub struct Served<K: Keeper> {
    pub status: Status,
    pub keeper: Option<K>,
}

// How the call ends where its stations ended.
fn finished<K: Keeper>(ended: ServeEnd<K>) -> Served<K>
    ensures served { HasEndedServing result.status }
    ensures done { result.status ≡ Status.Done → ended.all ≡ true }
    ensures failed { result.status ≡ Status.ListenFault → ended.all ≡ false }
    ensures keeper { result.keeper ≡ Some ended.closed.keeper }
{
    let ServeEnd { all, closed } = ended;
    let Closed {
        desk: _,
        keeper,
        turns: _,
        numbers: _,
    } = closed;
    Served {
        status: if all {
            Status::Done
        } else {
            Status::ListenFault
        },
        keeper: Some(keeper),
    }
}

// How the call ends where no host was opened.
fn unserved<K: Keeper>(status: Status, keeper: K) -> Served<K>
    ensures { result ≡ record { status = status; keeper = Some keeper } }
{
    Served {
        status,
        keeper: Some(keeper),
    }
}

// The lock by which the workers of the host take turns that the words ask to serve.
fn asked_lock(alloc: Global, words: &[Text]) -> Result<Lock, PlanFault>
    ensures ok { IfOk result (AsksLock words.now) }
    ensures usage { result ≡ Err PlanFault.Usage → IsServeForm words.now → ⊥ }
{
    match plan(alloc, words) {
        Ok(Plan::Serve { lock, .. }) => Ok(lock),
        Ok(_) => Err(PlanFault::Usage),
        Err(fault) => Err(fault),
    }
}

/// Does what the words ask for a host that serves: reads the setup's text to its end, opens the host over the rows that the keeper holds,
/// and serves it at these stations, one worker in a thread of its own for each, until each listener has no more links or failed often. The
/// stations come back in their order. It waits for links and for its workers.
pub fn serve<
    S: Source,
    Li: Listener + Send,
    T: Ticker + Send,
    K: Keeper + Send,
    R: Threads + Wait + Sync,
>(
    rt: &R,
    alloc: Global,
    words: &[Text],
    setup: &mut S,
    stations: &mut Vec<Station<Li, T>>,
    keeper: K,
) -> Served<K>
where
    Li::End: Send,
    // There are as many stations as the words say workers.
    requires stations { (text : List ℕ) (listen : List ℕ) (workers : ℕ) (lock : LockOf) (store : Option (List ℕ)) → Asks words.now (Serve text listen workers lock store) → vec_len stations.old ≡ workers }
    requires held { (K.end keeper).honest → (rows : List KeptRow) × (K.end keeper).holds rows }
    // Words are told to be no form only where they are none; then that is told, or there was no memory, and nothing is read or served.
    ensures usage { result.status ≡ Status.Usage → IsServeForm words.now → ⊥ }
    ensures no_form { (IsServeForm words.now → ⊥) → ((result.status ≡ Status.Usage) ⊎ (result.status ≡ Status.NoMemory)) × (result.keeper ≡ Some keeper) × IsUntouched (S.end setup.old) (S.end setup.new) }
    // The setup's source failed at no call of a run that does not say so.
    ensures read_on { result.status ≢ Status.ReadFault → (S.end setup.new).count ≡ (S.end setup.old).count }
    ensures keeper { result.keeper ≡ None → (result.status ≡ Status.NoMemory) × ((k : _) × (desk : Standing) × OpensOne (S.end setup.old) (S.end setup.new) (K.end keeper) (K.end k) desk) }
    ensures stations { vec_len stations.new ≡ vec_len stations.old }
    // Where no host served, the stations are as they were, and there is a cause.
    ensures none { (HasEndedServing result.status → ⊥) → stations.new.items ≡ stations.old.items }
    ensures cause { IsServeForm words.now → (HasEndedServing result.status → ⊥) → IfSome result.keeper (λ k. ServesNone (S.end setup.old) (S.end setup.new) (K.end keeper) (K.end k) result.status) }
    // Where one served, it was one that the text opened over what the keeper held, by the lock that the words ask for. By a mutex each reply
    // over the links of the stations, which came back in order, was a turn of that host. By a lock with tickets all turns are one script,
    // played as promised, and the replies are its replies.
    ensures served { HasEndedServing result.status → ServesAsked Li.end T.end stations.old.items stations.new.items words.now (S.end setup.old) (S.end setup.new) K.end keeper result.keeper }
    ensures done { result.status ≡ Status.Done → AllHaveNone Li.end stations.new.items }
    ensures failed { result.status ≡ Status.ListenFault → OneFailed Li.end stations.old.items stations.new.items }
    // A text within the limit that is accepted, over rows that are read, is served, or there was no memory, or the keeper failed in opening.
    ensures complete { IsServeForm words.now → WhereOpens (S.end setup.old) (S.end setup.new) (K.end keeper) (IfSome result.keeper (λ k. ServesUnlessHindered (K.end keeper) (K.end k) result.status)) }
{
    let mut keeper = keeper;
    let lock = match asked_lock(alloc, words) {
        Ok(lock) => lock,
        Err(PlanFault::Usage) => return unserved(Status::Usage, keeper),
        Err(PlanFault::Memory) => return unserved(Status::NoMemory, keeper),
    };
    let (routes, desk) = match start(alloc, setup, &mut keeper) {
        Ok(started) => started,
        Err(status) => return unserved(status, keeper),
    };
    each_script_is_as_promised();
    a_desk_leaves_rows_that_are_read();
    match serve_by(rt, alloc, lock, &routes, desk, keeper, stations) {
        Ok(ended) => {
            ended.closed.desk.stands();
            finished(ended)
        }
        Err(_) => Served {
            status: Status::NoMemory,
            keeper: None,
        },
    }
}
