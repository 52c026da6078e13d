//! How a host takes the rows of a store, and how it changes them.
ghost use Rattle.std.specs.Prelude.{◌≡◌, ◌≤◌, ◌<◌, ◌-◌, Some, None, [], IsSome, IfOk, OnOk, Err, sum_by};
ghost use Rattle.wb_list.specs.Keyed.{IsAscending};
ghost use Rattle.wb_base.specs.KeptRows.{key_cmp, key_of};
ghost use Rattle.wb_base.specs.declared.faults.KeepErr.{KeepErr as KeepError};
ghost use Rattle.wb_base.specs.declared.faults.KeepErr.TheVariants.{Failed as StoreFailed};
ghost use Rattle.wb_etcd.specs.declared.standing.NotKept.TheVariants.{Unsent as WasUnsent, Sent as WasSent};
ghost use Rattle.wb_etcd.specs.KeyTexts.{IsRange};
ghost use Rattle.wb_etcd.specs.Transactions.{operations};
ghost use Rattle.wb_transport.specs.Dials.{Dialed};
ghost use Rattle.wb_etcd.specs.Exchanges.{connection};
ghost use Rattle.wb_etcd.specs.Holding.{keys_after, operation_limit, ReadsAll, TakesOver, Commits};

use crate::answers::{add_rows, has_more, is_made, items, put_at, revision};
use crate::exchange::{ask, connect, exchange};
use crate::keys::{KeyRange, all_rows, holder_key, key_text};
use crate::requests::{RANGE, TRANSACTION, batch, fits, one, range, take_over};
use crate::standing::NotKept;
use std::alloc::Global;
use wb_base::{Change, KeepErr, Memory, Row, Text};
use wb_list::Sorted;
use wb_transport::Dial;

/// How many rows are asked for at once. A row has at most what one request to etcd may have, 1.5 MiB where it is not set.
pub const PIECE_ROWS: u32 = 16;

// The keys of the rows that follow these.
fn range_after(alloc: Global, prefix: &[u8], rows: &[Row]) -> Result<KeyRange, Memory>
    ensures { IfOk result (λ range. IsRange range (keys_after prefix.now rows.now)) }
{
    let all = all_rows(alloc, prefix)?;
    match rows.last() {
        Some(last) => {
            let mut from = key_text(alloc, prefix, last.key)?;
            from.push(0)?;
            Ok(KeyRange {
                from,
                below: all.below,
            })
        }
        None => Ok(all),
    }
}

// All rows as they stood at a revision.
fn read_rows<D: Dial>(
    alloc: Global,
    dial: &mut D,
    endpoints: &[Text],
    prefix: &[u8],
    revision: u64,
) -> Result<Sorted<Row>, KeepErr>
    ensures { (x : Dialed) → (D.end dial.old).told ≡ Some x → IfOk result (λ rows. (y : Dialed) × ((D.end dial.new).told ≡ Some y) × ReadsAll endpoints.now prefix.now revision x y [] rows.items) }
{
    let mut rows = Sorted::new(alloc);
    for _ in 0..u64::MAX {
        let keys = range_after(alloc, prefix, rows.as_slice())?;
        let text = range(alloc, &keys, PIECE_ROWS, revision)?;
        let answer = ask(alloc, dial, endpoints, RANGE, text.as_str())?;
        let told = items(&answer);
        add_rows(alloc, prefix, told, &mut rows)?;
        if !has_more(&answer) {
            return Ok(rows);
        }
        if told.is_empty() {
            return Err(KeepErr::Failed);
        }
    }
    Err(KeepErr::Failed)
}

/// Takes the store from whoever holds it, and reads its rows: since which revision, and the rows.
pub(crate) fn take<D: Dial>(
    alloc: Global,
    dial: &mut D,
    endpoints: &[Text],
    prefix: &[u8],
) -> Result<(u64, Vec<Row>), KeepErr>
    ensures ascending { IfOk result (λ taken. IsAscending key_cmp key_of taken.1.items) }
    ensures taken { (x : Dialed) → (D.end dial.old).told ≡ Some x → IfOk result (λ taken. (y : Dialed) × ((D.end dial.new).told ≡ Some y) × TakesOver endpoints.now prefix.now x y taken.0 taken.1.items) }
{
    let holder = holder_key(alloc, prefix)?;
    let asked = one(alloc, holder.as_slice())?;
    let held = ask(alloc, dial, endpoints, RANGE, asked.as_str())?;
    let before = put_at(alloc, items(&held))?;
    let text = take_over(alloc, prefix, before)?;
    let taken = ask(alloc, dial, endpoints, TRANSACTION, text.as_str())?;
    if !is_made(&taken) {
        return Err(KeepErr::Failed);
    }
    let since = revision(alloc, &taken)?;
    let rows = read_rows(alloc, dial, endpoints, prefix, since)?;
    Ok((since, rows.into_vec()))
}

/// Makes changes, by the host that holds the store since a revision.
pub(crate) fn commit<D: Dial>(
    alloc: Global,
    dial: &mut D,
    endpoints: &[Text],
    prefix: &[u8],
    revision: u64,
    changes: &[Change],
) -> Result<(), NotKept>
    ensures made { (x : Dialed) → (D.end dial.old).told ≡ Some x → OnOk result ((y : Dialed) × ((D.end dial.new).told ≡ Some y) × Commits endpoints.now prefix.now revision x y changes.now) }
    ensures many { operation_limit < sum_by operations changes.now → (result ≡ Err (WasUnsent StoreFailed)) × ((D.end dial.new).told ≡ (D.end dial.old).told) }
    ensures unreached { (x : Dialed) → (D.end dial.old).told ≡ Some x → (connection endpoints.now x).line ≡ None → (why : KeepError) → ¬ (result ≡ Err (WasSent why)) }
    ensures reached { (x : Dialed) → (D.end dial.old).told ≡ Some x → sum_by operations changes.now ≤ operation_limit → IsSome (connection endpoints.now x).line → ¬ (result ≡ Err (WasUnsent StoreFailed)) }
    ensures unsent { (x : Dialed) → (D.end dial.old).told ≡ Some x → (why : KeepError) → result ≡ Err (WasUnsent why) → (D.end dial.new).told ≡ Some x }
{
    if !fits(changes) {
        return Err(NotKept::Unsent(KeepErr::Failed));
    }
    let text = batch(alloc, prefix, revision, changes)?;
    let (mut link, request) = connect(alloc, dial, endpoints, TRANSACTION, text.as_str())?;
    match exchange(alloc, &mut link, request.as_str()) {
        Ok(answer) => {
            dial.close(link);
            if is_made(&answer) {
                Ok(())
            } else {
                Err(NotKept::Sent(KeepErr::Failed))
            }
        }
        Err(why) => Err(NotKept::Sent(why)),
    }
}
