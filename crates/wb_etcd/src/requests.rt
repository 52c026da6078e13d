//! What a store is asked.
ghost use Rattle.std.specs.Prelude.{◌≡◌, ◌+◌, ◌<◌, nat_le, IfOk, sum_by};
ghost use Rattle.std.specs.String.{string_bytes};
ghost use Rattle.wb_etcd.specs.KeyTexts.{IsRange, Keys};
ghost use Rattle.wb_etcd.specs.Transactions.{base64_text, put_text, delete_text, change_text, operations, changes_text, transaction_text, batch_text, take_over_text, one_text, range_text, request_text};

use crate::keys::{KeyRange, all_under, holder_key, key_text};
use base64::engine::general_purpose::STANDARD;
use std::alloc::Global;
use wb_base::{Change, Memory, Row};

/// How many operations one transaction may have. The `--max-txn-ops` of each node has to be as many at least.
pub const MAX_TXN_OPS: usize = 32_768;

/// The path of transactions.
pub(crate) const TRANSACTION: &str = "/v3/kv/txn";

/// The path of ranges.
pub(crate) const RANGE: &str = "/v3/kv/range";

// The kinds of the rows of a report: entries of its trail, and its sealed answers.
const TRAIL: u8 = 6;

const SEALED: u8 = 7;

// Bytes in base64.
#[tactic(auto, unfolding(crate::specs::Transactions::base64_text))]
pub(crate) fn base64_of(alloc: Global, bytes: &[u8]) -> Result<String, Memory>
    ensures { IfOk result (λ text. string_bytes text ≡ base64_text bytes.now) }
{
    Ok(STANDARD.encode(alloc, bytes)?)
}

// Puts a value under a key.
#[tactic(auto, unfolding(crate::specs::Transactions::put_text))]
fn put_of(alloc: Global, key: &[u8], value: &[u8]) -> Result<String, Memory>
    ensures { IfOk result (λ text. string_bytes text ≡ put_text key.now value.now) }
{
    let key = base64_of(alloc, key)?;
    let value = base64_of(alloc, value)?;
    Ok(format!(in alloc; r#"{{"request_put":{{"key":"{key}","value":"{value}"}}}}"#)?)
}

// Puts a row.
#[tactic(auto, unfolding(crate::specs::Transactions::change_text))]
fn put_row(alloc: Global, prefix: &[u8], row: &Row) -> Result<String, Memory>
    ensures { IfOk result (λ text. string_bytes text ≡ change_text prefix.now (Change.Put row.now)) }
{
    let key = key_text(alloc, prefix, row.key)?;
    put_of(alloc, key.as_slice(), row.text.as_bytes())
}

// Deletes what stands under keys.
#[tactic(auto, unfolding(crate::specs::Transactions::delete_text))]
fn delete_of(alloc: Global, range: &KeyRange) -> Result<String, Memory>
    ensures { (keys : Keys) → IsRange range.now keys → IfOk result (λ text. string_bytes text ≡ delete_text keys) }
{
    let from = base64_of(alloc, range.from.as_slice())?;
    let below = base64_of(alloc, range.below.as_slice())?;
    Ok(format!(in alloc; r#"{{"request_delete_range":{{"key":"{from}","range_end":"{below}"}}}}"#)?)
}

// Makes a change.
#[tactic(auto, unfolding(crate::specs::Transactions::change_text))]
fn change_of(alloc: Global, prefix: &[u8], change: &Change) -> Result<String, Memory>
    ensures { IfOk result (λ text. string_bytes text ≡ change_text prefix.now change.now) }
{
    match change {
        Change::Put(row) => put_row(alloc, prefix, row),
        Change::DropReport(tenant, number) => {
            let trail = all_under(alloc, prefix, TRAIL, tenant.id(), number.get())?;
            let sealed = all_under(alloc, prefix, SEALED, tenant.id(), number.get())?;
            let first = delete_of(alloc, &trail)?;
            let second = delete_of(alloc, &sealed)?;
            Ok(format!(in alloc; "{first},{second}")?)
        }
    }
}

// How many operations a change takes.
fn operations_of(change: &Change) -> usize
    ensures { result ≡ operations change.now }
{
    match change {
        Change::Put(_) => 1,
        Change::DropReport(_, _) => 2,
    }
}

/// Whether changes take no more operations than a transaction may have.
pub(crate) fn fits(changes: &[Change]) -> bool
    ensures { result ≡ nat_le (sum_by operations changes.now) 32_768 }
{
    let mut count = 0;
    for change in changes {
        count += operations_of(change);
        if MAX_TXN_OPS < count {
            return false;
        }
    }
    true
}

// Makes changes in turn.
fn changes_of(alloc: Global, prefix: &[u8], changes: &[Change]) -> Result<String, Memory>
    ensures { IfOk result (λ text. string_bytes text ≡ changes_text prefix.now changes.now) }
{
    let Some((first, rest)) = changes.split_first() else {
        return Ok(String::new(alloc));
    };
    let mut text = change_of(alloc, prefix, first)?;
    for change in rest {
        text.push(',')?;
        text.push_str(change_of(alloc, prefix, change)?.as_str())?;
    }
    Ok(text)
}

// Makes operations where the holder's key was last put at a revision.
#[tactic(auto, unfolding(crate::specs::Transactions::transaction_text))]
fn transaction_of(
    alloc: Global,
    prefix: &[u8],
    revision: u64,
    operations: &str,
) -> Result<String, Memory>
    ensures { IfOk result (λ text. string_bytes text ≡ transaction_text prefix.now revision operations.now) }
{
    let holder = holder_key(alloc, prefix)?;
    let key = base64_of(alloc, holder.as_slice())?;
    Ok(format!(in alloc;
        r#"{{"compare":[{{"key":"{key}","mod_revision":"{revision}","result":"EQUAL","target":"MOD"}}],"success":[{operations}]}}"#
    )?)
}

/// Changes of the rows, by the host that holds the store since a revision.
#[tactic(auto, unfolding(crate::specs::Transactions::batch_text))]
pub(crate) fn batch(
    alloc: Global,
    prefix: &[u8],
    revision: u64,
    changes: &[Change],
) -> Result<String, Memory>
    ensures { IfOk result (λ text. string_bytes text ≡ batch_text prefix.now revision changes.now) }
{
    let operations = changes_of(alloc, prefix, changes)?;
    transaction_of(alloc, prefix, revision, operations.as_str())
}

/// Takes the store, where nobody took it since a revision.
#[tactic(auto, unfolding(crate::specs::Transactions::take_over_text))]
pub(crate) fn take_over(alloc: Global, prefix: &[u8], revision: u64) -> Result<String, Memory>
    ensures { IfOk result (λ text. string_bytes text ≡ take_over_text prefix.now revision) }
{
    let holder = holder_key(alloc, prefix)?;
    let put = put_of(alloc, holder.as_slice(), b"")?;
    transaction_of(alloc, prefix, revision, put.as_str())
}

/// Reads what stands under one key.
#[tactic(auto, unfolding(crate::specs::Transactions::one_text))]
pub(crate) fn one(alloc: Global, key: &[u8]) -> Result<String, Memory>
    ensures { IfOk result (λ text. string_bytes text ≡ one_text key.now) }
{
    let key = base64_of(alloc, key)?;
    Ok(format!(in alloc; r#"{{"key":"{key}"}}"#)?)
}

/// Reads what stood under keys at a revision, so many of them at most.
#[tactic(auto, unfolding(crate::specs::Transactions::range_text))]
pub(crate) fn range(
    alloc: Global,
    range: &KeyRange,
    limit: u32,
    revision: u64,
) -> Result<String, Memory>
    ensures { (keys : Keys) → IsRange range.now keys → IfOk result (λ text. string_bytes text ≡ range_text keys limit revision) }
{
    let from = base64_of(alloc, range.from.as_slice())?;
    let below = base64_of(alloc, range.below.as_slice())?;
    Ok(format!(in alloc;
        r#"{{"key":"{from}","limit":"{limit}","range_end":"{below}","revision":"{revision}"}}"#
    )?)
}

/// The request that brings a text to an endpoint.
#[tactic(auto, unfolding(crate::specs::Transactions::request_text))]
pub(crate) fn request(
    alloc: Global,
    endpoint: &str,
    path: &str,
    body: &str,
) -> Result<String, Memory>
    ensures { IfOk result (λ text. string_bytes text ≡ request_text endpoint.now path.now body.now) }
{
    let size = body.len();
    Ok(format!(in alloc;
        "POST {path} HTTP/1.1\r\nHost: {endpoint}\r\nConnection: close\r\nContent-Type: application/json\r\nContent-Length: {size}\r\n\r\n{body}"
    )?)
}
