//! The statements over the two tables, and what is made of changes with them.
ghost use Rattle.std.specs.Prelude.{◌≡◌, ◌<◌, ◌==◌, ◌∷◌, ◌++◌, [], get_or, if◌then◌else◌, false, Some, None, IsOk, OnOk, OnErr};
ghost use Rattle.sqlite.specs.Held.{state};
ghost use Rattle.sqlite.specs.Listing.{understood};
ghost use Rattle.sqlite.specs.State.{HasCleanDisk, IsUnchanged, KeepsCommit};
ghost use Rattle.sqlite.specs.Values.{bound};
ghost use Rattle.wb_base.specs.declared.rows.Change.TheVariants.{Put};
ghost use Rattle.wb_sqlite.specs.Statements.{OkMakes, ErrKeeps, LeavesAsBefore, Understands, six_texts, make_tables, statements_of, all_statements, on_report, drop_trail, drop_sealed, put_record, put_entry, put_sealed};

use crate::refusal::Refusal;
use sqlite::types::ValueRef;
use sqlite::{Alter, Error, ErrorCode, Transaction, params};
use wb_base::{Change, Key, Row};
use wb_stored::is_sealed;

const MAKE_RECORD: &str =
    "CREATE TABLE IF NOT EXISTS record (kind INTEGER NOT NULL, tenant INTEGER NOT NULL, a INTEGER NOT NULL, b INTEGER NOT NULL, body TEXT NOT NULL, PRIMARY KEY (kind, tenant, a, b))";

const MAKE_SEALED: &str =
    "CREATE TABLE IF NOT EXISTS sealed (tenant INTEGER NOT NULL, a INTEGER NOT NULL, body TEXT NOT NULL, PRIMARY KEY (tenant, a))";

const PUT_RECORD: &str =
    "INSERT INTO record (kind, tenant, a, b, body) VALUES (?1, ?2, ?3, ?4, ?5) ON CONFLICT (kind, tenant, a, b) DO UPDATE SET body = excluded.body";

const PUT_SEALED: &str =
    "INSERT INTO sealed (tenant, a, body) VALUES (?1, ?2, ?3) ON CONFLICT (tenant, a) DO UPDATE SET body = excluded.body";

const INSERT_RECORD: &str =
    "INSERT INTO record (kind, tenant, a, b, body) VALUES (?1, ?2, ?3, ?4, ?5)";

const INSERT_SEALED: &str = "INSERT INTO sealed (tenant, a, body) VALUES (?1, ?2, ?3)";

const DROP_TRAIL: &str = "DELETE FROM record WHERE kind = 6 AND tenant = ?1 AND a = ?2";

const DROP_SEALED: &str = "DELETE FROM sealed WHERE tenant = ?1 AND a = ?2";

/// The rows of `record`, by ascending key.
pub(crate) const READ_RECORD: &str =
    "SELECT kind, tenant, a, b, body FROM record ORDER BY kind, tenant, a, b";

/// The rows of `sealed`, by ascending key.
pub(crate) const READ_SEALED: &str = "SELECT tenant, a, body FROM sealed ORDER BY tenant, a";

const SIX: [&str; 6] = [
    PUT_RECORD,
    PUT_SEALED,
    DROP_TRAIL,
    DROP_SEALED,
    READ_RECORD,
    READ_SEALED,
];

// The text of one of the six.
fn text_at(at: usize) -> &'static str
    requires { at < 6 }
    ensures { result.now ≡ get_or six_texts at [] }
{
    SIX[at]
}

// Makes one statement.
fn run<S: Alter>(
    tx: &mut Transaction<'_, S>,
    text: &str,
    given: &[ValueRef<'_>],
) -> Result<(), Refusal>
    ensures same_reference { tx.new.conn.ghost_name ≡ tx.old.conn.ghost_name }
    ensures made { OkMakes S.Store (record { tried = None; text = text.now; given = bound given.now } ∷ []) tx.old.conn.now tx.new.conn.now result }
    ensures ended { tx.old.conn.now.in_transaction ≡ false → OnOk result ⊥ × (tx.new.conn.now ≡ tx.old.conn.now) }
    ensures kept { ErrKeeps S.Store tx.old.conn.now tx.new.conn.now result }
    ensures survives { LeavesAsBefore S.Store tx.old.conn.now tx.new.conn.now }
{
    tx.execute(text, given)?;
    Ok(())
}

// Sets a row that is new as a rule: it is inserted, and only where a row has its key already the statement is made.
fn run_new<S: Alter>(
    tx: &mut Transaction<'_, S>,
    tried: &str,
    text: &str,
    given: &[ValueRef<'_>],
) -> Result<(), Refusal>
    ensures same_reference { tx.new.conn.ghost_name ≡ tx.old.conn.ghost_name }
    ensures made { OkMakes S.Store (record { tried = Some tried.now; text = text.now; given = bound given.now } ∷ []) tx.old.conn.now tx.new.conn.now result }
    ensures kept { ErrKeeps S.Store tx.old.conn.now tx.new.conn.now result }
    ensures survives { LeavesAsBefore S.Store tx.old.conn.now tx.new.conn.now }
{
    match tx.execute(tried, given) {
        Ok(_) => Ok(()),
        Err(Error::SqliteFailure(ErrorCode::ConstraintViolation(_))) => run(tx, text, given),
        Err(error) => Err(Refusal::from(error)),
    }
}

/// Makes the tables that are not there.
pub(crate) fn make<S: Alter>(tx: &mut Transaction<'_, S>) -> Result<(), Refusal>
    ensures same_reference { tx.new.conn.ghost_name ≡ tx.old.conn.ghost_name }
    ensures made { OkMakes S.Store make_tables tx.old.conn.now tx.new.conn.now result }
    ensures kept { ErrKeeps S.Store tx.old.conn.now tx.new.conn.now result }
    ensures survives { LeavesAsBefore S.Store tx.old.conn.now tx.new.conn.now }
{
    run(tx, MAKE_RECORD, &[])?;
    run(tx, MAKE_SEALED, &[])
}

// Asks whether a statement can be made over the tables as they stand.
fn expect<S: Alter>(tx: &mut Transaction<'_, S>, text: &str) -> Result<(), Refusal>
    ensures same_reference { tx.new.conn.ghost_name ≡ tx.old.conn.ghost_name }
    ensures understood { HasCleanDisk (state S.Store tx.new.conn.now) → OnOk result (IsOk (understood (state S.Store tx.old.conn.now).now.schema text.now)) }
    ensures same { HasCleanDisk (state S.Store tx.new.conn.now) → OnOk result (IsUnchanged (state S.Store tx.old.conn.now) (state S.Store tx.new.conn.now)) }
    ensures kept { HasCleanDisk (state S.Store tx.new.conn.now) → OnErr result (KeepsCommit (state S.Store tx.old.conn.now) (state S.Store tx.new.conn.now)) }
    ensures survives { LeavesAsBefore S.Store tx.old.conn.now tx.new.conn.now }
{
    tx.prepare(text)?;
    Ok(())
}

/// Asks whether the six statements can be made over the tables as they stand. A table that another program made may have
/// other columns or no key.
pub(crate) fn expect_all<S: Alter>(tx: &mut Transaction<'_, S>) -> Result<(), Refusal>
    ensures same_reference { tx.new.conn.ghost_name ≡ tx.old.conn.ghost_name }
    ensures understood { HasCleanDisk (state S.Store tx.new.conn.now) → OnOk result (Understands S.Store tx.old.conn.now six_texts) }
    ensures same { HasCleanDisk (state S.Store tx.new.conn.now) → OnOk result ((state S.Store tx.new.conn.now).now ≡ (state S.Store tx.old.conn.now).now) }
    ensures inside { HasCleanDisk (state S.Store tx.new.conn.now) → OnOk result (tx.new.conn.now.in_transaction ≡ tx.old.conn.now.in_transaction) }
    ensures keeps { HasCleanDisk (state S.Store tx.new.conn.now) → KeepsCommit (state S.Store tx.old.conn.now) (state S.Store tx.new.conn.now) }
    ensures survives { LeavesAsBefore S.Store tx.old.conn.now tx.new.conn.now }
{
    for at in 0..SIX.len() {
        expect(tx, text_at(at))?;
    }
    Ok(())
}

// Sets the text under a key in `record`. An entry of a trail is new as a rule.
fn write_record<S: Alter>(tx: &mut Transaction<'_, S>, row: &Row) -> Result<(), Refusal>
    ensures same_reference { tx.new.conn.ghost_name ≡ tx.old.conn.ghost_name }
    ensures made { OkMakes S.Store ((if row.now.key.kind == 6 then put_entry row.now else put_record row.now) ∷ []) tx.old.conn.now tx.new.conn.now result }
    ensures kept { ErrKeeps S.Store tx.old.conn.now tx.new.conn.now result }
    ensures survives { LeavesAsBefore S.Store tx.old.conn.now tx.new.conn.now }
{
    let key = row.key;
    let kind = u32::from(key.kind);
    let given = params![kind, key.tenant, key.a, key.b, row.text.as_str()];
    if key.kind == Key::ENTRY {
        run_new(tx, INSERT_RECORD, PUT_RECORD, given)
    } else {
        run(tx, PUT_RECORD, given)
    }
}

// Sets the text under a key in `sealed`.
fn write_sealed<S: Alter>(tx: &mut Transaction<'_, S>, row: &Row) -> Result<(), Refusal>
    ensures same_reference { tx.new.conn.ghost_name ≡ tx.old.conn.ghost_name }
    ensures made { OkMakes S.Store (put_sealed row.now ∷ []) tx.old.conn.now tx.new.conn.now result }
    ensures kept { ErrKeeps S.Store tx.old.conn.now tx.new.conn.now result }
    ensures survives { LeavesAsBefore S.Store tx.old.conn.now tx.new.conn.now }
{
    let key = row.key;
    let text = row.text.as_str();
    run_new(
        tx,
        INSERT_SEALED,
        PUT_SEALED,
        params![key.tenant, key.a, text],
    )
}

// Sets the text under a row's key, in the table of its kind.
fn put<S: Alter>(tx: &mut Transaction<'_, S>, row: &Row) -> Result<(), Refusal>
    ensures same_reference { tx.new.conn.ghost_name ≡ tx.old.conn.ghost_name }
    ensures made { OkMakes S.Store (statements_of (Put row.now)) tx.old.conn.now tx.new.conn.now result }
    ensures kept { ErrKeeps S.Store tx.old.conn.now tx.new.conn.now result }
    ensures survives { LeavesAsBefore S.Store tx.old.conn.now tx.new.conn.now }
{
    if is_sealed(row.key.kind) {
        write_sealed(tx, row)
    } else {
        write_record(tx, row)
    }
}

// Makes a statement on a report.
fn run_on<S: Alter>(
    tx: &mut Transaction<'_, S>,
    text: &str,
    tenant: u32,
    number: u32,
) -> Result<(), Refusal>
    ensures same_reference { tx.new.conn.ghost_name ≡ tx.old.conn.ghost_name }
    ensures made { OkMakes S.Store (on_report text.now tenant number ∷ []) tx.old.conn.now tx.new.conn.now result }
    ensures kept { ErrKeeps S.Store tx.old.conn.now tx.new.conn.now result }
    ensures survives { LeavesAsBefore S.Store tx.old.conn.now tx.new.conn.now }
{
    run(tx, text, params![tenant, number])
}

// Removes the trail and the sealed answers of a report.
fn drop_report<S: Alter>(
    tx: &mut Transaction<'_, S>,
    tenant: u32,
    number: u32,
) -> Result<(), Refusal>
    ensures same_reference { tx.new.conn.ghost_name ≡ tx.old.conn.ghost_name }
    ensures made { OkMakes S.Store (drop_trail tenant number ∷ drop_sealed tenant number ∷ []) tx.old.conn.now tx.new.conn.now result }
    ensures kept { ErrKeeps S.Store tx.old.conn.now tx.new.conn.now result }
    ensures survives { LeavesAsBefore S.Store tx.old.conn.now tx.new.conn.now }
{
    run_on(tx, DROP_TRAIL, tenant, number)?;
    run_on(tx, DROP_SEALED, tenant, number)
}

// Makes a change.
fn make_change<S: Alter>(tx: &mut Transaction<'_, S>, change: &Change) -> Result<(), Refusal>
    ensures same_reference { tx.new.conn.ghost_name ≡ tx.old.conn.ghost_name }
    ensures made { OkMakes S.Store (statements_of change.now) tx.old.conn.now tx.new.conn.now result }
    ensures kept { ErrKeeps S.Store tx.old.conn.now tx.new.conn.now result }
    ensures survives { LeavesAsBefore S.Store tx.old.conn.now tx.new.conn.now }
{
    match change {
        Change::Put(row) => put(tx, row),
        Change::DropReport(tenant, number) => drop_report(tx, tenant.id(), number.get()),
    }
}

// Makes all changes in turn, up to one that is refused.
fn make_all<S: Alter>(tx: &mut Transaction<'_, S>, changes: &[Change]) -> Result<(), Refusal>
    ensures same_reference { tx.new.conn.ghost_name ≡ tx.old.conn.ghost_name }
    ensures made { OkMakes S.Store (all_statements changes.now) tx.old.conn.now tx.new.conn.now result }
    ensures kept { ErrKeeps S.Store tx.old.conn.now tx.new.conn.now result }
    ensures survives { LeavesAsBefore S.Store tx.old.conn.now tx.new.conn.now }
{
    for change in changes {
        make_change(tx, change)?;
    }
    Ok(())
}

/// Makes the tables that are not there, and then all changes in turn, up to one that is refused.
pub(crate) fn make_batch<S: Alter>(
    tx: &mut Transaction<'_, S>,
    changes: &[Change],
) -> Result<(), Refusal>
    ensures same_reference { tx.new.conn.ghost_name ≡ tx.old.conn.ghost_name }
    ensures made { OkMakes S.Store (make_tables ++ all_statements changes.now) tx.old.conn.now tx.new.conn.now result }
    ensures kept { ErrKeeps S.Store tx.old.conn.now tx.new.conn.now result }
    ensures survives { LeavesAsBefore S.Store tx.old.conn.now tx.new.conn.now }
{
    make(tx)?;
    make_all(tx, changes)
}
