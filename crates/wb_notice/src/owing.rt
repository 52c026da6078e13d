//! The notices that are owed.
ghost use Rattle.std.specs.Prelude.{◌≡◌, ◌++◌, ◌==◌, ◌&&◌, ℕ, true, map, filter, IfOk, OnOk};
ghost use Rattle.std.specs.List.{flat_map, list_all};
ghost use Rattle.wb_base.specs.KeptRows.{key_cmp, key_of};
ghost use Rattle.wb_custody.specs.Desks.{have_right_actors};
ghost use Rattle.wb_list.specs.Keyed.{IsAscending};
ghost use Rattle.wb_model.specs.KeptRules.{AreKept};
ghost use Rattle.wb_model.specs.Openings.{registry_of};
ghost use Rattle.wb_model.specs.Tables.{Case as CaseData};
ghost use Rattle.wb_rows.specs.Reports.{case_report};
ghost use Rattle.wb_rows.specs.Held.{held_by};
ghost use Rattle.wb_rows.specs.Openings.{cases_of, case_of, tables_of, time_of};
ghost use Rattle.wb_notice.specs.Notices.{notice_row as row_of};
ghost use Rattle.wb_notice.specs.Owed as owed;

use crate::arising::{arising, is_for};
use crate::live::lives;
use crate::notice::notice_row;
use crate::users::{Addressee, addressees};
use crate::{Notice, NoticeKind};
use std::alloc::Global;
use wb_base::{Day, Memory, Moment, Row, Tenant};
use wb_custody::what_legal_trails_say_of_requests;
use wb_rows::{CaseItem, Tables};
use wb_tenants::Registry;
use wb_terms::day_of;

// Adds what is owed to a user, of a report of which these kinds arise.
fn add_user(
    notices: &mut Vec<Notice>,
    item: &CaseItem,
    arising: &[NoticeKind],
    user: &Addressee,
    today: Day,
) -> Result<(), Memory>
    ensures { OnOk result (notices.new.items ≡ notices.old.items ++ owed.notices_to item.now.tenant today arising.now (case_of (case_report item.now)) user.now) }
{
    for kind in arising {
        if is_for(&item.case, user, *kind) {
            notices.push(Notice {
                tenant: item.tenant,
                number: item.number,
                user: user.user,
                kind: *kind,
                day: today,
            })?;
        }
    }
    Ok(())
}

// Adds what is owed of a report.
fn add_report(
    alloc: Global,
    notices: &mut Vec<Notice>,
    registry: &Registry,
    item: &CaseItem,
    users: &[Addressee],
    today: Day,
) -> Result<(), Memory>
    requires actors { have_right_actors item.now.case.items ≡ true }
    requires users { users.now ≡ owed.addressees (registry_of registry.now.lists item.now.tenant).users }
    ensures { OnOk result (notices.new.items ≡ notices.old.items ++ owed.notices_on item.now.tenant (registry_of registry.now.lists item.now.tenant) today (case_of (case_report item.now))) }
{
    let kinds = arising(alloc, registry, item.tenant, &item.case, today)?;
    for user in users {
        add_user(notices, item, kinds.as_slice(), user, today)?;
    }
    Ok(())
}

// Whether a report is a tenant's, and live on its day.
fn is_live_of(item: &CaseItem, tenant: Tenant, today: Day) -> bool
    ensures { result ≡ ((item.now.tenant == tenant) && owed.is_live_on today (case_of (case_report item.now))) }
{
    item.tenant == tenant && lives(&item.case, today)
}

// Adds what is owed of a tenant's reports that are live on its day.
fn add_tenant(
    alloc: Global,
    notices: &mut Vec<Notice>,
    tables: &Tables,
    tenant: Tenant,
    users: &[Addressee],
    today: Day,
) -> Result<(), Memory>
    requires actors { list_all (λ (c : CaseData). have_right_actors c.trail) (cases_of (map case_report tables.now.cases) tenant) ≡ true }
    requires users { users.now ≡ owed.addressees (registry_of tables.now.registry.lists tenant).users }
    ensures { OnOk result (notices.new.items ≡ notices.old.items
        ++ flat_map (owed.notices_on tenant (registry_of tables.now.registry.lists tenant) today) (filter (owed.is_live_on today) (cases_of (map case_report tables.now.cases) tenant))) }
{
    for item in tables.cases.as_slice() {
        if is_live_of(item, tenant, today) {
            add_report(alloc, notices, &tables.registry, item, users, today)?;
        }
    }
    Ok(())
}

/// The notices that are owed, by tenant, report, user and kind.
pub(crate) fn owed_notices(
    alloc: Global,
    tables: &Tables,
    now: Moment,
) -> Result<Vec<Notice>, Memory>
    requires { (t : ℕ) → AreKept (time_of (held_by tables.now)) tables.now.registry.lists t (tables_of (held_by tables.now) t) }
    ensures { IfOk result (λ notices. notices.items ≡ owed.owed (owed.unsealed (held_by tables.now)) now) }
{
    what_legal_trails_say_of_requests();
    let lists = tables.registry.lists();
    let mut notices = Vec::new(alloc);
    for item in lists.tenants.as_slice() {
        let users = addressees(alloc, lists.users.as_slice(), item.tenant)?;
        let today = day_of(now, item.offset);
        add_tenant(
            alloc,
            &mut notices,
            tables,
            item.tenant,
            users.as_slice(),
            today,
        )?;
    }
    Ok(notices)
}

/// The rows of notices.
pub(crate) fn rows_of(alloc: Global, notices: &[Notice]) -> Result<Vec<Row>, Memory>
    ensures { IfOk result (λ rows. rows.items ≡ map row_of notices.now) }
{
    let mut rows = Vec::new(alloc);
    for notice in notices {
        rows.push(notice_row(alloc, notice)?)?;
    }
    Ok(rows)
}

/// The rows of the notices that are owed at a moment, by key.
///
/// Days are each tenant's own. The tables are those of kept rows.
pub fn owed(alloc: Global, tables: &Tables, now: Moment) -> Result<Vec<Row>, Memory>
    requires { (t : ℕ) → AreKept (time_of (held_by tables.now)) tables.now.registry.lists t (tables_of (held_by tables.now) t) }
    ensures rows { IfOk result (λ rows. rows.items ≡ map row_of (owed.owed (owed.unsealed (held_by tables.now)) now)) }
    ensures by_key { IfOk result (λ rows. IsAscending key_cmp key_of rows.items) }
{
    let notices = owed_notices(alloc, tables, now)?;
    Ok(rows_of(alloc, notices.as_slice())?)
}
