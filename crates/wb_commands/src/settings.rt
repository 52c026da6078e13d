//! What an administrator asks to set, and the reply to it.
ghost use Rattle.std.specs.Prelude.{◌≡◌, ◌≤◌, Result, Err, true, IfOk, SomeIff};
ghost use Rattle.wb_base.specs.declared.faults.FormFault.{FormFault as FormFaultData};
ghost use Rattle.wb_base.specs.declared.form.Form.{Form as FormData};
ghost use Rattle.wb_model.specs.Fits.{fits_context, fits_form};
ghost use Rattle.wb_model.specs.Json.{told};
ghost use Rattle.wb_model.specs.Settings as settings;
ghost use Rattle.wb_model.specs.Settings.{proposal_told, next_version};
ghost use Rattle.wb_model.specs.ShortViews.{done_view as done_data};
ghost use Rattle.wb_model.specs.Tables.{Registry};
ghost use Rattle.wb_commands.specs.Steps.{IsProposed};
ghost use Rattle.wb_tables.specs.Kept.{plain_of};
ghost use Rattle.wb_tables.specs.Places.{IsLookedUp};

use crate::draft::{Draft, Setting, refusing, telling};
use crate::sessions::done;
use std::alloc::Global;
use wb_base::{Form, FormFault, Memory, UserId};
use wb_model::{Body, ContextSet, SettingsSet, Told, UserSet};
use wb_tables::{Proposal, Tenancy};
use wb_tenants::{copy_context, copy_form, copy_settings, copy_user};
use wb_views::{Refusal, refuse_form, version_view};

// The step of what is asked to be set, with a reply that it was done.
fn setting(proposal: Proposal) -> Draft
    ensures { result ≡ Draft.Sets (record { proposal = proposal; told = told 200 done_data }) }
{
    Draft::Sets(Setting {
        proposal,
        told: done(200),
    })
}

/// The step of new settings.
pub fn set_settings(next: &SettingsSet) -> Result<Draft, Memory>
    ensures { IfOk result (λ step. (g : Registry) → IsProposed g (settings.ToTenant next.now) step) }
{
    Ok(setting(Proposal::ToTenant(copy_settings(next)?)))
}

// The user of an id, where the id is in range.
fn user_of(u: u32) -> Option<UserId>
    ensures { SomeIff result ((1 ≤ u) × (u ≤ 256)) u }
{
    if u <= 256 {
        UserId::try_new(u as u16)
    } else {
        None
    }
}

/// The step of a user to be set.
pub fn set_user(alloc: Global, u: u32, next: &UserSet) -> Result<Draft, Memory>
    ensures { IfOk result (λ step. (g : Registry) → IsProposed g (settings.ToUser u next.now) step) }
{
    match user_of(u) {
        Some(user) => Ok(setting(Proposal::ToUser(user, copy_user(next)?))),
        None => refusing(alloc, Refusal::NotFound),
    }
}

/// The step of a context to be set.
pub fn set_context(c: u32, next: &ContextSet) -> Result<Draft, Memory>
    requires fits { fits_context next.now ≡ true }
    ensures { IfOk result (λ step. (g : Registry) → IsProposed g (settings.ToContext c next.now) step) }
{
    Ok(setting(Proposal::ToContext(c, copy_context(next)?)))
}

// The version that a form's next one is.
fn next_version_of(tenancy: &Tenancy, f: u32) -> u32
    requires place { IsLookedUp (plain_of tenancy.now) }
    ensures { result ≡ next_version f tenancy.now.configuration.registry.forms }
{
    match tenancy.configuration.newest_form(f) {
        Some(item) => item.version + 1,
        None => 1,
    }
}

// The reply to a form that is set.
fn versioned(alloc: Global, tenancy: &Tenancy, f: u32) -> Result<Told, Memory>
    requires place { IsLookedUp (plain_of tenancy.now) }
    ensures { IfOk result (λ t. (form : Result FormData FormFaultData) → t ≡ proposal_told tenancy.now.configuration.registry (settings.ToForm f form)) }
{
    let version = next_version_of(tenancy, f);
    Ok(Told {
        status: 200,
        body: Body::of(version_view(alloc, version)?),
    })
}

// The step that refuses a form for a fault; its number is looked at first.
fn refuse_version(alloc: Global, f: u32, fault: &FormFault) -> Result<Draft, Memory>
    ensures { IfOk result (λ step. (g : Registry) → IsProposed g (settings.ToForm f (Err fault.now)) step) }
{
    if 1 <= f && f <= 16 {
        Ok(telling(refuse_form(alloc, fault)?))
    } else {
        refusing(alloc, Refusal::NotFound)
    }
}

/// The step of one more version of a form.
pub fn set_form(
    alloc: Global,
    tenancy: &Tenancy,
    f: u32,
    form: &Result<Form, FormFault>,
) -> Result<Draft, Memory>
    requires place { IsLookedUp (plain_of tenancy.now) }
    requires fits { fits_form form.now ≡ true }
    ensures { IfOk result (IsProposed tenancy.now.configuration.registry (settings.ToForm f form.now)) }
{
    match form {
        Ok(form) => Ok(Draft::Sets(Setting {
            proposal: Proposal::ToForm(f, copy_form(form)?),
            told: versioned(alloc, tenancy, f)?,
        })),
        Err(fault) => refuse_version(alloc, f, fault),
    }
}
