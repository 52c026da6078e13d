//! Whether what an entry names is there, and a submission's answers are right.
ghost use Rattle.std.specs.Prelude.{◌≡◌, ◌&&◌, not, is_some, is_none, true, IfOk};
ghost use Rattle.std.specs.List.{list_all};
ghost use Rattle.std.specs.Option.{option_map_or};
ghost use Rattle.wb_base.specs.FormFaults.{is_good};
ghost use Rattle.wb_model.specs.KeptRules.{is_of_channel as is_of_channel_in, is_doer as is_doer_in, users_in, is_named as is_named_in};
ghost use Rattle.wb_model.specs.Openings.{registry_of};
ghost use Rattle.wb_model.specs.Requests.{submission_fault, mark};
ghost use Rattle.wb_model.specs.SetUps.{is_form_item};
ghost use Rattle.wb_model.specs.Tables.{user, context};
ghost use Rattle.wb_model.specs.Trails.{context_in};
ghost use Rattle.wb_rows.specs.ReportRules.{has_right_answers as has_right_answers_in, is_right_entry as is_right_entry_in};

use std::alloc::Global;
use wb_base::{AnswerFault, Answers, Form, Memory, Role, Tenant, UserId};
use wb_model::{Actor, Deed, Entry};
use wb_row_codec::EntryItem;
use wb_tenants::Registry;
use wb_trigger::check;

// Whether a user is there, with this role.
fn has_role(registry: &Registry, tenant: Tenant, id: UserId, deed: &Deed) -> bool
    ensures { result ≡ is_doer_in (registry_of registry.now.lists tenant).users deed.now (Actor.User id) }
{
    let Some(user) = registry.user(tenant, id) else {
        return false;
    };
    match deed {
        Deed::Granted { .. } | Deed::Denied { .. } | Deed::Revoked { .. } => {
            user.role == Role::Custodian
        }
        _ => user.role == Role::Recipient,
    }
}

// Whether who did it is there, with the role of the deed.
fn is_doer(registry: &Registry, tenant: Tenant, entry: &Entry) -> bool
    ensures { result ≡ is_doer_in (registry_of registry.now.lists tenant).users entry.now.deed entry.now.by }
{
    match entry.by {
        Actor::Reporter => true,
        Actor::User(id) => has_role(registry, tenant, id, &entry.deed),
    }
}

// Whether each of these users is there.
fn are_users(registry: &Registry, tenant: Tenant, users: &[UserId]) -> bool
    ensures { result ≡ list_all (λ u. is_some (user u (registry_of registry.now.lists tenant).users)) users.now }
{
    users.iter().all(|id| registry.user(tenant, *id).is_some())
}

// Whether each user is there that a deed names.
fn has_users(registry: &Registry, tenant: Tenant, deed: &Deed) -> bool
    ensures { result ≡ list_all (λ u. is_some (user u (registry_of registry.now.lists tenant).users)) (users_in deed.now) }
{
    match deed {
        Deed::Submitted { readers, .. } | Deed::Transferred { readers, .. } => {
            are_users(registry, tenant, readers.as_slice())
        }
        Deed::Shared { user } | Deed::Unshared { user } => {
            registry.user(tenant, *user).is_some()
        }
        _ => true,
    }
}

// Whether the context is there that a deed names.
fn has_context(registry: &Registry, tenant: Tenant, deed: &Deed) -> bool
    ensures { result ≡ option_map_or (λ c. is_some (context c (registry_of registry.now.lists tenant).contexts)) (context_in deed.now) true }
{
    match deed {
        Deed::Submitted { context, .. } | Deed::Transferred { context, .. } => {
            registry.context(tenant, *context).is_some()
        }
        _ => true,
    }
}

// Whether a deed is one that stands in the tenant: an extension stands only in an external channel.
fn is_of_channel(registry: &Registry, tenant: Tenant, deed: &Deed) -> bool
    ensures { result ≡ is_of_channel_in (registry_of registry.now.lists tenant).settings.external deed.now }
{
    match deed {
        Deed::Extended { .. } => match registry.tenant(tenant) {
            Some(item) => item.external,
            None => false,
        },
        _ => true,
    }
}

// Whether whom and what an entry names is there.
fn is_named(registry: &Registry, tenant: Tenant, entry: &Entry) -> bool
    ensures { result ≡ is_named_in (registry_of registry.now.lists tenant) entry.now }
{
    if !is_of_channel(registry, tenant, &entry.deed) || !is_doer(registry, tenant, entry) {
        return false;
    }
    has_users(registry, tenant, &entry.deed) && has_context(registry, tenant, &entry.deed)
}

// Whether answers are valid for a form, and none is an identity answer.
#[tactic(auto, unfolding(wb_model::specs::Requests::submission_fault, wb_model::specs::Requests::mark))]
fn are_public(alloc: Global, form: &Form, answers: &Answers) -> Result<bool, Memory>
    requires { is_good form.now ≡ true }
    ensures { IfOk result (λ are. are ≡ (is_none (submission_fault form.now answers.now) && not (mark form.now answers.now))) }
{
    match check(alloc, form, answers) {
        Ok(split) => Ok(!split.mark),
        Err(fault) => {
            if fault.code == AnswerFault::MEMORY {
                Err(Memory)
            } else {
                Ok(false)
            }
        }
    }
}

// Whether a submission's answers are public ones that are valid for its form.
#[tactic(auto, unfolding(crate::specs::ReportRules::has_right_answers))]
fn has_right_answers(
    alloc: Global,
    registry: &Registry,
    tenant: Tenant,
    entry: &Entry,
) -> Result<bool, Memory>
    requires { list_all is_form_item registry.now.lists.forms ≡ true }
    ensures { IfOk result (λ has. has ≡ has_right_answers_in (registry_of registry.now.lists tenant).forms entry.now) }
{
    match &entry.deed {
        Deed::Submitted {
            answers,
            form,
            version,
            ..
        } => match registry.form(tenant, *form, *version) {
            Some(item) => are_public(alloc, &item.form, answers),
            None => Ok(false),
        },
        _ => Ok(true),
    }
}

/// Whether what an entry names is there, and a submission's answers are right.
#[tactic(auto, unfolding(crate::specs::ReportRules::is_right_entry))]
pub fn is_right_entry(alloc: Global, registry: &Registry, item: &EntryItem) -> Result<bool, Memory>
    requires { list_all is_form_item registry.now.lists.forms ≡ true }
    ensures { IfOk result (λ is. is ≡ is_right_entry_in registry.now.lists item.now) }
{
    if !is_named(registry, item.tenant, &item.entry) {
        return Ok(false);
    }
    has_right_answers(alloc, registry, item.tenant, &item.entry)
}
