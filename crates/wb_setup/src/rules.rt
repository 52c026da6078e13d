//! The rules that a setup keeps.
ghost use Rattle.std.specs.Prelude.{◌≡◌, ◌==◌, ◌++◌, Some, None, Err, OnOk, Bool, option_map};
ghost use Rattle.std.specs.List.{list_any, list_all};
ghost use Rattle.serde_json.specs.View.{view};
ghost use Rattle.std.specs.Result.{result_ok};
ghost use Rattle.wb_model.specs.Bodies.{form as form_by};
ghost use Rattle.wb_model.specs.SetUps.{are_apart};
ghost use Rattle.wb_model.specs.Fits.{are_distinct as distinct_test};
ghost use Rattle.wb_setup.specs.Rules.{same_tenant, same_user, same_name, same_form, same_context, has_form as has_form_test, has_reader as has_reader_test, fits_readers as fits_readers_test, rule_2 as rule_2_of, rule_3 as rule_3_of, rule_4 as rule_4_of, rule_5 as rule_5_of, rule_7 as rule_7_of, rule_8 as rule_8_of, rule_9 as rule_9_of, form_in as form_of, first_version as first_version_of, first_versions as first_versions_of, forms_of as all_forms_of};
ghost use Rattle.wb_json.specs.Gives.{Gives};

use crate::given::{GivenContext, GivenForm, GivenTenant, GivenUser};
use serde_json::Value;
use std::alloc::Global;
use wb_base::{Form, FormFault, Role, Tenant, UserId};
use wb_form::FormText;
use wb_json::{ReadError, read_json};
use wb_list::Items;
use wb_model::FormItem;

/// In what two items are the same.
trait Sameness<T> {
    /// Whether they are the same.
    ghost same: { Self → T → T → Bool };

    /// Whether they are the same.
    fn same(&self, a: &T, b: &T) -> bool
        ensures { result ≡ same self.now a.now b.now };
}

/// They have the same id.
#[derive(Drop)]
struct ById;

/// They have the same name.
#[derive(Drop)]
struct ByName;

impl Sameness<GivenTenant> for ById {
    ghost same = { λ _ a b. same_tenant a b };

    fn same(&self, a: &GivenTenant, b: &GivenTenant) -> bool {
        a.id.id() == b.id.id()
    }
}

impl Sameness<GivenUser> for ById {
    ghost same = { λ _ a b. same_user a b };

    fn same(&self, a: &GivenUser, b: &GivenUser) -> bool {
        a.id.id() == b.id.id()
    }
}

impl Sameness<GivenUser> for ByName {
    ghost same = { λ _ a b. same_name a b };

    fn same(&self, a: &GivenUser, b: &GivenUser) -> bool {
        a.name == b.name
    }
}

impl Sameness<GivenForm> for ById {
    ghost same = { λ _ a b. same_form a b };

    fn same(&self, a: &GivenForm, b: &GivenForm) -> bool {
        a.id == b.id
    }
}

impl Sameness<GivenContext> for ById {
    ghost same = { λ _ a b. same_context a b };

    fn same(&self, a: &GivenContext, b: &GivenContext) -> bool {
        a.id == b.id
    }
}

// Whether one of these is the same.
fn has_same<T, S: Sameness<T>>(test: &S, item: &T, others: &[T]) -> bool
    ensures { result ≡ list_any (S.same test.now item.now) others.now }
{
    for other in others {
        if test.same(item, other) {
            return true;
        }
    }
    false
}

// Whether no two of these are the same.
fn differ<T, S: Sameness<T>>(test: &S, items: &[T]) -> bool
    ensures { result ≡ are_apart (S.same test.now) items.now }
{
    let mut rest = items;
    while let Some((first, more)) = rest.split_first() {
        if has_same(test, first, more) {
            return false;
        }
        rest = more;
    }
    true
}

/// Rule 2: the ids of tenants are distinct.
pub fn rule_2(tenants: &[GivenTenant]) -> bool
    ensures { result ≡ rule_2_of tenants.now }
{
    differ(&ById, tenants)
}

fn users_differ(tenant: &GivenTenant) -> bool
    ensures { result ≡ are_apart same_user tenant.now.users }
{
    differ(&ById, tenant.users.as_slice())
}

/// Rule 3: the ids of users are distinct in a tenant.
pub fn rule_3(tenants: &[GivenTenant]) -> bool
    ensures { result ≡ rule_3_of tenants.now }
{
    tenants.iter().all(|tenant| users_differ(tenant))
}

fn names_differ(tenant: &GivenTenant) -> bool
    ensures { result ≡ are_apart same_name tenant.now.users }
{
    differ(&ByName, tenant.users.as_slice())
}

/// Rule 4: the names of users are distinct in a tenant.
pub fn rule_4(tenants: &[GivenTenant]) -> bool
    ensures { result ≡ rule_4_of tenants.now }
{
    tenants.iter().all(|tenant| names_differ(tenant))
}

fn forms_differ(tenant: &GivenTenant) -> bool
    ensures { result ≡ are_apart same_form tenant.now.forms }
{
    differ(&ById, tenant.forms.as_slice())
}

/// Rule 5: the ids of forms are distinct in a tenant.
pub fn rule_5(tenants: &[GivenTenant]) -> bool
    ensures { result ≡ rule_5_of tenants.now }
{
    tenants.iter().all(|tenant| forms_differ(tenant))
}

// The form that a text is.
fn read_form(alloc: Global, given: &GivenForm) -> Result<Form, ReadError>
    ensures { Gives (form_of given.now) result }
{
    let value = read_json(alloc, given.json.as_bytes())?;
    form_of_value(alloc, &value)
}

// The form that a value is.
fn form_of_value(alloc: Global, value: &Value) -> Result<Form, ReadError>
    ensures { Gives (result_ok (form_by (view value.now))) result }
{
    match Form::read(alloc, value) {
        Ok(form) => Ok(form),
        Err(fault) => {
            if fault.code == FormFault::MEMORY {
                Err(ReadError::Memory)
            } else {
                Err(ReadError::Other)
            }
        }
    }
}

// It as version 1 of a tenant's form.
fn first_version(alloc: Global, tenant: Tenant, given: &GivenForm) -> Result<FormItem, ReadError>
    ensures { Gives (first_version_of tenant given.now) result }
{
    let form = read_form(alloc, given)?;
    Ok(FormItem {
        tenant,
        id: given.id,
        version: 1,
        form,
    })
}

// The forms of a tenant, each in its first version, after those before.
fn push_forms(
    alloc: Global,
    forms: &mut Items<FormItem>,
    tenant: Tenant,
    given: &[GivenForm],
) -> Result<(), ReadError>
    ensures ok { OnOk result (option_map (λ xs. forms.old ++ xs) (first_versions_of tenant given.now) ≡ Some forms.new) }
    ensures other { result ≡ Err ReadError.Other → first_versions_of tenant given.now ≡ None }
{
    for form in given {
        forms.push(first_version(alloc, tenant, form)?)?;
    }
    Ok(())
}

/// Rule 6: the forms of all tenants, each in its first version.
pub fn read_forms(alloc: Global, tenants: &[GivenTenant]) -> Result<Items<FormItem>, ReadError>
    ensures { Gives (all_forms_of tenants.now) result }
{
    let mut forms = Items::new(alloc);
    for tenant in tenants {
        push_forms(alloc, &mut forms, tenant.id, tenant.forms.as_slice())?;
    }
    Ok(forms)
}

fn contexts_differ(tenant: &GivenTenant) -> bool
    ensures { result ≡ are_apart same_context tenant.now.contexts }
{
    differ(&ById, tenant.contexts.as_slice())
}

/// Rule 7: the ids of contexts are distinct in a tenant.
pub fn rule_7(tenants: &[GivenTenant]) -> bool
    ensures { result ≡ rule_7_of tenants.now }
{
    tenants.iter().all(|tenant| contexts_differ(tenant))
}

fn has_form(tenant: &GivenTenant, context: &GivenContext) -> bool
    ensures { result ≡ has_form_test tenant.now context.now }
{
    tenant
        .forms
        .as_slice()
        .iter()
        .any(|form| form.id == context.form)
}

fn has_forms(tenant: &GivenTenant) -> bool
    ensures { result ≡ list_all (has_form_test tenant.now) tenant.now.contexts }
{
    tenant
        .contexts
        .as_slice()
        .iter()
        .all(|context| has_form(tenant, context))
}

/// Rule 8: each context's form is there.
pub fn rule_8(tenants: &[GivenTenant]) -> bool
    ensures { result ≡ rule_8_of tenants.now }
{
    tenants.iter().all(|tenant| has_forms(tenant))
}

// Whether a user is a recipient.
fn has_reader(tenant: &GivenTenant, id: UserId) -> bool
    ensures { result ≡ has_reader_test tenant.now id }
{
    tenant.users.as_slice().iter().any(|user| user.id.id() == id.id()
        && user.role == Role::Recipient)
}

// Whether a user is one of these.
fn is_among(users: &[UserId], user: UserId) -> bool
    ensures { result ≡ list_any (λ u. u == user) users.now }
{
    users.iter().any(|other| other.id() == user.id())
}

// Whether each user stands once.
fn are_distinct(users: &[UserId]) -> bool
    ensures { result ≡ distinct_test users.now }
{
    for (at, user) in users.iter().enumerate() {
        if is_among(&users[at + 1..], *user) {
            return false;
        }
    }
    true
}

fn has_readers(tenant: &GivenTenant, readers: &[UserId]) -> bool
    ensures { result ≡ list_all (has_reader_test tenant.now) readers.now }
{
    readers.iter().all(|reader| has_reader(tenant, *reader))
}

fn fits_readers(tenant: &GivenTenant, context: &GivenContext) -> bool
    ensures { result ≡ fits_readers_test tenant.now context.now }
{
    let readers = context.recipients.as_slice();
    are_distinct(readers) && has_readers(tenant, readers)
}

fn all_fit_readers(tenant: &GivenTenant) -> bool
    ensures { result ≡ list_all (fits_readers_test tenant.now) tenant.now.contexts }
{
    tenant
        .contexts
        .as_slice()
        .iter()
        .all(|context| fits_readers(tenant, context))
}

/// Rule 9: each context's recipients are distinct, and users with the role of recipient.
pub fn rule_9(tenants: &[GivenTenant]) -> bool
    ensures { result ≡ rule_9_of tenants.now }
{
    tenants.iter().all(|tenant| all_fit_readers(tenant))
}
