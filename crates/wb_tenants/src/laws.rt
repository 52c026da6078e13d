//! What is set is set in its tenant alone, and is there what the definitions say; and what is kept of a tenant stays whole beside a setup.
ghost use Rattle.std.specs.Prelude.{◌≡◌, ◌≢◌, ℕ, true};
ghost use Rattle.wb_base.specs.declared.form.Form.{Form as FormOf};
ghost use Rattle.wb_model.specs.declared.command.ContextSet.{ContextSet};
ghost use Rattle.wb_model.specs.declared.command.SettingsSet.{SettingsSet};
ghost use Rattle.wb_model.specs.declared.command.UserSet.{UserSet};
ghost use Rattle.wb_model.specs.declared.registry.Lists.{Lists};
ghost use Rattle.wb_model.specs.Openings.{registry_of};
ghost use Rattle.wb_model.specs.Settings.{OfUser, OfForm, OfContext, OfTenant, configured, context_item, ends_sessions, form_item};
ghost use Rattle.wb_model.specs.SetUps.{has_tenant};
ghost use Rattle.wb_setup.specs.Joined.{joined};
ghost use Rattle.wb_setup.specs.Keys.{AreInOrder};
ghost use Rattle.wb_tenants.specs.Sets.{HasTenant, set_user, with_context, with_user, with_form, with_settings};

/// What `Registry::set_user` makes of the lists is, for its tenant, what the accepted setting makes of the tenant's
/// registry, and every other tenant's registry is as it was.
pub fn a_user_is_set_in_its_tenant_alone()
    ensures here { (lists : Lists) (t u : ℕ) (next : UserSet) → AreInOrder lists → registry_of (with_user t u next lists) t ≡ configured (OfUser (set_user t u next lists) (ends_sessions next)) (registry_of lists t) }
    ensures others { (lists : Lists) (t u s : ℕ) (next : UserSet) → t ≢ s → registry_of (with_user t u next lists) s ≡ registry_of lists s }
{}

/// The same of one more version of a form.
pub fn a_form_is_set_in_its_tenant_alone()
    ensures here { (lists : Lists) (t f : ℕ) (form : FormOf) → AreInOrder lists → registry_of (with_form t f form lists) t ≡ configured (OfForm (form_item t f (registry_of lists t).forms form)) (registry_of lists t) }
    ensures others { (lists : Lists) (t f s : ℕ) (form : FormOf) → t ≢ s → registry_of (with_form t f form lists) s ≡ registry_of lists s }
{}

/// The same of a context.
pub fn a_context_is_set_in_its_tenant_alone()
    ensures here { (lists : Lists) (t c : ℕ) (next : ContextSet) → AreInOrder lists → registry_of (with_context t c next lists) t ≡ configured (OfContext (context_item t c next)) (registry_of lists t) }
    ensures others { (lists : Lists) (t c s : ℕ) (next : ContextSet) → t ≢ s → registry_of (with_context t c next lists) s ≡ registry_of lists s }
{}

/// The same of a tenant's settings.
pub fn settings_are_set_in_their_tenant_alone()
    ensures here { (lists : Lists) (t : ℕ) (next : SettingsSet) → HasTenant lists t → registry_of (with_settings t next lists) t ≡ configured (OfTenant next) (registry_of lists t) }
    ensures others { (lists : Lists) (t s : ℕ) (next : SettingsSet) → HasTenant lists t → t ≢ s → registry_of (with_settings t next lists) s ≡ registry_of lists s }
{}

/// What `Registry::of` makes of the lists is, for a kept tenant, its registry as it was kept, whatever the setup says.
pub fn a_kept_tenant_stays_whole()
    ensures { (setup kept : Lists) (t : ℕ) → has_tenant kept t ≡ true → registry_of (joined setup kept) t ≡ registry_of kept t }
{}
