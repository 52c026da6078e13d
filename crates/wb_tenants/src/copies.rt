//! Copies of what an administrator asks to set.
ghost use Rattle.std.specs.Prelude.{◌≡◌, IfOk};

use wb_base::{Memory, Text};
use wb_list::TryClone;
use wb_model::{ContextSet, SettingsSet, UserSet};

/// New settings once more.
pub fn copy_settings(next: &SettingsSet) -> Result<SettingsSet, Memory>
    ensures { IfOk result (λ copy. copy ≡ next.now) }
{
    Ok(SettingsSet {
        name: next.name.try_clone()?,
        notice_days: next.notice_days,
        quota: next.quota,
    })
}

// A text once more, where there is one.
fn copy_text(text: &Option<Text>) -> Result<Option<Text>, Memory>
    ensures { IfOk result (λ copy. copy ≡ text.now) }
{
    match text {
        Some(text) => Ok(Some(text.try_clone()?)),
        None => Ok(None),
    }
}

/// A user to be set once more.
pub fn copy_user(next: &UserSet) -> Result<UserSet, Memory>
    ensures { IfOk result (λ copy. copy ≡ next.now) }
{
    let name = next.name.try_clone()?;
    let password = copy_text(&next.password)?;
    Ok(UserSet {
        name,
        role: next.role,
        enabled: next.enabled,
        may: next.may,
        password,
    })
}

/// A context to be set once more.
pub fn copy_context(next: &ContextSet) -> Result<ContextSet, Memory>
    ensures { IfOk result (λ copy. copy ≡ next.now) }
{
    let name = next.name.try_clone()?;
    let recipients = next.recipients.try_clone()?;
    Ok(ContextSet {
        name,
        form: next.form,
        is_open: next.is_open,
        recipients,
        retention: next.retention,
    })
}
