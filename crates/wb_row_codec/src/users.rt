//! A user of a tenant, as a row has it.
ghost use Rattle.std.specs.Prelude.{◌≡◌, IfOk, true};
ghost use Rattle.serde_json.specs.View.{view};
ghost use Rattle.wb_model.specs.SetUps.{is_user_item};
ghost use Rattle.wb_row_codec.specs.Shapes.{user as user_of};
ghost use Rattle.wb_json.specs.Gives.{Gives};

use crate::members::digest_under;
use serde_json::Value;
use std::alloc::Global;
use wb_base::{Tenant, UserId, limits};
use wb_json::{ReadError, flag_under, rights_under, role_under, text_under, whole_under};
use wb_model::UserItem;

/// The user of an id that a value is.
pub fn read_user(
    alloc: Global,
    tenant: Tenant,
    id: UserId,
    value: &Value,
) -> Result<UserItem, ReadError>
    ensures user { Gives (user_of tenant id (view value.now)) result }
    ensures fits { IfOk result (λ x. is_user_item x ≡ true) }
{
    let _id = id.id();
    let disabled = whole_under(value, "disabled", 0, limits::DISABLINGS)?;
    let enabled = flag_under(value, "enabled")?;
    let may = rights_under(value, "may")?;
    let name = text_under(alloc, value, "name", 1, limits::USER_NAME_BYTES)?;
    let role = role_under(value, "role")?;
    let secret = digest_under(value, "secret")?;
    Ok(UserItem {
        tenant,
        id,
        disabled,
        enabled,
        may,
        name,
        role,
        secret,
    })
}
