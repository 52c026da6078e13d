//! The names of roles, rights, statuses, states and kinds of what is due, as requests, setups, bodies and kept rows have them.
ghost use Rattle.std.specs.Prelude.{◌≡◌, ◌++◌, ◌∷◌, [], if◌then◌else◌, IfOk, OnOk};
ghost use Rattle.serde_json.specs.Data.{string};
ghost use Rattle.serde_json.specs.View.{view};
ghost use Rattle.wb_model.specs.Bodies.{role_named as role_by, status_named as status_by, with_right as right_added};
ghost use Rattle.wb_model.specs.Json.{list_of};
ghost use Rattle.wb_model.specs.ListViews.{kind_name as kind_name_of};
ghost use Rattle.wb_model.specs.Names.{role_name as role_name_of, right_names, status_name as status_name_of, state_name as state_name_of};

use crate::values::list_value;
use serde_json::Value;
use std::alloc::Global;
use wb_base::{Memory, Role, Text};
use wb_list::Items;
use wb_model::{DueKind, Rights, State, Status};

/// The name of a role.
pub fn role_name(role: Role) -> &'static str
    ensures { result.now ≡ role_name_of role }
{
    match role {
        Role::Reporter => "reporter",
        Role::Recipient => "recipient",
        Role::Custodian => "custodian",
        Role::Admin => "admin",
    }
}

/// The name of a status.
pub fn status_name(status: Status) -> &'static str
    ensures { result.now ≡ status_name_of status }
{
    match status {
        Status::New => "new",
        Status::Opened => "opened",
        Status::Closed => "closed",
    }
}

/// The name of a request's state.
pub fn state_name(state: State) -> &'static str
    ensures { result.now ≡ state_name_of state }
{
    match state {
        State::Waiting => "waiting",
        State::Granted => "granted",
        State::Denied => "denied",
        State::Revoked => "revoked",
        State::Ended => "ended",
    }
}

/// The name of a kind of what is due.
pub fn kind_name(kind: DueKind) -> &'static str
    ensures { result.now ≡ kind_name_of kind }
{
    match kind {
        DueKind::Ack => "ack",
        DueKind::Feedback => "feedback",
    }
}

// One name more, where there is that right.
fn push_right(names: &mut Items<Text>, alloc: Global, has: bool, name: &str) -> Result<(), Memory>
    ensures { OnOk result (names.new ≡ names.old ++ (if has then name.now ∷ [] else [])) }
{
    if has {
        names.push(Text::from_str(alloc, name)?)?;
    }
    Ok(())
}

/// The names of rights, in byte order.
pub fn rights_value(alloc: Global, may: Rights) -> Result<Value, Memory>
    ensures { IfOk result (λ value. view value ≡ list_of string (right_names may)) }
{
    let mut names = Items::new(alloc);
    push_right(&mut names, alloc, may.delete, "delete")?;
    push_right(&mut names, alloc, may.postpone, "postpone")?;
    push_right(&mut names, alloc, may.share, "share")?;
    push_right(&mut names, alloc, may.transfer, "transfer")?;
    list_value(alloc, names.as_slice())
}

/// The status of a name that a request or a row may have.
pub fn status_named(name: &str) -> Option<Status>
    ensures { result ≡ status_by name.now }
{
    if name == "opened" {
        Some(Status::Opened)
    } else if name == "closed" {
        Some(Status::Closed)
    } else {
        None
    }
}

/// The role of a user's name for it.
pub fn role_named(name: &str) -> Option<Role>
    ensures { result ≡ role_by name.now }
{
    if name == "recipient" {
        Some(Role::Recipient)
    } else if name == "custodian" {
        Some(Role::Custodian)
    } else if name == "admin" {
        Some(Role::Admin)
    } else {
        None
    }
}

/// These rights and the one of a name, which is none of them yet.
pub fn with_right(may: Rights, name: &str) -> Option<Rights>
    ensures { result ≡ right_added may name.now }
{
    if name == "delete" {
        if may.delete {
            return None;
        }
        Some(Rights {
            delete: true,
            ..may
        })
    } else if name == "postpone" {
        if may.postpone {
            return None;
        }
        Some(Rights {
            postpone: true,
            ..may
        })
    } else if name == "share" {
        if may.share {
            return None;
        }
        Some(Rights { share: true, ..may })
    } else if name == "transfer" {
        if may.transfer {
            return None;
        }
        Some(Rights {
            transfer: true,
            ..may
        })
    } else {
        None
    }
}
