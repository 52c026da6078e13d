//! The short bodies of replies: of a login, a setting, a version of a form and an ask.
ghost use Rattle.std.specs.Prelude.{◌≡◌, IfOk};
ghost use Rattle.std.specs.Str.{IsUtf8};
ghost use Rattle.std.specs.String.{string_bytes};
ghost use Rattle.serde_json.specs.View.{view};
ghost use Rattle.serde_json.specs.Written.{compact_text};
ghost use Rattle.wb_model.specs.ShortViews as views;

use serde_json::{Map, Value};
use std::alloc::Global;
use std::str;
use wb_base::{Memory, Role, Text};
use wb_json::{put_text, put_whole, role_name, text_of};
use wb_model::Body;

/// The body that tells that something was done. It takes no memory.
pub fn done_view() -> Body
    ensures { result ≡ compact_text views.done_view }
{
    Body::short(b"{\"done\":true}")
}

// A session as it is presented.
fn session_text(alloc: Global, turn: u64, secret: &str) -> Result<String, Memory>
    ensures { IfOk result (λ text. string_bytes text ≡ views.session_text turn secret.now) }
{
    Ok(format!(in alloc; "{turn}-{secret}")?)
}

// The JSON value of a login's body.
#[tactic(auto, unfolding(wb_model::specs::ShortViews::session_view))]
fn session_value(alloc: Global, role: Role, turn: u64, secret: &str) -> Result<Value, Memory>
    ensures { IfOk result (λ value. view value ≡ views.session_view role turn secret.now) }
{
    let session = session_text(alloc, turn, secret)?;
    let mut map = Map::new(alloc);
    put_text(&mut map, alloc, "session", session.as_str())?;
    put_text(&mut map, alloc, "role", role_name(role))?;
    Ok(Value::Object(map))
}

/// The body of the reply to a login: the role, and the session with its secret, a text in UTF-8.
pub fn session_view(alloc: Global, role: Role, turn: u64, secret: &[u8; 32]) -> Result<Text, Memory>
    requires { IsUtf8 secret.now }
    ensures { IfOk result (λ text. text ≡ compact_text (views.session_view role turn secret.now)) }
{
    match str::from_utf8(secret.as_slice()) {
        Ok(secret) => {
            let value = session_value(alloc, role, turn, secret)?;
            text_of(alloc, &value)
        }
        Err(_) => unreachable!(),
    }
}

// The JSON value of a new version's body.
#[tactic(auto, unfolding(wb_model::specs::ShortViews::version_view))]
fn version_value(alloc: Global, version: u32) -> Result<Value, Memory>
    ensures { IfOk result (λ value. view value ≡ views.version_view version) }
{
    let mut map = Map::new(alloc);
    put_whole(&mut map, alloc, "version", version as u64)?;
    Ok(Value::Object(map))
}

/// The body of the reply to a form that was set: its new version.
pub fn version_view(alloc: Global, version: u32) -> Result<Text, Memory>
    ensures { IfOk result (λ text. text ≡ compact_text (views.version_view version)) }
{
    let value = version_value(alloc, version)?;
    text_of(alloc, &value)
}

// The JSON value of an ask's body.
#[tactic(auto, unfolding(wb_model::specs::ShortViews::request_view))]
fn request_value(alloc: Global, request: u32) -> Result<Value, Memory>
    ensures { IfOk result (λ value. view value ≡ views.request_view request) }
{
    let mut map = Map::new(alloc);
    put_whole(&mut map, alloc, "request", request as u64)?;
    Ok(Value::Object(map))
}

/// The body of the reply to an ask for an identity: the request's number on its report.
pub fn request_view(alloc: Global, request: u32) -> Result<Text, Memory>
    ensures { IfOk result (λ text. text ≡ compact_text (views.request_view request)) }
{
    let value = request_value(alloc, request)?;
    text_of(alloc, &value)
}
