//! The command of a route.
ghost use Rattle.std.specs.Prelude.{◌≡◌};
ghost use Rattle.serde_json.specs.View.{view};
ghost use Rattle.wb_model.specs.RouteBodies.{bare as bare_of, shaped as shaped_of};
ghost use Rattle.wb_json.specs.Gives.{Gives};
ghost use Rattle.wb_wire.specs.Places.{at_place};

use crate::segments::number_under;
use serde_json::Value;
use std::alloc::Global;
use wb_json::ReadError;
use wb_model::{Command, Route};
use wb_request_json::{
    ask, comment, context_set, decide, extend, feedback, identity, label, login, new_form,
    new_status, own_comment, settings_set, share, submission, transfer, user_set,
};

/// A path and its pattern, by which the numbers in it have names.
#[derive(Clone, Copy)]
pub struct Numbers<'a> {
    pub pattern: &'a [u8],
    pub path: &'a [u8],
}

impl<'a> Numbers<'a> {
    /// The number that stands for a name in braces, and 1 where none does.
    pub fn at(&self, name: &[u8]) -> u32
        ensures { result ≡ at_place self.now name.now }
    {
        number_under(self.pattern, self.path, name)
    }
}

/// The command of a route without a body.
pub fn bare(route: Route, numbers: &Numbers) -> Option<Command>
    ensures { result ≡ bare_of route (at_place numbers.now) }
{
    let t = numbers.at(b"{t}");
    let n = numbers.at(b"{n}");
    match route {
        Route::Health => Some(Command::Health),
        Route::Public => Some(Command::Public { t }),
        Route::ContextOf => Some(Command::ContextOf {
            t,
            c: numbers.at(b"{c}"),
        }),
        Route::Logout => Some(Command::Logout { t }),
        Route::OwnReport => Some(Command::OwnReport { t }),
        Route::List => Some(Command::List { t }),
        Route::DueList => Some(Command::DueList { t }),
        Route::ReadReport => Some(Command::ReadReport { t, n }),
        Route::Acknowledge => Some(Command::Acknowledge { t, n }),
        Route::Unshare => Some(Command::Unshare {
            t,
            n,
            u: numbers.at(b"{u}"),
        }),
        Route::Postpone => Some(Command::Postpone { t, n }),
        Route::Delete => Some(Command::Delete { t, n }),
        Route::ReadIdentity => Some(Command::ReadIdentity { t, n }),
        Route::Requests => Some(Command::Requests { t }),
        Route::Admin => Some(Command::Admin { t }),
        _ => None,
    }
}

/// The command of a route with a body.
pub fn shaped(
    alloc: Global,
    route: Route,
    numbers: &Numbers,
    value: &Value,
) -> Result<Command, ReadError>
    ensures { Gives (shaped_of route (at_place numbers.now) (view value.now)) result }
{
    let t = numbers.at(b"{t}");
    let n = numbers.at(b"{n}");
    match route {
        Route::Login => login(alloc, t, value),
        Route::Submit => submission(alloc, t, value),
        Route::OwnComment => own_comment(alloc, t, value),
        Route::GiveIdentity => identity(alloc, t, value),
        Route::Comment => comment(alloc, t, n, value),
        Route::Label => label(alloc, t, n, value),
        Route::SetStatus => new_status(t, n, value),
        Route::Feedback => feedback(alloc, t, n, value),
        Route::Share => share(t, n, value),
        Route::Transfer => transfer(t, n, value),
        Route::Extend => extend(alloc, t, n, value),
        Route::Ask => ask(alloc, t, n, value),
        Route::Decide => decide(alloc, t, n, numbers.at(b"{k}"), value),
        Route::SetSettings => Ok(Command::SetSettings {
            t,
            next: settings_set(alloc, value)?,
        }),
        Route::SetUser => Ok(Command::SetUser {
            t,
            u: numbers.at(b"{u}"),
            next: user_set(alloc, value)?,
        }),
        Route::SetContext => Ok(Command::SetContext {
            t,
            c: numbers.at(b"{c}"),
            next: context_set(alloc, value)?,
        }),
        Route::SetForm => new_form(alloc, t, numbers.at(b"{f}"), value),
        _ => Err(ReadError::Other),
    }
}
