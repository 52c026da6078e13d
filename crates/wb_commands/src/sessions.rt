//! Logins and logouts.
ghost use Rattle.std.specs.Prelude.{◌≡◌, IfOk};
ghost use Rattle.wb_model.specs.Json.{told};
ghost use Rattle.wb_model.specs.Logins.{new_session, welcome as welcome_told};
ghost use Rattle.wb_model.specs.ShortViews.{done_view as done_data};
ghost use Rattle.wb_tables.specs.TurnContexts.{at_of};
ghost use Rattle.wb_commands.specs.Plans.{IsLogin};
ghost use Rattle.wb_tables.specs.Logins.{login_of, who_seen};

use crate::mutation::Mutation;
use crate::plan::TurnPlan;
use std::alloc::Global;
use wb_access::{digest, secret};
use wb_base::{Memory, Role};
use wb_model::{Body, Told};
use wb_tables::{Login, Tenancy, TurnContext, Who};
use wb_views::{done_view, session_view};

/// The reply that tells that something was done. It takes no memory.
pub fn done(status: u16) -> Told
    ensures { result ≡ told status done_data }
{
    Told {
        status,
        body: done_view(),
    }
}

// The session that a turn makes for a caller.
fn new_login(tenancy: &Tenancy, at: &TurnContext, role: Role, who: Who) -> Login
    ensures { login_of result ≡ new_session (at_of at.now) tenancy.now.configuration.registry role (who_seen who) }
{
    let secret = secret(&at.words);
    Login {
        turn: at.turn,
        digest: digest(&tenancy.configuration.settings().salt, secret.as_slice()),
        role,
        who,
        at: at.time,
    }
}

// The reply to a login.
fn welcome(alloc: Global, at: &TurnContext, role: Role) -> Result<Told, Memory>
    ensures { IfOk result (λ told. told ≡ welcome_told (at_of at.now) role) }
{
    let secret = secret(&at.words);
    Ok(Told {
        status: 201,
        body: Body::of(session_view(alloc, role, at.turn, &secret)?),
    })
}

/// The plan of a login: a session begins.
pub fn enter(
    alloc: Global,
    tenancy: &Tenancy,
    at: &TurnContext,
    role: Role,
    who: Who,
) -> Result<TurnPlan, Memory>
    ensures told { IfOk result (λ plan. plan.told ≡ welcome_told (at_of at.now) role) }
    ensures change { IfOk result (λ plan. IsLogin plan.change (new_session (at_of at.now) tenancy.now.configuration.registry role (who_seen who))) }
{
    Ok(TurnPlan {
        told: welcome(alloc, at, role)?,
        change: Mutation::LogsIn(new_login(tenancy, at, role, who)),
    })
}

/// The plan of a logout: the caller's session that was made at a turn ends.
pub fn leave(turn: u64, who: Who) -> TurnPlan
    ensures told { result.told ≡ told 200 done_data }
    ensures change { result.change ≡ Mutation.LogsOut turn who }
{
    TurnPlan {
        told: done(200),
        change: Mutation::LogsOut(turn, who),
    }
}
