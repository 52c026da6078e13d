//! What the words after the program's name ask.
ghost use Rattle.std.specs.Prelude.{◌≡◌, ℕ, ℤ, List, Option, map, Err, IfOk};
ghost use Rattle.wb_cli.specs.declared.plans.Lock.{Lock as LockOf};
ghost use Rattle.wb_cli.specs.declared.plans.Plan.{Plan};
ghost use Rattle.wb_cli.specs.CommandLine.{Asks, AsksForecast, AsksNotices, AsksPlay, AsksRegister, AsksServe, AsksTurns, IsForm, AsksToServe};

use crate::apps::{
    forecast_command, matched, notices_command, play_command, register_command, serve_command,
    turns_command,
};
use crate::plans::{Plan, PlanFault};
use crate::values::{
    day_in, file_at, file_of, is_same, lock_of, moment_in, number_to, path_of, store_at, tenant_in,
    user_in,
};
use std::alloc::Global;
use wb_base::{Memory, Text};

// What the words after `play` ask.
fn play(alloc: Global, words: &[&str]) -> Result<Plan, PlanFault>
    ensures ok { IfOk result (λ plan. (store : Option (List ℕ)) × (plan ≡ Plan.Play store) × AsksPlay (map (λ word. word.now) words.now) store) }
    ensures usage { result ≡ Err PlanFault.Usage → (store : Option (List ℕ)) → AsksPlay (map (λ word. word.now) words.now) store → ⊥ }
{
    let matches = matched(play_command(alloc)?, words)?;
    Ok(Plan::Play {
        store: store_at(alloc, matches.get_str("store"))?,
    })
}

// The number of turns that the words after `make` or `tally` ask.
fn turns(alloc: Global, words: &[&str]) -> Result<u32, PlanFault>
    ensures ok { IfOk result (AsksTurns (map (λ word. word.now) words.now)) }
    ensures usage { result ≡ Err PlanFault.Usage → (turns : ℕ) → AsksTurns (map (λ word. word.now) words.now) turns → ⊥ }
{
    let matches = matched(turns_command(alloc)?, words)?;
    match number_to(20_000, matches.get_str("turns")) {
        Some(turns) => Ok(turns),
        None => Err(PlanFault::Usage),
    }
}

// What the words after `serve` ask.
fn serve(alloc: Global, words: &[&str]) -> Result<Plan, PlanFault>
    ensures ok { IfOk result (AsksToServe (map (λ word. word.now) words.now)) }
    ensures usage { result ≡ Err PlanFault.Usage → (setup : List ℕ) (listen : List ℕ) (workers : ℕ) (lock : LockOf) (store : Option (List ℕ)) → AsksServe (map (λ word. word.now) words.now) setup listen workers lock store → ⊥ }
{
    let matches = matched(serve_command(alloc)?, words)?;
    let Some(workers) = number_to(64, matches.get_str("workers")) else {
        return Err(PlanFault::Usage);
    };
    let Some(lock) = lock_of(matches.get_str("lock")) else {
        return Err(PlanFault::Usage);
    };
    let setup = path_of(alloc, matches.get_str("setup"))?;
    let listen = path_of(alloc, matches.get_str("listen"))?;
    let store = store_at(alloc, matches.get_str("store"))?;
    Ok(Plan::Serve {
        setup,
        listen,
        workers,
        lock,
        store,
    })
}

// What the words after `notices` ask.
fn notices(alloc: Global, words: &[&str]) -> Result<Plan, PlanFault>
    ensures ok { IfOk result (λ plan. (moment : ℕ) × (store : List ℕ) × (outbox : List ℕ) × (plan ≡ Plan.Notices moment store outbox) × AsksNotices (map (λ word. word.now) words.now) moment store outbox) }
    ensures usage { result ≡ Err PlanFault.Usage → (moment : ℕ) (store outbox : List ℕ) → AsksNotices (map (λ word. word.now) words.now) moment store outbox → ⊥ }
{
    let matches = matched(notices_command(alloc)?, words)?;
    let Some(moment) = moment_in(matches.get_str("moment")) else {
        return Err(PlanFault::Usage);
    };
    let store = file_of(alloc, matches.get_str("store"))?;
    let outbox = file_of(alloc, matches.get_str("outbox"))?;
    Ok(Plan::Notices {
        moment,
        store,
        outbox,
    })
}

// What the words after `register` ask.
fn register(alloc: Global, words: &[&str]) -> Result<Plan, PlanFault>
    ensures ok { IfOk result (λ plan. (tenant : ℕ) × (user : ℕ) × (moment : ℕ) × (store : Option (List ℕ)) × (plan ≡ Plan.Register tenant user moment store) × AsksRegister (map (λ word. word.now) words.now) tenant user moment store) }
    ensures usage { result ≡ Err PlanFault.Usage → (tenant user moment : ℕ) (store : Option (List ℕ)) → AsksRegister (map (λ word. word.now) words.now) tenant user moment store → ⊥ }
{
    let matches = matched(register_command(alloc)?, words)?;
    let Some(tenant) = tenant_in(matches.get_str("tenant")) else {
        return Err(PlanFault::Usage);
    };
    let Some(user) = user_in(matches.get_str("user")) else {
        return Err(PlanFault::Usage);
    };
    let Some(moment) = moment_in(matches.get_str("moment")) else {
        return Err(PlanFault::Usage);
    };
    let store = file_at(alloc, matches.get_str("store"))?;
    Ok(Plan::Register {
        tenant,
        user,
        moment,
        store,
    })
}

// What the words after `forecast` ask.
fn forecast(alloc: Global, words: &[&str]) -> Result<Plan, PlanFault>
    ensures ok { IfOk result (λ plan. (tenant : ℕ) × (day : ℤ) × (store : Option (List ℕ)) × (plan ≡ Plan.Forecast tenant day store) × AsksForecast (map (λ word. word.now) words.now) tenant day store) }
    ensures usage { result ≡ Err PlanFault.Usage → (tenant : ℕ) (day : ℤ) (store : Option (List ℕ)) → AsksForecast (map (λ word. word.now) words.now) tenant day store → ⊥ }
{
    let matches = matched(forecast_command(alloc)?, words)?;
    let Some(tenant) = tenant_in(matches.get_str("tenant")) else {
        return Err(PlanFault::Usage);
    };
    let Some(day) = day_in(matches.get_str("date")) else {
        return Err(PlanFault::Usage);
    };
    let store = file_at(alloc, matches.get_str("store"))?;
    Ok(Plan::Forecast { tenant, day, store })
}

// The words as `clap` takes them.
fn strs_of<'a>(alloc: Global, words: &'a [Text]) -> Result<Vec<&'a str>, Memory>
    ensures { IfOk result (λ strs. map (λ word. word.now) strs.items ≡ words.now) }
{
    let mut strs = Vec::new(alloc);
    for word in words {
        if strs.push(word.as_str()).is_err() {
            return Err(Memory);
        }
    }
    Ok(strs)
}

// The first word names what is asked, and the rest says it.
fn planned(alloc: Global, words: &[Text]) -> Result<Plan, PlanFault>
    ensures ok { IfOk result (Asks words.now) }
    ensures usage { result ≡ Err PlanFault.Usage → IsForm words.now → ⊥ }
{
    let [command, rest @ ..] = words else {
        return Err(PlanFault::Usage);
    };
    let command = command.as_str();
    let rest = strs_of(alloc, rest)?;
    if is_same(command, "play") {
        play(alloc, &rest)
    } else if is_same(command, "make") {
        Ok(Plan::Make(turns(alloc, &rest)?))
    } else if is_same(command, "tally") {
        Ok(Plan::Tally(turns(alloc, &rest)?))
    } else if is_same(command, "serve") {
        serve(alloc, &rest)
    } else if is_same(command, "notices") {
        notices(alloc, &rest)
    } else if is_same(command, "register") {
        register(alloc, &rest)
    } else if is_same(command, "forecast") {
        forecast(alloc, &rest)
    } else {
        Err(PlanFault::Usage)
    }
}

/// What the words after the program's name ask.
pub fn plan(alloc: Global, words: &[Text]) -> Result<Plan, PlanFault>
    ensures ok { IfOk result (Asks words.now) }
    ensures only { IfOk result (λ plan. (other : Plan) → Asks words.now other → other ≡ plan) }
    ensures usage { result ≡ Err PlanFault.Usage → IsForm words.now → ⊥ }
{
    match planned(alloc, words) {
        Ok(plan) => Ok(plan),
        Err(no) => Err(no),
    }
}
