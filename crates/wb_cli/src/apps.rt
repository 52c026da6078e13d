//! What may follow each command, as `clap` defines it.
ghost use Rattle.std.specs.Prelude.{◌≡◌, List, ℕ, false, true, map, Err, IfOk};
ghost use Rattle.clap.specs.Faults.{is_simple_and_free};
ghost use Rattle.clap.specs.Matches.{found_of, first_value};
ghost use Rattle.clap.specs.Simple.{app_of, with_rule};
ghost use Rattle.clap.specs.Walk.{rule_of};
ghost use Rattle.wb_cli.specs.CommandLine.{bare_app, forecast_app, notices_app, option_rule, play_app, register_app, serve_app, turns_app, takes_words, value_of, word_rule};

use crate::plans::PlanFault;
use clap::error::ErrorKind;
use clap::{Arg, ArgAction, ArgMatches, Command};
use std::alloc::{AllocError, Global};

// A command with nothing in it yet, that is given no help and no version.
fn bare<'a>(alloc: Global, name: &'a str) -> Command<'a>
    ensures { app_of result ≡ bare_app name.entry.now }
{
    Command::new(alloc, name)
        .no_binary_name(true)
        .disable_help_flag(true)
        .disable_version_flag(true)
}

// An option of one value.
fn option<'a>(alloc: Global, name: &'a str) -> Arg<'a>
    ensures rule { rule_of result ≡ option_rule name.entry.now }
    ensures local { result.global ≡ false }
{
    Arg::new(alloc, name).long(name).action(ArgAction::Set)
}

// The command with an option of one value more.
fn with<'a>(alloc: Global, command: Command<'a>, name: &'a str) -> Result<Command<'a>, AllocError>
    ensures { IfOk result (λ more. app_of more ≡ with_rule (app_of command.entry) (option_rule name.entry.now)) }
{
    command.arg(option(alloc, name))
}

// A plain word, which is a value.
fn word<'a>(alloc: Global, name: &'a str) -> Arg<'a>
    ensures rule { rule_of result ≡ word_rule name.entry.now }
    ensures local { result.global ≡ false }
{
    Arg::new(alloc, name).action(ArgAction::Set)
}

// The command with a plain word more.
fn with_word<'a>(
    alloc: Global,
    command: Command<'a>,
    name: &'a str,
) -> Result<Command<'a>, AllocError>
    ensures { IfOk result (λ more. app_of more ≡ with_rule (app_of command.entry) (word_rule name.entry.now)) }
{
    command.arg(word(alloc, name))
}

// What may follow `play`.
pub(crate) fn play_command<'a>(alloc: Global) -> Result<Command<'a>, AllocError>
    ensures { IfOk result (λ command. app_of command ≡ play_app) }
{
    with(alloc, bare(alloc, "play"), "store")
}

// What may follow `make` or `tally`.
pub(crate) fn turns_command<'a>(alloc: Global) -> Result<Command<'a>, AllocError>
    ensures { IfOk result (λ command. app_of command ≡ turns_app) }
{
    with_word(alloc, bare(alloc, "turns"), "turns")
}

// What may follow `serve`.
pub(crate) fn serve_command<'a>(alloc: Global) -> Result<Command<'a>, AllocError>
    ensures { IfOk result (λ command. app_of command ≡ serve_app) }
{
    let command = with(alloc, bare(alloc, "serve"), "setup")?;
    let command = with(alloc, command, "listen")?;
    let command = with(alloc, command, "workers")?;
    let command = with(alloc, command, "lock")?;
    with(alloc, command, "store")
}

// What may follow `notices`.
pub(crate) fn notices_command<'a>(alloc: Global) -> Result<Command<'a>, AllocError>
    ensures { IfOk result (λ command. app_of command ≡ notices_app) }
{
    let command = with_word(alloc, bare(alloc, "notices"), "moment")?;
    let command = with(alloc, command, "store")?;
    with(alloc, command, "outbox")
}

// What may follow `register`.
pub(crate) fn register_command<'a>(alloc: Global) -> Result<Command<'a>, AllocError>
    ensures { IfOk result (λ command. app_of command ≡ register_app) }
{
    let command = with_word(alloc, bare(alloc, "register"), "tenant")?;
    let command = with_word(alloc, command, "user")?;
    let command = with_word(alloc, command, "moment")?;
    with(alloc, command, "store")
}

// What may follow `forecast`.
pub(crate) fn forecast_command<'a>(alloc: Global) -> Result<Command<'a>, AllocError>
    ensures { IfOk result (λ command. app_of command ≡ forecast_app) }
{
    let command = with_word(alloc, bare(alloc, "forecast"), "tenant")?;
    let command = with_word(alloc, command, "date")?;
    with(alloc, command, "store")
}

// The values that a command finds in the words, by their names.
pub(crate) fn matched<'a>(
    command: Command<'a>,
    words: &'a [&'a str],
) -> Result<ArgMatches<'a>, PlanFault>
    requires { is_simple_and_free (app_of command) ≡ true }
    ensures taken { IfOk result (λ _. takes_words (app_of command.entry) (map (λ word. word.now) words.entry.now) ≡ true) }
    ensures values { IfOk result (λ matches. (name : List ℕ) → value_of (app_of command.entry) name (map (λ word. word.now) words.entry.now) ≡ first_value (found_of matches) name) }
    ensures usage { result ≡ Err PlanFault.Usage → takes_words (app_of command.entry) (map (λ word. word.now) words.entry.now) ≡ false }
{
    match command.try_get_matches_from(words) {
        Ok(matches) => Ok(matches),
        Err(error) => match error.kind() {
            ErrorKind::OutOfMemory => Err(PlanFault::Memory),
            _ => Err(PlanFault::Usage),
        },
    }
}
