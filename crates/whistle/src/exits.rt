//! How the program ends: the words that it was called with, the number of its status, and its line on standard error.
ghost use Rattle.std.specs.Prelude.{◌≡◌, drop, map, string_bytes, IfOk};
ghost use Rattle.std.specs.Vec.Iter.{into_iter_items};
ghost use Rattle.wb_cli.specs.declared.status.Status.{Status};
ghost use Rattle.whistle.specs.Exits.{TellsLine, EndsAs};
ghost use Rattle.wb_cli.specs.Statuses.{status_number};

use crate::running::run;
use std::alloc::Global;
use std::env::Args;
use wb_base::{Keeper, Memory, Sink, Source, Text};
use wb_cli::{Status, exit_line};

// Each word as a text.
fn texts_of(alloc: Global, rest: Args) -> Result<Vec<Text>, Memory>
    ensures { IfOk result (λ words. words.items ≡ map string_bytes (into_iter_items rest)) }
{
    let mut words = Vec::new(alloc);
    for word in rest {
        words.push(Text::from_str(alloc, word.as_str())?)?;
    }
    Ok(words)
}

/// The words after the program's name, of all that it was called with.
pub fn words_of(alloc: Global, all: Args) -> Result<Vec<Text>, Memory>
    ensures { IfOk result (λ words. words.items ≡ map string_bytes (drop 1 (into_iter_items all))) }
{
    let mut rest = all;
    let _name = rest.next();
    texts_of(alloc, rest)
}

/// Writes the line of a status to the sink for errors, and gives the number that the program ends with. Where that sink
/// fails, the number is all that is left to tell.
pub fn end<E: Sink>(status: &Status, errors: &mut E) -> u8
    ensures number { result ≡ status_number status.now }
    ensures line { TellsLine (E.end errors.old) (E.end errors.new) status.now }
{
    let _line = exit_line(status, errors);
    status.number()
}

/// All that the program does between its real ends: runs the words, writes the line of the status to the sink for errors,
/// and gives the number that the program ends with.
pub fn run_to_end<S: Source, W: Sink, K: Keeper, E: Sink>(
    alloc: Global,
    words: &[Text],
    source: &mut S,
    sink: &mut W,
    keeper: &mut K,
    errors: &mut E,
) -> u8
    ensures { EndsAs (S.end source.old) (S.end source.new) (W.end sink.old) (W.end sink.new) (K.end keeper.old) (K.end keeper.new) (E.end errors.old) (E.end errors.new) words.now result }
{
    let status = run(alloc, words, source, sink, keeper);
    end(&status, errors)
}
