//! The lines of a tally.
ghost use Rattle.std.specs.Prelude.{◌≡◌, OnOk, OnErr};
ghost use Rattle.std.specs.List.{flat_map};
ghost use Rattle.std.specs.Io.KnownBytes.{Appends};
ghost use Rattle.wb_base.specs.Outside.{AppendsFront, HasCause};
ghost use Rattle.whistle.specs.TallyText as lines;

use crate::counting::StatusCount;
use itoa::Buffer;
use wb_base::{Failed, Sink};
use wb_tables::Counts;
use wb_wire::{Line, Written};

/// Lines of a tally.
pub type Lines = Written<128>;

// How many turns there were.
fn turns_line(turns: u32) -> Line
    ensures { result ≡ lines.turns_line turns }
{
    let mut digits = Buffer::new();
    let mut line = Line::new();
    line.put(b"turns ");
    line.put(digits.format(turns).as_bytes());
    line.put(b"\n");
    line
}

// How many replies have a status.
fn status_line(row: &StatusCount) -> Line
    ensures { result ≡ lines.status_line row.now }
{
    let mut status = Buffer::new();
    let mut count = Buffer::new();
    let mut line = Line::new();
    line.put(status.format(row.status).as_bytes());
    line.put(b" ");
    line.put(count.format(row.count).as_bytes());
    line.put(b"\n");
    line
}

// What a host counts.
fn held_lines(counts: &Counts) -> Lines
    ensures { result ≡ lines.held_lines (lines.counted counts.now) }
{
    let mut live = Buffer::new();
    let mut numbers = Buffer::new();
    let mut sessions = Buffer::new();
    let mut lines = Lines::new();
    lines.put(b"live ");
    lines.put(live.format(counts.live).as_bytes());
    lines.put(b"\nnumbers ");
    lines.put(numbers.format(counts.numbers).as_bytes());
    lines.put(b"\nsessions ");
    lines.put(sessions.format(counts.sessions).as_bytes());
    lines.put(b"\n");
    lines
}

// Writes the lines of all statuses.
fn write_statuses<W: Sink>(rows: &[StatusCount], sink: &mut W) -> Result<(), Failed>
    ensures ok { OnOk result (Appends (W.end sink.old).held (W.end sink.new).held (flat_map lines.status_line rows.now)) }
    ensures err { OnErr result (AppendsFront (W.end sink.old).held (W.end sink.new).held (flat_map lines.status_line rows.now)) }
    ensures cause { HasCause (W.end sink.old).count (W.end sink.new).count result }
{
    for row in rows {
        match sink.write_all(status_line(row).as_bytes()) {
            Ok(()) => {}
            Err(no) => return Err(no),
        }
    }
    Ok(())
}

/// Writes the tally of so many turns. It takes no memory.
pub fn write_tally<W: Sink>(
    turns: u32,
    rows: &[StatusCount],
    counts: &Counts,
    sink: &mut W,
) -> Result<(), Failed>
    ensures ok { OnOk result (Appends (W.end sink.old).held (W.end sink.new).held (lines.tally_text turns rows.now (lines.counted counts.now))) }
    ensures err { OnErr result (AppendsFront (W.end sink.old).held (W.end sink.new).held (lines.tally_text turns rows.now (lines.counted counts.now))) }
    ensures cause { HasCause (W.end sink.old).count (W.end sink.new).count result }
{
    match sink.write_all(turns_line(turns).as_bytes()) {
        Ok(()) => {}
        Err(no) => return Err(no),
    }
    match write_statuses(rows, sink) {
        Ok(()) => {}
        Err(no) => return Err(no),
    }
    match sink.write_all(held_lines(counts).as_bytes()) {
        Ok(()) => Ok(()),
        Err(no) => Err(no),
    }
}
