//! The lines of notices.
ghost use Rattle.std.specs.Prelude.{◌≡◌, OnOk, OnErr};
ghost use Rattle.std.specs.List.{flat_map};
ghost use Rattle.std.specs.Io.KnownBytes.{Appends};
ghost use Rattle.wb_base.specs.Outside.{AppendsFront, HasCause};
ghost use Rattle.wb_notice.specs.Notifies.{count_line as count_line_of, notice_line as notice_line_of, notices_text};

use crate::Notice;
use itoa::Buffer;
use wb_base::{Failed, Sink};
use wb_terms::date_text;
use wb_wire::{Line, Written};

/// The line of a notice.
type NoticeLine = Written<64>;

// The line of a notice.
fn notice_line(notice: &Notice) -> NoticeLine
    ensures { result ≡ notice_line_of notice.now }
{
    let mut tenant = Buffer::new();
    let mut user = Buffer::new();
    let mut number = Buffer::new();
    let mut line = NoticeLine::new();
    line.put(tenant.format(notice.tenant.id()).as_bytes());
    line.put(b" ");
    line.put(user.format(notice.user.id()).as_bytes());
    line.put(b" ");
    line.put(notice.kind.name().as_bytes());
    line.put(b" ");
    line.put(number.format(notice.number.get()).as_bytes());
    line.put(b" ");
    line.put(date_text(notice.day).as_slice());
    line.put(b"\n");
    line
}

// How many notices were written.
fn count_line(count: u64) -> Line
    ensures { result ≡ count_line_of count }
{
    let mut digits = Buffer::new();
    let mut line = Line::new();
    line.put(b"written ");
    line.put(digits.format(count).as_bytes());
    line.put(b"\n");
    line
}

// Writes the lines of notices.
fn write_all<W: Sink>(notices: &[Notice], sink: &mut W) -> Result<(), Failed>
    ensures ok { OnOk result (Appends (W.end sink.old).held (W.end sink.new).held (flat_map notice_line_of notices.now)) }
    ensures err { OnErr result (AppendsFront (W.end sink.old).held (W.end sink.new).held (flat_map notice_line_of notices.now)) }
    ensures cause { HasCause (W.end sink.old).count (W.end sink.new).count result }
{
    for notice in notices {
        match sink.write_all(notice_line(notice).as_bytes()) {
            Ok(()) => {}
            Err(no) => return Err(no),
        }
    }
    Ok(())
}

/// Writes a line for each notice, and how many they are. It takes no memory.
pub(crate) fn write_notices<W: Sink>(notices: &[Notice], sink: &mut W) -> Result<(), Failed>
    ensures ok { OnOk result (Appends (W.end sink.old).held (W.end sink.new).held (notices_text notices.now)) }
    ensures err { OnErr result (AppendsFront (W.end sink.old).held (W.end sink.new).held (notices_text notices.now)) }
    ensures cause { HasCause (W.end sink.old).count (W.end sink.new).count result }
{
    match write_all(notices, sink) {
        Ok(()) => {}
        Err(no) => return Err(no),
    }
    sink.write_all(count_line(notices.len() as u64).as_bytes())
}
