//! How a call of the program ends.
ghost use Rattle.std.specs.Prelude.{◌≡◌, ◌++◌, codes, decimal, OnOk, OnErr};
ghost use Rattle.std.specs.Io.KnownBytes.{Appends};
ghost use Rattle.wb_base.specs.Outside.{AppendsFront, HasCause};
ghost use Rattle.wb_cli.specs.Statuses.{broken_text, outbox_text, place_text, refusal_text, rows_text, status_text, status_number};

use itoa::Buffer;
use wb_base::{Failed, Key, Sink};
use wb_rows::RowFault;
use wb_setup::SetupFault;

/// How a call ended.
#[derive(Clone, Copy, PartialEq, Eq)]
pub enum Status {
    /// The input was read to its end, and all output was written.
    Done,
    /// The words are no form of the call.
    Usage,
    /// The source failed.
    ReadFault,
    /// The sink failed.
    WriteFault,
    /// There was no memory for the words, for the script or the setup, for opening the host, for its workers, or for what is to be written.
    NoMemory,
    /// The frame of this number, counted from 1, is not of the form, or the input ends inside it; 0 is the setup's.
    BadFrame(u64),
    /// The setup is refused. It is never for want of memory.
    Setup(SetupFault),
    /// The keeper failed when the host was opened, or its rows were loaded.
    OpenFault,
    /// The rows that the keeper holds are refused. It is never for want of memory.
    KeptRows(RowFault),
    /// 2^40 bytes were taken and the input has not ended.
    TooLong,
    /// A listener failed too often.
    ListenFault,
    /// The row of this key in the outbox is no notice.
    OutboxRows(Key),
    /// The tenant is not there, or the user is not there or is no recipient.
    NotThere,
    /// The outbox failed.
    OutboxFault,
}

impl Status {
    /// The number that the program ends with.
    pub fn number(self) -> u8
        ensures { result ≡ status_number self }
    {
        match self {
            Status::Done => 0,
            Status::Usage => 2,
            Status::ReadFault => 3,
            Status::WriteFault => 4,
            Status::NoMemory => 5,
            Status::BadFrame(_) => 6,
            Status::Setup(_) => 7,
            Status::OpenFault => 8,
            Status::KeptRows(_) => 9,
            Status::TooLong => 10,
            Status::ListenFault => 11,
            Status::OutboxRows(_) => 12,
            Status::NotThere => 13,
            Status::OutboxFault => 14,
        }
    }
}

// Writes a text, a number and a line feed.
fn write_numbered<W: Sink>(sink: &mut W, text: &[u8], n: u64) -> Result<(), Failed>
    ensures ok { OnOk result (Appends (W.end sink.old).held (W.end sink.new).held (text.now ++ decimal n ++ codes "\n")) }
    ensures err { OnErr result (AppendsFront (W.end sink.old).held (W.end sink.new).held (text.now ++ decimal n ++ codes "\n")) }
    ensures cause { HasCause (W.end sink.old).count (W.end sink.new).count result }
{
    match sink.write_all(text) {
        Ok(()) => {}
        Err(no) => return Err(no),
    }
    let mut digits = Buffer::new();
    match sink.write_all(digits.format(n).as_bytes()) {
        Ok(()) => {}
        Err(no) => return Err(no),
    }
    sink.write_all(b"\n")
}

// Writes the line of a setup's refusal.
fn refusal_line<W: Sink>(fault: SetupFault, sink: &mut W) -> Result<(), Failed>
    ensures ok { OnOk result (Appends (W.end sink.old).held (W.end sink.new).held (refusal_text fault)) }
    ensures err { OnErr result (AppendsFront (W.end sink.old).held (W.end sink.new).held (refusal_text fault)) }
    ensures cause { HasCause (W.end sink.old).count (W.end sink.new).count result }
{
    match fault {
        SetupFault::Text => sink.write_all(b"setup refused: text\n"),
        SetupFault::Rule(rule) => write_numbered(sink, b"setup refused: rule ", rule as u64),
        SetupFault::Memory => sink.write_all(b"no memory\n"),
    }
}

// Writes a text and a number.
fn write_part<W: Sink>(sink: &mut W, text: &[u8], n: u64) -> Result<(), Failed>
    ensures ok { OnOk result (Appends (W.end sink.old).held (W.end sink.new).held (text.now ++ decimal n)) }
    ensures err { OnErr result (AppendsFront (W.end sink.old).held (W.end sink.new).held (text.now ++ decimal n)) }
    ensures cause { HasCause (W.end sink.old).count (W.end sink.new).count result }
{
    match sink.write_all(text) {
        Ok(()) => {}
        Err(no) => return Err(no),
    }
    let mut digits = Buffer::new();
    sink.write_all(digits.format(n).as_bytes())
}

// Writes two texts, each with a number after it.
fn write_two<W: Sink>(
    sink: &mut W,
    first: &[u8],
    n: u64,
    second: &[u8],
    m: u64,
) -> Result<(), Failed>
    ensures ok { OnOk result (Appends (W.end sink.old).held (W.end sink.new).held ((first.now ++ decimal n) ++ (second.now ++ decimal m))) }
    ensures err { OnErr result (AppendsFront (W.end sink.old).held (W.end sink.new).held ((first.now ++ decimal n) ++ (second.now ++ decimal m))) }
    ensures cause { HasCause (W.end sink.old).count (W.end sink.new).count result }
{
    match write_part(sink, first, n) {
        Ok(()) => {}
        Err(no) => return Err(no),
    }
    write_part(sink, second, m)
}

// Writes where a row stands, and a line feed.
fn place_line<W: Sink>(key: Key, sink: &mut W) -> Result<(), Failed>
    ensures ok { OnOk result (Appends (W.end sink.old).held (W.end sink.new).held (place_text key)) }
    ensures err { OnErr result (AppendsFront (W.end sink.old).held (W.end sink.new).held (place_text key)) }
    ensures cause { HasCause (W.end sink.old).count (W.end sink.new).count result }
{
    match write_two(sink, b" at ", key.kind as u64, b"/", key.tenant as u64) {
        Ok(()) => {}
        Err(no) => return Err(no),
    }
    match write_part(sink, b"/", key.a as u64) {
        Ok(()) => {}
        Err(no) => return Err(no),
    }
    write_numbered(sink, b"/", key.b as u64)
}

// Writes the line of the rule that kept rows break at a key.
fn broken_line<W: Sink>(rule: u8, key: Key, sink: &mut W) -> Result<(), Failed>
    ensures ok { OnOk result (Appends (W.end sink.old).held (W.end sink.new).held (broken_text rule key)) }
    ensures err { OnErr result (AppendsFront (W.end sink.old).held (W.end sink.new).held (broken_text rule key)) }
    ensures cause { HasCause (W.end sink.old).count (W.end sink.new).count result }
{
    match write_part(sink, b"kept rows refused: rule ", rule as u64) {
        Ok(()) => {}
        Err(no) => return Err(no),
    }
    place_line(key, sink)
}

// Writes the line of a row of the outbox that is no notice.
fn outbox_line<W: Sink>(key: Key, sink: &mut W) -> Result<(), Failed>
    ensures ok { OnOk result (Appends (W.end sink.old).held (W.end sink.new).held (outbox_text key)) }
    ensures err { OnErr result (AppendsFront (W.end sink.old).held (W.end sink.new).held (outbox_text key)) }
    ensures cause { HasCause (W.end sink.old).count (W.end sink.new).count result }
{
    match sink.write_all(b"outbox rows refused:") {
        Ok(()) => {}
        Err(no) => return Err(no),
    }
    place_line(key, sink)
}

// Writes the line of a refusal of kept rows.
fn rows_line<W: Sink>(fault: RowFault, sink: &mut W) -> Result<(), Failed>
    ensures ok { OnOk result (Appends (W.end sink.old).held (W.end sink.new).held (rows_text fault)) }
    ensures err { OnErr result (AppendsFront (W.end sink.old).held (W.end sink.new).held (rows_text fault)) }
    ensures cause { HasCause (W.end sink.old).count (W.end sink.new).count result }
{
    match fault {
        RowFault::BadRow(key) => broken_line(0, key, sink),
        RowFault::BadSet(rule, key) => broken_line(rule, key, sink),
        RowFault::Memory => sink.write_all(b"no memory\n"),
    }
}

/// Writes the line of a status, which standard error gets; nothing where all was done. It takes no memory.
pub fn exit_line<W: Sink>(status: &Status, sink: &mut W) -> Result<(), Failed>
    ensures ok { OnOk result (Appends (W.end sink.old).held (W.end sink.new).held (status_text status.now)) }
    ensures err { OnErr result (AppendsFront (W.end sink.old).held (W.end sink.new).held (status_text status.now)) }
    ensures cause { HasCause (W.end sink.old).count (W.end sink.new).count result }
{
    match status {
        Status::Done => Ok(()),
        Status::Usage => sink.write_all(
            b"usage: whistle play [--store PATH], make N, tally N, notices MOMENT --store PATH --outbox PATH, register TENANT USER MOMENT [--store PATH], forecast TENANT DATE [--store PATH], serve --setup PATH --listen ADDRESS --workers N [--lock mutex|ticket] [--store PATH]\n",
        ),
        Status::ReadFault => sink.write_all(b"read fault\n"),
        Status::WriteFault => sink.write_all(b"write fault\n"),
        Status::NoMemory => sink.write_all(b"no memory\n"),
        Status::BadFrame(n) => write_numbered(sink, b"bad frame ", *n),
        Status::Setup(fault) => refusal_line(*fault, sink),
        Status::OpenFault => sink.write_all(b"open fault\n"),
        Status::KeptRows(fault) => rows_line(*fault, sink),
        Status::TooLong => sink.write_all(b"input too long\n"),
        Status::ListenFault => sink.write_all(b"listen fault\n"),
        Status::OutboxRows(key) => outbox_line(*key, sink),
        Status::NotThere => sink.write_all(b"not there\n"),
        Status::OutboxFault => sink.write_all(b"outbox fault\n"),
    }
}
