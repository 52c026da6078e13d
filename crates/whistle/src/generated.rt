//! The script that is made for trying a host: a setup, and a login, a report, the list of the reports and a look at the host's
//! health by turns.
ghost use Rattle.std.specs.Prelude.{◌≡◌, ◌≤◌, ◌+◌, ◌∷◌, ◌++◌, ◌*◌, length, codes, decimal, IfOk, OnOk, OnErr};
ghost use Rattle.std.specs.Io.KnownBytes.{Appends};
ghost use Rattle.wb_base.specs.Outside.{AppendsFront, HasCause};
ghost use Rattle.wb_base.specs.Secrets.{secret_text};
ghost use Rattle.wb_model.specs.ShortViews.{session_text};
ghost use Rattle.wb_model.specs.FrameTexts.{word_text, frame_line, frame_text, IsFrame};
ghost use Rattle.wb_wire.specs.SetupText.{setup_line, setup_text};
ghost use Rattle.whistle.specs.Generated as made;

use crate::sample_setup::HARBOUR;
use itoa::Buffer;
use std::alloc::Global;
use wb_access::secret;
use wb_base::{Failed, Memory, Moment, Sink, Words};
use wb_list::Items;
use wb_wire::{ScriptFrame, Written};

/// The bytes of a request.
pub type Request = Written<192>;

/// The text of a frame.
pub type Frame = Written<320>;

// A field of a request, or a body.
type Part = Written<64>;

// A turn's random words.
fn words_at(turn: u32) -> Words
    ensures { result ≡ made.words_at turn }
{
    Words([0, turn as u64, 0, turn as u64])
}

// When a turn comes: an hour after the turn before.
fn moment_at(turn: u32) -> u64
    ensures { result ≡ made.moment_at turn }
{
    1_735_689_600 + 3_600 * turn as u64
}

// A request of these parts.
fn request(method: &[u8], path: &[u8], fields: &[u8], body: &[u8]) -> Request
    requires { length method.now + length path.now + length fields.now + length body.now ≤ 150 }
    ensures text { result ≡ made.request method.now path.now fields.now body.now }
    ensures short { length result ≤ 192 }
{
    let mut request = Request::new();
    request.put(method);
    request.put(b" ");
    request.put(path);
    request.put(b" HTTP/1.1\r\nHost: h\r\n");
    request.put(fields);
    request.put(b"\r\n");
    request.put(body);
    request
}

// How many bytes the body has.
fn length_field(size: usize) -> Part
    ensures text { result ≡ made.length_field size }
    ensures short { length result ≤ 38 }
{
    let mut digits = Buffer::new();
    let mut field = Part::new();
    field.put(b"Content-Length: ");
    field.put(digits.format(size).as_bytes());
    field.put(b"\r\n");
    field
}

// The session that a turn made.
fn session_field(turn: u32) -> Part
    ensures text { result ≡ made.session_field (session_text turn (secret_text (made.words_at turn))) }
    ensures short { length result ≤ 56 }
{
    let mut digits = Buffer::new();
    let mut field = Part::new();
    field.put(b"X-Session: ");
    field.put(digits.format(turn).as_bytes());
    field.put(b"-");
    field.put(&secret(&words_at(turn)));
    field.put(b"\r\n");
    field
}

// A request that sends a body.
fn sending(path: &[u8], body: &[u8]) -> Request
    requires { length path.now + length body.now ≤ 100 }
    ensures text { result ≡ made.sending path.now body.now }
    ensures short { length result ≤ 192 }
{
    request(b"POST", path, length_field(body.len()).as_bytes(), body)
}

// A report that tells its turn.
fn submission(turn: u32) -> Request
    ensures text { result ≡ made.submission turn }
    ensures short { length result ≤ 192 }
{
    let mut digits = Buffer::new();
    let mut body = Part::new();
    body.put(b"{\"context\":1,\"answers\":{\"what\":\"Report ");
    body.put(digits.format(turn).as_bytes());
    body.put(b"\"}}");
    sending(b"/t/1/reports", body.as_bytes())
}

/// What is asked at a turn.
pub fn asked_at(turn: u32) -> Request
    ensures text { result ≡ made.asked_at turn }
    ensures short { length result ≤ 192 }
{
    match turn % 4 {
        1 => sending(
            b"/t/1/sessions",
            b"{\"user\":\"ada\",\"password\":\"ada-pass\"}",
        ),
        2 => submission(turn),
        3 => request(
            b"GET",
            b"/t/1/reports",
            session_field(turn - 2).as_bytes(),
            b"",
        ),
        _ => request(b"GET", b"/health", b"", b""),
    }
}

// Puts a space and a word.
fn put_word(frame: &mut Frame, word: u64)
    requires { length frame.old ≤ 300 }
    ensures text { frame.new ≡ frame.old ++ 32 ∷ word_text word }
    ensures long { length frame.new ≡ length frame.old + 17 }
{
    let mut digits = [0; 16];
    hex::encode_to_slice(word.to_be_bytes().as_slice(), &mut digits).unwrap();
    frame.put(b" ");
    frame.put(&digits);
}

// Puts a number.
fn put_number(frame: &mut Frame, number: u64)
    requires { length frame.old ≤ 300 }
    ensures text { frame.new ≡ frame.old ++ decimal number }
    ensures short { length frame.new ≤ length frame.old + 20 }
{
    let mut digits = Buffer::new();
    frame.put(digits.format(number).as_bytes());
}

// The first line of a turn's frame, of which so many bytes follow.
fn line_at(turn: u32, size: usize) -> Frame
    ensures text { result ≡ frame_line (made.moment_at turn) 0 turn 0 turn size ++ codes "\n" }
    ensures short { length result ≤ 120 }
{
    let mut line = Frame::new();
    line.put(b"@");
    put_number(&mut line, moment_at(turn));
    put_word(&mut line, 0);
    put_word(&mut line, turn as u64);
    put_word(&mut line, 0);
    put_word(&mut line, turn as u64);
    line.put(b" ");
    put_number(&mut line, size as u64);
    line.put(b"\n");
    line
}

/// The frame of a turn.
#[tactic(auto, unfolding(wb_model::specs::FrameTexts::frame_text, crate::specs::Generated::frame_at))]
pub fn frame_at(turn: u32) -> Frame
    ensures { result ≡ frame_text (made.frame_at turn) }
{
    let request = asked_at(turn);
    let mut frame = line_at(turn, request.as_bytes().len());
    frame.put(request.as_bytes());
    frame.put(b"\n");
    frame
}

/// The same, as a reader of the script takes it.
#[tactic(auto, unfolding(crate::specs::Generated::frame_at))]
pub fn script_frame(alloc: Global, turn: u32) -> Result<ScriptFrame, Memory>
    requires { turn ≤ 20_000 }
    ensures made { IfOk result (λ frame. frame ≡ made.frame_at turn) }
    ensures good { IfOk result IsFrame }
{
    let moment = Moment::try_new(moment_at(turn)).unwrap();
    let bytes = Vec::from_slice(alloc, asked_at(turn).as_bytes())?;
    Ok(ScriptFrame {
        moment,
        words: words_at(turn),
        bytes: Items::of(bytes),
    })
}

// The first line of the setup's frame.
fn setup_head(size: usize) -> Part
    ensures { result ≡ setup_line size ++ codes "\n" }
{
    let mut digits = Buffer::new();
    let mut line = Part::new();
    line.put(b"@setup");
    line.put(b" ");
    line.put(digits.format(size).as_bytes());
    line.put(b"\n");
    line
}

// Writes the setup's frame.
fn write_setup<W: Sink>(sink: &mut W) -> Result<(), Failed>
    ensures ok { OnOk result (Appends (W.end sink.old).held (W.end sink.new).held (setup_text HARBOUR.now)) }
    ensures err { OnErr result (AppendsFront (W.end sink.old).held (W.end sink.new).held (setup_text HARBOUR.now)) }
    ensures cause { HasCause (W.end sink.old).count (W.end sink.new).count result }
{
    let line = setup_head(HARBOUR.len());
    match sink.write_all(line.as_bytes()) {
        Ok(()) => {}
        Err(no) => return Err(no),
    }
    match sink.write_all(HARBOUR.as_bytes()) {
        Ok(()) => {}
        Err(no) => return Err(no),
    }
    match sink.write_all(b"\n") {
        Ok(()) => Ok(()),
        Err(no) => Err(no),
    }
}

/// Writes the script of so many turns, a frame at a time. It takes no memory.
pub fn make<W: Sink>(turns: u32, sink: &mut W) -> Result<(), Failed>
    ensures ok { OnOk result (Appends (W.end sink.old).held (W.end sink.new).held (made.generated turns)) }
    ensures err { OnErr result (AppendsFront (W.end sink.old).held (W.end sink.new).held (made.generated turns)) }
    ensures cause { HasCause (W.end sink.old).count (W.end sink.new).count result }
{
    match write_setup(sink) {
        Ok(()) => {}
        Err(no) => return Err(no),
    }
    for before in 0..turns {
        match sink.write_all(frame_at(before + 1).as_bytes()) {
            Ok(()) => {}
            Err(no) => return Err(no),
        }
    }
    Ok(())
}
