//! What a run writes and keeps where what it reads, what it writes or what keeps its rows fails at one of its calls.
ghost use Rattle.std.specs.Prelude.{◌<◌};

use crate::generated::make;
use crate::sample_setup::HARBOUR;
use crate::{Status, exit_line, run};
use std::alloc::Global;
use std::test::Fail;
use wb_base::{Keeper, Key, MemKeeper, MemSink, MemSource, Text};
use wb_rows::RowFault;

/// How many bytes a sink takes.
pub(crate) const ROOM: usize = 100_000;

// What is asked: seconds after the start of 2025 in UTC; the turn whose login made the session, or 0 for no session; method and path; and
// the body. Turn k has the words 0, k, 0, k.
type Asked = (u32, u64, &'static str, &'static str);

// What is told: the status and the body of the reply.
type Told = (u16, &'static str);

// 2025-01-01 00:00 in UTC.
const NEW_YEAR: u64 = 1_735_689_600;

const SUBMITTED: &str = r#"{"context":2,"answers":{"what":"x","name":"Eve"}}"#;

const PLAIN: &str = r#"{"context":1,"answers":{"what":"x"}}"#;

const RECEIPT: &str = r#"{"receipt":"0000000000000002"}"#;

// Two reports come, the reporter of the second one comes back, and comments twice. The first report is due to go by the first of the
// comments.
const ASKED: &[Asked] = &[
    (0, 0, "POST /t/1/reports", SUBMITTED),
    (863_000, 0, "POST /t/1/reports", PLAIN),
    (863_100, 0, "POST /t/1/sessions", RECEIPT),
    (
        864_000,
        3,
        "POST /t/1/report/comments",
        r#"{"text":"More"}"#,
    ),
    (
        864_001,
        3,
        "POST /t/1/report/comments",
        r#"{"text":"More"}"#,
    ),
];

const FIRST: Told = (201, r#"{"number":1,"receipt":"0000000000000001"}"#);

const SECOND: Told = (201, r#"{"number":2,"receipt":"0000000000000002"}"#);

const SECOND_AS_FIRST: Told = (201, r#"{"number":1,"receipt":"0000000000000002"}"#);

const RETURNED: Told = (
    201,
    r#"{"role":"reporter","session":"3-00000000000000000000000000000003"}"#,
);

const NO_RECEIPT: Told = (401, r#"{"code":"bad_login"}"#);

const NO_SESSION: Told = (401, r#"{"code":"no_session"}"#);

const MADE: Told = (201, r#"{"done":true}"#);

const LOST: Told = (503, r#"{"code":"keeper"}"#);

const ALL_MADE: &[Told] = &[FIRST, SECOND, RETURNED, MADE, MADE];

fn push(text: &mut Vec<u8>, bytes: &[u8]) -> Result<(), Fail> {
    text.extend_from_slice(bytes)?;
    Ok(())
}

// The bytes of a request.
fn request(alloc: Global, asked: &Asked) -> Result<String, Fail> {
    let (_, session, target, body) = *asked;
    let named = if session == 0 {
        String::new(alloc)
    } else {
        format!(in alloc; "X-Session: {session}-{session:032x}\r\n")?
    };
    let size = body.len();
    Ok(format!(in alloc;
        "{target} HTTP/1.1\r\nHost: h\r\n{named}Content-Length: {size}\r\n\r\n{body}"
    )?)
}

// The script of the setup and of what is asked.
fn script(alloc: Global) -> Result<Vec<u8>, Fail> {
    let mut script = Vec::new(alloc);
    let line = format!(in alloc; "@setup {}\n", HARBOUR.len())?;
    push(&mut script, line.as_bytes())?;
    push(&mut script, HARBOUR.as_bytes())?;
    push(&mut script, b"\n")?;
    for (at, asked) in ASKED.iter().enumerate() {
        let bytes = request(alloc, asked)?;
        let moment = NEW_YEAR + u64::from(asked.0);
        let word = at as u64 + 1;
        let size = bytes.len();
        let line = format!(in alloc;
            "@{moment} 0000000000000000 {word:016x} 0000000000000000 {word:016x} {size}\n"
        )?;
        push(&mut script, line.as_bytes())?;
        push(&mut script, bytes.as_bytes())?;
        push(&mut script, b"\n")?;
    }
    Ok(script)
}

// The phrase of a status.
fn phrase(status: u16) -> &'static str {
    match status {
        201 => "Created",
        401 => "Unauthorized",
        503 => "Service Unavailable",
        _ => "",
    }
}

// What the output has of these replies: of each the line, the head and the body.
fn output(alloc: Global, told: &[Told]) -> Result<Vec<u8>, Fail> {
    let mut output = Vec::new(alloc);
    for reply in told {
        let (status, body) = *reply;
        let size = body.len();
        let phrase = phrase(status);
        let text = format!(in alloc;
            "HTTP/1.1 {status} {phrase}\r\nContent-Type: application/json\r\nCache-Control: no-store\r\nContent-Length: {size}\r\n\r\n{body}"
        )?;
        let line = format!(in alloc; "@{status} {}\n", text.len())?;
        push(&mut output, line.as_bytes())?;
        push(&mut output, text.as_bytes())?;
        push(&mut output, b"\n")?;
    }
    Ok(output)
}

// A source of these bytes in pieces of a size, which fails at these calls.
fn source(alloc: Global, bytes: &[u8], size: usize, fail: &[u64]) -> Result<MemSource, Fail>
    requires { 0 < size }
{
    let pieces = vec![in alloc; size; bytes.len()]?;
    Ok(MemSource::new(bytes.to_vec(alloc)?, pieces, fail.to_vec(alloc)?))
}

/// The call, in a function of its own, so that what it ensures stands in no other proof.
pub(crate) fn call(
    alloc: Global,
    words: &[Text],
    source: &mut MemSource,
    sink: &mut MemSink,
    keeper: &mut MemKeeper,
) -> Status {
    run(alloc, words, source, sink, keeper)
}

// Plays the script over a keeper, with reads and writes that fail at these calls, and gives the status and the output.
fn play(
    alloc: Global,
    reads: &[u64],
    writes: &[u64],
    keeper: &mut MemKeeper,
) -> Result<(Status, Vec<u8>), Fail> {
    let mut source = source(alloc, &script(alloc)?, 1_000, reads)?;
    let mut sink = MemSink::new(Vec::new(alloc), ROOM, writes.to_vec(alloc)?)?;
    let words = [Text::from_str(alloc, "play")?];
    let status = call(alloc, &words, &mut source, &mut sink, keeper);
    Ok((status, sink.held().to_vec(alloc)?))
}

/// A keeper of no rows yet that fails at these calls, counted from 1.
pub(crate) fn keeper_failing_at(alloc: Global, calls: Vec<u64>) -> MemKeeper {
    MemKeeper::new(Vec::new(alloc), calls)
}

// The kinds and numbers of the rows of reports that a keeper holds, beside the ten of the setup.
fn kept(alloc: Global, keeper: &MemKeeper) -> Result<Vec<(u8, u32, u32)>, Fail> {
    let mut keys = Vec::new(alloc);
    for row in keeper.rows() {
        if row.key.kind > 5 {
            keys.push((row.key.kind, row.key.a, row.key.b))?;
        }
    }
    if keeper.rows().len() != usize::saturating_add(keys.len(), 10) {
        return Err("the rows of the setup".into());
    }
    Ok(keys)
}

// The keeper's call that fails, what each turn is told, and the kinds and numbers of the rows of reports at the end.
type Failing = (u64, &'static [Told], &'static [(u8, u32, u32)]);

// Two calls of the keeper open the host. A login has none of its own, and a lost comment leaves the purge to the next turn.
const FAILING: &[Failing] = &[
    (
        3,
        &[LOST, SECOND_AS_FIRST, RETURNED, MADE, MADE],
        &[(6, 1, 1), (6, 1, 2), (6, 1, 3)],
    ),
    (4, &[FIRST, LOST, NO_RECEIPT, NO_SESSION, NO_SESSION], &[]),
    (
        5,
        &[FIRST, SECOND, RETURNED, LOST, MADE],
        &[(6, 2, 1), (6, 2, 2)],
    ),
    (
        6,
        &[FIRST, SECOND, RETURNED, MADE, LOST],
        &[(6, 2, 1), (6, 2, 2)],
    ),
    (7, ALL_MADE, &[(6, 2, 1), (6, 2, 2), (6, 2, 3)]),
];

#[test]
fn a_failing_call_of_the_keeper_loses_its_turn_alone(rt: HostRuntime) -> Result<(), Fail> {
    let alloc = rt.alloc();
    for (call, told, rows) in FAILING {
        let mut keeper = keeper_failing_at(alloc, [*call].to_vec(alloc)?);
        let (status, held) = play(alloc, &[], &[], &mut keeper)?;
        assert!(rt;
            status == Status::Done && held == output(alloc, told)?,
            "{call}"
        );
        assert!(rt; kept(alloc, &keeper)?.as_slice() == *rows, "{call}");
    }
    Ok(())
}

#[test]
fn a_keeper_that_fails_as_the_host_opens_answers_no_request(rt: HostRuntime) -> Result<(), Fail> {
    let alloc = rt.alloc();
    for call in [1, 2] {
        let mut keeper = keeper_failing_at(alloc, [call].to_vec(alloc)?);
        let (status, held) = play(alloc, &[], &[], &mut keeper)?;
        assert!(rt; status == Status::OpenFault && held.is_empty(), "{call}");
        assert!(rt; keeper.rows().is_empty() && keeper.faults() == 1, "{call}");
    }
    Ok(())
}

// The reads and the writes that fail, the status, and how many replies stand.
type Ending = (&'static [u64], &'static [u64], Status, usize);

// A line is read byte by byte, so read 150 is in the second frame's line. A reply is four writes.
const ENDINGS: &[Ending] = &[
    (&[2], &[], Status::ReadFault, 0),
    (&[150], &[], Status::ReadFault, 1),
    (&[], &[1], Status::WriteFault, 0),
    (&[], &[5], Status::WriteFault, 1),
];

#[test]
fn the_replies_before_a_fault_stand(rt: HostRuntime) -> Result<(), Fail> {
    let alloc = rt.alloc();
    for (reads, writes, ended, count) in ENDINGS {
        let mut keeper = keeper_failing_at(alloc, Vec::new(alloc));
        let (status, held) = play(alloc, reads, writes, &mut keeper)?;
        let told = &ALL_MADE[..(*count).min(ALL_MADE.len())];
        assert!(rt; status == *ended && held == output(alloc, told)?, "{count}");
    }
    Ok(())
}

#[test]
fn a_script_is_made_up_to_the_write_that_fails(rt: HostRuntime) -> Result<(), Fail> {
    let alloc = rt.alloc();
    let mut whole = MemSink::new(Vec::new(alloc), ROOM, Vec::new(alloc))?;
    assert!(rt; make(1, &mut whole).is_ok());
    // The setup is three writes, and each frame is one.
    let mut failing = MemSink::new(Vec::new(alloc), ROOM, [5].to_vec(alloc)?)?;
    assert!(rt; make(8, &mut failing).is_err() && failing.held() == whole.held());
    Ok(())
}

// A key with a number at its end.
const LAST: Key = Key {
    kind: 7,
    tenant: 64,
    a: 4_294_967_295,
    b: 12,
};

// Such as no script ends with, and numbers at their ends.
#[test]
fn a_status_has_its_line(rt: HostRuntime) -> Result<(), Fail> {
    let alloc = rt.alloc();
    let lines = [
        (Status::NoMemory, 5, "no memory\n"),
        (
            Status::BadFrame(18_446_744_073_709_551_615),
            6,
            "bad frame 18446744073709551615\n",
        ),
        (
            Status::KeptRows(RowFault::BadSet(10, LAST)),
            9,
            "kept rows refused: rule 10 at 7/64/4294967295/12\n",
        ),
        (Status::TooLong, 10, "input too long\n"),
        (Status::ListenFault, 11, "listen fault\n"),
    ];
    for (status, number, line) in lines {
        let mut sink = MemSink::new(Vec::new(alloc), ROOM, Vec::new(alloc))?;
        assert!(rt; exit_line(&status, &mut sink).is_ok());
        assert!(rt; sink.held() == line.as_bytes() && status.number() == number);
    }
    let mut failing = MemSink::new(Vec::new(alloc), ROOM, [1].to_vec(alloc)?)?;
    assert!(rt; exit_line(&Status::Usage, &mut failing).is_err());
    Ok(())
}
