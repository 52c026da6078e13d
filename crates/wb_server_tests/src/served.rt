//! How the call that serves ends, by its words, its setup's text, what is kept and what comes to its stations.
ghost use Rattle.std.specs.Prelude.{◌≡◌, ℕ, List, Option, IfOk, vec_len};
ghost use Rattle.wb_cli.specs.declared.plans.Lock.{Lock as LockOf};
ghost use Rattle.wb_cli.specs.declared.plans.Plan.TheVariants.{Serve};
ghost use Rattle.wb_cli.specs.CommandLine.{Asks};

use crate::hosts::{keeper, station};
use crate::setup_text::sample_setup;
use std::alloc::Global;
use std::sync::Wait;
use std::test::Fail;
use std::thread::Threads;
use wb_base::{Change, Keeper, Key, MemKeeper, MemSource, Row, Text};
use wb_cli::{Plan, PlanFault, Status, plan};
use wb_front::Station;
use wb_rows::RowFault;
use wb_server::serve;
use wb_setup::SetupFault;
use wb_transport::{MemListener, MemTicker};

const SERVE: &str = "serve --setup s --listen 127.0.0.1:80 --workers 2";

const TICKETS: &str = "serve --setup s --listen 127.0.0.1:80 --workers 2 --lock ticket";

const SPIN: &str = "serve --setup s --listen 127.0.0.1:80 --workers 2 --lock spin";

const NO_WORKERS: &str = "serve --setup s --listen 127.0.0.1:80";

/// How the reply ends that shows what the public sees of the setup's tenant.
const SEEN: &str =
    "\r\n\r\n{\"contexts\":[{\"id\":1,\"name\":\"Fraud\"},{\"id\":2,\"name\":\"Safety\"}],\"name\":\"Harbour City\",\"tenant\":1}";

/// How many bytes a setup's text has at most.
const LIMIT: usize = 1_048_576;

/// The key of the row that is kept.
const KEPT: Key = Key {
    kind: 1,
    tenant: 1,
    a: 0,
    b: 0,
};

const NOT_TOML: Status = Status::Setup(SetupFault::Text);

const BROKEN_RULE: Status = Status::Setup(SetupFault::Rule(1));

const BAD_ROW: Status = Status::KeptRows(RowFault::BadRow(KEPT));

/// The words; the setup's text, or none for that of a good setup, with line feeds up to a size; the text of the row that is kept, or none;
/// the calls of the source and of the keeper that fail; how many first calls of each listener fail; the status; and how many links had a
/// reply.
type Case<'a> = (
    &'a str,
    Option<&'a str>,
    usize,
    &'a str,
    &'a [u64],
    &'a [u64],
    u64,
    Status,
    usize,
);

const CASES: &[Case] = &[
    (SERVE, None, 0, "", &[], &[], 0, Status::Done, 6),
    (SERVE, None, LIMIT, "", &[], &[], 0, Status::Done, 6),
    (
        SERVE,
        None,
        LIMIT + 1,
        "",
        &[],
        &[],
        0,
        Status::BadFrame(0),
        0,
    ),
    (TICKETS, None, 0, "", &[], &[], 0, Status::Done, 6),
    (TICKETS, Some("="), 0, "", &[], &[], 0, NOT_TOML, 0),
    (TICKETS, None, 0, "", &[], &[], 16, Status::ListenFault, 0),
    (SPIN, None, 0, "", &[], &[], 0, Status::Usage, 0),
    (NO_WORKERS, None, 0, "", &[], &[], 0, Status::Usage, 0),
    ("play", None, 0, "", &[], &[], 0, Status::Usage, 0),
    (SERVE, Some("="), 0, "", &[], &[], 0, NOT_TOML, 0),
    (SERVE, Some(""), 0, "", &[], &[], 0, BROKEN_RULE, 0),
    (SERVE, None, 0, "", &[1], &[], 0, Status::ReadFault, 0),
    (SERVE, None, 0, "", &[2], &[], 0, Status::ReadFault, 0),
    (SERVE, None, 0, "", &[], &[1], 0, Status::OpenFault, 0),
    (SERVE, None, 0, "", &[], &[2], 0, Status::OpenFault, 0),
    (SERVE, None, 0, "{}", &[], &[], 0, BAD_ROW, 0),
    (SERVE, None, 0, "", &[], &[], 15, Status::Done, 6),
    (SERVE, None, 0, "", &[], &[], 16, Status::ListenFault, 0),
];

// The words of a line.
fn words_of(alloc: Global, line: &str) -> Result<Vec<Text>, Fail> {
    let mut words = Vec::new(alloc);
    for word in line.split(' ') {
        words.push(Text::from_str(alloc, word)?)?;
    }
    Ok(words)
}

// How many workers a plan asks for: those of a host that serves, and two where none is asked for.
fn workers(plan: &Plan) -> u32
    ensures { (text : List ℕ) (at : List ℕ) (count : ℕ) (lock : LockOf) (store : Option (List ℕ)) → Serve text at count lock store ≡ plan.now → count ≡ result }
{
    match plan {
        Plan::Serve { workers, .. } => *workers,
        _ => 2,
    }
}

// How many stations there are for the words: as many as workers, and two where the words ask for none.
fn workers_of(alloc: Global, words: &[Text]) -> Result<u32, Fail>
    ensures { IfOk result (λ workers. (text : List ℕ) (at : List ℕ) (count : ℕ) (lock : LockOf) (store : Option (List ℕ)) → Asks words.now (Serve text at count lock store) → count ≡ workers) }
{
    match plan(alloc, words) {
        Ok(plan) => Ok(workers(&plan)),
        Err(PlanFault::Usage) => Ok(2),
        Err(PlanFault::Memory) => Err("no memory".into()),
    }
}

// As many stations, to each of which three links come, with so many first calls of their listeners that fail.
fn stations_of(
    alloc: Global,
    count: u32,
    fails: u64,
) -> Result<Vec<Station<MemListener, MemTicker>>, Fail>
    ensures { IfOk result (λ stations. vec_len stations ≡ count) }
{
    let mut stations = Vec::new(alloc);
    for _ in 0..count {
        stations.push(station(alloc, 3, fails)?)?;
    }
    Ok(stations)
}

// A source of the text, or of a good setup's, with line feeds up to a size.
fn source_of(
    alloc: Global,
    text: Option<&str>,
    size: usize,
    fail: &[u64],
) -> Result<MemSource, Fail> {
    let mut bytes = match text {
        Some(text) => text.as_bytes().to_vec(alloc)?,
        None => sample_setup(alloc)?.into_bytes(),
    };
    if bytes.len() < size {
        bytes.resize(size, b'\n')?;
    }
    Ok(MemSource::new(bytes, Vec::new(alloc), fail.to_vec(alloc)?))
}

// Keeps a row.
fn keep(keeper: &mut MemKeeper, row: Row) -> Result<(), Fail> {
    if row.key.kind > 7 || row.key.kind == 7 && row.key.b != 0 {
        return Err("a key".into());
    }
    match keeper.apply(&[Change::Put(row)]) {
        Ok(()) => Ok(()),
        Err(_) => Err("a keeper".into()),
    }
}

// A keeper of a row with this text, or of nothing, which fails at these calls.
fn keeper_of(alloc: Global, text: &str, fail: &[u64]) -> Result<MemKeeper, Fail> {
    let mut keeper = keeper(alloc, fail)?;
    if !text.is_empty() {
        let text = Text::from_str(alloc, text)?;
        keep(&mut keeper, Row { key: KEPT, text })?;
    }
    Ok(keeper)
}

// How many links came back with what the public sees of the tenant that the setup sets up.
fn replied(stations: &[Station<MemListener, MemTicker>]) -> usize {
    let mut count = 0;
    for station in stations {
        for link in station.listener.came() {
            let got = link.got();
            if got.starts_with(b"HTTP/1.1 200 OK\r\n") && got.ends_with(SEEN.as_bytes()) {
                count = usize::saturating_add(count, 1);
            }
        }
    }
    count
}

// The status of a call over so many stations, whether the keeper came back, and how many links had a reply.
fn ends<R: Threads + Wait + Sync>(
    rt: &R,
    alloc: Global,
    words: &[Text],
    setup: MemSource,
    keeper: MemKeeper,
    fails: u64,
) -> Result<(Status, bool, usize), Fail> {
    let mut setup = setup;
    let mut stations = stations_of(alloc, workers_of(alloc, words)?, fails)?;
    let served = serve(rt, alloc, words, &mut setup, &mut stations, keeper);
    Ok((served.status, served.keeper.is_some(), replied(&stations)))
}

// Whether a call ends as it is to.
fn is_right<R: Threads + Wait + Sync>(rt: &R, alloc: Global, case: &Case) -> Result<bool, Fail> {
    let (line, text, size, row, source, kept, fails, status, links) = *case;
    let words = words_of(alloc, line)?;
    let setup = source_of(alloc, text, size, source)?;
    let keeper = keeper_of(alloc, row, kept)?;
    let (ended, came, replied) = ends(rt, alloc, &words, setup, keeper, fails)?;
    Ok(ended == status && came && replied == links)
}

#[test]
fn the_call_that_serves_ends_with_the_status_of_its_cause(rt: HostRuntime) -> Result<(), Fail> {
    for case in CASES {
        assert!(rt; is_right(&rt, rt.alloc(), case)?);
    }
    assert_eq!(rt; Status::ListenFault.number(), 11);
    Ok(())
}
