//! A keeper over a dialer in memory, with requests and answers byte by byte as a store of etcd 3.4 takes and gives them.
ghost use Rattle.std.specs.Prelude.{All, IfOk};
ghost use Rattle.wb_base.specs.KeptRows.{IsGoodChange};

use std::alloc::Global;
use std::test::Fail;
use wb_base::{Change, Keeper, Key, Number, Row, Tenant, Text};
use wb_etcd::{EtcdKeeper, Store};
use wb_transport::{MemDial, MemLink};

const NAME: &str = "etcd://a:1,b:2/w";

// The holder's key as it was last put.
const HELD: &str =
    r#"{"header":{"revision":"8"},"kvs":[{"key":"dy9ob2xkZXI=","create_revision":"2","mod_revision":"7","version":"6"}],"count":"1"}"#;

// The store is taken.
const TAKEN: &str =
    r#"{"header":{"revision":"9"},"succeeded":true,"responses":[{"response_put":{"header":{"revision":"9"}}}]}"#;

// The first two rows of three.
const FIRST: &str =
    r#"{"header":{"revision":"9"},"kvs":[{"key":"dy8wMDMvMDAwMDAwMDAwMS8wMDAwMDAwMDAyLzAwMDAwMDAwMDA=","mod_revision":"3"},{"key":"dy8wMDYvMDAwMDAwMDAwMS8wMDAwMDAwMDAyLzAwMDAwMDAwMDE=","mod_revision":"4","value":"ZW50cnk="}],"more":true,"count":"3"}"#;

// The last row.
const REST: &str =
    r#"{"header":{"revision":"9"},"kvs":[{"key":"dy8wMDcvMDAwMDAwMDAwMS8wMDAwMDAwMDAyLzAwMDAwMDAwMDA=","mod_revision":"4","value":"c2VhbGVk"}],"count":"1"}"#;

// Changes are made.
const MADE: &str =
    r#"{"header":{"revision":"10"},"succeeded":true,"responses":[{"response_put":{"header":{"revision":"10"}}},{"response_delete_range":{"header":{"revision":"10"},"deleted":"1"}}]}"#;

// What the store answers as a host takes it, reads its three rows in two pieces, and changes them.
const ANSWERS: &[&str] = &[HELD, TAKEN, FIRST, REST, MADE];

// What it was sent for each: the path, the length, and the text.
const ASKED: &[(&str, &str, &str)] = &[
    ("/v3/kv/range", "22", r#"{"key":"dy9ob2xkZXI="}"#),
    (
        "/v3/kv/txn",
        "149",
        r#"{"compare":[{"key":"dy9ob2xkZXI=","mod_revision":"7","result":"EQUAL","target":"MOD"}],"success":[{"request_put":{"key":"dy9ob2xkZXI=","value":""}}]}"#,
    ),
    (
        "/v3/kv/range",
        "61",
        r#"{"key":"dy8w","limit":"16","range_end":"dy86","revision":"9"}"#,
    ),
    (
        "/v3/kv/range",
        "109",
        r#"{"key":"dy8wMDYvMDAwMDAwMDAwMS8wMDAwMDAwMDAyLzAwMDAwMDAwMDEA","limit":"16","range_end":"dy86","revision":"9"}"#,
    ),
    (
        "/v3/kv/txn",
        "463",
        r#"{"compare":[{"key":"dy9ob2xkZXI=","mod_revision":"9","result":"EQUAL","target":"MOD"}],"success":[{"request_put":{"key":"dy8wMDIvMDAwMDAwMDAwMS8wMDAwMDAwMDAwLzAwMDAwMDAwMDA=","value":"bnVtYmVycw=="}},{"request_delete_range":{"key":"dy8wMDYvMDAwMDAwMDAwMS8wMDAwMDAwMDAyLw==","range_end":"dy8wMDYvMDAwMDAwMDAwMS8wMDAwMDAwMDAyMA=="}},{"request_delete_range":{"key":"dy8wMDcvMDAwMDAwMDAwMS8wMDAwMDAwMDAyLw==","range_end":"dy8wMDcvMDAwMDAwMDAwMS8wMDAwMDAwMDAyMA=="}}]}"#,
    ),
];

// A link that gives an answer without so many of its last bytes, whose content comes in chunks.
fn link(alloc: Global, body: &str, cut: usize) -> Result<MemLink, Fail> {
    let size = body.len();
    let answer = format!(in alloc;
        "HTTP/1.1 200 OK\r\nContent-Type: application/json\r\nConnection: close\r\nTransfer-Encoding: chunked\r\n\r\n{size:x}\r\n{body}\r\n0\r\n\r\n"
    )?;
    let bytes = answer.as_bytes();
    let content = bytes[..bytes.len().saturating_sub(cut)].to_vec(alloc)?;
    Ok(MemLink::new(content, Vec::new(alloc), 10_000, Vec::new(alloc))?)
}

// A keeper whose store gives these answers, each over a link of its second endpoint, one of them without its last byte.
fn keeper(alloc: Global, answers: &[&str], short: usize) -> Result<EtcdKeeper<MemDial>, Fail> {
    let Some(store) = Store::read(alloc, NAME)? else {
        return Err(Fail::from("a name"));
    };
    let mut offers = Vec::new(alloc);
    for (at, body) in answers.iter().enumerate() {
        let cut = usize::from(at == short);
        offers.push((Text::from_str(alloc, "b:2")?, link(alloc, body, cut)?))?;
    }
    Ok(EtcdKeeper::new(alloc, MemDial::new(offers)?, store))
}

// A row of numbers, and a report that goes.
fn changes(alloc: Global) -> Result<Vec<Change>, Fail>
    ensures { IfOk result (λ changes. All IsGoodChange changes.items) }
{
    let key = Key {
        kind: 2,
        tenant: 1,
        a: 0,
        b: 0,
    };
    let text = Text::from_str(alloc, "numbers")?;
    let mut changes = Vec::new(alloc);
    changes.push(Change::Put(Row { key, text }))?;
    if let (Some(tenant), Some(number)) = (Tenant::try_new(1), Number::try_new(2)) {
        changes.push(Change::DropReport(tenant, number))?;
    }
    Ok(changes)
}

// The rows of a load, or nothing where it failed.
fn loaded(alloc: Global, keeper: &mut EtcdKeeper<MemDial>) -> Result<Option<String>, Fail> {
    let Ok(rows) = keeper.load() else {
        return Ok(None);
    };
    let mut told = String::new(alloc);
    for row in &rows {
        push_row(alloc, &mut told, row)?;
    }
    Ok(Some(told))
}

// Appends what a row shows.
fn push_row(alloc: Global, told: &mut String, row: &Row) -> Result<(), Fail> {
    let key = row.key;
    let text = row.text.as_str();
    let shown = format!(in alloc; "{} {} {} {} {text};", key.kind, key.tenant, key.a, key.b)?;
    told.push_str(shown.as_str())?;
    Ok(())
}

// Whether changes were made.
fn applies(keeper: &mut EtcdKeeper<MemDial>, changes: &[Change]) -> bool
    requires { All IsGoodChange changes.now }
{
    keeper.apply(changes).is_ok()
}

// What a keeper does whose store gives these answers: its rows, whether two changes in turn are made, how it stands then, and its faults.
fn played(alloc: Global, answers: &[&str], short: usize) -> Result<String, Fail> {
    let mut keeper = keeper(alloc, answers, short)?;
    let changes = changes(alloc)?;
    let rows = loaded(alloc, &mut keeper)?.unwrap_or(String::new(alloc));
    let first = applies(&mut keeper, changes.as_slice());
    let second = applies(&mut keeper, changes.as_slice());
    let (standing, faults) = (keeper.standing(), keeper.faults());
    Ok(format!(in alloc; "{rows} {first} {second} {standing:?} {faults}")?)
}

// What the links of a keeper got, that was loaded and made changes.
fn sent(alloc: Global) -> Result<Vec<u8>, Fail> {
    let mut keeper = keeper(alloc, ANSWERS, 9)?;
    let changes = changes(alloc)?;
    let _rows = loaded(alloc, &mut keeper)?;
    let _made = applies(&mut keeper, changes.as_slice());
    let mut sent = Vec::new(alloc);
    for link in keeper.dialer().closed() {
        sent.extend_from_slice(link.got())?;
    }
    Ok(sent)
}

#[test]
fn a_store_is_taken_read_and_changed_by_these_bytes(rt: HostRuntime) -> Result<(), Fail> {
    let alloc = rt.alloc();
    let mut asked = String::new(alloc);
    for (path, size, body) in ASKED {
        let request = format!(in alloc;
            "POST {path} HTTP/1.1\r\nHost: b:2\r\nConnection: close\r\nContent-Type: application/json\r\nContent-Length: {size}\r\n\r\n{body}"
        )?;
        asked.push_str(request.as_str())?;
    }
    let sent = sent(alloc)?;
    assert!(rt; sent.as_slice() == asked.as_bytes());
    Ok(())
}

// Nothing but the store's revision: no row, or a transaction that was not made.
const REVISION: &str = r#"{"header":{"revision":"9"}}"#;

// A key that is none of a row.
const FOREIGN: &str =
    r#"{"header":{"revision":"9"},"kvs":[{"key":"dy8wMDk=","mod_revision":"3"}]}"#;

// A row twice.
const TWICE: &str =
    r#"{"header":{"revision":"9"},"kvs":[{"key":"dy8wMDMvMDAwMDAwMDAwMS8wMDAwMDAwMDAyLzAwMDAwMDAwMDA="},{"key":"dy8wMDMvMDAwMDAwMDAwMS8wMDAwMDAwMDAyLzAwMDAwMDAwMDA="}]}"#;

// Answers, which of them comes without its last byte, and what a keeper then does.
const PLAYED: &[(&[&str], usize, &str)] = &[
    (
        ANSWERS,
        9,
        "3 1 2 0 ;6 1 2 1 entry;7 1 2 0 sealed; true false Holds(9) 1",
    ),
    (
        ANSWERS,
        4,
        "3 1 2 0 ;6 1 2 1 entry;7 1 2 0 sealed; false false Ended 2",
    ),
    (
        &[HELD, TAKEN, REST, REVISION, MADE],
        9,
        "7 1 2 0 sealed; false false Ended 2",
    ),
    (
        &[REVISION, TAKEN, REVISION, MADE, MADE],
        9,
        " true true Holds(9) 0",
    ),
    (&[HELD, REVISION], 9, " false false Unloaded 3"),
    (&[HELD, TAKEN, FOREIGN], 9, " false false Unloaded 3"),
    (&[HELD, TAKEN, TWICE], 9, " false false Unloaded 3"),
    (&[HELD, TAKEN, REVISION], 2, " false false Unloaded 3"),
    (&[HELD, TAKEN, "{"], 9, " false false Unloaded 3"),
];

#[test]
fn a_keeper_takes_these_answers_and_refuses_those(rt: HostRuntime) -> Result<(), Fail> {
    let alloc = rt.alloc();
    for (answers, short, told) in PLAYED {
        let played = played(alloc, answers, *short)?;
        assert_eq!(rt; played.as_str(), *told);
    }
    Ok(())
}

#[test]
fn these_texts_name_stores(rt: HostRuntime) -> Result<(), Fail> {
    let alloc = rt.alloc();
    for (name, is) in [
        (NAME, true),
        ("etcd://[::1]:2379/city-1_a.b", true),
        ("etcd:///w", false),
        ("etcd://a:1", false),
        ("etcd://a:1/", false),
        ("etcd://a/w", false),
        ("etcd://a:1,/w", false),
        ("etcd://a:1/w/x", false),
        ("etcd://a:1\r\n/w", false),
        ("http://a:1/w", false),
    ] {
        assert_eq!(rt; Store::read(alloc, name)?.is_some(), is, "{name}");
    }
    Ok(())
}
