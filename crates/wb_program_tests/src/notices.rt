//! What is owed of kept rows, and what an outbox takes of it.
ghost use Rattle.std.specs.Prelude.{ℕ, IfOk};
ghost use Rattle.wb_model.specs.KeptRules.{AreKept};
ghost use Rattle.wb_rows.specs.Held.{held_by};
ghost use Rattle.wb_rows.specs.Openings.{tables_of, time_of};

use std::alloc::Global;
use std::str;
use std::test::Fail;
use wb_base::{Change, Keeper, Key, MemKeeper, MemSink, Moment, Row, Text};
use wb_notice::{NoticeNo, deliver, notify, owed};
use wb_rows::{Tables, read};

// A key: kind, tenant and two numbers.
type Place = (u8, u32, u32, u32);

// What a host leaves after one submission with an identity answer.
const LEFT: &[(Place, &str)] = &[
    (
        (1, 1, 0, 0),
        r#"{"name":"Harbour City","notice_days":7,"offset":0,"quota":50,"salt":"000102030405060708090a0b0c0d0e0f"}"#,
    ),
    ((2, 1, 0, 0), r#"{"at":1735689600,"drawn":3,"last":3}"#),
    (
        (3, 1, 1, 0),
        r#"{"disabled":0,"enabled":true,"may":[],"name":"ada","role":"recipient","secret":"9a8ae24c4ef2ab2a8429f7975ffef53d64c5e6342579f33bfee9ccf822051090"}"#,
    ),
    (
        (3, 1, 2, 0),
        r#"{"disabled":1,"enabled":false,"may":[],"name":"ben","role":"recipient","secret":"5565e8dda85bc37bc80c46766b7842bed74b82aa87e090ab139462ade5c9b629"}"#,
    ),
    (
        (3, 1, 3, 0),
        r#"{"disabled":0,"enabled":true,"may":[],"name":"cleo","role":"custodian","secret":"5565e8dda85bc37bc80c46766b7842bed74b82aa87e090ab139462ade5c9b629"}"#,
    ),
    (
        (4, 1, 1, 1),
        r#"{"steps":[{"fields":[{"id":"what","identity":false,"kind":"text","label":"What","max":4096,"required":true},{"id":"name","identity":true,"kind":"text","label":"Name","max":4096,"required":false}],"title":"Report"}]}"#,
    ),
    (
        (5, 1, 1, 0),
        r#"{"form":1,"name":"Fraud","open":true,"recipients":[1],"retention":30}"#,
    ),
    (
        (5, 1, 2, 0),
        r#"{"form":1,"name":"Safety","open":true,"recipients":[1,2],"retention":10}"#,
    ),
    (
        (6, 1, 1, 1),
        r#"{"ack_due":"2025-01-08","answers":{"what":"Bribe"},"at":1735689600,"by":0,"context":1,"deed":"submitted","expires":"2025-01-31","feedback_due":"2025-04-08","form":1,"mark":true,"readers":[1],"receipt":"f571008a6fbb1bc8a9ad9cae352482138ad3ca2b0513c0b08a4822b1c21c8d5c","received":"2025-01-01","version":1}"#,
    ),
    ((7, 1, 1, 0), r#"{"name":"Eve"}"#),
];

// A request on that report, which waits; a report of two readers, of whom one is disabled, that was closed before it was acknowledged and expires
// soon; and one that nobody answered.
const MORE: &[(Place, &str)] = &[
    (
        (6, 1, 1, 2),
        r#"{"at":1735689650,"by":1,"deed":"asked","reason":"Interview","stamp":0}"#,
    ),
    (
        (6, 1, 2, 1),
        r#"{"ack_due":"2025-01-08","answers":{"what":"Leak"},"at":1735689600,"by":0,"context":2,"deed":"submitted","expires":"2025-01-11","feedback_due":"2025-04-08","form":1,"mark":false,"readers":[1,2],"receipt":"9dea1742a21180a5c1fd983f6081fd917b8637e5d3bb1f6a19ea702444266453","received":"2025-01-01","version":1}"#,
    ),
    (
        (6, 1, 2, 2),
        r#"{"at":1735689660,"by":1,"deed":"status","status":"closed"}"#,
    ),
    (
        (6, 1, 3, 1),
        r#"{"ack_due":"2025-01-08","answers":{"what":"Theft"},"at":1735689600,"by":0,"context":1,"deed":"submitted","expires":"2026-01-01","feedback_due":"2025-04-08","form":1,"mark":false,"readers":[1],"receipt":"0dea1742a21180a5c1fd983f6081fd917b8637e5d3bb1f6a19ea702444266453","received":"2025-01-01","version":1}"#,
    ),
];

// Keeps a row.
fn keep(alloc: Global, keeper: &mut MemKeeper, place: Place, text: &str) -> Result<(), Fail> {
    let (kind, tenant, a, b) = place;
    if kind > 7 || kind == 7 && b != 0 {
        return Err("a key".into());
    }
    let key = Key { kind, tenant, a, b };
    let text = Text::from_str(alloc, text)?;
    if keeper.apply(&[Change::Put(Row { key, text })]).is_err() {
        return Err("a keeper".into());
    }
    Ok(())
}

// A keeper that holds nothing, and fails at these calls.
fn empty(alloc: Global, fail: Vec<u64>) -> MemKeeper {
    let rows = Vec::new(alloc);
    MemKeeper::new(rows, fail)
}

// A keeper of the kept rows.
fn kept(alloc: Global, more: bool) -> Result<MemKeeper, Fail> {
    let mut keeper = empty(alloc, Vec::new(alloc));
    for (place, text) in LEFT {
        keep(alloc, &mut keeper, *place, text)?;
    }
    if more {
        for (place, text) in MORE {
            keep(alloc, &mut keeper, *place, text)?;
        }
    }
    Ok(keeper)
}

// The tables of the kept rows.
fn tables(alloc: Global, more: bool) -> Result<Tables, Fail>
    ensures { IfOk result (λ tables. (t : ℕ) → AreKept (time_of (held_by tables)) tables.registry.lists t (tables_of (held_by tables) t)) }
{
    let Ok(rows) = kept(alloc, more)?.load() else {
        return Err("rows".into());
    };
    let Ok(tables) = read(alloc, rows) else {
        return Err("tables".into());
    };
    Ok(tables)
}

// Rows, a line a row: its key, and its text.
fn lines(alloc: Global, rows: &[Row]) -> Result<String, Fail> {
    let mut lines = String::new(alloc);
    for row in rows {
        let key = row.key;
        let text = row.text.as_str();
        let line = format!(in alloc; "{}/{}/{}/{} {text}\n", key.kind, key.tenant, key.a, key.b)?;
        lines.push_str(line.as_str())?;
    }
    Ok(lines)
}

#[test]
fn each_kind_of_notice_is_owed_to_whom_it_may_concern(rt: HostRuntime) -> Result<(), Fail> {
    let alloc = rt.alloc();
    for (seconds, expected) in [
        (
            1_735_689_700,
            "6/1/1/9 {\"day\":\"2025-01-01\",\"kind\":\"new\",\"number\":1,\"user\":1}\n\
             6/1/1/29 {\"day\":\"2025-01-01\",\"kind\":\"asked\",\"number\":1,\"user\":3}\n\
             6/1/2/9 {\"day\":\"2025-01-01\",\"kind\":\"new\",\"number\":2,\"user\":1}\n\
             6/1/3/9 {\"day\":\"2025-01-01\",\"kind\":\"new\",\"number\":3,\"user\":1}\n",
        ),
        (
            1_736_380_800,
            "6/1/1/9 {\"day\":\"2025-01-09\",\"kind\":\"new\",\"number\":1,\"user\":1}\n\
             6/1/1/10 {\"day\":\"2025-01-09\",\"kind\":\"ack_over\",\"number\":1,\"user\":1}\n\
             6/1/1/29 {\"day\":\"2025-01-09\",\"kind\":\"asked\",\"number\":1,\"user\":3}\n\
             6/1/2/9 {\"day\":\"2025-01-09\",\"kind\":\"new\",\"number\":2,\"user\":1}\n\
             6/1/2/12 {\"day\":\"2025-01-09\",\"kind\":\"expiring\",\"number\":2,\"user\":1}\n\
             6/1/3/9 {\"day\":\"2025-01-09\",\"kind\":\"new\",\"number\":3,\"user\":1}\n\
             6/1/3/10 {\"day\":\"2025-01-09\",\"kind\":\"ack_over\",\"number\":3,\"user\":1}\n",
        ),
        (
            1_744_156_800,
            "6/1/3/9 {\"day\":\"2025-04-09\",\"kind\":\"new\",\"number\":3,\"user\":1}\n\
             6/1/3/10 {\"day\":\"2025-04-09\",\"kind\":\"ack_over\",\"number\":3,\"user\":1}\n\
             6/1/3/11 {\"day\":\"2025-04-09\",\"kind\":\"feedback_over\",\"number\":3,\"user\":1}\n",
        ),
    ] {
        let tables = tables(alloc, true)?;
        let now = Moment::try_new(seconds).ok_or("a moment")?;
        let rows = owed(alloc, &tables, now)?;
        assert_eq!(rt; lines(alloc, rows.as_slice())?.as_str(), expected);
    }
    Ok(())
}

// The call, in a function of its own.
fn call(
    alloc: Global,
    words: &[Text],
    keeper: &mut MemKeeper,
    outbox: &mut MemKeeper,
    sink: &mut MemSink,
) -> u8 {
    notify(alloc, words, keeper, outbox, sink).number()
}

// What `notices` at a moment writes, the number that it ends with, and how many rows the outbox holds then.
fn notified(alloc: Global, outbox: &mut MemKeeper, seconds: &str) -> Result<String, Fail> {
    let mut words = Vec::new(alloc);
    for word in ["notices", seconds, "--store", "rows", "--outbox", "outbox"] {
        words.push(Text::from_str(alloc, word)?)?;
    }
    let mut keeper = kept(alloc, false)?;
    let mut sink = MemSink::new(Vec::new(alloc), 4096, Vec::new(alloc))?;
    let number = call(alloc, words.as_slice(), &mut keeper, outbox, &mut sink);
    let Ok(text) = str::from_utf8(sink.held()) else {
        return Err("a text".into());
    };
    let held = outbox.rows().len();
    Ok(format!(in alloc; "{text}{number} {held}")?)
}

#[test]
fn a_notice_is_written_once_and_goes_with_its_report(rt: HostRuntime) -> Result<(), Fail> {
    let alloc = rt.alloc();
    let mut outbox = empty(alloc, Vec::new(alloc));
    for (seconds, told) in [
        ("1735689700", "1 1 new 1 2025-01-01\nwritten 1\n0 1"),
        ("1735689700", "written 0\n0 1"),
        ("1736380800", "1 1 ack_over 1 2025-01-09\nwritten 1\n0 2"),
        ("1738281600", "written 0\n0 0"),
    ] {
        assert_eq!(rt; notified(alloc, &mut outbox, seconds)?.as_str(), told);
    }
    Ok(())
}

// What a delivery puts into an outbox, or why it is not made, and how many rows it holds then.
fn delivered(alloc: Global, outbox: &mut MemKeeper) -> Result<String, Fail> {
    let tables = tables(alloc, false)?;
    let now = Moment::try_new(1_735_689_700).ok_or("a moment")?;
    let told = match deliver(alloc, &tables, now, outbox) {
        Ok(rows) => lines(alloc, rows.as_slice())?,
        Err(NoticeNo::Keeper) => format!(in alloc; "keeper ")?,
        Err(NoticeNo::OutboxRows(key)) => format!(in alloc; "{}/{} ", key.kind, key.b)?,
        Err(NoticeNo::Memory) => return Err("memory".into()),
    };
    let held = outbox.rows().len();
    Ok(format!(in alloc; "{told}{held}")?)
}

#[test]
fn a_delivery_that_failed_is_tried_again(rt: HostRuntime) -> Result<(), Fail> {
    let alloc = rt.alloc();
    let mut fail = Vec::new(alloc);
    fail.push(2)?;
    let mut outbox = empty(alloc, fail);
    for told in [
        "keeper 0",
        "6/1/1/9 {\"day\":\"2025-01-01\",\"kind\":\"new\",\"number\":1,\"user\":1}\n1",
        "1",
    ] {
        assert_eq!(rt; delivered(alloc, &mut outbox)?.as_str(), told);
    }
    keep(alloc, &mut outbox, (6, 1, 1, 14), "{}")?;
    assert_eq!(rt; delivered(alloc, &mut outbox)?.as_str(), "6/14 2");
    Ok(())
}

// The second delivery has nothing to change: it asks for the rows alone, by the outbox's third call.
#[test]
fn an_outbox_is_not_called_to_change_nothing(rt: HostRuntime) -> Result<(), Fail> {
    let alloc = rt.alloc();
    let mut outbox = empty(alloc, [4].to_vec(alloc)?);
    for held in ["1", "1"] {
        assert!(rt; delivered(alloc, &mut outbox)?.ends_with(held));
    }
    assert_eq!(rt; outbox.faults(), 0);
    Ok(())
}
