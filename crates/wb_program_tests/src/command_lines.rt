//! Command lines, and what they ask.
use std::alloc::Global;
use std::test::Fail;
use wb_base::Text;
use wb_cli::{Lock, Place, Plan, PlanFault, StoreWord, plan};

// Words, and what they ask.
const FORMS: &[(&[&str], &str)] = &[
    (&["play"], "play"),
    (&["play", "--"], "play"),
    (&["play", "--store", "f"], "play over f"),
    (&["play", "--store=f"], "play over f"),
    (&["play", "--store=a=b"], "play over a=b"),
    (&["play", "--store=-x"], "play over -x"),
    (&["play", "--store", "-"], "play over -"),
    (&["play", "--store", "f", "--"], "play over f"),
    (&["make", "1"], "make 1"),
    (&["make", "20000"], "make 20000"),
    (&["make", "--", "7"], "make 7"),
    (&["make", "7", "--"], "make 7"),
    (&["tally", "1"], "tally 1"),
    (&["tally", "20000"], "tally 20000"),
    (&["tally", "--", "7"], "tally 7"),
];

// Words that ask nothing.
const NO_FORMS: &[&[&str]] = &[
    &[],
    &[""],
    &["Play"],
    &["plays"],
    &["--", "play"],
    &["--store", "f", "play"],
    &["--help"],
    &["help"],
    &["play", "--help"],
    &["play", "-h"],
    &["play", "--version"],
    &["play", "x"],
    &["play", "-"],
    &["play", "--", "x"],
    &["play", "--", "--store", "f"],
    &["play", "--store"],
    &["play", "--store="],
    &["play", "--store", ""],
    &["play", "--store", "-x"],
    &["play", "--store", "--"],
    &["play", "--stor", "f"],
    &["play", "--store", "a", "--store", "b"],
    &["make"],
    &["make", ""],
    &["make", "0"],
    &["make", "01"],
    &["make", "20001"],
    &["make", "4294967297"],
    &["make", "+1"],
    &["make", "-1"],
    &["make", "1 "],
    &["make", "one"],
    &["make", "1", "2"],
    &["make", "--", "--"],
    &["make", "--store", "f"],
    &["make", "--turns", "1"],
    &["tally"],
    &["tally", "0"],
    &["tally", "01"],
    &["tally", "20001"],
    &["tally", "1", "2"],
    &["tally", "--store", "f", "8"],
    &["tally", "8", "--store=f"],
    &["tallies", "8"],
    &["serve"],
];

// Words of `serve` with a space between each two, and what they ask. Where two spaces meet, a word is empty.
const SERVE_FORMS: &[(&str, &str)] = &[
    (
        "serve --setup s --listen l --workers 1",
        "serve s at l by 1",
    ),
    (
        "serve --workers 64 --listen l --setup s",
        "serve s at l by 64",
    ),
    (
        "serve --setup=a=b --listen=[::1]:80 --workers=8",
        "serve a=b at [::1]:80 by 8",
    ),
    (
        "serve --store f --setup s --listen l --workers 2",
        "serve s at l by 2 over f",
    ),
    (
        "serve --setup - --listen - --workers 2 --store -",
        "serve - at - by 2 over -",
    ),
    (
        "serve --setup=-x --listen=-- --workers=2 --store=--setup",
        "serve -x at -- by 2 over --setup",
    ),
    (
        "serve --setup s --listen l --workers 2 --",
        "serve s at l by 2",
    ),
    (
        "serve --setup s --listen l --workers 2 --lock mutex",
        "serve s at l by 2",
    ),
    (
        "serve --lock=ticket --setup s --listen l --workers 2",
        "serve s at l by 2 with tickets",
    ),
    (
        "serve --setup s --listen l --workers 2 --lock ticket --store f",
        "serve s at l by 2 with tickets over f",
    ),
];

// Such words that ask nothing.
const SERVE_NO_FORMS: &[&str] = &[
    "Serve --setup s --listen l --workers 1",
    "-- serve --setup s --listen l --workers 1",
    "play --setup s --listen l --workers 1",
    "serve --listen l --workers 1",
    "serve --setup s --workers 1",
    "serve --setup s --listen l",
    "serve --setup s --listen l --store f",
    "serve --setup s --setup s --listen l --workers 1",
    "serve --setup s --listen l --listen=l --workers 1",
    "serve --setup s --listen l --workers 1 --workers 1",
    "serve --store f --setup s --listen l --workers 1 --store f",
    "serve --setup s --listen l --workers 0",
    "serve --setup s --listen l --workers 65",
    "serve --setup s --listen l --workers 064",
    "serve --setup s --listen l --workers=01",
    "serve --setup s --listen l --workers +1",
    "serve --setup s --listen l --workers -1",
    "serve --setup s --listen l --workers=-1",
    "serve --setup s --listen l --workers one",
    "serve --setup s --listen l --workers 4294967297",
    "serve --setup s --listen l --workers ",
    "serve --setup s --listen l --workers=",
    "serve --setup s --listen l --workers",
    "serve --setup  --listen l --workers 1",
    "serve --setup= --listen l --workers 1",
    "serve --setup s --listen  --workers 1",
    "serve --setup s --listen= --workers 1",
    "serve --setup s --listen l --workers 1 --store ",
    "serve --setup s --listen l --workers 1 --store=",
    "serve --setup s --listen l --workers 1 --store",
    "serve --setup -x --listen l --workers 1",
    "serve --setup --listen l --workers 1",
    "serve -- --setup s --listen l --workers 1",
    "serve --setup s --listen l -- --workers 1",
    "serve --setup s --listen l --workers 1 x",
    "serve --setup s --listen l --workers 1 -",
    "serve --setup s --listen l --workers 1 ",
    "serve --setup s --listen l --workers 1 -- x",
    "serve x --setup s --listen l --workers 1",
    "serve --setup s --listen l --workers 1 --help",
    "serve --setup s --listen l --workers 1 --version",
    "serve --set s --listen l --workers 1",
    "serve --setup s --listen l --workers 1 --lock spin",
    "serve --setup s --listen l --workers 1 --lock Ticket",
    "serve --setup s --listen l --workers 1 --lock ",
    "serve --setup s --listen l --workers 1 --lock=",
    "serve --setup s --listen l --workers 1 --lock",
    "serve --setup s --listen l --workers 1 --lock ticket --lock ticket",
    "play --lock ticket",
    "serve -setup s --listen l --workers 1",
];

// Words over a store of etcd, with a space between each two, and what they ask.
const ETCD_FORMS: &[(&str, &str)] = &[
    (
        "play --store etcd://10.0.0.1:2379/whistle",
        "play over 1 endpoints, first 10.0.0.1:2379, under whistle",
    ),
    (
        "play --store=etcd://a:1,[::1]:2379,c.d-e:3/city_1.b",
        "play over 3 endpoints, first a:1, under city_1.b",
    ),
    (
        "serve --setup s --listen l --workers 2 --store etcd://a:1,b:2/w --lock ticket",
        "serve s at l by 2 with tickets over 2 endpoints, first a:1, under w",
    ),
    ("play --store etcd:/a:1/w", "play over etcd:/a:1/w"),
    ("play --store ETCD://a:1/w", "play over ETCD://a:1/w"),
    ("play --store ./etcd://a:1/w", "play over ./etcd://a:1/w"),
];

// Such words that ask nothing.
const ETCD_NO_FORMS: &[&str] = &[
    "play --store etcd://",
    "play --store etcd:///w",
    "play --store etcd://a:1",
    "play --store etcd://a:1/",
    "play --store etcd://a/w",
    "play --store etcd://a:1,/w",
    "play --store etcd://,a:1/w",
    "play --store etcd://a:1,b/w",
    "play --store etcd://a:1/w/x",
    "play --store etcd://a:1/w?x",
    "play --store etcd://u@a:1/w",
    "play --store etcd://a:1/w --store f",
    "serve --setup s --listen l --workers 2 --store etcd://a:1",
    "register 1 1 1 --store etcd://a:1/w",
    "forecast 1 2025-01-31 --store etcd://a:1/w",
    "notices 1 --store etcd://a:1/w --outbox o",
    "notices 1 --store s --outbox etcd://a:1/w",
];

// Words of the other calls over kept rows, with a space between each two, and what they ask.
const KEPT_FORMS: &[(&str, &str)] = &[
    (
        "notices 1735689700 --store s --outbox o",
        "notices at 1735689700 over s into o",
    ),
    (
        "notices --outbox=s --store=s 0",
        "notices at 0 over s into s",
    ),
    (
        "register 1 256 99999999999",
        "register of 1 by 256 at 99999999999",
    ),
    (
        "register --store f 64 1 0",
        "register of 64 by 1 at 0 over f",
    ),
    ("forecast 1 2025-01-31", "forecast of 1 by 20119"),
    (
        "forecast 64 5199-12-31 --store=f",
        "forecast of 64 by 1179732 over f",
    ),
    ("forecast -- 1 1970-01-01", "forecast of 1 by 0"),
];

// Such words that ask nothing.
const KEPT_NO_FORMS: &[&str] = &[
    "notices 1 --store s",
    "notices 1 --outbox o",
    "notices --store s --outbox o",
    "notices 01 --store s --outbox o",
    "notices -1 --store s --outbox o",
    "notices 100000000000 --store s --outbox o",
    "notices 18446744073709551617 --store s --outbox o",
    "notices 1 --store= --outbox o",
    "notices 1 --store s --outbox=",
    "notices 1 2 --store s --outbox o",
    "register 0 1 1",
    "register 65 1 1",
    "register 1 0 1",
    "register 1 257 1",
    "register 1 65537 1",
    "register 1 1",
    "register 1 1 1 1",
    "register 1 1 01",
    "register 1 1 1 --store=",
    "register 1 1 1 --outbox o",
    "forecast 1",
    "forecast 65 2025-01-31",
    "forecast 1 2025-02-30",
    "forecast 1 2025-1-31",
    "forecast 1 1969-12-31",
    "forecast 1 5200-01-01",
    "forecast 1 2025-01-31 1",
    "forecast 1 2025-01-31 --store",
    "forecasts 1 2025-01-31",
];

// What is asked over rows in memory, or in the file of a path, in short.
fn told_over(alloc: Global, asked: String, store: &Option<Text>) -> Result<String, Fail> {
    match store {
        None => Ok(asked),
        Some(path) => Ok(format!(in alloc; "{} over {}", asked.as_str(), path.as_str())?),
    }
}

// What is asked over rows in memory, or where a word says, in short.
fn told_at(alloc: Global, asked: String, store: Option<StoreWord>) -> Result<String, Fail> {
    let Some(word) = store else {
        return Ok(asked);
    };
    match word.place() {
        Place::File(path) => told_over(alloc, asked, &Some(path)),
        Place::Etcd(store) => {
            let count = store.endpoints.len();
            let first = match store.endpoints.as_slice().first() {
                Some(first) => first.as_str(),
                None => "",
            };
            let prefix = store.prefix.as_str();
            let asked = asked.as_str();
            Ok(format!(in alloc; "{asked} over {count} endpoints, first {first}, under {prefix}")?)
        }
    }
}

// What is asked of a host that serves, in short.
fn told_of_serving(
    alloc: Global,
    setup: &Text,
    listen: &Text,
    workers: u32,
    lock: Lock,
    store: Option<StoreWord>,
) -> Result<String, Fail> {
    let setup = setup.as_str();
    let listen = listen.as_str();
    let lock = match lock {
        Lock::Mutex => "",
        Lock::Ticket => " with tickets",
    };
    let asked = format!(in alloc; "serve {setup} at {listen} by {workers}{lock}")?;
    told_at(alloc, asked, store)
}

// What is asked, in short.
fn told_of_plan(alloc: Global, plan: Plan) -> Result<String, Fail> {
    match plan {
        Plan::Play { store } => told_at(alloc, String::from_str(alloc, "play")?, store),
        Plan::Make(turns) => Ok(format!(in alloc; "make {turns}")?),
        Plan::Tally(turns) => Ok(format!(in alloc; "tally {turns}")?),
        Plan::Serve {
            setup,
            listen,
            workers,
            lock,
            store,
        } => told_of_serving(alloc, &setup, &listen, workers, lock, store),
        Plan::Notices {
            moment,
            store,
            outbox,
        } => {
            let at = moment.seconds();
            let store = store.as_str();
            Ok(format!(in alloc; "notices at {at} over {store} into {}", outbox.as_str())?)
        }
        Plan::Register {
            tenant,
            user,
            moment,
            store,
        } => {
            let user = user.id();
            let at = moment.seconds();
            let asked = format!(in alloc; "register of {} by {user} at {at}", tenant.id())?;
            told_over(alloc, asked, &store)
        }
        Plan::Forecast { tenant, day, store } => {
            let day = day.days();
            let asked = format!(in alloc; "forecast of {} by {day}", tenant.id())?;
            told_over(alloc, asked, &store)
        }
    }
}

// What the words ask, in short.
fn told(alloc: Global, words: &[&str]) -> Result<String, Fail> {
    let mut texts = Vec::new(alloc);
    for word in words {
        texts.push(Text::from_str(alloc, word)?)?;
    }
    match plan(alloc, &texts) {
        Ok(plan) => told_of_plan(alloc, plan),
        Err(PlanFault::Usage) => Ok(String::from_str(alloc, "usage")?),
        Err(PlanFault::Memory) => Err("no memory".into()),
    }
}

// What the words of a line ask, in short.
fn told_of_line(alloc: Global, line: &str) -> Result<String, Fail> {
    let mut words = Vec::new(alloc);
    for word in line.split(' ') {
        words.push(word)?;
    }
    told(alloc, &words)
}

#[test]
fn each_form_is_read_and_all_else_is_none(rt: HostRuntime) -> Result<(), Fail> {
    let alloc = rt.alloc();
    for (words, wanted) in FORMS {
        assert!(rt; told(alloc, words)?.as_str() == *wanted, "{wanted}");
    }
    for (at, words) in NO_FORMS.iter().enumerate() {
        assert!(rt; told(alloc, words)?.as_str() == "usage", "{at}");
    }
    Ok(())
}

#[test]
fn each_form_of_serve_is_read_and_all_else_is_none(rt: HostRuntime) -> Result<(), Fail> {
    let alloc = rt.alloc();
    for (line, wanted) in SERVE_FORMS {
        assert!(rt; told_of_line(alloc, line)?.as_str() == *wanted, "{line}");
    }
    for line in SERVE_NO_FORMS {
        assert!(rt; told_of_line(alloc, line)?.as_str() == "usage", "{line}");
    }
    Ok(())
}

#[test]
fn each_form_over_kept_rows_is_read_and_all_else_is_none(rt: HostRuntime) -> Result<(), Fail> {
    let alloc = rt.alloc();
    for (line, wanted) in KEPT_FORMS {
        assert!(rt; told_of_line(alloc, line)?.as_str() == *wanted, "{line}");
    }
    for line in KEPT_NO_FORMS {
        assert!(rt; told_of_line(alloc, line)?.as_str() == "usage", "{line}");
    }
    Ok(())
}

#[test]
fn each_form_over_etcd_is_read_and_all_else_is_none(rt: HostRuntime) -> Result<(), Fail> {
    let alloc = rt.alloc();
    for (line, wanted) in ETCD_FORMS {
        assert!(rt; told_of_line(alloc, line)?.as_str() == *wanted, "{line}");
    }
    for line in ETCD_NO_FORMS {
        assert!(rt; told_of_line(alloc, line)?.as_str() == "usage", "{line}");
    }
    Ok(())
}
