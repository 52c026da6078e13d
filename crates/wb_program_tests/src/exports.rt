//! Registers and forecasts of kept rows.
ghost use Rattle.std.specs.Prelude.{◌≡◌, true, IfOk};
ghost use Rattle.std.specs.List.{list_all};
ghost use Rattle.wb_model.specs.SetUps.{is_tenant_item};

use std::alloc::Global;
use std::test::Fail;
use wb_base::{Change, Keeper, Key, MemKeeper, Moment, Row, Tenant, Text, UserId};
use wb_export::{forecast, register};
use wb_rows::{Tables, read};
use wb_terms::read_date;

// A key: kind, tenant and two numbers.
type Place = (u8, u32, u32, u32);

// What a host leaves after two submissions, one with an identity answer. The second report has a label that asks for quotes, was acknowledged,
// is closed, and expires before the first.
const KEPT: &[(Place, &str)] = &[
    (
        (1, 1, 0, 0),
        r#"{"name":"Harbour City","notice_days":7,"offset":0,"quota":50,"salt":"000102030405060708090a0b0c0d0e0f"}"#,
    ),
    ((2, 1, 0, 0), r#"{"at":1735689610,"drawn":2,"last":2}"#),
    (
        (3, 1, 1, 0),
        r#"{"disabled":0,"enabled":true,"may":[],"name":"ada","role":"recipient","secret":"9a8ae24c4ef2ab2a8429f7975ffef53d64c5e6342579f33bfee9ccf822051090"}"#,
    ),
    (
        (3, 1, 2, 0),
        r#"{"disabled":0,"enabled":true,"may":[],"name":"ben","role":"recipient","secret":"5565e8dda85bc37bc80c46766b7842bed74b82aa87e090ab139462ade5c9b629"}"#,
    ),
    (
        (4, 1, 1, 1),
        r#"{"steps":[{"fields":[{"id":"what","identity":false,"kind":"text","label":"What","max":4096,"required":true},{"id":"name","identity":true,"kind":"text","label":"Name","max":4096,"required":false}],"title":"Report"}]}"#,
    ),
    (
        (5, 1, 1, 0),
        r#"{"form":1,"name":"Fraud","open":true,"recipients":[1],"retention":30}"#,
    ),
    (
        (5, 1, 2, 0),
        r#"{"form":1,"name":"Safety","open":true,"recipients":[1],"retention":10}"#,
    ),
    (
        (6, 1, 1, 1),
        r#"{"ack_due":"2025-01-08","answers":{"what":"Bribe"},"at":1735689600,"by":0,"context":1,"deed":"submitted","expires":"2025-01-31","feedback_due":"2025-04-08","form":1,"mark":true,"readers":[1],"receipt":"f571008a6fbb1bc8a9ad9cae352482138ad3ca2b0513c0b08a4822b1c21c8d5c","received":"2025-01-01","version":1}"#,
    ),
    (
        (6, 1, 2, 1),
        r#"{"ack_due":"2025-01-08","answers":{"what":"Leak"},"at":1735689610,"by":0,"context":2,"deed":"submitted","expires":"2025-01-11","feedback_due":"2025-04-08","form":1,"mark":false,"readers":[1],"receipt":"9dea1742a21180a5c1fd983f6081fd917b8637e5d3bb1f6a19ea702444266453","received":"2025-01-01","version":1}"#,
    ),
    (
        (6, 1, 2, 2),
        r#"{"at":1735776001,"by":1,"deed":"label","text":"pier 3, \"old\""}"#,
    ),
    (
        (6, 1, 2, 3),
        r#"{"at":1735776002,"by":1,"day":"2025-01-02","deed":"acknowledged","feedback_due":"2025-04-02"}"#,
    ),
    (
        (6, 1, 2, 4),
        r#"{"at":1735776003,"by":1,"deed":"status","status":"closed"}"#,
    ),
    ((7, 1, 1, 0), r#"{"name":"Eve"}"#),
];

const HEADER: &str =
    "number,context,label,status,received,ack_due,acknowledged,feedback_due,expires,identity\n";

const FIRST: &str = "1,1,,new,2025-01-01,2025-01-08,,2025-04-08,2025-01-31,sealed\n";

const SECOND: &str =
    "2,2,\"pier 3, \"\"old\"\"\",closed,2025-01-01,2025-01-08,2025-01-02,2025-04-02,2025-01-11,none\n";

// The tables of the kept rows.
fn tables(alloc: Global) -> Result<Tables, Fail>
    ensures { IfOk result (λ tables. list_all is_tenant_item tables.registry.lists.tenants ≡ true) }
{
    let mut keeper = MemKeeper::new(Vec::new(alloc), Vec::new(alloc));
    for (place, text) in KEPT {
        let (kind, tenant, a, b) = *place;
        if kind > 7 || kind == 7 && b != 0 {
            return Err("a key".into());
        }
        let key = Key { kind, tenant, a, b };
        let text = Text::from_str(alloc, text)?;
        if keeper.apply(&[Change::Put(Row { key, text })]).is_err() {
            return Err("a keeper".into());
        }
    }
    let Ok(rows) = keeper.load() else {
        return Err("rows".into());
    };
    let Ok(tables) = read(alloc, rows) else {
        return Err("tables".into());
    };
    Ok(tables)
}

// The register of a user of tenant 1 at a moment.
fn registered(alloc: Global, user: u16, seconds: u64) -> Result<Vec<u8>, Fail> {
    let tables = tables(alloc)?;
    let tenant = Tenant::try_new(1).ok_or("a tenant")?;
    let user = UserId::try_new(user).ok_or("a user")?;
    let now = Moment::try_new(seconds).ok_or("a moment")?;
    if tables.registry.tenant(tenant).is_none() {
        return Err("no tenant".into());
    }
    Ok(register(alloc, &tables, tenant, user, now)?)
}

#[test]
fn a_register_has_a_line_for_each_live_report_of_its_reader(rt: HostRuntime) -> Result<(), Fail> {
    let alloc = rt.alloc();
    for (user, seconds, lines) in [
        (1, 1_735_689_700, [HEADER, FIRST, SECOND]),
        (1, 1_736_553_599, [HEADER, FIRST, SECOND]),
        (1, 1_736_553_600, [HEADER, FIRST, ""]),
        (1, 1_738_281_600, [HEADER, "", ""]),
        (2, 1_735_689_700, [HEADER, "", ""]),
    ] {
        let [first, second, third] = lines;
        let text = format!(in alloc; "{first}{second}{third}")?;
        assert_eq!(rt;
            registered(alloc, user, seconds)?.as_slice(),
            text.as_bytes()
        );
    }
    Ok(())
}

#[test]
fn a_forecast_has_what_expires_by_a_day(rt: HostRuntime) -> Result<(), Fail> {
    let alloc = rt.alloc();
    for (tenant, day, text) in [
        (1, "2025-01-10", "number,expires\n"),
        (1, "2025-01-11", "number,expires\n2,2025-01-11\n"),
        (1, "2025-01-30", "number,expires\n2,2025-01-11\n"),
        (
            1,
            "2025-01-31",
            "number,expires\n2,2025-01-11\n1,2025-01-31\n",
        ),
        (2, "2025-01-31", "number,expires\n"),
    ] {
        let tables = tables(alloc)?;
        let tenant = Tenant::try_new(tenant).ok_or("a tenant")?;
        let day = read_date(day.as_bytes()).ok_or("a day")?;
        assert_eq!(rt;
            forecast(alloc, &tables, tenant, day)?.as_slice(),
            text.as_bytes()
        );
    }
    Ok(())
}
