//! The text of a kept row of each kind, and of an entry of each deed, byte for byte.

use crate::turns::keeper;
use std::test::Fail;
use wb_base::{Change, Keeper, Key, MemKeeper, Row, Text};
use wb_rows::{read, write};

// A key: kind, tenant and two numbers.
type Place = (u8, u32, u32, u32);

// The format; what tenant 1, an external channel with holidays, is set up with, a report with every deed, and its identity answers; and
// tenant 2, twelve hours behind UTC, with a report of the first moment, which there is of the day before 1970.
const ROWS: &[(Place, &str)] = &[
    ((0, 0, 0, 0), r#"{"format":2}"#),
    (
        (1, 1, 0, 0),
        r#"{"external":true,"holidays":["2025-01-08","2025-04-08"],"name":"Harbour City","notice_days":7,"offset":0,"quota":50,"roll":true,"salt":"000102030405060708090a0b0c0d0e0f"}"#,
    ),
    (
        (1, 2, 0, 0),
        r#"{"name":"Far \"Rock\"","notice_days":0,"offset":-720,"quota":1,"salt":"0f0e0d0c0b0a09080706050403020100"}"#,
    ),
    ((2, 1, 0, 0), r#"{"at":1735689610,"drawn":1,"last":1}"#),
    ((2, 2, 0, 0), r#"{"at":0,"drawn":1,"last":1}"#),
    (
        (3, 1, 1, 0),
        r#"{"disabled":0,"enabled":true,"may":["delete","postpone","share","transfer"],"name":"ada","role":"recipient","secret":"000102030405060708090a0b0c0d0e0f101112131415161718191a1b1c1d1e1f"}"#,
    ),
    (
        (3, 1, 2, 0),
        r#"{"disabled":10000,"enabled":false,"may":[],"name":"ben","role":"recipient","secret":"ffffffffffffffffffffffffffffffffffffffffffffffffffffffffffffffff"}"#,
    ),
    (
        (3, 1, 3, 0),
        r#"{"disabled":0,"enabled":true,"may":["share"],"name":"cleo","role":"custodian","secret":"202122232425262728292a2b2c2d2e2f303132333435363738393a3b3c3d3e3f"}"#,
    ),
    (
        (3, 1, 256, 0),
        r#"{"disabled":0,"enabled":true,"may":[],"name":"dan","role":"admin","secret":"404142434445464748494a4b4c4d4e4f505152535455565758595a5b5c5d5e5f"}"#,
    ),
    (
        (3, 2, 1, 0),
        r#"{"disabled":0,"enabled":true,"may":[],"name":"ada","role":"recipient","secret":"000102030405060708090a0b0c0d0e0f101112131415161718191a1b1c1d1e1f"}"#,
    ),
    (
        (4, 1, 1, 1),
        r#"{"steps":[{"fields":[{"id":"what","identity":false,"kind":"text","label":"What","max":4096,"required":true},{"id":"cat","identity":false,"kind":"choice","label":"Category","options":[{"id":"a","label":"A"},{"id":"b","label":"B"}],"required":false},{"id":"sum","identity":false,"kind":"whole","label":"Sum","required":false,"show":{"least":1,"mode":"any","parts":[{"field":"cat","option":"a","points":1},{"field":"cat","option":"b","points":1}]}},{"id":"day","identity":false,"kind":"date","label":"Day","required":false,"show":{"least":2,"mode":"all","parts":[{"field":"cat","option":"a","points":1},{"field":"cat","option":"b","points":1}]}},{"id":"name","identity":true,"kind":"text","label":"Name","max":64,"required":false}],"title":"Report"}]}"#,
    ),
    (
        (4, 1, 2, 1),
        r#"{"steps":[{"fields":[{"id":"f","identity":false,"kind":"multi","label":"F","options":[{"id":"a","label":"A"},{"id":"b","label":"B"}],"required":false},{"id":"g","identity":false,"kind":"text","label":"G","max":7,"required":false,"show":{"least":16000,"mode":"score","parts":[{"field":"f","option":"a","points":1},{"field":"f","option":"b","points":1000}]}}],"title":"T"}]}"#,
    ),
    (
        (4, 2, 1, 1),
        r#"{"steps":[{"fields":[{"id":"what","identity":false,"kind":"text","label":"What","max":4096,"required":true}],"title":"Report"}]}"#,
    ),
    (
        (5, 1, 1, 0),
        r#"{"form":1,"name":"Fraud","open":true,"recipients":[1],"retention":30}"#,
    ),
    (
        (5, 1, 2, 0),
        r#"{"form":1,"name":"Safety","open":false,"recipients":[1,2],"retention":3650}"#,
    ),
    (
        (5, 2, 1, 0),
        r#"{"form":1,"name":"Fraud","open":true,"recipients":[1],"retention":1}"#,
    ),
    (
        (6, 1, 1, 1),
        r#"{"ack_due":"2025-01-09","answers":{"what":"Bribe"},"at":1735689610,"by":0,"context":1,"deed":"submitted","expires":"2025-01-31","feedback_due":"2025-04-09","form":1,"mark":true,"readers":[1],"receipt":"606162636465666768696a6b6c6d6e6f707172737475767778797a7b7c7d7e7f","received":"2025-01-01","version":1}"#,
    ),
    (
        (6, 1, 1, 2),
        r#"{"at":1735689610,"by":0,"deed":"identity"}"#,
    ),
    (
        (6, 1, 1, 3),
        r#"{"at":1735689611,"by":0,"deed":"comment","internal":false,"text":"When?\n"}"#,
    ),
    (
        (6, 1, 1, 4),
        r#"{"at":1735689612,"by":1,"deed":"comment","internal":true,"text":"Gr\u0001üß"}"#,
    ),
    (
        (6, 1, 1, 5),
        r#"{"at":1735689613,"by":1,"deed":"label","text":""}"#,
    ),
    (
        (6, 1, 1, 6),
        r#"{"at":1735689614,"by":1,"deed":"status","status":"opened"}"#,
    ),
    (
        (6, 1, 1, 7),
        r#"{"at":1735689615,"by":1,"day":"2025-01-01","deed":"acknowledged","feedback_due":"2025-04-01"}"#,
    ),
    (
        (6, 1, 1, 8),
        r#"{"at":1735689616,"by":1,"deed":"feedback","text":"Thanks"}"#,
    ),
    (
        (6, 1, 1, 9),
        r#"{"at":1735689617,"by":1,"deed":"shared","user":2}"#,
    ),
    (
        (6, 1, 1, 10),
        r#"{"at":1735689618,"by":1,"deed":"unshared","user":2}"#,
    ),
    (
        (6, 1, 1, 11),
        r#"{"at":1735689619,"by":1,"deed":"asked","reason":"Why","stamp":0}"#,
    ),
    (
        (6, 1, 1, 12),
        r#"{"at":1735689620,"by":3,"deed":"granted","effective":1735689620,"reason":"Yes","request":1,"withheld":"Danger"}"#,
    ),
    (
        (6, 1, 1, 13),
        r#"{"at":1735689621,"by":3,"deed":"revoked","reason":"No","request":1}"#,
    ),
    (
        (6, 1, 1, 14),
        r#"{"at":1735689622,"by":1,"deed":"asked","reason":"Why","stamp":10000}"#,
    ),
    (
        (6, 1, 1, 15),
        r#"{"at":1735689623,"by":3,"deed":"denied","reason":"No","request":2}"#,
    ),
    (
        (6, 1, 1, 16),
        r#"{"at":1735689624,"by":1,"deed":"asked","reason":"Why","stamp":10000}"#,
    ),
    (
        (6, 1, 1, 17),
        r#"{"at":1735689625,"by":3,"deed":"granted","effective":1736294425,"reason":"Yes","request":3,"withheld":null}"#,
    ),
    (
        (6, 1, 1, 18),
        r#"{"at":1735689626,"by":1,"deed":"postponed","expires":"2025-02-15"}"#,
    ),
    (
        (6, 1, 1, 19),
        r#"{"at":1735689627,"by":1,"context":2,"deed":"transferred","readers":[1,2]}"#,
    ),
    (
        (6, 1, 1, 20),
        r#"{"at":1735689628,"by":1,"deed":"extended","feedback_due":"2025-07-01","reason":"Abroad"}"#,
    ),
    (
        (6, 1, 1, 21),
        r#"{"at":1735689629,"by":1,"deed":"status","status":"closed"}"#,
    ),
    (
        (6, 2, 1, 1),
        r#"{"ack_due":"1970-01-07","answers":{"what":"x"},"at":0,"by":0,"context":1,"deed":"submitted","expires":"1970-01-01","feedback_due":"1970-04-07","form":1,"mark":false,"readers":[1],"receipt":"808182838485868788898a8b8c8d8e8f909192939495969798999a9b9c9d9e9f","received":"1969-12-31","version":1}"#,
    ),
    ((7, 1, 1, 0), r#"{"name":"Eve"}"#),
];

/// Keeps a row.
pub fn keep(keeper: &mut MemKeeper, row: Row) -> Result<(), Fail> {
    if row.key.kind > 7 || row.key.kind == 7 && row.key.b != 0 {
        return Err("a key".into());
    }
    match keeper.apply(&[Change::Put(row)]) {
        Ok(()) => Ok(()),
        Err(_) => Err("a keeper".into()),
    }
}

#[test]
fn rows_of_each_kind_and_deed_are_read_and_written_again(rt: HostRuntime) -> Result<(), Fail> {
    let alloc = rt.alloc();
    let mut keeper = keeper(alloc, &[])?;
    for (place, text) in ROWS {
        let (kind, tenant, a, b) = *place;
        let row = Row {
            key: Key { kind, tenant, a, b },
            text: Text::from_str(alloc, text)?,
        };
        keep(&mut keeper, row)?;
    }
    let Ok(loaded) = keeper.load() else {
        return Err("rows".into());
    };
    let Ok(tables) = read(alloc, loaded) else {
        return Err("tables".into());
    };
    assert!(rt; keeper.rows().len() == ROWS.len());
    assert!(rt; write(alloc, &tables)?.as_slice() == keeper.rows());
    Ok(())
}
