//! A host that is opened over kept rows of format 1.

use crate::row_texts::keep;
use crate::texts::sample_setup;
use crate::turns::keeper;
use std::alloc::Global;
use std::test::Fail;
use wb_base::{Keeper, Key, MemKeeper, Row, Text};
use wb_desk::{Desk, OpenFault};
use wb_list::TryClone;
use wb_tenants::Setup;

// Why a host over the setup does not open, where it does not.
fn opening_fault(alloc: Global, keeper: &mut MemKeeper) -> Result<Option<OpenFault>, Fail> {
    let text = sample_setup(alloc)?;
    let Ok(setup) = Setup::read(alloc, text.as_bytes()) else {
        return Err("a setup".into());
    };
    match Desk::open(alloc, keeper, &setup) {
        Ok(_) => Ok(None),
        Err(fault) => Ok(Some(fault)),
    }
}

// Whether a host opens.
fn opens(alloc: Global, keeper: &mut MemKeeper) -> Result<bool, Fail> {
    Ok(opening_fault(alloc, keeper)?.is_none())
}

// The setup's form as a row of format 1 has it.
const FORM: &str =
    r#"{"steps":[{"fields":[{"id":"what","identity":false,"kind":"text","label":"What happened","max":4096,"required":true},{"id":"cat","identity":false,"kind":"choice","label":"Category","options":[{"id":"fraud","label":"Fraud"},{"id":"other","label":"Other"}],"required":false},{"id":"amount","identity":false,"kind":"whole","label":"Amount","required":false,"show":{"all":[{"field":"cat","option":"fraud"}]}},{"id":"doc","identity":false,"kind":"file","label":"Document","required":false}],"title":"Report"},{"fields":[{"id":"name","identity":true,"kind":"text","label":"Name","max":4096,"required":true},{"id":"phone","identity":true,"kind":"text","label":"Phone","max":4096,"required":false}],"title":"Identity"}]}"#;

// The text of a row in format 1.
fn older_text(alloc: Global, row: &Row) -> Result<Text, Fail> {
    if row.key.kind == Key::FORM {
        Ok(Text::from_str(alloc, FORM)?)
    } else {
        Ok(row.text.try_clone()?)
    }
}

// The rows of another keeper in format 1, which has no row of the format, kept one by one. This keeper fails at these calls.
fn kept_in_format_1(alloc: Global, other: &MemKeeper, fail: &[u64]) -> Result<MemKeeper, Fail> {
    let mut older = keeper(alloc, fail)?;
    for row in other.rows() {
        if row.key.kind != Key::FORMAT {
            let (key, text) = (row.key, older_text(alloc, row)?);
            keep(&mut older, Row { key, text })?;
        }
    }
    Ok(older)
}

// A host's rows in format 1 are nine. A keeper that holds them was called once for each; then it fails as the host that loads them keeps them in
// format 2, and at what would be a second call of the host after the next.
#[test]
fn a_conversion_that_its_keeper_refuses_can_be_made_again(rt: HostRuntime) -> Result<(), Fail> {
    let alloc = rt.alloc();
    let mut newer = keeper(alloc, &[])?;
    assert!(rt; opens(alloc, &mut newer)?);
    assert_eq!(rt; newer.rows().len(), 10);
    let mut older = kept_in_format_1(alloc, &newer, &[11, 15])?;
    assert!(rt; opening_fault(alloc, &mut older)? == Some(OpenFault::Keeper));
    assert_eq!(rt; older.rows().len(), 9);
    assert!(rt; opens(alloc, &mut older)?);
    assert!(rt; older.rows() == newer.rows());
    assert!(rt; opens(alloc, &mut older)?);
    assert!(rt; older.rows() == newer.rows() && older.faults() == 1);
    Ok(())
}
