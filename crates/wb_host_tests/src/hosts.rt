//! A host whose keeper fails: what is told, what is kept and what stands then.
use crate::texts::sample_setup;
use crate::turns::{DONE, Host, Turn};
use std::test::Fail;

const PUBLIC: &str = r#"{"context":1,"answers":{"what":"x"}}"#;

const SAFETY: &str = r#"{"context":2,"answers":{"what":"x"}}"#;

/// A turn, its k, and what then stands: kept rows, live reports, sessions.
type Step = (u64, Turn<'static>, (usize, u64, u64));

// The k of the first step whose reply, or after which what stands, is not the wanted one, or after which the host tells other rows
// than are kept.
fn first_unlike(host: &mut Host, steps: &[Step]) -> Result<Option<u64>, Fail> {
    for (k, turn, holds) in steps {
        if !host.answers(*k, turn)? || host.holds() != *holds || !host.tells_its_rows()? {
            return Ok(Some(*k));
        }
    }
    Ok(None)
}

// The keeper's fifth call fails as a comment comes on the day on which the first report goes. What is lost can be done again:
// then that report's entry goes, and the comment is kept.
const LOST: &[Step] = &[
    (
        1,
        (
            0,
            "POST /t/1/reports",
            0,
            SAFETY,
            201,
            r#"{"number":1,"receipt":"0000000000000001"}"#,
        ),
        (11, 1, 0),
    ),
    (
        2,
        (
            863_000,
            "POST /t/1/reports",
            0,
            PUBLIC,
            201,
            r#"{"number":2,"receipt":"0000000000000002"}"#,
        ),
        (12, 2, 0),
    ),
    (
        3,
        (
            863_100,
            "POST /t/1/sessions",
            0,
            r#"{"receipt":"0000000000000002"}"#,
            201,
            r#"{"role":"reporter","session":"3-00000000000000000000000000000003"}"#,
        ),
        (12, 2, 1),
    ),
    (
        4,
        (
            864_000,
            "POST /t/1/report/comments",
            3,
            r#"{"text":"More"}"#,
            503,
            r#"{"code":"keeper"}"#,
        ),
        (12, 2, 1),
    ),
    (
        5,
        (
            864_001,
            "POST /t/1/report/comments",
            3,
            r#"{"text":"More"}"#,
            201,
            DONE,
        ),
        (12, 1, 1),
    ),
];

#[test]
fn a_turn_that_its_keeper_lost_can_be_made_again(rt: HostRuntime) -> Result<(), Fail> {
    let alloc = rt.alloc();
    let mut host = Host::open(alloc, &sample_setup(alloc)?, &[5])?;
    assert_eq!(rt; first_unlike(&mut host, LOST)?, None);
    Ok(())
}
