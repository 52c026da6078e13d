//! What a report takes and refuses, and what its trail rebuilds.
ghost use Rattle.std.specs.Prelude.{◌≡◌};
ghost use Rattle.wb_base.specs.Days.{IsEarlyDay};
ghost use Rattle.wb_model.specs.declared.act.Act.TheVariants.{Postpone};
ghost use Rattle.wb_case.specs.Plans.{IsInRange};

use std::alloc::Global;
use std::process::Abort;
use std::test::Fail;
use wb_base::{Answers, Calendar, Day, Digest, Moment, Number, Tenant, Text, UserId};
use wb_case::Case;
use wb_list::Items;
use wb_model::{Act, Actor, CaseFault, Deed, Entry, Status, Trail, Was};
use wb_terms::{ack_due, expiry, feedback_due, read_date};

// A day to which terms may be added, by its text.
fn early(rt: &impl Abort, text: &str) -> Day
    ensures { IsEarlyDay result }
{
    let day = read_date(text.as_bytes()).expect(rt, "a date");
    let days = day.days();
    assert!(rt; days <= 1_190_000, "{text} is early");
    day
}

fn user(rt: &impl Abort, id: u16) -> UserId {
    UserId::try_new(id).expect(rt, "a user")
}

fn users(rt: &impl Abort, alloc: Global, ids: &[u16]) -> Result<Items<UserId>, Fail> {
    let mut users = Items::new(alloc);
    for id in ids {
        users.push(user(rt, *id))?;
    }
    Ok(users)
}

// The submission of a report of context 1 on a day, kept for 90 days.
fn submission(rt: &impl Abort, alloc: Global, text: &str, ids: &[u16]) -> Result<Entry, Fail> {
    let received = early(rt, text);
    let plain = Calendar::plain(alloc);
    Ok(Entry {
        at: Moment::try_new(0).expect(rt, "a moment"),
        by: Actor::Reporter,
        deed: Deed::Submitted {
            ack_due: ack_due(received, &plain),
            answers: Answers::new(alloc),
            context: 1,
            expires: expiry(received, 90),
            feedback_due: feedback_due(received, None, false, &plain),
            form: 1,
            mark: false,
            readers: users(rt, alloc, ids)?,
            receipt: Digest([0; 32]),
            received,
            version: 1,
        },
    })
}

fn report(rt: &impl Abort, alloc: Global, text: &str, ids: &[u16]) -> Result<Case, Fail> {
    match Case::start(alloc, submission(rt, alloc, text, ids)?) {
        Ok(case) => Ok(case),
        Err(_) => Err(Fail::from("memory")),
    }
}

// User 1 does this on the report, and it is refused with this or done.
fn does(rt: &impl Abort, alloc: Global, case: &mut Case, act: Act, told: Option<CaseFault>)
    requires { IsInRange case.old.items act }
{
    let at = Moment::try_new(0).expect(rt, "a moment");
    match case.plan(at, Actor::User(user(rt, 1)), act, &Calendar::plain(alloc)) {
        Ok(entry) => {
            case.take(entry);
            assert!(rt; told.is_none());
        }
        Err(fault) => assert_eq!(rt; Some(fault), told),
    }
}

// More days for the report, from today.
fn postponement(today: Day, retention: u16) -> Act
    ensures { result ≡ Postpone today retention }
{
    Act::Postpone { today, retention }
}

// User 1 does this on the report.
fn done(rt: &impl Abort, alloc: Global, case: &mut Case, act: Act)
    requires { IsInRange case.old.items act }
{
    does(rt, alloc, case, act, None)
}

// User 1 does this on the report, and it is refused with this.
fn refused(rt: &impl Abort, alloc: Global, case: &mut Case, act: Act, told: CaseFault)
    requires { IsInRange case.old.items act }
{
    does(rt, alloc, case, act, Some(told))
}

#[test]
fn feedback_is_due_three_months_after_the_acknowledgement(rt: HostRuntime) -> Result<(), Fail> {
    let rows = [
        ("2025-11-23", "2025-11-30", "2026-02-28"),
        ("2023-11-23", "2023-11-30", "2024-02-29"),
        ("2025-01-24", "2025-01-31", "2025-04-30"),
        ("2025-05-24", "2025-05-31", "2025-08-31"),
        ("2024-12-31", "2025-01-01", "2025-04-01"),
    ];
    let alloc = rt.alloc();
    for (received, day, due) in rows {
        let mut case = report(&rt, alloc, received, &[1])?;
        let today = early(&rt, day);
        done(&rt, alloc, &mut case, Act::Acknowledge { today });
        assert_eq!(rt; case.summary().acknowledged, Some(today));
        assert_eq!(rt; case.summary().feedback_due, early(&rt, due));
        refused(
            &rt,
            alloc,
            &mut case,
            Act::Acknowledge { today },
            CaseFault::Already(Was::Day(today)),
        );
    }
    Ok(())
}

#[test]
fn a_closed_report_refuses_what_goes_on_with_it(rt: HostRuntime) -> Result<(), Fail> {
    let alloc = rt.alloc();
    let mut case = report(&rt, alloc, "2025-01-01", &[1])?;
    let today = early(&rt, "2025-01-02");
    let text = Text::from_str(alloc, "text")?;
    let tenant = Tenant::try_new(1).expect(&rt, "a tenant");
    let number = Number::try_new(1).expect(&rt, "a number");
    assert!(rt; case.terms(tenant, number).ack.is_some());
    done(&rt, alloc, &mut case, Act::SetStatus(Status::Closed));
    assert!(rt; case.terms(tenant, number).ack.is_none());
    assert!(rt; case.terms(tenant, number).feedback.is_none());
    refused(
        &rt,
        alloc,
        &mut case,
        Act::SetStatus(Status::Closed),
        CaseFault::Already(Was::Status(Status::Closed)),
    );
    refused(
        &rt,
        alloc,
        &mut case,
        Act::Comment {
            internal: true,
            text,
        },
        CaseFault::Closed,
    );
    refused(
        &rt,
        alloc,
        &mut case,
        Act::Acknowledge { today },
        CaseFault::Closed,
    );
    refused(
        &rt,
        alloc,
        &mut case,
        Act::Feedback(Text::empty(alloc)),
        CaseFault::Closed,
    );
    refused(&rt, alloc, &mut case, Act::Identity, CaseFault::Closed);
    let away = Act::Transfer {
        context: 1,
        is_open: false,
        readers: Items::new(alloc),
    };
    refused(&rt, alloc, &mut case, away, CaseFault::Closed);
    done(
        &rt,
        alloc,
        &mut case,
        Act::Label(Text::from_str(alloc, "done")?),
    );
    done(&rt, alloc, &mut case, Act::Share(user(&rt, 2)));
    done(&rt, alloc, &mut case, Act::Unshare(user(&rt, 1)));
    done(&rt, alloc, &mut case, postponement(today, 1));
    done(&rt, alloc, &mut case, Act::SetStatus(Status::Opened));
    assert_eq!(rt; case.label(), "done");
    assert_eq!(rt; case.trail().len(), 7);
    Ok(())
}

#[test]
fn a_full_trail_takes_the_removal_of_a_reader_alone(rt: HostRuntime) -> Result<(), Fail> {
    let alloc = rt.alloc();
    let mut case = report(&rt, alloc, "2025-01-01", &[1, 2])?;
    for _ in 1..4_096 {
        done(&rt, alloc, &mut case, Act::Label(Text::empty(alloc)));
    }
    refused(
        &rt,
        alloc,
        &mut case,
        Act::Label(Text::empty(alloc)),
        CaseFault::TrailFull,
    );
    refused(
        &rt,
        alloc,
        &mut case,
        Act::Share(user(&rt, 3)),
        CaseFault::TrailFull,
    );
    refused(
        &rt,
        alloc,
        &mut case,
        Act::Share(user(&rt, 2)),
        CaseFault::Already(Was::User(user(&rt, 2))),
    );
    done(&rt, alloc, &mut case, Act::Unshare(user(&rt, 2)));
    assert_eq!(rt; case.trail().len(), 4_097);
    refused(
        &rt,
        alloc,
        &mut case,
        Act::Unshare(user(&rt, 2)),
        CaseFault::NotReader,
    );
    refused(
        &rt,
        alloc,
        &mut case,
        Act::Unshare(user(&rt, 1)),
        CaseFault::LastReader,
    );
    Ok(())
}

#[test]
fn a_report_is_postponed_ten_times_and_never_shortened(rt: HostRuntime) -> Result<(), Fail> {
    let alloc = rt.alloc();
    let mut case = report(&rt, alloc, "2025-01-01", &[1])?;
    let today = early(&rt, "2025-01-02");
    done(&rt, alloc, &mut case, postponement(today, 1));
    assert_eq!(rt; case.summary().expires, early(&rt, "2025-04-01"));
    for _ in 0..9 {
        done(&rt, alloc, &mut case, postponement(today, 90));
    }
    assert_eq!(rt; case.summary().expires, early(&rt, "2025-04-02"));
    refused(
        &rt,
        alloc,
        &mut case,
        postponement(today, 3_650),
        CaseFault::PostponeSpent,
    );
    Ok(())
}

#[test]
fn a_transfer_goes_to_an_open_context_and_changes_the_readers(rt: HostRuntime) -> Result<(), Fail> {
    let alloc = rt.alloc();
    let rows = [
        (1, true, Some(CaseFault::SameContext)),
        (1, false, Some(CaseFault::SameContext)),
        (2, false, Some(CaseFault::ContextClosed)),
        (2, true, None),
    ];
    for (context, is_open, told) in rows {
        let there = if told.is_none() {
            [4, 6].as_slice()
        } else {
            [1, 2, 9].as_slice()
        };
        let mut case = report(&rt, alloc, "2025-01-01", &[1, 2, 9])?;
        let readers = users(&rt, alloc, &[4, 6])?;
        assert!(rt; readers.len() <= 32);
        let act = Act::Transfer {
            context,
            is_open,
            readers,
        };
        does(&rt, alloc, &mut case, act, told);
        assert!(rt;
            case.summary()
                .readers
                .as_slice()
                .iter()
                .map(|reader| reader.id())
                .eq(there.iter().copied())
        );
    }
    Ok(())
}

#[test]
fn a_report_is_rebuilt_from_its_trail(rt: HostRuntime) -> Result<(), Fail> {
    let alloc = rt.alloc();
    let mut trail = Trail::new(alloc);
    trail.reserve()?;
    trail.push(submission(&rt, alloc, "2025-01-01", &[1, 3])?);
    let at = Moment::try_new(5).expect(&rt, "a moment");
    let by = Actor::User(user(&rt, 1));
    for step in 0..3 {
        trail.reserve()?;
        let deed = match step {
            0 => Deed::Shared { user: user(&rt, 2) },
            1 => Deed::Label {
                text: Text::from_str(alloc, "urgent")?,
            },
            _ => Deed::Comment {
                internal: true,
                text: Text::empty(alloc),
            },
        };
        trail.push(Entry { at, by, deed });
    }
    match Case::rebuild(alloc, trail) {
        Ok(case) => {
            assert_eq!(rt; case.label(), "urgent");
            assert_eq!(rt; case.summary().dialogue.as_slice(), [3].as_slice());
            assert_eq!(rt; case.summary().readers.len(), 3);
        }
        Err(_) => return Err(Fail::from("memory")),
    }
    Ok(())
}
