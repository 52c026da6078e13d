//! Identity answers under their report, and the requests for them.
use std::alloc::Global;
use std::process::Abort;
use std::test::Fail;
use wb_base::{Answers, Given, Moment, Number, Tenant, Text, UserId};
use wb_custody::{AccessDesk, SealedTable};
use wb_list::Items;
use wb_model::{Actor, CustodyFault, Deed, Entry, Move, State, Trail};

#[test]
fn identity_answers_stand_under_their_report(rt: HostRuntime) -> Result<(), Fail> {
    let alloc = rt.alloc();
    let mut table = SealedTable::new(alloc);
    let one = Tenant::try_new(1).ok_or("a tenant")?;
    let two = Tenant::try_new(2).ok_or("a tenant")?;
    let first = Number::try_new(1).ok_or("a number")?;
    let last = Number::try_new(9).ok_or("a number")?;
    for (tenant, number, whole) in [
        (two, first, 5),
        (one, last, 6),
        (one, first, 7),
        (one, last, 8),
    ] {
        let mut answers = Answers::new(alloc);
        let id = Text::from_str(alloc, "age")?;
        if answers.find(&id).is_none() {
            answers.insert(id, Given::Whole(whole))?;
        }
        table.reserve()?;
        table.put(tenant, number, answers);
    }
    let id = Text::from_str(alloc, "age")?;
    for (tenant, number, whole) in [(one, first, 7), (one, last, 8), (two, first, 5)] {
        let answers = table.get(tenant, number).ok_or("answers")?;
        assert!(rt; matches!(answers.find(&id), Some(Given::Whole(found)) if *found == whole));
    }
    assert!(rt; table.get(two, last).is_none());
    table.remove(one, last);
    assert!(rt; table.get(one, last).is_none());
    assert!(rt; table.get(one, first).is_some());
    Ok(())
}

// A move, with the request's number before the stamp; a grant has the days of notice last.
#[derive(Clone, Copy)]
enum Step {
    Ask(u32),
    Grant(u32, u32, u8),
    GrantUntold(u32, u32, u8),
    Deny(u32, u32),
    Revoke(u32, u32),
}

// At a moment a user makes the move, and it is refused with this or taken.
type Row = (u64, u16, Step, Option<CustodyFault>);

fn user(rt: &impl Abort, id: u16) -> UserId {
    UserId::try_new(id).expect(rt, "a user")
}

fn moment(rt: &impl Abort, seconds: u64) -> Moment {
    Moment::try_new(seconds).expect(rt, "a moment")
}

fn move_of(alloc: Global, step: Step) -> Result<Move, Fail> {
    let reason = Text::from_str(alloc, "Needed")?;
    Ok(match step {
        Step::Ask(stamp) => Move::Ask { reason, stamp },
        Step::Grant(request, stamp, notice_days) => Move::Grant {
            request,
            stamp,
            notice_days,
            reason,
            withheld: None,
        },
        Step::GrantUntold(request, stamp, notice_days) => Move::Grant {
            request,
            stamp,
            notice_days,
            reason,
            withheld: Some(Text::from_str(alloc, "Ongoing search")?),
        },
        Step::Deny(request, stamp) => Move::Deny {
            request,
            stamp,
            reason,
        },
        Step::Revoke(request, stamp) => Move::Revoke {
            request,
            stamp,
            reason,
        },
    })
}

// The move of a user, on a trail of so many entries that has an identity or not.
fn moves(
    rt: &impl Abort,
    desk: &mut AccessDesk,
    trail: (usize, bool),
    row: (Moment, UserId),
    move_: Move,
    told: Option<CustodyFault>,
) {
    assert!(rt; desk.len() <= 100);
    match desk.plan(trail.0, trail.1, row.0, Actor::User(row.1), move_) {
        Ok(entry) => {
            desk.take(&entry);
            assert!(rt; told.is_none());
        }
        Err(fault) => assert_eq!(rt; Some(fault), told),
    }
}

fn play(rt: &impl Abort, alloc: Global, desk: &mut AccessDesk, rows: &[Row]) -> Result<(), Fail> {
    for (at, by, step, told) in rows {
        let row = (moment(rt, *at), user(rt, *by));
        moves(rt, desk, (5, true), row, move_of(alloc, *step)?, *told);
    }
    Ok(())
}

// Whether a user with a stamp reads the identity at a moment.
fn reads(rt: &impl Abort, desk: &AccessDesk, rows: &[(u16, u32, u64, bool)]) {
    for (id, stamp, now, told) in rows {
        assert_eq!(rt;
            desk.in_force(user(rt, *id), *stamp, moment(rt, *now)),
            *told
        );
    }
}

// The states of the first requests, each at this stamp.
fn stand(rt: &impl Abort, desk: &AccessDesk, stamp: u32, states: &[State]) {
    assert_eq!(rt; desk.len(), states.len());
    for (at, state) in states.iter().enumerate() {
        assert!(rt; at < desk.len());
        assert_eq!(rt; desk.state(at + 1, stamp), *state);
    }
}

fn transfer(rt: &impl Abort, alloc: Global, desk: &mut AccessDesk) {
    let entry = Entry {
        at: moment(rt, 200),
        by: Actor::User(user(rt, 1)),
        deed: Deed::Transferred {
            context: 2,
            readers: Items::new(alloc),
        },
    };
    desk.take(&entry);
}

fn remove(rt: &impl Abort, desk: &mut AccessDesk, id: u16) {
    let entry = Entry {
        at: moment(rt, 200),
        by: Actor::User(user(rt, 1)),
        deed: Deed::Unshared { user: user(rt, id) },
    };
    desk.take(&entry);
}

#[test]
fn a_grant_is_in_force_from_its_effective_moment_on(rt: HostRuntime) -> Result<(), Fail> {
    let alloc = rt.alloc();
    let rows = [(0, 100), (1, 86_500), (7, 604_900), (30, 2_592_100)];
    for (days, effective) in rows {
        let mut desk = AccessDesk::new(alloc);
        let rows = [
            (50, 1, Step::Ask(0), None),
            (60, 1, Step::Ask(0), Some(CustodyFault::Pending(1))),
            (100, 3, Step::Grant(1, 0, days), None),
        ];
        play(&rt, alloc, &mut desk, rows.as_slice())?;
        let last = [
            (1, 0, effective - 1, false),
            (1, 0, effective, true),
            (2, 0, effective, false),
        ];
        reads(&rt, &desk, last.as_slice());
        stand(&rt, &desk, 0, [State::Granted].as_slice());
    }
    Ok(())
}

#[test]
fn a_withheld_grant_is_in_force_at_once_until_a_transfer(rt: HostRuntime) -> Result<(), Fail> {
    let alloc = rt.alloc();
    let mut desk = AccessDesk::new(alloc);
    let rows = [
        (50, 1, Step::Ask(0), None),
        (70, 2, Step::Ask(0), None),
        (100, 3, Step::GrantUntold(1, 0, 7), None),
        (
            100,
            3,
            Step::Grant(1, 0, 7),
            Some(CustodyFault::Decided(State::Granted)),
        ),
    ];
    play(&rt, alloc, &mut desk, rows.as_slice())?;
    reads(
        &rt,
        &desk,
        [(1, 0, 99, false), (1, 0, 100, true)].as_slice(),
    );
    transfer(&rt, alloc, &mut desk);
    reads(&rt, &desk, [(1, 0, 210, false)].as_slice());
    stand(&rt, &desk, 0, [State::Ended, State::Ended].as_slice());
    Ok(())
}

#[test]
fn what_is_revoked_or_denied_is_asked_again(rt: HostRuntime) -> Result<(), Fail> {
    let alloc = rt.alloc();
    let mut desk = AccessDesk::new(alloc);
    let rows = [
        (50, 1, Step::Ask(0), None),
        (
            55,
            3,
            Step::Revoke(1, 0),
            Some(CustodyFault::NotGranted(State::Waiting)),
        ),
        (100, 3, Step::GrantUntold(1, 0, 7), None),
        (110, 3, Step::Revoke(1, 0), None),
        (120, 1, Step::Ask(0), None),
        (
            130,
            3,
            Step::Revoke(1, 0),
            Some(CustodyFault::NotGranted(State::Revoked)),
        ),
        (140, 3, Step::Deny(2, 0), None),
        (
            150,
            3,
            Step::Deny(2, 0),
            Some(CustodyFault::Decided(State::Denied)),
        ),
        (160, 1, Step::Ask(0), None),
        (170, 3, Step::Deny(4, 0), Some(CustodyFault::NoSuchRequest)),
        (170, 3, Step::Deny(0, 0), Some(CustodyFault::NoSuchRequest)),
    ];
    play(&rt, alloc, &mut desk, rows.as_slice())?;
    reads(&rt, &desk, [(1, 0, 200, false)].as_slice());
    stand(
        &rt,
        &desk,
        0,
        [State::Revoked, State::Denied, State::Waiting].as_slice(),
    );
    Ok(())
}

#[test]
fn a_disabling_and_a_removal_end_the_requests_of_their_user(rt: HostRuntime) -> Result<(), Fail> {
    let alloc = rt.alloc();
    let mut desk = AccessDesk::new(alloc);
    let rows = [
        (50, 1, Step::Ask(0), None),
        (50, 2, Step::Ask(0), None),
        (100, 3, Step::Grant(1, 0, 0), None),
        (100, 3, Step::Grant(2, 0, 0), None),
    ];
    play(&rt, alloc, &mut desk, rows.as_slice())?;
    // Disabled, user 1 has another stamp, which stays when it is enabled again.
    reads(
        &rt,
        &desk,
        [(1, 0, 100, true), (1, 1, 100, false), (2, 0, 100, true)].as_slice(),
    );
    stand(&rt, &desk, 1, [State::Ended, State::Ended].as_slice());
    let rows = [
        (
            150,
            3,
            Step::Revoke(1, 1),
            Some(CustodyFault::NotGranted(State::Ended)),
        ),
        (150, 1, Step::Ask(1), None),
    ];
    play(&rt, alloc, &mut desk, rows.as_slice())?;
    remove(&rt, &mut desk, 2);
    reads(
        &rt,
        &desk,
        [(1, 0, 210, true), (2, 0, 210, false)].as_slice(),
    );
    Ok(())
}

#[test]
fn an_ask_needs_an_identity_and_room(rt: HostRuntime) -> Result<(), Fail> {
    let alloc = rt.alloc();
    let mut desk = AccessDesk::new(alloc);
    let row = (moment(&rt, 50), user(&rt, 1));
    let rows = [
        (1, false, Step::Ask(0), Some(CustodyFault::NoIdentity)),
        (4_096, true, Step::Ask(0), Some(CustodyFault::TrailFull)),
        (4_095, true, Step::Ask(0), None),
        (
            4_096,
            true,
            Step::Grant(1, 0, 7),
            Some(CustodyFault::TrailFull),
        ),
        (4_096, true, Step::Deny(1, 0), None),
    ];
    for (entries, mark, step, told) in rows {
        moves(
            &rt,
            &mut desk,
            (entries, mark),
            row,
            move_of(alloc, step)?,
            told,
        );
    }
    for at in 2..101 {
        let rows = [
            (50, 1, Step::Ask(0), None),
            (50, 3, Step::Deny(at, 0), None),
        ];
        play(&rt, alloc, &mut desk, rows.as_slice())?;
    }
    assert_eq!(rt; desk.len(), 100);
    let last = [(50, 1, Step::Ask(0), Some(CustodyFault::DeskFull))];
    play(&rt, alloc, &mut desk, last.as_slice())
}

#[test]
fn requests_are_rebuilt_from_a_trail(rt: HostRuntime) -> Result<(), Fail> {
    let alloc = rt.alloc();
    let mut trail = Trail::new(alloc);
    trail.reserve()?;
    trail.push(Entry {
        at: moment(&rt, 50),
        by: Actor::User(user(&rt, 1)),
        deed: Deed::Asked {
            reason: Text::from_str(alloc, "Interview")?,
            stamp: 0,
        },
    });
    match AccessDesk::rebuild(alloc, &trail) {
        Ok(desk) => {
            assert_eq!(rt; desk.len(), 1);
            assert!(rt; desk.get(1).reason.as_str() == "Interview");
        }
        Err(_) => return Err(Fail::from("memory")),
    }
    Ok(())
}
