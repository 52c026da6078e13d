//! A worker attends the links of its listener, and ends with it.
ghost use Rattle.wb_server_tests.specs.NewHosts.{IsOpenedAt};

use crate::connecting::gate_of;
use crate::hosts::{replies, station};
use crate::new_hosts::NewHost;
use std::alloc::Global;
use std::marker::Brand;
use std::sync::Wait;
use std::sync::ledger::Ledger;
use std::test::Fail;
use wb_desk::Origin;
use wb_front::{Station, Worked, work};
use wb_transport::{MemLink, MemListener, MemTicker};
use wb_wire::Routes;

// How a worker ends at a station of a new host whose books are of two ledgers, and in how many turns its pass took part.
fn work_on<A: Origin, B: Ledger, R: Wait>(
    rt: &R,
    alloc: Global,
    host: NewHost,
    station: &mut Station<MemListener, MemTicker>,
) -> Result<(Worked, u64), Fail>
    requires at { IsOpenedAt host A.desk A.honest A.name A.parts B.name B.parts }
{
    let routes = Routes::new(alloc)?;
    let (gate, mut pass) = gate_of::<A, B>(host);
    let worked = work(rt, alloc, &gate, &routes, &mut pass, station);
    Ok((worked, pass.turns()))
}

// Whether so many links came back, each with one reply.
fn are_attended(came: &[MemLink], links: usize) -> bool {
    for link in came {
        if replies(link.got()) != 1 {
            return false;
        }
    }
    came.len() == links
}

/// How many links there are, how many of the listener's first calls fail, how the worker ends, and how many links it attends.
type Case = (u32, u64, Worked, u32);

const CASES: &[Case] = &[
    (0, 0, Worked::End, 0),
    (3, 0, Worked::End, 3),
    (2, 15, Worked::End, 2),
    (2, 16, Worked::ListenFault, 0),
    (2, 100, Worked::ListenFault, 0),
];

// Whether a worker ends as it is to, with a turn for each link that it attended.
fn is_right<R: Wait>(rt: &R, alloc: Global, case: &Case) -> Result<bool, Fail> {
    let (links, fails, ended, attended) = *case;
    let mut station = station(alloc, links, fails)?;
    let host = NewHost::new(alloc)?;
    let (worked, turns) = work_on::<Brand, Brand, R>(rt, alloc, host, &mut station)?;
    Ok(
        worked == ended
            && turns == u64::from(attended)
            && are_attended(station.listener.came(), attended as usize),
    )
}

#[test]
fn a_worker_attends_each_link_and_hands_it_back(rt: HostRuntime) -> Result<(), Fail> {
    for case in CASES {
        assert!(rt; is_right(&rt, rt.alloc(), case)?);
    }
    Ok(())
}
