//! Lists in which the last step alone sends the viewer other words under the old tapes.

use crate::made::{List, list_of, numbers, push, share, steer, turn};
use crate::worlds::differ;
use crate::worlds_tests::{first_world, is_explained, other_world};
use std::test::Fail;
use step_lists::{Step, list_needs};
use tapes::make_tapes;
use tests_steps::TestTask;

// The party before another one.
fn before(party: u8) -> u8 {
    (party % 3 + 1) % 3 + 1
}

// An order of each party, and the viewer's rows in the order of the party before it. That order differs, and so does the
// share that the viewer hasn't, but no word that it receives.
fn steered(rt: &HostRuntime, viewer: u8) -> Result<List, Fail> {
    let mut list = list_of(rt, &[3], &[3], &[3])?;
    for party in 1..4 {
        turn(rt, &mut list, party, 0)?;
    }
    share(&mut list, viewer, 0)?;
    steer(rt, &mut list, before(viewer), 1, &[0])?;
    Ok(list)
}

// Whether the two worlds differ to a viewer.
fn differs(rt: &HostRuntime, list: &List, viewer: u8) -> Result<bool, Fail> {
    let schedule = list_needs(rt.alloc(), list)?;
    let tapes = make_tapes(rt.alloc(), &schedule, 13)?;
    let (one, other) = (first_world(rt)?, other_world(rt, viewer)?);
    differ(rt, list, viewer, &one, &other, &tapes)
}

// Whether a step alone differs, and is explained.
fn is_alone(rt: &HostRuntime, viewer: u8, step: Step<TestTask>) -> Result<bool, Fail> {
    let mut list = steered(rt, viewer)?;
    if differs(rt, &list, viewer)? {
        return Ok(false);
    }
    push(&mut list, step)?;
    let (one, other) = (first_world(rt)?, other_world(rt, viewer)?);
    is_explained(rt, &list, viewer, (&one, &other), 13)
}

// The rows that differ, revealed to a party.
fn is_reveal_alone(rt: &HostRuntime, viewer: u8, to: u8) -> Result<bool, Fail> {
    let moved = numbers(rt, &[0, 1])?;
    let shown = numbers(rt, &[1])?;
    is_alone(rt, viewer, Step::Reveal { to, moved, shown })
}

// These rows in the order of a party.
fn is_steer_alone(rt: &HostRuntime, viewer: u8, by: u8) -> Result<bool, Fail> {
    let moved = numbers(rt, &[1])?;
    let slot = 1;
    is_alone(rt, viewer, Step::Steer { by, slot, moved })
}

fn is_share_alone(rt: &HostRuntime, viewer: u8, party: u8) -> Result<bool, Fail> {
    let slot = 0;
    is_alone(rt, viewer, Step::Share { party, slot })
}

fn is_and_alone(rt: &HostRuntime, viewer: u8) -> Result<bool, Fail> {
    is_alone(rt, viewer, Step::And { left: 0, right: 1 })
}

#[test]
fn a_step_that_differs_alone_is_explained(rt: HostRuntime) -> Result<(), Fail> {
    for viewer in 1..4 {
        assert!(rt; is_and_alone(&rt, viewer)?, "and {viewer}");
        for party in 1..4 {
            assert!(rt;
                is_reveal_alone(&rt, viewer, party)?,
                "reveal {viewer} {party}"
            );
            assert!(rt;
                is_steer_alone(&rt, viewer, party)?,
                "steer {viewer} {party}"
            );
            assert!(rt;
                party == viewer || is_share_alone(&rt, viewer, party)?,
                "share {viewer} {party}"
            );
        }
    }
    Ok(())
}
