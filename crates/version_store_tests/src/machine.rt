//! Two actors on a map of which there may be two versions.

use crate::maps::triangle;
use std::alloc::Global;
use std::test::Fail;
use tgap_model::{Base, List};
use version_store::{Event, Machine, Outcome};

/// An event, which for a commit tells the width of the triangle that is committed.
#[derive(Clone, Copy)]
enum Turn {
    Begin(u32),
    Commit(u32, i64),
    Pin(u32),
    Read(u32),
    Leave(u32),
}

/// Events in their order, each with what comes of it.
const TURNS: &[(Turn, Outcome)] = &[
    (Turn::Read(0), Outcome::Idle),
    (Turn::Pin(0), Outcome::Pinned(0)),
    (Turn::Pin(1), Outcome::Pinned(0)),
    (Turn::Commit(0, 20), Outcome::Published(1)),
    (Turn::Commit(1, 30), Outcome::Stale(1)),
    (Turn::Read(1), Outcome::At(0)),
    (Turn::Pin(1), Outcome::Pinned(1)),
    (Turn::Commit(1, 30), Outcome::Full(2)),
    (Turn::Begin(1), Outcome::Began(1)),
    (Turn::Leave(1), Outcome::Left),
    (Turn::Begin(1), Outcome::Idle),
    (Turn::Pin(2), Outcome::Idle),
];

/// The triangle of this width.
fn map_of(alloc: Global, width: i64) -> Result<Base, Fail> {
    Ok(triangle(alloc, width)?.ok_or("no base map")?)
}

fn event_of(alloc: Global, turn: Turn) -> Result<Event, Fail> {
    Ok(match turn {
        Turn::Begin(actor) => Event::Begin(actor),
        Turn::Commit(actor, width) => Event::Commit(actor, map_of(alloc, width)?),
        Turn::Pin(actor) => Event::Pin(actor),
        Turn::Read(actor) => Event::Read(actor),
        Turn::Leave(actor) => Event::Leave(actor),
    })
}

/// A machine of two actors and at most two versions.
fn machine_of_two(alloc: Global) -> Result<Machine, Fail> {
    let first = map_of(alloc, 10)?;
    Ok(Machine::new(alloc, first, 2, 2)?)
}

fn outcome_of(alloc: Global, machine: &mut Machine, turn: Turn) -> Result<Outcome, Fail> {
    let event = event_of(alloc, turn)?;
    Ok(machine.step(alloc, event)?)
}

#[test]
fn one_event_after_the_other(rt: HostRuntime) -> Result<(), Fail> {
    let mut machine = machine_of_two(rt.alloc())?;
    for (turn, outcome) in TURNS {
        assert_eq!(rt; outcome_of(rt.alloc(), &mut machine, *turn)?, *outcome);
    }
    Ok(())
}

fn all_events(alloc: Global) -> Result<List<Event>, Fail> {
    let mut events = List::new(alloc);
    for (turn, _) in TURNS {
        events.push(event_of(alloc, *turn)?)?;
    }
    Ok(events)
}

/// What comes of all events.
fn outcomes_of_all(alloc: Global, machine: &mut Machine) -> Result<List<Outcome>, Fail> {
    let events = all_events(alloc)?;
    Ok(machine.run(alloc, events)?)
}

#[test]
fn all_events_at_once(rt: HostRuntime) -> Result<(), Fail> {
    let mut machine = machine_of_two(rt.alloc())?;
    let outcomes = outcomes_of_all(rt.alloc(), &mut machine)?;
    assert!(rt;
        outcomes
            .as_slice()
            .iter()
            .eq(TURNS.iter().map(|(_, outcome)| outcome))
    );
    Ok(())
}
