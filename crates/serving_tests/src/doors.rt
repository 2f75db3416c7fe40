//! Doors that are there and doors that are not.

use crate::links::{INFO, INFO_REPLY, harbour_of, link_of, none};
use crate::served::gives;
use memory_runs::first_call;
use plain_io::{MemoryHarbour, MemoryLink, SureHarbour, SureLink};
use std::alloc::Global;
use std::sync::Wait;
use std::test::Fail;
use std::thread::Threads;
use tgap_model::{List, Memory};

#[test]
fn two_doors_through_which_nobody_comes(rt: HostRuntime) -> Result<(), Fail> {
    let alloc = rt.alloc();
    let mut harbour: SureHarbour<SureLink> = SureHarbour::new(alloc, List::new(alloc));
    let answer = (0, "serving 8080\n");
    assert!(rt; gives(&rt, alloc, "serve map 8080 2 4", &mut harbour, answer)?);
    assert_eq!(rt; harbour.came_back().len(), 2);
    Ok(())
}

/// A harbour whose first call for doors fails.
fn closed_harbour(alloc: Global) -> Result<MemoryHarbour<MemoryLink>, Memory> {
    Ok(MemoryHarbour::new(alloc, List::new(alloc), first_call(alloc)?))
}

#[test]
fn doors_that_are_not_given(rt: HostRuntime) -> Result<(), Fail> {
    let mut harbour = closed_harbour(rt.alloc())?;
    let answer = (8, "port fault\n");
    assert!(rt; gives(&rt, rt.alloc(), "serve map 8080 2 4", &mut harbour, answer)?);
    Ok(())
}

/// A harbour with one door, through which one link comes. The call of the door of this number fails.
fn harbour_with_failing_door(
    alloc: Global,
    call: u64,
) -> Result<MemoryHarbour<MemoryLink>, Memory> {
    let mut calls = List::new(alloc);
    calls.push(call)?;
    harbour_of(alloc, link_of(alloc, INFO, 100, none(alloc))?, calls)
}

/// Whether so many links came back through the only door of a harbour, each with the reply to its request.
fn has_answered(harbour: &MemoryHarbour<MemoryLink>, count: usize) -> bool {
    let [door] = harbour.came_back() else {
        return false;
    };
    let links = door.handed_back();
    links.len() == count
        && links
            .iter()
            .all(|(link, _)| link.bytes() == INFO_REPLY.as_bytes())
}

/// Whether a door whose call of this number fails gives so many links before, and the command ends with this answer.
fn gives_where_a_call_fails<R: Threads + Wait + Sync>(
    rt: &R,
    alloc: Global,
    call: u64,
    count: usize,
    answer: (u8, &str),
) -> Result<bool, Memory> {
    let mut harbour = harbour_with_failing_door(alloc, call)?;
    let is_given = gives(rt, alloc, "serve map 8080 1 1", &mut harbour, answer)?;
    Ok(is_given && has_answered(&harbour, count))
}

/// The first call gives a link, and the second one finds the door closed.
#[test]
fn each_call_of_a_door_that_fails(rt: HostRuntime) -> Result<(), Fail> {
    let alloc = rt.alloc();
    let fault = (8, "serving 8080\nport fault\n");
    assert!(rt; gives_where_a_call_fails(&rt, alloc, 0, 0, fault)?);
    assert!(rt; gives_where_a_call_fails(&rt, alloc, 1, 1, fault)?);
    assert!(rt; gives_where_a_call_fails(&rt, alloc, 2, 1, (0, "serving 8080\n"))?);
    Ok(())
}
