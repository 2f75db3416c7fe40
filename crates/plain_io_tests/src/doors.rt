//! Doors and harbours in memory: what they give, what they keep, and calls that fail.

ghost use Rattle.std.specs.Prelude.{IfOk};
ghost use Rattle.plain_io.specs.MemoryDoors.{IsUnused};

use plain_io::{
    Arrival, ConnectionEnd, Door, EndKind, Harbour, HarbourFail, MemoryDoor, MemoryHarbour,
    SureDoor, SureHarbour, SureLink,
};
use std::alloc::Global;
use std::test::Fail;
use tgap_model::{List, Memory, Text};

/// The list of these numbers.
pub fn numbers(alloc: Global, all: &[u64]) -> Result<List<u64>, Memory> {
    Ok(List::from(Vec::from_slice(alloc, all)?))
}

/// The end of a connection in which nothing was done.
fn nothing_done(alloc: Global) -> ConnectionEnd {
    ConnectionEnd {
        how: EndKind::Closed,
        first: 0,
        last: 0,
        numbers: List::new(alloc),
        rows: List::new(alloc),
    }
}

/// Takes from a door and hands back at once, until it gives no more. Says how many links came.
fn walk<D: Door>(door: &mut D, alloc: Global) -> u32 {
    for came in 0..8 {
        let Arrival::Came(link) = door.next() else {
            return came;
        };
        door.done(link, nothing_done(alloc));
    }
    8
}

/// A door with two links, of which the second call fails.
fn memory_door(alloc: Global) -> Result<MemoryDoor<SureLink>, Memory> {
    let mut links = List::new(alloc);
    links.push(SureLink::new(Text::from_slice(alloc, b"a")?))?;
    links.push(SureLink::new(Text::new(alloc)))?;
    MemoryDoor::new(alloc, links, numbers(alloc, &[1])?)
}

/// How many links come before the call that fails, and how many after it; how many calls fail; and how many links are back,
/// of which nothing was asked.
fn told_by_door(alloc: Global, door: &mut MemoryDoor<SureLink>) -> (u32, u32, u64, usize) {
    let before = walk(door, alloc);
    let after = walk(door, alloc);
    let back = door
        .handed_back()
        .iter()
        .filter(|(_, end)| end.how == EndKind::Closed);
    let count = back.count();
    (before, after, door.faults(), count)
}

#[test]
fn doors_give_their_links_and_keep_what_is_back(rt: HostRuntime) -> Result<(), Fail> {
    let mut door = memory_door(rt.alloc())?;
    let told = told_by_door(rt.alloc(), &mut door);
    assert_eq!(rt; told, (1, 1, 1, 2));
    Ok(())
}

/// How many links come through the only door of a harbour, which is then given back.
fn walk_the_door<H: Harbour>(harbour: &mut H, alloc: Global) -> Result<u32, HarbourFail> {
    let mut given = harbour.doors(alloc, 80, 1)?;
    let Some(mut door) = given.pop() else {
        return Ok(0);
    };
    let came = walk(&mut door, alloc);
    harbour.back(door);
    Ok(came)
}

/// Whether a harbour gives no two doors.
fn refuses_two<H: Harbour>(harbour: &mut H, alloc: Global) -> bool {
    matches!(harbour.doors(alloc, 80, 2), Err(HarbourFail::Failed))
}

/// A door with one link, of which the second call fails.
fn door_of_one_link(alloc: Global) -> Result<MemoryDoor<SureLink>, Memory>
    ensures { IfOk result IsUnused }
{
    let mut links = List::new(alloc);
    links.push(SureLink::new(Text::new(alloc)))?;
    MemoryDoor::new(alloc, links, numbers(alloc, &[1])?)
}

/// A harbour with that door. Its first call for doors fails.
fn memory_harbour(alloc: Global) -> Result<MemoryHarbour<SureLink>, Memory> {
    let door = door_of_one_link(alloc)?;
    let mut doors = List::new(alloc);
    doors.push(door)?;
    Ok(MemoryHarbour::new(alloc, doors, numbers(alloc, &[0])?))
}

/// Whether a harbour refuses the call that is listed, and one for too many doors; how many links come then, and how many
/// doors are back.
fn told_by_harbour(
    alloc: Global,
    harbour: &mut MemoryHarbour<SureLink>,
) -> Result<(bool, bool, u32, usize), HarbourFail> {
    let listed = refuses_two(harbour, alloc);
    let too_many = refuses_two(harbour, alloc);
    let came = walk_the_door(harbour, alloc)?;
    Ok((listed, too_many, came, harbour.came_back().len()))
}

/// The same of the harbour with one door.
fn told_by_memory_harbour(alloc: Global) -> Result<(bool, bool, u32, usize), Fail> {
    let mut harbour = memory_harbour(alloc)?;
    Ok(told_by_harbour(alloc, &mut harbour)?)
}

/// How many links come through a door of a harbour that never fails, and how many doors are back.
fn told_by_sure_harbour(alloc: Global) -> Result<(u32, usize), HarbourFail> {
    let none: List<SureDoor<SureLink>> = List::new(alloc);
    let mut harbour = SureHarbour::new(alloc, none);
    let came = walk_the_door(&mut harbour, alloc)?;
    Ok((came, harbour.came_back().len()))
}

#[test]
fn harbours_give_doors_and_keep_what_is_back(rt: HostRuntime) -> Result<(), Fail> {
    assert_eq!(rt; told_by_memory_harbour(rt.alloc())?, (true, true, 1, 1));
    assert_eq!(rt; told_by_sure_harbour(rt.alloc())?, (0, 1));
    Ok(())
}
