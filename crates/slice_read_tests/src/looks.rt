//! How many looks at ranges of edges and at nodes of their index it takes to read the last slice of a map, which has one edge.

ghost use Rattle.std.specs.Prelude.{◌≡◌, ◌<◌, ◌≤◌, ◌+◌, ◌^◌, true, IfOk};

use crate::maps::{Row, built_map, map_of};
use generator::grid_map;
use slice_read::{ReadFail, slice_at};
use std::alloc::Global;
use std::marker::Brand;
use std::sync::ledger::{Blank, Ledger};
use std::test::Fail;
use std::thread::Threads;
use tgap_build::Built;
use tgap_model::{Base, Memory, Steps};

/// Four squares round the node (10, 10): an arc round each, and one between two neighbours.
fn four_squares(alloc: Global) -> Result<Option<Base>, Memory> {
    let rows: [Row<'_>; 8] = [
        (1, 0, [(0, 10), (0, 0), (10, 0)].as_slice()),
        (2, 0, [(10, 0), (20, 0), (20, 10)].as_slice()),
        (4, 0, [(20, 10), (20, 20), (10, 20)].as_slice()),
        (3, 0, [(10, 20), (0, 20), (0, 10)].as_slice()),
        (1, 2, [(10, 0), (10, 10)].as_slice()),
        (2, 4, [(20, 10), (10, 10)].as_slice()),
        (4, 3, [(10, 20), (10, 10)].as_slice()),
        (3, 1, [(0, 10), (10, 10)].as_slice()),
    ];
    map_of(alloc, &[0, 0, 0, 0], rows.as_slice())
}

/// What is built of the four squares.
fn built_four_squares<R: Threads + Sync>(
    rt: &R,
    alloc: Global,
) -> Result<Option<Box<Built>>, Memory> {
    match four_squares(alloc)? {
        Some(base) => built_map(rt, alloc, base),
        None => Ok(None),
    }
}

/// Whether the last slice has one edge and its step is below this number of leaves. Then it was read with one look at least
/// and two more at most than there are levels below the root.
fn has_one_edge<L: Ledger>(
    alloc: Global,
    built: &Built,
    levels: u32,
    leaves: u32,
    steps: &mut Steps<L>,
) -> Result<bool, ReadFail>
    requires { leaves ≡ 2 ^ levels }
    ensures least { IfOk result (λ one. one ≡ true → steps.old + 1 ≤ steps.new) }
    ensures most { IfOk result (λ one. one ≡ true → steps.new ≤ steps.old + levels + 2) }
{
    let last = built.steps();
    let slice = slice_at(alloc, built, last, steps)?;
    Ok(last < leaves && slice.edges.len() == 1)
}

/// The same with a count that begins at 0.
fn has_one_edge_from_zero<L: Ledger>(
    alloc: Global,
    built: &Built,
    levels: u32,
    leaves: u32,
    blank: Blank,
) -> Result<bool, ReadFail>
    requires leaves { leaves ≡ 2 ^ levels }
    requires name { blank.name ≡ L.name }
    requires parts { blank.parts ≡ L.parts }
    requires some { 0 < blank.parts }
{
    let mut steps = Steps::<L>::new(blank);
    has_one_edge(alloc, built, levels, leaves, &mut steps)
}

/// What is built of a generated map of forty rows.
fn built_forty_rows<R: Threads + Sync>(
    rt: &R,
    alloc: Global,
) -> Result<Option<Box<Built>>, Memory> {
    let base = grid_map(alloc, 40)?;
    built_map(rt, alloc, base)
}

/// The map has 12 edges in all and 3 steps, for which a tree with 2 levels below its root is enough: one look to four.
#[test]
fn the_last_slice_of_four_squares(rt: HostRuntime) -> Result<(), Fail> {
    let built = built_four_squares(&rt, rt.alloc())?.ok_or("no map")?;
    assert_eq!(rt; (built.forest().count(), built.steps()), (12, 3));
    let one = has_one_edge_from_zero::<Brand>(rt.alloc(), &built, 2, 4, Blank::new(1));
    assert!(rt; one.ok().ok_or("no slice")?);
    Ok(())
}

/// The map has 1599 steps, for which it takes 11 levels below the root: one look to thirteen.
#[test]
fn the_last_slice_of_forty_rows(rt: HostRuntime) -> Result<(), Fail> {
    let built = built_forty_rows(&rt, rt.alloc())?.ok_or("no map")?;
    assert_eq!(rt; built.steps(), 1599);
    let one = has_one_edge_from_zero::<Brand>(rt.alloc(), &built, 11, 2048, Blank::new(1));
    assert!(rt; one.ok().ok_or("no slice")?);
    Ok(())
}
