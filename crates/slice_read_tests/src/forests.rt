//! The edges of two squares before any step.

use crate::squares::checked_squares;
use edge_forest::Forest;
use std::alloc::Global;
use std::process::Abort;
use std::test::Fail;
use tgap_model::{Checked, List, Memory};

/// The keys of the edges of a map before any step.
fn present_edges(alloc: Global, checked: &Checked) -> Result<List<u32>, Memory> {
    let forest = Box::new(alloc, Forest::of_base(alloc, checked)?)?;
    forest.present(alloc)
}

/// Compares the edges of a map before any step.
fn assert_present(
    rt: &impl Abort,
    alloc: Global,
    checked: &Checked,
    expected: &[u32],
) -> Result<(), Memory> {
    let keys = present_edges(alloc, checked)?;
    assert_eq!(rt; keys.as_slice(), expected);
    Ok(())
}

#[test]
fn edges_that_have_not_ended(rt: HostRuntime) -> Result<(), Fail> {
    match checked_squares(&rt, rt.alloc()) {
        Ok(Some(checked)) => Ok(assert_present(&rt, rt.alloc(), &checked, &[0, 1, 2])?),
        _ => Err(Fail::new("no map")),
    }
}
