//! The history of a larger map, beside one that is made from sums taken afresh at each step.

use crate::generated::generated;
use crate::plain::plain_history;
use face_merge::history;
use std::alloc::Global;
use std::process::Abort;
use std::test::Fail;
use tgap_model::{Base, Memory};

/// Compares the history of a map of 1600 faces with the plain one, and the number of its steps.
fn assert_history(rt: &impl Abort, alloc: Global, base: &Base) -> Result<(), Memory> {
    assert_eq!(rt; base.classes().len(), 1600);
    let steps = history(alloc, base)?;
    let plain = plain_history(alloc, base)?;
    assert_eq!(rt; steps.len(), 1100);
    assert_eq!(rt; steps.as_slice(), plain.as_slice());
    Ok(())
}

#[test]
fn sums_kept_from_step_to_step(rt: HostRuntime) -> Result<(), Fail> {
    match generated(rt.alloc()) {
        Ok(Some(base)) => Ok(assert_history(&rt, rt.alloc(), &base)?),
        _ => Err(Fail::new("no map")),
    }
}
