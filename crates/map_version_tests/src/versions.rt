//! The version that is built of a batch, and a batch whose map is refused.

ghost use Rattle.std.specs.Prelude.{◌≡◌, IfOk};

use crate::squares::{points_of, squares};
use base_check::check;
use map_version::{RebuildFail, Version, rebuild};
use std::alloc::Global;
use std::process::Abort;
use std::test::Fail;
use std::thread::Threads;
use tgap_build::{Built, build};
use tgap_model::{Fraction, Holds, MapFault, Memory, Point, Text};

/// What is built of the two squares.
fn built_squares<R: Threads + Sync>(rt: &R, alloc: Global) -> Result<Built, Memory> {
    let Some(base) = squares(alloc, &[(10, 0), (10, 10)])? else {
        return Err(Memory);
    };
    match check(rt, alloc, base) {
        Ok(checked) => build(rt, alloc, checked),
        Err(_) => Err(Memory),
    }
}

/// The version in a box, so that who holds it holds one part: the proof of its moves is short then.
fn boxed(alloc: Global, version: Version) -> Result<Box<Version>, Memory>
    ensures { IfOk result (λ boxed. boxed.value ≡ version) }
{
    Ok(Box::new(alloc, version)?)
}

/// The two squares as version 0.
fn first_version<R: Threads + Sync>(rt: &R, alloc: Global) -> Result<Box<Version>, Memory>
    ensures { IfOk result (λ first. first.value.number ≡ 0) }
{
    let version = Version {
        number: 0,
        built: built_squares(rt, alloc)?,
        batch: Text::new(alloc),
    };
    boxed(alloc, version)
}

/// The version that a batch makes of the first one. `rebuild`, whose clauses are many, is called here alone.
fn rebuilt<R: Threads + Sync>(
    rt: &R,
    alloc: Global,
    first: &Version,
    batch: &[u8],
) -> Result<Box<Version>, RebuildFail>
    requires { first.now.number ≡ 0 }
{
    match rebuild(rt, alloc, first, batch) {
        Ok(version) => boxed(alloc, version).map_err(|_| RebuildFail::Memory),
        Err(fail) => Err(fail),
    }
}

/// The version that a batch makes of the two squares, which are version 0.
fn next<R: Threads + Sync>(
    rt: &R,
    alloc: Global,
    batch: &[u8],
) -> Result<Box<Version>, RebuildFail> {
    match first_version(rt, alloc) {
        Ok(first) => rebuilt(rt, alloc, &first, batch),
        Err(_) => Err(RebuildFail::Memory),
    }
}

/// Compares the number of a version, the third point of its arc 1, and its batch.
fn assert_version(rt: &impl Abort, version: &Version, number: u64, third: Point, batch: &[u8]) {
    assert_eq!(rt; version.number(), number);
    assert_eq!(rt; points_of(version.built.base(), 1).get(2), Some(&third));
    assert_eq!(rt; version.batch.as_slice(), batch);
}

#[test]
fn the_next_version_is_built_and_has_its_batch(rt: HostRuntime) -> Result<(), Fail> {
    let batch = b"move 20 10 24 10\n";
    let version = next(&rt, rt.alloc(), batch)?;
    assert_version(&rt, &version, 1, Point { x: 24, y: 10 }, batch);
    Ok(())
}

#[test]
fn an_edited_map_with_a_fault_is_refused(rt: HostRuntime) -> Result<(), Fail> {
    let refused = next(&rt, rt.alloc(), b"move 20 0 0 5\n").err();
    let at = Fraction {
        nx: 0,
        ny: 500,
        d: 100,
    };
    let expected = RebuildFail::Map(MapFault::Meets { i: 1, j: 3, at });
    assert_eq!(rt; refused, Some(expected));
    Ok(())
}
