//! Two squares side by side, 10 wide and 10 high, as the first version of a map.

ghost use Rattle.std.specs.Prelude.{◌≡◌, IfOk};

use base_check::check;
use map_version::Version;
use std::alloc::Global;
use std::thread::Threads;
use tgap_build::{Built, build};
use tgap_model::{Base, BaseArc, List, Memory, Point, Rules, Text, Transform};

/// An arc through these points.
fn arc(alloc: Global, left: u32, right: u32, points: &[(i64, i64)]) -> Result<BaseArc, Memory> {
    let mut list = List::new(alloc);
    for (x, y) in points {
        list.push(Point { x: *x, y: *y })?;
    }
    Ok(BaseArc {
        left,
        right,
        points: list,
    })
}

/// The arcs round the squares, and the one between them.
fn arcs_of_squares(alloc: Global) -> Result<List<BaseArc>, Memory> {
    let mut arcs = List::new(alloc);
    for (left, right, points) in [
        (1, 0, [(10, 10), (0, 10), (0, 0), (10, 0)].as_slice()),
        (2, 0, [(10, 0), (20, 0), (20, 10), (10, 10)].as_slice()),
        (1, 2, [(10, 0), (10, 10)].as_slice()),
    ] {
        arcs.push(arc(alloc, left, right, points)?)?;
    }
    Ok(arcs)
}

/// The rules of two classes, in which all are equal.
fn equal_rules(alloc: Global) -> Result<Rules, Memory> {
    let weights = Vec::from_slice(alloc, &[1, 1])?;
    let compat = Vec::from_slice(alloc, &[1, 1, 1, 1])?;
    Ok(Rules {
        ratio: 0,
        weights: List::from(weights),
        compat: List::from(compat),
    })
}

/// The two squares.
fn squares(alloc: Global) -> Result<Option<Base>, Memory> {
    let transform = Transform {
        sx: 1,
        sy: 1,
        tx: 0,
        ty: 0,
    };
    let classes = List::from(Vec::from_slice(alloc, &[0, 1])?);
    let arcs = arcs_of_squares(alloc)?;
    Ok(Base::new(transform, equal_rules(alloc)?, classes, arcs))
}

/// What is built of the two squares.
fn built_squares<R: Threads + Sync>(rt: &R, alloc: Global) -> Result<Built, Memory> {
    let Some(base) = squares(alloc)? else {
        return Err(Memory);
    };
    match check(rt, alloc, base) {
        Ok(checked) => build(rt, alloc, checked),
        Err(_) => Err(Memory),
    }
}

/// The version in a box, so that who holds it holds one part: the proof of its moves is short then.
fn boxed(alloc: Global, version: Version) -> Result<Box<Version>, Memory>
    ensures { IfOk result (λ boxed. boxed.value ≡ version) }
{
    Ok(Box::new(alloc, version)?)
}

/// The two squares as version 0.
pub fn first_version<R: Threads + Sync>(rt: &R, alloc: Global) -> Result<Box<Version>, Memory>
    ensures { IfOk result (λ first. first.value.number ≡ 0) }
{
    let version = Version {
        number: 0,
        built: built_squares(rt, alloc)?,
        batch: Text::new(alloc),
    };
    boxed(alloc, version)
}

/// The third point of the arc round the right square: its upper right corner.
pub fn corner_of(version: &Version) -> Option<Point> {
    let arcs = version.built.base().arcs().as_slice();
    arcs.get(1)?.points.as_slice().get(2).copied()
}
