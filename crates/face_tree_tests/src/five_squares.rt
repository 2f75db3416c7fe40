//! The tree of five squares in a row.

ghost use Rattle.std.specs.Prelude.{◌≡◌, length, IfOk};

use face_merge::history;
use face_tree::FaceTree;
use std::alloc::Global;
use std::test::Fail;
use tgap_model::{Base, BaseArc, List, Memory, Point, Rules, Transform};

/// An arc of two points.
fn arc(
    alloc: Global,
    left: u32,
    right: u32,
    a: (i64, i64),
    b: (i64, i64),
) -> Result<BaseArc, Memory> {
    let points = [Point { x: a.0, y: a.1 }, Point { x: b.0, y: b.1 }];
    Ok(BaseArc {
        left,
        right,
        points: List::from(Vec::from_slice(alloc, &points)?),
    })
}

/// The arcs of the squares, 10 wide and 10 high, face 1 at the left.
fn arcs_of_squares(alloc: Global) -> Result<List<BaseArc>, Memory> {
    let mut arcs = List::new(alloc);
    for (left, right, a, b) in [
        (1, 0, (0, 10), (0, 0)),
        (1, 0, (0, 0), (10, 0)),
        (1, 0, (10, 10), (0, 10)),
        (1, 2, (10, 0), (10, 10)),
        (2, 0, (10, 0), (20, 0)),
        (2, 0, (20, 10), (10, 10)),
        (2, 3, (20, 0), (20, 10)),
        (3, 0, (20, 0), (30, 0)),
        (3, 0, (30, 10), (20, 10)),
        (3, 4, (30, 0), (30, 10)),
        (4, 0, (30, 0), (40, 0)),
        (4, 0, (40, 10), (30, 10)),
        (4, 5, (40, 0), (40, 10)),
        (5, 0, (40, 0), (50, 0)),
        (5, 0, (50, 10), (40, 10)),
        (5, 0, (50, 0), (50, 10)),
    ] {
        arcs.push(arc(alloc, left, right, a, b)?)?;
    }
    Ok(arcs)
}

/// The rules of two classes, of which the first is twice as important as the second.
fn rules(alloc: Global) -> Result<Rules, Memory> {
    let weights = Vec::from_slice(alloc, &[2, 1])?;
    let compat = Vec::from_slice(alloc, &[1, 1, 1, 1])?;
    Ok(Rules {
        ratio: 0,
        weights: List::from(weights),
        compat: List::from(compat),
    })
}

/// The squares.
fn five_squares(alloc: Global) -> Result<Option<Base>, Memory> {
    let transform = Transform {
        sx: 1,
        sy: 1,
        tx: 0,
        ty: 0,
    };
    let classes = List::from(Vec::from_slice(alloc, &[0, 1, 0, 0, 1])?);
    let arcs = arcs_of_squares(alloc)?;
    Ok(Base::new(transform, rules(alloc)?, classes, arcs))
}

/// The tree of a map, if it has 5 faces of the map and 4 steps. It stands in a box, so that who holds it holds one part: the proof
/// of its moves is short then.
fn tree_of(alloc: Global, base: &Base) -> Result<Box<FaceTree>, Memory>
    ensures { IfOk result (λ tree. (tree.value.faces ≡ 5) × (length tree.value.steps ≡ 4)) }
{
    let steps = history(alloc, base)?;
    let tree = Box::new(alloc, FaceTree::of(alloc, base, &steps)?)?;
    if base.classes().len() == 5 && tree.steps() == 4 {
        Ok(tree)
    } else {
        Err(Memory)
    }
}

/// The tree of the squares: 2 into 1 is 6, 5 into 4 is 7, 3 into 6 is 8, 7 into 8 is 9.
fn tree_of_squares(alloc: Global) -> Result<Box<FaceTree>, Memory>
    ensures { IfOk result (λ tree. (tree.value.faces ≡ 5) × (length tree.value.steps ≡ 4)) }
{
    match five_squares(alloc)? {
        Some(base) => tree_of(alloc, &base),
        None => Err(Memory),
    }
}

#[test]
fn parents(rt: HostRuntime) -> Result<(), Fail> {
    let tree = tree_of_squares(rt.alloc())?;
    let parents = [6, 6, 8, 7, 7, 8, 9, 9];
    for face in 1..9 {
        assert_eq!(rt; tree.parent(face), Some(parents[face as usize - 1]));
    }
    assert_eq!(rt; tree.parent(9), None);
    Ok(())
}

#[test]
fn ranges(rt: HostRuntime) -> Result<(), Fail> {
    let tree = tree_of_squares(rt.alloc())?;
    let ranges = [
        (0, 1),
        (0, 1),
        (0, 3),
        (0, 2),
        (0, 2),
        (1, 3),
        (2, 4),
        (3, 4),
        (4, 5),
    ];
    for face in 1..10 {
        assert_eq!(rt; tree.range(face), ranges[face as usize - 1]);
    }
    Ok(())
}

#[test]
fn classes(rt: HostRuntime) -> Result<(), Fail> {
    let tree = tree_of_squares(rt.alloc())?;
    let classes = [0, 1, 0, 0, 1, 0, 0, 0, 0];
    for face in 1..10 {
        assert_eq!(rt; tree.class(face), classes[face as usize - 1]);
    }
    Ok(())
}

#[test]
fn labels(rt: HostRuntime) -> Result<(), Fail> {
    let alloc = rt.alloc();
    let tree = tree_of_squares(alloc)?;
    let labels = tree.labels_at(alloc, 2)?;
    assert_eq!(rt; labels.as_slice(), [0, 6, 6, 3, 7, 7].as_slice());
    let ancestors = [0, 8, 8, 8, 7, 7, 8, 7, 8];
    for face in 0..9 {
        assert_eq!(rt; tree.ancestor(face, 3), ancestors[face as usize]);
    }
    Ok(())
}
