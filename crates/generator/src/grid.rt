//! The generated map of n rows of n cells.

ghost use Rattle.std.specs.Prelude.{◌≡◌, ◌≤◌, ◌<◌, ◌+◌, ◌*◌, ◌++◌, ◌∷◌, [], length, IfOk, IsTrue};
ghost use Rattle.tgap_model.specs.Base.{is_base, count_points};
ghost use Rattle.tgap_model.specs.Partition.{IsPartition, base_segments};
ghost use Rattle.generator.specs.GridMap.{mix, grid_point, node, level_bend, upright_bend, cell_face, cell_class, face_above, face_below, face_before, face_behind, level_arc, upright_arc, level_row, upright_column, level_arcs, upright_arcs, grid_classes, grid_rules, grid_base};
ghost use Rattle.generator.specs.declared.grid.TheConstants.{MAX_GRID};

use std::alloc::Global;
use tgap_model::{Base, BaseArc, List, Memory, Point, Rules, Transform};

/// The greatest number of rows of a generated map.
pub const MAX_GRID: u32 = 147;

/// The number of a place, by which its points are moved.
fn mix(i: u32, j: u32, t: u32) -> u32
    requires i { i ≤ 147 }
    requires j { j ≤ 147 }
    requires t { t ≤ 2 }
    ensures { result ≡ mix i j t }
{
    (73 * i + 151 * j + 29 * t + 17 * (i * j)) % 64
}

/// The point with these coordinates.
fn grid_point(x: u32, y: u32) -> Point
    ensures { result ≡ grid_point x y }
{
    Point {
        x: i64::from(x),
        y: i64::from(y),
    }
}

/// Node (i, j).
fn node(i: u32, j: u32) -> Point
    requires i { i ≤ 147 }
    requires j { j ≤ 147 }
    ensures { result ≡ node i j }
{
    let moved = mix(i, j, 0);
    grid_point(16 * i + moved % 4, 16 * j + moved / 4 % 4)
}

/// The bend of level arc (i, j).
fn level_bend(i: u32, j: u32) -> Point
    requires i { i ≤ 147 }
    requires j { j ≤ 147 }
    ensures { result ≡ level_bend i j }
{
    grid_point(16 * i + 8, 16 * j + mix(i, j, 1) % 4)
}

/// The bend of upright arc (i, j).
fn upright_bend(i: u32, j: u32) -> Point
    requires i { i ≤ 147 }
    requires j { j ≤ 147 }
    ensures { result ≡ upright_bend i j }
{
    grid_point(16 * i + mix(i, j, 2) % 4, 16 * j + 8)
}

/// The face of cell (i, j) of a map of n rows.
fn cell_face(n: u32, i: u32, j: u32) -> u32
    requires n { n ≤ 147 }
    requires i { i ≤ 147 }
    requires j { j ≤ 147 }
    ensures { result ≡ cell_face n i j }
{
    1 + j * n + i
}

/// An arc with a bend.
fn bent_arc(
    alloc: Global,
    left: u32,
    right: u32,
    first: Point,
    bend: Point,
    last: Point,
) -> Result<BaseArc, Memory>
    ensures { IfOk result (λ arc. arc ≡ record { left = left; right = right; points = first ∷ bend ∷ last ∷ [] }) }
{
    Ok(BaseArc {
        left,
        right,
        points: List::from(vec![in alloc; first, bend, last]?),
    })
}

/// The level arc from node (i, j) to node (i + 1, j).
fn level_arc(alloc: Global, n: u32, i: u32, j: u32) -> Result<BaseArc, Memory>
    requires n { n ≤ 147 }
    requires i { i < n }
    requires j { j ≤ n }
    ensures { IfOk result (λ arc. arc ≡ level_arc n i j) }
{
    let above = if j == n { 0 } else { cell_face(n, i, j) };
    let below = if j == 0 { 0 } else { cell_face(n, i, j - 1) };
    bent_arc(
        alloc,
        above,
        below,
        node(i, j),
        level_bend(i, j),
        node(i + 1, j),
    )
}

/// The upright arc from node (i, j) to node (i, j + 1).
fn upright_arc(alloc: Global, n: u32, i: u32, j: u32) -> Result<BaseArc, Memory>
    requires n { n ≤ 147 }
    requires i { i ≤ n }
    requires j { j < n }
    ensures { IfOk result (λ arc. arc ≡ upright_arc n i j) }
{
    let before = if i == 0 { 0 } else { cell_face(n, i - 1, j) };
    let behind = if i == n { 0 } else { cell_face(n, i, j) };
    bent_arc(
        alloc,
        before,
        behind,
        node(i, j),
        upright_bend(i, j),
        node(i, j + 1),
    )
}

/// Puts the level arcs of row j after `arcs`.
fn push_row(alloc: Global, arcs: &mut Vec<BaseArc>, n: u32, j: u32) -> Result<(), Memory>
    requires n { n ≤ 147 }
    requires j { j ≤ n }
    ensures { IfOk result (λ _. arcs.new.items ≡ arcs.old.items ++ level_row n j) }
{
    for i in 0..n {
        let arc = level_arc(alloc, n, i, j)?;
        arcs.push(arc)?;
    }
    Ok(())
}

/// Puts the upright arcs of column i after `arcs`.
fn push_column(alloc: Global, arcs: &mut Vec<BaseArc>, n: u32, i: u32) -> Result<(), Memory>
    requires n { n ≤ 147 }
    requires i { i ≤ n }
    ensures { IfOk result (λ _. arcs.new.items ≡ arcs.old.items ++ upright_column n i) }
{
    for j in 0..n {
        let arc = upright_arc(alloc, n, i, j)?;
        arcs.push(arc)?;
    }
    Ok(())
}

/// The arcs of the map of n rows: the level ones, row by row, and then the upright ones, column by column.
fn grid_arcs(alloc: Global, n: u32) -> Result<List<BaseArc>, Memory>
    requires n { n ≤ 147 }
    ensures { IfOk result (λ arcs. arcs ≡ level_arcs n ++ upright_arcs n) }
{
    let mut arcs = Vec::new(alloc);
    for j in 0..n + 1 {
        push_row(alloc, &mut arcs, n, j)?;
    }
    for i in 0..n + 1 {
        push_column(alloc, &mut arcs, n, i)?;
    }
    Ok(List::from(arcs))
}

/// The class of each cell, row by row.
fn grid_classes(alloc: Global, n: u32) -> Result<List<u32>, Memory>
    requires n { n ≤ 147 }
    ensures { IfOk result (λ classes. classes ≡ grid_classes n) }
{
    let mut classes = Vec::new(alloc);
    for j in 0..n {
        for i in 0..n {
            classes.push((5 * i + 3 * j + i * j) % 4)?;
        }
    }
    Ok(List::from(classes))
}

/// The rules of a generated map: four classes, of which class c has weight c + 1; a class is compatible with itself by
/// 4, with another by 1.
fn grid_rules(alloc: Global) -> Result<Rules, Memory>
    ensures { IfOk result (λ rules. rules ≡ grid_rules) }
{
    let weights = List::from(vec![in alloc; 1, 2, 3, 4]?);
    let compat = List::from(vec![in alloc; 4, 1, 1, 1, 1, 4, 1, 1, 1, 1, 4, 1, 1, 1, 1, 4]?);
    Ok(Rules {
        ratio: 16,
        weights,
        compat,
    })
}

/// The generated map of n rows of n cells, for n from 1 to `MAX_GRID`. It has n * n faces, 2 * n * (n + 1) arcs and three
/// points an arc, and it is a planar partition. Nothing is refused but for want of memory.
pub fn grid_map(alloc: Global, n: u32) -> Result<Base, Memory>
    requires from { 1 ≤ n }
    requires to { n ≤ MAX_GRID }
    ensures map { IfOk result (λ base. base ≡ grid_base n) }
    ensures base { IfOk result (λ base. IsTrue (is_base base)) }
    ensures partition { IfOk result (λ base. IsPartition (base_segments base)) }
    ensures faces { IfOk result (λ base. length base.classes ≡ n * n) }
    ensures arcs { IfOk result (λ base. length base.arcs ≡ 2 * ((n + 1) * n)) }
    ensures points { IfOk result (λ base. count_points base.arcs ≡ 6 * ((n + 1) * n)) }
{
    let transform = Transform {
        sx: 1,
        sy: 1,
        tx: 0,
        ty: 0,
    };
    let rules = grid_rules(alloc)?;
    let classes = grid_classes(alloc, n)?;
    let arcs = grid_arcs(alloc, n)?;
    match Base::new(transform, rules, classes, arcs) {
        Some(base) => Ok(base),
        None => unreachable!(),
    }
}
