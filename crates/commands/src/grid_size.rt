//! The size of a generated map.

ghost use Rattle.std.specs.Prelude.{◌≤◌};
ghost use Rattle.generator.specs.declared.grid.TheConstants.{MAX_GRID};

use generator::MAX_GRID;

/// The number of rows of a generated map, within its limits.
#[derive(Clone, Copy, Drop)]
pub struct GridSize {
    pub rows: u32,
    ghost some: { 1 ≤ rows },
    ghost few: { rows ≤ MAX_GRID },
}
