//! Sets of sides.

ghost use Rattle.std.specs.Prelude.{◌≡◌, ◌||◌, false, IfOk, OnOk};
ghost use Rattle.std.specs.List.{list_any};
ghost use Rattle.ring_walk.specs.declared.side.Side.{Side as OneSide};
ghost use Rattle.ring_walk.specs.Sides.{same_side};
ghost use Rattle.face_cuts.specs.SideSets.{has};

use ring_walk::Side;
use std::alloc::Global;
use std::collections::BTreeSet;
use tgap_model::Memory;

/// A set of sides, by their numbers.
#[derive(Drop)]
pub struct SideSet {
    numbers: BTreeSet<usize>,
}

impl SideSet {
    /// The set without a side.
    pub fn new(alloc: Global) -> SideSet
        ensures { (s : OneSide) → has result s ≡ false }
    {
        SideSet {
            numbers: BTreeSet::new(alloc),
        }
    }

    /// Whether the side is in it.
    pub fn has(&self, side: Side) -> bool
        ensures { result ≡ has self.now side }
    {
        self.numbers.contains(&side.number())
    }

    /// Puts a side into it.
    fn put(&mut self, side: Side) -> Result<(), Memory>
        ensures { OnOk result ((s : OneSide) → has self.new s ≡ (same_side s side || has self.old s)) }
    {
        self.numbers.insert(side.number())?;
        Ok(())
    }

    /// Puts the sides of a row into it.
    pub fn put_all(&mut self, row: &[Side]) -> Result<(), Memory>
        ensures { OnOk result ((s : OneSide) → has self.new s ≡ (has self.old s || list_any (same_side s) row.now)) }
    {
        for side in row {
            self.put(*side)?;
        }
        Ok(())
    }

    /// The sides of a row.
    pub fn of(alloc: Global, row: &[Side]) -> Result<SideSet, Memory>
        ensures { IfOk result (λ set. (s : OneSide) → has set s ≡ list_any (same_side s) row.now) }
    {
        let mut set = SideSet::new(alloc);
        set.put_all(row)?;
        Ok(set)
    }

    /// Whether one of the sides is in it.
    pub fn has_any(&self, row: &[Side]) -> bool
        ensures { result ≡ list_any (has self.now) row.now }
    {
        row.iter().any(|side| self.has(*side))
    }
}
