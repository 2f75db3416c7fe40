//! A base map that was checked.

ghost use Rattle.std.specs.Prelude.{◌≡◌, IfOk};
ghost use Rattle.tgap_model.specs.Partition.{IsPartition, base_segments};

use crate::base::Base;
use crate::failure::Memory;
use std::alloc::Global;
use std::marker::Model;

/// A base map that is a planar partition. It is made by whoever has shown that.
#[derive(Drop)]
pub struct Checked {
    base: Base,
}

impl Model for Checked {
    ghost use Rattle.tgap_model.specs.Base.{BaseMap};
    ghost use Rattle.tgap_model.specs.Partition.{IsPartition, base_segments};

    ghost Value = { BaseMap };

    ghost view = { λ c. c.base };

    ghost invariant = { λ c. IsPartition (base_segments c.base) };
}

impl Checked {
    /// The base map as a checked one. It takes no memory.
    pub fn of(base: Base) -> Checked
        requires partition { IsPartition (base_segments base) }
        ensures { result ≡ base }
    {
        Checked { base }
    }

    /// The base map.
    pub fn base(&self) -> &Base
        ensures value { result.now ≡ self.now }
        ensures partition { IsPartition (base_segments self.now) }
    {
        &self.base
    }

    /// The same base map, whose arcs others can hold too from then on.
    pub fn into_shared(self, alloc: Global) -> Result<Checked, Memory>
        ensures { IfOk result (λ checked. checked ≡ self) }
    {
        Ok(Checked {
            base: self.base.into_shared(alloc)?,
        })
    }
}
