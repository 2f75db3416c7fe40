//! Laws of the removals of a base map that is a planar partition.

ghost use Rattle.removal_laws.specs.BaseLaws.{ChainsStandOnce, PartitionHasRemovals};

/// Inner points of the chains after each step stand once.
pub fn chains_stand_once()
    ensures { ChainsStandOnce }
{}

/// So no vertex is listed twice, each is an inner point of the chains of its step and no end of them, and the sweep of a step
/// leaves the edges of its chains less all that is listed.
pub fn partition_has_removals()
    ensures { PartitionHasRemovals }
{}
