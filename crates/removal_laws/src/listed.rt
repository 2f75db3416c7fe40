//! Laws of what a sweep lists: inner points, each once.

ghost use Rattle.removal_laws.specs.StandLaws.{SoundPointsStandOnce, SweepKeepsSound, SweepIsWithout, SweepIsSlice, VerticesAreListedOnce, RemovedAreInner};

/// Where segments of edges have no point in common but permitted ones, an inner point stands once among the points of all edges.
pub fn sound_points_stand_once()
    ensures { SoundPointsStandOnce }
{}

/// A sweep keeps segments apart, keys different, and points in a row different.
pub fn sweep_keeps_sound()
    ensures { SweepKeepsSound }
{}

/// Where inner points stand once, a sweep leaves the edges less what it takes out.
pub fn sweep_is_without()
    ensures { SweepIsWithout }
{}

/// Where inner points of the chains after a step stand once, its sweep leaves the edges of the chains less all that is listed.
pub fn sweep_is_slice()
    ensures { SweepIsSlice }
{}

/// Where inner points of the chains stand once, no vertex is listed twice.
pub fn vertices_are_listed_once()
    ensures { VerticesAreListedOnce }
{}

/// Where inner points of the chains stand once, what a step takes out is an inner point of one, and no end of any.
pub fn removed_are_inner()
    ensures { RemovedAreInner }
{}
