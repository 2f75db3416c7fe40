//! Laws of the windows of several areas.

ghost use Rattle.picture_laws.specs.JoinLaws.{WindowsJoin, RefinedWindowsJoin};

/// The windows of several areas at one step, each edge and each row once, are the edges of the slice that meet one of the areas,
/// with the faces beside them.
pub fn windows_join()
    ensures { WindowsJoin }
{}

/// So are windows that were sent at various steps, once packets have led each to one step.
pub fn refined_windows_join()
    ensures { RefinedWindowsJoin }
{}
