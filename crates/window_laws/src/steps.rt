//! Laws of one record of a window.

ghost use Rattle.window_laws.specs.WindowLaws.{WindowComesAre, WindowFacesComeWithEdges, WindowStepsFit, WindowUndoGoesBack};

/// The record of a step for an area fits the window of the slice after the step.
pub fn window_steps_fit()
    ensures { WindowStepsFit }
{}

/// It leads that window back to the window of the slice before the step.
pub fn window_undo_goes_back()
    ensures { WindowUndoGoesBack }
{}

/// The edges that come are those in the window of what undoing the step makes of the edges outside it, and of those that it ends.
pub fn window_comes_are()
    ensures { WindowComesAre }
{}

/// A face whose row comes is loser or winner, or stands beside an edge that comes.
pub fn window_faces_come_with_edges()
    ensures { WindowFacesComeWithEdges }
{}
