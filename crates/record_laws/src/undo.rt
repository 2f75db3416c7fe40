//! Laws of one record.

ghost use Rattle.record_laws.specs.UndoLaws.{RecordsFit, UndoGoesBack};

/// The record of a step fits the slice after the step.
pub fn records_fit()
    ensures { RecordsFit }
{}

/// It leads that slice back to the slice before the step.
pub fn undo_goes_back()
    ensures { UndoGoesBack }
{}
