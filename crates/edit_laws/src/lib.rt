//! Edits of a base map: what they make of one is a base map again, and batches of them may be joined. The functions do nothing: the
//! contract of each is a law, which is proved with the crate. `specs/Edits.antt` says what each line of a batch does and when it is refused;
//! `proofs/Examples.antt` computes that on a small map.
#![tactic(auto)]

ghost use Rattle.edit_laws.specs.EditLaws.{ClassesKeepMaps, MovesKeepMaps, AddsKeepMaps, DropsKeepMaps, BatchesKeepMaps, AcceptedBatchesEnd, JoinedBatches, JoinedLists, JoinedJournals};

/// A base map with another class for a face is a base map.
pub fn classes_keep_maps()
    ensures { ClassesKeepMaps }
{}

/// A base map with a point moved to one within the limits is a base map.
pub fn moves_keep_maps()
    ensures { MovesKeepMaps }
{}

/// A base map with a point more between the ends of a segment, within the limits, is a base map.
pub fn adds_keep_maps()
    ensures { AddsKeepMaps }
{}

/// A base map with an inner vertex taken out is a base map.
pub fn drops_keep_maps()
    ensures { DropsKeepMaps }
{}

/// A base map to which a whole batch of lines was applied is a base map.
pub fn batches_keep_maps()
    ensures { BatchesKeepMaps }
{}

/// A batch that is accepted is empty or ends with a line feed, so that another one may stand behind it.
pub fn accepted_batches_end()
    ensures { AcceptedBatchesEnd }
{}

/// A batch and one behind it, as one batch, make of a map what both make one after the other, and are refused where those are.
pub fn joined_batches()
    ensures { JoinedBatches }
{}

/// So are any number of batches.
pub fn joined_lists()
    ensures { JoinedLists }
{}

/// A journal of one entry, which has all batches that the entries of another come to, makes the same map as that one.
pub fn joined_journals()
    ensures { JoinedJournals }
{}
