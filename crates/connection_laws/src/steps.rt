//! The outcomes of a connection as steps of the machine of versions.

ghost use Rattle.connection_laws.specs.Steps.{OutcomesAreSteps, ConversationsAreSteps};

/// Each outcome of a connection is one step of the machine of versions on its list, in which others may publish between any two of them, and
/// no pin ever falls. So it is of every list that has room for its versions. Only an edit that a keeper refuses is no step: the connection stands
/// where it stood.
pub fn outcomes_are_steps()
    ensures { OutcomesAreSteps }
{}

/// The first pin of a connection is one step of the machine of versions, by which its one actor pins the newest of the versions that are there
/// then, and each outcome after it is one step or none, as `outcomes_are_steps` has it. That the list has room is what a connection tells.
pub fn conversations_are_steps()
    ensures { ConversationsAreSteps }
{}
