//! Definitions of the form that the rows of a slice and of a packet have, where they are written, read and undone. There is no code.
#![tactic(auto)]
