//! Definitions of a topology: how its bytes are read, what its rings say of the sides of each arc, and with which first fault a base
//! map is made of it. There is no code.
#![tactic(auto)]
