//! Lemmas alone, which the other crates import from `proofs/`: identities of polynomials over the integers, their order, signs,
//! fractions and intervals; the members of lists, sorted lists, the places in them, ascending lists without repeats, sums and
//! counts. `specs/` has the words of sorting and parity. There is no code.
#![tactic(auto)]
