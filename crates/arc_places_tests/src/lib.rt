//! Tests of `arc_places` over its public calls: what is listed for points and for faces, what is listed where arcs are split, which
//! arcs are there, and cuts over slots beside cuts over arcs.
#![tactic(auto)]

#[cfg(test)]
mod cuts;
#[cfg(test)]
mod lists;
#[cfg(test)]
mod maps;
#[cfg(test)]
mod splits;
