//! Tests of `planar_sweep` over its public calls: segments that cross, touch, stand upright, lie over one another or
//! share points, near the limits too, and thousands of them at one point or side by side; and of faces that agree down each
//! vertical line or do not.
#![tactic(auto)]

#[cfg(test)]
mod arcs;
#[cfg(test)]
mod faces;
#[cfg(test)]
mod labelled;
