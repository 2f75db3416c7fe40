//! Tests of `point_rope` over its public calls: rows of points that span several runs.
#![tactic(auto)]

#[cfg(test)]
mod between;
#[cfg(test)]
mod curves;
#[cfg(test)]
mod rows;
