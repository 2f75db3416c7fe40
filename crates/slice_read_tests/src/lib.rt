//! Tests of `slice_read` and of the forest below it over their public calls: the edges of two squares side by side before any
//! step, a window, and how many looks a slice takes. Slices are tested as texts of the command.
#![tactic(auto)]

#[cfg(test)]
mod forests;
#[cfg(test)]
mod looks;
#[cfg(test)]
mod maps;
#[cfg(test)]
mod squares;
#[cfg(test)]
mod windows;
