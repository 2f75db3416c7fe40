//! The versions of a listing, which differ in their limits.

ghost use Rattle.std.specs.Prelude.{◌≡◌, pos};
ghost use Rattle.map_forms.specs.declared.version.Version.TheVariants.{One, Two};
ghost use Rattle.map_forms.specs.Version.{coordinate_of, points_of};

use tgap_model::{MAX_COORDINATE, MAX_COORDINATE_1, MAX_POINTS, MAX_POINTS_1};

/// The version of a listing, which its first line tells.
#[derive(Clone, Copy)]
pub enum Version {
    /// `tgap 1`.
    One,
    /// `tgap 2`, whose limits are those of a base map.
    Two,
}

impl Version {
    /// The greatest coordinate, in grid units; the least is its negative.
    pub fn coordinate(self) -> i64
        ensures { result ≡ coordinate_of self }
    {
        match self {
            Version::One => MAX_COORDINATE_1,
            Version::Two => MAX_COORDINATE,
        }
    }

    /// The greatest number of points over all arcs.
    pub fn points(self) -> usize
        ensures { result ≡ points_of self }
    {
        match self {
            Version::One => MAX_POINTS_1,
            Version::Two => MAX_POINTS,
        }
    }
}

/// The limits of each version as numbers: definitions read the constants, and would follow a wrong one.
pub fn versions_as_numbers()
    ensures first_coordinate { coordinate_of One ≡ pos 268435456 }
    ensures first_points { points_of One ≡ 131072 }
    ensures second_coordinate { coordinate_of Two ≡ pos 2147483648 }
    ensures second_points { points_of Two ≡ 524288 }
{}
