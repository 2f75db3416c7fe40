//! The limits of a base map and of a map file.

ghost use Rattle.std.specs.Prelude.{◌≡◌, pos};
ghost use Rattle.tgap_model.specs.declared.limits.TheConstants.{MAX_ARCS, MAX_CLASSES, MAX_COMPATIBILITY, MAX_COORDINATE, MAX_COORDINATE_1, MAX_FACES, MAX_MAP_BYTES, MAX_POINTS, MAX_POINTS_1, MAX_RATIO, MAX_TEXT_BYTES, MAX_WEIGHT};

/// The greatest coordinate, in grid units; the least is its negative.
pub const MAX_COORDINATE: i64 = 2_147_483_648;

/// The greatest coordinate in a listing of version 1.
pub const MAX_COORDINATE_1: i64 = 268_435_456;

/// The greatest number of points over all arcs.
pub const MAX_POINTS: usize = 524_288;

/// The greatest number of points over all arcs in a listing of version 1.
pub const MAX_POINTS_1: usize = 131_072;

/// The greatest number of arcs.
pub const MAX_ARCS: usize = 65_536;

/// The greatest number of faces.
pub const MAX_FACES: usize = 32_768;

/// The greatest number of classes.
pub const MAX_CLASSES: usize = 256;

/// The greatest weight of a class; the least is 1.
pub const MAX_WEIGHT: u32 = 65_535;

/// The greatest compatibility of two classes.
pub const MAX_COMPATIBILITY: u32 = 1_000;

/// The greatest ratio of the vertex removal.
pub const MAX_RATIO: u32 = 65_535;

/// The greatest length of a map file, in bytes.
pub const MAX_MAP_BYTES: u64 = 16_777_216;

/// The greatest length of a slice file or a packet file, in bytes.
pub const MAX_TEXT_BYTES: u64 = 67_108_864;

/// The limits as numbers: definitions read the constants, and would follow a wrong one.
pub fn limits_as_numbers()
    ensures coordinate { MAX_COORDINATE ≡ pos 2147483648 }
    ensures first_coordinate { MAX_COORDINATE_1 ≡ pos 268435456 }
    ensures points { MAX_POINTS ≡ 524288 }
    ensures first_points { MAX_POINTS_1 ≡ 131072 }
    ensures arcs { MAX_ARCS ≡ 65536 }
    ensures faces { MAX_FACES ≡ 32768 }
    ensures classes { MAX_CLASSES ≡ 256 }
    ensures weight { MAX_WEIGHT ≡ 65535 }
    ensures compatibility { MAX_COMPATIBILITY ≡ 1000 }
    ensures ratio { MAX_RATIO ≡ 65535 }
    ensures map_bytes { MAX_MAP_BYTES ≡ 16777216 }
    ensures text_bytes { MAX_TEXT_BYTES ≡ 67108864 }
{}
