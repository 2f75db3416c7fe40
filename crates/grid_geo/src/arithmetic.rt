//! Differences and products in 128 bits.

ghost use Rattle.std.specs.Prelude.{◌≡◌, ◌<◌, ◌≤◌, ◌+◌, ◌*◌, ◌^◌, ◌-ℤ◌, ◌*ℤ◌, unsigned_abs};
ghost use Rattle.tgap_model.specs.Bounds.{max_difference};
ghost use Rattle.grid_geo.specs.Sizes.{max_height};

/// The product of a number, a height at most, and a coordinate or the difference of two.
pub fn product(a: i128, b: i64) -> i128
    requires first { unsigned_abs a ≤ max_height }
    requires second { unsigned_abs b ≤ max_difference }
    ensures value { result ≡ a *ℤ b }
    ensures size { unsigned_abs result ≤ unsigned_abs a * max_difference }
{
    a * i128::from(b)
}

/// The difference of two numbers.
pub fn difference(a: i128, b: i128) -> i128
    requires { unsigned_abs a + unsigned_abs b < 2 ^ 127 }
    ensures value { result ≡ a -ℤ b }
    ensures size { unsigned_abs result ≤ unsigned_abs a + unsigned_abs b }
{
    a - b
}
