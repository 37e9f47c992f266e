// A distance and its degree in binary64.
#![tactic(auto)]

ghost use Rattle.std.specs.Prelude.{◌≡◌, not, T};
ghost use Rattle.std.specs.Float.{binary64};
ghost use Rattle.std.specs.Float.Ieee.{to_bits, is_nan};
ghost use Rattle.binary64.specs.Degree.{distance_of, degree_of};

// A distance in binary64: every `u32` is exact there.
pub fn distance_of(d: u32) -> f64
    ensures { result ≡ distance_of d }
{
    d as f64
}

// 1 / (1 + d) in binary64: the conversion and the sum are exact, the division is rounded once.
pub fn degree_of(d: u32) -> f64
    ensures { result ≡ degree_of d }
{
    1.0 / (1.0 + d as f64)
}

// The bits of a number in binary64.
pub fn bits(x: f64) -> u64
    requires { T (not (is_nan x)) }
    ensures { result ≡ to_bits binary64 x }
{
    f64::to_bits(x)
}
