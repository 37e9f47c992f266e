// Sets of at most one run.
ghost use Rattle.std.specs.Prelude.{◌<◌, nat_le, nat_lt};
ghost use Rattle.number.specs.Axis.{axis};
ghost use Rattle.leaves.specs.inner.Span.{Spans};

use runset::RunSet;

// The numbers from low to high; none where high < low.
#[derive(Drop)]
pub struct Span {
    pub low: u32,
    pub high: u32,
}

// From low to the end of the axis.
pub fn from(low: u32) -> Span
    ensures { Spans (λ v. nat_le low v) result }
{
    Span {
        low,
        high: RunSet::HIGH,
    }
}

// Up to high.
pub fn upto(high: u32) -> Span
    requires { high < axis }
    ensures { Spans (λ v. nat_le v high) result }
{
    Span {
        low: RunSet::LOW,
        high,
    }
}

// What is below x.
pub fn below(x: u32) -> Span
    requires { x < axis }
    ensures { Spans (λ v. nat_lt v x) result }
{
    if x == 0 {
        return Span { low: 1, high: 0 };
    }
    Span {
        low: RunSet::LOW,
        high: x - 1,
    }
}
