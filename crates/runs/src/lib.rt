// Sets of numbers of the axis, by their maximal runs: what they are and what holds of them. A number is carried as its index on the axis.
#![tactic(auto)]

ghost use Rattle.std.specs.Prelude.{◌≡◌};
ghost use Rattle.refusal.specs.declared.Refusal.{Refusal};

use refusal::Refusal;

// The most runs of a set.
pub const MOST_RUNS: usize = 256;

// A set would have more than MOST_RUNS runs.
#[derive(Clone, Copy, Debug, PartialEq, Eq)]
pub struct TooManyRuns;

impl From<TooManyRuns> for Refusal {
    ghost from_gives = { λ _ r. r ≡ Refusal.TooManyRuns };

    fn from(_e: TooManyRuns) -> Refusal {
        Refusal::TooManyRuns
    }
}
