// The complement on the axis: a cut more or less at either end of the axis, and between them the same cuts.
ghost use Rattle.std.specs.Prelude.{◌≡◌, not, ◌≤◌, length};
ghost use Rattle.runs.specs.Set.{inside, slot_words, shared_words, Canonical, Makes};
ghost use Rattle.merge.specs.inner.Complement.{Ended};

use runs::TooManyRuns;
use slot::CUTS;

// How many cuts lie at the low end and at the high end of the axis: one or none.
#[derive(Drop)]
struct Ends {
    low: usize,
    high: usize,
}

fn ends_of(a: &[u32]) -> Ends
    requires { Canonical a.now }
    ensures { Ended a.now result }
{
    let n = a.len();
    if n == 0 {
        return Ends { low: 0, high: 0 };
    }
    Ends {
        low: usize::from(a[0] == 0),
        high: usize::from(a[n - 1] == number::AXIS),
    }
}

// The complement of the set of a list of cuts.
pub fn complement(a: &[u32], set: &mut [u32]) -> Result<(), TooManyRuns>
    requires { Canonical a.now × (length a.now ≤ shared_words) × (length set.old ≡ slot_words) }
    ensures { Makes (λ v. not (inside a.now v)) set.new result }
{
    let ends = ends_of(a);
    let from = ends.low;
    let end = a.len() - ends.high;
    let front = 1 - from;
    let back = front + (end - from);
    let all = back + (1 - ends.high);
    if CUTS < all {
        return Err(TooManyRuns);
    }
    set[0] = 0;
    slot::copy(&a[from..end], set, front);
    set[back] = number::AXIS;
    set[CUTS] = all as u32;
    Ok(())
}
