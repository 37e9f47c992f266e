// What two sets share, run by run; and the complement of a set.
#![tactic(auto)]

pub mod complement;
pub mod run;
pub mod walk;

ghost use Rattle.std.specs.Prelude.{◌≡◌, ◌&&◌, ◌≤◌, length};
ghost use Rattle.runs.specs.Set.{inside, slot_words, shared_words, Canonical, Makes};

use runs::TooManyRuns;
use slot::CUTS;

// What the sets of two lists of cuts share.
pub fn intersect(a: &[u32], b: &[u32], set: &mut [u32]) -> Result<(), TooManyRuns>
    requires { Canonical a.now × Canonical b.now × (length a.now ≤ shared_words) × (length b.now ≤ shared_words) × (length set.old ≡ slot_words) }
    ensures { Makes (λ v. inside a.now v && inside b.now v) set.new result }
{
    let n = run::merge(a, b, &mut set[..CUTS]).ok_or(TooManyRuns)?;
    set[CUTS] = n as u32;
    Ok(())
}
