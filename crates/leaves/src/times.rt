// The sets of the listed questions on times: of events, of additions, and of the differences between tops.
ghost use Rattle.std.specs.Prelude.{◌≡◌, ◌<◌, ◌≤◌, ◌||◌, length};
ghost use Rattle.recording.specs.Recording.{Accepted};
ghost use Rattle.grammar.specs.Syntax as asks;
ghost use Rattle.meaning.specs.inner.Coded.{coded_times, coded_additions};
ghost use Rattle.tops.specs.Tops.{most_tops};
ghost use Rattle.meaning.specs.inner.Truth.{truth, many_tops};
ghost use Rattle.runs.specs.Set.{slot_words, Makes};
ghost use Rattle.meaning.specs.inner.Coded.{coded};
ghost use Rattle.leaves.specs.inner.Leaf.{times_of};
ghost use Rattle.leaves.specs.inner.Indices.{Early, Shifted, Indexed};
ghost use Rattle.leaves.specs.inner.Differing.{FewIndexed, Differs};
ghost use Rattle.recording.specs.Reading.{a_top, curve_of};
ghost use Rattle.tops.specs.inner.Events.{event_of, Known};

use crate::TooMany;
use runs::TooManyRuns;
use tops::Event;

// The most events of one kind: half of the records.
const MOST_EVENTS: usize = recording::MOST_RECORDS / 2;

// Shifts the first n times to their indices on the axis.
fn shift(times: &mut [u32], n: usize)
    requires { (n ≤ length times.old) × Early n times.old }
    ensures { Shifted n times.old times.new }
{
    for k in 0..n {
        times[k] += number::ORIGIN;
    }
}

// The times of an event, as indices.
fn event_indices(rec: &[u8], event: Event, times: &mut [u32]) -> usize
    requires { Accepted rec.now × Known event × (length (coded_times (event_of event) (coded rec.now)) ≤ length times.old) }
    ensures { Indexed (coded_times (event_of event) (coded rec.now)) result times.new }
{
    let n = tops::event_times(rec, rec.len() / 16, event, times);
    shift(times, n);
    n
}

// `peaks`, `dips`, `cross` and `crossup`.
pub fn events(rec: &[u8], event: Event, set: &mut [u32]) -> Result<(), TooManyRuns>
    requires { Accepted rec.now × Known event × (length set.old ≡ slot_words) }
    ensures { Makes (λ v. truth (times_of (event_of event)) (coded rec.now) v) set.new result }
{
    let mut times = [0u32; MOST_EVENTS];
    let n = event_indices(rec, event, &mut times);
    differences::time_set(&times[..n], set)
}

// The times of the additions of a pigment, as indices. Written out beside those of an event: with the scan as a parameter, the contract
// would be longer than both.
fn addition_indices(rec: &[u8], k: u32, times: &mut [u32]) -> usize
    requires { Accepted rec.now × (length (coded_additions k (coded rec.now)) ≤ length times.old) }
    ensures { Indexed (coded_additions k (coded rec.now)) result times.new }
{
    let n = tops::addition_times(rec, rec.len() / 16, k, times);
    shift(times, n);
    n
}

// `dose`.
pub fn additions(rec: &[u8], k: u32, set: &mut [u32]) -> Result<(), TooManyRuns>
    requires { Accepted rec.now × (length set.old ≡ slot_words) }
    ensures { Makes (λ v. truth (asks.dose k) (coded rec.now) v) set.new result }
{
    let mut times = [0u32; recording::MOST_RECORDS];
    let n = addition_indices(rec, k, &mut times);
    differences::time_set(&times[..n], set)
}

// The times of the tops of a curve, as indices, if they are few enough for differences.
fn top_indices(rec: &[u8], curve: usize, times: &mut [u32]) -> Result<usize, TooMany>
    requires { Accepted rec.now × (curve < 2) × (length times.old ≡ most_tops) }
    ensures { FewIndexed (coded_times (a_top (curve_of curve)) (coded rec.now)) result times.new }
{
    let n = tops::event_times(rec, rec.len() / 16, Event::Top(curve), times);
    if tops::MOST_TOPS < n {
        return Err(TooMany::Tops);
    }
    shift(times, n);
    Ok(n)
}

pub fn gaps(rec: &[u8], curve: usize, set: &mut [u32]) -> Result<(), TooMany>
    requires { Accepted rec.now × (curve < 2) × (length set.old ≡ slot_words) }
    ensures { Differs (many_tops (curve_of curve) (coded rec.now)) (λ v. truth (asks.gaps (curve_of curve)) (coded rec.now) v) set.new result }
{
    let mut times = [0u32; tops::MOST_TOPS];
    let n = top_indices(rec, curve, &mut times)?;
    differences::gaps(&times[..n], set)?;
    Ok(())
}

// Written out beside `gaps`: with the differences as a parameter, the contract would be longer than both.
pub fn steps(rec: &[u8], curve: usize, set: &mut [u32]) -> Result<(), TooMany>
    requires { Accepted rec.now × (curve < 2) × (length set.old ≡ slot_words) }
    ensures { Differs (many_tops (curve_of curve) (coded rec.now)) (λ v. truth (asks.steps (curve_of curve)) (coded rec.now) v) set.new result }
{
    let mut times = [0u32; tops::MOST_TOPS];
    let n = top_indices(rec, curve, &mut times)?;
    differences::steps(&times[..n], set)?;
    Ok(())
}

pub fn lag(rec: &[u8], set: &mut [u32]) -> Result<(), TooMany>
    requires { Accepted rec.now × (length set.old ≡ slot_words) }
    ensures { Differs (many_tops (curve_of 0) (coded rec.now) || many_tops (curve_of 1) (coded rec.now)) (λ v. truth asks.lag (coded rec.now) v) set.new result }
{
    let mut a = [0u32; tops::MOST_TOPS];
    let m = top_indices(rec, 0, &mut a)?;
    let mut b = [0u32; tops::MOST_TOPS];
    let n = top_indices(rec, 1, &mut b)?;
    differences::lags(&a[..m], &b[..n], set)?;
    Ok(())
}
