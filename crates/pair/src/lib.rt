// The pair call: the times of two tops of a curve whose distance in time is the target.
#![tactic(auto)]

ghost use Rattle.std.specs.Prelude.{◌≡◌, [], ◌∷◌, ◌/◌, ◌≤◌, ◌<◌, pos, length, take};
ghost use Rattle.number.specs.Axis.{whole};
ghost use Rattle.recording.specs.Recording.{readings, Accepted};
ghost use Rattle.refusal.specs.Outcome.{judged};
ghost use Rattle.pair.specs.Pair.{pairs_of, first_apart, first_pair, too_many_tops, accepted_lines, pair_in, outcome_of, pair_of};
ghost use Rattle.pair.specs.inner.Search.{Rising};
ghost use Rattle.recording.specs.Reading.{curve_of};

use refusal::Refusal;

// The times of two tops.
#[derive(Clone, Copy)]
pub struct TopPair {
    pub earlier: u32,
    pub later: u32,
}

// The number in 64 bits.
fn wide(x: u32) -> u64
    ensures { (result ≡ x) × (result < 4294967296) }
{
    u64::from(x)
}

// The first two of the first n times, which ascend, that differ by g: the later one is sought for each earlier one in turn, from where the search before it ended.
fn search(times: &[u32], n: usize, g: u32) -> Option<TopPair>
    requires { (n ≤ length times.now) × (0 < g) × Rising times.now n }
    ensures { pair_in result ≡ first_apart (pos g) (pairs_of (take n times.now)) }
{
    let mut i: usize = 0;
    let mut j: usize = 0;
    // The form is fixed (DECISIONS, "Forms named in 01"): two nested loops, left by a label. Both places are wanted behind it, so no range holds them.
    'earlier: while i < n {
        let sought = wide(times[i]) + wide(g);
        while j < n {
            let later = wide(times[j]);
            if later == sought {
                break 'earlier;
            }
            if sought < later {
                break;
            }
            j += 1;
        }
        i += 1;
    }
    if i < n {
        let earlier = times[i];
        let later = times[j];
        Some(TopPair { earlier, later })
    } else {
        None
    }
}

// The first two tops of a curve whose times are the number at `index` apart.
fn tops_apart(rec: &[u8], n: usize, curve: usize, index: u32) -> Result<Option<TopPair>, Refusal>
    requires { Accepted rec.now × (n ≡ length rec.now / 16) × (curve < 2) }
    ensures { outcome_of result ≡ judged (too_many_tops rec.now curve ∷ []) (first_pair (readings rec.now) (curve_of curve) (whole index)) }
{
    let mut times = [0u32; tops::MOST_TOPS];
    let count = tops::event_times(rec, n, tops::Event::Top(curve), &mut times);
    if tops::MOST_TOPS < count {
        return Err(Refusal::TooManyTops);
    }
    if index <= number::ORIGIN {
        return Ok(None);
    }
    Ok(search(&times, count, index - number::ORIGIN))
}

// The pair call on an accepted recording of n records.
fn in_accepted(rec: &[u8], n: usize, curve: u32, target: i64) -> Result<Option<TopPair>, Refusal>
    requires { Accepted rec.now × (n ≡ length rec.now / 16) }
    ensures { outcome_of result ≡ judged (accepted_lines rec.now curve target) (first_pair (readings rec.now) (curve_of curve) target) }
{
    if n == 0 {
        return Err(Refusal::NoRecord);
    }
    if 1 < curve {
        return Err(Refusal::BadTarget);
    }
    let Some(index) = targets::on_axis(target) else {
        return Err(Refusal::BadTarget);
    };
    tops_apart(rec, n, curve as usize, index)
}

// THE PAIR CALL: the times of the first two tops of the curve, 0 for A and 1 for B, whose later time minus the earlier is the target.
pub fn pair(rec: &[u8], curve: u32, target: i64) -> Result<Option<TopPair>, Refusal>
    ensures { outcome_of result ≡ pair_of rec.now curve target }
{
    let n = recording::check(rec)?;
    in_accepted(rec, n, curve, target)
}
