// What a call answers, as the number that it returns and the places that it leaves to its caller.
#![tactic(auto)]

ghost use Rattle.std.specs.Prelude.{◌≡◌};
ghost use Rattle.band.specs.Call.{part_of};
ghost use Rattle.band.specs.Call.{outcome_of as bandsIn};
ghost use Rattle.band.specs.inner.OnAxis.{EndsOnAxis};
ghost use Rattle.degree.specs.Degree.{outcome_of as valueIn};
ghost use Rattle.pair.specs.Pair.{outcome_of as pairIn};
ghost use Rattle.sheet.specs.Call.{outcome_of as findingIn};
ghost use Rattle.reply.specs.Reply.{InHalf};
ghost use Rattle.boundary.specs.Boundary.{Degrees, value_told, Pairs, pair_told, InBands, band_told, filled, low_after, high_after, Orders, finding_told};
ghost use Rattle.boundary.specs.inner.Fits.{NumbersIn, EndsIn};

use band::{Bands, Run};
use degree::Nearness;
use pair::TopPair;
use refusal::Refusal;
use sheet::Breach;

// 0 where the target is met, 1 where it is missed and its distance and degree are written, 2 where there is no value, or the refusal.
pub fn tell_degree(near: Result<Nearness, Refusal>, distance: &mut u64, degree: &mut u64) -> u64
    requires { InHalf (value_told (valueIn near)) × NumbersIn (valueIn near) }
    ensures { Degrees (valueIn near) distance.old degree.old result distance.new degree.new }
{
    match near {
        Ok(Nearness::Met) => 0,
        Ok(Nearness::Short(d, k)) => {
            *distance = binary64::bits(d);
            *degree = binary64::bits(k);
            1
        }
        Ok(Nearness::NoValue) => 2,
        Err(x) => reply::refused(x),
    }
}

// 1 where the times of a pair are written, 0 where there is none, or the refusal.
pub fn tell_pair(found: Result<Option<TopPair>, Refusal>, earlier: &mut u32, later: &mut u32) -> u64
    requires { InHalf (pair_told (pairIn found)) }
    ensures { Pairs (pairIn found) earlier.old later.old result earlier.new later.new }
{
    match found {
        Ok(Some(tops)) => {
            *earlier = tops.earlier;
            *later = tops.later;
            1
        }
        Ok(None) => 0, // no pair fits
        Err(x) => reply::refused(x),
    }
}

// Writes the ends of a set that is not empty, each by its 32 bits. Returns 1 where it is not empty, else 0.
fn put_ends(part: Option<Run>, low: &mut u32, high: &mut u32) -> u64
    requires { EndsOnAxis (part_of part) }
    ensures { (result ≡ filled (part_of part)) × (low.new ≡ low_after (part_of part) low.old) × (high.new ≡ high_after (part_of part) high.old) }
{
    match part {
        None => 0,
        Some(run) => {
            *low = number::bits_at(run.low);
            *high = number::bits_at(run.high);
            1
        }
    }
}

// A bit for each of the two sets that is not empty, whose ends are then written, or the refusal.
pub fn tell_bands(
    answer: Result<Bands, Refusal>,
    certain_low: &mut u32,
    certain_high: &mut u32,
    possible_low: &mut u32,
    possible_high: &mut u32,
) -> u64
    requires { InHalf (band_told (bandsIn answer)) × EndsIn (bandsIn answer) }
    ensures { InBands (bandsIn answer) certain_low.old certain_high.old possible_low.old possible_high.old result certain_low.new certain_high.new possible_low.new possible_high.new }
{
    match answer {
        Ok(b) => {
            let certain = b.certain;
            let possible = b.possible;
            let first = put_ends(certain, certain_low, certain_high);
            let second = put_ends(possible, possible_low, possible_high);
            first + 2 * second
        }
        Err(x) => reply::refused(x),
    }
}

// 0 where every line of the sheet is met, 1 where one is broken and the time and the line are written, or the refusal.
pub fn tell_order(found: Result<Option<Breach>, Refusal>, time: &mut u32, line: &mut u32) -> u64
    requires { InHalf (finding_told (findingIn found)) }
    ensures { Orders (findingIn found) time.old line.old result time.new line.new }
{
    match found {
        Ok(None) => 0, // every line is met
        Ok(Some(breach)) => {
            *time = breach.time;
            *line = breach.line;
            1
        }
        Err(x) => reply::refused(x),
    }
}
