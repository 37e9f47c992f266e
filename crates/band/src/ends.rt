// The ends of the two sets of each question: today's run, moved by e.
ghost use Rattle.std.specs.Prelude.{◌≡◌, ◌≤◌, ◌<◌, length};
ghost use Rattle.recording.specs.Recording.{Accepted};
ghost use Rattle.recording.specs.Reading.{curve_of};
ghost use Rattle.grammar.specs.Syntax as asks;
ghost use Rattle.meaning.specs.inner.Coded.{coded};
ghost use Rattle.band.specs.Band.{widest};
ghost use Rattle.band.specs.inner.Ends as ends;
ghost use Rattle.band.specs.Call.{sets_of};

use crate::{Bands, Run};
use leaves::extremes;
use number::ORIGIN;
use runset::RunSet;

// Up to two numbers.
fn upto(certain: u32, possible: u32) -> Bands
    ensures { sets_of result ≡ ends.two_sets (ends.upto certain) (ends.upto possible) }
{
    Bands {
        certain: Some(Run {
            low: 0,
            high: certain,
        }),
        possible: Some(Run {
            low: 0,
            high: possible,
        }),
    }
}

// From two numbers on.
fn from(certain: u32, possible: u32) -> Bands
    ensures { sets_of result ≡ ends.two_sets (ends.from certain) (ends.from possible) }
{
    Bands {
        certain: Some(Run {
            low: certain,
            high: RunSet::HIGH,
        }),
        possible: Some(Run {
            low: possible,
            high: RunSet::HIGH,
        }),
    }
}

pub fn high(rec: &[u8], curve: usize, e: u32) -> Bands
    requires { Accepted rec.now × (0 < length (coded rec.now)) × (curve < 2) × (e ≤ widest) }
    ensures { sets_of result ≡ ends.bands_of (asks.high (curve_of curve)) e (coded rec.now) }
{
    let today = extremes::high(rec, curve);
    upto(today.high - e, today.high + e)
}

pub fn low(rec: &[u8], curve: usize, e: u32) -> Bands
    requires { Accepted rec.now × (0 < length (coded rec.now)) × (curve < 2) × (e ≤ widest) }
    ensures { sets_of result ≡ ends.bands_of (asks.low (curve_of curve)) e (coded rec.now) }
{
    let today = extremes::low(rec, curve);
    from(today.low + e, today.low - e)
}

// Empty where there is no record after the after-time.
pub fn lowafter(rec: &[u8], curve: usize, after: u32, e: u32) -> Bands
    requires { Accepted rec.now × (curve < 2) × (e ≤ widest) }
    ensures { sets_of result ≡ ends.bands_of (asks.lowafter (curve_of curve) after) e (coded rec.now) }
{
    let today = extremes::lowafter(rec, curve, after);
    if today.high < today.low {
        return Bands {
            certain: None,
            possible: None,
        };
    }
    from(today.low + e, today.low - e)
}

// The whole axis where there is no record after the after-time.
pub fn capafter(rec: &[u8], curve: usize, after: u32, e: u32) -> Bands
    requires { Accepted rec.now × (curve < 2) × (e ≤ widest) }
    ensures { sets_of result ≡ ends.bands_of (asks.capafter (curve_of curve) after) e (coded rec.now) }
{
    let today = extremes::capafter(rec, curve, after);
    if today.low == 0 {
        return from(0, 0);
    }
    from(today.low + e, today.low - e)
}

// A single record spreads by nothing.
pub fn ampl(rec: &[u8], curve: usize, e: u32) -> Bands
    requires { Accepted rec.now × (0 < length (coded rec.now)) × (curve < 2) × (e ≤ widest) }
    ensures { sets_of result ≡ ends.bands_of (asks.ampl (curve_of curve)) e (coded rec.now) }
{
    if rec.len() / 16 == 1 {
        return upto(ORIGIN, ORIGIN);
    }
    let today = extremes::ampl(rec, curve);
    upto(
        number::greater(today.high - 2 * e, ORIGIN),
        number::lesser(today.high + 2 * e, RunSet::HIGH),
    )
}
