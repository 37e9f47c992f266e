// The sets of differences between times: of all pairs, of neighbours, of a later and an earlier one; and the set of the times themselves.
// A time, like every number here, is carried as its index on the axis. Differences are added in ascending order, so that a run too many is known when it comes.
#![tactic(auto)]

ghost use Rattle.std.specs.Prelude.{◌≡◌, Bool, true, IfSome, ◌&&◌, ◌||◌, ℕ, ◌+◌, ◌-◌, ◌<◌, ◌≤◌, leb, length};
ghost use Rattle.number.specs.Axis.{origin, axis};
ghost use Rattle.differences.specs.inner.Times.{Times, lags_of, gaps_of, steps_of, time_set};
ghost use Rattle.differences.specs.inner.Sweep.{window_size, Time, row_of, from, shown, Least, Under, Parts, Behind, Beyond, Seen, Found, Extends, Begins};
ghost use Rattle.runs.specs.Set.{slot_words, member, Valid, Makes};

use runs::TooManyRuns;
use runset::RunSet;

// How many numbers one sweep over the times sees.
const WINDOW: usize = 1024;

// How far off the next difference may lie for a sweep to pay.
const REACH: u32 = 32;

// Which of the WINDOW numbers from some x on are seen.
type Window = [bool; WINDOW];

// What a sweep from some x on found: no difference lies from `end` up to before `next`.
#[derive(Drop)]
struct Swept {
    end: u32,
    next: u32,
}

// The same of one time of a; and the first place of b where the difference is not under x.
#[derive(Drop)]
struct SweptRow {
    start: usize,
    end: u32,
    next: u32,
}

// The index of t - s.
fn difference(s: u32, t: u32) -> u32
    requires { Time s × Time t }
    ensures { s + result ≡ t + origin }
{
    (t - number::ORIGIN) + (2 * number::ORIGIN - s)
}

// d - x, as a place in the window.
fn place(d: u32, x: u32) -> usize
    requires { x ≤ d }
    ensures { result ≡ d - x }
{
    (d - x) as usize
}

// The first place of b, from a known one on, whose time minus s is not under x.
fn first(s: u32, b: &[u32], start: usize, x: u32) -> usize
    requires { Time s × Times b.now × (start ≤ length b.now) × Under b.now s x start }
    ensures { Parts b.now s x result }
{
    for j in start..b.len() {
        if x <= difference(s, b[j]) {
            return j;
        }
    }
    b.len()
}

// Sees the times of b minus s, from the first that is not under x up to the last in the window. Gives the place behind that.
fn see(s: u32, b: &[u32], start: usize, x: u32, w: &mut Window) -> usize
    requires { Time s × Times b.now × Parts b.now s x start × (length w.old ≡ window_size) }
    ensures { Parts b.now s (x + window_size) result × Seen (row_of s b.now) x w.old w.new }
{
    for j in start..b.len() {
        let t = place(difference(s, b[j]), x);
        if WINDOW <= t {
            return j;
        }
        w[t] = true;
    }
    b.len()
}

// The number behind the last of those that are seen, or x.
fn behind(s: u32, b: &[u32], start: usize, stop: usize, x: u32) -> u32
    requires { Time s × Times b.now × Parts b.now s x start × Parts b.now s (x + window_size) stop × (x < axis) }
    ensures { Behind b.now s x stop result }
{
    if stop <= start {
        return x;
    }
    difference(s, b[stop - 1]) + 1
}

// The time at a place of b minus s, or AXIS.
fn beyond(s: u32, b: &[u32], stop: usize) -> u32
    requires { Time s × Times b.now }
    ensures { Beyond b.now s stop result }
{
    if stop < b.len() {
        return difference(s, b[stop]);
    }
    number::AXIS
}

// The times of b minus s.
fn sweep_row(s: u32, b: &[u32], start: usize, x: u32, w: &mut Window) -> SweptRow
    requires { Time s × Times b.now × (start ≤ length b.now) × Under b.now s x start × (x < axis) × (length w.old ≡ window_size) }
    ensures { Parts b.now s x result.start × Found (row_of s b.now) x result.end result.next × Seen (row_of s b.now) x w.old w.new }
{
    let head = first(s, b, start, x);
    let stop = see(s, b, head, x, w);
    SweptRow {
        start: head,
        end: behind(s, b, head, stop, x),
        next: beyond(s, b, stop),
    }
}

// The least difference from x on of a time of b and one of a, or AXIS where there is none: one walk along both arrays.
fn least(a: &[u32], b: &[u32], x: u32) -> u32
    requires { Times a.now × Times b.now × (x ≤ axis) }
    ensures { Least (lags_of a.now b.now) x result }
{
    let mut best = number::AXIS;
    let mut i: usize = 0;
    let mut j: usize = 0;
    // Each turn moves one of two places on.
    while i < a.len() {
        if b.len() <= j {
            return best;
        }
        let d = difference(a[i], b[j]);
        if d < x {
            j += 1;
        } else {
            best = best.min(d);
            i += 1;
        }
    }
    best
}

// Pairs of times whose differences are gathered turn by turn.
trait Pairs {
    // The times ascend.
    ghost rising: { Self → Type 0 };

    // n is the index of a difference.
    ghost of: { Self → ℕ → Bool };

    // A turn may start at x.
    ghost starts: { Self → ℕ → Type 0 };

    // Where the first turn starts: no difference lies from `low` up to before it.
    fn begin(&self, low: u32) -> u32
        requires { rising self.now × (low ≤ axis) }
        ensures { Begins (of self.now) low result × (result < axis → starts self.now result) };

    // One sweep from x on.
    fn sweep(&self, x: u32, w: &mut Window) -> Swept
        requires { rising self.now × (x < axis) × (length w.old ≡ window_size) }
        ensures { Found (of self.now) x result.end result.next × Seen (of self.now) x w.old w.new };

    // The next difference after the difference x, where one walk shows that it lies far off.
    fn far(&self, x: u32) -> Option<u32>
        requires { rising self.now × (x < axis) × starts self.now x }
        ensures { IfSome result (λ next. (of self.now x ≡ true) × Least (of self.now) (x + 1) next) };

    // A turn may start at each difference.
    ghost each_starts: { (pairs : Self) (x : ℕ) → of pairs x ≡ true → starts pairs x };
}

// Every time of b minus every time of a.
#[derive(Drop)]
struct AllPairs<'a> {
    a: &'a [u32],
    b: &'a [u32],
}

// A turn starts at a difference.
impl Pairs for AllPairs<'_> {
    ghost rising = { λ pairs. Times pairs.a.now × Times pairs.b.now };

    ghost of = { λ pairs. lags_of pairs.a.now pairs.b.now };

    ghost starts = { λ pairs x. lags_of pairs.a.now pairs.b.now x ≡ true };

    fn begin(&self, low: u32) -> u32 {
        least(self.a, self.b, low)
    }

    // Over the times of a, each with those of b. No row starts at an earlier place of b than the row before.
    fn sweep(&self, x: u32, w: &mut Window) -> Swept {
        let a = self.a;
        let b = self.b;
        let mut start: usize = 0;
        let mut end = x;
        let mut next = number::AXIS;
        for i in 0..a.len() {
            let r = sweep_row(a[i], b, start, x, w);
            start = r.start;
            end = end.max(r.end);
            next = next.min(r.next);
        }
        Swept { end, next }
    }

    fn far(&self, x: u32) -> Option<u32> {
        let next = least(self.a, self.b, x + 1);
        if next <= x + REACH {
            return None;
        }
        Some(next)
    }

    ghost each_starts = { λ pairs x e. e };
}

// Every time minus the time before it.
#[derive(Drop)]
struct Neighbours<'a> {
    t: &'a [u32],
}

// A turn starts anywhere, and none is short.
impl Pairs for Neighbours<'_> {
    ghost rising = { λ pairs. Times pairs.t.now };

    ghost of = { λ pairs. steps_of pairs.t.now };

    ghost starts = { λ pairs x. Unit {0} };

    fn begin(&self, low: u32) -> u32 {
        low
    }

    fn sweep(&self, x: u32, w: &mut Window) -> Swept {
        let t = self.t;
        let mut end = x;
        let mut next = number::AXIS;
        for i in 1..t.len() {
            let r = sweep_row(t[i - 1], &t[i..i + 1], 0, x, w);
            end = end.max(r.end);
            next = next.min(r.next);
        }
        Swept { end, next }
    }

    fn far(&self, _x: u32) -> Option<u32> {
        None
    }

    ghost each_starts = { λ pairs x e. tt };
}

// The number d more, where it is seen.
fn add_seen(seen: bool, d: u32, set: &mut [u32]) -> Result<(), TooManyRuns>
    requires { Valid set.old × ((v : ℕ) → v < axis → member set.old v ≡ true → v < d) × (d < axis) }
    ensures { Makes (λ v. member set.old v || (seen && (leb d v && leb v d))) set.new result }
{
    if seen {
        return RunSet::add(set, d, d);
    }
    Ok(())
}

// The seen numbers from x up to before `end` more.
fn add_all(w: &Window, x: u32, end: u32, set: &mut [u32]) -> Result<(), TooManyRuns>
    requires { Valid set.old × ((v : ℕ) → v < axis → member set.old v ≡ true → v < x) × (x ≤ end) × (end ≤ x + window_size) × (end ≤ axis) }
    ensures { Makes (λ v. member set.old v || shown w.now x end v) set.new result }
{
    for d in x..end {
        let t = place(d, x);
        add_seen(w[t], d, set)?;
    }
    Ok(())
}

// The differences from x up to before the next turn's start, which it gives, more: one sweep.
fn add_window<P: Pairs>(pairs: &P, x: u32, set: &mut [u32]) -> Result<u32, TooManyRuns>
    requires { P.rising pairs.now × (x < axis) × Valid set.old × ((v : ℕ) → v < axis → member set.old v ≡ true → v < x) }
    ensures { Extends (P.of pairs.now) x set.old set.new result }
{
    let mut w = [false; WINDOW];
    let s = pairs.sweep(x, &mut w);
    add_all(&w, x, s.end, set)?;
    Ok(s.next)
}

// The same, but x alone where the next difference lies far off.
fn add_from<P: Pairs>(pairs: &P, x: u32, set: &mut [u32]) -> Result<u32, TooManyRuns>
    requires { P.rising pairs.now × (x < axis) × Valid set.old × ((v : ℕ) → v < axis → member set.old v ≡ true → v < x)
        × P.starts pairs.now x }
    ensures { Extends (P.of pairs.now) x set.old set.new result }
{
    if let Some(next) = pairs.far(x) {
        RunSet::add(set, x, x)?;
        return Ok(next);
    }
    add_window(pairs, x, set)
}

// The set of the differences from `low` on, turn by turn.
fn collect<P: Pairs>(pairs: &P, low: u32, set: &mut [u32]) -> Result<(), TooManyRuns>
    requires { P.rising pairs.now × (low ≤ axis) × (length set.old ≡ slot_words) }
    ensures { Makes (from low (P.of pairs.now)) set.new result }
{
    RunSet::empty(set);
    let mut x = pairs.begin(low);
    // A turn goes on to the next difference, however far off.
    while x < number::AXIS {
        x = add_from(pairs, x, set)?;
    }
    Ok(())
}

// `lag`: a time of b minus a time of a, any pair.
pub fn lags(a: &[u32], b: &[u32], set: &mut [u32]) -> Result<(), TooManyRuns>
    requires { Times a.now × Times b.now × (length set.old ≡ slot_words) }
    ensures { Makes (lags_of a.now b.now) set.new result }
{
    collect(&AllPairs { a, b }, 0, set)
}

// `gaps`: a later time minus an earlier one.
pub fn gaps(t: &[u32], set: &mut [u32]) -> Result<(), TooManyRuns>
    requires { Times t.now × (length set.old ≡ slot_words) }
    ensures { Makes (gaps_of t.now) set.new result }
{
    collect(&AllPairs { a: t, b: t }, number::ORIGIN + 1, set)
}

// `steps`: a time minus the time before it.
pub fn steps(t: &[u32], set: &mut [u32]) -> Result<(), TooManyRuns>
    requires { Times t.now × (length set.old ≡ slot_words) }
    ensures { Makes (steps_of t.now) set.new result }
{
    collect(&Neighbours { t }, 0, set)
}

// `peaks` and `cross`: the times themselves.
pub fn time_set(t: &[u32], set: &mut [u32]) -> Result<(), TooManyRuns>
    requires { Times t.now × (length set.old ≡ slot_words) }
    ensures { Makes (time_set t.now) set.new result }
{
    RunSet::empty(set);
    for &at in t {
        RunSet::add(set, at, at)?;
    }
    Ok(())
}
