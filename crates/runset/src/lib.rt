// Sets of numbers of the axis, with at most MOST_RUNS runs. A number is carried as its index on the axis.
// A set lies in SLOT words that the caller lends; how, nobody above this crate knows.
#![tactic(auto)]

ghost use Rattle.std.specs.Prelude.{◌≡◌, true, false, not, ◌||◌, ◌&&◌, ◌++◌, ℕ, ◌*◌, ◌≤◌, ◌<◌, leb, length, get_or, drop};
ghost use Rattle.number.specs.Axis.{axis};
ghost use Rattle.runs.specs.Runs.{run_count, lows, highs, set_bytes};
ghost use Rattle.runs.specs.Set.{member, slot_words, shared_words, Valid, Holds, Makes, nearest_of};
ghost use Rattle.join.specs.inner.Join.{Joins};

use runs::TooManyRuns;
use slot::{CUTS, cuts_in, cuts_of, run};
pub use slot::{SHARED, SLOT};

// The sets of this crate, by what can be done with them.
#[derive(Drop)]
pub struct RunSet {}

impl RunSet {
    // The ends of the axis.
    pub const LOW: u32 = 0;

    pub const HIGH: u32 = 4_000_000_000;

    // The empty set.
    pub fn empty(set: &mut [u32])
        requires { length set.old ≡ slot_words }
        ensures { Holds (λ v. false) set.new }
    {
        set[CUTS] = 0;
    }

    // The whole axis.
    pub fn whole(set: &mut [u32])
        requires { length set.old ≡ slot_words }
        ensures { Holds (λ v. true) set.new }
    {
        RunSet::span(RunSet::LOW, RunSet::HIGH, set);
    }

    // All numbers from low to high; none where high < low.
    pub fn span(low: u32, high: u32, set: &mut [u32])
        requires { (high < axis) × (length set.old ≡ slot_words) }
        ensures { Holds (λ v. leb low v && leb v high) set.new }
    {
        if high < low {
            RunSet::empty(set);
            return;
        }
        slot::put_run(set, 0, low, high);
    }

    // The numbers from low to high more, where all members lie below low.
    pub fn add(set: &mut [u32], low: u32, high: u32) -> Result<(), TooManyRuns>
        requires { Valid set.old × ((v : ℕ) → v < axis → member set.old v ≡ true → v < low) × (low ≤ high) × (high < axis) }
        ensures { Makes (λ v. member set.old v || (leb low v && leb v high)) set.new result }
    {
        let n = cuts_in(set);
        if slot::ends_at(set, n, low) {
            set[n - 1] = high + 1;
            return Ok(());
        }
        if n == CUTS {
            return Err(TooManyRuns);
        }
        slot::put_run(set, n, low, high);
        Ok(())
    }

    // The same set.
    pub fn copy(a: &[u32], set: &mut [u32])
        requires { Valid a.now × (length set.old ≡ slot_words) }
        ensures { Holds (member a.now) set.new }
    {
        let cuts = cuts_of(a);
        slot::copy(cuts, set, 0);
        set[CUTS] = cuts.len() as u32;
    }

    // What is in a or in b, with the number of runs that were stored.
    pub fn join(a: &[u32], b: &[u32], set: &mut [u32]) -> Result<usize, TooManyRuns>
        requires { Valid a.now × Valid b.now × (length set.old ≡ slot_words) }
        ensures { Joins (λ v. member a.now v || member b.now v) set.new result }
    {
        let p = cuts_of(a);
        let q = cuts_of(b);
        if p.len() == 2 && q.len() == 2 {
            return join::of_two(p, q, set);
        }
        join::join(p, q, set)
    }

    // What is in a or in b.
    pub fn or(a: &[u32], b: &[u32], set: &mut [u32]) -> Result<(), TooManyRuns>
        requires { Valid a.now × Valid b.now × (length set.old ≡ slot_words) }
        ensures { Makes (λ v. member a.now v || member b.now v) set.new result }
    {
        RunSet::join(a, b, set)?;
        Ok(())
    }

    // What is in a and in b.
    pub fn and(a: &[u32], b: &[u32], set: &mut [u32]) -> Result<(), TooManyRuns>
        requires { Valid a.now × Valid b.now × (length set.old ≡ slot_words) }
        ensures { Makes (λ v. member a.now v && member b.now v) set.new result }
    {
        merge::intersect(cuts_of(a), cuts_of(b), set)
    }

    // The complement on the axis.
    pub fn not(a: &[u32], set: &mut [u32]) -> Result<(), TooManyRuns>
        requires { Valid a.now × (length set.old ≡ slot_words) }
        ensures { Makes (λ v. not (member a.now v)) set.new result }
    {
        merge::complement::complement(cuts_of(a), set)
    }

    // What is in q, or in p and in r. Only the result is limited: what p and r share has room in `shared`, for it is no join of two sets, but one of those
    // that are joined with q.
    pub fn or_and(
        q: &[u32],
        p: &[u32],
        r: &[u32],
        shared: &mut [u32],
        set: &mut [u32],
    ) -> Result<(), TooManyRuns>
        requires { Valid q.now × Valid p.now × Valid r.now × (length shared.old ≡ shared_words) × (length set.old ≡ slot_words) }
        ensures { Makes (λ v. member q.now v || (member p.now v && member r.now v)) set.new result }
    {
        let n = merge::run::merge(cuts_of(p), cuts_of(r), shared).unwrap();
        join::join(cuts_of(q), &shared[..n], set)?;
        Ok(())
    }

    pub fn has(set: &[u32], v: u32) -> bool
        requires { Valid set.now }
        ensures { result ≡ member set.now v }
    {
        let mut inside = false;
        for cut in cuts_of(set) {
            inside = inside != (*cut <= v);
        }
        inside
    }

    // The distance from v to the nearest member.
    pub fn distance(set: &[u32], v: u32) -> Option<u32>
        requires { Valid set.now × (v < axis) }
        ensures { result ≡ nearest_of (member set.now) v }
    {
        let mut nearest = None;
        for i in (0..RunSet::count(set)).rev() {
            let gap = run::gap(set[2 * i], set[2 * i + 1], v);
            nearest = Some(run::nearer(nearest, gap));
        }
        nearest
    }

    // The number of maximal runs.
    pub fn count(set: &[u32]) -> usize
        requires { Valid set.now }
        ensures { result ≡ run_count (member set.now) }
    {
        cuts_in(set) / 2
    }

    // The lowest and the highest number of a run.
    pub fn low(set: &[u32], run: usize) -> u32
        requires { Valid set.now × (run < run_count (member set.now)) }
        ensures { result ≡ get_or (lows (member set.now)) run 0 }
    {
        set[2 * run]
    }

    pub fn high(set: &[u32], run: usize) -> u32
        requires { Valid set.now × (run < run_count (member set.now)) }
        ensures { result ≡ get_or (highs (member set.now)) run 0 }
    {
        set[2 * run + 1] - 1
    }

    // Writes low and high of each run to the front of `out`.
    pub fn write(set: &[u32], out: &mut [u8])
        requires { Valid set.now × (8 * run_count (member set.now) ≤ length out.old) }
        ensures { out.new ≡ set_bytes (member set.now) ++ drop (length (set_bytes (member set.now))) out.old }
    {
        for i in 0..RunSet::count(set) {
            run::put_bytes(out, i, RunSet::low(set, i), RunSet::high(set, i));
        }
    }
}
