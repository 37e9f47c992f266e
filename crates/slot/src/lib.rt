// How a set lies in words that are lent: its cuts, and one run of it.
#![tactic(auto)]

pub mod run;

ghost use Rattle.std.specs.Prelude.{◌≡◌, true, false, ◌++◌, ◌+◌, ◌-◌, ◌*◌, ◌≤◌, ◌<◌, length, take, drop, get_or, set};
ghost use Rattle.number.specs.Axis.{axis};
ghost use Rattle.runs.specs.Runs.{most_runs};
ghost use Rattle.runs.specs.Set.{cuts_of, slot_words, Valid};

use runs::MOST_RUNS;

// The most cuts of a set: two for each run.
pub const CUTS: usize = 2 * MOST_RUNS;

// The words of a set: room for its cuts, and behind it their number. The cuts ascend: the run low..high has the cuts low and high + 1.
pub const SLOT: usize = CUTS + 1;

// The words that `or_and` is lent for what two sets share.
pub const SHARED: usize = 2 * CUTS;

// The number of cuts.
pub fn cuts_in(set: &[u32]) -> usize
    requires { length set.now ≡ slot_words }
    ensures { result ≡ get_or set.now (2 * most_runs) 0 }
{
    set[CUTS] as usize
}

// The cuts.
pub fn cuts_of(set: &[u32]) -> &[u32]
    requires { Valid set.now }
    ensures { result.now ≡ cuts_of set.now }
{
    let n = cuts_in(set);
    &set[..n]
}

// Whether the last of n cuts is at low.
pub fn ends_at(set: &[u32], n: usize, low: u32) -> bool
    requires { n ≤ length set.now }
    ensures { (result ≡ true → (0 < n) × (get_or set.now (n - 1) 0 ≡ low)) × (result ≡ false → 0 < n → get_or set.now (n - 1) 0 ≡ low → ⊥) }
{
    0 < n && set[n - 1] == low
}

// Puts the run low..high behind the first n cuts, and counts its two cuts.
pub fn put_run(words: &mut [u32], n: usize, low: u32, high: u32)
    requires { (length words.old ≡ slot_words) × (n + 2 ≤ 2 * most_runs) × (high < axis) }
    ensures { words.new ≡ set (set (set words.old n low) (n + 1) (high + 1)) (2 * most_runs) (n + 2) }
{
    words[n] = low;
    words[n + 1] = high + 1;
    words[CUTS] = (n + 2) as u32;
}

// Copies words over others, from `at` on.
pub fn copy(from: &[u32], to: &mut [u32], at: usize)
    requires { at + length from.now ≤ length to.old }
    ensures { to.new ≡ take at to.old ++ (from.now ++ drop (at + length from.now) to.old) }
{
    // `copy_from_slice` calls memmove; the archive needs memcpy and memset alone.
    for i in 0..from.len() {
        to[at + i] = from[i];
    }
}
