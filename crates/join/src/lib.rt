// Joining two sets: each run of the result is stored once, where it belongs, when it closes.
#![tactic(auto)]

ghost use Rattle.std.specs.Prelude.{◌≡◌, ◌||◌, ◌+◌, ◌*◌, ◌≤◌, ◌<◌, length};
ghost use Rattle.number.specs.Axis.{axis};
ghost use Rattle.runs.specs.Runs.{most_runs};
ghost use Rattle.runs.specs.Set.{inside, slot_words, shared_words, Canonical};
ghost use Rattle.join.specs.inner.Join.{Rest, Next, Reached, with_run, Appended, Open, opened, Joins};

use runs::{MOST_RUNS, TooManyRuns};
use slot::CUTS;

// A run, the numbers from low on and before end, and the places behind it in both lists.
#[derive(Drop)]
struct Head {
    low: u32,
    end: u32,
    i: usize,
    j: usize,
}

// How far an open run goes, and the place behind what it took of a list.
#[derive(Drop)]
struct Reach {
    end: u32,
    i: usize,
}

// Of the runs from place i of a and from place j of b on the one that begins first.
fn next(a: &[u32], i: usize, b: &[u32], j: usize) -> Head
    requires { Rest 0 a.now i × Rest 0 b.now j × (i + j < length a.now + length b.now) × (length a.now ≤ shared_words) × (length b.now ≤ shared_words) }
    ensures { Next a.now i b.now j result }
{
    if i == a.len() {
        return Head {
            low: b[j],
            end: b[j + 1],
            i,
            j: j + 2,
        };
    }
    if j == b.len() {
        return Head {
            low: a[i],
            end: a[i + 1],
            i: i + 2,
            j,
        };
    }
    if a[i] < b[j] {
        return Head {
            low: a[i],
            end: a[i + 1],
            i: i + 2,
            j,
        };
    }
    Head {
        low: b[j],
        end: b[j + 1],
        i,
        j: j + 2,
    }
}

// Stores a run as run number `at`, and counts the store: no other function writes a run of the result. `at` runs were stored before it.
fn store(set: &mut [u32], at: usize, low: u32, end: u32, stores: &mut usize)
    requires { (length set.old ≡ slot_words) × (at < most_runs) × (stores.old ≡ at) }
    ensures { (set.new ≡ with_run set.old at low end) × (stores.new ≡ stores.old + 1) }
{
    set[2 * at] = low;
    set[2 * at + 1] = end;
    *stores += 1;
}

// Closes a run: it is stored once.
fn close(set: &mut [u32], at: usize, run: Head, stores: &mut usize)
    requires { (length set.old ≡ slot_words) × (at < most_runs) × (stores.old ≡ at) }
    ensures { (set.new ≡ with_run set.old at run.low run.end) × (stores.new ≡ stores.old + 1) }
{
    store(set, at, run.low, run.end, stores);
}

// What an open run that goes up to `end` becomes by the runs of l from place i on that meet it.
fn extend(l: &[u32], i: usize, end: u32) -> Reach
    requires { Rest 0 l.now i × (end ≤ axis) × (length l.now ≤ shared_words) }
    ensures { Reached l.now i end result }
{
    let mut at = i;
    let mut far = end;
    // Two cuts at a time, up to the one that does not meet: the place where it stops is wanted.
    while at < l.len() {
        if far < l[at] {
            return Reach { end: far, i: at };
        }
        far = number::greater(far, l[at + 1]);
        at += 2;
    }
    Reach { end: far, i: at }
}

// Stores what is left of l from place i on, as it is, behind n stored runs.
fn append(l: &[u32], i: usize, set: &mut [u32], n: usize, stores: &mut usize)
    requires { Rest 0 l.now i × (length set.old ≡ slot_words) × (length l.now ≤ shared_words) × (2 * n + length l.now ≤ 2 * most_runs + i) × (stores.old ≡ n) }
    ensures { Appended l.now i set.old n set.new stores.new }
{
    let mut from = i;
    let mut at = n;
    // Two cuts at a time: `step_by` would test each step besides.
    while from < l.len() {
        store(set, at, l[from], l[from + 1], stores);
        from += 2;
        at += 1;
    }
}

// The joining from where one list is at its end: the open run takes what meets it of the other, l, and the rest of l is stored as it is.
fn finish(
    l: &[u32],
    i: usize,
    low: u32,
    end: u32,
    set: &mut [u32],
    n: usize,
    stores: usize,
) -> Result<usize, TooManyRuns>
    requires { Open set.old n low end l.now i × (length l.now ≤ shared_words) × (stores ≡ n) }
    ensures { Joins (opened set.old n low end l.now i) set.new result }
{
    let run = extend(l, i, end);
    let all = 2 * n + 2 + (l.len() - run.i);
    if CUTS < all {
        return Err(TooManyRuns);
    }
    let mut count = stores;
    store(set, n, low, run.end, &mut count);
    append(l, run.i, set, n + 1, &mut count);
    set[CUTS] = all as u32;
    Ok(count)
}

// What is in a or in b, with the number of runs that were stored.
pub fn join(a: &[u32], b: &[u32], set: &mut [u32]) -> Result<usize, TooManyRuns>
    requires { Canonical a.now × Canonical b.now × (length a.now ≤ shared_words) × (length b.now ≤ shared_words) × (length set.old ≡ slot_words) }
    ensures { Joins (λ v. inside a.now v || inside b.now v) set.new result }
{
    if a.len() + b.len() == 0 {
        set[CUTS] = 0;
        return Ok(0);
    }
    let mut run = next(a, 0, b, 0);
    let mut n: usize = 0;
    let mut stores: usize = 0;
    // Two places that move apart.
    while run.i < a.len() {
        if run.j == b.len() {
            return finish(a, run.i, run.low, run.end, set, n, stores);
        }
        let r = next(a, run.i, b, run.j);
        if r.low <= run.end {
            let low = run.low;
            let end = number::greater(run.end, r.end);
            run = Head {
                low,
                end,
                i: r.i,
                j: r.j,
            };
        } else {
            if n == MOST_RUNS {
                return Err(TooManyRuns);
            }
            close(set, n, run, &mut stores);
            n += 1;
            run = r;
        }
    }
    finish(b, run.j, run.low, run.end, set, n, stores)
}

// The same of two sets of one run each, at once.
pub fn of_two(a: &[u32], b: &[u32], set: &mut [u32]) -> Result<usize, TooManyRuns>
    requires { Canonical a.now × Canonical b.now × (length a.now ≡ 2) × (length b.now ≡ 2) × (length set.old ≡ slot_words) }
    ensures { Joins (λ v. inside a.now v || inside b.now v) set.new result }
{
    let run = next(a, 0, b, 0);
    let r = next(a, run.i, b, run.j);
    let mut stores: usize = 0;
    if r.low <= run.end {
        store(
            set,
            0,
            run.low,
            number::greater(run.end, r.end),
            &mut stores,
        );
        set[CUTS] = 2;
        return Ok(stores);
    }
    close(set, 0, run, &mut stores);
    close(set, 1, r, &mut stores);
    set[CUTS] = 4;
    Ok(stores)
}
