// Sets on bytes, for tests and measurements from outside.
#![tactic(auto)]

ghost use Rattle.std.specs.Prelude.{◌≡◌, ◌+◌, ◌≤◌, false, ◌||◌, length};
ghost use Rattle.runs.specs.Set.{slot_words, shared_words, member, Valid, Makes};
ghost use Rattle.runset_c.specs.Bytes.{index_at, set_of, unfit, unfit_any, chosen, asked, reply_of, output_of, member_reply, distance_reply, repeat_reply, stores_reply};
ghost use Rattle.runset_c.specs.Promises.{Extended, Loaded, Delivered};
ghost use Rattle.std.specs.Result.{is_err};

use runs::TooManyRuns;
use runset::{RunSet, SHARED, SLOT};

// How far the indices lie below offset binary.
const SHIFT: u32 = 147_483_648;

// The index of the number that stands at `at`; AXIS where it is off the axis.
fn index_at(s: &[u8], at: usize) -> u32
    requires { at + 4 ≤ length s.now }
    ensures { result ≡ index_at s.now at }
{
    let t = number::offset_binary(number::word_at(s, at));
    if t < SHIFT {
        return number::AXIS;
    }
    (t - SHIFT).min(number::AXIS)
}

// The bytes hold no set: a run ends off the axis, or there are too many runs.
#[derive(Drop)]
struct Unfit;

impl From<TooManyRuns> for Unfit {
    fn from(_e: TooManyRuns) -> Unfit {
        Unfit
    }
}

// One run more in the set.
fn with_run(set: &mut [u32], low: u32, high: u32) -> Result<(), Unfit>
    requires { Valid set.old }
    ensures { Extended set.old low high set.new (is_err result) }
{
    if number::AXIS <= high {
        return Err(Unfit);
    }
    let mut run = [0u32; SLOT];
    let mut next = [0u32; SLOT];
    RunSet::span(low, high, &mut run);
    RunSet::or(set, &run, &mut next)?;
    RunSet::copy(&next, set);
    Ok(())
}

// The set of the runs that stand in the bytes.
fn load(s: &[u8], set: &mut [u32]) -> Result<(), Unfit>
    requires { length set.old ≡ slot_words }
    ensures { Loaded s.now set.new (is_err result) }
{
    RunSet::empty(set);
    for i in 0..s.len() / 8 {
        let low = index_at(s, 8 * i);
        let high = index_at(s, 8 * i + 4);
        with_run(set, low, high)?;
    }
    Ok(())
}

// What the operation makes of the sets.
fn combine(
    op: u32,
    a: &[u32],
    b: &[u32],
    c: &[u32],
    shared: &mut [u32],
    set: &mut [u32],
) -> Result<(), TooManyRuns>
    requires { Valid a.now × Valid b.now × Valid c.now × (length shared.old ≡ shared_words) × (length set.old ≡ slot_words) }
    ensures { Makes (chosen op (member a.now) (member b.now) (member c.now)) set.new result }
{
    if op == 0 {
        return RunSet::or(a, b, set);
    }
    if op == 1 {
        return RunSet::and(a, b, set);
    }
    if op == 2 {
        return RunSet::not(a, set);
    }
    RunSet::or_and(a, b, c, shared, set)
}

// Writes the set, if one was made and there is room for it.
fn deliver(made: Result<(), TooManyRuns>, set: &[u32], out: &mut [u8]) -> u32
    requires { is_err made ≡ false → Valid set.now }
    ensures { Delivered set.now made out.old out.new result }
{
    if made.is_err() {
        return 4_294_967_294;
    }
    let n = RunSet::count(set);
    if out.len() < 8 * n {
        return 4_294_967_293;
    }
    RunSet::write(set, out);
    n as u32
}

#[unsafe(no_mangle)]
pub extern "C" fn runset_combine(op: u32, a: &[u8], b: &[u8], c: &[u8], out: &mut [u8]) -> u32
    ensures { (result ≡ reply_of (unfit_any a.now b.now c.now) (asked op a.now b.now c.now) (length out.old)) × (out.new ≡ output_of (unfit_any a.now b.now c.now) (asked op a.now b.now c.now) out.old) }
{
    let mut p = [0u32; SLOT];
    if load(a, &mut p).is_err() {
        return 4_294_967_295;
    }
    let mut q = [0u32; SLOT];
    if load(b, &mut q).is_err() {
        return 4_294_967_295;
    }
    let mut r = [0u32; SLOT];
    if load(c, &mut r).is_err() {
        return 4_294_967_295;
    }
    let mut shared = [0u32; SHARED];
    let mut set = [0u32; SLOT];
    let made = combine(op, &p, &q, &r, &mut shared, &mut set);
    deliver(made, &set, out)
}

#[unsafe(no_mangle)]
pub extern "C" fn runset_has(a: &[u8], v: u32) -> u32
    ensures { result ≡ member_reply (unfit a.now) (set_of a.now) v }
{
    let mut set = [0u32; SLOT];
    if load(a, &mut set).is_err() {
        return 2;
    }
    if number::AXIS <= v {
        return 3;
    }
    if RunSet::has(&set, v) {
        return 1;
    }
    0
}

#[unsafe(no_mangle)]
pub extern "C" fn runset_distance(a: &[u8], v: u32) -> u32
    ensures { result ≡ distance_reply (unfit a.now) (set_of a.now) v }
{
    let mut set = [0u32; SLOT];
    if load(a, &mut set).is_err() {
        return 4_294_967_295;
    }
    if number::AXIS <= v {
        return 4_294_967_294;
    }
    RunSet::distance(&set, v).unwrap_or(number::AXIS)
}

// A sum of lows of what the operation makes, each picked by the sum before it; the operation is done anew for each.
fn repeated(op: u32, a: &[u32], b: &[u32], c: &[u32], times: u64) -> u64
    requires { Valid a.now × Valid b.now × Valid c.now }
    ensures { result ≡ repeat_reply false (chosen op (member a.now) (member b.now) (member c.now)) times }
{
    let mut shared = [0u32; SHARED];
    let mut set = [0u32; SLOT];
    let mut total: u64 = 0;
    for _i in 0..times {
        if combine(op, a, b, c, &mut shared, &mut set).is_err() {
            return 0;
        }
        let n = RunSet::count(&set);
        if n == 0 {
            return 0;
        }
        let k = total % (n as u64);
        let low = RunSet::low(&set, k as usize);
        total = total.wrapping_add(u64::from(low));
    }
    total
}

#[unsafe(no_mangle)]
pub extern "C" fn runset_repeat(op: u32, a: &[u8], b: &[u8], c: &[u8], times: u64) -> u64
    ensures { result ≡ repeat_reply (unfit_any a.now b.now c.now) (asked op a.now b.now c.now) times }
{
    let mut p = [0u32; SLOT];
    if load(a, &mut p).is_err() {
        return 0;
    }
    let mut q = [0u32; SLOT];
    if load(b, &mut q).is_err() {
        return 0;
    }
    let mut r = [0u32; SLOT];
    if load(c, &mut r).is_err() {
        return 0;
    }
    repeated(op, &p, &q, &r, times)
}

// How many runs the joining of two sets stores.
#[unsafe(no_mangle)]
pub extern "C" fn runset_stores(a: &[u8], b: &[u8]) -> u32
    ensures { result ≡ stores_reply (unfit a.now || unfit b.now) (λ v. set_of a.now v || set_of b.now v) }
{
    let mut p = [0u32; SLOT];
    if load(a, &mut p).is_err() {
        return 4_294_967_295;
    }
    let mut q = [0u32; SLOT];
    if load(b, &mut q).is_err() {
        return 4_294_967_295;
    }
    let mut set = [0u32; SLOT];
    match RunSet::join(&p, &q, &mut set) {
        Ok(stores) => stores as u32,
        Err(_) => 4_294_967_294,
    }
}
