// Finding recordings by their entries: the numbers of those in which a curve is somewhere at least a level.
#![tactic(auto)]

ghost use Rattle.std.specs.Prelude.{◌≡◌, true, cond, [], ◌∷◌, ◌++◌, ◌+◌, ◌*◌, ◌≤◌, ◌<◌, ltb, length, take, drop};
ghost use Rattle.number.specs.Axis.{axis, whole};
ghost use Rattle.number.specs.Words.{word_bytes, words_bytes};
ghost use Rattle.refusal.specs.Outcome.{judged};
ghost use Rattle.recording.specs.Reading.{curve_of};
ghost use Rattle.recording.specs.Output.{Answers, output_line};
ghost use Rattle.entry.specs.Entry.{entry_bytes};
ghost use Rattle.listing.specs.Listing.{most_entries, entry_at, said_to_reach, numbers_to, listing};
ghost use Rattle.listing.specs.Call.{level_lines, find_of};

use entry::ENTRY_BYTES;
use refusal::Refusal;

// The most entries of a summary.
const MOST_ENTRIES: usize = 2048;

// Where the greatest value of A stands in an entry; that of B stands 8 bytes behind it.
const GREATEST: usize = 8;

// From an index of the axis to offset binary.
const LIFT: u32 = 147_483_648;

// Whether entry i says that the curve is somewhere at least the number at this index of the axis.
fn reaches_level(summary: &[u8], i: usize, curve: usize, index: u32) -> bool
    requires { (i * entry_bytes + entry_bytes ≤ length summary.now) × (curve < 2) × (index < axis) }
    ensures { result ≡ said_to_reach (curve_of curve) (whole index) (entry_at summary.now i) }
{
    let greatest = number::offset_binary(number::word_at(
        summary,
        i * ENTRY_BYTES + GREATEST + 8 * curve,
    ));
    index + LIFT <= greatest
}

// How many of the first n entries say so.
fn count_entries(summary: &[u8], n: usize, curve: usize, index: u32) -> usize
    requires { (n * entry_bytes ≤ length summary.now) × (n ≤ most_entries) × (curve < 2) × (index < axis) }
    ensures { result ≡ length (numbers_to (curve_of curve) (whole index) summary.now n) }
{
    let mut k: usize = 0;
    for i in 0..n {
        if reaches_level(summary, i, curve, index) {
            k += 1;
        }
    }
    k
}

// Writes number i at place k, where it is wanted, and says which place comes next.
fn put_number(out: &mut [u8], k: usize, i: usize, wanted: bool) -> usize
    requires { (i < most_entries) × (k ≤ most_entries) × (wanted ≡ true → 4 * k + 4 ≤ length out.old) }
    ensures { (result ≡ cond wanted (k + 1) k) × (out.new ≡ cond wanted (take (4 * k) out.old ++ word_bytes i ++ drop (4 * k + 4) out.old) out.old) }
{
    if wanted {
        number::put_word(out, 4 * k, i as u32);
        return k + 1;
    }
    k
}

// Whether an output of `room` bytes is too short for the numbers of those of the first n entries that say so. They are counted only where it has no room for all n.
fn too_short(summary: &[u8], n: usize, curve: usize, index: u32, room: usize) -> bool
    requires { (n * entry_bytes ≤ length summary.now) × (n ≤ most_entries) × (curve < 2) × (index < axis) }
    ensures { result ≡ ltb room (4 * length (numbers_to (curve_of curve) (whole index) summary.now n)) }
{
    if 4 * n <= room {
        return false;
    }
    room < 4 * count_entries(summary, n, curve, index)
}

// Writes the numbers of those of the first n entries that say so, leaves the bytes behind them, and says how many they are.
fn put_numbers(summary: &[u8], n: usize, curve: usize, index: u32, out: &mut [u8]) -> usize
    requires { (n * entry_bytes ≤ length summary.now) × (n ≤ most_entries) × (curve < 2) × (index < axis) × (4 * length (numbers_to (curve_of curve) (whole index) summary.now n) ≤ length out.old) }
    ensures { (result ≡ length (numbers_to (curve_of curve) (whole index) summary.now n)) × (out.new ≡ words_bytes (numbers_to (curve_of curve) (whole index) summary.now n) ++ drop (4 * length (numbers_to (curve_of curve) (whole index) summary.now n)) out.old) }
{
    let mut k: usize = 0;
    for i in 0..n {
        let wanted = reaches_level(summary, i, curve, index);
        k = put_number(out, k, i, wanted);
    }
    k
}

// The find call for a level on the axis, given as its index: the listing, or 10.
fn at_level(
    summary: &[u8],
    n: usize,
    curve: usize,
    index: u32,
    out: &mut [u8],
) -> Result<usize, Refusal>
    requires { (length summary.now ≡ n * entry_bytes) × (n ≤ most_entries) × (curve < 2) × (index < axis) }
    ensures { Answers (judged (output_line (length out.old) (listing (curve_of curve) (whole index) summary.now) ∷ []) (listing (curve_of curve) (whole index) summary.now)) out.old result out.new }
{
    if too_short(summary, n, curve, index, out.len()) {
        return Err(Refusal::ShortOutput);
    }
    let size = 4 * put_numbers(summary, n, curve, index, out);
    Ok(size)
}

// The find call on a summary of n entries: the listing, or 12 or 10.
fn in_entries(
    summary: &[u8],
    n: usize,
    curve: u32,
    level: i64,
    out: &mut [u8],
) -> Result<usize, Refusal>
    requires { (length summary.now ≡ n * entry_bytes) × (n ≤ most_entries) }
    ensures { Answers (judged (level_lines summary.now curve level (length out.old)) (listing (curve_of curve) level summary.now)) out.old result out.new }
{
    if 1 < curve {
        return Err(Refusal::BadTarget);
    }
    let Some(index) = targets::on_axis(level) else {
        return Err(Refusal::BadTarget);
    };
    at_level(summary, n, curve as usize, index, out)
}

// THE FIND CALL.
pub fn find(summary: &[u8], curve: u32, level: i64, out: &mut [u8]) -> Result<usize, Refusal>
    ensures { Answers (find_of summary.now curve level (length out.old)) out.old result out.new }
{
    if summary.len() % ENTRY_BYTES != 0 {
        return Err(Refusal::BadSummary);
    }
    let n = summary.len() / ENTRY_BYTES;
    if MOST_ENTRIES < n {
        return Err(Refusal::BadSummary);
    }
    in_entries(summary, n, curve, level, out)
}
