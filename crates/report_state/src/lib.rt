// The report calls of the C boundary: the report under way stands as bytes in the caller's memory.
#![tactic(auto)]

ghost use Rattle.std.specs.Prelude.{◌≡◌, false, ◌++◌, ◌+◌, ◌/◌, ◌%◌, ◌≤◌, length, take, drop};
ghost use Rattle.std.specs.Float.{binary64};
ghost use Rattle.std.specs.Float.Ieee.{of_bits, nan_bits};
ghost use Rattle.number.specs.Words.{words_bytes};
ghost use Rattle.mean.specs.inner.Running.{Numbers};
ghost use Rattle.report.specs.inner.Naming.{naming};
ghost use Rattle.report.specs.inner.Running.{addition_of, answer_in, last};
ghost use Rattle.report_state.specs.State.{low, high, long, figure_words, report_in, report_text, stateless, no_report, closed_bytes, ended_bytes, named_bytes, addition_in, add_after};
ghost use Rattle.report_state.specs.Call.{ReportTold, Starts, Adds};
ghost use Rattle.report_state.specs.inner.Kept.{Held, Writable, Tellable};

use mean::Mean;
use refusal::Refusal;
use report::{Added, Report};

// The format of a report under way. It goes up with each change of the layout.
const FORMAT: u32 = 2;

// The head of every report under way: "MR", the format, and the kept rule. Bytes with another hold no report.
const SIGNATURE: u32 = 77 + 256 * 82 + 65_536 * FORMAT + 16_777_216 * kept::RULE;

// How many words stand before the target.
const WORDS: usize = 11;

// Where the target's index, the length of the text and the text stand.
const INDEX: usize = 44;

const SIZE: usize = 48;

const TEXT: usize = 52;

// The bits of plus infinity, the largest that are not a NaN's, and the weight of the sign.
const INFINITE: u64 = 9_218_868_437_227_405_312;

const SIGN: u64 = 9_223_372_036_854_775_808;

// The size of a word's range.
const RANGE: u64 = 4_294_967_296;

// A number of 64 bits from two words.
fn long_at(buffer: &[u8], at: usize) -> u64
    requires { at + 8 ≤ length buffer.now }
    ensures { result ≡ long buffer.now at }
{
    let l = number::word_at(buffer, at);
    let h = number::word_at(buffer, at + 4);
    u64::from(l) + RANGE * u64::from(h)
}

// Whether bits are a NaN's. `f64::from_bits` takes no NaN, so the bits are tested.
fn is_nan(bits: u64) -> bool
    ensures { result ≡ nan_bits binary64 bits }
{
    INFINITE < bits % SIGN
}

// A float from its bits.
fn float_at(buffer: &[u8], at: usize) -> f64
    requires { (at + 8 ≤ length buffer.now) × (nan_bits binary64 (long buffer.now at) ≡ false) }
    ensures { result ≡ of_bits binary64 (long buffer.now at) }
{
    f64::from_bits(long_at(buffer, at))
}

// The sum and the mean that stand in the bytes.
fn mean_in(buffer: &[u8]) -> Mean
    requires { Held buffer.now }
    ensures { result ≡ (report_in buffer.now).mean }
{
    let sum = float_at(buffer, 28);
    let mean = float_at(buffer, 36);
    Mean { sum, mean }
}

// The report that stands in the bytes.
fn report_in(buffer: &[u8]) -> Report
    requires { Held buffer.now }
    ensures { result ≡ report_in buffer.now }
{
    let count = number::word_at(buffer, 4);
    let taken = number::word_at(buffer, 8);
    let met = number::word_at(buffer, 12);
    let empty = number::word_at(buffer, 16);
    let distances = long_at(buffer, 20);
    let mean = mean_in(buffer);
    Report {
        count,
        taken,
        met,
        empty,
        distances,
        mean,
    }
}

// Whether the bytes are plainly no report under way.
fn is_stateless(buffer: &[u8]) -> bool
    ensures { result ≡ stateless buffer.now }
{
    if buffer.len() < report::REPORT_BYTES {
        return true;
    }
    if number::word_at(buffer, 0) != SIGNATURE {
        return true;
    }
    if (text::MOST_BYTES as u32) < number::word_at(buffer, SIZE) {
        return true;
    }
    if is_nan(long_at(buffer, 28)) {
        return true;
    }
    is_nan(long_at(buffer, 36))
}

// The text that stands in the bytes.
fn text_in(buffer: &[u8]) -> &[u8]
    requires { Held buffer.now }
    ensures { result.now ≡ report_text buffer.now }
{
    let size = number::word_at(buffer, SIZE);
    let from = TEXT;
    let end = TEXT + (size as usize);
    &buffer[from..end]
}

// Whether the bytes hold no report.
fn is_none(buffer: &[u8]) -> bool
    ensures { result ≡ no_report buffer.now }
{
    if is_stateless(buffer) {
        return true;
    }
    let r = report_in(buffer);
    let text = text_in(buffer);
    report::is_absent(r, text, number::word_at(buffer, INDEX))
}

// A recording handed in with these bytes.
fn added(buffer: &[u8], rec: &[u8]) -> Added
    ensures { addition_of result ≡ addition_in buffer.now rec.now }
{
    if is_stateless(buffer) {
        return Added::Nothing;
    }
    let r = report_in(buffer);
    let text = text_in(buffer);
    report::add(r, rec, text, number::word_at(buffer, INDEX))
}

// The lower word of a number. A cast loses no bits, so the higher word is taken off first.
fn low_word(x: u64) -> u32
    ensures { result ≡ low x }
{
    (x % RANGE) as u32
}

// The higher word of a number.
fn high_word(x: u64) -> u32
    ensures { result ≡ high x }
{
    (x / RANGE) as u32
}

// The words of a report.
fn words_of(r: Report) -> [u32; WORDS]
    requires { Numbers r.mean }
    ensures { result ≡ figure_words r }
{
    let m = r.mean;
    let sum = binary64::bits(m.sum);
    let mean = binary64::bits(m.mean);
    [
        SIGNATURE,
        r.count,
        r.taken,
        r.met,
        r.empty,
        low_word(r.distances),
        high_word(r.distances),
        low_word(sum),
        high_word(sum),
        low_word(mean),
        high_word(mean),
    ]
}

// Writes words to the front.
fn put_words(buffer: &mut [u8], words: [u32; WORDS])
    requires { 44 ≤ length buffer.old }
    ensures { buffer.new ≡ words_bytes words ++ drop 44 buffer.old }
{
    for i in 0..WORDS {
        number::put_word(buffer, 4 * i, words[i]);
    }
}

// Writes the text of a naming.
fn put_text(buffer: &mut [u8], text: &[u8])
    requires { 52 + length text.now ≤ length buffer.old }
    ensures { buffer.new ≡ take 52 buffer.old ++ text.now ++ drop (52 + length text.now) buffer.old }
{
    // `copy_from_slice` calls memmove; the archive needs memcpy and memset alone.
    for i in 0..text.len() {
        buffer[TEXT + i] = text[i];
    }
}

// Clears the head.
fn close(buffer: &mut [u8])
    requires { 4 ≤ length buffer.old }
    ensures { buffer.new ≡ closed_bytes buffer.old }
{
    number::put_word(buffer, 0, 0);
}

// Leaves in the bytes what a recording led to.
fn remember(buffer: &mut [u8], a: Added)
    requires { Writable (addition_of a) buffer.old }
    ensures { buffer.new ≡ add_after (addition_of a) buffer.old }
{
    match a {
        Added::Nothing => {}
        Added::Stopped(_) => close(buffer),
        Added::Taken(r) => put_words(buffer, words_of(r)),
        Added::Last(_) => close(buffer),
    }
}

// Writes a report to its places. Returns 1, or 2 where there is no mean.
fn give(r: Report, met: &mut u32, empty: &mut u32, distances: &mut u64, mean: &mut u64) -> u64
    requires { Numbers r.mean }
    ensures { ReportTold (answer_in (last r)) met.old empty.old distances.old mean.old result met.new empty.new distances.new mean.new }
{
    *met = r.met;
    *empty = r.empty;
    *distances = r.distances;
    if r.empty == r.taken {
        return 2;
    }
    let m = r.mean;
    *mean = binary64::bits(m.mean);
    1
}

// Tells the caller what a recording led to.
fn tell(a: Added, met: &mut u32, empty: &mut u32, distances: &mut u64, mean: &mut u64) -> u64
    requires { Tellable (addition_of a) }
    ensures { ReportTold (answer_in (addition_of a)) met.old empty.old distances.old mean.old result met.new empty.new distances.new mean.new }
{
    match a {
        Added::Nothing => reply::refused(Refusal::NoReport),
        Added::Stopped(x) => reply::refused(x),
        Added::Taken(_) => 0,
        Added::Last(r) => give(r, met, empty, distances, mean),
    }
}

// THE ADD CALL. Returns 0 where the recording is taken, 1 where the report is written, 2 where it is written without a mean, or the refusal.
pub fn add(
    buffer: &mut [u8],
    rec: &[u8],
    met: &mut u32,
    empty: &mut u32,
    distances: &mut u64,
    mean: &mut u64,
) -> u64
    ensures { Adds buffer.old rec.now met.old empty.old distances.old mean.old result buffer.new met.new empty.new distances.new mean.new }
{
    let a = added(buffer, rec);
    remember(buffer, a);
    tell(a, met, empty, distances, mean)
}

// Leaves a report that was named.
fn begin(buffer: &mut [u8], count: u32, text: &[u8], index: u32)
    requires { (320 ≤ length buffer.old) × (length text.now ≤ 256) }
    ensures { buffer.new ≡ named_bytes count text.now index buffer.old }
{
    let r = report::begin(count);
    put_words(buffer, words_of(r));
    number::put_word(buffer, INDEX, index);
    number::put_word(buffer, SIZE, text.len() as u32);
    put_text(buffer, text);
}

// The report that the bytes hold is ended. Where they hold none, they stay.
fn end(buffer: &mut [u8])
    ensures { buffer.new ≡ ended_bytes buffer.old }
{
    if is_none(buffer) {
        return;
    }
    close(buffer);
}

// THE START CALL. Returns 0, or the refusal.
pub fn start(count: u32, text: &[u8], target: i64, buffer: &mut [u8]) -> u64
    ensures { Starts (naming count text.now target) buffer.old result buffer.new }
{
    let named = report::name(count, text, target, buffer.len());
    match named {
        Ok(index) => {
            begin(buffer, count, text, index);
            0
        }
        Err(x) => {
            end(buffer);
            reply::refused(x)
        }
    }
}
