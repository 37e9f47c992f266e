// The report under way: one text and one target, put to a named number of recordings, one after another. It goes in and comes back by value.
#![tactic(auto)]

ghost use Rattle.std.specs.Prelude.{◌≡◌, cond, [], ◌<◌};
ghost use Rattle.number.specs.Axis.{axis};
ghost use Rattle.refusal.specs.Outcome.{reported, judged};
ghost use Rattle.meaning.specs.inner.Coded.{index as index_of};
ghost use Rattle.degree.specs.Degree.{away, nowhere, reached_of};
ghost use Rattle.report.specs.Report.{naming_lines};
ghost use Rattle.refusal.specs.Numbers.{number_of, place_of};
ghost use Rattle.report.specs.inner.Running.{running_of, with_batch, faulty, Sound, none, stopped, counted, addition_of, Small, unread, unsound, absent, addition_to, added_with};
ghost use Rattle.report.specs.inner.Naming.{naming, target_lines};

use mean::Mean;
use refusal::Refusal;

// The most recordings of a report.
pub const MOST_BATCHES: u32 = 1000;

// The bytes that a report under way takes.
pub const REPORT_BYTES: usize = 320;

// The longest distance.
const LONGEST: u64 = 4_000_000_000;

// The counts, and beside them the running sum of degrees and the last mean.
#[derive(Clone, Copy)]
pub struct Report {
    // The recordings that were named, and those taken.
    pub count: u32,
    pub taken: u32,
    // Those that met the target, and those whose set is empty.
    pub met: u32,
    pub empty: u32,
    // The sum of the distances.
    pub distances: u64,
    pub mean: Mean,
}

// The answer to a recording.
#[derive(Clone, Copy)]
pub enum Added {
    // No report is under way.
    Nothing,
    // The recording is refused, and the report with it.
    Stopped(Refusal),
    Taken(Report),
    // The recording is the last of the named count.
    Last(Report),
}

// The target's index on the axis, of a naming whose count and text are in order.
fn aimed(target: i64, room: usize) -> Result<u32, Refusal>
    ensures { reported result ≡ judged (target_lines target room) (index_of target) }
{
    let Some(index) = targets::on_axis(target) else {
        return Err(Refusal::BadTarget);
    };
    if room < REPORT_BYTES {
        return Err(Refusal::ShortOutput);
    }
    Ok(index)
}

// THE NAMING of a report for which there are `room` bytes: the target's index on the axis, or the refusal.
pub fn name(count: u32, text: &[u8], target: i64, room: usize) -> Result<u32, Refusal>
    ensures { reported result ≡ judged (naming_lines (naming count text.now target) room) (index_of target) }
{
    if count == 0 {
        return Err(Refusal::NoReport);
    }
    if MOST_BATCHES < count {
        return Err(Refusal::NoReport);
    }
    let mut table = [0u32; text::TABLE_SIZE];
    text::read(text, &mut table)?;
    aimed(target, room)
}

// A report before its first recording.
pub fn begin(count: u32) -> Report
    ensures { result ≡ running_of count [] }
{
    Report {
        count,
        taken: 0,
        met: 0,
        empty: 0,
        distances: 0,
        mean: mean::none(),
    }
}

// Whether no batches lead to the report, or it is whole.
fn is_faulty(r: Report) -> bool
    ensures { result ≡ faulty r }
{
    if r.count <= r.taken {
        return true;
    }
    if MOST_BATCHES < r.count {
        return true;
    }
    if r.taken < r.met {
        return true;
    }
    if r.taken - r.met < r.empty {
        return true;
    }
    if LONGEST * u64::from(r.taken) < r.distances {
        return true;
    }
    if r.mean.sum.is_nan() {
        return true;
    }
    r.mean.mean.is_nan()
}

// With a batch at distance d.
fn with_distance(r: Report, d: u32) -> Report
    requires { Sound r × (d < axis) }
    ensures { result ≡ with_batch r (away d) }
{
    let mean = mean::with(r.mean, r.taken + 1 - r.empty, d);
    Report {
        taken: r.taken + 1,
        met: r.met + u32::from(d == 0),
        distances: r.distances + u64::from(d),
        mean,
        ..r
    }
}

// With a batch whose set is empty.
fn with_empty(r: Report) -> Report
    requires { Sound r }
    ensures { result ≡ with_batch r nowhere }
{
    Report {
        taken: r.taken + 1,
        empty: r.empty + 1,
        ..r
    }
}

// A report with one batch more, which may be the last.
fn judge(r: Report) -> Added
    ensures { addition_of result ≡ counted r }
{
    if r.taken == r.count {
        return Added::Last(r);
    }
    Added::Taken(r)
}

// Whether 5, 6 or 7 refuses a text.
fn is_unread(text: &[u8]) -> bool
    ensures { result ≡ unread text.now }
{
    let mut table = [0u32; text::TABLE_SIZE];
    text::read(text, &mut table).is_err()
}

// Whether no call leaves the report so, or the target's index.
fn is_unsound(r: Report, index: u32) -> bool
    ensures { result ≡ unsound r index }
{
    if number::AXIS <= index {
        return true;
    }
    is_faulty(r)
}

// Whether none is under way with this report, text and index of the target.
pub fn is_absent(r: Report, text: &[u8], index: u32) -> bool
    ensures { result ≡ absent r text.now index }
{
    if is_unsound(r, index) {
        return true;
    }
    is_unread(text)
}

// A recording that is refused stops the report, if its text is one that a naming took. The text was read for every other recording.
fn stop(text: &[u8], x: Refusal) -> Added
    ensures { addition_of result ≡ cond (unread text.now) none (stopped (number_of x) (place_of x)) }
{
    if is_unread(text) {
        return Added::Nothing;
    }
    Added::Stopped(x)
}

// A recording whose set is so far from the target, or has no member, or is refused.
fn with_reached(r: Report, text: &[u8], reached: Result<Option<u32>, Refusal>) -> Added
    requires { Sound r × Small (reached_of reached) }
    ensures { addition_of result ≡ added_with r text.now (reached_of reached) }
{
    match reached {
        Ok(Some(d)) => {
            let next = with_distance(r, d);
            judge(next)
        }
        Ok(None) => {
            let next = with_empty(r);
            judge(next)
        }
        Err(x) => stop(text, x),
    }
}

// THE NEXT RECORDING of a report: the text is put to it, and the target at an index.
pub fn add(r: Report, rec: &[u8], text: &[u8], index: u32) -> Added
    ensures { addition_of result ≡ addition_to r rec.now text.now index }
{
    if is_unsound(r, index) {
        return Added::Nothing;
    }
    let reached = degree::distance_at(rec, text, index);
    with_reached(r, text, reached)
}
