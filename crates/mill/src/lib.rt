// The C boundary of the library: every call that others make, and of each the page's contract (crate `promises`). Complete: Page; what is carried from
// call to call: InTurn, with Reports and LiveRuns.
#![tactic(auto)]

ghost use Rattle.std.specs.Prelude.{[], ◌∷◌};
ghost use Rattle.report.specs.Report.{start_report, add_batch};
ghost use Rattle.promises.specs.Page as call;
ghost use Rattle.promises.specs.Page.{Complete};
ghost use Rattle.promises.specs.InTurn.{made, Carries};
ghost use Rattle.promises.specs.Reports.{ReportLent};
ghost use Rattle.promises.specs.LiveCalls as run;
ghost use Rattle.promises.specs.LiveRuns.{LiveLent};
ghost use Rattle.promises.specs.inner.Machines.{report_machine, live_machine};

// THE QUESTION CALL. Returns how many bytes of the output the answered set takes, or the refusal.
#[unsafe(no_mangle)]
pub extern "C" fn mill_question(rec: &[u8], text: &[u8], out: &mut [u8]) -> u64
    ensures { Complete (call.question text.now) rec.now out.old result out.new }
{
    let written = question::question(rec, text, out);
    reply::written(written)
}

// THE DEGREE CALL. Returns 0 where the target is met, 1 where it is missed and its distance and degree are written, 2 where
// there is no value, or the refusal. Both are handed over by their bits: to C each is a double.
#[unsafe(no_mangle)]
pub extern "C" fn mill_degree(
    rec: &[u8],
    text: &[u8],
    target: i64,
    distance: &mut u64,
    degree: &mut u64,
) -> u64
    ensures { Complete (call.degree text.now target) rec.now
        (distance.old ∷ degree.old ∷ []) result
        (distance.new ∷ degree.new ∷ []) }
{
    let near = degree::degree(rec, text, target);
    boundary::tell_degree(near, distance, degree)
}

// THE THINNING CALL. Returns how many bytes of the output the kept readings take, or the refusal.
#[unsafe(no_mangle)]
pub extern "C" fn mill_thin(rec: &[u8], marks: &[u8], out: &mut [u8]) -> u64
    ensures { Complete (call.thin marks.now) rec.now out.old result out.new }
{
    let written = thin::thin(rec, marks, out);
    reply::written(written)
}

// THE PAIR CALL. Returns 1 where the times of the first pair that fits are written, 0 where none fits, or the refusal.
#[unsafe(no_mangle)]
pub extern "C" fn mill_pair(
    rec: &[u8],
    curve: u32,
    target: i64,
    earlier: &mut u32,
    later: &mut u32,
) -> u64
    ensures { Complete (call.pair curve target) rec.now
        (earlier.old ∷ later.old ∷ []) result
        (earlier.new ∷ later.new ∷ []) }
{
    let found = pair::pair(rec, curve, target);
    boundary::tell_pair(found, earlier, later)
}

// THE BAND CALL. Bit 0 of what it returns tells that some number is true of every curve within e, and that the ends of these are written; bit 1 the same
// of the numbers that are true of at least one; or it returns the refusal. Each end is handed over by its bits: to C it is an int32_t.
#[unsafe(no_mangle)]
pub extern "C" fn mill_band(
    rec: &[u8],
    text: &[u8],
    e: i64,
    certain_low: &mut u32,
    certain_high: &mut u32,
    possible_low: &mut u32,
    possible_high: &mut u32,
) -> u64
    ensures { Complete (call.band text.now e) rec.now
        (certain_low.old ∷ certain_high.old ∷ possible_low.old ∷ possible_high.old ∷ []) result
        (certain_low.new ∷ certain_high.new ∷ possible_low.new ∷ possible_high.new ∷ []) }
{
    let answer = band::band(rec, text, e);
    boundary::tell_bands(
        answer,
        certain_low,
        certain_high,
        possible_low,
        possible_high,
    )
}

// THE ORDER CALL. Returns 0 where every line of the sheet is met, 1 where one is broken and the time and the line are written, or the refusal.
#[unsafe(no_mangle)]
pub extern "C" fn mill_order(rec: &[u8], sheet: &[u8], time: &mut u32, line: &mut u32) -> u64
    ensures { Complete (call.order sheet.now) rec.now
        (time.old ∷ line.old ∷ []) result
        (time.new ∷ line.new ∷ []) }
{
    let found = sheet::order(rec, sheet);
    boundary::tell_order(found, time, line)
}

// THE LABORATORY'S QUESTION CALL. As the question call, with the marks of the thinning; 14 refuses what could tell of B.
#[unsafe(no_mangle)]
pub extern "C" fn mill_lab_question(rec: &[u8], marks: &[u8], text: &[u8], out: &mut [u8]) -> u64
    ensures { Complete (call.lab_question marks.now text.now) rec.now out.old result out.new }
{
    let written = lab::lab_question(rec, marks, text, out);
    reply::written(written)
}

// THE LABORATORY'S DEGREE CALL. As the degree call, with the marks of the thinning; 14 refuses what could tell of B.
#[unsafe(no_mangle)]
pub extern "C" fn mill_lab_degree(
    rec: &[u8],
    marks: &[u8],
    text: &[u8],
    target: i64,
    distance: &mut u64,
    degree: &mut u64,
) -> u64
    ensures { Complete (call.lab_degree marks.now text.now target) rec.now
        (distance.old ∷ degree.old ∷ []) result
        (distance.new ∷ degree.new ∷ []) }
{
    let near = lab::lab_degree(rec, marks, text, target);
    boundary::tell_degree(near, distance, degree)
}

// THE LABORATORY'S PAIR CALL. As the pair call; 14 refuses a pair of tops of B.
#[unsafe(no_mangle)]
pub extern "C" fn mill_lab_pair(
    rec: &[u8],
    curve: u32,
    target: i64,
    earlier: &mut u32,
    later: &mut u32,
) -> u64
    ensures { Complete (call.lab_pair curve target) rec.now
        (earlier.old ∷ later.old ∷ []) result
        (earlier.new ∷ later.new ∷ []) }
{
    let found = lab::lab_pair(rec, curve, target);
    boundary::tell_pair(found, earlier, later)
}

// THE START CALL OF A REPORT. Names the count of the recordings, the text and the target; `report` holds the report under way from here on. Returns 0, or the refusal.
#[unsafe(no_mangle)]
pub extern "C" fn mill_report_start(count: u32, text: &[u8], target: i64, report: &mut [u8]) -> u64
    ensures { Carries report_machine ReportLent report.old
        (made (start_report (record { count = count; text = text.now; target = target })) [] result []) report.new }
{
    report_state::start(count, text, target, report)
}

// THE ADD CALL OF A REPORT. Hands in the next recording. Returns 0 where it is taken, 1 where the report is written, 2 where it is written without a mean, or
// the refusal. The mean is handed over by its bits: to C it is a double.
#[unsafe(no_mangle)]
pub extern "C" fn mill_report_add(
    report: &mut [u8],
    rec: &[u8],
    met: &mut u32,
    empty: &mut u32,
    distances: &mut u64,
    mean: &mut u64,
) -> u64
    ensures { Carries report_machine ReportLent report.old
        (made (add_batch rec.now) (met.old ∷ empty.old ∷ distances.old ∷ mean.old ∷ []) result
        (met.new ∷ empty.new ∷ distances.new ∷ mean.new ∷ [])) report.new }
{
    report_state::add(report, rec, met, empty, distances, mean)
}

// A LIVE RUN STARTS, empty, with its marks, in the bytes that the caller lends. Returns 0, or the refusal; one by 11 ends what the bytes held.
#[unsafe(no_mangle)]
pub extern "C" fn mill_live_start(marks: &[u8], live: &mut [u8]) -> u64
    ensures { Carries live_machine LiveLent live.old
        (made (run.start marks.now) [] result []) live.new }
{
    let answer = live::start(marks, live);
    live::tell(answer)
}

// A READING ARRIVES. Returns 0, or the refusal.
#[unsafe(no_mangle)]
pub extern "C" fn mill_live_add(live: &mut [u8], reading: &[u8]) -> u64
    ensures { Carries live_machine LiveLent live.old
        (made (run.add reading.now) [] result []) live.new }
{
    let answer = live::add(live, reading);
    live::tell(answer)
}

// A MOMENT IS SET, or set again. Returns 0, or the refusal.
#[unsafe(no_mangle)]
pub extern "C" fn mill_live_save(live: &mut [u8], name: u32) -> u64
    ensures { Carries live_machine LiveLent live.old
        (made (run.save name) [] result []) live.new }
{
    let answer = live::save(live, name);
    live::tell(answer)
}

// THE RUN GOES BACK TO A MOMENT. Returns 0, or the refusal.
#[unsafe(no_mangle)]
pub extern "C" fn mill_live_restore(live: &mut [u8], name: u32) -> u64
    ensures { Carries live_machine LiveLent live.old
        (made (run.restore name) [] result []) live.new }
{
    let answer = live::restore(live, name);
    live::tell(answer)
}

// THE KEPT READINGS OF THE RUN. Returns how many bytes of the output they take, or the refusal.
#[unsafe(no_mangle)]
pub extern "C" fn mill_live_kept(live: &[u8], out: &mut [u8]) -> u64
    ensures { Carries live_machine LiveLent live.now
        (made run.read out.old result out.new) live.now }
{
    let written = live::kept(live, out);
    reply::written(written)
}

// THE ENTRY OF THE RUN. Returns 32, the bytes of the output that it takes, or the refusal. The run is only read.
#[unsafe(no_mangle)]
pub extern "C" fn mill_live_entry(live: &[u8], out: &mut [u8]) -> u64
    ensures { Carries live_machine LiveLent live.now
        (made run.entry out.old result out.new) live.now }
{
    let written = live_entry::entry_of_run(live, out);
    reply::written(written)
}

// THE ENTRY CALL. Returns 32, the bytes of the output that the entry takes, or the refusal.
#[unsafe(no_mangle)]
pub extern "C" fn mill_entry(rec: &[u8], out: &mut [u8]) -> u64
    ensures { Complete call.entry rec.now out.old result out.new }
{
    let written = entry::entry(rec, out);
    reply::written(written)
}

// THE FIND CALL. Returns how many bytes of the output the numbers of the entries take, or the refusal.
#[unsafe(no_mangle)]
pub extern "C" fn mill_find(entries: &[u8], curve: u32, level: i64, out: &mut [u8]) -> u64
    ensures { Complete (call.find curve level) entries.now out.old result out.new }
{
    let written = listing::find(entries, curve, level, out);
    reply::written(written)
}

// THE ASSURED CALL. Returns 1 where kept readings answer the text as the recording did, under these marks, 0 where nothing is promised, or the refusal.
#[unsafe(no_mangle)]
pub extern "C" fn mill_assured(text: &[u8], marks: &[u8]) -> u64
    ensures { Complete (call.assured marks.now) text.now [] result [] }
{
    let verdict = assured::assured(text, marks);
    assured::tell(verdict)
}

// THE VERSION of the library that is linked: major × 65536 + minor × 256 + patch.
#[unsafe(no_mangle)]
pub extern "C" fn mill_version() -> u64
    ensures { Complete call.version [] [] result [] }
{
    65792
}
