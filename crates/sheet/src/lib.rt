// Order sheets: whether each pigment went in after those that must be in before it.
#![tactic(auto)]

ghost use Rattle.std.specs.Prelude.{◌≡◌, ◌/◌, ◌<◌, length, get_or};
ghost use Rattle.refusal.specs.Outcome.{judged};
ghost use Rattle.std.specs.List.{list_any};
ghost use Rattle.recording.specs.Recording.{readings, Accepted};
ghost use Rattle.sheet.specs.Sheet.{sheet_of, no_pigment, bad_sheet, AcceptedSheet};
ghost use Rattle.sheet.specs.inner.Found.{finding};
ghost use Rattle.sheet.specs.Call.{sheet_lines, finding_in, outcome_of, order_of};
ghost use Rattle.sheet.specs.inner.Firsts.{Firsts, Earliest};

use refusal::Refusal;

// A sheet that is broken: the time of the first record whose addition breaks a line, and the first line that it breaks, counted from 0.
#[derive(Clone, Copy)]
pub struct Breach {
    pub time: u32,
    pub line: u32,
}

// The most lines of a sheet.
const MOST_LINES: usize = 32;

// The places of a table by pigment, and one for records without an addition.
const PLACES: usize = recording::MOST_PIGMENTS as usize + 1;

// The first addition that breaks a line, by the record's index, and the line.
#[derive(Drop)]
struct Break {
    index: usize,
    line: usize,
}

// Whether some number of the sheet is not that of a pigment.
fn some_foreign(sheet: &[u8]) -> bool
    ensures { result ≡ list_any no_pigment sheet.now }
{
    sheet
        .iter()
        .any(|k| *k == 0 || recording::MOST_PIGMENTS < *k)
}

// Whether 13 meets the sheet.
fn is_bad(sheet: &[u8]) -> bool
    ensures { result ≡ (bad_sheet sheet.now).meets }
{
    if sheet.len() % 2 != 0 {
        return true;
    }
    if MOST_LINES < sheet.len() / 2 {
        return true;
    }
    some_foreign(sheet)
}

// The index of the first addition of each pigment, at its number; n where it is never added. From the last record to the first.
fn first_additions(rec: &[u8], n: usize) -> [usize; PLACES]
    requires { Accepted rec.now × (n ≡ length rec.now / 16) }
    ensures { Firsts (readings rec.now) result }
{
    let mut first = [n; PLACES];
    for i in (0..n).rev() {
        let pigment = usize::from(recording::byte_in(rec, i, recording::PIGMENT));
        first[pigment] = i;
    }
    first
}

// The index of the first addition of the pigment whose number stands at `at` in the sheet.
fn first_of(sheet: &[u8], at: usize, first: [usize; PLACES]) -> usize
    requires { (at < length sheet.now) × AcceptedSheet sheet.now }
    ensures { result ≡ get_or first (get_or sheet.now at 0) 0 }
{
    first[usize::from(sheet[at])]
}

// The first break of an accepted sheet by the table of first additions: the earliest record, and of its lines the first. n is the index where there is none.
fn first_break(sheet: &[u8], first: [usize; PLACES], n: usize) -> Break
    requires { AcceptedSheet sheet.now }
    ensures { Earliest first n sheet.now (length sheet.now / 2) result.index result.line }
{
    let count = sheet.len() / 2;
    let mut index = n;
    let mut line: usize = 0;
    for k in 0..count {
        let a = first_of(sheet, k * 2, first);
        let b = first_of(sheet, k * 2 + 1, first);
        if b < index {
            if b <= a {
                index = b;
                line = k;
            }
        }
    }
    Break { index, line }
}

// What the check finds in an accepted recording of n records; nothing where every line of the sheet is met.
fn find(rec: &[u8], n: usize, sheet: &[u8]) -> Option<Breach>
    requires { Accepted rec.now × (n ≡ length rec.now / 16) × AcceptedSheet sheet.now }
    ensures { finding_in result ≡ finding (sheet_of sheet.now) (readings rec.now) }
{
    let first = first_additions(rec, n);
    let found = first_break(sheet, first, n);
    let index = found.index;
    let line = found.line;
    if n <= index {
        return None;
    }
    let time = recording::word_in(rec, index, recording::TIME);
    Some(Breach {
        time,
        line: line as u32,
    })
}

// The order call on an accepted recording of n records.
fn in_accepted(rec: &[u8], n: usize, sheet: &[u8]) -> Result<Option<Breach>, Refusal>
    requires { Accepted rec.now × (n ≡ length rec.now / 16) }
    ensures { outcome_of result ≡ judged (sheet_lines rec.now sheet.now) (finding (sheet_of sheet.now) (readings rec.now)) }
{
    if n == 0 {
        return Err(Refusal::NoRecord);
    }
    if is_bad(sheet) {
        return Err(Refusal::BadSheet);
    }
    Ok(find(rec, n, sheet))
}

// THE ORDER CALL: met, or the first record whose addition breaks a line of the sheet, and the first line that it breaks.
pub fn order(rec: &[u8], sheet: &[u8]) -> Result<Option<Breach>, Refusal>
    ensures { outcome_of result ≡ order_of rec.now sheet.now }
{
    let n = recording::check(rec)?;
    in_accepted(rec, n, sheet)
}
