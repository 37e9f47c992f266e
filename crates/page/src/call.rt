// THE PAGE of a question: what the program prints.
ghost use Rattle.std.specs.Prelude.{◌≡◌, take};
ghost use Rattle.io.specs.Counts.{IsPrefixLen};
ghost use Rattle.page.specs.Typed.{without_newline};
ghost use Rattle.page.specs.Printed.{printed, Prints};

// The output that the question call is given: 8 bytes for each run that a set may have.
pub const SET_ROOM: usize = 8 * runs::MOST_RUNS;

// Room for the longest page: `runs `, a number of at most 10 digits and a newline, and for each run two numbers of at most
// 11 bytes, a blank and a newline.
pub const PAGE_SIZE: usize = 16 + 24 * runs::MOST_RUNS;

const NEWLINE: u8 = b'\n';

// The length of the text that was typed, without a final newline.
fn text_length(typed: &[u8]) -> usize
    ensures { (take result typed.now ≡ without_newline typed.now) × IsPrefixLen result typed.now }
{
    let n = typed.len();
    if n == 0 {
        return 0;
    }
    if typed[n - 1] == NEWLINE {
        return n - 1;
    }
    n
}

// Puts the answer to the typed text on the page, and tells its length.
pub fn answer(rec: &[u8], typed: &[u8], page: &mut [u8; PAGE_SIZE]) -> usize
    ensures prints { Prints (printed rec.now typed.now) page.old page.new result }
    ensures prefix_len { IsPrefixLen result page.new }
{
    let n = text_length(typed);
    let mut set = [0u8; SET_ROOM];
    let written = question::question(rec, &typed[..n], &mut set);
    match written {
        Err(x) => crate::lines::refusal_page(page, x),
        Ok(size) => crate::lines::set_page(page, &set[..size]),
    }
}
