// The lines of a page.
ghost use Rattle.std.specs.Prelude.{◌+◌, ◌*◌, ◌≤◌, ◌<◌, length};
ghost use Rattle.refusal.specs.Outcome as outcome;
ghost use Rattle.refusal.specs.Outcome.{refused};
ghost use Rattle.refusal.specs.Numbers.{number_of, place_of};
ghost use Rattle.number.specs.Words.{signed};
ghost use Rattle.page.specs.Page.{page, run_line, run_lines};
ghost use Rattle.page.specs.Printed.{page_size};
ghost use Rattle.page.specs.inner.Puts.{Puts};

use crate::{numbers, put};
use refusal::Refusal;

// How many bytes a run has in a set.
const RUN: usize = 8;

// Puts the line of a run, whose ends have these 32 bits.
fn run(out: &mut [u8], at: usize, low: u32, high: u32) -> usize
    requires { at + length (run_line (signed low) (signed high)) ≤ length out.old }
    ensures { Puts (run_line (signed low) (signed high)) out.old at out.new result }
{
    let blank = numbers::signed(out, at, low);
    let second = put::byte(out, blank, b' ');
    let end = numbers::signed(out, second, high);
    put::byte(out, end, b'\n')
}

// Puts the lines of the first n runs of a set.
fn runs(out: &mut [u8], at: usize, set: &[u8], n: usize) -> usize
    requires { (8 * n ≤ length set.now) × (at + length (run_lines n set.now) ≤ length out.old) }
    ensures { Puts (run_lines n set.now) out.old at out.new result }
{
    let mut end = at;
    for i in 0..n {
        let low = number::word_at(set, RUN * i);
        let high = number::word_at(set, RUN * i + 4);
        end = run(out, end, low, high);
    }
    end
}

// Puts the page of a set.
pub fn set_page(out: &mut [u8], set: &[u8]) -> usize
    requires { length (page (outcome.result set.now)) ≤ length out.old }
    ensures { Puts (page (outcome.result set.now)) out.old 0 out.new result }
{
    let n = set.len() / RUN;
    let number = put::bytes(out, 0, b"runs ");
    let end = numbers::unsigned(out, number, n as u64);
    let first = put::byte(out, end, b'\n');
    runs(out, first, set, n)
}

// Puts the page of a refusal.
pub fn refusal_page(out: &mut [u8], x: Refusal) -> usize
    requires { page_size ≤ length out.old }
    ensures { Puts (page (refused (number_of x) (place_of x))) out.old 0 out.new result }
{
    let number = put::bytes(out, 0, b"refused ");
    let blank = numbers::unsigned(out, number, x.number() as u64);
    let place = put::byte(out, blank, b' ');
    let end = numbers::unsigned(out, place, x.place() as u64);
    put::byte(out, end, b'\n')
}
