// Numbers of a text.
ghost use Rattle.std.specs.Prelude.{◌≡◌, ◌+◌, ◌-◌, ◌*◌, ◌≤◌, ◌<◌, min, length, drop};
ghost use Rattle.grammar.specs.Grammar.{decimal};
ghost use Rattle.grammar.specs.inner.Lexer.{digit_run, unsigned_at, number_at, pigment_at};

use grammar::{Found, classes};
use number::ORIGIN;

// The largest number of the axis, and what stands for any larger one.
const LARGEST: u64 = ORIGIN as u64;

const LARGER: u64 = LARGEST + 1;

// The greatest number of a pigment.
const MOST_PIGMENTS: u32 = recording::MOST_PIGMENTS as u32;

// The digits in front: what they come to, or 2,000,000,001 where that is more, and where they stop.
#[derive(Clone, Copy)]
pub struct Digits {
    pub value: u64,
    pub end: usize,
}

// One digit more, where the value stays within bounds.
fn with_digit(value: u64, b: u8) -> u64
    requires { (value ≤ 2000000001) × (48 ≤ b) × (b ≤ 57) }
    ensures { result ≡ min (10 * value + (b - 48)) 2000000001 }
{
    (10 * value + u64::from(b - b'0')).min(LARGER)
}

fn digit_run(text: &[u8], at: usize) -> Digits
    requires { at ≤ length text.now }
    ensures { (result.end ≡ at + length (digit_run (drop at text.now)))
        × (result.value ≡ min (decimal (digit_run (drop at text.now))) 2000000001) }
{
    let mut value = 0;
    for end in at..text.len() {
        let b = text[end];
        if !classes::is_digit(b) {
            return Digits { value, end };
        }
        value = with_digit(value, b);
    }
    Digits {
        value,
        end: text.len(),
    }
}

// A number without a sign.
#[tactic(auto, unfolding(grammar::specs::inner::Lexer::unsigned_at))]
fn unsigned(text: &[u8], at: usize) -> Option<Found>
    requires { at ≤ length text.now }
    ensures { result ≡ unsigned_at text.now at }
{
    let b = words::peek(text, at);
    if b == b'0' {
        return Some(Found {
            code: 0,
            end: at + 1,
        });
    }
    if !classes::is_digit(b) {
        return None;
    }
    let Digits { value, end } = digit_run(text, at);
    if value <= LARGEST {
        let code = value as u32;
        Some(Found { code, end })
    } else {
        None
    }
}

// A number, as its index on the axis.
#[tactic(auto, unfolding(grammar::specs::inner::Lexer::number_at))]
pub fn number(text: &[u8], at: usize) -> Option<Found>
    requires { at ≤ length text.now }
    ensures { result ≡ number_at text.now at }
{
    if words::peek(text, at) == b'-' {
        let Found { code: n, end } = unsigned(text, at + 1)?;
        if n == 0 {
            return None;
        }
        let code = ORIGIN - n;
        Some(Found { code, end })
    } else {
        let Found { code: n, end } = unsigned(text, at)?;
        let code = ORIGIN + n;
        Some(Found { code, end })
    }
}

// The number of a pigment: 1 to 16.
#[tactic(auto, unfolding(grammar::specs::inner::Lexer::pigment_at))]
pub fn pigment(text: &[u8], at: usize) -> Option<Found>
    requires { at ≤ length text.now }
    ensures { result ≡ pigment_at text.now at }
{
    let found = unsigned(text, at)?;
    if 0 < found.code && found.code <= MOST_PIGMENTS {
        Some(found)
    } else {
        None
    }
}
