// Words of a text, in ladders: a table of them would hold references, which a loader writes, and the archive holds no data that can be written.
#![tactic(auto)]

ghost use Rattle.std.specs.Prelude.{◌≡◌, [], ◌∷◌, ◌++◌, ◌+◌, ◌≤◌, ◌<◌, length};
ghost use Rattle.grammar.specs.Bytes.{bytes};
ghost use Rattle.grammar.specs.inner.Lexer.{byte, word, spelled_at, first_of, curves, relations, fields, level_names, top_names, difference_names, pigment_names, openings, heads};

use grammar::{Class, Found, classes, kinds};

// What stands at a position: the byte, or 0 past the end.
pub fn peek(text: &[u8], at: usize) -> u8
    ensures { result ≡ byte text.now at }
{
    text.get(at).copied().unwrap_or(0)
}

// Whether the word stands in the text from `at` on.
pub fn spelled(text: &[u8], at: usize, word: &[u8]) -> bool
    requires { at ≤ length text.now }
    ensures { result ≡ spelled_at text.now at word.now }
{
    for i in 0..word.len() {
        if peek(text, at + i) != word[i] {
            return false;
        }
    }
    true
}

// The letter of a curve, as its code: 0 A, 1 B.
pub fn curve_letter(text: &[u8], at: usize) -> Option<Found>
    requires { at ≤ length text.now }
    ensures { result ≡ first_of curves text.now at }
{
    if spelled(text, at, b"A") {
        return Some(Found {
            code: 0,
            end: at + 1,
        });
    }
    if spelled(text, at, b"B") {
        return Some(Found {
            code: 1,
            end: at + 1,
        });
    }
    None
}

// The code of a relation.
pub fn relation(text: &[u8], at: usize) -> Option<Found>
    requires { at ≤ length text.now }
    ensures { result ≡ first_of relations text.now at }
{
    if spelled(text, at, b">=") {
        return Some(Found {
            code: 0,
            end: at + 2,
        });
    }
    if spelled(text, at, b"<=") {
        return Some(Found {
            code: 1,
            end: at + 2,
        });
    }
    if spelled(text, at, b">") {
        return Some(Found {
            code: 2,
            end: at + 1,
        });
    }
    if spelled(text, at, b"<") {
        return Some(Found {
            code: 3,
            end: at + 1,
        });
    }
    if spelled(text, at, b"=") {
        return Some(Found {
            code: 4,
            end: at + 1,
        });
    }
    None
}

// The code of the time, 2.
fn time(text: &[u8], at: usize) -> Option<Found>
    requires { at ≤ length text.now }
    ensures { result ≡ first_of (word 2 (bytes "T") ∷ []) text.now at }
{
    if spelled(text, at, b"T") {
        return Some(Found {
            code: 2,
            end: at + 1,
        });
    }
    None
}

// The code of a field: 0 A, 1 B, 2 T.
fn field(text: &[u8], at: usize) -> Option<Found>
    requires { at ≤ length text.now }
    ensures { result ≡ first_of fields text.now at }
{
    match curve_letter(text, at) {
        Some(found) => Some(found),
        None => time(text, at),
    }
}

// The kind of the leaf that a name of slopes and levels begins.
fn level_name(text: &[u8], at: usize) -> Option<Found>
    requires { at ≤ length text.now }
    ensures { result ≡ first_of level_names text.now at }
{
    if spelled(text, at, b"fall(") {
        return Some(Found {
            code: kinds::FALL,
            end: at + 5,
        });
    }
    if spelled(text, at, b"rise(") {
        return Some(Found {
            code: kinds::RISE,
            end: at + 5,
        });
    }
    if spelled(text, at, b"high(") {
        return Some(Found {
            code: kinds::HIGH,
            end: at + 5,
        });
    }
    if spelled(text, at, b"low(") {
        return Some(Found {
            code: kinds::LOW,
            end: at + 4,
        });
    }
    if spelled(text, at, b"lowafter(") {
        return Some(Found {
            code: kinds::LOWAFTER,
            end: at + 9,
        });
    }
    if spelled(text, at, b"capafter(") {
        return Some(Found {
            code: kinds::CAPAFTER,
            end: at + 9,
        });
    }
    None
}

// The kind of the leaf that a name of tops, dips and crossings begins: `crossup` before `cross`, which begins it.
fn top_name(text: &[u8], at: usize) -> Option<Found>
    requires { at ≤ length text.now }
    ensures { result ≡ first_of top_names text.now at }
{
    if spelled(text, at, b"peaks(") {
        return Some(Found {
            code: kinds::PEAKS,
            end: at + 6,
        });
    }
    if spelled(text, at, b"dips(") {
        return Some(Found {
            code: kinds::DIPS,
            end: at + 5,
        });
    }
    if spelled(text, at, b"crossup") {
        return Some(Found {
            code: kinds::CROSSUP,
            end: at + 7,
        });
    }
    if spelled(text, at, b"cross") {
        return Some(Found {
            code: kinds::CROSS,
            end: at + 5,
        });
    }
    None
}

// The kind of the leaf that a name of differences begins.
fn difference_name(text: &[u8], at: usize) -> Option<Found>
    requires { at ≤ length text.now }
    ensures { result ≡ first_of difference_names text.now at }
{
    if spelled(text, at, b"ampl(") {
        return Some(Found {
            code: kinds::AMPL,
            end: at + 5,
        });
    }
    if spelled(text, at, b"gaps(") {
        return Some(Found {
            code: kinds::GAPS,
            end: at + 5,
        });
    }
    if spelled(text, at, b"steps(") {
        return Some(Found {
            code: kinds::STEPS,
            end: at + 6,
        });
    }
    if spelled(text, at, b"lag") {
        return Some(Found {
            code: kinds::LAG,
            end: at + 3,
        });
    }
    None
}

// The kind of the leaf that a word with the number of a pigment begins.
fn pigment_name(text: &[u8], at: usize) -> Option<Found>
    requires { at ≤ length text.now }
    ensures { result ≡ first_of pigment_names text.now at }
{
    if spelled(text, at, b"P=") {
        return Some(Found {
            code: kinds::PIGMENT,
            end: at + 2,
        });
    }
    if spelled(text, at, b"dose(") {
        return Some(Found {
            code: kinds::DOSE,
            end: at + 5,
        });
    }
    None
}

// The kind of the node that an opening begins, or that of a bracket, which is no node.
fn opening(text: &[u8], at: usize) -> Option<Found>
    requires { at ≤ length text.now }
    ensures { result ≡ first_of openings text.now at }
{
    if spelled(text, at, b"X(") {
        return Some(Found {
            code: kinds::NEXT,
            end: at + 2,
        });
    }
    if spelled(text, at, b"F(") {
        return Some(Found {
            code: kinds::FINALLY,
            end: at + 2,
        });
    }
    if spelled(text, at, b"G(") {
        return Some(Found {
            code: kinds::GLOBALLY,
            end: at + 2,
        });
    }
    if spelled(text, at, b"U(") {
        return Some(Found {
            code: kinds::UNTIL,
            end: at + 2,
        });
    }
    if spelled(text, at, b"W(") {
        return Some(Found {
            code: kinds::WEAK_UNTIL,
            end: at + 2,
        });
    }
    if spelled(text, at, b"(") {
        return Some(Found {
            code: kinds::BRACKET,
            end: at + 1,
        });
    }
    None
}

// What a primary text begins with behind all names that have no number of a pigment.
fn pigment_or_opening(text: &[u8], at: usize) -> Option<Found>
    requires { at ≤ length text.now }
    ensures { result ≡ first_of (pigment_names ++ openings) text.now at }
{
    match pigment_name(text, at) {
        Some(found) => Some(found),
        None => opening(text, at),
    }
}

// What a primary text begins with behind the names of slopes, levels, tops, dips and crossings.
fn difference_or_opening(text: &[u8], at: usize) -> Option<Found>
    requires { at ≤ length text.now }
    ensures { result ≡ first_of (difference_names ++ (pigment_names ++ openings)) text.now at }
{
    match difference_name(text, at) {
        Some(found) => Some(found),
        None => pigment_or_opening(text, at),
    }
}

// What a primary text begins with that does not begin with a field.
fn name_or_opening(text: &[u8], at: usize) -> Option<Found>
    requires { at ≤ length text.now }
    ensures { result ≡ first_of (level_names ++ (top_names ++ (difference_names ++ (pigment_names ++ openings)))) text.now at }
{
    match level_name(text, at) {
        Some(found) => Some(found),
        None => match top_name(text, at) {
            Some(found) => Some(found),
            None => difference_or_opening(text, at),
        },
    }
}

// What a primary text begins with that begins with a letter or a sign.
fn begun(text: &[u8], at: usize) -> Option<Found>
    requires { at ≤ length text.now }
    ensures { result ≡ first_of heads text.now at }
{
    match field(text, at) {
        Some(found) => Some(found),
        None => name_or_opening(text, at),
    }
}

// What a primary text begins with.
pub fn head(text: &[u8], at: usize) -> Option<Found>
    requires { at ≤ length text.now }
    ensures { result ≡ first_of heads text.now at }
{
    match classes::class_of(peek(text, at)) {
        Class::Digit => None,
        Class::Letter => begun(text, at),
        Class::Sign => begun(text, at),
        Class::Foreign => None,
    }
}
