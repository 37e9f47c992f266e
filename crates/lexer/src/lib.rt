// Leaves of a text: atoms and listed questions, each one node.
#![tactic(auto)]

ghost use Rattle.std.specs.Prelude.{◌≡◌, ◌&&◌, ◌+◌, ◌≤◌, ◌<◌, eqb, length};
ghost use Rattle.grammar.specs.inner.Lexer.{closed_by, operand_at, comparison_at, timed_at, is_timed, arguments_at, takes_pigment, pigment_leaf_at, is_bare, named_at, headed_at, leaf_at};

mod numbers;

use grammar::{Found, Leaf, Row, kinds};

// Whether the byte is the B of `A` and a relation and `B`.
fn other_curve(b: u8, field: u32) -> bool
    ensures { result ≡ (eqb b 66 && eqb field 0) }
{
    b == b'B' && field == 0
}

// What a field is compared with.
#[tactic(auto, unfolding(grammar::specs::inner::Lexer::operand_at))]
fn operand(text: &[u8], field: u32, relation: u32, at: usize) -> Option<Leaf>
    requires { at ≤ length text.now }
    ensures { result ≡ operand_at text.now field relation at }
{
    let b = words::peek(text, at);
    if b == b'v' {
        return Some(Leaf::Node(Row::new(kinds::COMPARE_V, field, relation, 0), at + 1));
    }
    if other_curve(b, field) {
        return Some(Leaf::Node(Row::new(kinds::A_TO_B, 0, relation, 0), at + 1));
    }
    let Found { code, end } = numbers::number(text, at)?;
    Some(Leaf::Node(Row::new(kinds::COMPARE, field, relation, code), end))
}

// A relation and what stands behind it.
#[tactic(auto, unfolding(grammar::specs::inner::Lexer::comparison_at))]
fn comparison(text: &[u8], field: u32, at: usize) -> Option<Leaf>
    requires { at ≤ length text.now }
    ensures { result ≡ comparison_at text.now field at }
{
    let Found { code, end } = words::relation(text, at)?;
    operand(text, field, code, end)
}

// The leaf, if a bracket closes it.
fn closed(text: &[u8], row: Row, at: usize) -> Option<Leaf>
    requires { at ≤ length text.now }
    ensures { result ≡ closed_by text.now 41 row at }
{
    if words::peek(text, at) == b')' {
        Some(Leaf::Node(row, at + 1))
    } else {
        None
    }
}

// A comma, a number and the closing bracket.
#[tactic(auto, unfolding(grammar::specs::inner::Lexer::timed_at))]
fn timed(text: &[u8], kind: u32, curve: u32, at: usize) -> Option<Leaf>
    requires { at ≤ length text.now }
    ensures { result ≡ timed_at text.now kind curve at }
{
    if words::peek(text, at) != b',' {
        return None;
    }
    let Found { code, end } = numbers::number(text, at + 1)?;
    closed(text, Row::new(kind, curve, 0, code), end)
}

// Whether a name of the kind has a number: `lowafter` and `capafter` have.
fn is_timed(kind: u32) -> bool
    ensures { result ≡ is_timed kind }
{
    matches!(kind, kinds::LOWAFTER | kinds::CAPAFTER)
}

// The arguments of a name: a curve, and of some an after-time.
#[tactic(auto, unfolding(grammar::specs::inner::Lexer::arguments_at))]
fn arguments(text: &[u8], kind: u32, at: usize) -> Option<Leaf>
    requires { at ≤ length text.now }
    ensures { result ≡ arguments_at text.now kind at }
{
    let Found { code, end } = words::curve_letter(text, at)?;
    if is_timed(kind) {
        return timed(text, kind, code, end);
    }
    closed(text, Row::new(kind, code, 0, 0), end)
}

// Whether a word of the kind has the number of a pigment: `P=` and `dose(` have.
fn takes_pigment(kind: u32) -> bool
    ensures { result ≡ takes_pigment kind }
{
    matches!(kind, kinds::PIGMENT | kinds::DOSE)
}

// The number of a pigment, and of `dose(` the closing bracket.
#[tactic(auto, unfolding(grammar::specs::inner::Lexer::pigment_leaf_at))]
fn pigment_leaf(text: &[u8], kind: u32, at: usize) -> Option<Leaf>
    requires { at ≤ length text.now }
    ensures { result ≡ pigment_leaf_at text.now kind at }
{
    let Found { code, end } = numbers::pigment(text, at)?;
    let row = Row::new(kind, 0, 0, code);
    if kind == kinds::DOSE {
        return closed(text, row, end);
    }
    Some(Leaf::Node(row, end))
}

// Whether a name of the kind has no arguments: `cross`, `crossup` and `lag` have none.
fn is_bare(kind: u32) -> bool
    ensures { result ≡ is_bare kind }
{
    matches!(kind, kinds::CROSS | kinds::CROSSUP | kinds::LAG)
}

// A name and what stands behind it.
#[tactic(auto, unfolding(grammar::specs::inner::Lexer::named_at))]
fn named(text: &[u8], kind: u32, at: usize) -> Option<Leaf>
    requires { at ≤ length text.now }
    ensures { result ≡ named_at text.now kind at }
{
    if is_bare(kind) {
        return Some(Leaf::Node(Row::new(kind, 0, 0, 0), at));
    }
    if takes_pigment(kind) {
        return pigment_leaf(text, kind, at);
    }
    arguments(text, kind, at)
}

// What stands behind the head of the code.
#[tactic(auto, unfolding(grammar::specs::inner::Lexer::headed_at))]
fn headed(text: &[u8], code: u32, at: usize) -> Option<Leaf>
    requires { at ≤ length text.now }
    ensures { result ≡ headed_at text.now code at }
{
    if code < kinds::FALL {
        return comparison(text, code, at);
    }
    if code < kinds::NOT {
        return named(text, code, at);
    }
    Some(Leaf::Open(code, at))
}

// The leaf or the opening at a position.
#[tactic(auto, unfolding(grammar::specs::inner::Lexer::leaf_at))]
pub fn leaf(text: &[u8], at: usize) -> Option<Leaf>
    requires { at ≤ length text.now }
    ensures { result ≡ leaf_at text.now at }
{
    let Found { code, end } = words::head(text, at)?;
    headed(text, code, end)
}
