// Atoms at record i: the numbers that one selects by v; whether one without v holds, of every number alike.
ghost use Rattle.std.specs.Prelude.{◌≡◌, ℕ, ◌<◌, length, nat_eq};
ghost use Rattle.number.specs.Axis.{axis};
ghost use Rattle.recording.specs.Recording.{Accepted};
ghost use Rattle.grammar.specs.Syntax.{v, number, compare, A-to-B, pigment};
ghost use Rattle.grammar.specs.inner.Table.{field_of, relation_of};
ghost use Rattle.meaning.specs.inner.Coded.{coded_slope};
ghost use Rattle.meaning.specs.inner.Truth.{coded_at, relate, atom_val};
ghost use Rattle.meaning.specs.inner.Coded.{coded};
ghost use Rattle.leaves.specs.inner.Span.{Spans};
ghost use Rattle.recording.specs.Reading.{curve_of};

use crate::span::Span;
use crate::{fields, span};

// Whether x has the relation to y. Codes: 0 `>=`, 1 `<=`, 2 `>`, 3 `<`, 4 `=`.
fn relates(relation: u32, x: u32, y: u32) -> bool
    ensures { result ≡ relate (relation_of relation) x y }
{
    if relation == 0 {
        return y <= x;
    }
    if relation == 1 {
        return x <= y;
    }
    if relation == 2 {
        return y < x;
    }
    if relation == 3 {
        return x < y;
    }
    y == x
}

// The numbers to which x has the relation.
fn related(relation: u32, x: u32) -> Span
    requires { x < axis }
    ensures { Spans (λ n. relate (relation_of relation) x n) result }
{
    if relation == 0 {
        return span::upto(x);
    }
    if relation == 1 {
        return span::from(x);
    }
    if relation == 2 {
        return span::below(x);
    }
    if relation == 3 {
        return span::from(x + 1);
    }
    Span { low: x, high: x }
}

// A field against v.
pub fn against_v(rec: &[u8], i: usize, field: u32, relation: u32) -> Span
    requires { Accepted rec.now × (i < length (coded rec.now)) }
    ensures { Spans (λ n. atom_val (compare (field_of field) (relation_of relation) v) (coded_at (coded rec.now) i) n) result }
{
    related(relation, fields::field_at(rec, i, field))
}

// A field against a number.
pub fn against_number(rec: &[u8], i: usize, field: u32, relation: u32, k: u32) -> bool
    requires { Accepted rec.now × (i < length (coded rec.now)) }
    ensures { (n : ℕ) → result ≡ atom_val (compare (field_of field) (relation_of relation) (number k)) (coded_at (coded rec.now) i) n }
{
    relates(relation, fields::field_at(rec, i, field), k)
}

// A against B.
pub fn a_to_b(rec: &[u8], i: usize, relation: u32) -> bool
    requires { Accepted rec.now × (i < length (coded rec.now)) }
    ensures { (n : ℕ) → result ≡ atom_val (A-to-B (relation_of relation)) (coded_at (coded rec.now) i) n }
{
    relates(
        relation,
        fields::value_at(rec, i, 0),
        fields::value_at(rec, i, 1),
    )
}

// Whether a pigment is added.
pub fn adding(rec: &[u8], i: usize, k: u32) -> bool
    requires { Accepted rec.now × (i < length (coded rec.now)) }
    ensures { (n : ℕ) → result ≡ atom_val (pigment k) (coded_at (coded rec.now) i) n }
{
    tops::is_added(rec, i, k)
}

// Whether a curve has the slope.
pub fn sloped(rec: &[u8], i: usize, curve: u32, slope: u8) -> bool
    requires { Accepted rec.now × (i < length (coded rec.now)) }
    ensures { result ≡ nat_eq (coded_slope (curve_of curve) (coded_at (coded rec.now) i)) «slope» }
{
    fields::slope_at(rec, i, recording::curve(curve)) == slope
}
