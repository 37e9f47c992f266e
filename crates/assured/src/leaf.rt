// The traits of a leaf, from its row. Codes of a field: 0 A, 1 B, 2 T; of a relation: 0 `>=`, 1 `<=`, 2 `>`, 3 `<`, 4 `=`.
ghost use Rattle.std.specs.Prelude.{◌≡◌, true, false, ◌<◌};
ghost use Rattle.grammar.specs.inner.Table.{field_of, relation_of, unary_from};
ghost use Rattle.leaves.specs.inner.Leaf.{leaf_of};
ghost use Rattle.marks.specs.Marks.{marks_of};
ghost use Rattle.assured.specs.Assured.{of_curve, of_side, of_time, is_eq, is_gt};
ghost use Rattle.assured.specs.inner.Traits as spec;

use crate::traits;
use crate::traits::{Kind, Traits};
use grammar::{Row, kinds};
use text::table::between;

// Whether the field is a curve.
fn is_curve(field: u32) -> bool
    ensures { result ≡ of_curve (field_of field) }
{
    field < 2
}

// Whether `A>B` and `A<=B` compare by this.
fn is_side(relation: u32) -> bool
    ensures { result ≡ of_side (relation_of relation) }
{
    matches!(relation, 1 | 2)
}

// Whether a time that has the relation to a number has it at later readings too.
fn stays_later(relation: u32) -> bool
    ensures { result ≡ of_time (relation_of relation) true }
{
    matches!(relation, 0 | 2)
}

// Whether it had it at earlier ones.
fn was_earlier(relation: u32) -> bool
    ensures { result ≡ of_time (relation_of relation) false }
{
    matches!(relation, 1 | 3)
}

fn is_eq(relation: u32) -> bool
    ensures { result ≡ is_eq (relation_of relation) }
{
    3 < relation
}

fn is_gt(relation: u32) -> bool
    ensures { result ≡ is_gt (relation_of relation) }
{
    relation == 2
}

// The kind of an atom.
fn kind_of(row: Row, marks: &[u8]) -> Kind
    ensures { result ≡ spec.kind_of (marks_of marks.now) row }
{
    let kind = row.kind;
    let compares = kind <= kinds::COMPARE;
    let curve = is_curve(row.first);
    let marked = marks::has_index(marks, row.number);
    Kind {
        pigment: kind == kinds::PIGMENT,
        side: (kind == kinds::A_TO_B) & is_side(row.second),
        up: compares & (!curve & stays_later(row.second)),
        down: compares & (!curve & was_earlier(row.second)),
        slope: between(kind, kinds::FALL, kinds::RISE),
        bound: compares & (curve & !is_eq(row.second)),
        after: (kind == kinds::COMPARE) & (!curve & (is_gt(row.second) & marked)),
        named: kind == kinds::COMPARE_V,
    }
}

// The traits of a leaf.
pub fn leaf(row: Row, marks: &[u8]) -> Traits
    requires { row.kind < unary_from }
    ensures { result ≡ spec.traits (marks_of marks.now) (leaf_of row) }
{
    let kind = row.kind;
    if kind < kinds::HIGH {
        return traits::of_atom(kind_of(row, marks));
    }
    if between(kind, kinds::LOWAFTER, kinds::CAPAFTER) {
        return traits::of_listed(marks::has_index(marks, row.number));
    }
    traits::of_listed(true)
}
