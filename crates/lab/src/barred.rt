// Refusal 14 of a text: a scan over its nodes.
ghost use Rattle.std.specs.Prelude.{◌≡◌, ◌*◌, ◌≤◌, length};
ghost use Rattle.grammar.specs.Syntax.{Text};
ghost use Rattle.parser.specs.inner.Rows.{Laid};
ghost use Rattle.marks.specs.Marks.{marks_of};
ghost use Rattle.lab.specs.inner.Barred.{names_both, has_curve, row_names_b, is_temporal, row_barred, not_for_laboratory};

use grammar::{Row, kinds};
use text::table::between;

// Whether a node of this kind is about both curves.
fn names_both(kind: u32) -> bool
    ensures { result ≡ names_both kind }
{
    if kind == kinds::A_TO_B {
        return true;
    }
    if between(kind, kinds::CROSS, kinds::CROSSUP) {
        return true;
    }
    kind == kinds::LAG
}

// Whether a node of this kind is about one curve, whose code is its first number.
fn has_curve(kind: u32) -> bool
    ensures { result ≡ has_curve kind }
{
    if between(kind, kinds::FALL, kinds::RISE) {
        return true;
    }
    if between(kind, kinds::HIGH, kinds::DIPS) {
        return true;
    }
    between(kind, kinds::AMPL, kinds::STEPS)
}

// Whether a node names B.
fn names_b(kind: u32, first: u32) -> bool
    ensures { result ≡ row_names_b kind first }
{
    if names_both(kind) {
        return true;
    }
    if kind <= kinds::COMPARE {
        return first == 1;
    }
    if has_curve(kind) {
        return 0 < first;
    }
    false
}

// Whether a node of this kind is F, G, X, U or W.
fn is_temporal(kind: u32) -> bool
    ensures { result ≡ is_temporal kind }
{
    if between(kind, kinds::NEXT, kinds::GLOBALLY) {
        return true;
    }
    between(kind, kinds::UNTIL, kinds::WEAK_UNTIL)
}

// Whether a laboratory may not write the node of this row.
fn is_barred(row: Row, marks: &[u8]) -> bool
    ensures { result ≡ row_barred (marks_of marks.now) row }
{
    let kind = row.kind;
    if names_b(kind, row.first) {
        return true;
    }
    if between(kind, kinds::LOWAFTER, kinds::CAPAFTER) {
        return !marks::has_index(marks, row.number);
    }
    is_temporal(kind)
}

// Whether 14 meets the text of the first n rows.
pub fn some_barred(table: &[u32], n: usize, marks: &[u8]) -> bool
    requires { 4 * n ≤ length table.now }
    ensures { (t : Text) → Laid table.now 0 n t → result ≡ not_for_laboratory (marks_of marks.now) t }
{
    for i in 0..n {
        if is_barred(evaluation::rows::row_at(table, i), marks) {
            return true;
        }
    }
    false
}
