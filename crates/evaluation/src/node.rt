// One node at one record: its set goes to its slot in `own`. The sets of its children, and its own at the next record, lie in `other`; a child's at the next record lies in `own`.
ghost use Rattle.std.specs.Prelude.{◌≡◌, false, cond, ◌≤◌, ◌<◌, length};
ghost use Rattle.runs.specs.Set.{shared_words, member, Valid};
ghost use Rattle.grammar.specs.Size.{most_nodes};
ghost use Rattle.grammar.specs.inner.Kinds.{NOT, AND};
ghost use Rattle.grammar.specs.inner.Table.{unary_from, binary_from, kinds};
ghost use Rattle.meaning.specs.inner.Coded.{coded};
ghost use Rattle.meaning.specs.inner.Truth.{val};
ghost use Rattle.leaves.specs.inner.Leaf.{leaf_of, Asked};
ghost use Rattle.evaluation.specs.inner.Step.{unary_of, binary_of};
ghost use Rattle.evaluation.specs.inner.Slots.{slot, Sized, Puts};

use crate::{slots, step};
use grammar::{Row, kinds};
use runs::TooManyRuns;
use runset::{RunSet, SLOT};

// A leaf. An atom, the common one, is called apart from the listed questions, which take room on the stack.
pub fn leaf_at(rec: &[u8], i: usize, row: Row, n: usize, own: &mut [u32]) -> Result<(), TooManyRuns>
    requires { Asked rec.now i row × (n < most_nodes) × Sized own.old }
    ensures { Puts (λ v. val (coded rec.now) v (leaf_of row) i) own.old own.new n result }
{
    let from = SLOT * n;
    let end = from + SLOT;
    if row.kind < kinds::HIGH {
        leaves::atom(rec, i, row, &mut own[from..end]);
        return Ok(());
    }
    leaves::leaf(rec, i, row, &mut own[from..end])
}

// X: what its child has at the next record, and at the last record what it has there.
fn next_at(last: bool, n: usize, first: usize, own: &mut [u32], other: &[u32], shared: &mut [u32])
    requires { (n < most_nodes) × (first < most_nodes) × Sized own.old × Sized other.now × Valid (slot other.now first) × (last ≡ false → Valid (slot own.old first))
        × (length shared.old ≡ shared_words) }
    ensures { Puts (λ v. cond last (member (slot other.now first) v) (member (slot own.old first) v)) own.old own.new n (Ok (tt {0})) }
{
    if last {
        slots::put(slots::set_in(other, first), own, n);
        return;
    }
    RunSet::copy(slots::set_in(own, first), &mut shared[..SLOT]);
    slots::put(&shared[..SLOT], own, n);
}

// A node with one child.
pub fn one_at(
    kind: u32,
    last: bool,
    n: usize,
    first: usize,
    own: &mut [u32],
    other: &[u32],
    shared: &mut [u32],
) -> Result<(), TooManyRuns>
    requires { (unary_from ≤ kind) × (kind < binary_from) × (n < most_nodes) × (first < most_nodes) × Sized own.old × Sized other.now × Valid (slot other.now first)
        × (last ≡ false → NOT < kind → Valid (slot other.now n) × Valid (slot own.old first)) × (length shared.old ≡ shared_words) }
    ensures { Puts (λ v. unary_of kind last (member (slot other.now first) v) (member (slot other.now n) v) (member (slot own.old first) v))
        own.old own.new n result }
{
    if kind == kinds::NEXT {
        next_at(last, n, first, own, other, shared);
        return Ok(());
    }
    let from = SLOT * n;
    let end = from + SLOT;
    step::one(
        kind,
        last,
        slots::set_in(other, first),
        slots::set_in(other, n),
        &mut own[from..end],
    )
}

// A node with two children.
pub fn two_at(
    kind: u32,
    last: bool,
    n: usize,
    first: usize,
    second: usize,
    own: &mut [u32],
    other: &[u32],
    shared: &mut [u32],
) -> Result<(), TooManyRuns>
    requires { (binary_from ≤ kind) × (kind < kinds) × (n < most_nodes) × (first < most_nodes) × (second < most_nodes) × Sized own.old × Sized other.now
        × Valid (slot other.now first) × Valid (slot other.now second) × (last ≡ false → AND < kind → Valid (slot other.now n))
        × (length shared.old ≡ shared_words) }
    ensures { Puts (λ v. binary_of kind last (member (slot other.now first) v) (member (slot other.now second) v) (member (slot other.now n) v))
        own.old own.new n result }
{
    let from = SLOT * n;
    let end = from + SLOT;
    step::two(
        kind,
        last,
        slots::set_in(other, first),
        slots::set_in(other, second),
        slots::set_in(other, n),
        shared,
        &mut own[from..end],
    )
}
