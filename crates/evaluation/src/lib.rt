// Evaluation of a text over a recording, from the last record to the first.
#![tactic(auto)]

mod node;
pub mod rows;
pub mod slots;
mod step;

ghost use Rattle.std.specs.Prelude.{◌≡◌, true, false, ◌-◌, length};
ghost use Rattle.runs.specs.Set.{slot_words, shared_words};
ghost use Rattle.meaning.specs.inner.Coded.{coded};
ghost use Rattle.grammar.specs.Size.{temporal};
ghost use Rattle.evaluation.specs.inner.Slots.{Sized};
ghost use Rattle.evaluation.specs.inner.Evaluate.{Evaluable, HasChild, NodePromise};
ghost use Rattle.evaluation.specs.inner.Evaluation.{text_of, Asking, Evaluates};

use grammar::kinds;
use rows::ROWS;
use runs::TooManyRuns;
use runset::{RunSet, SHARED};
use slots::TABLE;

// The rows of a text, a slot to each node, and the words that joining is lent. References to them fit in a register, where a slice does not.
type Rows = [u32; ROWS];

type Sets = [u32; TABLE];

type Shared = [u32; SHARED];

// Evaluates node n of a text at record i; the node is no leaf, and the nodes under it are evaluated first.
// Its set goes to its slot in `own`, the sets of its children go to theirs in `other`, those of their children to `own` again, and so on.
#[cycle(child_eval)]
fn eval(
    table: &Rows,
    rec: &[u8],
    i: usize,
    n: usize,
    own: &mut Sets,
    other: &mut Sets,
    shared: &mut Shared,
) -> Result<(), TooManyRuns>
    requires { Evaluable table.now rec.now i n own.old other.old × (length shared.old ≡ shared_words) × HasChild table.now n }
    ensures { NodePromise table.now rec.now i n own.old other.old own.new other.new result
        × Sized own.new × Sized other.new × (length shared.new ≡ shared_words) }
{
    let row = rows::row_at(table, n);
    let kind = row.kind;
    let first = row.first as usize;
    child(table, rec, i, first, other, own, shared)?;
    let last = i + 1 == rec.len() / 16;
    if kind < kinds::OR {
        return node::one_at(kind, last, n, first, own, other, shared);
    }
    let second = row.second as usize;
    child(table, rec, i, second, other, own, shared)?;
    node::two_at(kind, last, n, first, second, own, other, shared)
}

// The same of any node: a leaf is evaluated at once.
#[cycle(child_eval)]
fn child(
    table: &Rows,
    rec: &[u8],
    i: usize,
    n: usize,
    own: &mut Sets,
    other: &mut Sets,
    shared: &mut Shared,
) -> Result<(), TooManyRuns>
    requires { Evaluable table.now rec.now i n own.old other.old × (length shared.old ≡ shared_words) }
    ensures { NodePromise table.now rec.now i n own.old other.old own.new other.new result
        × Sized own.new × Sized other.new × (length shared.new ≡ shared_words) }
{
    let row = rows::row_at(table, n);
    if row.kind < kinds::NOT {
        return node::leaf_at(rec, i, row, n, own);
    }
    eval(table, rec, i, n, own, other, shared)
}

// The set of a text without F, G, X, U and W: the first record is enough.
fn at_first(table: &Rows, count: usize, rec: &[u8], out: &mut [u32]) -> Result<(), TooManyRuns>
    requires { Asking table.now count rec.now × (temporal (text_of table.now count) ≡ false) × (length out.old ≡ slot_words) × HasChild table.now (count - 1) }
    ensures { Evaluates (coded rec.now) (text_of table.now count) out.new result }
{
    let mut own = [0u32; TABLE];
    let mut other = [0u32; TABLE];
    let mut shared = [0u32; SHARED];
    let root = count - 1;
    eval(table, rec, 0, root, &mut own, &mut other, &mut shared)?;
    RunSet::copy(slots::set_in(&own, root), out);
    Ok(())
}

// The set of a text with F, G, X, U or W: all records, from the last to the first. The root's set of the record that was evaluated before lies in `a` where `flip` is set.
fn walk(table: &Rows, count: usize, rec: &[u8], out: &mut [u32]) -> Result<(), TooManyRuns>
    requires { Asking table.now count rec.now × (temporal (text_of table.now count) ≡ true) × (length out.old ≡ slot_words) × HasChild table.now (count - 1) }
    ensures { Evaluates (coded rec.now) (text_of table.now count) out.new result }
{
    let mut a = [0u32; TABLE];
    let mut b = [0u32; TABLE];
    let mut shared = [0u32; SHARED];
    let root = count - 1;
    let mut flip = false;
    for i in (0..rec.len() / 16).rev() {
        if flip {
            eval(table, rec, i, root, &mut b, &mut a, &mut shared)?;
            flip = false;
        } else {
            eval(table, rec, i, root, &mut a, &mut b, &mut shared)?;
            flip = true;
        }
    }
    if flip {
        RunSet::copy(slots::set_in(&a, root), out);
        return Ok(());
    }
    RunSet::copy(slots::set_in(&b, root), out);
    Ok(())
}

// The set of a text at the first record, unless some node's set has too many runs. A text of one node needs no table of sets.
pub fn evaluate(
    table: &[u32],
    count: usize,
    ahead: bool,
    rec: &[u8],
    out: &mut [u32],
) -> Result<(), TooManyRuns>
    requires { Asking table.now count rec.now × (temporal (text_of table.now count) ≡ ahead) × (length out.old ≡ slot_words) }
    ensures { Evaluates (coded rec.now) (text_of table.now count) out.new result }
{
    let root = rows::row_at(table, count - 1);
    if root.kind < kinds::NOT {
        return leaves::leaf(rec, 0, root, out);
    }
    let mut rows = [0u32; ROWS];
    rows::copy(table, count, &mut rows);
    if ahead {
        return walk(&rows, count, rec, out);
    }
    at_first(&rows, count, rec, out)
}
