// Which texts the kept readings answer as the recording did: read, judged node by node, and told.
#![tactic(auto)]

ghost use Rattle.std.specs.Prelude.{◌≡◌, ◌*◌, ◌≤◌, ◌<◌, length};
ghost use Rattle.refusal.specs.Outcome.{judged};
ghost use Rattle.reply.specs.Reply.{packed, InHalf};
ghost use Rattle.grammar.specs.inner.Table.{tree_at, Falling};
ghost use Rattle.marks.specs.Marks.{marks_of};
ghost use Rattle.assured.specs.Call.{told, assured_of};
ghost use Rattle.assured.specs.inner.Traits as spec;
ghost use Rattle.assured.specs.inner.Verdict.{verdict_of, Judges};

mod leaf;
mod operators;
mod traits;

use grammar::kinds;
use refusal::Refusal;
use traits::Traits;

// The traits of node n.
fn traits_at(table: &[u32], count: usize, marks: &[u8], n: usize) -> Traits
    requires { Falling table.now count × (4 * count ≤ length table.now) × (n < count) }
    ensures { result ≡ spec.traits (marks_of marks.now) (tree_at table.now n) }
{
    let row = evaluation::rows::row_at(table, n);
    let kind = row.kind;
    if kind < kinds::NOT {
        return leaf::leaf(row, marks);
    }
    let first = traits_at(table, count, marks, row.first as usize);
    if kind < kinds::OR {
        return operators::unary(kind, first);
    }
    let second = traits_at(table, count, marks, row.second as usize);
    operators::binary(kind, first, second)
}

// The verdict on a text of n nodes that was read.
fn judge(table: &[u32], n: usize, marks: &[u8]) -> Result<bool, Refusal>
    requires { Falling table.now n × (4 * n ≤ length table.now) × (0 < n) }
    ensures { Judges table.now n marks.now result }
{
    if marks::are_bad(marks) {
        return Err(Refusal::BadMarks);
    }
    let root = traits_at(table, n, marks, n - 1);
    Ok(traits::assured(root))
}

// THE CALL: whether kept readings answer the text as the recording did, under these marks.
pub fn assured(text: &[u8], marks: &[u8]) -> Result<bool, Refusal>
    ensures { verdict_of result ≡ assured_of text.now marks.now }
{
    let mut table = [0u32; text::TABLE_SIZE];
    let n = text::read(text, &mut table)?;
    judge(&table, n, marks)
}

// The number that stands for the verdict: 1, 0, or the refusal.
pub fn tell(verdict: Result<bool, Refusal>) -> u64
    requires { InHalf (verdict_of verdict) }
    ensures { result ≡ packed (verdict_of verdict) }
{
    match verdict {
        Ok(yes) => {
            if yes {
                return 1;
            }
            0
        }
        Err(x) => reply::refused(x),
    }
}
