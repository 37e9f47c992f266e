// The answered set of a text that was read: the refusals 9 and 8. A text of one leaf goes its own way, so that it does not take the room of the tables of sets.
ghost use Rattle.std.specs.Prelude.{◌≡◌, ◌-◌, ◌*◌, ◌≤◌, ◌<◌, ltb, length};
ghost use Rattle.recording.specs.Recording.{Accepted};
ghost use Rattle.runs.specs.Set.{slot_words};
ghost use Rattle.grammar.specs.inner.Kinds.{NOT};
ghost use Rattle.grammar.specs.inner.Table.{row_at};
ghost use Rattle.meaning.specs.inner.Coded.{coded};
ghost use Rattle.meaning.specs.inner.Truth.{val, asks_too_many, of_listed};
ghost use Rattle.leaves.specs.inner.Leaf.{leaf_of};
ghost use Rattle.leaves.specs.inner.Differing.{Differs};
ghost use Rattle.evaluation.specs.inner.Evaluation.{text_of};
ghost use Rattle.question.specs.inner.Answered.{Answerable, Gives};

use grammar::{Row, kinds};
use leaves::TooMany;
use refusal::Refusal;

// THE SET OF A TEXT at the first record, unless it is refused: 9 by a search for tops, then 8 and the set by an evaluation.
pub fn of_tree(rec: &[u8], table: &[u32], count: usize, set: &mut [u32]) -> Result<(), Refusal>
    requires { Answerable table.now count rec.now × (length set.old ≡ slot_words) }
    ensures { Gives rec.now (text_of table.now count) set.new result }
{
    if crate::limits::asks(table, count, rec, count - 1) {
        return Err(Refusal::TooManyTops);
    }
    let ahead = text::table::is_temporal(table, count);
    evaluation::evaluate(table, count, ahead, rec, set)?;
    Ok(())
}

// A leaf alone. Differences between tops are read once, for 9 and for the set.
fn alone(rec: &[u8], row: Row, set: &mut [u32]) -> Result<(), TooMany>
    requires { Accepted rec.now × (0 < length (coded rec.now)) × (row.kind < NOT) × (length set.old ≡ slot_words) }
    ensures { Differs (of_listed (asks_too_many (coded rec.now)) (leaf_of row)) (λ v. val (coded rec.now) v (leaf_of row) 0) set.new result }
{
    if kinds::GAPS <= row.kind {
        return leaves::between_tops(rec, row, set);
    }
    leaves::leaf(rec, 0, row, set)?;
    Ok(())
}

// THE SET OF A TEXT OF ONE LEAF.
pub fn of_leaf(rec: &[u8], table: &[u32], count: usize, set: &mut [u32]) -> Result<(), Refusal>
    requires { Answerable table.now count rec.now × ((row_at table.now (count - 1)).kind < NOT) × (length set.old ≡ slot_words) }
    ensures { Gives rec.now (text_of table.now count) set.new result }
{
    let root = evaluation::rows::row_at(table, count - 1);
    alone(rec, root, set)?;
    Ok(())
}

// Whether a text is one leaf.
pub fn is_leaf(table: &[u32], count: usize) -> bool
    requires { (0 < count) × (4 * count ≤ length table.now) }
    ensures { result ≡ ltb (row_at table.now (count - 1)).kind NOT }
{
    text::table::kind(table, count - 1) < kinds::NOT
}
