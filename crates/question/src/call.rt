// THE QUESTION CALL.
ghost use Rattle.std.specs.Prelude.{◌-◌, ◌*◌, ◌<◌, length};
ghost use Rattle.grammar.specs.inner.Kinds.{NOT};
ghost use Rattle.grammar.specs.inner.Table.{row_at};
ghost use Rattle.recording.specs.Output.{Answers};
ghost use Rattle.evaluation.specs.inner.Evaluation.{text_of};
ghost use Rattle.question.specs.Question.{question_of, answer_of, written_of};
ghost use Rattle.question.specs.inner.Answered.{Answerable};
ghost use Rattle.runs.specs.Set.{member, Valid};

use refusal::Refusal;
use runset::RunSet;

// Writes a set, if the output is long enough.
fn write_set(set: &[u32], out: &mut [u8]) -> Result<usize, Refusal>
    requires { Valid set.now }
    ensures { Answers (written_of (member set.now) (length out.old)) out.old result out.new }
{
    let size = 8 * RunSet::count(set);
    if out.len() < size {
        return Err(Refusal::ShortOutput);
    }
    RunSet::write(set, out);
    Ok(size)
}

// Answers a text of one leaf.
fn answer_leaf(rec: &[u8], table: &[u32], count: usize, out: &mut [u8]) -> Result<usize, Refusal>
    requires { Answerable table.now count rec.now × ((row_at table.now (count - 1)).kind < NOT) }
    ensures { Answers (answer_of rec.now (text_of table.now count) (length out.old)) out.old result out.new }
{
    let mut set = [0u32; runset::SLOT];
    crate::answered::of_leaf(rec, table, count, &mut set)?;
    write_set(&set, out)
}

// Answers any other.
fn answer_tree(rec: &[u8], table: &[u32], count: usize, out: &mut [u8]) -> Result<usize, Refusal>
    requires { Answerable table.now count rec.now }
    ensures { Answers (answer_of rec.now (text_of table.now count) (length out.old)) out.old result out.new }
{
    let mut set = [0u32; runset::SLOT];
    crate::answered::of_tree(rec, table, count, &mut set)?;
    write_set(&set, out)
}

// Answers a text that was read.
pub fn answer(rec: &[u8], table: &[u32], count: usize, out: &mut [u8]) -> Result<usize, Refusal>
    requires { Answerable table.now count rec.now }
    ensures { Answers (answer_of rec.now (text_of table.now count) (length out.old)) out.old result out.new }
{
    if crate::answered::is_leaf(table, count) {
        return answer_leaf(rec, table, count, out);
    }
    answer_tree(rec, table, count, out)
}

// The bytes of the set of numbers with which the text is true of the recording, or the refusal.
pub fn question(rec: &[u8], text: &[u8], out: &mut [u8]) -> Result<usize, Refusal>
    ensures { Answers (question_of rec.now text.now (length out.old)) out.old result out.new }
{
    let mut table = [0u32; text::TABLE_SIZE];
    let count = crate::prepare::prepare(rec, text, &mut table)?;
    answer(rec, &table, count, out)
}
