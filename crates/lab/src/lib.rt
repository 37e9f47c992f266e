// The calls of a buyer's laboratory: question, degree and pair over A, refused by 14 where what is asked could tell of B.
#![tactic(auto)]

ghost use Rattle.std.specs.Prelude.{◌≡◌, ◌*◌, ◌≤◌, length};
ghost use Rattle.refusal.specs.Outcome.{reported, judged};
ghost use Rattle.recording.specs.Output.{Answers};
ghost use Rattle.grammar.specs.Size.{most_bytes};
ghost use Rattle.grammar.specs.Syntax.{Text};
ghost use Rattle.parser.specs.inner.Rows.{Laid};
ghost use Rattle.degree.specs.Degree as degrees;
ghost use Rattle.pair.specs.Pair as pairs;
ghost use Rattle.lab.specs.Lab.{asker_lines, lab_question_of, lab_degree_of, lab_pair_of};
ghost use Rattle.lab.specs.inner.Prepare.{LabPrepares};

mod barred;

use degree::Nearness;
use pair::TopPair;
use refusal::Refusal;

// A text of n nodes that was read, unless 11 or 14 refuses it.
fn allowed(table: &[u32], n: usize, marks: &[u8]) -> Result<usize, Refusal>
    requires { 4 * n ≤ length table.now }
    ensures { (t : Text) → Laid table.now 0 n t → reported result ≡ judged (asker_lines marks.now t) n }
{
    if marks::are_bad(marks) {
        return Err(Refusal::BadMarks);
    }
    if barred::some_barred(table, n, marks) {
        return Err(Refusal::NotForLaboratory);
    }
    Ok(n)
}

// Reads a laboratory's text into the table: the refusals 1 to 7, 11 and 14.
fn prepare(rec: &[u8], marks: &[u8], text: &[u8], table: &mut [u32]) -> Result<usize, Refusal>
    requires { 4 * most_bytes ≤ length table.old }
    ensures { LabPrepares rec.now marks.now text.now table.new result }
{
    let count = question::prepare::prepare(rec, text, table)?;
    allowed(table, count, marks)
}

// THE LABORATORY'S QUESTION CALL: the bytes of the set of numbers with which the text is true of the recording, or the refusal.
pub fn lab_question(rec: &[u8], marks: &[u8], text: &[u8], out: &mut [u8]) -> Result<usize, Refusal>
    ensures { Answers (lab_question_of rec.now marks.now text.now (length out.old)) out.old result out.new }
{
    let mut table = [0u32; text::TABLE_SIZE];
    let count = prepare(rec, marks, text, &mut table)?;
    question::answer(rec, &table, count, out)
}

// THE LABORATORY'S DEGREE CALL: whether the target makes the question true, and else how near the nearest number that does comes to it.
pub fn lab_degree(rec: &[u8], marks: &[u8], text: &[u8], target: i64) -> Result<Nearness, Refusal>
    ensures { degrees.outcome_of result ≡ lab_degree_of rec.now marks.now text.now target }
{
    let mut table = [0u32; text::TABLE_SIZE];
    let count = prepare(rec, marks, text, &mut table)?;
    degree::near_target(rec, &table, count, target)
}

// The pair call on B, which no laboratory may ask: the refusals 1 to 4, 12 and 14.
fn pair_of_b(rec: &[u8], target: i64) -> Result<Option<TopPair>, Refusal>
    ensures { pairs.outcome_of result ≡ lab_pair_of rec.now 1 target }
{
    let n = recording::check(rec)?;
    if n == 0 {
        return Err(Refusal::NoRecord);
    }
    let Some(_) = targets::on_axis(target) else {
        return Err(Refusal::BadTarget);
    };
    Err(Refusal::NotForLaboratory)
}

// THE LABORATORY'S PAIR CALL: the times of the first two tops of A whose later time minus the earlier is the target.
pub fn lab_pair(rec: &[u8], curve: u32, target: i64) -> Result<Option<TopPair>, Refusal>
    ensures { pairs.outcome_of result ≡ lab_pair_of rec.now curve target }
{
    if curve == 1 {
        return pair_of_b(rec, target);
    }
    pair::pair(rec, curve, target)
}
