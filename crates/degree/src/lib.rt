// The degree call: how near the answered set of a question comes to a wanted number.
#![tactic(auto)]

ghost use Rattle.std.specs.Prelude.{◌≡◌, ◌∷◌, ◌-◌, ◌<◌};
ghost use Rattle.number.specs.Axis.{axis};
ghost use Rattle.refusal.specs.Outcome.{judged};
ghost use Rattle.runs.specs.Set.{member, Valid};
ghost use Rattle.grammar.specs.inner.Kinds.{NOT};
ghost use Rattle.grammar.specs.inner.Table.{row_at};
ghost use Rattle.meaning.specs.inner.Coded.{coded};
ghost use Rattle.meaning.specs.inner.Coded.{index as index_of};
ghost use Rattle.meaning.specs.inner.Truth.{val};
ghost use Rattle.evaluation.specs.inner.Evaluation.{text_of};
ghost use Rattle.question.specs.inner.Answered.{Answerable};
ghost use Rattle.question.specs.Question.{set_lines};
ghost use Rattle.degree.specs.Degree.{reach_in, graded, valued, value_of, target_line, nearness_of, value_in, outcome_of, reach_to, reached_of};
ghost use Rattle.degree.specs.inner.Reach.{reach_at};

use refusal::Refusal;
use runset::RunSet;

// How near a set comes to the target.
#[derive(Clone, Copy)]
pub enum Nearness {
    // The target is a member of the set.
    Met,
    // The distance to the nearest member, and its degree.
    Short(f64, f64),
    // The set has no member.
    NoValue,
}

// What a distance is worth.
fn grade(d: u32) -> Nearness
    ensures { value_in result ≡ graded d }
{
    if d == 0 {
        return Nearness::Met;
    }
    let distance = binary64::distance_of(d);
    let degree = binary64::degree_of(d);
    Nearness::Short(distance, degree)
}

// The distance of the nearest member, if there is one, graded.
fn graded(x: Option<u32>) -> Nearness
    ensures { value_in result ≡ valued (reach_to x) }
{
    match x {
        Some(d) => grade(d),
        None => Nearness::NoValue,
    }
}

// How far the number at an index is from the nearest member of a set, if it has one.
fn near_set(set: &[u32], index: u32) -> Option<u32>
    requires { Valid set.now × (index < axis) }
    ensures { reach_to result ≡ reach_in (member set.now) index }
{
    RunSet::distance(set, index)
}

// How far the number at an index is from the set of a text of one leaf.
fn near_leaf(rec: &[u8], table: &[u32], count: usize, index: u32) -> Result<Option<u32>, Refusal>
    requires { Answerable table.now count rec.now × (index < axis) × ((row_at table.now (count - 1)).kind < NOT) }
    ensures { reached_of result ≡ judged (set_lines rec.now (text_of table.now count)) (reach_in (λ n. val (coded rec.now) n (text_of table.now count) 0) index) }
{
    let mut set = [0u32; runset::SLOT];
    question::answered::of_leaf(rec, table, count, &mut set)?;
    Ok(near_set(&set, index))
}

// The same of any other text.
fn near_tree(rec: &[u8], table: &[u32], count: usize, index: u32) -> Result<Option<u32>, Refusal>
    requires { Answerable table.now count rec.now × (index < axis) }
    ensures { reached_of result ≡ judged (set_lines rec.now (text_of table.now count)) (reach_in (λ n. val (coded rec.now) n (text_of table.now count) 0) index) }
{
    let mut set = [0u32; runset::SLOT];
    question::answered::of_tree(rec, table, count, &mut set)?;
    Ok(near_set(&set, index))
}

// The same of a text that was read.
fn near_text(rec: &[u8], table: &[u32], count: usize, index: u32) -> Result<Option<u32>, Refusal>
    requires { Answerable table.now count rec.now × (index < axis) }
    ensures { reached_of result ≡ judged (set_lines rec.now (text_of table.now count)) (reach_in (λ n. val (coded rec.now) n (text_of table.now count) 0) index) }
{
    if question::answered::is_leaf(table, count) {
        return near_leaf(rec, table, count, index);
    }
    near_tree(rec, table, count, index)
}

// How near the set of a text that was read comes to a target.
pub fn near_target(
    rec: &[u8],
    table: &[u32],
    count: usize,
    target: i64,
) -> Result<Nearness, Refusal>
    requires { Answerable table.now count rec.now }
    ensures { outcome_of result ≡ judged (target_line target ∷ set_lines rec.now (text_of table.now count)) (value_of (λ n. val (coded rec.now) n (text_of table.now count) 0) (index_of target)) }
{
    let Some(index) = targets::on_axis(target) else {
        return Err(Refusal::BadTarget);
    };
    let reached = near_text(rec, table, count, index)?;
    Ok(graded(reached))
}

// The distance of the number at an index from the answered set, as a whole number; none where the set has no member.
pub fn distance_at(rec: &[u8], text: &[u8], index: u32) -> Result<Option<u32>, Refusal>
    requires { index < axis }
    ensures { reached_of result ≡ reach_at rec.now text.now index }
{
    let mut table = [0u32; text::TABLE_SIZE];
    let count = question::prepare::prepare(rec, text, &mut table)?;
    near_text(rec, &table, count, index)
}

// THE DEGREE CALL: whether the target makes the question true, and else how near the nearest number that does comes to it.
pub fn degree(rec: &[u8], text: &[u8], target: i64) -> Result<Nearness, Refusal>
    ensures { outcome_of result ≡ nearness_of rec.now text.now target }
{
    let mut table = [0u32; text::TABLE_SIZE];
    let count = question::prepare::prepare(rec, text, &mut table)?;
    near_target(rec, &table, count, target)
}
