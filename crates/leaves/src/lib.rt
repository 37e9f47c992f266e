// The set of a leaf at one record: of an atom, or of a listed question.
#![tactic(auto)]

mod atoms;
pub mod extremes;
mod fields;
pub mod span;
mod times;

ghost use Rattle.std.specs.Prelude.{◌≡◌, ℕ, ◌<◌, ◌≤◌, length};
ghost use Rattle.runs.specs.Set.{slot_words, Holds, Makes};
ghost use Rattle.meaning.specs.inner.Truth.{val, asks_too_many, of_listed};
ghost use Rattle.grammar.specs.inner.Kinds.{COMPARE-V, HIGH, PEAKS, DOSE, AMPL, GAPS};
ghost use Rattle.meaning.specs.inner.Coded.{coded};
ghost use Rattle.leaves.specs.inner.Leaf.{leaf_of, times_of, Asked};
ghost use Rattle.grammar.specs.Syntax.{listed};
ghost use Rattle.tops.specs.inner.Events.{event_of, Known};
ghost use Rattle.leaves.specs.inner.Span.{Spans};
ghost use Rattle.leaves.specs.inner.Differing.{refusal_of, Differs};
ghost use Rattle.recording.specs.Recording.{Accepted};
ghost use Rattle.grammar.specs.inner.Table.{unary_from};

use grammar::{Row, kinds};
use refusal::Refusal;
use runs::TooManyRuns;
use runset::RunSet;
use span::Span;
use tops::Event;

// Why a set of differences between tops is not made.
#[derive(Clone, Copy, Debug, PartialEq, Eq)]
pub enum TooMany {
    // A curve has too many tops.
    Tops,
    // The set has too many runs.
    Runs,
}

impl From<TooManyRuns> for TooMany {
    ghost use Rattle.leaves.specs.declared.TooMany.{TooMany};

    ghost from_gives = { λ _ e. e ≡ TooMany.Runs };

    fn from(_e: TooManyRuns) -> TooMany {
        TooMany::Runs
    }
}

impl From<TooMany> for Refusal {
    ghost from_gives = { λ e r. r ≡ refusal_of e };

    fn from(e: TooMany) -> Refusal {
        match e {
            TooMany::Tops => Refusal::TooManyTops,
            TooMany::Runs => Refusal::TooManyRuns,
        }
    }
}

// Whether an atom without v holds.
fn holds(rec: &[u8], i: usize, row: Row) -> bool
    requires { Asked rec.now i row × (COMPARE-V < row.kind) × (row.kind < HIGH) }
    ensures { (v : ℕ) → result ≡ val (coded rec.now) v (leaf_of row) i }
{
    let kind = row.kind;
    if kind == kinds::COMPARE {
        return atoms::against_number(rec, i, row.first, row.second, row.number);
    }
    if kind == kinds::A_TO_B {
        return atoms::a_to_b(rec, i, row.second);
    }
    if kind == kinds::FALL {
        return atoms::sloped(rec, i, row.first, recording::FALLING);
    }
    if kind == kinds::RISE {
        return atoms::sloped(rec, i, row.first, recording::RISING);
    }
    atoms::adding(rec, i, row.number)
}

// THE SET OF AN ATOM at record i: the numbers to which a field is related; and, of an atom without v, the whole axis or nothing.
pub fn atom(rec: &[u8], i: usize, row: Row, set: &mut [u32])
    requires { Asked rec.now i row × (row.kind < HIGH) × (length set.old ≡ slot_words) }
    ensures { Holds (λ v. val (coded rec.now) v (leaf_of row) i) set.new }
{
    if row.kind == kinds::COMPARE_V {
        let s = atoms::against_v(rec, i, row.first, row.second);
        RunSet::span(s.low, s.high, set);
        return;
    }
    if holds(rec, i, row) {
        RunSet::whole(set);
        return;
    }
    RunSet::empty(set);
}

// `high`, `low`, `lowafter` and `capafter`, whose sets have at most one run.
fn extreme(rec: &[u8], i: usize, row: Row) -> Span
    requires { Asked rec.now i row × (HIGH ≤ row.kind) × (row.kind < PEAKS) }
    ensures { Spans (λ v. val (coded rec.now) v (leaf_of row) i) result }
{
    let kind = row.kind;
    let curve = recording::curve(row.first);
    if kind == kinds::HIGH {
        return extremes::high(rec, curve);
    }
    if kind == kinds::LOW {
        return extremes::low(rec, curve);
    }
    if kind == kinds::LOWAFTER {
        return extremes::lowafter(rec, curve, row.number);
    }
    extremes::capafter(rec, curve, row.number)
}

// `ampl`, which has one run too.
fn amplitude(rec: &[u8], i: usize, row: Row) -> Span
    requires { Asked rec.now i row × (row.kind ≡ AMPL) }
    ensures { Spans (λ v. val (coded rec.now) v (leaf_of row) i) result }
{
    extremes::ampl(rec, recording::curve(row.first))
}

// The event whose times a leaf asks for: `peaks`, `dips`, `cross` or `crossup`.
fn event_of(row: Row) -> Event
    requires { (PEAKS ≤ row.kind) × (row.kind < DOSE) }
    ensures { Known result × (leaf_of row ≡ listed (times_of (event_of result))) }
{
    let kind = row.kind;
    if kind == kinds::CROSS {
        return Event::Crossing;
    }
    if kind == kinds::CROSSUP {
        return Event::Upcrossing;
    }
    let curve = recording::curve(row.first);
    if kind == kinds::PEAKS {
        return Event::Top(curve);
    }
    Event::Dip(curve)
}

// Leaves on events.
fn happening(rec: &[u8], i: usize, row: Row, set: &mut [u32]) -> Result<(), TooManyRuns>
    requires { Asked rec.now i row × (PEAKS ≤ row.kind) × (row.kind < DOSE) × (length set.old ≡ slot_words) }
    ensures { Makes (λ v. val (coded rec.now) v (leaf_of row) i) set.new result }
{
    times::events(rec, event_of(row), set)
}

// `dose`.
fn added(rec: &[u8], i: usize, row: Row, set: &mut [u32]) -> Result<(), TooManyRuns>
    requires { Asked rec.now i row × (row.kind ≡ DOSE) × (length set.old ≡ slot_words) }
    ensures { Makes (λ v. val (coded rec.now) v (leaf_of row) i) set.new result }
{
    times::additions(rec, row.number, set)
}

// LEAVES ON DIFFERENCES BETWEEN TOPS: `gaps`, `steps` and `lag`. Too many tops come before too many runs.
pub fn between_tops(rec: &[u8], row: Row, set: &mut [u32]) -> Result<(), TooMany>
    requires { Accepted rec.now × (GAPS ≤ row.kind) × (row.kind < unary_from) × (length set.old ≡ slot_words) }
    ensures { (i : ℕ) → Differs (of_listed (asks_too_many (coded rec.now)) (leaf_of row)) (λ v. val (coded rec.now) v (leaf_of row) i) set.new result }
{
    let kind = row.kind;
    if kind == kinds::LAG {
        return times::lag(rec, set);
    }
    let curve = recording::curve(row.first);
    if kind == kinds::GAPS {
        return times::gaps(rec, curve, set);
    }
    times::steps(rec, curve, set)
}

// The same where the tops are few enough.
fn apart(rec: &[u8], i: usize, row: Row, set: &mut [u32]) -> Result<(), TooManyRuns>
    requires { Asked rec.now i row × (GAPS ≤ row.kind) × (length set.old ≡ slot_words) }
    ensures { Makes (λ v. val (coded rec.now) v (leaf_of row) i) set.new result }
{
    between_tops(rec, row, set).map_err(|_| TooManyRuns)
}

// THE SET OF A LEAF at record i.
pub fn leaf(rec: &[u8], i: usize, row: Row, set: &mut [u32]) -> Result<(), TooManyRuns>
    requires { Asked rec.now i row × (length set.old ≡ slot_words) }
    ensures { Makes (λ v. val (coded rec.now) v (leaf_of row) i) set.new result }
{
    let kind = row.kind;
    if kind < kinds::HIGH {
        atom(rec, i, row, set);
        return Ok(());
    }
    if kind < kinds::PEAKS {
        let s = extreme(rec, i, row);
        RunSet::span(s.low, s.high, set);
        return Ok(());
    }
    if kind < kinds::DOSE {
        return happening(rec, i, row, set);
    }
    if kind == kinds::DOSE {
        return added(rec, i, row, set);
    }
    if kind == kinds::AMPL {
        let s = amplitude(rec, i, row);
        RunSet::span(s.low, s.high, set);
        return Ok(());
    }
    apart(rec, i, row, set)
}
