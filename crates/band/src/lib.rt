// The band call: what a question on extremes says of every curve within plus or minus e of a recording, and of at least one.
#![tactic(auto)]

ghost use Rattle.std.specs.Prelude.{◌≡◌, [], ◌∷◌, ◌≤◌, ◌<◌};
ghost use Rattle.number.specs.Axis.{whole};
ghost use Rattle.refusal.specs.Outcome.{judged};
ghost use Rattle.meaning.specs.inner.Coded.{coded};
ghost use Rattle.evaluation.specs.inner.Evaluation.{text_of};
ghost use Rattle.question.specs.inner.Answered.{Answerable};
ghost use Rattle.band.specs.Band.{widest};
ghost use Rattle.band.specs.inner.Ends.{bands_of};
ghost use Rattle.band.specs.Call.{width_of, the_question, width_line, extreme_line, outcome_of, band_of};

pub mod ends;

use grammar::kinds;
use refusal::Refusal;

// A run of numbers, by the indices of its ends.
#[derive(Clone, Copy)]
pub struct Run {
    pub low: u32,
    pub high: u32,
}

// The numbers true of every curve within the band, and those true of at least one: a run each, or none.
#[derive(Clone, Copy)]
pub struct Bands {
    pub certain: Option<Run>,
    pub possible: Option<Run>,
}

// The widest band.
pub const WIDEST: u32 = 1_000_000;

// The two sets of a text that was read, where it is one question on extremes alone.
fn of_text(rec: &[u8], table: &[u32], count: usize, e: u32) -> Result<Bands, Refusal>
    requires { Answerable table.now count rec.now × (e ≤ widest) }
    ensures { outcome_of result ≡ judged (extreme_line (text_of table.now count) ∷ []) (bands_of (the_question (text_of table.now count)) e (coded rec.now)) }
{
    let row = evaluation::rows::row_at(table, count - 1);
    let kind = row.kind;
    let curve = recording::curve(row.first);
    if kind == kinds::HIGH {
        return Ok(ends::high(rec, curve, e));
    }
    if kind == kinds::LOW {
        return Ok(ends::low(rec, curve, e));
    }
    if kind == kinds::LOWAFTER {
        return Ok(ends::lowafter(rec, curve, row.number, e));
    }
    if kind == kinds::CAPAFTER {
        return Ok(ends::capafter(rec, curve, row.number, e));
    }
    if kind == kinds::AMPL {
        return Ok(ends::ampl(rec, curve, e));
    }
    Err(Refusal::NotBandQuestion)
}

// The two sets of a text that was read, where the band is not too wide: its e is the number at an index.
fn at_index(rec: &[u8], table: &[u32], count: usize, index: u32) -> Result<Bands, Refusal>
    requires { Answerable table.now count rec.now }
    ensures { outcome_of result ≡ judged (width_line (whole index) ∷ extreme_line (text_of table.now count) ∷ []) (bands_of (the_question (text_of table.now count)) (width_of (whole index)) (coded rec.now)) }
{
    if index < number::ORIGIN {
        return Err(Refusal::BadBand);
    }
    let e = index - number::ORIGIN;
    if WIDEST < e {
        return Err(Refusal::BadBand);
    }
    of_text(rec, table, count, e)
}

// The two sets of a text that was read, within any band.
fn within(rec: &[u8], table: &[u32], count: usize, e: i64) -> Result<Bands, Refusal>
    requires { Answerable table.now count rec.now }
    ensures { outcome_of result ≡ judged (width_line e ∷ extreme_line (text_of table.now count) ∷ []) (bands_of (the_question (text_of table.now count)) (width_of e) (coded rec.now)) }
{
    let Some(index) = targets::on_axis(e) else {
        return Err(Refusal::BadBand);
    };
    at_index(rec, table, count, index)
}

// THE BAND CALL: the numbers with which the question is true of every curve within e of the recording, and those with which it is true of at least one.
pub fn band(rec: &[u8], text: &[u8], e: i64) -> Result<Bands, Refusal>
    ensures { outcome_of result ≡ band_of rec.now text.now e }
{
    let mut table = [0u32; text::TABLE_SIZE];
    let count = question::prepare::prepare(rec, text, &mut table)?;
    within(rec, &table, count, e)
}
