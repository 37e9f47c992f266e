// Reading a text that is to be asked of a recording: the refusals 1 to 7.
ghost use Rattle.std.specs.Prelude.{◌*◌, ◌≤◌, length};
ghost use Rattle.grammar.specs.Size.{most_bytes};
ghost use Rattle.question.specs.inner.Prepare.{Prepares};

use refusal::Refusal;

// Reads the text into the table, if the recording is accepted and has a record, and says how many nodes stand there.
pub fn prepare(rec: &[u8], text: &[u8], table: &mut [u32]) -> Result<usize, Refusal>
    requires { 4 * most_bytes ≤ length table.old }
    ensures { Prepares rec.now text.now table.new result }
{
    let records = recording::check(rec)?;
    if records == 0 {
        return Err(Refusal::NoRecord);
    }
    text::read(text, table)
}
