// The question text: its one reading, as a table of nodes, or a refusal.
#![tactic(auto)]

ghost use Rattle.std.specs.Prelude.{◌≡◌, ◌*◌, ◌≤◌, length};
ghost use Rattle.grammar.specs.Size.{most_bytes};
ghost use Rattle.grammar.specs.Syntax.{Text};
ghost use Rattle.parser.specs.inner.Rows.{Laid};
ghost use Rattle.text.specs.inner.Judge.{judged_text};
ghost use Rattle.text.specs.Told.{Told};

mod brackets;
pub mod table;

use parser::Got;
use refusal::Refusal;

// The most bytes of a text.
pub const MOST_BYTES: usize = 256;

// The most nodes of a text.
pub const MOST_NODES: usize = 32;

// The numbers of a table that holds any text: four to a node, and no more nodes than bytes.
pub const TABLE_SIZE: usize = 4 * MOST_BYTES;

// The answer for a text whose tree the first n rows hold: how many nodes it has.
fn judge(text: &[u8], table: &[u32], n: usize) -> Result<usize, Refusal>
    requires { 4 * n ≤ length table.now }
    ensures { (t : Text) → Laid table.now 0 n t → result ≡ judged_text text.now t }
{
    if table::is_mixed(table, n) {
        return Err(Refusal::NoReading);
    }
    if MOST_NODES < n {
        return Err(Refusal::TextTooLarge);
    }
    if brackets::too_deep(text) {
        return Err(Refusal::TextTooLarge);
    }
    Ok(n)
}

// Reads a text into the table, and says how many nodes stand there for its one reading.
pub fn read(text: &[u8], table: &mut [u32]) -> Result<usize, Refusal>
    requires { 4 * most_bytes ≤ length table.old }
    ensures { Told text.now table.new result }
{
    let size = text.len();
    if size == 0 {
        return Err(Refusal::TextLength);
    }
    if MOST_BYTES < size {
        return Err(Refusal::TextLength);
    }
    match parser::or_text(text, table, 0, 0) {
        Some(Got { end: e, nodes: n }) => {
            if e == size {
                judge(text, table, n)
            } else {
                Err(Refusal::NoReading)
            }
        }
        None => Err(Refusal::NoReading),
    }
}
