// Input that comes in pieces and may be longer than what is kept of it.
ghost use Rattle.std.specs.Prelude.{◌≤◌, length};
ghost use Rattle.io.specs.Counts.{IsPrefixLen};
ghost use Rattle.page.specs.Intake.{TakesIn, spare};

use crate::put;

// The size of a record: a limit is a multiple of it.
const BLOCK: usize = 16;

// What a store has beyond its limit.
const SPARE: usize = 2 * BLOCK;

// The store of a recording, and that of a text with its newline.
pub const RECORDING_STORE: usize = BLOCK * recording::MOST_RECORDS + SPARE;

pub const TEXT_STORE: usize = text::MOST_BYTES + BLOCK + SPARE;

// Takes the next piece in behind the n bytes that are kept, and tells how many are kept then.
pub fn take_in(store: &mut [u8], n: usize, piece: &[u8]) -> usize
    requires { (spare ≤ length store.old) × (n ≤ length store.old) }
    ensures takes_in { TakesIn store.old n piece.now store.new result }
    ensures prefix_len { IsPrefixLen result store.new }
{
    let limit = store.len() - SPARE;
    let total = n + piece.len();
    if limit < total {
        return limit + BLOCK + total % BLOCK;
    }
    put::bytes(store, n, piece)
}
