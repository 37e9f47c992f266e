// The two inputs, read to their ends.
ghost use Rattle.std.specs.Prelude.{◌≡◌, ◌≤◌, length, pos, IsSome};
ghost use Rattle.io.specs.Counts.{IsPrefixLen};
ghost use Rattle.page.specs.Intake.{TakesIn, spare};
ghost use Rattle.ask.specs.declared.input.State.TheVariants.{Failed};
ghost use Rattle.ask.specs.Reading.{state_of, is_more, is_ended, Turn, Turns, Recorded};

use std::fs;
use std::io::{Error, ErrorKind, Read};
use std::rt::Files;

// How far an input is read.
#[derive(Clone, Copy)]
pub enum State {
    More,
    Ended,
    Failed,
}

// An input, of which the first bytes of a store are kept.
#[derive(Clone, Copy)]
pub struct Input {
    pub kept: usize,
    pub state: State,
}

// Whether the input was read to its end.
pub fn is_whole(input: Input) -> bool
    ensures { result ≡ is_ended input.state }
{
    matches!(input.state, State::Ended)
}

// Whether there may be more of it.
fn goes_on(input: Input) -> bool
    ensures { result ≡ is_more input.state }
{
    matches!(input.state, State::More)
}

// Takes in the piece that a read handed over, behind the n bytes that are kept. An empty piece is the end.
fn take_read(store: &mut [u8], n: usize, piece: &[u8]) -> Input
    requires { (spare ≤ length store.old) × IsPrefixLen n store.old }
    ensures told { result.state ≡ state_of (pos (length piece.now)) }
    ensures takes { TakesIn store.old n piece.now store.new result.kept }
    ensures prefix_len { IsPrefixLen result.kept store.new }
{
    if piece.is_empty() {
        return Input {
            kept: n,
            state: State::Ended,
        };
    }
    Input {
        kept: page::intake::take_in(store, n, piece),
        state: State::More,
    }
}

// Reads the next piece behind the n bytes that are kept. The error of a read that failed is left in `failure`.
fn read_on<R: Read>(
    reader: &mut R,
    failure: &mut Option<Error>,
    store: &mut [u8],
    n: usize,
) -> Input
    requires { (spare ≤ length store.old) × IsPrefixLen n store.old }
    ensures turn { Turn store.old n store.new result }
    ensures prefix_len { IsPrefixLen result.kept store.new }
    ensures told { result.state ≡ Failed → IsSome failure.new }
{
    let mut buffer = io::buffer();
    match reader.read(&mut buffer) {
        Ok(size) => take_read(store, n, &buffer[..size]),
        Err(error) => {
            *failure = Some(error);
            Input {
                kept: n,
                state: State::Failed,
            }
        }
    }
}

// Reads to the end. A proved loop has to end, and nothing says that an input does: so the turns are counted,
// up to a number that no run comes to. An input that goes on after that is not whole.
pub fn read_all<R: Read>(reader: &mut R, failure: &mut Option<Error>, store: &mut [u8]) -> Input
    requires { spare ≤ length store.old }
    ensures turns { Turns store.old store.new result }
    ensures prefix_len { IsPrefixLen result.kept store.new }
    ensures told { result.state ≡ Failed → IsSome failure.new }
{
    let mut kept: usize = 0;
    for _ in 0..u64::MAX {
        let next = read_on(reader, failure, store, kept);
        kept = next.kept;
        if !goes_on(next) {
            return next;
        }
    }
    Input {
        kept,
        state: State::More,
    }
}

// Reads the recording. A missing file counts as an empty one.
pub fn read_recording<R: Files>(files: &R, failure: &mut Option<Error>, store: &mut [u8]) -> Input
    requires { spare ≤ length store.old }
    ensures recorded { Recorded store.old store.new result }
    ensures prefix_len { IsPrefixLen result.kept store.new }
    ensures told { result.state ≡ Failed → IsSome failure.new }
{
    match fs::open(files, "run.rec") {
        Ok(mut file) => read_all(&mut file, failure, store),
        Err(error) => {
            let state = if error.kind() == ErrorKind::NotFound {
                State::Ended
            } else {
                State::Failed
            };
            *failure = Some(error);
            Input { kept: 0, state }
        }
    }
}
