// Prints the answer to the question on standard input about the recording in `run.rec`.
//
// Where reading fails nothing is printed; where reading or writing fails a line goes to standard error. The program sets
// no exit status: an answer is known by its first word, `runs` or `refused`, and is whole if it ends with a newline and
// has as many lines as it says.
#![tactic(auto)]

mod input;

use std::io::{Error, Write};

fn main(rt: HostRuntime) {
    let mut typed = [0u8; page::intake::TEXT_STORE];
    let mut failure = None;
    // Before `run.rec` is opened: with standard input closed the file would get its descriptor.
    let text = input::read_all(&mut rt.stdin(), &mut failure, &mut typed);
    if !input::is_whole(text) {
        fail(&rt, "standard input", failure);
        return;
    }
    let mut store = [0u8; page::intake::RECORDING_STORE];
    let rec = input::read_recording(&rt, &mut failure, &mut store);
    if !input::is_whole(rec) {
        fail(&rt, "run.rec", failure);
        return;
    }
    let n = rec.kept;
    let m = text.kept;
    let mut out = [0u8; page::PAGE_SIZE];
    let size = page::answer(&store[..n], &typed[..m], &mut out);
    if let Err(error) = rt.stdout().write_all(&out[..size]) {
        fail(&rt, "standard output", Some(error));
    }
}

// Writes a line to standard error: what failed, and the system's words for it.
fn fail(rt: &(impl Eprint + AllocGlobal), what: &str, failure: Option<Error>) {
    let Some(error) = failure else {
        let _ = eprintln!(rt; "{what}: no end");
        return;
    };
    let _ = match format!(in rt.alloc(); "{error}") {
        Ok(text) => tell(rt, what, text.as_str()),
        Err(_) => eprintln!(rt; "{what}: {error}"),
    };
}

fn tell(rt: &impl Eprint, what: &str, text: &str) -> Result<(), Error> {
    let words = without_number(text);
    eprintln!(rt; "{what}: {words}")
}

// An error's text, without the number that std puts behind the system's words.
fn without_number(text: &str) -> &str {
    match text.rsplit_once(" (os error ") {
        Some((words, _)) => words,
        None => text,
    }
}
