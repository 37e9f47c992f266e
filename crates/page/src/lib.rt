// What the program prints: from the bytes of a recording and of a typed text to the bytes of the page.
#![tactic(auto)]

mod call;
pub mod intake;
mod lines;
mod numbers;
mod put;

pub use call::{PAGE_SIZE, SET_ROOM, answer};
