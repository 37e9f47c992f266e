// The question call: from the bytes of a recording and of a text to the bytes of the answered set.
#![tactic(auto)]

pub mod answered;
mod call;
pub mod limits;
pub mod prepare;

pub use call::{answer, question};
