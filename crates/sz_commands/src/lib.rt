//! What all commands of the program share: the statuses, the failures with their lines, reading a named input
//! file, and printing a line.
#![tactic(auto)]

mod ending;
mod failure;
mod input;
mod print;

pub use ending::{Ending, Status};
pub use failure::Failure;
pub use input::{input_size, read_front};
pub use print::{refusal_status, say, say_failure, say_number, say_parts, say_text, write_parts};
