//! The program `sztp` as one function over its outside: words to a command, the command, and its text and status.
//!
//! `run` does the command that the words are, over seven objects that are handed in as one `World`, and its contract is
//! the promise of the whole program: one equation a command, and a cause for each status. The laws say what follows
//! from that contract alone.
#![tactic(auto)]

mod command;
mod device_words;
mod form;
mod law;
mod outside;
mod running;

pub use law::{
    a_boot_ends_as_its_status_says, a_leaf_is_spent_first, an_undisturbed_run_is_complete,
    checks_are_right, every_run_is_quiet, statuses_are_those_of_endings, three_words_are_a_check,
};
pub use outside::{Observed, World};
pub use running::run;
