//! The words that the contracts of every crate share and that no crate owns: when a count rose and what
//! made it rise, what holds where an object of the outside tells its meaning, and what was appended.
//! They stand in `specs/`; this crate has no code.
#![tactic(auto)]
