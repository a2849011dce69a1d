//! Tests of the ground floor, over sz_base, sz_calendar, sz_io, sz_disk and sz_cell: values of other software, and
//! each object in memory with calls that are cut or fail.
#![tactic(auto)]

#[cfg(test)]
mod base;
#[cfg(test)]
mod calendar;
#[cfg(test)]
mod cell;
#[cfg(test)]
mod disk;
#[cfg(test)]
mod io;
