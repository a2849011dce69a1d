//! The plain calendar: seconds since 1970-01-01T00:00:00Z as year, month, day, hour, minute and second, and
//! back, over the years -9999 to 9999 of the proleptic Gregorian calendar, on a clock without leap seconds.
//!
//! `DateTime::from_unix_seconds` answers the one date and time of day at a second, and
//! `DateTime::to_unix_seconds` the second of a date, exactly where the calendar has it. The laws say that
//! either undoes the other, and that days follow one another as the calendar's years and months do.
#![tactic(auto)]

mod date_time;
mod laws;

pub use date_time::DateTime;
pub use laws::{days_are_counted, seconds_and_times_are_one};
