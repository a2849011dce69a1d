//! Dates with a time of day.

ghost use Rattle.std.specs.Prelude.{◌≡◌, Ok, IfOk, IfErr, Some, None, option_and_then, option_map, pos, neg_ℤ, ◌-ℤ◌};
ghost use Rattle.std.specs.Option.{option_copied};
ghost use Rattle.serde_json.specs.View.{view};
ghost use Rattle.jiff_core.specs.Calendar.{IsBetween};
ghost use Rattle.jiff_core.specs.Timestamp.{IsOffsetSeconds};
ghost use Rattle.jiff_fmt.specs.Temporal.{date_parts, offset_piece_view, time_parts};
ghost use Rattle.sz_calendar.specs.CivilTime.{IsDated, unix_seconds};
ghost use Rattle.sz_json.specs.Fault.{fault_of, IsFault, IsNoWant};
ghost use Rattle.sz_json.specs.Form.{civil_of, date_time_of, if_dated, second_of, seconds_of};
ghost use Rattle.sz_json.specs.Member.{optional, required};

use crate::members::{formed, member, needed};
use crate::{JsonFault, Name, Value};
use jiff_core::Offset;
use jiff_core::civil::{Date, Time};
use jiff_fmt::temporal::{PiecesOffset, parse_pieces};
use sz_base::Seconds;
use sz_calendar::DateTime;

// -9999-01-01T00:00:00Z and 9999-12-31T23:59:59Z
const FIRST: i64 = -377_705_116_800;

const LAST: i64 = 253_402_300_799;

/// The second in which the instant of a text lies: a date, a time and an offset (RFC 3339), with second 60 read as 59
/// and a fraction of the second dropped downwards. The fault of the name exactly where the text is none, or its second
/// lies out of the years -9999 to 9999. Takes no memory.
pub fn date_time(text: &[u8], name: Name) -> Result<Seconds, JsonFault>
    ensures ok { IfOk result (λ seconds. seconds_of text.now ≡ Some seconds) }
    ensures refused { IfErr result (λ fault. (fault ≡ JsonFault.Member name) × (seconds_of text.now ≡ None)) }
{
    match seconds(text) {
        Some(seconds) => Ok(seconds),
        None => Err(JsonFault::Member { name }),
    }
}

/// A member that is such a text.
pub fn time(value: &Value, name: Name) -> Result<Option<Seconds>, JsonFault>
    ensures ok { IfOk result (λ found. optional date_time_of name (view value.now) ≡ Ok found) }
    ensures refused { IfErr result (IsFault (fault_of (optional date_time_of name (view value.now)))) }
    ensures no_want { IfErr result IsNoWant }
{
    match member(value, name)? {
        Some(member) => formed(in_text(member.as_str()), name),
        None => Ok(None),
    }
}

/// A member that is such a text and has to be there.
pub fn required_time(value: &Value, name: Name) -> Result<Seconds, JsonFault>
    ensures ok { IfOk result (λ seconds. required date_time_of name (view value.now) ≡ Ok seconds) }
    ensures refused { IfErr result (IsFault (fault_of (required date_time_of name (view value.now)))) }
    ensures no_want { IfErr result IsNoWant }
{
    match member(value, name)? {
        Some(member) => needed(in_text(member.as_str()), name),
        None => Err(JsonFault::Member { name }),
    }
}

fn in_text(text: Option<&str>) -> Option<Seconds>
    ensures { result ≡ option_and_then seconds_of (option_copied text.entry) }
{
    match text {
        Some(text) => seconds(text.as_bytes()),
        None => None,
    }
}

#[tactic(auto, unfolding(crate::specs::Form::seconds_of))]
fn seconds(text: &[u8]) -> Option<Seconds>
    ensures { result ≡ seconds_of text.now }
{
    match parse_pieces(text) {
        Ok(pieces) => second(pieces.date, pieces.time, pieces.offset),
        Err(_) => None,
    }
}

fn second(date: Date, time: Option<Time>, offset: Option<PiecesOffset>) -> Option<Seconds>
    ensures { result ≡ second_of (date_parts date) (option_map time_parts time)
        (option_map offset_piece_view offset) }
{
    match (time, offset) {
        (Some(time), Some(offset)) => second_ahead(date, time, offset.to_numeric_offset()),
        _ => None,
    }
}

fn second_ahead(date: Date, time: Time, offset: Offset) -> Option<Seconds>
    ensures { result ≡ if_dated (unix_seconds (civil_of (date_parts date) (time_parts time)) -ℤ offset.seconds) }
{
    if_dated(utc_second(civil_seconds(date, time), offset.seconds))
}

// the second of a time of day that is so far ahead of UTC
fn utc_second(second: i64, ahead: i32) -> i64
    requires second { IsDated second }
    requires ahead { IsOffsetSeconds ahead }
    ensures second { result ≡ second -ℤ ahead }
    ensures bound { IsBetween (neg_ℤ (pos 400_000_000_000)) (pos 300_000_000_000) result }
{
    second - i64::from(ahead)
}

// the second at a date and a time of day in UTC
fn civil_seconds(date: Date, time: Time) -> i64
    ensures second { result ≡ unix_seconds (civil_of (date_parts date) (time_parts time)) }
    ensures dated { IsDated result }
{
    let civil = DateTime {
        year: date.year,
        month: date.month,
        day: date.day,
        hour: time.hour,
        minute: time.minute,
        second: time.second,
    };
    match civil.to_unix_seconds() {
        Some(second) => second,
        None => unreachable!(),
    }
}

fn if_dated(second: i64) -> Option<Seconds>
    ensures { result ≡ if_dated second }
{
    if FIRST <= second && second <= LAST {
        Some(Seconds(second))
    } else {
        None
    }
}
