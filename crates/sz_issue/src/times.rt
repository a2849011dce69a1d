//! The writer of times (RFC 5280 section 4.1.2.5).

ghost use Rattle.std.specs.Prelude.{◌≡◌, ◌↔◌, ◌++◌, IsTrue, OnOk};
ghost use Rattle.sz_calendar.specs.CivilTime.{IsReal};
ghost use Rattle.sz_calendar.specs.DateTime.{civil_time};
ghost use Rattle.sz_der.specs.Items.{AppendsItem};
ghost use Rattle.sz_der.specs.Time.{generalized_text, text_in_year, two_digits, utc_text};
ghost use Rattle.sz_issue.specs.Parts.{Appends, IsFrom1950, IsWritable, IsWrittenTime};

use std::alloc::Global;
use sz_base::{Bytes, OutOfMemory, Seconds};
use sz_calendar::DateTime;
use sz_der::DerWriter;
use sz_der::tag::{GENERALIZED_TIME, UTC_TIME};

/// The second lies in the years 1950 to 9999, whose times are written.
pub fn is_writable(seconds: Seconds) -> bool
    ensures { IsTrue result ↔ IsWritable seconds.0 }
{
    match DateTime::from_unix_seconds(seconds.0) {
        Some(date) => date.year >= 1950,
        None => false,
    }
}

/// Puts a time last: through the year 2049 as a UTCTime, and from 2050 on as a GeneralizedTime.
pub(crate) fn write_time(
    alloc: Global,
    out: &mut DerWriter,
    seconds: Seconds,
) -> Result<(), OutOfMemory>
    requires { IsWritable seconds.0 }
    ensures { OnOk result (Appends (IsWrittenTime seconds.0) out.old out.new) }
{
    let date = date_at(seconds.0);
    if date.year < 2050 {
        write_utc_time(alloc, out, date)
    } else {
        write_generalized_time(alloc, out, date)
    }
}

// The date and the time of day at so many seconds since 1970.
fn date_at(seconds: i64) -> DateTime
    requires { IsWritable seconds }
    ensures { IsFrom1950 seconds (civil_time result) }
{
    match DateTime::from_unix_seconds(seconds) {
        Some(date) => date,
        None => unreachable!(),
    }
}

// Puts a UTCTime last.
fn write_utc_time(alloc: Global, out: &mut DerWriter, date: DateTime) -> Result<(), OutOfMemory>
    ensures { OnOk result (AppendsItem out.old out.new UTC_TIME (utc_text (civil_time date))) }
{
    let mut text = Bytes::create(alloc);
    push_utc_text(&mut text, date)?;
    out.item(UTC_TIME, text.as_slice())?;
    Ok(())
}

// Puts a GeneralizedTime last.
fn write_generalized_time(
    alloc: Global,
    out: &mut DerWriter,
    date: DateTime,
) -> Result<(), OutOfMemory>
    requires { IsReal (civil_time date) }
    ensures { OnOk result (AppendsItem out.old out.new GENERALIZED_TIME (generalized_text (civil_time date))) }
{
    let mut text = Bytes::create(alloc);
    push_two(&mut text, (date.year.unsigned_abs() / 100) as u8)?;
    push_utc_text(&mut text, date)?;
    out.item(GENERALIZED_TIME, text.as_slice())?;
    Ok(())
}

// Puts `YYMMDDhhmmssZ` last.
fn push_utc_text(text: &mut Bytes, date: DateTime) -> Result<(), OutOfMemory>
    ensures { OnOk result (text.new ≡ text.old ++ utc_text (civil_time date)) }
{
    push_two(text, (date.year.unsigned_abs() % 100) as u8)?;
    push_in_year(text, date)
}

// Puts `MMDDhhmmssZ` last.
fn push_in_year(text: &mut Bytes, date: DateTime) -> Result<(), OutOfMemory>
    ensures { OnOk result (text.new ≡ text.old ++ text_in_year (civil_time date)) }
{
    push_two(text, date.month)?;
    push_two(text, date.day)?;
    push_two(text, date.hour)?;
    push_two(text, date.minute)?;
    push_two(text, date.second)?;
    text.append(b"Z")
}

// Puts the two decimal digits of a number below 100 last.
#[tactic(auto, unfolding(sz_der::specs::Time::two_digits))]
fn push_two(text: &mut Bytes, number: u8) -> Result<(), OutOfMemory>
    ensures { OnOk result (text.new ≡ text.old ++ two_digits number) }
{
    text.append(&[b'0' + number / 10, b'0' + number % 10])
}
