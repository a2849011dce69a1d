//! The writer of a voucher.

ghost use Rattle.std.specs.Prelude.{◌≡◌, ◌<◌, ◌++◌, List, ℕ, Option, neg_ℤ, pos, ◌≤ℤ◌, option_map, string_bytes, IfOk, IfSome, IsUtf8, OnOk};
ghost use Rattle.std.specs.Option.{option_copied};
ghost use Rattle.serde_json.specs.View.{view};
ghost use Rattle.serde_json.specs.Written.{compact_text};
ghost use Rattle.sz_calendar.specs.DateTime.{civil_time};
ghost use Rattle.sz_json.specs.Form.{IsInstant};
ghost use Rattle.sz_artifacts.specs.Assertion.{assertion_text};
ghost use Rattle.sz_artifacts.specs.WrittenVoucher.{AreDateTexts, civil_text, clock_text, day_text, four_digits, IsDateText, IsWritable, members_value, ReadsBack, sign_text, two_digits, voucher_value};

use crate::{Assertion, Voucher};
use std::alloc::Global;
use sz_base::{Bytes, OutOfMemory, Seconds};
use sz_calendar::DateTime;
use sz_json::{Name, Object, Value, single, write};

/// Writes a voucher as compact JSON, with the members of each object in the byte order of their names.
pub fn write_voucher(alloc: Global, voucher: &Voucher) -> Result<Bytes, OutOfMemory>
    requires { IsWritable voucher.now }
    ensures written { IfOk result (λ bytes. (created : List ℕ) × (end : Option (List ℕ))
        × IsDateText voucher.now.created_on created × AreDateTexts voucher.now.expires_on end
        × (bytes ≡ compact_text (voucher_value voucher.now created end))) }
    ensures reads_back { IfOk result (ReadsBack voucher.now) }
{
    let created = date_text(alloc, voucher.created_on)?;
    let end = end_text(alloc, voucher.expires_on)?;
    let value = object(alloc, voucher, &created, &end)?;
    write(alloc, &value)
}

fn object(
    alloc: Global,
    voucher: &Voucher,
    created: &String,
    end: &Option<String>,
) -> Result<Value, OutOfMemory>
    requires { IsUtf8 voucher.now.serial }
    ensures { IfOk result (λ value. view value
        ≡ voucher_value voucher.now (string_bytes created.now) (option_map string_bytes end.now)) }
{
    let inside = members(alloc, voucher, created.as_str(), as_str_where(end))?;
    single(alloc, Name::Voucher, inside)
}

fn members(
    alloc: Global,
    voucher: &Voucher,
    created: &str,
    end: Option<&str>,
) -> Result<Value, OutOfMemory>
    requires { IsUtf8 voucher.now.serial }
    ensures { IfOk result (λ value. view value ≡ members_value voucher.now created.now (option_copied end.entry)) }
{
    let mut object = Object::create(alloc);
    object.put_text(alloc, Name::CreatedOn, created)?;
    object.put_optional_text(alloc, Name::ExpiresOn, end)?;
    object.put_text(alloc, Name::Assertion, assertion(voucher.assertion))?;
    object.put_text(alloc, Name::SerialNumber, serial(voucher))?;
    object.put_binary(alloc, Name::PinnedDomainCert, voucher.pinned.as_slice())?;
    object.put_flag(alloc, Name::DomainCertRevocationChecks, voucher.revocation)?;
    object.put_optional_binary(alloc, Name::Nonce, voucher.nonce.as_ref())?;
    Ok(object.into_value())
}

// the serial number, which is UTF-8
fn serial(voucher: &Voucher) -> &str
    requires { IsUtf8 voucher.now.serial }
    ensures { result.now ≡ voucher.now.serial }
{
    match str::from_utf8(voucher.serial.as_slice()) {
        Ok(serial) => serial,
        Err(_) => unreachable!(),
    }
}

fn assertion(assertion: Assertion) -> &'static str
    ensures { result.now ≡ assertion_text assertion }
{
    match assertion {
        Assertion::Verified => "verified",
        Assertion::Logged => "logged",
        Assertion::Proximity => "proximity",
    }
}

fn end_text(alloc: Global, end: Option<Seconds>) -> Result<Option<String>, OutOfMemory>
    requires { IfSome end IsInstant }
    ensures { IfOk result (λ text. AreDateTexts end (option_map string_bytes text)) }
{
    match end {
        Some(seconds) => Ok(Some(date_text(alloc, seconds)?)),
        None => Ok(None),
    }
}

fn as_str_where(text: &Option<String>) -> Option<&str>
    ensures { option_copied result ≡ option_map string_bytes text.now }
{
    match text {
        Some(text) => Some(text.as_str()),
        None => None,
    }
}

// the date and the time of day at the second, in UTC
fn date_text(alloc: Global, seconds: Seconds) -> Result<String, OutOfMemory>
    requires { IsInstant seconds }
    ensures { IfOk result (λ text. IsDateText seconds (string_bytes text)) }
{
    let Some(time) = DateTime::from_unix_seconds(seconds.0) else {
        unreachable!();
    };
    civil_text(alloc, time)
}

fn civil_text(alloc: Global, time: DateTime) -> Result<String, OutOfMemory>
    requires from { neg_ℤ (pos 9999) ≤ℤ time.year }
    requires to { time.year ≤ℤ pos 9999 }
    ensures { IfOk result (λ text. string_bytes text ≡ civil_text (civil_time time)) }
{
    let mut text = String::new(alloc);
    push_day(&mut text, time)?;
    text.push('T')?;
    push_clock(&mut text, time)?;
    text.push('Z')?;
    Ok(text)
}

fn push_day(text: &mut String, time: DateTime) -> Result<(), OutOfMemory>
    requires from { neg_ℤ (pos 9999) ≤ℤ time.year }
    requires to { time.year ≤ℤ pos 9999 }
    ensures { OnOk result (string_bytes text.new ≡ string_bytes text.old ++ day_text (civil_time time)) }
{
    push_sign(text, time.year)?;
    push_four(text, time.year.unsigned_abs())?;
    text.push('-')?;
    push_two(text, time.month)?;
    text.push('-')?;
    push_two(text, time.day)
}

fn push_clock(text: &mut String, time: DateTime) -> Result<(), OutOfMemory>
    ensures { OnOk result (string_bytes text.new ≡ string_bytes text.old ++ clock_text (civil_time time)) }
{
    push_two(text, time.hour)?;
    text.push(':')?;
    push_two(text, time.minute)?;
    text.push(':')?;
    push_two(text, time.second)
}

// what stands before the four digits of a year
fn push_sign(text: &mut String, year: i16) -> Result<(), OutOfMemory>
    ensures { OnOk result (string_bytes text.new ≡ string_bytes text.old ++ sign_text year) }
{
    if year < 0 {
        text.push_str("-00")?;
    }
    Ok(())
}

fn push_four(text: &mut String, number: u16) -> Result<(), OutOfMemory>
    requires { number < 10_000 }
    ensures { OnOk result (string_bytes text.new ≡ string_bytes text.old ++ four_digits number) }
{
    push_two(text, (number / 100) as u8)?;
    push_two(text, (number % 100) as u8)
}

fn push_two(text: &mut String, number: u8) -> Result<(), OutOfMemory>
    ensures { OnOk result (string_bytes text.new ≡ string_bytes text.old ++ two_digits number) }
{
    text.push((b'0' + number / 10) as char)?;
    text.push((b'0' + number % 10) as char)?;
    Ok(())
}
