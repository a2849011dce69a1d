//! UTCTime and GeneralizedTime.

ghost use Rattle.std.specs.Prelude.{◌≡◌, ◌+◌, ◌<◌, ◌≤◌, ◌++◌, List, ℕ, pos, IfOk, IfErr, IfSome, IsSomeAnd, Ok, Some};
ghost use Rattle.sz_calendar.specs.CivilTime.{CivilTime, IsReal, IsTimeAt, unix_seconds};
ghost use Rattle.sz_der.specs.Content.{IsContentFault};
ghost use Rattle.sz_der.specs.Time.{NamesTime, IsUtcTime, IsGeneralizedTime, in_year, text_in_year, two_digits};

use crate::tag::{GENERALIZED_TIME, UTC_TIME};
use crate::typed::content_fault;
use crate::{DerFault, Item};
use sz_calendar::DateTime;

/// The time that a UTCTime (`YYMMDDhhmmssZ`, the years 1950 to 2049) or a GeneralizedTime
/// (`YYYYMMDDhhmmssZ`, the years 0 to 9999) names, in seconds since 1970-01-01T00:00:00Z
/// (X.690 sections 11.7 and 11.8, RFC 5280 section 4.1.2.5). There are no leap seconds.
pub fn time(item: &Item<'_>) -> Result<i64, DerFault>
    ensures found { IfOk result (λ seconds. (time : CivilTime)
        × NamesTime item.now.tag item.now.content.now time × IsTimeAt seconds time) }
    ensures only { (time : CivilTime) → NamesTime item.now.tag item.now.content.now time
        → result ≡ Ok (unix_seconds time) }
    ensures fault { IfErr result (IsContentFault item.now.after item.now.whole.now) }
{
    let seconds = match item.tag {
        UTC_TIME => utc_time(item.content),
        GENERALIZED_TIME => generalized_time(item.content),
        _ => None,
    };
    seconds.ok_or(content_fault(item))
}

// The second that the text of a UTCTime names.
fn utc_time(text: &[u8]) -> Option<i64>
    ensures found { IfSome result (λ seconds. (time : CivilTime)
        × IsUtcTime time text.now × IsTimeAt seconds time) }
    ensures only { (time : CivilTime) → IsUtcTime time text.now → result ≡ Some (unix_seconds time) }
{
    let (year, rest) = two_digits(text)?;
    let century = if year < 50 { 2000 } else { 1900 };
    seconds_in_year(century + u16::from(year), rest)
}

// The second that the text of a GeneralizedTime names.
fn generalized_time(text: &[u8]) -> Option<i64>
    ensures found { IfSome result (λ seconds. (time : CivilTime)
        × IsGeneralizedTime time text.now × IsTimeAt seconds time) }
    ensures only { (time : CivilTime) → IsGeneralizedTime time text.now → result ≡ Some (unix_seconds time) }
{
    let (century, rest) = two_digits(text)?;
    let (year, rest) = two_digits(rest)?;
    seconds_in_year(u16::from(century) * 100 + u16::from(year), rest)
}

// The second of the year that the text `MMDDhhmmssZ` names.
fn seconds_in_year(year: u16, text: &[u8]) -> Option<i64>
    requires { year ≤ 9999 }
    ensures found { IfSome result (λ seconds. (time : CivilTime) × (time.year ≡ pos year)
        × (text.now ≡ text_in_year time) × IsTimeAt seconds time) }
    ensures only { (time : CivilTime) → time.year ≡ pos year → IsReal time → text.now ≡ text_in_year time
        → result ≡ Some (unix_seconds time) }
{
    date_in_year(year, text)?.to_unix_seconds()
}

// The date and the time of day of the year that the text `MMDDhhmmssZ` writes; the calendar need not have it.
fn date_in_year(year: u16, text: &[u8]) -> Option<DateTime>
    requires { year ≤ 9999 }
    ensures year { IfSome result (λ date. date.year ≡ pos year) }
    ensures found { IfSome result
        (λ date. text.now ≡ in_year date.month date.day date.hour date.minute date.second) }
    ensures only { (month day hour minute second : ℕ)
        → month < 100 → day < 100 → hour < 100 → minute < 100 → second < 100
        → text.now ≡ in_year month day hour minute second
        → IsSomeAnd result (λ date. (date.month ≡ month) × (date.day ≡ day) × (date.hour ≡ hour)
        × (date.minute ≡ minute) × (date.second ≡ second)) }
{
    let (month, rest) = two_digits(text)?;
    let (day, rest) = two_digits(rest)?;
    let (hour, rest) = two_digits(rest)?;
    let (minute, rest) = two_digits(rest)?;
    let (second, rest) = two_digits(rest)?;
    if rest != b"Z".as_slice() {
        return None;
    }
    Some(DateTime {
        year: year as i16,
        month,
        day,
        hour,
        minute,
        second,
    })
}

// The number that the first two bytes write as decimal digits, and the bytes after them.
#[tactic(auto, unfolding(crate::specs::Time::two_digits))]
fn two_digits(text: &[u8]) -> Option<(u8, &[u8])>
    ensures below { IfSome result (λ read. read.0 < 100) }
    ensures found { IfSome result (λ read. text.now ≡ two_digits read.0 ++ read.1.now) }
    ensures only { (n : ℕ) (rest : List ℕ) → n < 100 → text.now ≡ two_digits n ++ rest
        → IsSomeAnd result (λ read. (read.0 ≡ n) × (read.1.now ≡ rest)) }
{
    match text {
        [tens @ b'0'..=b'9', units @ b'0'..=b'9', rest @ ..] => {
            Some(((*tens - b'0') * 10 + (*units - b'0'), rest))
        }
        _ => None,
    }
}
