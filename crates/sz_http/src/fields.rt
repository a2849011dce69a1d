//! What the fields of one name say.

ghost use Rattle.std.specs.Prelude.{◌≡◌, ◌↔◌, ◌<◌, ◌++◌, ℕ, List, [], IsTrue, length, slice_index_or, option_to_list, IfSome, IfNone, IsSomeAnd, IfOk, OnErr};
ghost use Rattle.std.specs.Char.{is_ascii_digit};
ghost use Rattle.std.specs.List.{AllPass};
ghost use Rattle.std.specs.Option.{option_copied};
ghost use Rattle.sz_http.specs.Parts.{fields_of};
ghost use Rattle.sz_http.specs.Framing.{AnyIs, Contradict, Declare, DeclaresLength, DeclaresNoLength, EachIs, HasNoOneLength, IsLength, IsSameText, value_if, values};

use crate::Fields;
use std::str;

const CONTENT_LENGTH: &[u8] = b"Content-Length";

/// The fields on the length give none: one is malformed, or two are unequal.
#[derive(Clone, Copy, Debug, PartialEq, Eq)]
pub(crate) struct NoOneLength;

/// Whether there is a field of this name.
pub(crate) fn has(fields: &Fields<'_>, name: &[u8]) -> bool
    ensures { IsTrue result ↔ (0 < length (values name.now (fields_of fields.now))) }
{
    for index in 0..fields.len() {
        let value = value_at(fields, name, index);
        if value.is_some() {
            return true;
        }
    }
    false
}

/// Whether each field of this name has this value.
pub(crate) fn each_is(fields: &Fields<'_>, name: &[u8], value: &[u8]) -> bool
    ensures { IsTrue result ↔ EachIs name.now value.now (fields_of fields.now) }
{
    for index in 0..fields.len() {
        let found = value_at(fields, name, index);
        if !is_none_or_same(found, value) {
            return false;
        }
    }
    true
}

// Whether the value that was found, if any, is this one.
fn is_none_or_same(found: Option<&[u8]>, value: &[u8]) -> bool
    ensures { IsTrue result ↔ IfSome (option_copied found.entry) (λ text. IsSameText text value.now) }
{
    match found {
        Some(text) => text.eq_ignore_ascii_case(value),
        None => true,
    }
}

/// Whether any field of this name has this value.
pub(crate) fn any_is(fields: &Fields<'_>, name: &[u8], value: &[u8]) -> bool
    ensures { IsTrue result ↔ AnyIs name.now value.now (fields_of fields.now) }
{
    for index in 0..fields.len() {
        let found = value_at(fields, name, index);
        if is_some_and_same(found, value) {
            return true;
        }
    }
    false
}

// Whether a value was found that is this one.
fn is_some_and_same(found: Option<&[u8]>, value: &[u8]) -> bool
    ensures { IsTrue result ↔ IsSomeAnd (option_copied found.entry) (λ text. IsSameText text value.now) }
{
    match found {
        Some(text) => text.eq_ignore_ascii_case(value),
        None => false,
    }
}

/// The one length that the fields declare, if any does.
pub(crate) fn declared_length(fields: &Fields<'_>) -> Result<Option<u64>, NoOneLength>
    ensures some { IfOk result (λ declared. IfSome declared (DeclaresLength (fields_of fields.now))) }
    ensures none { IfOk result (λ declared. IfNone declared (DeclaresNoLength (fields_of fields.now))) }
    ensures err { OnErr result (HasNoOneLength (fields_of fields.now)) }
{
    let mut declared = None;
    for index in 0..fields.len() {
        let found = value_at(fields, CONTENT_LENGTH, index);
        match with_length(declared, found) {
            Ok(length) => declared = length,
            Err(NoOneLength) => return Err(NoOneLength),
        }
    }
    Ok(declared)
}

// What is declared with one more field on the length, if one was found.
fn with_length(declared: Option<u64>, found: Option<&[u8]>) -> Result<Option<u64>, NoOneLength>
    ensures ok { IfOk result (λ length. (texts : List (List ℕ)) → Declare texts declared
        → Declare (texts ++ option_to_list (option_copied found.entry)) length) }
    ensures err { OnErr result ((texts : List (List ℕ)) → Declare texts declared
        → Contradict (texts ++ option_to_list (option_copied found.entry))) }
{
    let Some(text) = found else {
        return Ok(declared);
    };
    let Some(length) = length_of(text) else {
        return Err(NoOneLength);
    };
    match declared {
        Some(other) if other != length => Err(NoOneLength),
        _ => Ok(Some(length)),
    }
}

// The value of the field at this index, where it has this name.
fn value_at<'a>(fields: &Fields<'a>, name: &[u8], index: usize) -> Option<&'a [u8]>
    ensures { index < length (fields_of fields.now)
        → option_copied result ≡ value_if name.now (slice_index_or (fields_of fields.now) index ([], [])) }
{
    match fields.get(index) {
        Some((found, value)) if found.eq_ignore_ascii_case(name) => Some(value),
        _ => None,
    }
}

// The length that the text writes in decimal.
fn length_of(text: &[u8]) -> Option<u64>
    ensures some { IfSome result (IsLength text.now) }
    ensures none { IfNone result ((n : ℕ) → ¬ (IsLength text.now n)) }
{
    if !are_digits(text) {
        return None;
    }
    let Ok(digits) = str::from_utf8(text) else {
        return None;
    };
    digits.parse().ok()
}

fn are_digits(text: &[u8]) -> bool
    ensures { IsTrue result ↔ AllPass is_ascii_digit text.now }
{
    text.iter().all(|byte| byte.is_ascii_digit())
}
