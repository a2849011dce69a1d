//! Questions and resource records.

ghost use Rattle.std.specs.Prelude.{◌≡◌, ◌+◌, ◌-◌, ◌*◌, ◌<◌, ◌≤◌, ℕ, List, ◌++◌, length, IfOk, IfErr, IfSome, IfNone};
ghost use Rattle.sz_dns.specs.Fault.{Tells};
ghost use Rattle.sz_dns.specs.Record.{AreFields, EndsInsideFields, IsQuestion, IsQuestionFault, IsRecord, IsRecordFault, record_of};

use crate::name::{Places, read_name};
use crate::{DnsFault, DnsKind};
use std::alloc::Global;
use sz_base::Texts;

/// A resource record at the front of bytes, and what comes after it.
#[derive(Drop)]
pub(crate) struct Record<'a> {
    pub owner: Texts,
    pub kind: u16,
    pub class: u16,
    pub contents: &'a [u8],
    pub rest: &'a [u8],
}

/// What comes after the question at the front of what is left of the message.
pub(crate) fn skip_question<'a>(
    alloc: Global,
    message: &'a [u8],
    left: &'a [u8],
) -> Result<&'a [u8], DnsFault>
    requires { length left.now ≤ length message.now }
    ensures ok { IfOk result (λ rest. IsQuestion message.entry.now left.entry.now rest.now) }
    ensures shorter { IfOk result (λ rest. length rest.now < length left.entry.now) }
    ensures refused { IfErr result (Tells (λ kind place. IsQuestionFault message.entry.now left.entry.now kind
        × (place ≡ length message.entry.now - length left.entry.now))) }
{
    let places = Places::at_front(message, left);
    let name = read_name(alloc, message, left, places)?;
    match name.rest.split_at_checked(4) {
        Some((_, rest)) => Ok(rest),
        None => Err(places.fault(DnsKind::Short)),
    }
}

/// The record at the front of what is left of the message.
pub(crate) fn read_record<'a>(
    alloc: Global,
    message: &'a [u8],
    left: &'a [u8],
) -> Result<Record<'a>, DnsFault>
    requires { length left.now ≤ length message.now }
    ensures ok { IfOk result (λ item. IsRecord message.entry.now left.entry.now
        (record_of item) item.rest.now) }
    ensures shorter { IfOk result (λ item. length item.contents.now + length item.rest.now < length left.entry.now) }
    ensures refused { IfErr result (Tells (λ kind place. (place ≡ length message.entry.now - length left.entry.now)
        × IsRecordFault message.entry.now left.entry.now kind)) }
{
    let places = Places::at_front(message, left);
    let name = read_name(alloc, message, left, places)?;
    match fields_of(name.rest) {
        Some(fields) => Ok(Record {
            owner: name.labels,
            kind: fields.kind,
            class: fields.class,
            contents: fields.contents,
            rest: fields.rest,
        }),
        None => Err(places.fault(DnsKind::Short)),
    }
}

// The fields of a record after its owner.
#[derive(Clone, Copy)]
struct Fields<'a> {
    kind: u16,
    class: u16,
    contents: &'a [u8],
    rest: &'a [u8],
}

fn fields_of(bytes: &[u8]) -> Option<Fields<'_>>
    ensures some { IfSome result (λ fields. (own : List ℕ)
        × AreFields fields.kind fields.class fields.contents.now own × (bytes.now ≡ own ++ fields.rest.now)) }
    ensures none { IfNone result (EndsInsideFields bytes.now) }
{
    let (fixed, after) = bytes.split_at_checked(10)?;
    let size = number(fixed[8], fixed[9]);
    let (contents, rest) = after.split_at_checked(usize::from(size))?;
    Some(Fields {
        kind: number(fixed[0], fixed[1]),
        class: number(fixed[2], fixed[3]),
        contents,
        rest,
    })
}

/// A number in two bytes.
pub(crate) fn number(high: u8, low: u8) -> u16
    ensures { result ≡ high * 256 + low }
{
    u16::from(high) * 256 + u16::from(low)
}
