//! The reader of DHCPv4 messages.

ghost use Rattle.std.specs.Prelude.{◌≡◌, ◌==◌, ◌+◌, ◌≤◌, List, [], ◌∷◌, ◌++◌, length, IfOk, OnOk, IfErr, IfSome, IfNone, if◌then◌else◌, slice_range};
ghost use Rattle.sz_dhcp.specs.DhcpOption.{DhcpOption};
ghost use Rattle.sz_dhcp.specs.Fault.{IsFault};
ghost use Rattle.sz_dhcp.specs.Message4.{Gives4, HasCookie, HasOptions, holds_options, IsEnd, IsField, IsFault4, IsFieldFault, IsOption, IsUnfinishedValue, options_field, server_list, values_of};
ghost use Rattle.sz_dhcp.specs.Spelled.{BeginsWith, EndsInside};
ghost use Rattle.sz_dhcp.specs.declared.fault.DhcpKind.{DhcpKind};

use crate::front::{Entry, Found};
use crate::uri_list::push_targets;
use crate::{DhcpFault, DhcpKind};
use std::alloc::Global;
use sz_base::{Bytes, OutOfMemory, Targets};

// the option of bootstrap servers (RFC 8572 section 8.1)
const SZTP_REDIRECT: u8 = 143;

// the options without a length, and the one that says which other fields hold options (RFC 2132)
const PAD: u8 = 0;

const END: u8 = 255;

const OVERLOAD: u8 = 52;

// what that option says where `file` holds options, where `sname` does, and where both do
const FILE: u8 = 1;

const SNAME: u8 = 2;

const BOTH: u8 = 3;

// what stands before the options (RFC 2131 section 3)
const COOKIE: [u8; 4] = [99, 130, 83, 99];

/// The targets of the URIs in option 143 of a DHCPv4 message, in their order; none where it has no such option. The
/// values of all its options 143 are joined, also those in the fields that option 52 names. URIs that are not of HTTP
/// are passed over. `Short` where the message ends before its options, at 0, or in an option, at its code; `Cookie`
/// where it has another cookie than that of DHCP, at 236; `Uri` where the list ends in an entry, at the entry's length
/// in the joined value.
pub fn v4(alloc: Global, message: &[u8]) -> Result<Targets, DhcpFault>
    ensures ok { IfOk result (Gives4 message.now) }
    ensures refused { IfErr result (IsFault (IsFault4 message.now)) }
{
    let list = server_list(alloc, message)?;
    let mut targets = Targets::create(alloc);
    push_targets(alloc, &mut targets, list.as_slice())?;
    Ok(targets)
}

// the joined values of option 143
fn server_list(alloc: Global, message: &[u8]) -> Result<Bytes, DhcpFault>
    ensures ok { IfOk result (λ list. (options : List DhcpOption) × (file : List DhcpOption)
        × (sname : List DhcpOption) × HasOptions message.now options file sname
        × (list ≡ server_list options file sname)) }
    ensures refused { IfErr result (IsFault (IsFault4 message.now)) }
{
    let options = options_field(message)?;
    let overload = values_in(alloc, OVERLOAD, options)?;
    let mut list = values_in(alloc, SZTP_REDIRECT, options)?;
    let file = Field::holding(FILE, overload.as_slice(), message, 108, 236);
    append_values(&mut list, SZTP_REDIRECT, file)?;
    let sname = Field::holding(SNAME, overload.as_slice(), message, 44, 108);
    append_values(&mut list, SZTP_REDIRECT, sname)?;
    Ok(list)
}

// Bytes with options, and the place in the message where they end.
#[derive(Clone, Copy)]
struct Field<'a> {
    bytes: &'a [u8],
    end: usize,
}

impl<'a> Field<'a> {
    // The field between these places, where option 52 says that the one of this number holds options, else no bytes.
    fn holding(number: u8, overload: &[u8], message: &'a [u8], start: usize, end: usize) -> Self
        requires order { start ≤ end }
        requires within { end ≤ length message.now }
        ensures bytes { result.bytes.now
            ≡ (if holds_options number overload.now then slice_range message.entry.now start end else []) }
        ensures end { result.end ≡ end }
        ensures fits { length result.bytes.now ≤ result.end }
    {
        if holds_options(number, overload) {
            let bytes = &message[start..end];
            Field { bytes, end }
        } else {
            Field { bytes: &[], end }
        }
    }
}

fn holds_options(number: u8, overload: &[u8]) -> bool
    ensures { result ≡ holds_options number overload.now }
{
    overload == [number].as_slice() || overload == [BOTH].as_slice()
}

fn options_field(message: &[u8]) -> Result<Field<'_>, DhcpFault>
    ensures ok { IfOk result (λ field. HasCookie message.now × (field.bytes.now ≡ options_field message.now)
        × (field.end ≡ length message.now)) }
    ensures refused { IfErr result (IsFault (IsFault4 message.now)) }
{
    if message.len() < 240 {
        return Err(DhcpFault::Bad {
            kind: DhcpKind::Short,
            place: 0,
        });
    }
    if &message[236..240] != COOKIE.as_slice() {
        return Err(DhcpFault::Bad {
            kind: DhcpKind::Cookie,
            place: 236,
        });
    }
    Ok(Field {
        bytes: &message[240..],
        end: message.len(),
    })
}

// the values of all options with this code, joined
fn values_in(alloc: Global, code: u8, field: Field<'_>) -> Result<Bytes, DhcpFault>
    requires { length field.bytes.now ≤ field.end }
    ensures ok { IfOk result (λ values. (options : List DhcpOption) × IsField field.entry.bytes.now options
        × (values ≡ values_of code options)) }
    ensures refused { IfErr result (IsFault (IsFieldFault field.entry.bytes.now field.entry.end)) }
{
    let mut values = Bytes::create(alloc);
    append_values(&mut values, code, field)?;
    Ok(values)
}

// Puts the values of all options with this code last, joined.
fn append_values(values: &mut Bytes, code: u8, field: Field<'_>) -> Result<(), DhcpFault>
    requires { length field.bytes.now ≤ field.end }
    ensures ok { OnOk result ((options : List DhcpOption) × IsField field.entry.bytes.now options
        × (values.new ≡ values.old ++ values_of code options)) }
    ensures refused { IfErr result (IsFault (IsFieldFault field.entry.bytes.now field.entry.end)) }
{
    let mut left = field.bytes;
    'options: loop {
        let Some(option) = next_option(left, field.end)? else {
            return Ok(());
        };
        append_value(values, code, &option)?;
        left = option.rest;
    }
}

fn append_value(values: &mut Bytes, code: u8, option: &Found<'_>) -> Result<(), OutOfMemory>
    ensures { OnOk result (values.new ≡ values.old
        ++ (if option.now.code == code then option.now.value.now else [])) }
{
    if option.code == u16::from(code) {
        values.append(option.value)?;
    }
    Ok(())
}

// The option at the front of what is left of a field, which ends at this place, or nothing at its end.
fn next_option(left: &[u8], end: usize) -> Result<Option<Found<'_>>, DhcpFault>
    requires { length left.now ≤ end }
    ensures some { IfOk result (λ next. IfSome next (λ option.
        BeginsWith IsOption left.now (record { code = option.code; value = option.value.now }) option.rest.now)) }
    ensures none { IfOk result (λ next. IfNone next (IsEnd left.now)) }
    ensures refused { IfErr result (IsFault (λ kind place. (kind ≡ DhcpKind.Short) × EndsInside IsOption left.now
        × (place + length left.now ≡ end))) }
{
    let Some((code, after)) = left.split_first() else {
        return Ok(None);
    };
    match *code {
        END => Ok(None),
        PAD => Ok(Some(Found {
            code: u16::from(PAD),
            value: &[],
            rest: after,
        })),
        code => match value_after(after) {
            Some(found) => Ok(Some(Found {
                code: u16::from(code),
                value: found.value,
                rest: found.rest,
            })),
            None => Err(DhcpFault::Bad {
                kind: DhcpKind::Short,
                place: end - left.len(),
            }),
        },
    }
}

// the bytes after their length at the front, or nothing where they end before that length does
fn value_after(bytes: &[u8]) -> Option<Entry<'_>>
    ensures some { IfSome result (λ found.
        bytes.now ≡ length found.value.now ∷ found.value.now ++ found.rest.now) }
    ensures none { IfNone result (IsUnfinishedValue bytes.now) }
{
    let (size, after) = bytes.split_first()?;
    let (value, rest) = after.split_at_checked(usize::from(*size))?;
    Some(Entry { value, rest })
}
