//! Domain names, through the pointers of a message.

ghost use Rattle.std.specs.Prelude.{◌≡◌, ◌+◌, ◌-◌, ◌*◌, ◌<◌, ◌≤◌, length, drop, Some, None, IfOk, IfErr};
ghost use Rattle.sz_dns.specs.Fault.{Tells};
ghost use Rattle.sz_dns.specs.Name.{front_fault, IsName, IsNameFault};
ghost use Rattle.sz_dns.specs.Part.{IsPart, place_of_kind};

use crate::{DnsFault, DnsKind};
use std::alloc::Global;
use sz_base::{Text, Texts};

/// The most bytes of a name, its root included (RFC 1035 section 2.3.4).
pub(crate) const MOST_BYTES: usize = 255;

/// The most pointers that are followed in one name.
pub(crate) const MOST_POINTERS: usize = 127;

/// Where a name stands in the message, and the part of the message that it belongs to.
#[derive(Clone, Copy)]
pub(crate) struct Places {
    pub part: usize,
    pub name: usize,
}

impl Places {
    /// A part that begins with a name, at the front of what is left of the message.
    pub(crate) fn at_front(message: &[u8], left: &[u8]) -> Self
        requires { length left.now ≤ length message.now }
        ensures part { result.part ≡ length message.now - length left.now }
        ensures name { result.name ≡ length message.now - length left.now }
    {
        let place = message.len() - left.len();
        Places {
            part: place,
            name: place,
        }
    }

    /// The fault of this kind, which is told at the name unless the message ends too early.
    pub(crate) fn fault(self, kind: DnsKind) -> DnsFault
        ensures { result ≡ DnsFault.Bad kind (place_of_kind kind self.part self.name) }
    {
        let place = match kind {
            DnsKind::Short => self.part,
            DnsKind::Pointer | DnsKind::Label => self.name,
        };
        DnsFault::Bad { kind, place }
    }
}

/// A name at the front of bytes, as its labels, and what comes after it.
#[derive(Drop)]
pub(crate) struct Name<'a> {
    pub labels: Texts,
    pub rest: &'a [u8],
}

/// The name at the front of the bytes, which are part of the message.
pub(crate) fn read_name<'a>(
    alloc: Global,
    message: &'a [u8],
    bytes: &'a [u8],
    places: Places,
) -> Result<Name<'a>, DnsFault>
    ensures ok { IfOk result (λ name. IsName message.entry.now bytes.entry.now name.labels name.rest.now) }
    ensures shorter { IfOk result (λ name. length name.rest.now < length bytes.entry.now) }
    ensures refused { IfErr result (Tells (λ kind place. IsNameFault message.entry.now bytes.entry.now kind
        × (place ≡ place_of_kind kind places.part places.name))) }
{
    let mut labels = Texts::create(alloc);
    let mut size = 0;
    let mut pointers = 0;
    let mut left = bytes;
    let mut after: Option<&[u8]> = None;
    'parts: loop {
        match front(left, size, pointers) {
            Err(kind) => return Err(places.fault(kind)),
            Ok(Part::Root { rest }) => {
                return Ok(Name {
                    labels,
                    rest: after.unwrap_or(rest),
                });
            }
            Ok(Part::Label { label, rest }) => {
                labels.push(Text::from_slice(alloc, label)?)?;
                size += 1 + label.len();
                left = rest;
            }
            Ok(Part::Pointer { to, rest }) => {
                pointers += 1;
                after = after.or(Some(rest));
                left = rest_from(message, to);
            }
        }
    }
}

// the bytes from the place on
fn rest_from(message: &[u8], place: usize) -> &[u8]
    ensures { result.now ≡ drop place message.now }
{
    message.get(place..).unwrap_or(&[])
}

/// What stands at the front of the rest of a name.
#[derive(Clone, Copy)]
pub(crate) enum Part<'a> {
    Root { rest: &'a [u8] },
    Label { label: &'a [u8], rest: &'a [u8] },
    Pointer { to: usize, rest: &'a [u8] },
}

// The part at the front, after labels of so many bytes and so many pointers.
#[tactic(auto, unfolding(crate::specs::Name::front_fault))]
fn front(bytes: &[u8], size: usize, pointers: usize) -> Result<Part<'_>, DnsKind>
    requires { size ≤ MOST_BYTES }
    ensures part { IfOk result (IsPart bytes.now) }
    ensures no_fault { IfOk result (λ part. front_fault bytes.now size pointers ≡ None) }
    ensures fault { IfErr result (λ kind. front_fault bytes.now size pointers ≡ Some kind) }
{
    match bytes {
        [] => Err(DnsKind::Short),
        [0, rest @ ..] => Ok(Part::Root { rest }),
        [first, after @ ..] if *first < 64 => {
            let length = usize::from(*first);
            if after.len() < length {
                return Err(DnsKind::Short);
            }
            if size + 1 + length + 1 > MOST_BYTES {
                return Err(DnsKind::Pointer);
            }
            let (label, rest) = after.split_at(length);
            Ok(Part::Label { label, rest })
        }
        [first, ..] if *first < 192 => Err(DnsKind::Label),
        [_] => Err(DnsKind::Short),
        [_, _, ..] if pointers >= MOST_POINTERS => Err(DnsKind::Pointer),
        [high, low, rest @ ..] => Ok(Part::Pointer {
            to: usize::from(*high - 192) * 256 + usize::from(*low),
            rest,
        }),
    }
}
