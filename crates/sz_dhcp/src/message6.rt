//! The reader of DHCPv6 messages.

ghost use Rattle.std.specs.Prelude.{◌≡◌, ◌≢◌, ◌+◌, ◌≤◌, List, [], ◌++◌, length, IfOk, OnOk, IfErr, IfSome, IfNone};
ghost use Rattle.sz_base.specs.declared.target.Target.{Target};
ghost use Rattle.sz_dhcp.specs.Fault.{IsFault};
ghost use Rattle.sz_dhcp.specs.Message6.{Gives6, GivesTargets, IsFault6, IsOption};
ghost use Rattle.sz_dhcp.specs.Spelled.{BeginsWith, EndsInside};
ghost use Rattle.sz_dhcp.specs.UriList.{ListBreaksAt};
ghost use Rattle.sz_dhcp.specs.declared.fault.DhcpKind.{DhcpKind};

use crate::front::{Found, entry_of};
use crate::uri_list::push_targets;
use crate::{DhcpFault, DhcpKind};
use std::alloc::Global;
use sz_base::Targets;

// the option of bootstrap servers (RFC 8572 section 8.2)
const SZTP_REDIRECT: u16 = 136;

// the message's type and its transaction stand before the options (RFC 8415 section 8)
const HEADER: usize = 4;

/// The targets of the URIs in the options 136 of a DHCPv6 message, in their order; none where it has no such option.
/// URIs that are not of HTTP are passed over. `Short` where the message ends before its options, at 0, or in an option,
/// at its code; `Uri` where a list ends in an entry, at the entry's length in the option's value. The first of these
/// counts.
pub fn v6(alloc: Global, message: &[u8]) -> Result<Targets, DhcpFault>
    ensures ok { IfOk result (Gives6 message.now) }
    ensures refused { IfErr result (IsFault (IsFault6 message.now)) }
{
    let Some((_, options)) = message.split_at_checked(HEADER) else {
        return Err(DhcpFault::Bad {
            kind: DhcpKind::Short,
            place: 0,
        });
    };
    let mut targets = Targets::create(alloc);
    let mut left = options;
    'options: loop {
        let Some(option) = next_option(left, message.len())? else {
            return Ok(targets);
        };
        push_list(alloc, &mut targets, &option)?;
        left = option.rest;
    }
}

// Puts the targets of an option last.
fn push_list(alloc: Global, targets: &mut Targets, option: &Found<'_>) -> Result<(), DhcpFault>
    ensures ok { OnOk result ((more : List Target)
        × GivesTargets (record { code = option.now.code; value = option.now.value.now }) more
        × (targets.new ≡ targets.old ++ more)) }
    ensures refused { IfErr result (IsFault (λ kind place. (kind ≡ DhcpKind.Uri) × (option.now.code ≡ SZTP_REDIRECT)
        × ListBreaksAt option.now.value.now place)) }
{
    if option.code == SZTP_REDIRECT {
        push_targets(alloc, targets, option.value)
    } else {
        Ok(())
    }
}

// The option at the front of what is left of the message, which ends at this place, or nothing at its end.
fn next_option(left: &[u8], end: usize) -> Result<Option<Found<'_>>, DhcpFault>
    requires { length left.now ≤ end }
    ensures some { IfOk result (λ next. IfSome next (λ option.
        BeginsWith IsOption left.now (record { code = option.code; value = option.value.now }) option.rest.now)) }
    ensures none { IfOk result (λ next. IfNone next (left.now ≡ [])) }
    ensures refused { IfErr result (IsFault (λ kind place. (kind ≡ DhcpKind.Short) × EndsInside IsOption left.now
        × (place + length left.now ≡ end))) }
{
    if left.is_empty() {
        return Ok(None);
    }
    match option_of(left) {
        Some(option) => Ok(Some(option)),
        None => Err(DhcpFault::Bad {
            kind: DhcpKind::Short,
            place: end - left.len(),
        }),
    }
}

// the option at the front of bytes, where it is whole
fn option_of(bytes: &[u8]) -> Option<Found<'_>>
    ensures some { IfSome result (λ option.
        BeginsWith IsOption bytes.now (record { code = option.code; value = option.value.now }) option.rest.now) }
    ensures none { IfNone result (bytes.now ≢ [] → EndsInside IsOption bytes.now) }
{
    let (high, after) = bytes.split_first()?;
    let (low, after) = after.split_first()?;
    let code = u16::from(*high) * 256 + u16::from(*low);
    let found = entry_of(after)?;
    Some(Found {
        code,
        value: found.value,
        rest: found.rest,
    })
}
