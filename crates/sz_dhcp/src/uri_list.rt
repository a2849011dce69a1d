//! The list of bootstrap servers in an option.

ghost use Rattle.std.specs.Prelude.{◌≡◌, ◌+◌, ◌≤◌, List, [], ◌++◌, length, IfOk, OnOk, IfErr, IfSome, IfNone};
ghost use Rattle.sz_base.specs.declared.target.Target.{Target};
ghost use Rattle.sz_dhcp.specs.Fault.{IsFault};
ghost use Rattle.sz_dhcp.specs.Spelled.{BeginsWith, EndsInside};
ghost use Rattle.sz_dhcp.specs.UriList.{GivesTarget, IsEntry, ListBreaksAt, ListsTargets};
ghost use Rattle.sz_dhcp.specs.declared.fault.DhcpKind.{DhcpKind};

use crate::front::{Entry, entry_of};
use crate::{DhcpFault, DhcpKind};
use std::alloc::Global;
use sz_base::{BaseFault, OutOfMemory, Targets};
use sz_uri::Uri;

/// Puts the targets of the list's URIs last, in their order. A URI of another scheme than HTTP's gives none.
pub(crate) fn push_targets(
    alloc: Global,
    targets: &mut Targets,
    list: &[u8],
) -> Result<(), DhcpFault>
    ensures ok { OnOk result ((more : List Target) × ListsTargets list.now more × (targets.new ≡ targets.old ++ more)) }
    ensures refused { IfErr result (IsFault (λ kind place. (kind ≡ DhcpKind.Uri) × ListBreaksAt list.now place)) }
{
    let mut left = list;
    'entries: loop {
        let Some(entry) = next_entry(left, list.len())? else {
            return Ok(());
        };
        push_target(alloc, targets, entry.value)?;
        left = entry.rest;
    }
}

// The entry at the front of what is left of a list of so many bytes.
fn next_entry(left: &[u8], size: usize) -> Result<Option<Entry<'_>>, DhcpFault>
    requires { length left.now ≤ size }
    ensures some { IfOk result (λ next. IfSome next (λ entry.
        BeginsWith IsEntry left.now entry.value.now entry.rest.now)) }
    ensures none { IfOk result (λ next. IfNone next (left.now ≡ [])) }
    ensures refused { IfErr result (IsFault (λ kind place. (kind ≡ DhcpKind.Uri) × EndsInside IsEntry left.now
        × (place + length left.now ≡ size))) }
{
    if left.is_empty() {
        return Ok(None);
    }
    match entry_of(left) {
        Some(entry) => Ok(Some(entry)),
        None => Err(DhcpFault::Bad {
            kind: DhcpKind::Uri,
            place: size - left.len(),
        }),
    }
}

fn push_target(alloc: Global, targets: &mut Targets, text: &[u8]) -> Result<(), OutOfMemory>
    ensures { OnOk result ((own : List Target) × GivesTarget text.now own × (targets.new ≡ targets.old ++ own)) }
{
    match Uri::read(alloc, text) {
        Ok(uri) => targets.push(uri.target),
        Err(BaseFault::Form) => Ok(()),
        Err(BaseFault::OutOfMemory) => Err(OutOfMemory),
    }
}
