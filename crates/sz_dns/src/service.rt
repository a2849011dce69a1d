//! Services in records, and the targets that they give.

ghost use Rattle.std.specs.Prelude.{◌≡◌, ◌==◌, ◌&&◌, not, ◌+◌, ◌-◌, ◌<◌, ◌≤◌, List, ◌++◌, length, map, IfOk, OnOk, IfErr};
ghost use Rattle.std.specs.Prelude.{true};
ghost use Rattle.std.specs.List.{list_all, list_any};
ghost use Rattle.std.specs.Str.{bytes_eq};
ghost use Rattle.sz_dns.specs.Fault.{Tells};
ghost use Rattle.sz_dns.specs.Name.{labels_size};
ghost use Rattle.sz_dns.specs.Order.{AreByPriority};
ghost use Rattle.sz_dns.specs.Record.{record_of};
ghost use Rattle.sz_dns.specs.Service.{candidates_of, counts, dotted, GivesCandidates, has_dot, is_host_byte, is_owner, IsService, IsServiceFault, lowered, service_name};
ghost use Rattle.sz_dns.specs.declared.name.TheConstants.{MOST_BYTES};

use crate::name::{Places, read_name};
use crate::record::{Record, number};
use crate::{DnsFault, DnsKind};
use std::alloc::Global;
use sz_base::{BaseFault, Host, Items, OutOfMemory, Target, Targets, Text, Texts};

/// The type of the records of services (RFC 2782).
pub(crate) const SRV: u16 = 33;

/// The class of the internet (RFC 1035 section 3.2.4).
pub(crate) const IN: u16 = 1;

/// A target, and how early it is taken: the lower the earlier.
#[derive(Debug, Drop)]
pub(crate) struct Candidate {
    pub priority: u16,
    pub target: Target,
}

/// What a record of a service says.
#[derive(Drop)]
pub(crate) struct Service {
    pub priority: u16,
    pub port: u16,
    pub target: Texts,
}

/// The name of the service under a domain.
pub(crate) fn service_name(alloc: Global, domain: &[u8]) -> Result<Text, OutOfMemory>
    ensures { IfOk result (λ name. name ≡ service_name domain.now) }
{
    let mut name = Text::from_slice(alloc, b"_sztp._tcp.")?;
    name.append(domain)?;
    Ok(name)
}

/// Puts the candidate of a record of this name last, where the record counts and its target is a host and a port.
pub(crate) fn push_candidate(
    alloc: Global,
    candidates: &mut Items<Candidate>,
    message: &[u8],
    name: &[u8],
    item: &Record<'_>,
    start: usize,
) -> Result<(), DnsFault>
    requires { length item.now.contents.now + length item.now.rest.now ≤ length message.now }
    ensures ok { OnOk result ((own : List Candidate) × GivesCandidates message.now name.now (record_of item.now) own
        × (candidates.new ≡ candidates.old ++ own)) }
    ensures refused { IfErr result (Tells (λ kind place. (counts name.now (record_of item.now) ≡ true)
        × IsServiceFault message.now item.now.contents.now start
        (length message.now - length item.now.rest.now - length item.now.contents.now) kind place)) }
{
    if !counts(alloc, name, item)? {
        return Ok(());
    }
    let inside = message.len() - item.rest.len() - item.contents.len();
    let service = read_service(alloc, message, item.contents, start, inside)?;
    push_target(alloc, candidates, service)?;
    Ok(())
}

fn counts(alloc: Global, name: &[u8], item: &Record<'_>) -> Result<bool, OutOfMemory>
    ensures { IfOk result (λ counted. counted ≡ counts name.now (record_of item.now)) }
{
    if item.kind != SRV || item.class != IN {
        return Ok(false);
    }
    is_owner(alloc, name, &item.owner)
}

fn is_owner(alloc: Global, name: &[u8], labels: &Texts) -> Result<bool, OutOfMemory>
    ensures { IfOk result (λ owned. owned ≡ is_owner name.now labels.now) }
{
    let text = dotted(alloc, labels)?;
    Ok(!has_dots(labels.as_slice()) && is_same_name(text.as_slice(), name))
}

fn has_dots(labels: &[Text]) -> bool
    ensures { result ≡ list_any has_dot labels.now }
{
    labels.iter().any(|label| has_dot(label.as_slice()))
}

fn has_dot(label: &[u8]) -> bool
    ensures { result ≡ has_dot label.now }
{
    label.contains(&b'.')
}

// but for the case of letters
fn is_same_name(text: &[u8], name: &[u8]) -> bool
    ensures { result ≡ bytes_eq (lowered text.now) (lowered name.now) }
{
    text.eq_ignore_ascii_case(name)
}

// the labels with dots between them
fn dotted(alloc: Global, labels: &Texts) -> Result<Text, OutOfMemory>
    ensures { IfOk result (λ text. text ≡ dotted labels.now) }
{
    let mut text = Text::create(alloc);
    let Some((first, more)) = labels.as_slice().split_first() else {
        return Ok(text);
    };
    text.append(first.as_slice())?;
    for label in more {
        text.append(b".")?;
        text.append(label.as_slice())?;
    }
    Ok(text)
}

// The service in the data of a record. The record begins at one place of the message, and its data at another.
fn read_service(
    alloc: Global,
    message: &[u8],
    contents: &[u8],
    start: usize,
    inside: usize,
) -> Result<Service, DnsFault>
    requires { inside + length contents.now ≤ length message.now }
    ensures ok { IfOk result (IsService message.now contents.now) }
    ensures refused { IfErr result (Tells (IsServiceFault message.now contents.now start inside)) }
{
    let Some((fixed, name)) = contents.split_at_checked(6) else {
        return Err(DnsFault::Bad {
            kind: DnsKind::Short,
            place: start,
        });
    };
    let places = Places {
        part: start,
        name: inside + 6,
    };
    let target = read_name(alloc, message, name, places)?;
    Ok(Service {
        priority: number(fixed[0], fixed[1]),
        port: number(fixed[4], fixed[5]),
        target: target.labels,
    })
}

fn push_target(
    alloc: Global,
    candidates: &mut Items<Candidate>,
    service: Service,
) -> Result<(), OutOfMemory>
    requires { labels_size service.target + 1 ≤ MOST_BYTES }
    ensures { OnOk result (candidates.new ≡ candidates.old ++ candidates_of service) }
{
    let text = dotted(alloc, &service.target)?;
    if service.port == 0 || !is_host(service.target.as_slice(), text.as_slice()) {
        return Ok(());
    }
    match Host::read(alloc, text.as_slice()) {
        Ok(host) => candidates.push(Candidate {
            priority: service.priority,
            target: Target {
                host,
                port: service.port,
            },
        }),
        Err(BaseFault::Form) => Ok(()),
        Err(BaseFault::OutOfMemory) => Err(OutOfMemory),
    }
}

// the labels, with this text, are a host's
fn is_host(labels: &[Text], text: &[u8]) -> bool
    ensures { result ≡ (not (length text.now == 0) && list_all (list_all is_host_byte) labels.now) }
{
    !text.is_empty() && are_host_labels(labels)
}

fn are_host_labels(labels: &[Text]) -> bool
    ensures { result ≡ list_all (list_all is_host_byte) labels.now }
{
    labels.iter().all(|label| is_host_label(label.as_slice()))
}

fn is_host_label(label: &[u8]) -> bool
    ensures { result ≡ list_all is_host_byte label.now }
{
    label.iter().all(|byte| is_host_byte(*byte))
}

fn is_host_byte(byte: u8) -> bool
    ensures { result ≡ is_host_byte byte }
{
    byte.is_ascii_alphanumeric() || b"-_".contains(&byte)
}

/// The targets by priority, and those of one priority in the order of the candidates.
pub(crate) fn by_priority(
    alloc: Global,
    candidates: Items<Candidate>,
) -> Result<Targets, OutOfMemory>
    ensures { IfOk result (λ targets. (ordered : List Candidate) × AreByPriority candidates ordered
        × (targets ≡ map (λ candidate. candidate.target) ordered)) }
{
    let ordered = in_order(candidates)?;
    targets_of(alloc, ordered)
}

fn in_order(candidates: Items<Candidate>) -> Result<Vec<Candidate>, OutOfMemory>
    ensures { IfOk result (λ ordered. AreByPriority candidates ordered.items) }
{
    let mut ordered = candidates.into_vec();
    ordered.sort_by_key(|candidate| candidate.priority)?;
    Ok(ordered)
}

fn targets_of(alloc: Global, candidates: Vec<Candidate>) -> Result<Targets, OutOfMemory>
    ensures { IfOk result (λ targets. targets ≡ map (λ candidate. candidate.target) candidates.items) }
{
    let mut targets = Targets::create(alloc);
    for candidate in candidates {
        targets.push(candidate.target)?;
    }
    Ok(targets)
}
