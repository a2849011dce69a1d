//! The reader of redirect information.

ghost use Rattle.std.specs.Prelude.{◌≡◌, Some, None, Ok, IfOk, IfErr};
ghost use Rattle.serde_json.specs.View.{items_view, view};
ghost use Rattle.sz_base.specs.Host.{in_brackets, IsHost};
ghost use Rattle.sz_json.specs.Fault.{fault_of, IsFault};
ghost use Rattle.sz_json.specs.Member.{or_fault, required};
ghost use Rattle.sz_json.specs.declared.name.Name.{Name};
ghost use Rattle.sz_artifacts.specs.Address.{address_of, host_of};
ghost use Rattle.sz_artifacts.specs.Redirect.{AreServers, if_some, IsRedirect, IsServer, redirect_fault, server_fault, servers_fault, some_list_of};

use std::alloc::Global;
use sz_base::{BaseFault, Host, Target, Targets, Text};
use sz_json::{JsonFault, Name, Value, member, port, required_object};

/// The port of a bootstrap server that names none.
pub const DEFAULT_PORT: u16 = 443;

const BAD_LIST: JsonFault = JsonFault::Member {
    name: Name::BootstrapServer,
};

const BAD_ADDRESS: JsonFault = JsonFault::Member {
    name: Name::Address,
};

/// The targets of a value of redirect information.
#[tactic(auto, using(sz_json::proofs::Faults::first_fault, sz_json::proofs::Faults::outer_fault))]
pub(crate) fn read_redirect(alloc: Global, value: &Value) -> Result<Targets, JsonFault>
    ensures ok { IfOk result (IsRedirect (view value.now)) }
    ensures refused { IfErr result (IsFault (redirect_fault (view value.now))) }
{
    let information = required_object(value, Name::RedirectInformation)?;
    let servers = servers(information)?;
    targets(alloc, servers)
}

// the list of servers, which has one
fn servers<'v>(information: &'v Value) -> Result<&'v [Value], JsonFault>
    ensures ok { IfOk result (λ servers. required some_list_of Name.BootstrapServer (view information.now)
        ≡ Ok (items_view servers.now)) }
    ensures refused { IfErr result (IsFault (fault_of (required some_list_of Name.BootstrapServer
        (view information.now)))) }
{
    let Some(member) = member(information, Name::BootstrapServer)? else {
        return Err(BAD_LIST);
    };
    let Some(servers) = member.as_array() else {
        return Err(BAD_LIST);
    };
    not_empty(servers.as_slice())
}

#[tactic(auto, using(std::proofs::lemmas::List::nil_from_length))]
fn not_empty(servers: &[Value]) -> Result<&[Value], JsonFault>
    ensures ok { IfOk result (λ some. (some.now ≡ servers.now)
        × (if_some (items_view servers.now) ≡ Some (items_view servers.now))) }
    ensures refused { IfErr result (λ fault. (fault ≡ JsonFault.Member Name.BootstrapServer)
        × (if_some (items_view servers.now) ≡ None)) }
{
    match servers.split_first() {
        Some(_) => Ok(servers),
        None => Err(BAD_LIST),
    }
}

// the targets of the servers, in order
#[tactic(auto, using(crate::proofs::Faultless::server_fault_none, sz_json::proofs::Faults::first_fault))]
fn targets(alloc: Global, servers: &[Value]) -> Result<Targets, JsonFault>
    ensures ok { IfOk result (AreServers (items_view servers.now)) }
    ensures refused { IfErr result (IsFault (servers_fault (items_view servers.now))) }
{
    let mut targets = Targets::create(alloc);
    let mut rest = servers;
    'servers: while let Some((server, after)) = rest.split_first() {
        targets.push(target(alloc, server)?)?;
        rest = after;
    }
    Ok(targets)
}

#[tactic(auto, using(sz_json::proofs::Faults::first_fault))]
fn target(alloc: Global, entry: &Value) -> Result<Target, JsonFault>
    ensures ok { IfOk result (IsServer (view entry.now)) }
    ensures refused { IfErr result (IsFault (server_fault (view entry.now))) }
{
    let host = host(alloc, entry)?;
    let named = port(entry, Name::Port)?;
    Ok(Target {
        host,
        port: named.unwrap_or(DEFAULT_PORT),
    })
}

fn host(alloc: Global, entry: &Value) -> Result<Host, JsonFault>
    ensures ok { IfOk result (λ host. required address_of Name.Address (view entry.now) ≡ Ok host) }
    ensures refused { IfErr result (IsFault (fault_of (required address_of Name.Address (view entry.now)))) }
{
    let Some(member) = member(entry, Name::Address)? else {
        return Err(BAD_ADDRESS);
    };
    match member.as_str() {
        Some(text) => host_of_text(alloc, text.as_bytes()),
        None => Err(BAD_ADDRESS),
    }
}

// the host that the text names; an IPv6 text gets its brackets
fn host_of_text(alloc: Global, text: &[u8]) -> Result<Host, JsonFault>
    ensures ok { IfOk result (λ host. host_of text.now ≡ Some host) }
    ensures refused { IfErr result (IsFault (fault_of (or_fault Name.Address (host_of text.now)))) }
{
    match Host::read(alloc, text) {
        Ok(host) => Ok(host),
        Err(BaseFault::Form) => bracketed(alloc, text),
        Err(BaseFault::OutOfMemory) => Err(JsonFault::OutOfMemory),
    }
}

// the host of an IPv6 text without its brackets
fn bracketed(alloc: Global, text: &[u8]) -> Result<Host, JsonFault>
    ensures ok { IfOk result (λ host. (host ≡ in_brackets text.now) × IsHost host) }
    ensures refused { IfErr result (λ fault. (name : Name) → fault ≡ JsonFault.Member name
        → (name ≡ Name.Address) × ¬ (IsHost (in_brackets text.now))) }
{
    let mut within = Text::create(alloc);
    within.append(b"[")?;
    within.append(text)?;
    within.append(b"]")?;
    match Host::read(alloc, within.as_slice()) {
        Ok(host) => Ok(host),
        Err(BaseFault::Form) => Err(BAD_ADDRESS),
        Err(BaseFault::OutOfMemory) => Err(JsonFault::OutOfMemory),
    }
}
