//! The visit of an item.

ghost use Rattle.std.specs.Prelude.{◌≡◌, false, IfOk, Ok, Err, ℕ};
ghost use Rattle.sz_base.specs.Identity.{IsWhole};
ghost use Rattle.sz_exchange.specs.Exchange.{MayAdd};
ghost use Rattle.sz_io.specs.Folder.{bytes_at, FileMap};
ghost use Rattle.sz_spec.specs.Cause.{HasCause};
ghost use Rattle.sz_spec.specs.Told.{WhereTold};
ghost use Rattle.sz_visit.specs.Files.{blames_folder as blames_files, message_of};
ghost use Rattle.sz_visit.specs.Storage.{storage_of};
ghost use Rattle.sz_ask.specs.Asked.{blames_net as blames_server};
ghost use Rattle.sz_answer.specs.Parts.{AsksOnce, FilesComeTo, IsDhcpAnswer, loses, RefusesFile, RefusesServer};
ghost use Rattle.sz_answer.specs.Visit.{blames_folder, blames_net, CameTo, FileComesTo, IsJudged, IsNoOffer, IsSound, MessageComesTo, search_of, StorageComesTo};

use crate::Answer;
use std::alloc::Global;
use sz_ask::{ServerFault, ask};
use sz_base::{Evidence, Identity, Moment, OutOfMemory, Target, Targets, Text};
use sz_dhcp::DhcpFault;
use sz_dns::DnsFault;
use sz_evidence::{Judged, Reason, Refusal, What, judge};
use sz_io::{Folder, Net};
use sz_source::{Item, Source};
use sz_visit::{FileFault, read_message, read_storage};

/// Visits an item of this source, for the device of this identity at this moment: a folder and a file are read, and a
/// server is asked in one exchange. `Lost` where the folder failed or the exchange is lost; else the answer is as the
/// files or the reply tell.
pub fn visit<F: Folder, N: Net>(
    alloc: Global,
    folder: &mut F,
    net: &mut N,
    identity: &Identity,
    when: Moment,
    source: &Source,
    item: &Item,
) -> Result<Answer, OutOfMemory>
    requires whole { IsWhole identity.now }
    ensures came_to { IfOk result (CameTo identity.now when source.now item.now
        (F.files folder.old) (N.traffic net.old) (N.traffic net.new)) }
    ensures sound { IfOk result (IsSound identity.now when) }
    ensures adds { WhereTold MayAdd (N.traffic net.old) (N.traffic net.new) }
    ensures folder_lost { HasCause (F.faults folder.old) (F.faults folder.new) (blames_folder item.now result) }
    ensures net_lost { HasCause (N.faults net.old) (N.faults net.new) (blames_net item.now result) }
    ensures unchanged { F.files folder.new ≡ F.files folder.old }
{
    match item {
        Item::Folder(path) => visit_storage(alloc, folder, path, identity, when),
        Item::File(path) => visit_file(alloc, folder, path, source),
        Item::At(target) => visit_server(alloc, net, target, identity, when),
    }
}

// Visits the folder under this path.
fn visit_storage<F: Folder>(
    alloc: Global,
    folder: &mut F,
    path: &Text,
    identity: &Identity,
    when: Moment,
) -> Result<Answer, OutOfMemory>
    requires { IsWhole identity.now }
    ensures came_to { IfOk result (FilesComeTo (λ files. StorageComesTo (search_of identity.now when files)
        (storage_of files path.now identity.now.serial)) (F.files folder.old)) }
    ensures sound { IfOk result (IsSound identity.now when) }
    ensures cause { HasCause (F.faults folder.old) (F.faults folder.new) (loses result) }
    ensures unchanged { F.files folder.new ≡ F.files folder.old }
{
    match read_storage(alloc, folder, path, &identity.serial) {
        Ok(evidence) => judged(alloc, identity, when, evidence),
        Err(fault) => refused_file(What::Conveyed, fault),
    }
}

// Visits the file under this path, which has a message of this source.
fn visit_file<F: Folder>(
    alloc: Global,
    folder: &mut F,
    path: &Text,
    source: &Source,
) -> Result<Answer, OutOfMemory>
    ensures came_to { IfOk result (FilesComeTo (λ files. FileComesTo source.now
        (message_of (bytes_at files path.now))) (F.files folder.old)) }
    ensures no_offer { IfOk result IsNoOffer }
    ensures cause { HasCause (F.faults folder.old) (F.faults folder.new) (loses result) }
    ensures unchanged { F.files folder.new ≡ F.files folder.old }
{
    match read_message(alloc, folder, path) {
        Ok(message) => listed(alloc, source, message.as_slice()),
        Err(fault) => refused_file(What::File, fault),
    }
}

// Visits a server.
fn visit_server<N: Net>(
    alloc: Global,
    net: &mut N,
    target: &Target,
    identity: &Identity,
    when: Moment,
) -> Result<Answer, OutOfMemory>
    requires { IsWhole identity.now }
    ensures came_to { (files : FileMap) → IfOk result (λ given. WhereTold (AsksOnce (search_of identity.now when files)
        target.now given) (N.traffic net.old) (N.traffic net.new)) }
    ensures sound { IfOk result (IsSound identity.now when) }
    ensures adds { WhereTold MayAdd (N.traffic net.old) (N.traffic net.new) }
    ensures cause { HasCause (N.faults net.old) (N.faults net.new) (loses result) }
{
    match ask(alloc, net, target, &identity.serial, when.nonce.as_ref()) {
        Ok(evidence) => judged(alloc, identity, when, evidence),
        Err(fault) => refused_server(fault),
    }
}

// What the evidence is judged as.
fn judged(
    alloc: Global,
    identity: &Identity,
    when: Moment,
    evidence: Evidence,
) -> Result<Answer, OutOfMemory>
    requires { IsWhole identity.now }
    ensures judged { (files : FileMap) → IfOk result (IsJudged (search_of identity.now when files) evidence) }
    ensures sound { IfOk result (IsSound identity.now when) }
    ensures not_lost { loses result ≡ false }
{
    match judge(alloc, identity, when, &evidence) {
        Ok(Judged::Unsigned(targets)) => Ok(Answer::Redirected(targets)),
        Ok(Judged::Redirect(targets)) => Ok(Answer::Redirected(targets)),
        Ok(Judged::Onboarding(onboarding)) => Ok(Answer::Offered(onboarding, evidence)),
        Err(Refusal::Reason(reason)) => Ok(Answer::Refused(reason)),
        Err(Refusal::OutOfMemory) => Err(OutOfMemory),
    }
}

// What the message of a source names.
fn listed(alloc: Global, source: &Source, message: &[u8]) -> Result<Answer, OutOfMemory>
    ensures listed { IfOk result (MessageComesTo source.now message.now) }
    ensures no_offer { IfOk result IsNoOffer }
    ensures not_lost { loses result ≡ false }
{
    match source {
        Source::Dhcp4(_) => listed_dhcp(sz_dhcp::v4(alloc, message)),
        Source::Dhcp6(_) => listed_dhcp(sz_dhcp::v6(alloc, message)),
        Source::Dns { domain, .. } => {
            match sz_dns::targets(alloc, message, domain.as_slice()) {
                Ok(targets) => Ok(Answer::Listed(targets)),
                Err(DnsFault::Bad { place, .. }) => Ok(Answer::Refused(Reason::BadName { place })),
                Err(DnsFault::OutOfMemory) => Err(OutOfMemory),
            }
        }
        // these sources have no messages
        Source::Usb(_) | Source::Server(_) => Ok(Answer::Refused(Reason::Absent {
            what: What::File,
        })),
    }
}

// What a DHCP message names.
fn listed_dhcp(read: Result<Targets, DhcpFault>) -> Result<Answer, OutOfMemory>
    ensures listed { IfOk result (IsDhcpAnswer read) }
    ensures no_offer { IfOk result IsNoOffer }
    ensures not_lost { loses result ≡ false }
{
    match read {
        Ok(targets) => Ok(Answer::Listed(targets)),
        Err(DhcpFault::Bad { place, .. }) => Ok(Answer::Refused(Reason::BadOption { place })),
        Err(DhcpFault::OutOfMemory) => Err(OutOfMemory),
    }
}

// Why files give nothing.
fn refused_file(what: What, fault: FileFault) -> Result<Answer, OutOfMemory>
    ensures refused { IfOk result (RefusesFile what fault) }
    ensures no_offer { IfOk result IsNoOffer }
    ensures lost { loses result ≡ blames_files {T = ℕ} (Err fault) }
{
    match fault {
        FileFault::Lost => Ok(Answer::Refused(Reason::Lost)),
        FileFault::Absent => Ok(Answer::Refused(Reason::Absent { what })),
        FileFault::TooLarge { limit } => Ok(Answer::Refused(Reason::TooLarge { limit })),
        FileFault::OutOfMemory => Err(OutOfMemory),
    }
}

// Why a server gives no evidence.
fn refused_server(fault: ServerFault) -> Result<Answer, OutOfMemory>
    ensures refused { IfOk result (RefusesServer fault) }
    ensures no_offer { IfOk result IsNoOffer }
    ensures lost { loses result ≡ blames_server {T = ℕ} (Err fault) }
{
    Ok(Answer::Refused(match fault {
        ServerFault::Lost => Reason::Lost,
        ServerFault::EndedEarly => Reason::EndedEarly,
        ServerFault::BadHttp => Reason::BadHttp,
        ServerFault::Coding => Reason::Coding,
        ServerFault::TooLarge { limit } => Reason::TooLarge { limit },
        ServerFault::Status { code } => Reason::Status { code },
        ServerFault::Member { name } => Reason::Member { name },
        ServerFault::OutOfMemory => return Err(OutOfMemory),
    }))
}
