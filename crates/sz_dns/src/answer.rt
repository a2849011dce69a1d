//! The reader of a message.

ghost use Rattle.std.specs.Prelude.{◌≡◌, ◌+◌, ◌-◌, ◌<◌, ◌≤◌, ℕ, List, length, IfOk, IfErr};
ghost use Rattle.sz_dns.specs.Answer.{AreQuestions, AreRecords, Gives, IsFault, IsItemFault};
ghost use Rattle.sz_dns.specs.Fault.{Tells};
ghost use Rattle.sz_dns.specs.Record.{IsQuestionFault};
ghost use Rattle.sz_dns.specs.Service.{service_name};
ghost use Rattle.sz_dns.specs.declared.service.Candidate.{Candidate};

use crate::record::{number, read_record, skip_question};
use crate::service::{Candidate, by_priority, push_candidate, service_name};
use crate::{DnsFault, DnsKind};
use std::alloc::Global;
use sz_base::{Items, Targets};

// the bytes of the header (RFC 1035 section 4.1.1)
const HEADER: usize = 12;

/// The targets of the SRV records for `_sztp._tcp` under the domain in the message's answer section, by priority and
/// then in the order of the records; weights are not used. A message with an error in its header gives none. A target
/// of the root, with port 0 or with bytes other than letters, digits, `-` and `_` in a label is passed over. `Short`
/// where the message ends inside its header, a question or a record, also where a pointer leads past its end, or a
/// record's data end inside their fields, at that part; `Pointer` where a name has more than 255 bytes or 127 pointers,
/// and `Label` where it has a label of an unknown kind, at that name.
pub fn targets(alloc: Global, answer: &[u8], domain: &[u8]) -> Result<Targets, DnsFault>
    ensures ok { IfOk result (Gives answer.now domain.now) }
    ensures refused { IfErr result (Tells (IsFault answer.now domain.now)) }
{
    let Some((header, body)) = answer.split_at_checked(HEADER) else {
        return Err(DnsFault::Bad {
            kind: DnsKind::Short,
            place: 0,
        });
    };
    if header[3] % 16 != 0 {
        return Ok(Targets::create(alloc));
    }
    let records = skip_questions(alloc, answer, body, number(header[4], header[5]))?;
    let candidates = candidates(alloc, answer, domain, records, number(header[6], header[7]))?;
    Ok(by_priority(alloc, candidates)?)
}

// What comes after so many questions.
fn skip_questions<'a>(
    alloc: Global,
    message: &'a [u8],
    body: &'a [u8],
    count: u16,
) -> Result<&'a [u8], DnsFault>
    requires { length body.now ≤ length message.now }
    ensures ok { IfOk result (λ rest. AreQuestions message.entry.now count body.entry.now rest.now) }
    ensures within { IfOk result (λ rest. length rest.now ≤ length message.entry.now) }
    ensures refused { IfErr result (Tells (λ kind place. (read : ℕ) × (left : List ℕ) × (read < count)
        × AreQuestions message.entry.now read body.entry.now left × IsQuestionFault message.entry.now left kind
        × (place ≡ length message.entry.now - length left))) }
{
    let mut left = body;
    let mut read = 0;
    'questions: while read < count {
        left = skip_question(alloc, message, left)?;
        read += 1;
    }
    Ok(left)
}

// The candidates of so many records.
fn candidates(
    alloc: Global,
    message: &[u8],
    domain: &[u8],
    body: &[u8],
    count: u16,
) -> Result<Items<Candidate>, DnsFault>
    requires { length body.now ≤ length message.now }
    ensures ok { IfOk result (λ found. (rest : List ℕ)
        × AreRecords message.now (service_name domain.now) count body.now found rest) }
    ensures refused { IfErr result (Tells (λ kind place. (read : ℕ) × (found : List Candidate) × (left : List ℕ)
        × (read < count) × AreRecords message.now (service_name domain.now) read body.now found left
        × IsItemFault message.now (service_name domain.now) left kind place)) }
{
    let name = service_name(alloc, domain)?;
    let mut candidates = Items::create(alloc);
    let mut left = body;
    let mut read = 0;
    'records: while read < count {
        let item = read_record(alloc, message, left)?;
        let start = message.len() - left.len();
        push_candidate(
            alloc,
            &mut candidates,
            message,
            name.as_slice(),
            &item,
            start,
        )?;
        left = item.rest;
        read += 1;
    }
    Ok(candidates)
}
