//! The reply of a server, as it comes in pieces.

ghost use Rattle.std.specs.Prelude.{ℕ, Bool, true, false, List, [], ◌++◌, IfOk, IfErr, OnOk};
ghost use Rattle.sz_ask.specs.Coming.{Comes, HasCome, IsComing};
ghost use Rattle.sz_ask.specs.Reply.{HasReply, HasStatus, TellsFault};

use crate::{MOST_REPLY_BYTES, ServerFault};
use std::alloc::Global;
use sz_base::{Bytes, OutOfMemory};
use sz_http::{Reading, Side};

/// What has come of a reply: the reading of its bytes, and the body so far.
#[derive(Drop)]
pub(crate) struct Incoming {
    reading: Reading,
    body: Bytes,
}

impl Incoming {
    /// Nothing came yet.
    pub(crate) fn create(alloc: Global) -> Result<Incoming, OutOfMemory>
        ensures { IfOk result (λ incoming. IsComing incoming []) }
    {
        let reading = Reading::create(alloc, Side::Reply, MOST_REPLY_BYTES)?;
        Ok(Incoming {
            reading,
            body: Bytes::create(alloc),
        })
    }

    /// Takes the next bytes of the reply, and says whether it is whole.
    pub(crate) fn take(&mut self, piece: &[u8]) -> Result<bool, ServerFault>
        requires { (bytes : List ℕ) × IsComing self.old bytes }
        ensures ok { (bytes : List ℕ) → IsComing self.old bytes
            → IfOk result (λ whole. Comes whole self.new (bytes ++ piece.now)) }
        ensures refused { (bytes : List ℕ) → IsComing self.old bytes
            → IfErr result (TellsFault (bytes ++ piece.now) false) }
    {
        let mut at = 0;
        while at < piece.len() {
            let fed = self.reading.feed(&piece[at..])?;
            self.body.append(fed.body)?;
            if fed.done {
                return Ok(true);
            }
            at += fed.used;
        }
        Ok(false)
    }

    /// Takes the end of the connection, where the reply isn't whole yet.
    pub(crate) fn end(&mut self) -> Result<(), ServerFault>
        ensures ok { (bytes : List ℕ) → IsComing self.old bytes → OnOk result (HasCome self.new bytes true) }
        ensures refused { (bytes : List ℕ) → IsComing self.old bytes → IfErr result (TellsFault bytes true) }
    {
        self.reading.ended()?;
        Ok(())
    }

    /// The status and the body of the whole reply.
    pub(crate) fn reply(&self) -> (u16, &[u8])
        ensures { (bytes : List ℕ) (closed : Bool) → HasCome self.now bytes closed
            → HasReply bytes closed result.0 result.1.now }
    {
        (self.status(), self.body.as_slice())
    }

    // The status of the whole reply.
    fn status(&self) -> u16
        ensures { (bytes : List ℕ) (closed : Bool) → HasCome self.now bytes closed → HasStatus bytes result }
    {
        match self.reading.head() {
            Some(head) => head.status,
            None => 0,
        }
    }
}
