//! A network in memory.
ghost use Rattle.std.specs.Prelude.{◌≡◌, ◌↔◌, ◌⊎◌, ◌+◌, ◌<◌, ◌≤◌, [], min, length, Some, None, OnOk, OnErr, IfOk, IsErr, IsErrOf, IsSome, is_err, vec_len};
ghost use Rattle.std.specs.Option.{option_map};
ghost use Rattle.std.specs.Vec.{vec_capacity};
ghost use Rattle.sz_base.specs.Fault.{put_failed};
ghost use Rattle.sz_spec.specs.Cause.{HasCause};
ghost use Rattle.sz_io.specs.Plan.{first_plan, FailsNext, after_call};
ghost use Rattle.sz_io.specs.Connection.{push_some};
ghost use Rattle.sz_io.specs.Net.{Connects, Sends, Receives, after_close, after_refused_connect, after_refused_receive, exchange_of, ended, first_traffic, refused_exchange, NoneToReceive, bytes_to_come};

use crate::ongoing::Ongoing;
use crate::plan::FaultPlan;
use crate::rest::is_over;
use crate::script::take_script;
use crate::{Exchange, ExchangeEnd, Net, Script, Scripts};
use std::alloc::Global;
use std::marker::Model;
use sz_base::{Bytes, Calls, Failed, OutOfMemory, PutFault, Target};

/// A network that gives each connection the next of its answers, keeps what is sent, and fails at the calls
/// that it is told to, at a connect where no answer is left, at the end of an answer that is lost, and where
/// a call needs a connection and none stands.
#[derive(Debug, Drop)]
pub struct ScriptNet {
    alloc: Global,
    answers: Vec<Script>,
    taken: usize,
    past: Vec<Exchange>,
    standing: Option<Ongoing>,
    plan: FaultPlan,
}

impl Model for ScriptNet {
    ghost use Rattle.std.specs.Prelude.{◌<◌, ◌≤◌, length, drop, IsSome, vec_len};
    ghost use Rattle.std.specs.Vec.{vec_capacity};
    ghost use Rattle.sz_io.specs.Memory.{NetState};

    ghost Value = { NetState };

    ghost view = { λ net. record {
      traffic = record {
        to_come = drop net.taken net.answers.items;
        past = net.past.items;
        standing = net.standing;
      };
      plan = net.plan;
    } };

    ghost invariant = { λ net. (net.taken ≤ length net.answers.items)
        × (IsSome net.standing → vec_len net.past < vec_capacity net.past) };
}

impl ScriptNet {
    /// A network with these answers, over which nothing went yet. Its calls but `close` with the given
    /// numbers, counted from 1, fail.
    pub fn create(alloc: Global, answers: Scripts, fail: Calls) -> Self
        ensures traffic { result.traffic ≡ first_traffic answers }
        ensures plan { result.plan ≡ first_plan fail }
    {
        ScriptNet {
            alloc,
            answers: answers.into_vec(),
            taken: 0,
            past: Vec::new(alloc),
            standing: None,
            plan: FaultPlan::create(fail),
        }
    }

    /// The exchanges whose connection stands no more, in the order of their connects.
    pub fn past(&self) -> &[Exchange]
        ensures { result.now ≡ self.now.traffic.past }
    {
        self.past.as_slice()
    }
}

impl Net for ScriptNet {
    ghost faults = { λ net. net.plan.faults };

    ghost traffic = { λ net. Some net.traffic };

    fn connect(&mut self, target: &Target, _most: u64) -> Result<(), PutFault>
        ensures ok { OnOk result (Connects target.now self.old.traffic self.new.traffic) }
        ensures failed { IsErrOf result PutFault.Failed
            → self.new.traffic ≡ after_refused_connect target.now self.old.traffic }
        ensures no_memory { IsErrOf result PutFault.OutOfMemory → self.new.traffic ≡ after_close self.old.traffic }
        ensures cause { HasCause self.old.plan.faults self.new.plan.faults (put_failed result) }
        ensures fails { IsErrOf result PutFault.Failed
            → FailsNext self.old.plan ⊎ (self.old.traffic.to_come ≡ []) }
        ensures spared { OnOk result (¬ (FailsNext self.old.plan ⊎ (self.old.traffic.to_come ≡ []))) }
        ensures counted { self.new.plan ≡ after_call self.old.plan (put_failed result) }
    {
        leave(&mut self.past, &mut self.standing);
        let Ok(target) = prepare(self.alloc, &mut self.past, target) else {
            self.plan.pass();
            return Err(PutFault::OutOfMemory);
        };
        if self
            .plan
            .next_fails_or(is_over(self.answers.as_slice(), self.taken))
        {
            self.past.push_reserved(refused(self.alloc, target));
            return Err(PutFault::Failed);
        }
        let answer = take_script(self.alloc, self.answers.as_mut_slice(), self.taken);
        self.taken += 1;
        self.standing = Some(Ongoing::over(self.alloc, target, answer));
        Ok(())
    }

    /// A refusal sends nothing.
    fn send(&mut self, bytes: &[u8]) -> Result<(), PutFault>
        ensures ok { OnOk result (Sends bytes.now self.old.traffic self.new.traffic) }
        ensures failed { IsErrOf result PutFault.Failed
            → self.new.traffic ≡ after_refused_receive self.old.traffic }
        ensures no_memory { IsErrOf result PutFault.OutOfMemory
            → Sends [] self.old.traffic self.new.traffic }
        ensures cause { HasCause self.old.plan.faults self.new.plan.faults (put_failed result) }
        ensures fails { IsErrOf result PutFault.Failed
            ↔ (FailsNext self.old.plan ⊎ (self.old.traffic.standing ≡ None)) }
        ensures counted { self.new.plan ≡ after_call self.old.plan (put_failed result) }
    {
        let fails = self.plan.next_fails_or(self.standing.is_none());
        let Some(ongoing) = &mut self.standing else {
            return Err(PutFault::Failed);
        };
        if fails {
            ongoing.end(ExchangeEnd::Lost);
            return Err(PutFault::Failed);
        }
        ongoing.send(bytes)?;
        Ok(())
    }

    /// Receives as many bytes as are still to come and `into` takes.
    fn receive(&mut self, into: &mut [u8]) -> Result<usize, Failed>
        ensures count { IfOk result (λ count.
            count ≡ min (length into.old) (length (bytes_to_come self.old.traffic))) }
        ensures ok { IfOk result (λ count. Receives into.new count self.old.traffic self.new.traffic) }
        ensures failed { OnErr result (self.new.traffic ≡ after_refused_receive self.old.traffic) }
        ensures cause { HasCause self.old.plan.faults self.new.plan.faults (is_err result) }
        ensures fails { IsErr result ↔ (FailsNext self.old.plan ⊎ NoneToReceive self.old.traffic) }
        ensures counted { self.new.plan ≡ after_call self.old.plan (is_err result) }
    {
        let unanswered = match &self.standing {
            Some(ongoing) => ongoing.is_at_loss(),
            None => true,
        };
        let fails = self.plan.next_fails_or(unanswered);
        let Some(ongoing) = &mut self.standing else {
            return Err(Failed);
        };
        if fails {
            ongoing.end(ExchangeEnd::Lost);
            return Err(Failed);
        }
        Ok(ongoing.receive(into))
    }

    fn close(&mut self)
        ensures closed { self.new.traffic ≡ after_close self.old.traffic }
        ensures no_fault { self.new.plan ≡ self.old.plan }
    {
        leave(&mut self.past, &mut self.standing);
    }
}

// Closes the connection that stands, if one does, for which the list of past exchanges has room.
fn leave(past: &mut Vec<Exchange>, standing: &mut Option<Ongoing>)
    requires { IsSome standing.old → vec_len past.old < vec_capacity past.old }
    ensures past { past.new.items
        ≡ push_some past.old.items (option_map (λ one. exchange_of (ended ExchangeEnd.Left one)) standing.old) }
    ensures standing { standing.new ≡ None }
{
    if let Some(mut ongoing) = standing.take() {
        ongoing.end(ExchangeEnd::Left);
        past.push_reserved(ongoing.into_exchange());
    }
}

// Makes room for one more exchange, and copies its target. A refusal changes nothing.
fn prepare(alloc: Global, past: &mut Vec<Exchange>, target: &Target) -> Result<Target, OutOfMemory>
    ensures copied { IfOk result (λ copied. copied ≡ target.now) }
    ensures room { OnOk result (vec_len past.new < vec_capacity past.new) }
    ensures unchanged { past.new.items ≡ past.old.items }
{
    past.reserve(1)?;
    target.copy(alloc)
}

// The exchange of a connect that failed.
fn refused(alloc: Global, target: Target) -> Exchange
    ensures { result ≡ refused_exchange target }
{
    Exchange {
        target,
        sent: Bytes::create(alloc),
        received: Bytes::create(alloc),
        end: ExchangeEnd::Lost,
    }
}
