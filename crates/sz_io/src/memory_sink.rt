//! A sink in memory.
ghost use Rattle.std.specs.Prelude.{◌≡◌, ◌↔◌, [], ◌++◌, Some, OnOk, OnErr, IsErrOf};
ghost use Rattle.sz_base.specs.Fault.{put_failed};
ghost use Rattle.sz_spec.specs.Cause.{HasCause};
ghost use Rattle.sz_io.specs.Plan.{first_plan, FailsNext, after_call};

use crate::Sink;
use crate::plan::FaultPlan;
use std::alloc::Global;
use std::marker::Model;
use sz_base::{Bytes, Calls, PutFault};

/// A sink that keeps what is written to it in memory, and fails at the calls that it is told to.
#[derive(Debug, Drop)]
pub struct MemorySink {
    written: Bytes,
    plan: FaultPlan,
}

impl Model for MemorySink {
    ghost use Rattle.sz_io.specs.Memory.{SinkState};

    ghost Value = { SinkState };

    ghost view = { λ sink. record { bytes = sink.written; plan = sink.plan } };
}

impl MemorySink {
    /// A sink to which nothing was written. Its calls with the given numbers, counted from 1, fail.
    pub fn create(alloc: Global, fail: Calls) -> Self
        ensures empty { result.bytes ≡ [] }
        ensures plan { result.plan ≡ first_plan fail }
    {
        MemorySink {
            written: Bytes::create(alloc),
            plan: FaultPlan::create(fail),
        }
    }

    /// The bytes that were written.
    pub fn bytes(&self) -> &[u8]
        ensures { result.now ≡ self.now.bytes }
    {
        self.written.as_slice()
    }
}

impl Sink for MemorySink {
    ghost faults = { λ sink. sink.plan.faults };

    ghost written = { λ sink. Some sink.bytes };

    /// A refusal writes nothing.
    fn write(&mut self, bytes: &[u8]) -> Result<(), PutFault>
        ensures ok { OnOk result (self.new.bytes ≡ self.old.bytes ++ bytes.now) }
        ensures refused { OnErr result (self.new.bytes ≡ self.old.bytes) }
        ensures cause { HasCause self.old.plan.faults self.new.plan.faults (put_failed result) }
        ensures fails { IsErrOf result PutFault.Failed ↔ FailsNext self.old.plan }
        ensures counted { self.new.plan ≡ after_call self.old.plan (put_failed result) }
    {
        if self.plan.next_fails() {
            return Err(PutFault::Failed);
        }
        self.written.append(bytes)?;
        Ok(())
    }
}
