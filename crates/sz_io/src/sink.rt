//! The sink, to which a program's output goes.
ghost use Rattle.std.specs.Prelude.{ℕ, List, Option, OnOk, OnErr};
ghost use Rattle.sz_base.specs.Fault.{put_failed};
ghost use Rattle.sz_spec.specs.Cause.{HasCause};
ghost use Rattle.sz_spec.specs.Told.{Appends, AppendsFront};

use sz_base::PutFault;

/// Where a program's output goes.
pub trait Sink {
    /// How often the sink has failed.
    ghost faults: { Self → ℕ };

    /// Where the sink tells them, the bytes written to it.
    ghost written: { Self → Option (List ℕ) };

    /// Writes all the bytes behind those that were written before. After a refusal some front of them may
    /// have been written, none or all of them included.
    fn write(&mut self, bytes: &[u8]) -> Result<(), PutFault>
        ensures ok { OnOk result (Appends (written self.old) (written self.new) bytes.now) }
        ensures refused { OnErr result (AppendsFront (written self.old) (written self.new) bytes.now) }
        ensures cause { HasCause (faults self.old) (faults self.new) (put_failed result) };
}
