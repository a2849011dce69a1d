//! Standard output as a sink.
ghost use Rattle.std.specs.Prelude.{None, OnOk, OnErr, ◌≡◌};
ghost use Rattle.std.specs.Io.KnownBytes.{Appends};
ghost use Rattle.sz_base.specs.Fault.{put_failed};
ghost use Rattle.sz_spec.specs.Cause.{HasCause};
ghost use Rattle.sz_real.specs.Adapter.{sink_faults, sink_writer};
ghost use Rattle.sz_real.specs.Known.{GrowsByFront};

use crate::fault::put_counted;
use crate::steps::write_whole;
use std::alloc::Global;
use std::io::Write;
use sz_base::PutFault;
use sz_io::Sink;

/// A writer of the runtime as a sink. Each error is one fault. It tells nothing of what was written, but its
/// clauses tie each answer to what the writer itself tells.
#[derive(Drop)]
pub struct RealSink<W> {
    writer: W,
    faults: u64,
}

impl<W: Write> RealSink<W> {
    /// Writes nothing, and takes no memory.
    pub fn create(writer: W, _alloc: Global) -> Self
        ensures writer { sink_writer result ≡ writer }
        ensures no_fault { sink_faults result ≡ 0 }
    {
        RealSink { writer, faults: 0 }
    }
}

impl<W: Write> Sink for RealSink<W> {
    ghost faults = { λ sink. sink.faults };

    ghost written = { λ _. None };

    /// An interrupted write is tried again, and a short one goes on.
    fn write(&mut self, bytes: &[u8]) -> Result<(), PutFault>
        ensures ok { OnOk result
            (Appends (W.contents (sink_writer self.old)) (W.contents (sink_writer self.new)) bytes.now) }
        ensures refused { OnErr result
            (GrowsByFront (W.contents (sink_writer self.old)) (W.contents (sink_writer self.new)) bytes.now) }
        ensures cause { HasCause (sink_faults self.old) (sink_faults self.new) (put_failed result) }
    {
        let answer = write_whole(&mut self.writer, bytes);
        put_counted(&mut self.faults, answer)
    }
}
