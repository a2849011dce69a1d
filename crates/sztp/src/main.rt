//! The program `sztp`.
#![tactic(auto)]

ghost use Rattle.std.specs.Prelude.{◌≡◌};
ghost use Rattle.std.specs.Process.{exit_status};
ghost use Rattle.sz_program.specs.Causes.{HasCauses};
ghost use Rattle.sz_program.specs.Ran.{RunOk};

mod disks;
mod standard;
mod words;

use crate::disks::disks_named;
use crate::standard::hold_standard;
use crate::words::words;
use std::alloc::Global;
use std::io;
use std::process::ExitCode;
use std::thread::Threads;
use sz_base::Text;
use sz_commands::{Failure, Status, say_failure};
use sz_disk::Disk;
use sz_io::{Clock, Entropy, Folder, Listener, Net, Sink};
use sz_lms_tree::OpenGate;
use sz_program::{Observed, World, run};
use sz_real::{RealClock, RealEntropy, RealFolder, RealListener, RealNet, RealSink};

// The status of an output that failed.
const OUTPUT_FAULT: Status = Status(32);

fn main(rt: HostRuntime) -> ExitCode {
    let Some(_held) = hold_standard(&rt) else {
        return ended(OUTPUT_FAULT);
    };
    let alloc = rt.alloc();
    let mut out = RealSink::create(io::writer(&rt), alloc);
    let Ok(words) = words(&rt, alloc) else {
        return ended(say_failure(Failure::OutOfMemory, &mut out));
    };
    let Ok(mut disks) = disks_named(&rt, alloc, words.as_slice()) else {
        return ended(say_failure(Failure::OutOfMemory, &mut out));
    };
    let mut world = World {
        disks: &mut disks,
        net: &mut RealNet::create(&rt, alloc),
        listener: &mut RealListener::create(&rt, alloc),
        folder: &mut RealFolder::create(&rt, alloc),
        clock: &mut RealClock::create(&rt, alloc),
        entropy: &mut RealEntropy::create(&rt, alloc),
        out: &mut out,
    };
    run_to_the_end(&rt, alloc, words.as_slice(), &mut world)
}

// The run on these words over a world, and the end of the process with its status.
fn run_to_the_end<
    'a,
    R: Threads + Sync,
    D: Disk,
    N: Net,
    L: Listener,
    F: Folder,
    C: Clock,
    E: Entropy,
    O: Sink,
>(rt: &R, alloc: Global, words: &[Text], world: &mut World<'a, D, N, L, F, C, E, O>) -> ExitCode
    ensures ran { RunOk D.seen words.now (⟦<World<'a, D, N, L, F, C, E, O> as Observed<D>>⟧.outside world.old)
        (⟦<World<'a, D, N, L, F, C, E, O> as Observed<D>>⟧.outside world.new) (exit_status result) }
    ensures causes { HasCauses D.seen words.now (⟦<World<'a, D, N, L, F, C, E, O> as Observed<D>>⟧.outside world.old)
        (⟦<World<'a, D, N, L, F, C, E, O> as Observed<D>>⟧.outside world.new) (exit_status result) }
{
    ended(run(rt, &OpenGate, alloc, words, world))
}

// The end of the process with this status.
fn ended(status: Status) -> ExitCode
    ensures { exit_status result ≡ status.0 }
{
    ExitCode::from(status.0)
}
