//! The top call: a run of the program on its words, over an outside that is handed in.
ghost use Rattle.sz_program.specs.Causes.{HasCauses};
ghost use Rattle.sz_program.specs.Outside.{Outside};
ghost use Rattle.sz_program.specs.Ran.{RunOk};

use crate::command::{Command, read_command};
use crate::outside::{Observed, World};
use std::alloc::Global;
use std::thread::Threads;
use sz_base::{OutOfMemory, Text};
use sz_commands::{Failure, Status, say_failure};
use sz_device::{
    audit, init, onboard, say_audited, say_initialised, say_onboarded, say_shown, show,
};
use sz_disk::Disk;
use sz_io::{Clock, Entropy, Folder, Listener, Net, Sink};
use sz_keys::{check, keygen, say_checked, say_made, say_signed, sign};
use sz_lms_tree::Gate;

/// Runs the program on the words after its name: does the command that they are, and prints.
pub fn run<
    'a,
    R: Threads + Sync,
    G: Gate + Sync,
    D: Disk,
    N: Net,
    L: Listener,
    F: Folder,
    C: Clock,
    E: Entropy,
    O: Sink,
>(
    rt: &R,
    gate: &G,
    alloc: Global,
    words: &[Text],
    world: &mut World<'a, D, N, L, F, C, E, O>,
) -> Status
    ensures ran { RunOk D.seen words.now (⟦<World<'a, D, N, L, F, C, E, O> as Observed<D>>⟧.outside world.old)
        (⟦<World<'a, D, N, L, F, C, E, O> as Observed<D>>⟧.outside world.new) result.0 }
    ensures causes { HasCauses D.seen words.now (⟦<World<'a, D, N, L, F, C, E, O> as Observed<D>>⟧.outside world.old)
        (⟦<World<'a, D, N, L, F, C, E, O> as Observed<D>>⟧.outside world.new) result.0 }
{
    match read_command(alloc, words) {
        Ok(Some(Command::Check(paths))) => {
            let answer = check(alloc, &paths, world.folder);
            say_checked(answer, world.out)
        }
        Ok(Some(Command::Keygen(words))) => {
            let answer = keygen(
                rt,
                gate,
                alloc,
                &words,
                world.disks,
                world.folder,
                world.entropy,
            );
            say_made(answer, world.out)
        }
        Ok(Some(Command::Sign(words))) => {
            let answer = sign(rt, gate, alloc, &words, world.disks, world.folder);
            say_signed(answer, world.out)
        }
        Ok(Some(Command::Init(words))) => {
            let answer = init(alloc, &words, world.disks, world.folder);
            say_initialised(answer, world.out)
        }
        Ok(Some(Command::Onboard(words))) => {
            let answer = onboard(
                alloc,
                &words,
                world.disks,
                world.folder,
                world.net,
                world.clock,
                world.entropy,
            );
            say_onboarded(answer, world.out)
        }
        Ok(Some(Command::Show(disk))) => {
            let answer = show(alloc, &disk, world.disks);
            say_shown(answer, world.out)
        }
        Ok(Some(Command::Audit(disk))) => {
            let answer = audit(alloc, &disk, world.disks);
            say_audited(answer, world.out)
        }
        Ok(None) => say_failure(Failure::Usage, world.out),
        Err(OutOfMemory) => say_failure(Failure::OutOfMemory, world.out),
    }
}
