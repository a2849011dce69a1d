//! The command `keygen LEVELS PUBLIC @KEY`, which makes a key on a fresh disk and writes its public key.
ghost use Rattle.std.specs.Prelude.{◌==◌};
ghost use Rattle.sz_commands.specs.Ending.{output_fault};
ghost use Rattle.sz_commands.specs.Printed.{IsPrinted};
ghost use Rattle.sz_keys.specs.KeyLine.{keygen_text, status_of};
ghost use Rattle.sz_keys.specs.KeygenRan.{KeygenRan};
ghost use Rattle.sz_keys.specs.View.{beside, keygen_seen, keygen_words, made_of};
ghost use Rattle.sz_spec.specs.Cause.{HasCause};

use crate::making::make_key;
use std::alloc::Global;
use std::thread::Threads;
use sz_base::Text;
use sz_commands::{Ending, Failure, Status, say_failure, say_number};
use sz_disk::{Disk, Disks};
use sz_hss::Levels;
use sz_io::{Entropy, Folder, Sink};
use sz_lms_tree::Gate;

/// The words of a keygen.
#[derive(Drop)]
pub struct KeygenWords {
    /// The height and the width of each level, from the top, as in `10/4,5/8`.
    pub levels: Text,
    /// The path of the public key.
    pub public: Text,
    /// The word of the disk.
    pub key: Text,
}

/// Makes a key of the levels on the disk under the word, and writes its public key to the file. Gives the end of its
/// leaf numbers. LEVELS is looked at first, then whether there is such a disk; then SEED and I are drawn, and then the
/// disk is looked at. The file is written once the key stands; where that fails, the key stands nevertheless.
pub fn keygen<'a, R: Threads + Sync, G: Gate + Sync, D: Disk, F: Folder, E: Entropy>(
    rt: &R,
    gate: &G,
    alloc: Global,
    words: &'a KeygenWords,
    disks: &mut Disks<D>,
    folder: &mut F,
    entropy: &mut E,
) -> Result<u64, Failure<'a>>
    ensures { KeygenRan D.seen (keygen_words words.now)
        (keygen_seen disks.old
        (beside (F.faults folder.old) (F.files folder.old) (E.faults entropy.old) (E.bytes entropy.old)))
        (keygen_seen disks.new
        (beside (F.faults folder.new) (F.files folder.new) (E.faults entropy.new) (E.bytes entropy.new)))
        (made_of result) }
{
    let Ok(levels) = Levels::read(words.levels.as_slice()) else {
        return Err(Failure::LevelsRefused(&words.levels));
    };
    let Some(disk) = disks.find(words.key.as_slice()) else {
        return Err(Failure::NoFile(&words.key));
    };
    make_key(
        rt,
        gate,
        alloc,
        &levels,
        &words.public,
        disk,
        folder,
        entropy,
    )
}

/// Prints the line of what a keygen came to, and gives the status.
pub fn say_made<O: Sink>(answer: Result<u64, Failure<'_>>, out: &mut O) -> Status
    ensures printed { IsPrinted (status_of (made_of answer.entry)) (keygen_text (made_of answer.entry)) result.0
        (O.written out.old) (O.written out.new) }
    ensures cause { HasCause (O.faults out.old) (O.faults out.new) (result.0 == output_fault) }
{
    match answer {
        Ok(end) => say_number(Ending::Done, b"key ", end, out),
        Err(failure) => say_failure(failure, out),
    }
}
