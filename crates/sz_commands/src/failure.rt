//! The failures that commands share, each with its ending and its line.
ghost use Rattle.std.specs.Prelude.{◌≡◌};
ghost use Rattle.sz_commands.specs.Failure.{ending_of, words_of};
ghost use Rattle.sz_commands.specs.View.{failure_of};

use crate::Ending;
use sz_base::Text;

/// Why a command didn't do its work.
#[derive(Clone, Copy)]
pub enum Failure<'a> {
    /// The words are no command.
    Usage,
    /// There is no file at the path, or no disk under the word.
    NoFile(&'a Text),
    /// The folder failed at the path.
    FileFault(&'a Text),
    /// A disk failed.
    DiskFault,
    /// The clock failed.
    ClockFault,
    /// The random bytes failed.
    EntropyFault,
    /// The listener failed.
    ListenerFault,
    /// No source had what the device may take.
    NoSource,
    /// A disk holds nothing yet.
    NotInitialised,
    /// A disk holds at this place this value, which no run of this program leaves.
    Damaged { place: u64, value: u64 },
    /// As many leaf numbers aren't left: this is the next one, and this the first that there isn't.
    Exhausted { next: u64, end: u64 },
    /// A disk had its last value.
    LastSequence,
    /// The word is no list of levels.
    LevelsRefused(&'a Text),
    /// A disk of this size is too small, or too large.
    SizeRefused(u64),
    /// The file of this size is too large.
    TooLarge(u64),
    /// The member of this name is the first of an input that breaks its rule.
    MemberRefused(&'static [u8]),
    /// The key disk is in use.
    InUse,
    /// The device disk is in use, as this slot says.
    SlotInUse(u8),
    /// Memory ran out.
    OutOfMemory,
}

impl<'a> Failure<'a> {
    /// How the command ends.
    pub fn ending(self) -> Ending
        ensures { result ≡ ending_of (failure_of self.entry) }
    {
        match self {
            Failure::Usage => Ending::Usage,
            Failure::NoFile(_) | Failure::FileFault(_) => Ending::File,
            Failure::DiskFault => Ending::DiskFault,
            Failure::ClockFault => Ending::ClockFault,
            Failure::EntropyFault => Ending::EntropyFault,
            Failure::ListenerFault => Ending::ListenerFault,
            Failure::NoSource => Ending::NoSource,
            Failure::NotInitialised => Ending::NotInitialised,
            Failure::Damaged { .. } => Ending::Damaged,
            Failure::Exhausted { .. } | Failure::LastSequence => Ending::Exhausted,
            Failure::LevelsRefused(_)
            | Failure::SizeRefused(_)
            | Failure::TooLarge(_)
            | Failure::MemberRefused(_)
            | Failure::InUse
            | Failure::SlotInUse(_) => Ending::Refused,
            Failure::OutOfMemory => Ending::OutOfMemory,
        }
    }

    /// The words with which its line begins.
    pub fn words(self) -> &'static [u8]
        ensures { result.now ≡ words_of (failure_of self.entry) }
    {
        match self {
            Failure::Usage => b"usage",
            Failure::NoFile(_) => b"no file: ",
            Failure::FileFault(_) => b"file fault: ",
            Failure::DiskFault => b"disk fault",
            Failure::ClockFault => b"clock fault",
            Failure::EntropyFault => b"entropy fault",
            Failure::ListenerFault => b"listener fault",
            Failure::NoSource => b"no source",
            Failure::NotInitialised => b"not initialised",
            Failure::Damaged { .. } => b"damaged: ",
            Failure::Exhausted { .. } => b"exhausted: ",
            Failure::LastSequence => b"exhausted: sequence",
            Failure::LevelsRefused(_) => b"refused: levels ",
            Failure::SizeRefused(_) => b"refused: size ",
            Failure::TooLarge(_) => b"refused: too-large ",
            Failure::MemberRefused(_) => b"refused: member ",
            Failure::InUse => b"refused: in-use",
            Failure::SlotInUse(_) => b"refused: in-use ",
            Failure::OutOfMemory => b"out of memory",
        }
    }
}
