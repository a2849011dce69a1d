//! How a command ends, and the number that the program gives for it.
ghost use Rattle.std.specs.Prelude.{◌≡◌};
ghost use Rattle.sz_commands.specs.Ending.{number_of};

/// How a command's work ends, before its line is printed.
#[derive(Clone, Copy, Debug, PartialEq, Eq)]
pub enum Ending {
    /// The work is done.
    Done,
    /// The words are no command.
    Usage,
    /// A signature isn't valid, or a stored evidence isn't authorised.
    NotValid,
    /// An image was installed: the device restarts.
    Restart,
    /// No source had what the device may take.
    NoSource,
    /// A disk failed.
    DiskFault,
    /// The clock failed.
    ClockFault,
    /// A named file isn't there, or the folder failed.
    File,
    /// The random bytes failed.
    EntropyFault,
    /// The listener failed.
    ListenerFault,
    /// A disk holds nothing yet.
    NotInitialised,
    /// A disk holds what no run of this program leaves.
    Damaged,
    /// No leaf is left, or no sequence number.
    Exhausted,
    /// An input breaks a rule.
    Refused,
    /// Memory ran out.
    OutOfMemory,
}

impl Ending {
    /// Its number.
    pub fn number(self) -> u8
        ensures { result ≡ number_of self }
    {
        match self {
            Ending::Done => 0,
            Ending::Usage => 2,
            Ending::NotValid => 3,
            Ending::Restart => 10,
            Ending::NoSource => 20,
            Ending::DiskFault => 30,
            Ending::ClockFault => 31,
            Ending::File => 33,
            Ending::EntropyFault => 34,
            Ending::ListenerFault => 35,
            Ending::NotInitialised => 40,
            Ending::Damaged => 41,
            Ending::Exhausted => 50,
            Ending::Refused => 60,
            Ending::OutOfMemory => 70,
        }
    }
}

/// How the program ends: the number of its ending, or that of an output that failed.
#[derive(Clone, Copy, Debug, PartialEq, Eq)]
pub struct Status(pub u8);
