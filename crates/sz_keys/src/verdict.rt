//! What a check says of a signature, and its line.
ghost use Rattle.std.specs.Prelude.{◌≡◌, ◌==◌, ◌++◌};
ghost use Rattle.sz_spec.specs.Cause.{HasCause};
ghost use Rattle.sz_lms.specs.View.{rule_of};
ghost use Rattle.sz_commands.specs.Ending.{output_fault};
ghost use Rattle.sz_commands.specs.Printed.{IsPrinted};
ghost use Rattle.sz_keys.specs.CheckLine.{ending_of, line_of, rule_word, status_of, text_of};
ghost use Rattle.sz_keys.specs.View.{answer_of, broken_rule};

use sz_commands::{Ending, Failure, Status, say, say_failure};
use sz_io::Sink;
use sz_lms::HssFault;

/// What a check says of a signature.
#[derive(Clone, Copy, Debug, PartialEq, Eq)]
pub enum Checked {
    /// It is one of the file under the public key.
    Valid,
    /// It isn't, for the first rule that it breaks.
    NotValid(HssFault),
}

impl Checked {
    // How the command ends.
    fn ending(self) -> Ending
        ensures { result ≡ ending_of (broken_rule self) }
    {
        match self {
            Checked::Valid => Ending::Done,
            Checked::NotValid(_) => Ending::NotValid,
        }
    }

    // The line without the LF, in two parts.
    fn line(self) -> (&'static [u8], &'static [u8])
        ensures { line_of (broken_rule self) ≡ result.0.now ++ result.1.now }
    {
        match self {
            Checked::Valid => (b"valid", b""),
            Checked::NotValid(fault) => (b"not valid: ", rule_word(fault)),
        }
    }
}

fn rule_word(fault: HssFault) -> &'static [u8]
    ensures { result.now ≡ rule_word (rule_of fault) }
{
    match fault {
        HssFault::Length => b"length",
        HssFault::Levels => b"levels",
        HssFault::Scheme => b"scheme",
        HssFault::LeafNumber => b"leaf",
        HssFault::Root => b"root",
    }
}

/// Prints the line of what a check came to, and gives the status.
pub fn say_checked<O: Sink>(answer: Result<Checked, Failure<'_>>, out: &mut O) -> Status
    ensures printed { IsPrinted (status_of (answer_of answer.entry)) (text_of (answer_of answer.entry)) result.0
        (O.written out.old) (O.written out.new) }
    ensures cause { HasCause (O.faults out.old) (O.faults out.new) (result.0 == output_fault) }
{
    match answer {
        Ok(checked) => {
            let (front, rest) = checked.line();
            say(checked.ending(), front, rest, out)
        }
        Err(failure) => say_failure(failure, out),
    }
}
