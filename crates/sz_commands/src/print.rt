//! Printing a command's line.
ghost use Rattle.std.specs.Prelude.{◌≡◌, ◌==◌, ◌+◌, ◌≤◌, ◌++◌, ◌∷◌, [], OnOk, OnErr, length, map};
ghost use Rattle.std.specs.Fmt.{decimal};
ghost use Rattle.std.specs.List.{concat};
ghost use Rattle.sz_base.specs.Fault.{put_failed};
ghost use Rattle.sz_spec.specs.Cause.{HasCause};
ghost use Rattle.sz_spec.specs.Told.{Appends, AppendsFront};
ghost use Rattle.sz_commands.specs.Ending.{number_of, output_fault};
ghost use Rattle.sz_commands.specs.Failure.{status_of, text_of};
ghost use Rattle.sz_commands.specs.Printed.{IsPrinted, IsWritten, refusal_of};
ghost use Rattle.sz_commands.specs.View.{failure_of};

use crate::{Ending, Failure, Status};
use arrayvec::ArrayVec;
use itoa::Buffer;
use sz_base::PutFault;
use sz_io::Sink;

/// The number of an output that failed, which takes the place of the work's own.
const OUTPUT_FAULT: u8 = 32;

/// Room for two numbers of 20 digits and four bytes between them.
const MOST_NUMBERS: usize = 44;

/// Prints the line of these two parts, and gives the status: that of the ending, unless the line was refused. Of
/// a refused line a front may have gone out, and nothing goes out behind it.
pub fn say<O: Sink>(ending: Ending, front: &[u8], rest: &[u8], out: &mut O) -> Status
    ensures printed { IsPrinted (number_of ending) (front.now ++ rest.now ++ 10 ∷ []) result.0
        (O.written out.old) (O.written out.new) }
    ensures cause { HasCause (O.faults out.old) (O.faults out.new) (result.0 == output_fault) }
{
    match print_line(front, rest, out) {
        Ok(()) => Status(ending.number()),
        Err(fault) => refusal_status(fault),
    }
}

/// Prints this text as it stands, and gives the status likewise.
pub fn say_text<O: Sink>(ending: Ending, text: &[u8], out: &mut O) -> Status
    ensures printed { IsPrinted (number_of ending) text.now result.0 (O.written out.old) (O.written out.new) }
    ensures cause { HasCause (O.faults out.old) (O.faults out.new) (result.0 == output_fault) }
{
    match out.write(text) {
        Ok(()) => Status(ending.number()),
        Err(fault) => refusal_status(fault),
    }
}

/// The same of a text in parts.
pub fn say_parts<O: Sink>(ending: Ending, parts: &[&[u8]], out: &mut O) -> Status
    ensures printed { IsPrinted (number_of ending) (concat (map (λ part. part.now) parts.now)) result.0
        (O.written out.old) (O.written out.new) }
    ensures cause { HasCause (O.faults out.old) (O.faults out.new) (result.0 == output_fault) }
{
    match write_parts(parts, out) {
        Ok(()) => Status(ending.number()),
        Err(fault) => refusal_status(fault),
    }
}

/// The status where a text was refused, whatever the work came to.
pub fn refusal_status(fault: PutFault) -> Status
    ensures { result.0 ≡ refusal_of fault }
{
    match fault {
        PutFault::Failed => Status(OUTPUT_FAULT),
        PutFault::OutOfMemory => Status(Ending::OutOfMemory.number()),
    }
}

/// Writes these parts one after another. Of a part that is refused a front may have gone out, and nothing goes out
/// behind it.
pub fn write_parts<O: Sink>(parts: &[&[u8]], out: &mut O) -> Result<(), PutFault>
    ensures written { IsWritten (concat (map (λ part. part.now) parts.now)) result
        (O.written out.old) (O.written out.new) }
    ensures cause { HasCause (O.faults out.old) (O.faults out.new) (put_failed result) }
{
    for part in parts {
        out.write(part)?;
    }
    Ok(())
}

/// Prints words, a number and the LF, and gives the status likewise.
pub fn say_number<O: Sink>(ending: Ending, words: &[u8], number: u64, out: &mut O) -> Status
    ensures printed { IsPrinted (number_of ending) (words.now ++ decimal number ++ 10 ∷ []) result.0
        (O.written out.old) (O.written out.new) }
    ensures cause { HasCause (O.faults out.old) (O.faults out.new) (result.0 == output_fault) }
{
    let mut digits = Buffer::new();
    say(ending, words, digits.format(number).as_bytes(), out)
}

// The same of words and two numbers, with a few words between them.
fn say_numbers<O: Sink>(
    ending: Ending,
    words: &[u8],
    first: u64,
    between: &[u8],
    second: u64,
    out: &mut O,
) -> Status
    requires { length between.now ≤ 4 }
    ensures printed { IsPrinted (number_of ending)
        (words.now ++ (decimal first ++ between.now ++ decimal second) ++ 10 ∷ []) result.0
        (O.written out.old) (O.written out.new) }
    ensures cause { HasCause (O.faults out.old) (O.faults out.new) (result.0 == output_fault) }
{
    let numbers = two_numbers(first, between, second);
    say(ending, words, numbers.as_slice(), out)
}

// Two numbers in decimal, with a few words between them.
fn two_numbers(first: u64, between: &[u8], second: u64) -> ArrayVec<u8, MOST_NUMBERS>
    requires { length between.now ≤ 4 }
    ensures { result.items ≡ decimal first ++ between.now ++ decimal second }
{
    let mut line = ArrayVec::new();
    let mut digits = Buffer::new();
    push_all(&mut line, digits.format(first).as_bytes());
    push_all(&mut line, between);
    push_all(&mut line, digits.format(second).as_bytes());
    line
}

fn push_all(line: &mut ArrayVec<u8, MOST_NUMBERS>, bytes: &[u8])
    requires { length line.old.items + length bytes.now ≤ MOST_NUMBERS }
    ensures { line.new.items ≡ line.old.items ++ bytes.now }
{
    let Ok(()) = line.try_extend_from_slice(bytes) else {
        unreachable!()
    };
}

/// Prints the line of a failure, and gives the status.
pub fn say_failure<O: Sink>(failure: Failure<'_>, out: &mut O) -> Status
    ensures printed { IsPrinted (status_of (failure_of failure.entry)) (text_of (failure_of failure.entry)) result.0
        (O.written out.old) (O.written out.new) }
    ensures cause { HasCause (O.faults out.old) (O.faults out.new) (result.0 == output_fault) }
{
    let ending = failure.ending();
    let words = failure.words();
    match failure {
        Failure::NoFile(path) | Failure::FileFault(path) | Failure::LevelsRefused(path) => {
            say(ending, words, path.as_slice(), out)
        }
        Failure::MemberRefused(name) => say(ending, words, name, out),
        Failure::SizeRefused(size) | Failure::TooLarge(size) => {
            say_number(ending, words, size, out)
        }
        Failure::SlotInUse(slot) => say_number(ending, words, u64::from(slot), out),
        Failure::Damaged { place, value } => { say_numbers(ending, words, place, b" ", value, out) }
        Failure::Exhausted { next, end } => say_numbers(ending, words, next, b" of ", end, out),
        _ => say(ending, words, b"", out),
    }
}

// Writes a line that begins so and goes on so.
fn print_line<O: Sink>(front: &[u8], rest: &[u8], out: &mut O) -> Result<(), PutFault>
    ensures ok { OnOk result (Appends (O.written out.old) (O.written out.new) (front.now ++ rest.now ++ 10 ∷ [])) }
    ensures refused { OnErr result
        (AppendsFront (O.written out.old) (O.written out.new) (front.now ++ rest.now ++ 10 ∷ [])) }
    ensures cause { HasCause (O.faults out.old) (O.faults out.new) (put_failed result) }
{
    out.write(front)?;
    out.write(rest)?;
    out.write(b"\n")
}
