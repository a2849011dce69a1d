//! The command `audit @DISK`, which judges again what the device of a disk was committed to, and hashes its image.
ghost use Rattle.std.specs.Prelude.{◌≡◌, ◌==◌, ◌++◌, codes};
ghost use Rattle.sz_base.specs.Fault.{put_failed};
ghost use Rattle.sz_commands.specs.Ending.{number_of, output_fault};
ghost use Rattle.sz_commands.specs.Printed.{IsPrinted, IsWritten};
ghost use Rattle.sz_device.specs.AuditRan.{AuditRan, ending_of, found_line, found_lines, found_text, is_well};
ghost use Rattle.sz_device.specs.AuditRan.{status_of, text_of};
ghost use Rattle.sz_device.specs.View.{answer_of};
ghost use Rattle.sz_spec.specs.Cause.{HasCause};

use crate::looking::look_and_audit;
use itoa::Buffer;
use std::alloc::Global;
use sz_audit::{Audit, Found};
use sz_base::{PutFault, Text};
use sz_commands::{Ending, Failure, Status, refusal_status, say, say_failure, write_parts};
use sz_disk::{Disk, Disks};
use sz_io::Sink;

/// What is found of the device of the disk under the word. Nothing is written.
pub fn audit<'a, D: Disk>(
    alloc: Global,
    word: &'a Text,
    disks: &mut Disks<D>,
) -> Result<Audit, Failure<'a>>
    ensures { AuditRan D.seen word.now disks.old disks.new (answer_of result) }
{
    let Some(disk) = disks.find(word.as_slice()) else {
        return Err(Failure::NoFile(word));
    };
    look_and_audit(alloc, disk)
}

/// Prints the text of what an audit came to, and gives the status.
pub fn say_audited<O: Sink>(answer: Result<Audit, Failure<'_>>, out: &mut O) -> Status
    ensures printed { IsPrinted (status_of (answer_of answer.entry)) (text_of (answer_of answer.entry)) result.0
        (O.written out.old) (O.written out.new) }
    ensures cause { HasCause (O.faults out.old) (O.faults out.new) (result.0 == output_fault) }
{
    match answer {
        Ok(audit) => say_audit(&audit, out),
        Err(failure) => say_failure(failure, out),
    }
}

// Prints what was found.
fn say_audit<O: Sink>(audit: &Audit, out: &mut O) -> Status
    ensures printed { IsPrinted (number_of (ending_of audit.now)) (found_lines audit.now.image audit.now.configuration)
        result.0 (O.written out.old) (O.written out.new) }
    ensures cause { HasCause (O.faults out.old) (O.faults out.new) (result.0 == output_fault) }
{
    if audit.image.is_none() && audit.configuration.is_none() {
        return say(Ending::Done, b"nothing committed", b"", out);
    }
    match print_found(audit, out) {
        Ok(()) => Status(ending(audit).number()),
        Err(fault) => refusal_status(fault),
    }
}

// Prints the lines of what is there.
fn print_found<O: Sink>(audit: &Audit, out: &mut O) -> Result<(), PutFault>
    ensures written { IsWritten (found_line (codes "image ") audit.now.image
        ++ found_line (codes "configuration ") audit.now.configuration) result (O.written out.old) (O.written out.new) }
    ensures cause { HasCause (O.faults out.old) (O.faults out.new) (put_failed result) }
{
    print_line(b"image ", &audit.image, out)?;
    print_line(b"configuration ", &audit.configuration, out)
}

// Prints the line of what is there, behind its name.
fn print_line<O: Sink>(name: &[u8], found: &Option<Found>, out: &mut O) -> Result<(), PutFault>
    ensures written { IsWritten (found_line name.now found.now) result (O.written out.old) (O.written out.new) }
    ensures cause { HasCause (O.faults out.old) (O.faults out.new) (put_failed result) }
{
    match found {
        None => Ok(()),
        Some(found) => print_named(name, found, out),
    }
}

// Prints what was found, behind its name.
fn print_named<O: Sink>(name: &[u8], found: &Found, out: &mut O) -> Result<(), PutFault>
    ensures written { IsWritten (name.now ++ found_text found.now) result (O.written out.old) (O.written out.new) }
    ensures cause { HasCause (O.faults out.old) (O.faults out.new) (put_failed result) }
{
    match found {
        Found::Authorised => write_parts(&[name, b"authorised\n"], out),
        Found::Refused(reason) => {
            let mut number = Buffer::new();
            let number = number.format(reason.number()).as_bytes();
            write_parts(&[name, b"not authorised: ", number, b"\n"], out)
        }
        Found::OtherFields => write_parts(&[name, b"other fields\n"], out),
        Found::OtherBytes => write_parts(&[name, b"other bytes\n"], out),
    }
}

// How the command ends.
fn ending(audit: &Audit) -> Ending
    ensures { result ≡ ending_of audit.now }
{
    if is_well(&audit.image) && is_well(&audit.configuration) {
        Ending::Done
    } else {
        Ending::NotValid
    }
}

// It is authorised, or nothing is there.
fn is_well(found: &Option<Found>) -> bool
    ensures { result ≡ is_well found.now }
{
    matches!(found, None | Some(Found::Authorised))
}
