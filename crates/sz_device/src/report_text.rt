//! Printing the report of a boot: its visits, and then its outcome.
ghost use Rattle.std.specs.Prelude.{◌==◌, ◌++◌, ◌∷◌, []};
ghost use Rattle.std.specs.Fmt.{decimal};
ghost use Rattle.sz_base.specs.Fault.{put_failed};
ghost use Rattle.sz_commands.specs.Ending.{number_of, output_fault};
ghost use Rattle.sz_commands.specs.Failure.{Damaged, status_of, text_of};
ghost use Rattle.sz_commands.specs.Printed.{IsPrinted, IsWritten};
ghost use Rattle.sz_commands.specs.declared.ending.Ending.TheVariants.{Done, Restart};
ghost use Rattle.sz_device.specs.OnboardText.{installed_line, item_text, note_end, outcome_line, outcome_status};
ghost use Rattle.sz_device.specs.OnboardText.{visit_line, visit_lines};
ghost use Rattle.sz_spec.specs.Cause.{HasCause};

use itoa::Buffer;
use sz_agent::{Outcome, Report};
use sz_base::PutFault;
use sz_commands::{
    Ending, Failure, Status, refusal_status, say, say_failure, say_parts, write_parts,
};
use sz_io::Sink;
use sz_record::Device;
use sz_source::Item;
use sz_walk::{Note, Visit};

/// Prints a line for each visit, and then that of the outcome. Gives the status: that of the outcome, unless the output
/// was refused, behind which nothing is printed.
pub(crate) fn say_report<O: Sink>(report: &Report, out: &mut O) -> Status
    ensures printed { IsPrinted (outcome_status report.now.outcome)
        (visit_lines report.now.visits ++ outcome_line report.now.outcome) result.0
        (O.written out.old) (O.written out.new) }
    ensures cause { HasCause (O.faults out.old) (O.faults out.new) (result.0 == output_fault) }
{
    match print_visits(report.visits.as_slice(), out) {
        Ok(()) => say_outcome(&report.outcome, out),
        Err(fault) => refusal_status(fault),
    }
}

// Prints a line for each visit.
fn print_visits<O: Sink>(visits: &[Visit], out: &mut O) -> Result<(), PutFault>
    ensures written { IsWritten (visit_lines visits.now) result (O.written out.old) (O.written out.new) }
    ensures cause { HasCause (O.faults out.old) (O.faults out.new) (put_failed result) }
{
    for visit in visits {
        print_visit(visit, out)?;
    }
    Ok(())
}

// Prints the line of a visit.
fn print_visit<O: Sink>(visit: &Visit, out: &mut O) -> Result<(), PutFault>
    ensures written { IsWritten (visit_line visit.now) result (O.written out.old) (O.written out.new) }
    ensures cause { HasCause (O.faults out.old) (O.faults out.new) (put_failed result) }
{
    let mut source = Buffer::new();
    let mut depth = Buffer::new();
    let parts: [&[u8]; 5] = [
        b"source ",
        source.format(u32::from(visit.source) + 1).as_bytes(),
        b" depth ",
        depth.format(visit.depth).as_bytes(),
        b" ",
    ];
    write_parts(&parts, out)?;
    print_item(&visit.item, out)?;
    print_note(&visit.note, out)
}

// Prints what was visited.
fn print_item<O: Sink>(item: &Item, out: &mut O) -> Result<(), PutFault>
    ensures written { IsWritten (item_text item.now) result (O.written out.old) (O.written out.new) }
    ensures cause { HasCause (O.faults out.old) (O.faults out.new) (put_failed result) }
{
    match item {
        Item::Folder(path) => write_parts(&[b"usb:", path.as_slice()], out),
        Item::File(path) => write_parts(&[b"file:", path.as_slice()], out),
        Item::At(target) => {
            let mut port = Buffer::new();
            let port = port.format(target.port).as_bytes();
            write_parts(&[target.host.as_slice(), b":", port], out)
        }
    }
}

// Prints the end of the line: what the visit came to.
fn print_note<O: Sink>(note: &Note, out: &mut O) -> Result<(), PutFault>
    ensures written { IsWritten (note_end note.now) result (O.written out.old) (O.written out.new) }
    ensures cause { HasCause (O.faults out.old) (O.faults out.new) (put_failed result) }
{
    match note {
        Note::Listed(count) => print_count(b": listed ", *count, out),
        Note::Redirected(count) => print_count(b": redirected ", *count, out),
        Note::Accepted => out.write(b": accepted\n"),
        Note::Refused(reason) => {
            let mut number = Buffer::new();
            let number = number.format(reason.number()).as_bytes();
            write_parts(&[b": ", number, b" ", reason.name().as_bytes(), b"\n"], out)
        }
    }
}

// Prints these words, a number and the LF.
fn print_count<O: Sink>(words: &[u8], count: u16, out: &mut O) -> Result<(), PutFault>
    ensures written { IsWritten (words.now ++ (decimal count ++ 10 ∷ [])) result (O.written out.old)
        (O.written out.new) }
    ensures cause { HasCause (O.faults out.old) (O.faults out.new) (put_failed result) }
{
    let mut digits = Buffer::new();
    write_parts(&[words, digits.format(count).as_bytes(), b"\n"], out)
}

// Prints the line of the outcome, and gives its status.
fn say_outcome<O: Sink>(outcome: &Outcome, out: &mut O) -> Status
    ensures printed { IsPrinted (outcome_status outcome.now) (outcome_line outcome.now) result.0
        (O.written out.old) (O.written out.new) }
    ensures cause { HasCause (O.faults out.old) (O.faults out.new) (result.0 == output_fault) }
{
    match outcome {
        Outcome::AlreadyOnboarded(device) => say_device(b"already onboarded ", device, out),
        Outcome::Onboarded(device) => say_device(b"onboarded ", device, out),
        Outcome::Installed(device) => say_installed(device, out),
        Outcome::NoSource => say_failure(Failure::NoSource, out),
        Outcome::DiskFault => say_failure(Failure::DiskFault, out),
        Outcome::NotInitialised => say_failure(Failure::NotInitialised, out),
        Outcome::Damaged {
            slot,
            sequence: _,
            length,
        } => say_damage(u64::from(*slot), u64::from(*length), out),
        Outcome::BadRecord { place, value } => {
            say_damage(u64::from(*place), u64::from(*value), out)
        }
        Outcome::Exhausted { sequence: _ } => say_failure(Failure::LastSequence, out),
        Outcome::OutOfMemory => say_failure(Failure::OutOfMemory, out),
    }
}

// Prints these words and the serial number of the device.
fn say_device<O: Sink>(words: &[u8], device: &Device, out: &mut O) -> Status
    ensures printed { IsPrinted (number_of Done) ((words.now ++ device.now.identity.serial) ++ 10 ∷ []) result.0
        (O.written out.old) (O.written out.new) }
    ensures cause { HasCause (O.faults out.old) (O.faults out.new) (result.0 == output_fault) }
{
    say(Ending::Done, words, device.identity.serial.as_slice(), out)
}

// Prints that an image of the device was installed.
fn say_installed<O: Sink>(device: &Device, out: &mut O) -> Status
    ensures printed { IsPrinted (number_of Restart) (installed_line device.now) result.0
        (O.written out.old) (O.written out.new) }
    ensures cause { HasCause (O.faults out.old) (O.faults out.new) (result.0 == output_fault) }
{
    let parts: [&[u8]; 8] = [
        b"installed ",
        device.identity.serial.as_slice(),
        b" ",
        device.running_name.as_slice(),
        b" ",
        device.running_version.as_slice(),
        b", restart",
        b"\n",
    ];
    say_parts(Ending::Restart, &parts, out)
}

// Prints that the disk is damaged at this place.
fn say_damage<O: Sink>(place: u64, value: u64, out: &mut O) -> Status
    ensures printed { IsPrinted (status_of (Damaged place value)) (text_of (Damaged place value)) result.0
        (O.written out.old) (O.written out.new) }
    ensures cause { HasCause (O.faults out.old) (O.faults out.new) (result.0 == output_fault) }
{
    say_failure(Failure::Damaged { place, value }, out)
}
