//! The artifacts in a folder, as of a removable storage device (RFC 8572 section 4.1).

ghost use Rattle.std.specs.Prelude.{◌≡◌};
ghost use Rattle.sz_spec.specs.Cause.{HasCause};
ghost use Rattle.sz_visit.specs.Files.{blames_folder, Gives};
ghost use Rattle.sz_visit.specs.Storage.{evidence_in, storage_of};

use crate::FileFault;
use crate::files::{read_artifact, under};
use std::alloc::Global;
use sz_base::{Evidence, Serial, Text};
use sz_io::Folder;

const CONVEYED_INFORMATION: &[u8] = b"conveyed-information.cms";

const OWNER_CERTIFICATE: &[u8] = b"owner-certificate.cms";

const OWNERSHIP_VOUCHER: &[u8] = b"ownership-voucher.cms";

/// The artifacts in the folder under this path: those in the folder in it that is named as the serial number, where it
/// has conveyed information, else its own. `Absent` where neither has conveyed information; `TooLarge` where one of the
/// three files has more than `MOST_ARTIFACT_BYTES` bytes.
pub fn read_storage<F: Folder>(
    alloc: Global,
    folder: &mut F,
    path: &Text,
    serial: &Serial,
) -> Result<Evidence, FileFault>
    ensures gives { Gives (F.files folder.old) (λ files. storage_of files path.now serial.now) result }
    ensures unchanged { F.files folder.new ≡ F.files folder.old }
    ensures cause { HasCause (F.faults folder.old) (F.faults folder.new) (blames_folder result) }
{
    let own = under(alloc, path.as_slice(), serial.as_slice())?;
    match read_evidence(alloc, folder, own.as_slice()) {
        Err(FileFault::Absent) => read_evidence(alloc, folder, path.as_slice()),
        answer => answer,
    }
}

// The artifacts in this folder.
fn read_evidence<F: Folder>(
    alloc: Global,
    folder: &mut F,
    base: &[u8],
) -> Result<Evidence, FileFault>
    ensures gives { Gives (F.files folder.old) (λ files. evidence_in files base.now) result }
    ensures unchanged { F.files folder.new ≡ F.files folder.old }
    ensures cause { HasCause (F.faults folder.old) (F.faults folder.new) (blames_folder result) }
{
    let Some(ci) = read_artifact(alloc, folder, base, CONVEYED_INFORMATION)? else {
        return Err(FileFault::Absent);
    };
    let oc = read_artifact(alloc, folder, base, OWNER_CERTIFICATE)?;
    let ov = read_artifact(alloc, folder, base, OWNERSHIP_VOUCHER)?;
    Ok(Evidence { ci, oc, ov })
}
