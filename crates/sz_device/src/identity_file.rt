//! The identity that a file gives.
ghost use Rattle.std.specs.Prelude.{◌≡◌, IfErr, IfOk, IfSome};
ghost use Rattle.sz_base.specs.Identity.{IsWhole};
ghost use Rattle.sz_commands.specs.View.{failure_of, faults_folder};
ghost use Rattle.sz_device.specs.IdentityFile.{HasFile, IsIdentityAt, IsNoIdentity};
ghost use Rattle.sz_spec.specs.Cause.{HasCause};

use std::alloc::Global;
use sz_base::{Bytes, Failed, Identity, Text};
use sz_commands::Failure;
use sz_evidence::{IdentityFault, read_identity};
use sz_io::{Folder, Found, read_whole};

/// The most bytes of an identity file: 1 MiB.
const MOST_BYTES: u64 = 1_048_576;

/// The identity of the file at the path. One that is too large is refused by its length, before memory is taken for it.
pub(crate) fn identity_at<'a, F: Folder>(
    alloc: Global,
    path: &'a Text,
    folder: &mut F,
) -> Result<Identity, Failure<'a>>
    ensures identity { IfOk result (IsIdentityAt (F.files folder.old) path.now) }
    ensures whole { IfOk result IsWhole }
    ensures none { IfErr result (λ failure. IsNoIdentity path.now (F.files folder.old) (failure_of failure)) }
    ensures unchanged { F.files folder.new ≡ F.files folder.old }
    ensures cause { HasCause (F.faults folder.old) (F.faults folder.new) (faults_folder result) }
{
    let bytes = file_at(alloc, path, folder)?;
    match read_identity(alloc, bytes.as_slice()) {
        Ok(identity) => Ok(identity),
        Err(IdentityFault::Bad { name }) => Err(Failure::MemberRefused(name.as_str().as_bytes())),
        Err(IdentityFault::OutOfMemory) => Err(Failure::OutOfMemory),
    }
}

// The bytes of the file at the path, where it is not too large.
fn file_at<'a, F: Folder>(
    alloc: Global,
    path: &'a Text,
    folder: &mut F,
) -> Result<Bytes, Failure<'a>>
    ensures file { IfOk result (λ bytes. IfSome (F.files folder.old) (λ files. HasFile files path.now bytes)) }
    ensures none { IfErr result (λ failure. IsNoIdentity path.now (F.files folder.old) (failure_of failure)) }
    ensures unchanged { F.files folder.new ≡ F.files folder.old }
    ensures cause { HasCause (F.faults folder.old) (F.faults folder.new) (faults_folder result) }
{
    match read_whole(alloc, folder, path, MOST_BYTES) {
        Ok(Found::Whole(bytes)) => Ok(bytes),
        Ok(Found::Absent) => Err(Failure::NoFile(path)),
        Ok(Found::Larger { length }) => Err(Failure::TooLarge(length)),
        Ok(Found::OutOfMemory) => Err(Failure::OutOfMemory),
        Err(Failed) => Err(Failure::FileFault(path)),
    }
}
