//! A check of a signature whose message is a file, read in pieces.
ghost use Rattle.std.specs.Prelude.{◌≡◌, ◌↔◌, ◌<◌, ℕ, List, [], None, length, IfOk, OnOk, IfErr, IfSome, is_err};
ghost use Rattle.sz_spec.specs.Cause.{HasCause};
ghost use Rattle.sz_io.specs.Folder.{readable_at};
ghost use Rattle.sz_lms.specs.Check.{Checks};
ghost use Rattle.sz_lms.specs.Hss.{HssOk};
ghost use Rattle.sz_lms.specs.Rules.{hss_first};
ghost use Rattle.sz_commands.specs.View.{failure_of, faults_folder};
ghost use Rattle.sz_keys.specs.CheckRan.{IsFaultAt};
ghost use Rattle.sz_keys.specs.View.{broken_rule};

use crate::Checked;
use std::alloc::Global;
use sz_base::{Failed, Text};
use sz_commands::Failure;
use sz_io::Folder;
use sz_lms::HssCheck;

/// How many bytes of the file are asked for at a time.
const PIECE: usize = 65536;

/// Whether the signature is one of the file at the path, which has so many bytes, as the folder said. The rules in
/// which the file has no part are tried before it is read.
pub fn check_file<'a, F: Folder>(
    alloc: Global,
    public: &[u8],
    signature: &[u8],
    path: &'a Text,
    size: u64,
    folder: &mut F,
) -> Result<Checked, Failure<'a>>
    requires { IfSome (F.files folder.old) (λ told. size ≡ length (readable_at told path.now)) }
    ensures rule { IfOk result (λ checked. IfSome (F.files folder.old) (λ told.
        broken_rule checked ≡ hss_first public.now (readable_at told path.now) signature.now)) }
    ensures signed { IfOk result (λ checked. IfSome (F.files folder.old) (λ told.
        (broken_rule checked ≡ None) ↔ HssOk public.now (readable_at told path.now) signature.now)) }
    ensures failed { IfErr result (λ failure. IsFaultAt path.now (failure_of failure)) }
    ensures unchanged { F.files folder.new ≡ F.files folder.old }
    ensures cause { HasCause (F.faults folder.old) (F.faults folder.new) (faults_folder result) }
{
    let mut check = match HssCheck::begin(public, signature) {
        Ok(check) => check,
        Err(fault) => return Ok(Checked::NotValid(fault)),
    };
    let Ok(mut piece) = vec![in alloc; 0u8; PIECE.min(size as usize)] else {
        return Err(Failure::OutOfMemory);
    };
    match take_pieces(&mut check, folder, path, size, piece.as_mut_slice()) {
        Ok(()) => Ok(verdict(check)),
        Err(Failed) => Err(Failure::FileFault(path)),
    }
}

// Gives the check all bytes of the file, with a buffer for the reads. A file that ends sooner is what was read
// of it.
fn take_pieces<F: Folder>(
    check: &mut HssCheck<'_>,
    folder: &mut F,
    path: &Text,
    size: u64,
    piece: &mut [u8],
) -> Result<(), Failed>
    requires size { IfSome (F.files folder.old) (λ told. size ≡ length (readable_at told path.now)) }
    requires room { 0 < size → 0 < length piece.old }
    ensures taken { OnOk result (IfSome (F.files folder.old) (λ told. (public signature : List ℕ)
        → Checks check.old public signature [] → Checks check.new public signature (readable_at told path.now))) }
    ensures unchanged { F.files folder.new ≡ F.files folder.old }
    ensures cause { HasCause (F.faults folder.old) (F.faults folder.new) (is_err result) }
{
    let mut taken: u64 = 0;
    while taken < size {
        let wanted = piece.len().min((size - taken) as usize);
        let count = folder.read_at(path, taken, &mut piece[..wanted])?;
        if count == 0 {
            break;
        }
        check.update(&piece[..count]);
        taken += count as u64;
    }
    Ok(())
}

fn verdict(check: HssCheck<'_>) -> Checked
    ensures { (public signature message : List ℕ) → Checks check.entry public signature message
        → broken_rule result ≡ hss_first public message signature }
{
    match check.finish() {
        Ok(()) => Checked::Valid,
        Err(fault) => Checked::NotValid(fault),
    }
}
