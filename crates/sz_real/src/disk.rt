//! A disk in a file of the operating system.
ghost use Rattle.std.specs.Prelude.{◌≡◌, ◌+◌, ◌≤◌, length, Some, IsTrue, IsErr, OnOk, OnErr, IfSome, IsSomeAnd, is_some, is_err};
ghost use Rattle.sz_disk.specs.Disk.{untold};
ghost use Rattle.sz_spec.specs.Cause.{HasCause};
ghost use Rattle.sz_real.specs.Adapter.{disk_faults};
ghost use Rattle.sz_real.specs.Open.{disk_file, IsLost, IsNotTried, StaysOpen};
ghost use Rattle.sz_real.specs.Place.{IsPartAt, TakesPart};

use crate::PositionedFile;
use crate::fault::counted;
use crate::places::{fill_from, write_whole_to};
use crate::plain::{open_plain, path_text, sync_folder};
use std::alloc::Global;
use std::fs::{Files, OpenFile, OpenOptions};
use std::io::{self, ErrorKind};
use std::os::unix::fs::OpenOptionsExt;
use sz_base::{Failed, Text};
use sz_disk::Disk;

/// How many bytes a disk in a file has.
pub const FILE_DISK_SIZE: u64 = 4_294_967_296;

/// Who may read and write a disk's file that is made: its owner alone, since a disk may hold private keys.
const OWNER_ALONE: u32 = 0o600;

/// The file of a disk that was opened, which no other process has, whether its name is on the medium, and whether a
/// sync of it was refused.
#[derive(Drop)]
pub(crate) struct Held<F> {
    file: F,
    is_named: bool,
    is_spoiled: bool,
}

/// What became of a disk's file.
#[derive(Drop)]
pub(crate) enum Opening<F> {
    NotTried,
    Refused,
    Open(Held<F>),
}

/// A disk whose bytes are a plain file's, with zeros behind the file's end. The first call opens the file, makes
/// it where it isn't there, and takes its lock, which holds until the disk is dropped; where that is refused,
/// each call fails. So does each call after a sync that was refused, since nobody knows what the medium has then. Each
/// error is one fault. It tells nothing of what it holds.
#[derive(Drop)]
pub struct FileDisk<'a, R: Files> {
    runtime: &'a R,
    alloc: Global,
    path: Text,
    opening: Opening<R::File>,
    faults: u64,
}

impl<'a, R: Files> FileDisk<'a, R> {
    /// The disk in the file at this path. Opens nothing, and takes no memory.
    pub fn create(runtime: &'a R, alloc: Global, path: Text) -> Self
        ensures closed { IsNotTried result }
        ensures no_fault { disk_faults result ≡ 0 }
    {
        FileDisk {
            runtime,
            alloc,
            path,
            opening: Opening::NotTried,
            faults: 0,
        }
    }
}

impl<R: Files> Disk for FileDisk<'_, R>
where
    R::File: PositionedFile,
{
    ghost use Rattle.std.proofs.Common.{lit<};
    ghost use Rattle.sz_disk.specs.Laws.{lawful_untold};
    ghost use Rattle.sz_real.specs.declared.disk.TheConstants.{FILE_DISK_SIZE};

    ghost seen = { λ disk. untold disk.faults FILE_DISK_SIZE };

    ghost lawful = { λ disk. lawful_untold disk.faults FILE_DISK_SIZE (lit< tt) };

    fn size(&self) -> u64 {
        FILE_DISK_SIZE
    }

    fn read(&mut self, at: u64, into: &mut [u8]) -> Result<(), Failed>
        requires { at + length into.old ≤ FILE_DISK_SIZE }
        ensures part { OnOk result (IsSomeAnd (disk_file self.new) (λ file.
            IfSome (R.File.PositionedFile.held file) (λ bytes. IsPartAt bytes at into.new))) }
        ensures unchanged { StaysOpen R.File.PositionedFile.held (λ before now. now ≡ before)
            (disk_file self.old) (disk_file self.new) }
        ensures lost { IsLost self.old → IsErr result × IsLost self.new }
        ensures cause { HasCause (disk_faults self.old) (disk_faults self.new) (is_err result) }
    {
        self.open_once();
        let answer = match &mut self.opening {
            Opening::Open(held) if !held.is_spoiled => fill_from(&mut held.file, at, into),
            _ => Err(not_usable()),
        };
        counted(&mut self.faults, answer)
    }

    /// The file grows as far as it was written.
    fn write_at(&mut self, at: u64, bytes: &[u8]) -> Result<(), Failed>
        requires { at + length bytes.now ≤ FILE_DISK_SIZE }
        ensures written { OnOk result (StaysOpen R.File.PositionedFile.held
            (λ before now. TakesPart before now at bytes.now) (disk_file self.old) (disk_file self.new)) }
        ensures open { OnOk result (IsTrue (is_some (disk_file self.new))) }
        ensures lost { IsLost self.old → IsErr result × IsLost self.new }
        ensures cause { HasCause (disk_faults self.old) (disk_faults self.new) (is_err result) }
    {
        self.open_once();
        let answer = match &mut self.opening {
            Opening::Open(held) if !held.is_spoiled => write_whole_to(&mut held.file, at, bytes),
            _ => Err(not_usable()),
        };
        counted(&mut self.faults, answer)
    }

    /// The first one also has the file's name on the medium. One that is refused is the last call that does anything.
    fn sync(&mut self) -> Result<(), Failed>
        ensures open { OnOk result (IsTrue (is_some (disk_file self.new))) }
        ensures unchanged { StaysOpen R.File.PositionedFile.held (λ before now. now ≡ before)
            (disk_file self.old) (disk_file self.new) }
        ensures lost { IsLost self.old → IsErr result × IsLost self.new }
        ensures refused { OnErr result (IsLost self.new) }
        ensures cause { HasCause (disk_faults self.old) (disk_faults self.new) (is_err result) }
    {
        self.open_once();
        let answer = match &mut self.opening {
            Opening::Open(held) if !held.is_spoiled => {
                let synced = sync_held(self.runtime, self.alloc, &self.path, held);
                held.is_spoiled = synced.is_err();
                synced
            }
            _ => Err(not_usable()),
        };
        counted(&mut self.faults, answer)
    }
}

impl<R: Files> FileDisk<'_, R>
where
    R::File: PositionedFile,
{
    fn open_once(&mut self)
        ensures open { IfSome (disk_file self.old) (λ file. disk_file self.new ≡ Some file) }
        ensures lost { IsLost self.old → IsLost self.new }
        ensures tried { ¬ IsNotTried self.new }
        ensures faults { self.new.faults ≡ self.old.faults }
    {
        if let Opening::NotTried = self.opening {
            self.opening = match open_alone(self.runtime, &self.path) {
                Ok(file) => Opening::Open(Held {
                    file,
                    is_named: false,
                    is_spoiled: false,
                }),
                Err(_) => Opening::Refused,
            };
        }
    }
}

// Opens or makes the plain file at the path, and takes its lock.
fn open_alone<R: Files>(runtime: &R, path: &Text) -> io::Result<R::File>
where
    R::File: PositionedFile,
{
    let mut how = OpenOptions::new();
    how.read(true).write(true).create(true).mode(OWNER_ALONE);
    let Some((mut file, _)) = open_plain(runtime, &how, path_text(path.as_slice())?)? else {
        return Err(io::Error::from(ErrorKind::NotFound));
    };
    file.lock_alone()?;
    Ok(file)
}

fn sync_held<R: Files>(
    runtime: &R,
    alloc: Global,
    path: &Text,
    held: &mut Held<R::File>,
) -> io::Result<()>
    ensures { held.new.file ≡ held.old.file }
{
    held.file.sync_all()?;
    if !held.is_named {
        sync_folder(runtime, alloc, path_text(path.as_slice())?)?;
        held.is_named = true;
    }
    Ok(())
}

fn not_usable() -> io::Error {
    io::Error::from(ErrorKind::NotConnected)
}
