//! The files of the operating system as a folder.
ghost use Rattle.std.specs.Prelude.{◌≡◌, ◌≤◌, ◌↔◌, ℕ, List, [], length, None, Some, IsTrue, IfOk, OnOk, IfSome, IsSomeAnd, MatchResult, is_err};
ghost use Rattle.std.specs.Option.{option_map};
ghost use Rattle.sz_base.specs.Fault.{put_failed};
ghost use Rattle.sz_spec.specs.Cause.{HasCause};
ghost use Rattle.sz_real.specs.Adapter.{folder_faults};
ghost use Rattle.sz_real.specs.Reading.{open_file, IsOpen, GivesFromOpen};

use crate::PositionedFile;
use crate::fault::{counted, put_counted};
use crate::places::{read_some_from, write_whole_to};
use crate::plain::{open_plain, path_text, sync_folder};
use std::alloc::Global;
use std::fs::{Files, OpenFile, OpenOptions};
use std::io::{self, ErrorKind};
use sz_base::{Failed, PutFault, Text};
use sz_io::Folder;

/// A plain file that is open for reading, with the path under which it was opened.
#[derive(Drop)]
pub(crate) struct Reading<F> {
    pub(crate) path: Text,
    pub(crate) file: F,
}

/// The real files. Each error is one fault. It tells nothing of what the files hold, but its clauses tie what
/// is read to what the open file itself tells.
#[derive(Drop)]
pub struct RealFolder<'a, R: Files> {
    runtime: &'a R,
    alloc: Global,
    reading: Option<Reading<R::File>>,
    faults: u64,
}

impl<'a, R: Files> RealFolder<'a, R> {
    /// Opens nothing, and takes no memory.
    pub fn create(runtime: &'a R, alloc: Global) -> Self
        ensures closed { open_file result ≡ None }
        ensures no_fault { folder_faults result ≡ 0 }
    {
        RealFolder {
            runtime,
            alloc,
            reading: None,
            faults: 0,
        }
    }
}

impl<R: Files> Folder for RealFolder<'_, R>
where
    R::File: PositionedFile,
{
    ghost faults = { λ folder. folder.faults };

    ghost files = { λ _. None };

    /// Opens the file, which then stays open for the reads that follow.
    fn length(&mut self, path: &Text) -> Result<Option<u64>, Failed>
        ensures opened { MatchResult result
            (λ found. option_map (λ it. it.path) (open_file self.new) ≡ option_map (λ _. path.now) found)
            (λ _. open_file self.new ≡ None) }
        ensures empty { IfOk result (λ found. found ≡ Some 0 → IfSome (open_file self.new) (λ it.
            IfSome (R.File.PositionedFile.held it.file) (λ bytes. bytes ≡ []))) }
        ensures cause { HasCause (folder_faults self.old) (folder_faults self.new) (is_err result) }
    {
        let answer = self.open_reading(path);
        counted(&mut self.faults, answer)
    }

    /// Reads from the file that is open under this path, and opens it where none is.
    fn read_at(&mut self, path: &Text, at: u64, into: &mut [u8]) -> Result<usize, Failed>
        ensures within { IfOk result (λ count. count ≤ length into.old) }
        ensures given { IfOk result
            (GivesFromOpen R.File.PositionedFile.held (open_file self.new) path.now at into.new) }
        ensures stays { (bytes : List ℕ) → IsOpen R.File.PositionedFile.held (open_file self.old) path.now bytes
            → IsOpen R.File.PositionedFile.held (open_file self.new) path.now bytes }
        ensures cause { HasCause (folder_faults self.old) (folder_faults self.new) (is_err result) }
    {
        let answer = self.read_open(path, at, into);
        counted(&mut self.faults, answer)
    }

    /// The file and its name are on the medium at `Ok`. The file is written in its place: no other file is made. It is
    /// emptied only once its lock is taken, so a file that somebody holds as a disk stays as it is.
    fn write(&mut self, path: &Text, bytes: &[u8]) -> Result<(), PutFault>
        ensures closed { open_file self.new ≡ None }
        ensures cause { HasCause (folder_faults self.old) (folder_faults self.new) (put_failed result) }
    {
        self.reading = None;
        let answer = write_to_medium(self.runtime, self.alloc, path.as_slice(), bytes);
        put_counted(&mut self.faults, answer)
    }
}

impl<R: Files> RealFolder<'_, R>
where
    R::File: PositionedFile,
{
    // Opens the file at the path anew, and answers its length, or `None` where there is no such file.
    fn open_reading(&mut self, path: &Text) -> io::Result<Option<u64>>
        ensures opened { MatchResult result
            (λ found. option_map (λ it. it.path) self.new.reading ≡ option_map (λ _. path.now) found)
            (λ _. self.new.reading ≡ None) }
        ensures empty { IfOk result (λ found. found ≡ Some 0 → IfSome self.new.reading (λ it.
            IfSome (R.File.PositionedFile.held it.file) (λ bytes. bytes ≡ []))) }
        ensures faults { self.new.faults ≡ self.old.faults }
    {
        self.reading = None;
        let Some((reading, length)) = open_to_read(self.runtime, self.alloc, path)? else {
            return Ok(None);
        };
        self.reading = Some(reading);
        Ok(Some(length))
    }

    fn read_open(&mut self, path: &Text, at: u64, into: &mut [u8]) -> io::Result<usize>
        ensures within { IfOk result (λ count. count ≤ length into.old) }
        ensures given { IfOk result (GivesFromOpen R.File.PositionedFile.held self.new.reading path.now at into.new) }
        ensures stays { (bytes : List ℕ) → IsOpen R.File.PositionedFile.held self.old.reading path.now bytes
            → IsOpen R.File.PositionedFile.held self.new.reading path.now bytes }
        ensures faults { self.new.faults ≡ self.old.faults }
    {
        if !self.is_reading(path) {
            self.open_reading(path)?;
        }
        match &mut self.reading {
            Some(reading) => read_some_from(&mut reading.file, at, into),
            None => Ok(0),
        }
    }

    fn is_reading(&self, path: &Text) -> bool
        ensures { IsTrue result ↔ IsSomeAnd self.now.reading (λ it. it.path ≡ path.now) }
    {
        match &self.reading {
            Some(reading) => reading.path.as_slice() == path.as_slice(),
            None => false,
        }
    }
}

// The plain file at the path, open for reading, and its length, or `None` where there is no such file.
fn open_to_read<R: Files>(
    runtime: &R,
    alloc: Global,
    path: &Text,
) -> io::Result<Option<(Reading<R::File>, u64)>>
where
    R::File: PositionedFile,
    ensures path { IfOk result (λ found. IfSome found (λ opened. opened.0.path ≡ path.now)) }
    ensures empty { IfOk result (λ found. IfSome found (λ opened. opened.1 ≡ 0
        → IfSome (R.File.PositionedFile.held opened.0.file) (λ bytes. bytes ≡ []))) }
{
    let mut how = OpenOptions::new();
    how.read(true);
    let Some((mut file, length)) = open_plain(runtime, &how, path_text(path.as_slice())?)? else {
        return Ok(None);
    };
    require_true_length(&mut file, length)?;
    let path = path
        .copy(alloc)
        .map_err(|_| io::Error::from(ErrorKind::OutOfMemory))?;
    Ok(Some((Reading { path, file }, length)))
}

// A file whose length is said to be 0 has no byte. Files that the system makes up as they are read have some.
fn require_true_length<F: PositionedFile>(file: &mut F, length: u64) -> io::Result<()>
    ensures empty { OnOk result (IfSome (F.held file.old) (λ bytes. length ≡ 0 → bytes ≡ [])) }
    ensures unchanged { F.held file.new ≡ F.held file.old }
{
    if length == 0 && read_some_from(file, 0, &mut [0u8; 1])? > 0 {
        return Err(io::Error::from(ErrorKind::InvalidData));
    }
    Ok(())
}

fn write_to_medium<R: Files>(
    runtime: &R,
    alloc: Global,
    path: &[u8],
    bytes: &[u8],
) -> io::Result<()>
where
    R::File: PositionedFile,
{
    let path = path_text(path)?;
    let mut how = OpenOptions::new();
    how.write(true).create(true);
    let Some((mut file, _)) = open_plain(runtime, &how, path)? else {
        return Err(io::Error::from(ErrorKind::NotFound));
    };
    file.lock_alone()?;
    file.set_len(0)?;
    write_whole_to(&mut file, 0, bytes)?;
    file.sync_all()?;
    sync_folder(runtime, alloc, path)
}
