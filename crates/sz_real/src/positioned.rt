//! A file that is read and written by the places of its bytes, and the operating system's.
ghost use Rattle.std.specs.Prelude.{◌≡◌, ◌≤◌, ℕ, List, take, length, Option, None, IfOk, OnErr, IfSome};
ghost use Rattle.std.specs.Option.{option_map};
ghost use Rattle.std.specs.Io.{ReadsAtMost, WritesAtMost};
ghost use Rattle.sz_real.specs.Place.{GivesPart, TakesPart};

use std::fs::File;
use std::io;
use std::os::unix::fs::FileExt;

/// An open file of bytes, each with its place, counted from 0. A file may tell its bytes to contracts; the
/// operating system's tells nothing.
pub trait PositionedFile {
    /// The file's bytes, where they are told.
    ghost held: { Self → Option (List ℕ) };

    /// One read into the front of `into` of the bytes from place `at` on: how many there are, 0 at the end.
    fn read_from(&mut self, at: u64, into: &mut [u8]) -> io::Result<usize>
        ensures within { ReadsAtMost result into.new }
        ensures part { IfOk result (λ count. IfSome (held self.old) (λ file. GivesPart file at count into.new)) }
        ensures unchanged { held self.new ≡ held self.old };

    /// One write of some front of the bytes to the places from `at` on: how many were taken.
    fn write_to(&mut self, at: u64, bytes: &[u8]) -> io::Result<usize>
        ensures within { WritesAtMost result bytes.now }
        ensures part { IfOk result (λ count. TakesPart (held self.old) (held self.new) at (take count bytes.now)) }
        ensures err { OnErr result (held self.new ≡ held self.old) };

    /// Takes the lock on the whole file, which no other holder of one has, and keeps it until the file is
    /// closed. An error, at once, where another holds it.
    fn lock_alone(&mut self) -> io::Result<()>
        ensures unchanged { held self.new ≡ held self.old };
}

impl PositionedFile for File {
    ghost held = { λ _. None };

    fn read_from(&mut self, at: u64, into: &mut [u8]) -> io::Result<usize> {
        self.read_at(into, at)
    }

    fn write_to(&mut self, at: u64, bytes: &[u8]) -> io::Result<usize> {
        self.write_at(bytes, at)
    }

    fn lock_alone(&mut self) -> io::Result<()> {
        Ok(self.try_lock()?)
    }
}
