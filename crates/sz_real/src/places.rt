//! Reads and writes at places of an open file that go on where one call ends early.
ghost use Rattle.std.specs.Prelude.{◌≡◌, ◌+◌, ◌^◌, ◌≤◌, ◌<◌, ℕ, [], take, drop, length, IfOk, OnOk, OnErr, IfSome};
ghost use Rattle.std.specs.Io.{ReadsAtMost, WritesAtMost};
ghost use Rattle.sz_real.specs.Place.{GivesPart, TakesPart, HasFront, IsPartAt};

use crate::PositionedFile;
use std::io::{self, ErrorKind};

/// One read of the bytes from place `at` on, tried again where a signal interrupted it.
pub(crate) fn read_some_from<F: PositionedFile>(
    file: &mut F,
    at: u64,
    into: &mut [u8],
) -> io::Result<usize>
    ensures within { ReadsAtMost result into.new }
    ensures part { IfOk result (λ count. IfSome (F.held file.old) (λ bytes. GivesPart bytes at count into.new)) }
    ensures unchanged { F.held file.new ≡ F.held file.old }
{
    for _ in 0..u64::MAX {
        match file.read_from(at, into) {
            Err(error) if error.kind() == ErrorKind::Interrupted => {}
            answer => return answer,
        }
    }
    Err(io::Error::from(ErrorKind::TimedOut))
}

/// One write of some front of the bytes to the places from `at` on, tried again where a signal interrupted
/// it. A file that takes none of some bytes fails.
fn write_some_to<F: PositionedFile>(file: &mut F, at: u64, bytes: &[u8]) -> io::Result<usize>
    ensures within { WritesAtMost result bytes.now }
    ensures moves { IfOk result (λ count. 0 < length bytes.now → 0 < count) }
    ensures part { IfOk result (λ count. TakesPart (F.held file.old) (F.held file.new) at (take count bytes.now)) }
    ensures err { OnErr result (TakesPart (F.held file.old) (F.held file.new) at []) }
{
    for _ in 0..u64::MAX {
        match file.write_to(at, bytes) {
            Ok(0) if !bytes.is_empty() => return Err(io::Error::from(ErrorKind::WriteZero)),
            Err(error) if error.kind() == ErrorKind::Interrupted => {}
            answer => return answer,
        }
    }
    Err(io::Error::from(ErrorKind::TimedOut))
}

/// Writes all the bytes to the places from `at` on.
pub(crate) fn write_whole_to<F: PositionedFile>(
    file: &mut F,
    at: u64,
    bytes: &[u8],
) -> io::Result<()>
    requires { at + length bytes.now < 2 ^ 64 }
    ensures ok { OnOk result (TakesPart (F.held file.old) (F.held file.new) at bytes.now) }
    ensures err { OnErr result ((n : ℕ) × TakesPart (F.held file.old) (F.held file.new) at (take n bytes.now)) }
{
    let mut done = 0;
    while done < bytes.len() {
        done += write_some_to(file, at + done as u64, &bytes[done..])?;
    }
    Ok(())
}

/// Fills `into` with the bytes from place `at` on, and with zeros where the file has no more.
pub(crate) fn fill_from<F: PositionedFile>(file: &mut F, at: u64, into: &mut [u8]) -> io::Result<()>
    requires { at + length into.old < 2 ^ 64 }
    ensures part { OnOk result (IfSome (F.held file.old) (λ bytes. IsPartAt bytes at into.new)) }
    ensures unchanged { F.held file.new ≡ F.held file.old }
{
    let done = read_part(file, at, into)?;
    into[done..].fill(0);
    Ok(())
}

// Reads the bytes from place `at` on until `into` is full or the file ends, and answers how many there are.
fn read_part<F: PositionedFile>(file: &mut F, at: u64, into: &mut [u8]) -> io::Result<usize>
    requires { at + length into.old < 2 ^ 64 }
    ensures within { IfOk result (λ count. count ≤ length into.new) }
    ensures part { IfOk result (λ count. IfSome (F.held file.old) (λ bytes. HasFront bytes at count into.new)) }
    ensures end { IfOk result (λ count. IfSome (F.held file.old) (λ bytes.
        count < length into.new → drop (at + count) bytes ≡ [])) }
    ensures unchanged { F.held file.new ≡ F.held file.old }
{
    let mut done = 0;
    while done < into.len() {
        let count = read_some_from(file, at + done as u64, &mut into[done..])?;
        if count == 0 {
            return Ok(done);
        }
        done += count;
    }
    Ok(done)
}
