//! A runtime made for the tests, with one file that answers as a real one may: short, interrupted, failing.
ghost use Rattle.std.specs.Prelude.{◌≤◌, None, IfOk};

use std::alloc::Allocator;
use std::cell::Cell;
use std::fs::{Files, Metadata, OpenFile, OpenOptions};
use std::io::{self, Empty, ErrorKind, Read, Seek, SeekFrom, Write};
use std::net::{Net, SocketAddr, TcpListener, TcpStream};
use std::path::PathBuf;
use std::random::RandomSource;
use std::rt::Clock;
use std::time::Duration;
use sz_real::PositionedFile;

/// How the one file answers. A call moves at most two bytes.
#[derive(Clone, Copy, PartialEq, Eq)]
pub(crate) enum Fault {
    Nothing,
    /// Each second call of a file is interrupted, the first included.
    Interrupted,
    /// Calls from place 2 on fail.
    Midway,
    /// A sync fails.
    Sync,
    /// What has the name is a folder.
    FolderNamed,
    /// What was opened is a folder.
    FolderOpened,
}

#[derive(Drop)]
pub(crate) struct Scripted {
    pub(crate) fault: Fault,
    pub(crate) bytes: Cell<[u8; 8]>,
    pub(crate) opened: Cell<u32>,
}

impl Scripted {
    pub(crate) fn create(fault: Fault) -> Self {
        Scripted {
            fault,
            bytes: Cell::new(*b"contents"),
            opened: Cell::new(0),
        }
    }
}

#[derive(Drop)]
pub(crate) struct OneFile<'a> {
    from: &'a Scripted,
    is_interrupted: bool,
}

fn unsupported() -> io::Error {
    io::Error::from(ErrorKind::Unsupported)
}

impl OneFile<'_> {
    // How many of so many bytes a call at this place moves.
    fn step(&mut self, at: u64, wanted: usize) -> io::Result<usize>
        ensures within { IfOk result (λ count. count ≤ wanted) }
        ensures short { IfOk result (λ count. count ≤ 2) }
    {
        self.is_interrupted = !self.is_interrupted;
        match self.from.fault {
            Fault::Interrupted if self.is_interrupted => Err(io::Error::from(
                ErrorKind::Interrupted,
            )),
            Fault::Midway if at >= 2 => Err(io::Error::from(ErrorKind::Other)),
            _ => Ok(wanted.min(2)),
        }
    }
}

impl PositionedFile for OneFile<'_> {
    ghost held = { λ _. None };

    fn read_from(&mut self, at: u64, into: &mut [u8]) -> io::Result<usize> {
        let count = self.step(at, into.len())?;
        let bytes = self.from.bytes.get();
        let start = (at as usize).min(bytes.len());
        let count = count.min(bytes.len() - start);
        into[..count].copy_from_slice(&bytes[start..start + count]);
        Ok(count)
    }

    fn write_to(&mut self, at: u64, bytes: &[u8]) -> io::Result<usize> {
        let count = self.step(at, bytes.len())?;
        let mut all = self.from.bytes.get();
        let start = (at as usize).min(all.len());
        let count = count.min(all.len() - start);
        all[start..start + count].copy_from_slice(&bytes[..count]);
        self.from.bytes.set(all);
        Ok(count)
    }

    fn lock_alone(&mut self) -> io::Result<()> {
        Ok(())
    }
}

impl OpenFile for OneFile<'_> {
    fn metadata(&self) -> io::Result<Metadata> {
        if self.from.fault == Fault::FolderOpened {
            Ok(Metadata::of_dir())
        } else {
            Ok(Metadata::of_file(8))
        }
    }

    fn set_len(&self, size: u64) -> io::Result<()> {
        if size > 0 {
            return Err(unsupported());
        }
        self.from.bytes.set([0; 8]);
        Ok(())
    }

    fn sync_all(&self) -> io::Result<()> {
        if self.from.fault == Fault::Sync {
            Err(io::Error::from(ErrorKind::Other))
        } else {
            Ok(())
        }
    }

    fn sync_data(&self) -> io::Result<()> {
        Err(unsupported())
    }
}

impl Read for OneFile<'_> {
    fn read(&mut self, _into: &mut [u8]) -> io::Result<usize> {
        Err(unsupported())
    }
}

impl Write for OneFile<'_> {
    fn write(&mut self, _bytes: &[u8]) -> io::Result<usize> {
        Err(unsupported())
    }

    fn flush(&mut self) -> io::Result<()> {
        Ok(())
    }
}

impl Seek for OneFile<'_> {
    fn seek(&mut self, _to: SeekFrom) -> io::Result<u64> {
        Err(unsupported())
    }
}

impl<'a> Files for &'a Scripted {
    type File = OneFile<'a>;

    type Dir = Empty;

    fn open_file(&self, _how: &OpenOptions, _path: &str) -> io::Result<OneFile<'a>> {
        let from: &'a Scripted = *self;
        from.opened.set(from.opened.get().saturating_add(1));
        Ok(OneFile {
            from,
            is_interrupted: false,
        })
    }

    fn open_dir(&self, _path: &str) -> io::Result<Empty> {
        Err(unsupported())
    }

    fn metadata(&self, _path: &str) -> io::Result<Metadata> {
        if self.fault == Fault::FolderNamed {
            Ok(Metadata::of_dir())
        } else {
            Ok(Metadata::of_file(8))
        }
    }

    fn symlink_metadata(&self, _path: &str) -> io::Result<Metadata> {
        Err(unsupported())
    }

    fn copy(&self, _from: &str, _to: &str) -> io::Result<u64> {
        Err(unsupported())
    }

    fn rename(&self, _from: &str, _to: &str) -> io::Result<()> {
        Err(unsupported())
    }

    fn remove_file(&self, _path: &str) -> io::Result<()> {
        Err(unsupported())
    }

    fn create_dir(&self, _path: &str) -> io::Result<()> {
        Err(unsupported())
    }

    fn remove_dir(&self, _path: &str) -> io::Result<()> {
        Err(unsupported())
    }

    fn remove_dir_all<B: Allocator>(&self, _alloc: B, _path: &str) -> io::Result<()> {
        Err(unsupported())
    }

    fn canonicalize<B: Allocator>(&self, alloc: B, _path: &str) -> io::Result<PathBuf<B>> {
        let mut path = PathBuf::new(alloc);
        path.push("/folder/file")?;
        Ok(path)
    }
}

/// A writer that takes two bytes a call, each second call interrupted, and fails once it took six.
#[derive(Drop)]
pub(crate) struct ShortWriter {
    pub(crate) taken: usize,
    pub(crate) is_interrupted: bool,
}

impl Write for ShortWriter {
    fn write(&mut self, bytes: &[u8]) -> io::Result<usize> {
        self.is_interrupted = !self.is_interrupted;
        if self.is_interrupted {
            return Err(io::Error::from(ErrorKind::Interrupted));
        }
        if self.taken >= 6 {
            return Err(io::Error::from(ErrorKind::BrokenPipe));
        }
        self.taken += bytes.len().min(2);
        Ok(bytes.len().min(2))
    }

    fn flush(&mut self) -> io::Result<()> {
        Ok(())
    }
}

/// A runtime whose clock and random bytes fail.
#[derive(Drop)]
pub(crate) struct Failing;

impl Clock for Failing {
    fn monotonic(&self) -> io::Result<Duration> {
        Err(unsupported())
    }

    fn since_1970(&self) -> io::Result<Duration> {
        Err(unsupported())
    }
}

impl RandomSource for Failing {
    fn fill_bytes(&self, _into: &mut [u8]) -> io::Result<()> {
        Err(unsupported())
    }
}

/// The host's network, with a clock that goes some seconds forward each time that it is asked.
#[derive(Drop)]
pub(crate) struct Skipping<'a> {
    host: &'a HostRuntime,
    seconds: u64,
    now: Cell<u64>,
}

impl<'a> Skipping<'a> {
    pub(crate) fn create(host: &'a HostRuntime, seconds: u64) -> Self {
        Skipping {
            host,
            seconds,
            now: Cell::new(0),
        }
    }
}

impl Clock for Skipping<'_> {
    fn monotonic(&self) -> io::Result<Duration> {
        let now = self.now.get().saturating_add(self.seconds);
        self.now.set(now);
        Ok(Duration::from_secs(now))
    }

    fn since_1970(&self) -> io::Result<Duration> {
        Err(unsupported())
    }
}

impl Net for Skipping<'_> {
    type Stream = TcpStream;

    type Listener = TcpListener;

    fn bind(&self, address: SocketAddr) -> io::Result<TcpListener> {
        self.host.bind(address)
    }

    fn connect(&self, address: SocketAddr) -> io::Result<TcpStream> {
        self.host.connect(address)
    }

    fn connect_timeout(&self, address: SocketAddr, timeout: Duration) -> io::Result<TcpStream> {
        self.host.connect_timeout(address, timeout)
    }
}
