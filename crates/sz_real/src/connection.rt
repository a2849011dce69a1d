//! A connection whose waits end.
ghost use Rattle.std.specs.Prelude.{◌≡◌, ◌-◌, ◌≤◌, ◌<◌, ◌↔◌, ◌⊎◌, length, min, IfOk, IsErr, OnOk, OnErr};
ghost use Rattle.std.specs.Duration.{as_nanos};
ghost use Rattle.std.specs.Io.{ReadsAtMost, WritesAtMost};
ghost use Rattle.std.specs.Io.KnownBytes.{Appends, ReadConsumes, WriteAppends};
ghost use Rattle.sz_real.specs.Known.{GrowsByFront};
ghost use Rattle.sz_real.specs.Limits.{lasting_nanos, whole_nanos, IsUsual};
ghost use Rattle.sz_real.specs.Stream.{ReceivedFrom};

use crate::steps::read_some;
use std::io::{self, ErrorKind, Read, Write};
use std::net::{OpenStream, Shutdown};
use std::rt::Clock;
use std::time::Duration;

/// How many bytes a connection has to move for each time that it may last longer.
const KIB: u64 = 1024;

/// How many bytes its caller has to take for each such time.
const PART: u64 = 65_536;

/// How long connections and their calls may last.
#[derive(Clone, Copy, Debug, PartialEq, Eq)]
pub struct Limits {
    /// The connect to one address.
    pub connect: Duration,
    /// The connects to all addresses of a name.
    pub addresses: Duration,
    /// One send or receive.
    pub call: Duration,
    /// A connection as a whole, where it moved less than a KiB, or where its caller takes less than 64 KiB.
    pub whole: Duration,
    /// So much longer a connection as a whole, for each KiB that it moved.
    pub for_each_kib: Duration,
    /// But no more than so much longer, for each 64 KiB that its caller takes.
    pub for_each_part: Duration,
    /// The wait for the other side to take what was sent to it, once a connection is closed.
    pub linger: Duration,
}

impl Limits {
    /// The limits of a program: 10 s an address and 30 s all of a name, 30 s a call, 60 s a connection and 1 s for
    /// each KiB that it moved, in all 60 s and 1 s for each 64 KiB that its caller takes, 2 s at its close.
    pub fn usual() -> Self
        ensures { IsUsual result }
    {
        Limits {
            connect: Duration::from_secs(10),
            addresses: Duration::from_secs(30),
            call: Duration::from_secs(30),
            whole: Duration::from_secs(60),
            for_each_kib: Duration::from_secs(1),
            for_each_part: Duration::from_secs(1),
            linger: Duration::from_secs(2),
        }
    }

    // How long a connection may last that moved so many bytes, and whose caller takes so many.
    fn whole_after(&self, moved: u64, most: u64) -> Duration
        ensures { as_nanos result ≡ whole_nanos self.now moved most }
    {
        let by_rate = self.lasting(self.for_each_kib, moved / KIB);
        let in_all = self.lasting(self.for_each_part, most / PART);
        by_rate.min(in_all)
    }

    // How long a connection may last with so many times this more, of which there are at most 2 ^ 32 - 1.
    fn lasting(&self, each: Duration, count: u64) -> Duration
        ensures { as_nanos result ≡ lasting_nanos self.now (as_nanos each) count }
    {
        let count = u32::try_from(count).unwrap_or(u32::MAX);
        self.whole.saturating_add(each.saturating_mul(count))
    }
}

/// A connection that stands: when it began, by the monotonic clock, how many bytes it moved, and how many its caller
/// takes.
#[derive(Drop)]
pub(crate) struct Connection<S> {
    stream: S,
    begun: Duration,
    moved: u64,
    most: u64,
}

impl<S: Read + Write + OpenStream> Connection<S> {
    /// A connection that begins now, and of which so many bytes are taken.
    pub(crate) fn begin<C: Clock>(stream: S, clock: &C, most: u64) -> io::Result<Self>
    where
        S: Drop,
    {
        let begun = clock.monotonic()?;
        Ok(Connection {
            stream,
            begun,
            moved: 0,
            most,
        })
    }

    /// One receive into the front of `into`: how many bytes there are, 0 at the end.
    pub(crate) fn receive<C: Clock>(
        &mut self,
        clock: &C,
        limits: &Limits,
        into: &mut [u8],
    ) -> io::Result<usize>
        ensures within { ReadsAtMost result into.new }
        ensures bytes { IfOk result (λ count. ReceivedFrom S.Read.remaining self.old self.new into.new count) }
    {
        let start = clock.monotonic()?;
        let count = self.read(clock, limits, start, into)?;
        self.moved = self.moved.saturating_add(count as u64);
        Ok(count)
    }

    /// Sends all the bytes. After an error some front of them was sent, none or all of them included.
    pub(crate) fn send<C: Clock>(
        &mut self,
        clock: &C,
        limits: &Limits,
        bytes: &[u8],
    ) -> io::Result<()>
        ensures taken { OnOk result
            (Appends (S.Write.contents self.old.stream) (S.Write.contents self.new.stream) bytes.now) }
        ensures front { OnErr result
            (GrowsByFront (S.Write.contents self.old.stream) (S.Write.contents self.new.stream) bytes.now) }
    {
        let start = clock.monotonic()?;
        let mut done = 0;
        while done < bytes.len() {
            let count = self.write(clock, limits, start, &bytes[done..])?;
            self.moved = self.moved.saturating_add(count as u64);
            done += count;
        }
        Ok(())
    }

    // One read of a call that began at this time, which ends with the call also where a signal interrupts its wait.
    fn read<C: Clock>(
        &mut self,
        clock: &C,
        limits: &Limits,
        start: Duration,
        into: &mut [u8],
    ) -> io::Result<usize>
        ensures within { ReadsAtMost result into.new }
        ensures bytes { ReadConsumes (S.Read.remaining self.old.stream) (S.Read.remaining self.new.stream) result
            into.new }
    {
        for _ in 0..u64::MAX {
            let wait = self.wait(limits, start, clock.monotonic()?)?;
            self.stream.set_read_timeout(Some(wait))?;
            match self.stream.read(into) {
                Err(error) if error.kind() == ErrorKind::Interrupted => {}
                answer => return answer,
            }
        }
        Err(io::Error::from(ErrorKind::TimedOut))
    }

    // One write of such a call, of some front of the bytes: how many were taken. None of some is an error.
    fn write<C: Clock>(
        &mut self,
        clock: &C,
        limits: &Limits,
        start: Duration,
        bytes: &[u8],
    ) -> io::Result<usize>
        ensures within { WritesAtMost result bytes.now }
        ensures moves { IfOk result (λ count. 0 < length bytes.now → 0 < count) }
        ensures taken { WriteAppends (S.Write.contents self.old.stream) (S.Write.contents self.new.stream) result
            bytes.now }
    {
        for _ in 0..u64::MAX {
            let wait = self.wait(limits, start, clock.monotonic()?)?;
            self.stream.set_write_timeout(Some(wait))?;
            match self.stream.write(bytes) {
                Ok(0) if !bytes.is_empty() => return Err(io::Error::from(ErrorKind::WriteZero)),
                Err(error) if error.kind() == ErrorKind::Interrupted => {}
                answer => return answer,
            }
        }
        Err(io::Error::from(ErrorKind::TimedOut))
    }

    /// Ends what is sent, and waits for a while until the other side has taken it, also where it still sends:
    /// what it sends is passed over, since a connection that is closed with bytes unread takes back those on
    /// their way.
    pub(crate) fn linger<C: Clock>(&mut self, clock: &C, limits: &Limits) -> io::Result<()> {
        let start = clock.monotonic()?;
        self.stream.shutdown(Shutdown::Write)?;
        let mut passed = [0u8; 4096];
        for _ in 0..u64::MAX {
            let wait = time_left(limits.linger, start, clock.monotonic()?)?;
            self.stream.set_read_timeout(Some(wait))?;
            if read_some(&mut self.stream, &mut passed)? == 0 {
                break;
            }
        }
        Ok(())
    }

    // How long the next wait of a call may last that began at this time, or an error where the call or the
    // connection has lasted too long.
    fn wait(&self, limits: &Limits, start: Duration, now: Duration) -> io::Result<Duration>
        ensures ok { IfOk result (λ wait. as_nanos wait ≡
            min (as_nanos limits.now.call - (as_nanos now - as_nanos start))
            (whole_nanos limits.now self.now.moved self.now.most - (as_nanos now - as_nanos self.now.begun))) }
        ensures over { IsErr result ↔ ((as_nanos limits.now.call ≤ as_nanos now - as_nanos start)
            ⊎ (whole_nanos limits.now self.now.moved self.now.most ≤ as_nanos now - as_nanos self.now.begun)) }
    {
        let call = time_left(limits.call, start, now)?;
        let whole = time_left(limits.whole_after(self.moved, self.most), self.begun, now)?;
        Ok(call.min(whole))
    }
}

/// What is left of a time that began, or an error where nothing is.
pub(crate) fn time_left(limit: Duration, begun: Duration, now: Duration) -> io::Result<Duration>
    ensures ok { IfOk result (λ left. as_nanos left ≡ as_nanos limit - (as_nanos now - as_nanos begun)) }
    ensures over { IsErr result ↔ (as_nanos limit ≤ as_nanos now - as_nanos begun) }
{
    let left = limit.saturating_sub(now.saturating_sub(begun));
    if left.is_zero() {
        Err(io::Error::from(ErrorKind::TimedOut))
    } else {
        Ok(left)
    }
}
