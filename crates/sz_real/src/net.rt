//! Connections to servers over TCP.
ghost use Rattle.std.specs.Prelude.{◌≡◌, ◌≤◌, length, None, IfOk, OnOk, OnErr, is_some, is_ok, is_err};
ghost use Rattle.sz_base.specs.Fault.{put_failed};
ghost use Rattle.sz_spec.specs.Cause.{HasCause};
ghost use Rattle.sz_real.specs.Adapter.{net_faults, net_limits};
ghost use Rattle.sz_real.specs.Limits.{IsUsual};
ghost use Rattle.sz_real.specs.Stream.{net_connection, SentOver, SentFrontOver, ReceivedOver};

use crate::address::host_text;
use crate::connection::{Connection, Limits, time_left};
use crate::fault::{counted, put_counted};
use std::alloc::Global;
use std::io::{self, ErrorKind};
use std::net::{self, ToSocketAddrs};
use std::rt::Clock;
use sz_base::{Failed, PutFault, Target};
use sz_io::Net;

/// How many addresses of a name are tried.
const MOST_ADDRESSES: usize = 8;

/// Connections over TCP, of which one stands at a time. Each error is one fault, and so is a wait that lasts too
/// long. It tells nothing of what goes over them.
#[derive(Drop)]
pub struct RealNet<'a, R: net::Net> {
    runtime: &'a R,
    limits: Limits,
    connection: Option<Connection<R::Stream>>,
    faults: u64,
}

impl<'a, R: net::Net> RealNet<'a, R> {
    /// Connects to nothing, and takes no memory. Waits as long as is usual.
    pub fn create(runtime: &'a R, alloc: Global) -> Self
        ensures closed { net_connection result ≡ None }
        ensures limits { IsUsual (net_limits result) }
        ensures no_fault { net_faults result ≡ 0 }
    {
        RealNet::within(runtime, alloc, Limits::usual())
    }

    /// The same with limits of one's own.
    pub fn within(runtime: &'a R, _alloc: Global, limits: Limits) -> Self
        ensures closed { net_connection result ≡ None }
        ensures limits { net_limits result ≡ limits }
        ensures no_fault { net_faults result ≡ 0 }
    {
        RealNet {
            runtime,
            limits,
            connection: None,
            faults: 0,
        }
    }
}

impl<R: net::Net + Clock> Net for RealNet<'_, R> {
    ghost faults = { λ net. net.faults };

    ghost traffic = { λ _. None };

    /// The first eight addresses are tried in the resolver's order.
    fn connect(&mut self, target: &Target, most: u64) -> Result<(), PutFault>
        ensures stands { is_some (net_connection self.new) ≡ is_ok result }
        ensures cause { HasCause (net_faults self.old) (net_faults self.new) (put_failed result) }
    {
        self.connection = None;
        let answer = self.connect_to(target, most);
        put_counted(&mut self.faults, answer)
    }

    fn send(&mut self, bytes: &[u8]) -> Result<(), PutFault>
        ensures sent { OnOk result
            (SentOver R.Stream.Write.contents (net_connection self.old) (net_connection self.new) bytes.now) }
        ensures refused { OnErr result (SentFrontOver R.Stream.Write.contents
            (net_connection self.old) (net_connection self.new) bytes.now) }
        ensures cause { HasCause (net_faults self.old) (net_faults self.new) (put_failed result) }
    {
        let answer = match &mut self.connection {
            Some(connection) => connection.send(self.runtime, &self.limits, bytes),
            None => Err(io::Error::from(ErrorKind::NotConnected)),
        };
        put_counted(&mut self.faults, answer)
    }

    fn receive(&mut self, into: &mut [u8]) -> Result<usize, Failed>
        ensures within { IfOk result (λ count. count ≤ length into.old) }
        ensures received { IfOk result (λ count.
            ReceivedOver R.Stream.Read.remaining (net_connection self.old) (net_connection self.new) into.new count) }
        ensures cause { HasCause (net_faults self.old) (net_faults self.new) (is_err result) }
    {
        let answer = match &mut self.connection {
            Some(connection) => connection.receive(self.runtime, &self.limits, into),
            None => Err(io::Error::from(ErrorKind::NotConnected)),
        };
        counted(&mut self.faults, answer)
    }

    fn close(&mut self)
        ensures closed { net_connection self.new ≡ None }
        ensures no_fault { net_faults self.new ≡ net_faults self.old }
    {
        self.connection = None;
    }
}

impl<R: net::Net + Clock> RealNet<'_, R> {
    fn connect_to(&mut self, target: &Target, most: u64) -> io::Result<()>
        requires { self.old.connection ≡ None }
        ensures stands { is_some self.new.connection ≡ is_ok result }
        ensures faults { self.new.faults ≡ self.old.faults }
    {
        let addresses = (host_text(&target.host)?, target.port).to_socket_addrs(self.runtime)?;
        let start = self.runtime.monotonic()?;
        let mut last = io::Error::from(ErrorKind::NotFound);
        for address in addresses.take(MOST_ADDRESSES) {
            let left = time_left(self.limits.addresses, start, self.runtime.monotonic()?)?;
            match self
                .runtime
                .connect_timeout(address, left.min(self.limits.connect))
            {
                Ok(stream) => {
                    self.connection = Some(Connection::begin(stream, self.runtime, most)?);
                    return Ok(());
                }
                Err(error) => last = error,
            }
        }
        Err(last)
    }
}
