//! Connections from others over TCP.
ghost use Rattle.std.specs.Prelude.{◌≡◌, ◌≤◌, length, None, IfOk, OnOk, OnErr, IsTrue, is_some, is_ok, is_err};
ghost use Rattle.sz_base.specs.Fault.{put_failed};
ghost use Rattle.sz_spec.specs.Cause.{HasCause};
ghost use Rattle.sz_real.specs.Adapter.{listener_faults, listener_limits, listening};
ghost use Rattle.sz_real.specs.Limits.{IsUsual};
ghost use Rattle.sz_real.specs.Stream.{listener_connection, SentOver, SentFrontOver, ReceivedOver};

use crate::address::host_text;
use crate::connection::{Connection, Limits};
use crate::fault::{counted, put_counted};
use std::alloc::Global;
use std::io::{self, ErrorKind};
use std::net::{self, OpenListener, TcpListener};
use std::rt::Clock;
use sz_base::{Failed, PutFault, Target};
use sz_io::Listener;

/// Connections from others over TCP, of which one stands at a time. Each error is one fault, and so is a wait of
/// a send or a receive that lasts too long. It tells nothing of what goes over them.
#[derive(Drop)]
pub struct RealListener<'a, R: net::Net> {
    runtime: &'a R,
    limits: Limits,
    pub(crate) listening: Option<R::Listener>,
    connection: Option<Connection<R::Stream>>,
    faults: u64,
}

impl<'a, R: net::Net> RealListener<'a, R> {
    /// Listens at nothing, and takes no memory. Waits as long as is usual.
    pub fn create(runtime: &'a R, alloc: Global) -> Self
        ensures closed { (listening result ≡ None) × (listener_connection result ≡ None) }
        ensures limits { IsUsual (listener_limits result) }
        ensures no_fault { listener_faults result ≡ 0 }
    {
        RealListener::within(runtime, alloc, Limits::usual())
    }

    /// The same with limits of one's own.
    pub fn within(runtime: &'a R, _alloc: Global, limits: Limits) -> Self
        ensures closed { (listening result ≡ None) × (listener_connection result ≡ None) }
        ensures limits { listener_limits result ≡ limits }
        ensures no_fault { listener_faults result ≡ 0 }
    {
        RealListener {
            runtime,
            limits,
            listening: None,
            connection: None,
            faults: 0,
        }
    }
}

impl<R: net::Net + Clock> Listener for RealListener<'_, R> {
    ghost faults = { λ listener. listener.faults };

    ghost stands = { λ listener. is_some listener.connection };

    ghost arrivals = { λ _. None };

    fn listen(&mut self, target: &Target) -> Result<(), Failed>
        ensures listens { OnOk result (IsTrue (is_some (listening self.new))) }
        ensures stands { is_some (listener_connection self.new) ≡ is_some (listener_connection self.old) }
        ensures cause { HasCause (listener_faults self.old) (listener_faults self.new) (is_err result) }
    {
        let answer = self.listen_at(target);
        counted(&mut self.faults, answer)
    }

    fn accept(&mut self) -> Result<(), Failed> {
        self.close_standing();
        let answer = self.accept_next();
        counted(&mut self.faults, answer)
    }

    fn receive(&mut self, into: &mut [u8]) -> Result<usize, Failed>
        ensures within { IfOk result (λ count. count ≤ length into.old) }
        ensures received { IfOk result (λ count. ReceivedOver R.Stream.Read.remaining
            (listener_connection self.old) (listener_connection self.new) into.new count) }
        ensures stands { IsTrue (is_some (listener_connection self.old))
            → IsTrue (is_some (listener_connection self.new)) }
        ensures cause { HasCause (listener_faults self.old) (listener_faults self.new) (is_err result) }
    {
        let answer = match &mut self.connection {
            Some(connection) => connection.receive(self.runtime, &self.limits, into),
            None => Err(io::Error::from(ErrorKind::NotConnected)),
        };
        counted(&mut self.faults, answer)
    }

    fn send(&mut self, bytes: &[u8]) -> Result<(), PutFault>
        ensures sent { OnOk result (SentOver R.Stream.Write.contents
            (listener_connection self.old) (listener_connection self.new) bytes.now) }
        ensures refused { OnErr result (SentFrontOver R.Stream.Write.contents
            (listener_connection self.old) (listener_connection self.new) bytes.now) }
        ensures stands { IsTrue (is_some (listener_connection self.old))
            → IsTrue (is_some (listener_connection self.new)) }
        ensures cause { HasCause (listener_faults self.old) (listener_faults self.new) (put_failed result) }
    {
        let answer = match &mut self.connection {
            Some(connection) => connection.send(self.runtime, &self.limits, bytes),
            None => Err(io::Error::from(ErrorKind::NotConnected)),
        };
        put_counted(&mut self.faults, answer)
    }

    /// What was sent still arrives, also where the other side still sends.
    fn close(&mut self) {
        self.close_standing();
    }
}

impl<R: net::Net + Clock> RealListener<'_, R> {
    fn listen_at(&mut self, target: &Target) -> io::Result<()>
        ensures faults { self.new.faults ≡ self.old.faults }
        ensures listens { OnOk result (IsTrue (is_some self.new.listening)) }
        ensures connection { is_some self.new.connection ≡ is_some self.old.connection }
    {
        let listening = TcpListener::bind(self.runtime, (host_text(&target.host)?, target.port))?;
        self.listening = Some(listening);
        Ok(())
    }

    fn accept_next(&mut self) -> io::Result<()>
        requires { self.old.connection ≡ None }
        ensures faults { self.new.faults ≡ self.old.faults }
        ensures connection { is_some self.new.connection ≡ is_ok result }
    {
        let Some(listening) = &self.listening else {
            return Err(io::Error::from(ErrorKind::NotConnected));
        };
        let (stream, _) = listening.accept()?;
        // (the rate alone bounds how long a request may take)
        self.connection = Some(Connection::begin(stream, self.runtime, u64::MAX)?);
        Ok(())
    }

    fn close_standing(&mut self)
        ensures faults { self.new.faults ≡ self.old.faults }
        ensures connection { self.new.connection ≡ None }
    {
        if let Some(mut connection) = self.connection.take() {
            let _ = connection.linger(self.runtime, &self.limits);
        }
    }
}
