//! The network, by which a program asks servers.
ghost use Rattle.std.specs.Prelude.{◌≡◌, ℕ, ◌≤◌, length, Option, OnOk, OnErr, IfOk, IsErrOf, is_err};
ghost use Rattle.std.specs.Option.{option_map};
ghost use Rattle.sz_base.specs.Fault.{put_failed};
ghost use Rattle.sz_spec.specs.Cause.{HasCause};
ghost use Rattle.sz_spec.specs.Told.{WhereTold};
ghost use Rattle.sz_io.specs.Net.{Traffic, Connects, Sends, SendsFront, FailsToSend, Receives, after_close, after_refused_connect, after_refused_receive};

use sz_base::{Failed, PutFault, Target};

/// Connections to servers, of which one stands at a time. The calls on one connection are an exchange.
pub trait Net {
    /// How often the network has failed.
    ghost faults: { Self → ℕ };

    /// Where the network tells them, the exchanges so far and the answers still to come.
    ghost traffic: { Self → Option Traffic };

    /// Connects to a server, of whose answer the caller will take at most so many bytes: a real connection lasts no
    /// longer than they need at a rate of its own. A connection that stands is closed first. After a refusal none
    /// stands.
    fn connect(&mut self, target: &Target, most: u64) -> Result<(), PutFault>
        ensures ok { OnOk result (WhereTold (Connects target.now) (traffic self.old) (traffic self.new)) }
        ensures failed { IsErrOf result PutFault.Failed
            → traffic self.new ≡ option_map (after_refused_connect target.now) (traffic self.old) }
        ensures no_memory { IsErrOf result PutFault.OutOfMemory
            → traffic self.new ≡ option_map after_close (traffic self.old) }
        ensures cause { HasCause (faults self.old) (faults self.new) (put_failed result) };

    /// Sends all the bytes. After a refusal some front of them may have been sent, none or all of them
    /// included. Where no connection stands it fails.
    fn send(&mut self, bytes: &[u8]) -> Result<(), PutFault>
        ensures ok { OnOk result (WhereTold (Sends bytes.now) (traffic self.old) (traffic self.new)) }
        ensures failed { IsErrOf result PutFault.Failed
            → WhereTold (FailsToSend bytes.now) (traffic self.old) (traffic self.new) }
        ensures no_memory { IsErrOf result PutFault.OutOfMemory
            → WhereTold (SendsFront bytes.now) (traffic self.old) (traffic self.new) }
        ensures cause { HasCause (faults self.old) (faults self.new) (put_failed result) };

    /// Receives the next bytes into the front of `into`, and answers how many they are; what `into` holds
    /// behind them, or after a refusal, is left open. No byte for an `into` that isn't empty is the end of
    /// the answer. Where no connection stands, and at the end of a lost answer, it fails.
    fn receive(&mut self, into: &mut [u8]) -> Result<usize, Failed>
        ensures within { IfOk result (λ count. count ≤ length into.old) }
        ensures ok { IfOk result (λ count. WhereTold (Receives into.new count) (traffic self.old) (traffic self.new)) }
        ensures failed { OnErr result (traffic self.new ≡ option_map after_refused_receive (traffic self.old)) }
        ensures cause { HasCause (faults self.old) (faults self.new) (is_err result) };

    /// Closes the connection that stands, if one does.
    fn close(&mut self)
        ensures closed { traffic self.new ≡ option_map after_close (traffic self.old) }
        ensures no_fault { faults self.new ≡ faults self.old };
}
