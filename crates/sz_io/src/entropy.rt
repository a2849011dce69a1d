//! The source of random bytes.
ghost use Rattle.std.specs.Prelude.{◌≡◌, ℕ, List, Option, OnOk, OnErr, is_err};
ghost use Rattle.sz_spec.specs.Cause.{HasCause};
ghost use Rattle.sz_spec.specs.Told.{TakesFront};

use sz_base::Failed;

/// Gives random bytes.
pub trait Entropy {
    /// How often the source has failed.
    ghost faults: { Self → ℕ };

    /// Where the source tells them, the bytes still to come.
    ghost bytes: { Self → Option (List ℕ) };

    /// Fills `into`. After a refusal `into` may hold any bytes.
    fn fill(&mut self, into: &mut [u8]) -> Result<(), Failed>
        ensures ok { OnOk result (TakesFront (bytes self.old) (bytes self.new) into.new) }
        ensures refused { OnErr result (bytes self.new ≡ bytes self.old) }
        ensures cause { HasCause (faults self.old) (faults self.new) (is_err result) };
}
