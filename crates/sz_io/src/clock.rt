//! The clock, which tells the time.
ghost use Rattle.std.specs.Prelude.{◌≡◌, ℕ, List, [], ◌∷◌, Option, OnErr, IfOk, is_err};
ghost use Rattle.sz_base.specs.declared.moment.Seconds.{Seconds};
ghost use Rattle.sz_spec.specs.Cause.{HasCause};
ghost use Rattle.sz_spec.specs.Told.{TakesFront};

use sz_base::{Failed, Seconds};

/// Tells the time.
pub trait Clock {
    /// How often the clock has failed.
    ghost faults: { Self → ℕ };

    /// Where the clock tells them, the answers still to come.
    ghost answers: { Self → Option (List Seconds) };

    /// The time now.
    fn now(&mut self) -> Result<Seconds, Failed>
        ensures ok { IfOk result (λ time. TakesFront (answers self.old) (answers self.new) (time ∷ [])) }
        ensures refused { OnErr result (answers self.new ≡ answers self.old) }
        ensures cause { HasCause (faults self.old) (faults self.new) (is_err result) };
}
