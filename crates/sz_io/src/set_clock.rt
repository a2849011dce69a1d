//! A clock in memory.
ghost use Rattle.std.specs.Prelude.{◌≡◌, ◌↔◌, ◌⊎◌, [], ◌∷◌, Some, OnErr, IfOk, IsErr, is_err};
ghost use Rattle.sz_spec.specs.Cause.{HasCause};
ghost use Rattle.sz_io.specs.Plan.{first_plan, FailsNext, after_call};

use crate::Clock;
use crate::plan::FaultPlan;
use crate::rest::Rest;
use std::alloc::Global;
use std::marker::Model;
use sz_base::{Calls, Failed, Items, Seconds};

/// Times.
pub type Times = Items<Seconds>;

/// A clock that tells the times that it was given, one after the other, and fails at the calls that it is
/// told to and where no time is left.
#[derive(Debug, Drop)]
pub struct SetClock {
    answers: Rest<Seconds>,
    plan: FaultPlan,
}

impl Model for SetClock {
    ghost use Rattle.sz_io.specs.Memory.{ClockState};

    ghost Value = { ClockState };

    ghost view = { λ clock. record { answers = clock.answers; plan = clock.plan } };
}

impl SetClock {
    /// A clock with these answers. Its calls with the given numbers, counted from 1, fail.
    pub fn create(_alloc: Global, answers: Times, fail: Calls) -> Self
        ensures answers { result.answers ≡ answers }
        ensures plan { result.plan ≡ first_plan fail }
    {
        SetClock {
            answers: Rest::of(answers),
            plan: FaultPlan::create(fail),
        }
    }
}

impl Clock for SetClock {
    ghost faults = { λ clock. clock.plan.faults };

    ghost answers = { λ clock. Some clock.answers };

    fn now(&mut self) -> Result<Seconds, Failed>
        ensures ok { IfOk result (λ time. self.old.answers ≡ time ∷ self.new.answers) }
        ensures refused { OnErr result (self.new.answers ≡ self.old.answers) }
        ensures cause { HasCause self.old.plan.faults self.new.plan.faults (is_err result) }
        ensures fails { IsErr result ↔ (FailsNext self.old.plan ⊎ (self.old.answers ≡ [])) }
        ensures counted { self.new.plan ≡ after_call self.old.plan (is_err result) }
    {
        if self.plan.next_fails_or(self.answers.as_slice().is_empty()) {
            return Err(Failed);
        }
        let time = self.answers.as_slice()[0];
        self.answers.skip(1);
        Ok(time)
    }
}
