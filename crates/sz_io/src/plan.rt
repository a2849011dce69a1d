//! Which calls of an object fail.
ghost use Rattle.std.specs.Prelude.{◌≡◌, ◌↔◌, ◌⊎◌, IsTrue, false};
ghost use Rattle.sz_spec.specs.Cause.{HasCause};
ghost use Rattle.sz_io.specs.Plan.{first_plan, FailsNext, after_call};

use std::marker::Model;
use sz_base::Calls;

/// The calls of an object that fails where it is told to: which of them fail, by their numbers, how many there
/// were, and how many have failed. Both counts stand still at the greatest u64.
#[derive(Debug, Drop)]
pub struct FaultPlan {
    fail: Calls,
    calls: u64,
    faults: u64,
}

impl Model for FaultPlan {
    ghost use Rattle.sz_io.specs.Plan.{Plan};

    ghost Value = { Plan };

    ghost view = { λ plan. record { fail = plan.fail; calls = plan.calls; faults = plan.faults } };
}

impl FaultPlan {
    /// No call was made yet; those with the given numbers, counted from 1, will fail.
    pub fn create(fail: Calls) -> Self
        ensures { result ≡ first_plan fail }
    {
        FaultPlan {
            fail,
            calls: 0,
            faults: 0,
        }
    }

    /// Counts a call, and says whether it fails, which is then counted too.
    pub fn next_fails(&mut self) -> bool
        ensures fails { IsTrue result ↔ FailsNext self.old }
        ensures cause { HasCause self.old.faults self.new.faults result }
        ensures counted { self.new ≡ after_call self.old result }
    {
        let named = self.is_next_named();
        self.count(named);
        named
    }

    /// Counts a call that fails too where it can't be answered, and says whether it fails, which is then
    /// counted too.
    pub fn next_fails_or(&mut self, unanswered: bool) -> bool
        ensures fails { IsTrue result ↔ (FailsNext self.old ⊎ IsTrue unanswered) }
        ensures cause { HasCause self.old.faults self.new.faults result }
        ensures counted { self.new ≡ after_call self.old result }
    {
        let fails = self.is_next_named() || unanswered;
        self.count(fails);
        fails
    }

    /// Counts a call that doesn't fail, whether its number is named or not.
    pub fn pass(&mut self)
        ensures { self.new ≡ after_call self.old false }
    {
        self.count(false);
    }

    // The next call is one of those that fail.
    fn is_next_named(&self) -> bool
        ensures { IsTrue result ↔ FailsNext self.now }
    {
        self.fail.as_slice().contains(&self.calls.saturating_add(1))
    }

    // Counts a call.
    fn count(&mut self, fails: bool)
        ensures cause { HasCause self.old.faults self.new.faults fails }
        ensures counted { self.new ≡ after_call self.old fails }
    {
        self.calls = self.calls.saturating_add(1);
        if fails {
            self.faults = self.faults.saturating_add(1);
        }
    }
}
