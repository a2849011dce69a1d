//! Which calls of a disk in memory fail.
ghost use Rattle.std.specs.Prelude.{◌≡◌, ◌↔◌, [], None, IsTrue};
ghost use Rattle.sz_disk.specs.Plan.{HasFate, counted, next_call, WasCut, FallsNext, IsNamed, choice_of, NamesCut};

use std::alloc::Global;
use sz_base::Calls;

/// A cut of the power at a call, and the choice of what it leaves.
#[derive(Clone, Copy)]
pub struct Cut {
    pub call: u64,
    pub choice: u64,
}

/// Which calls fail, by their numbers, counted from 1.
#[derive(Drop)]
pub struct Plan {
    pub calls: u64,
    pub failing: Calls,
    pub cut: Option<Cut>,
}

/// What becomes of a call.
#[derive(Clone, Copy)]
pub enum Fate {
    Runs,
    AtCut,
    Refused,
}

impl Plan {
    /// No call yet, and none that fails. Takes no memory.
    pub fn create(alloc: Global) -> Self
        ensures calls { result.calls ≡ 0 }
        ensures failing { result.failing ≡ [] }
        ensures cut { result.cut ≡ None }
    {
        Plan {
            calls: 0,
            failing: Calls::create(alloc),
            cut: None,
        }
    }

    /// Names the cut, unless one fell.
    pub fn cut_at(&mut self, cut: Cut)
        ensures { NamesCut cut self.old self.new }
    {
        if !self.was_cut() {
            self.cut = Some(cut);
        }
    }

    /// The choice of the cut, or 0 where none is named.
    pub fn choice(&self) -> u64
        ensures { result ≡ choice_of self.now }
    {
        self.cut.map_or(0, |cut| cut.choice)
    }

    /// Counts a call, and says what becomes of it.
    pub fn count(&mut self) -> Fate
        ensures fate { HasFate self.old result }
        ensures plan { self.new ≡ counted self.old }
    {
        let fate = self.fate();
        self.calls = self.next_call();
        fate
    }

    // What becomes of the next call.
    fn fate(&self) -> Fate
        ensures { HasFate self.now result }
    {
        if self.was_cut() {
            Fate::Refused
        } else if self.falls_next() {
            Fate::AtCut
        } else if self.is_named() {
            Fate::Refused
        } else {
            Fate::Runs
        }
    }

    // The number of the next call.
    fn next_call(&self) -> u64
        ensures { result ≡ next_call self.now }
    {
        self.calls.saturating_add(1)
    }

    // The cut fell at an earlier call.
    fn was_cut(&self) -> bool
        ensures { IsTrue result ↔ WasCut self.now }
    {
        match self.cut {
            Some(cut) => cut.call <= self.calls,
            None => false,
        }
    }

    // The cut falls at the next call.
    fn falls_next(&self) -> bool
        ensures { IsTrue result ↔ FallsNext self.now }
    {
        match self.cut {
            Some(cut) => cut.call == self.next_call() && self.calls < cut.call,
            None => false,
        }
    }

    // The next call is one of those that are named.
    fn is_named(&self) -> bool
        ensures { IsTrue result ↔ IsNamed self.now }
    {
        self.failing.as_slice().contains(&self.next_call())
    }
}
