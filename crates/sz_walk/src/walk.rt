//! The walk, one visit a call.

ghost use Rattle.std.specs.Prelude.{◌≡◌, ◌≤◌, length, IfOk};
ghost use Rattle.sz_spec.specs.Cause.{HasCause};
ghost use Rattle.sz_spec.specs.Told.{WhereTold};
ghost use Rattle.sz_exchange.specs.Exchange.{MayAdd};
ghost use Rattle.sz_answer.specs.Visit.{search_of};
ghost use Rattle.sz_source.specs.Source.{most_sources};
ghost use Rattle.sz_walk.specs.Visits.{first_walked, HasOffer, TurnsDown, was_lost_file, was_lost_server};
ghost use Rattle.sz_walk.specs.Walk.{IsReady, IsStep, Notes, notes_some, OffersAuthorised, WhereBothTell};

use crate::progress::{Progress, Turn};
use crate::{Step, Visit, Visits};
use std::alloc::Global;
use std::marker::Model;
use sz_answer::visit;
use sz_base::{Identity, Moment, OutOfMemory};
use sz_evidence::Reason;
use sz_io::{Folder, Net};
use sz_source::Sources;

/// A walk over sources. Contracts see it as its sources, what is left to visit, and the visits.
#[derive(Debug, Drop)]
pub struct Walk {
    alloc: Global,
    sources: Sources,
    progress: Progress,
}

impl Model for Walk {
    ghost use Rattle.std.specs.Prelude.{length};
    ghost use Rattle.sz_walk.specs.Progress.{IsKept, walked_of};
    ghost use Rattle.sz_walk.specs.Walk.{WalkState};

    ghost Value = { WalkState };

    ghost view = { λ walk. record { sources = walk.sources; walked = walked_of walk.progress } };

    ghost invariant = { λ walk. IsKept (length walk.sources) (walked_of walk.progress) };
}

impl Walk {
    /// A walk over these sources, before its first visit.
    pub fn create(alloc: Global, sources: Sources) -> Result<Self, OutOfMemory>
        requires few { length sources ≤ most_sources }
        ensures made { IfOk result (λ walk. walk ≡ record { sources = sources; walked = first_walked sources }) }
        ensures no_offer { IfOk result (λ walk. ¬ HasOffer walk.walked) }
    {
        let progress = Progress::over(alloc, &sources)?;
        Ok(Walk {
            alloc,
            sources,
            progress,
        })
    }

    /// Makes the next visit: of what comes next, or, where its source was visited 32 times, notes that of it and drops
    /// what else is left of that source.
    pub fn next<F: Folder, N: Net>(
        &mut self,
        folder: &mut F,
        net: &mut N,
        identity: &Identity,
        when: Moment,
    ) -> Step
        requires ready { IsReady identity.now self.old.walked }
        ensures step { WhereBothTell (F.files folder.old) (N.traffic net.old) (N.traffic net.new)
            (λ files. IsStep self.old.sources (search_of identity.now when files) result
            self.old.walked self.new.walked) }
        ensures authorised { OffersAuthorised identity.now when result }
        ensures notes { Notes result self.old self.new }
        ensures adds { WhereTold MayAdd (N.traffic net.old) (N.traffic net.new) }
        ensures folder_lost { HasCause (F.faults folder.old) (F.faults folder.new)
            (notes_some was_lost_file self.old.walked self.new.walked) }
        ensures net_lost { HasCause (N.faults net.old) (N.faults net.new)
            (notes_some was_lost_server self.old.walked self.new.walked) }
        ensures unchanged { F.files folder.new ≡ F.files folder.old }
    {
        match self.progress.turn() {
            Turn::Over => Step::Done,
            Turn::Spent => Step::Passed,
            Turn::OutOfMemory => Step::OutOfMemory,
            Turn::Visit(front) => {
                let source = &self.sources.as_slice()[front.source as usize];
                let visited = visit(self.alloc, folder, net, identity, when, source, &front.item);
                self.progress.settle(front, visited)
            }
        }
    }

    /// Notes why the offer of the last visit was not taken.
    pub fn refuse(&mut self, reason: Reason)
        requires offer { HasOffer self.old.walked }
        ensures noted { TurnsDown reason self.old.walked self.new.walked }
        ensures no_offer { ¬ HasOffer self.new.walked }
        ensures sources { self.new.sources ≡ self.old.sources }
    {
        self.progress.turn_down(reason);
    }

    /// The visits so far.
    pub fn visits(&self) -> &[Visit]
        ensures { result.now ≡ self.now.walked.visits }
    {
        self.progress.visits.as_slice()
    }

    /// Hands the visits out. Takes no memory.
    pub fn finish(self) -> Visits
        ensures { result ≡ self.walked.visits }
    {
        self.progress.into_visits()
    }
}
