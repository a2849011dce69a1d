//! The laws of a walk: its calls, one after the other, are a run over the list of what is left to visit, and the
//! exchanges that were added are those that the run's visits own, and no others. Each law is the contract of a function
//! that does nothing.

ghost use Rattle.std.specs.Prelude.{◌≡◌, ◌≤◌, List, length, None, Some};
ghost use Rattle.std.specs.List.{AllByRecursion};
ghost use Rattle.sz_base.specs.declared.evidence.Evidence.{Evidence};
ghost use Rattle.sz_artifacts.specs.declared.conveyed.onboarding.Onboarding.{Onboarding};
ghost use Rattle.sz_evidence.specs.declared.reason.Reason.{Reason};
ghost use Rattle.sz_io.specs.Added.{Adds};
ghost use Rattle.sz_io.specs.Net.{Traffic};
ghost use Rattle.sz_io.specs.declared.exchange.Exchange.{Exchange};
ghost use Rattle.sz_source.specs.declared.source.Source.{Source};
ghost use Rattle.sz_answer.specs.Visit.{Search};
ghost use Rattle.sz_walk.specs.Runs.{Act, IsOver, IsRunSoFar, IsTried, IsWalk, lost_from, Runs, visit_owned};
ghost use Rattle.sz_walk.specs.Visits.{first_walked, HasOffer, TurnsDown, Walked};
ghost use Rattle.sz_walk.specs.Walk.{IsStep};

use crate::{Step, Tries};

/// Before its first call a walk has led nowhere, and owns nothing.
pub fn run_begins<T: Tries>()
    ensures { (trial : T) (sources : List Source) (search : Search) (began : Traffic) → began.standing ≡ None
        → IsRunSoFar (T.tries trial) sources search began began (first_walked sources) }
{}

/// A call that passed, an offer that is turned down, and one that is taken each lead a run on.
pub fn run_goes_on<T: Tries>()
    ensures passed { (trial : T) (sources : List Source) (search : Search) (began old new : Traffic)
        (before after : Walked) → IsRunSoFar (T.tries trial) sources search began old before → ¬ HasOffer before
        → IsStep sources search Step.Passed before after old new
        → IsRunSoFar (T.tries trial) sources search began new after }
    ensures turned_down { (trial : T) (sources : List Source) (search : Search) (began old visited new : Traffic)
        (before offered after : Walked) (onboarding : Onboarding) (evidence : Evidence) (found : Reason)
        → IsRunSoFar (T.tries trial) sources search began old before → ¬ HasOffer before
        → IsStep sources search (Step.Offer onboarding evidence) before offered old visited
        → IsTried (T.tries trial) onboarding evidence (Some found) visited new → TurnsDown found offered after
        → IsRunSoFar (T.tries trial) sources search began new after }
    ensures accepted { (trial : T) (sources : List Source) (search : Search) (began old visited new : Traffic)
        (before offered : Walked) (onboarding : Onboarding) (evidence : Evidence)
        → IsRunSoFar (T.tries trial) sources search began old before → ¬ HasOffer before
        → IsStep sources search (Step.Offer onboarding evidence) before offered old visited
        → IsTried (T.tries trial) onboarding evidence None visited new
        → IsRunSoFar (T.tries trial) sources search began new offered }
{}

/// A run that is over is a walk over all that was heard.
pub fn run_is_walk<T: Tries>()
    ensures { (trial : T) (sources : List Source) (search : Search) (began now : Traffic) (walked : Walked)
        (heard : List Exchange) → IsRunSoFar (T.tries trial) sources search began now walked → IsOver walked
        → Adds began now heard
        → IsWalk (T.tries trial) sources search heard (lost_from 0 walked.visits) walked.visits }
{}

/// A visit owns one exchange at most, beside those of its downloads.
pub fn visits_own_few<T: Tries>()
    ensures { (trial : T) (sources : List Source) (search : Search) (acts : List Act) (before after : Walked)
        → Runs (T.tries trial) sources search acts before after
        → AllByRecursion (λ act. length (visit_owned act) ≤ 1) acts }
{}
