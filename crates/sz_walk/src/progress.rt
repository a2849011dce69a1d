//! The progress of a walk: what is left to visit, and the visits so far.

ghost use Rattle.std.specs.Prelude.{◌≡◌, ◌+◌, ◌≤◌, [], ◌∷◌, ◌++◌, length, map, reverse, IfOk, OnOk, OnErr};
ghost use Rattle.sz_source.specs.Source.{most_sources};
ghost use Rattle.sz_walk.specs.Progress.{Follows, HasRoom, IsSettled, IsTurn, LeadsOn, walked_of};
ghost use Rattle.sz_walk.specs.Visits.{count_of, entry_at, first_walked, HasOffer, others_than, TurnsDown, visit_of, visits_of};

use crate::entry::Entry;
use crate::{Note, Step, Visit, Visits};
use std::alloc::Global;
use sz_answer::Answer;
use sz_base::{OutOfMemory, Targets};
use sz_evidence::Reason;
use sz_source::Sources;

/// How deep redirects are followed.
const MOST_DEPTH: u8 = 10;

/// How often one source is visited.
const MOST_VISITS: usize = 32;

/// What is left to visit, and the visits.
#[derive(Debug, Drop)]
pub(crate) struct Progress {
    /// The next one stands last.
    pub(crate) left: Vec<Entry>,
    pub(crate) visits: Vec<Visit>,
}

/// What comes next.
#[derive(Debug, Drop)]
pub(crate) enum Turn {
    /// This is visited. There is room for a note of it.
    Visit(Entry),
    /// It isn't visited any more, since its source was visited as often as it may be; that is noted.
    Spent,
    /// Nothing is left.
    Over,
    /// Memory ran out.
    OutOfMemory,
}

impl Progress {
    /// That of a walk over these sources, before its first visit.
    pub(crate) fn over(alloc: Global, sources: &Sources) -> Result<Self, OutOfMemory>
        requires few { length sources.now ≤ most_sources }
        ensures { IfOk result (λ progress. walked_of progress ≡ first_walked sources.now) }
    {
        let mut left = Vec::new(alloc);
        for (number, source) in sources.as_slice().iter().enumerate() {
            left.push(Entry {
                source: number as u16,
                depth: 0,
                item: source.item(alloc)?,
            })?;
        }
        left.reverse();
        Ok(Progress {
            left,
            visits: Vec::new(alloc),
        })
    }

    /// Takes off what comes next.
    pub(crate) fn turn(&mut self) -> Turn
        ensures { IsTurn result self.old self.new }
    {
        let Some(front) = self.left.pop() else {
            return Turn::Over;
        };
        if self.visits.reserve(1).is_err() {
            return Turn::OutOfMemory;
        }
        if visits_of(&self.visits, front.source) < MOST_VISITS {
            return Turn::Visit(front);
        }
        self.spend(front);
        Turn::Spent
    }

    /// Notes what the visit of the front came to, and puts what that led to in its place.
    pub(crate) fn settle(&mut self, front: Entry, visited: Result<Answer, OutOfMemory>) -> Step
        requires room { HasRoom self.old }
        ensures settled { IsSettled front visited result (walked_of self.old) (walked_of self.new) }
    {
        let Ok(answer) = visited else {
            return Step::OutOfMemory;
        };
        match answer {
            Answer::Listed(targets) => {
                let note = Note::Listed(count_of(&targets));
                self.lead_on(front, 0, note, targets)
            }
            Answer::Redirected(targets) => self.redirect(front, targets),
            Answer::Offered(onboarding, evidence) => {
                self.note(front, Note::Accepted);
                Step::Offer(onboarding, evidence)
            }
            Answer::Refused(reason) => {
                self.note(front, Note::Refused(reason));
                Step::Passed
            }
        }
    }

    // Follows a redirect to these targets, where it isn't too deep.
    fn redirect(&mut self, front: Entry, targets: Targets) -> Step
        requires room { HasRoom self.old }
        ensures settled { Follows front (Answer.Redirected targets) result (walked_of self.old) (walked_of self.new) }
    {
        if front.depth >= MOST_DEPTH {
            self.note(front, Note::Refused(Reason::Depth));
            return Step::Passed;
        }
        let depth = front.depth + 1;
        let note = Note::Redirected(count_of(&targets));
        self.lead_on(front, depth, note, targets)
    }

    // Puts these targets in the place of the front, and notes it so.
    fn lead_on(&mut self, front: Entry, depth: u8, note: Note, targets: Targets) -> Step
        requires room { HasRoom self.old }
        ensures led { LeadsOn front depth note targets result (walked_of self.old) (walked_of self.new) }
    {
        if put_in_front(&mut self.left, front.source, depth, targets).is_err() {
            return Step::OutOfMemory;
        }
        self.note(front, note);
        Step::Passed
    }

    // Notes that the front's source was visited as often as it may be, and drops what else is left of it.
    fn spend(&mut self, front: Entry)
        requires room { HasRoom self.old }
        ensures entries { (walked_of self.new).entries ≡ others_than front.source (walked_of self.old).entries }
        ensures visits { self.new.visits.items
            ≡ self.old.visits.items ++ visit_of front (Note.Refused Reason.BudgetSpent) ∷ [] }
    {
        drop_source(&mut self.left, front.source);
        self.note(front, Note::Refused(Reason::BudgetSpent));
    }

    // Notes this of the front.
    fn note(&mut self, front: Entry, note: Note)
        requires room { HasRoom self.old }
        ensures visits { self.new.visits.items ≡ self.old.visits.items ++ visit_of front note ∷ [] }
        ensures left { self.new.left ≡ self.old.left }
    {
        self.visits.push_reserved(Visit {
            source: front.source,
            depth: front.depth,
            item: front.item,
            note,
        });
    }

    /// The visits. Takes no memory.
    pub(crate) fn into_visits(self) -> Visits
        ensures { result ≡ self.visits.items }
    {
        Visits::from_vec(self.visits)
    }

    /// Notes why the offer of the last visit isn't taken.
    pub(crate) fn turn_down(&mut self, reason: Reason)
        requires offer { HasOffer (walked_of self.old) }
        ensures noted { TurnsDown reason (walked_of self.old) (walked_of self.new) }
    {
        if let Some(offer) = self.visits.last_mut() {
            offer.note = Note::Refused(reason);
        }
    }
}

// How often this source was visited.
fn visits_of(visits: &[Visit], source: u16) -> usize
    ensures { result ≡ visits_of source visits.now }
{
    visits.iter().filter(|visit| visit.source == source).count()
}

// Drops the entries of this source.
fn drop_source(left: &mut Vec<Entry>, source: u16)
    ensures { left.new.items ≡ others_than source left.old.items }
{
    left.retain(|entry| entry.source != source);
}

// How many targets these are, as a note has it.
fn count_of(targets: &Targets) -> u16
    ensures { result ≡ count_of targets.now }
{
    u16::try_from(targets.len()).unwrap_or(u16::MAX)
}

// Puts these targets in front of what is left, the first of them to come next. A refusal changes nothing.
fn put_in_front(
    left: &mut Vec<Entry>,
    source: u16,
    depth: u8,
    mut targets: Targets,
) -> Result<(), OutOfMemory>
    ensures ok { OnOk result (reverse left.new.items ≡ map (entry_at source depth) targets ++ reverse left.old.items) }
    ensures err { OnErr result (left.new.items ≡ left.old.items) }
{
    left.reserve(targets.len())?;
    while let Some(target) = targets.pop() {
        left.push_reserved(Entry::at(source, depth, target));
    }
    Ok(())
}
