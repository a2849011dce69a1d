//! A message that is read as its bytes come.

ghost use Rattle.std.specs.Prelude.{◌≡◌, ◌-◌, ◌<◌, ℕ, Bool, true, false, List, [], length, IsTrue, Ok, Err, IfOk, IfErr, IfSome, IfNone, IsErrOf, IsOkAnd, IsOk};

use crate::{
    ChunkedBody, Fed, Framing, FramingFault, Head, HeadReading, HttpFault, NoHead, Progress, Side,
};
use std::alloc::Global;
use sz_base::OutOfMemory;

/// A message in pieces that may be cut anywhere. It keeps the head in memory that it reserves when it is made, and
/// gives the bytes of the body as slices of the pieces. Contracts speak of a reading by `Takes`, which names its side,
/// its limit, the bytes so far and those of the body among them.
#[derive(Drop)]
pub struct Reading {
    side: Side,
    limit: u64,
    head: HeadReading,
    chunks: ChunkedBody,
    stage: Stage,
}

/// How far a message has come.
#[derive(Clone, Copy)]
pub(crate) enum Stage {
    /// In the head.
    InHead,
    /// In a body of which so many bytes are to come, at least one.
    Counted(u64),
    /// In a chunked body.
    Chunked,
    /// In a body that runs to the end of the stream and may have so many bytes more.
    UntilEnd(u64),
    /// Behind the message.
    Done,
    /// The message is refused for this.
    Failed(HttpFault),
}

impl Reading {
    ghost use Rattle.sz_http.specs.Head.{HasNoHead, IsHead};
    ghost use Rattle.sz_http.specs.Parts.{Parts, parts_of};
    ghost use Rattle.sz_http.specs.HeadReading.{Takes as TakesHead};
    ghost use Rattle.sz_http.specs.declared.fault.HttpFault.{HttpFault};
    ghost use Rattle.sz_http.specs.declared.side.Side.{Side};
    ghost use Rattle.sz_http.specs.Message.{BeginsWith, HasBody, IsFramed, kind_of};
    ghost use Rattle.sz_http.specs.Reading.{Answers, EndAnswers, Enters, HasRefused, IsDone, Takes, TakesNothing};
    ghost use Rattle.sz_http.specs.Reading.{side_of};

    /// A reading of a message of this side, before its first byte, whose body may have so many bytes.
    pub fn create(alloc: Global, side: Side, limit: u64) -> Result<Reading, OutOfMemory>
        ensures { IfOk result (λ reading. Takes reading side limit [] false []) }
    {
        let head = HeadReading::create(alloc, side.kind())?;
        let chunks = ChunkedBody::create(alloc, limit)?;
        Ok(Reading {
            side,
            limit,
            head,
            chunks,
            stage: Stage::InHead,
        })
    }

    /// Begins again with a message of the same side whose body may have so many bytes. The memory is kept.
    pub fn begin(&mut self, limit: u64)
        ensures { Takes self.new (side_of self.old) limit [] false [] }
    {
        self.limit = limit;
        self.head.begin(self.side.kind());
        self.stage = Stage::InHead;
    }

    /// Takes a front of the next piece: bytes of the head, or bytes of the body, of a chunked one at most one chunk.
    /// It is told at the byte that decides it that the message is whole or refused, however the bytes are cut. Once the
    /// message is whole no byte is taken, and after a refusal each later call is refused for the same fault, until
    /// `begin`.
    pub fn feed<'a>(&mut self, piece: &'a [u8]) -> Result<Fed<'a>, HttpFault>
        ensures answers { (side : Side) (limit : ℕ) (before body : List ℕ) → Takes self.old side limit before false body
            → Answers result side limit before body piece.now self.new }
        ensures done { IsDone self.old → IsOkAnd result TakesNothing × IsDone self.new }
        ensures refused { IfErr result (HasRefused self.new) }
        ensures stays { (fault : HttpFault) → HasRefused self.old fault → IsErrOf result fault }
        ensures side { side_of self.new ≡ side_of self.old }
    {
        match self.stage {
            Stage::InHead => self.take_head(piece),
            Stage::Counted(left) => Ok(self.take_counted(left, piece)),
            Stage::Chunked => self.take_chunked(piece),
            Stage::UntilEnd(room) => self.take_to_the_end(room, piece),
            Stage::Done => Ok(Fed {
                used: 0,
                body: b"",
                done: true,
            }),
            Stage::Failed(fault) => Err(fault),
        }
    }

    /// Takes the end of the stream: a body that runs to it is whole, and any other message that isn't whole is
    /// refused.
    pub fn ended(&mut self) -> Result<(), HttpFault>
        ensures answers { (side : Side) (limit : ℕ) (bytes body : List ℕ) → Takes self.old side limit bytes false body
            → EndAnswers result side limit bytes body self.new }
        ensures done { IsDone self.old → IsOk result × IsDone self.new }
        ensures refused { IfErr result (HasRefused self.new) }
        ensures stays { (fault : HttpFault) → HasRefused self.old fault → IsErrOf result fault }
        ensures side { side_of self.new ≡ side_of self.old }
    {
        match self.stage {
            Stage::Done => Ok(()),
            Stage::Failed(fault) => Err(fault),
            Stage::UntilEnd(_) => {
                self.stage = Stage::Done;
                Ok(())
            }
            _ => Err(self.refuse(HttpFault::EndedEarly)),
        }
    }

    /// The parts of the head, once it is whole.
    pub fn head(&self) -> Option<Head<'_>>
        ensures parts { (side : Side) (limit : ℕ) (bytes : List ℕ) (ended : Bool) (body : List ℕ)
            → Takes self.now side limit bytes ended body
            → IfSome result (λ head. (after : List ℕ) × BeginsWith side bytes (parts_of head) after) }
        ensures none { (side : Side) (limit : ℕ) (bytes : List ℕ) (ended : Bool) (body : List ℕ)
            → Takes self.now side limit bytes ended body → IfNone result (HasNoHead (kind_of side) bytes) }
    {
        self.head.head()
    }

    // Refuses the message.
    fn refuse(&mut self, fault: HttpFault) -> HttpFault
        ensures { (result ≡ fault) × (self.new ≡ record self.old { stage = Stage.Failed fault }) }
    {
        self.stage = Stage::Failed(fault);
        fault
    }

    // Takes a front of a piece in the head.
    fn take_head<'a>(&mut self, piece: &'a [u8]) -> Result<Fed<'a>, HttpFault>
        requires { self.old.stage ≡ Stage.InHead }
        ensures answers { (side : Side) (limit : ℕ) (before body : List ℕ) → Takes self.old side limit before false body
            → Answers result side limit before body piece.now self.new }
        ensures refused { IfErr result (HasRefused self.new) }
        ensures side { side_of self.new ≡ side_of self.old }
    {
        match self.head.feed(piece) {
            Ok(Progress::More) => Ok(Fed {
                used: piece.len(),
                body: b"",
                done: false,
            }),
            Ok(Progress::Whole { used }) => match self.begin_body() {
                Ok(done) => Ok(Fed {
                    used,
                    body: b"",
                    done,
                }),
                Err(fault) => Err(fault),
            },
            Err(NoHead) => Err(self.refuse(HttpFault::BadHead)),
        }
    }

    // Begins with the body, once the head is whole, and says whether there is none.
    fn begin_body(&mut self) -> Result<bool, HttpFault>
        ensures enters { (side : Side) (text : List ℕ) → self.old.side ≡ side
            → TakesHead self.old.head (kind_of side) text → IsHead (kind_of side) text
            → Enters result side self.old.limit text self.new }
        ensures body { (side : Side) (text : List ℕ) → self.old.side ≡ side
            → TakesHead self.old.head (kind_of side) text → IsHead (kind_of side) text
            → IfOk result (λ done. HasBody side self.old.limit text []) }
        ensures refused { IfErr result (HasRefused self.new) }
        ensures side { side_of self.new ≡ side_of self.old }
    {
        match self.framing() {
            Ok(framing) => Ok(self.enter(framing)),
            Err(fault) => Err(self.refuse(HttpFault::of_framing(fault))),
        }
    }

    // How the whole head frames the body.
    fn framing(&self) -> Result<Framing, FramingFault>
        ensures { (side : Side) (text : List ℕ) → self.now.side ≡ side → TakesHead self.now.head (kind_of side) text
            → IsHead (kind_of side) text → (head : Parts) × IsFramed side self.now.limit text result head [] }
    {
        match self.head.head() {
            Some(head) => Framing::of(self.side.kind(), &head.fields, self.limit),
            None => Err(FramingFault::BadHead),
        }
    }

    // Goes to the body that is framed so, and says whether it has no bytes.
    fn enter(&mut self, framing: Framing) -> bool
        ensures enters { (side : Side) (text : List ℕ) (head : Parts) → self.old.side ≡ side
            → TakesHead self.old.head (kind_of side) text → IsHead (kind_of side) text
            → IsFramed side self.old.limit text (Ok framing) head []
            → Enters (Ok result) side self.old.limit text self.new }
        ensures side { side_of self.new ≡ side_of self.old }
    {
        match framing {
            Framing::Length(length) => {
                self.stage = counted(length);
                length == 0
            }
            Framing::Chunks => {
                self.chunks.begin(self.limit);
                self.stage = Stage::Chunked;
                false
            }
            Framing::UntilEnd => {
                self.stage = Stage::UntilEnd(self.limit);
                false
            }
        }
    }

    // Takes a front of a piece in a body of which so many bytes are to come.
    fn take_counted<'a>(&mut self, left: u64, piece: &'a [u8]) -> Fed<'a>
        requires { self.old.stage ≡ Stage.Counted left }
        ensures answers { (side : Side) (limit : ℕ) (before body : List ℕ) → Takes self.old side limit before false body
            → Answers (Ok result) side limit before body piece.now self.new }
        ensures side { side_of self.new ≡ side_of self.old }
    {
        let count = left.min(piece.len() as u64) as usize;
        let rest = left - count as u64;
        self.stage = counted(rest);
        Fed {
            used: count,
            body: &piece[..count],
            done: rest == 0,
        }
    }

    // Takes a front of a piece in a chunked body.
    fn take_chunked<'a>(&mut self, piece: &'a [u8]) -> Result<Fed<'a>, HttpFault>
        requires { self.old.stage ≡ Stage.Chunked }
        ensures answers { (side : Side) (limit : ℕ) (before body : List ℕ) → Takes self.old side limit before false body
            → Answers result side limit before body piece.now self.new }
        ensures refused { IfErr result (HasRefused self.new) }
        ensures side { side_of self.new ≡ side_of self.old }
    {
        match self.chunks.feed(piece) {
            Ok(fed) => {
                self.stage = chunked(fed.done);
                Ok(Fed {
                    used: fed.used,
                    body: fed.body,
                    done: fed.done,
                })
            }
            Err(fault) => Err(self.refuse(HttpFault::of_chunks(fault))),
        }
    }

    // Takes a piece in a body that runs to the end and may have so many bytes more.
    fn take_to_the_end<'a>(&mut self, room: u64, piece: &'a [u8]) -> Result<Fed<'a>, HttpFault>
        requires { self.old.stage ≡ Stage.UntilEnd room }
        ensures answers { (side : Side) (limit : ℕ) (before body : List ℕ) → Takes self.old side limit before false body
            → Answers result side limit before body piece.now self.new }
        ensures refused { IfErr result (HasRefused self.new) }
        ensures side { side_of self.new ≡ side_of self.old }
    {
        let count = piece.len() as u64;
        if count > room {
            let limit = self.limit;
            return Err(self.refuse(HttpFault::TooLarge { limit }));
        }
        self.stage = Stage::UntilEnd(room - count);
        Ok(Fed {
            used: piece.len(),
            body: piece,
            done: false,
        })
    }
}

// The stage in or behind a body of which so many bytes are to come.
fn counted(left: u64) -> Stage
    ensures whole { left ≡ 0 → result ≡ Stage.Done }
    ensures more { 0 < left → result ≡ Stage.Counted left }
{
    if left == 0 {
        return Stage::Done;
    }
    Stage::Counted(left)
}

// The stage in or behind a chunked body.
fn chunked(done: bool) -> Stage
    ensures whole { IsTrue done → result ≡ Stage.Done }
    ensures more { done ≡ false → result ≡ Stage.Chunked }
{
    if done {
        return Stage::Done;
    }
    Stage::Chunked
}
