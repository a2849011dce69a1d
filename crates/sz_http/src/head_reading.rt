//! A head that is kept as its bytes come.

ghost use Rattle.std.specs.Prelude.{◌≡◌, ◌≤◌, ◌++◌, ◌∷◌, [], ℕ, List, IsTrue, length, take, vec_capacity, IfOk, IfSome, IfNone, OnErr, IsErr};
ghost use Rattle.sz_http.specs.HeadPlace.{is_open};

use crate::head_place::Place;
use crate::parts::parts;
use crate::{Head, Kind, NoHead, Progress};
use std::alloc::Global;
use sz_base::OutOfMemory;

/// How many bytes a head may have, with the empty line that ends it.
pub const MOST_BYTES: usize = 65_536;

/// The head of a message, or the trailer of a chunked one, in pieces that may be cut anywhere. It keeps the bytes
/// in memory that it reserves when it is made. Contracts speak of a reading by `Takes`, which names its kind and
/// the bytes so far.
#[derive(Drop)]
pub struct HeadReading {
    kind: Kind,
    bytes: Vec<u8>,
    place: Place,
    ghost reserved: { 65536 ≤ vec_capacity bytes },
}

impl HeadReading {
    ghost use Rattle.sz_http.specs.Head.{IsHead};
    ghost use Rattle.sz_http.specs.Parts.{HasParts, parts_of};
    ghost use Rattle.sz_http.specs.HeadReading.{Answers, IsGivenUp, Takes};

    /// A reading of a head of this kind, before its first byte.
    pub fn create(alloc: Global, kind: Kind) -> Result<HeadReading, OutOfMemory>
        ensures { IfOk result (λ reading. Takes reading kind []) }
    {
        let bytes = Vec::with_capacity(alloc, MOST_BYTES)?;
        Ok(HeadReading {
            kind,
            bytes,
            place: Place::first(kind),
        })
    }

    /// Begins again with a head of this kind. The memory is kept.
    pub fn begin(&mut self, kind: Kind)
        ensures { Takes self.new kind [] }
    {
        self.kind = kind;
        self.bytes.clear();
        self.place = Place::first(kind);
    }

    /// Takes the next piece, up to the end of the head, and tells how far the head has come. It tells so at the
    /// byte that decides it, however the bytes are cut. After `Whole` no byte is taken, and after a refusal each
    /// piece is refused, until `begin`.
    pub fn feed(&mut self, piece: &[u8]) -> Result<Progress, NoHead>
        ensures answers { (kind : Kind) (before : List ℕ) → Takes self.old kind before
            → Answers result kind before piece.now self.new }
        ensures given_up { OnErr result (IsGivenUp self.new) }
        ensures stays { IsGivenUp self.old → IsErr result }
    {
        let used = self.take_front(piece);
        match self.place {
            Place::Whole => Ok(Progress::Whole { used }),
            Place::Nowhere => Err(NoHead),
            _ => Ok(Progress::More),
        }
    }

    /// The parts of the head, once it is whole.
    pub fn head(&self) -> Option<Head<'_>>
        ensures parts { (kind : Kind) (bytes : List ℕ) → Takes self.now kind bytes
            → IfSome result (λ head. IsHead kind bytes × HasParts kind bytes (parts_of head)) }
        ensures none { (kind : Kind) (bytes : List ℕ) → Takes self.now kind bytes
            → IfNone result (¬ (IsHead kind bytes)) }
    {
        match self.place {
            Place::Whole => parts(self.kind, self.bytes.as_slice()),
            _ => None,
        }
    }

    // Takes bytes of the piece as long as one can follow, and says how many.
    fn take_front(&mut self, piece: &[u8]) -> usize
        ensures within { result ≤ length piece.now }
        ensures taken { (kind : Kind) (before : List ℕ) → Takes self.old kind before
            → Takes self.new kind (before ++ take result piece.now) }
        ensures all { IsTrue (is_open self.new.place) → result ≡ length piece.now }
        ensures shut { self.old.place ≡ Place.Nowhere → self.new.place ≡ Place.Nowhere }
    {
        let mut used = 0;
        while used < piece.len() && self.place.is_open() {
            self.take(piece[used]);
            used += 1;
        }
        used
    }

    // Takes one byte. A head that could not end within the bytes that it may have is given up.
    fn take(&mut self, byte: u8)
        requires { IsTrue (is_open self.old.place) }
        ensures { (kind : Kind) (bytes : List ℕ) → Takes self.old kind bytes
            → Takes self.new kind (bytes ++ byte ∷ []) }
    {
        let next = self.place.after(self.kind, byte, self.bytes.as_slice());
        if self.bytes.len() + 1 + next.least_left(self.kind) > MOST_BYTES {
            self.place = Place::Nowhere;
            return;
        }
        self.bytes.push_reserved(byte);
        self.place = next;
    }
}
