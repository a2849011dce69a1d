//! A chunked body in pieces.

ghost use Rattle.std.specs.Prelude.{◌≡◌, ◌≢◌, ◌-◌, ◌≤◌, ◌<◌, ◌++◌, ◌∷◌, [], ℕ, List, IfOk, IfErr, IsErrOf, IsTrue, length, take};
ghost use Rattle.sz_http.specs.ChunkPlace.{is_at_line, is_framing};

use crate::chunk_place::Place;
use crate::chunk_size::Size;
use crate::{ChunkFault, FedChunks, HeadReading, Kind, NoHead, Progress};
use std::alloc::Global;
use sz_base::OutOfMemory;

/// A chunked body in pieces that may be cut anywhere. Contracts speak of a reading by `Takes`, which names its
/// limit, the bytes so far, and the content so far.
#[derive(Drop)]
pub struct ChunkedBody {
    place: Place,
    limit: u64,
    room: u64,
    trailer: HeadReading,
    failed: Option<ChunkFault>,
}

impl ChunkedBody {
    ghost use Rattle.sz_http.specs.declared.chunk_fault.ChunkFault.{ChunkFault};
    ghost use Rattle.sz_http.specs.ChunkReading.{Answers, Came, HasRefused, Stands, Takes};
    ghost use Rattle.sz_http.specs.ChunkRefusal.{IsRefused, RefusesNext};

    /// A reading of a body of at most so many bytes, before its first one.
    pub fn create(alloc: Global, limit: u64) -> Result<ChunkedBody, OutOfMemory>
        ensures { IfOk result (λ reading. Takes reading limit [] []) }
    {
        let trailer = HeadReading::create(alloc, Kind::Trailer)?;
        Ok(ChunkedBody {
            place: Place::InSize(Size::none()),
            limit,
            room: limit,
            trailer,
            failed: None,
        })
    }

    /// Begins again with a body of at most so many bytes. The memory is kept.
    pub fn begin(&mut self, limit: u64)
        ensures { Takes self.new limit [] [] }
    {
        self.place = Place::InSize(Size::none());
        self.limit = limit;
        self.room = limit;
        self.failed = None;
    }

    // Takes a byte of a line, or one that ends a chunk.
    fn take_line_byte(&mut self, byte: u8) -> Result<(), ChunkFault>
        requires { IsTrue (is_at_line self.old.place) }
        ensures ok { IfOk result (λ done. (limit : ℕ) (bytes content : List ℕ) → Takes self.old limit bytes content
            → Takes self.new limit (bytes ++ byte ∷ []) content) }
        ensures err { IfErr result (λ fault. (limit : ℕ) (bytes content : List ℕ) → Takes self.old limit bytes content
            → RefusesNext limit bytes content byte fault) }
    {
        match self.place.after(byte) {
            Ok(next) => {
                self.go_to(next);
                Ok(())
            }
            Err(fault) => Err(fault),
        }
    }

    // Goes on at the place to which a line or a chunk leads.
    fn go_to(&mut self, next: Place)
        requires { next ≢ Place.Whole }
        ensures came { (bytes content : List ℕ) → Stands next bytes content
            → Came self.new.trailer self.new.place bytes content }
        ensures limit { self.new.limit ≡ self.old.limit }
        ensures room { self.new.room ≡ self.old.room }
        ensures failed { self.new.failed ≡ self.old.failed }
    {
        match next {
            Place::Between => self.place = Place::InSize(Size::none()),
            Place::InTrailer => {
                self.trailer.begin(Kind::Trailer);
                self.place = Place::InTrailer;
            }
            _ => self.place = next,
        }
    }

    // Takes a byte of the trailer.
    fn take_trailer_byte(&mut self, byte: u8) -> Result<(), ChunkFault>
        requires { self.old.place ≡ Place.InTrailer }
        ensures ok { IfOk result (λ done. (limit : ℕ) (bytes content : List ℕ) → Takes self.old limit bytes content
            → Takes self.new limit (bytes ++ byte ∷ []) content) }
        ensures err { IfErr result (λ fault. (limit : ℕ) (bytes content : List ℕ) → Takes self.old limit bytes content
            → RefusesNext limit bytes content byte fault) }
    {
        match self.trailer.feed(&[byte]) {
            Ok(Progress::More) => Ok(()),
            Ok(Progress::Whole { used: _ }) => {
                self.place = Place::Whole;
                Ok(())
            }
            Err(NoHead) => Err(ChunkFault::BadChunk),
        }
    }

    // Takes a byte that is none of the content.
    fn take(&mut self, byte: u8) -> Result<(), ChunkFault>
        requires { IsTrue (is_framing self.old.place) }
        ensures ok { IfOk result (λ done. (limit : ℕ) (bytes content : List ℕ) → Takes self.old limit bytes content
            → Takes self.new limit (bytes ++ byte ∷ []) content) }
        ensures err { IfErr result (λ fault. (limit : ℕ) (bytes content : List ℕ) → Takes self.old limit bytes content
            → RefusesNext limit bytes content byte fault) }
    {
        match self.place {
            Place::InTrailer => self.take_trailer_byte(byte),
            _ => self.take_line_byte(byte),
        }
    }

    // Takes bytes that are none of the content as far as they go, and says how many.
    fn take_framing(&mut self, piece: &[u8]) -> Result<usize, ChunkFault>
        ensures within { IfOk result (λ used. used ≤ length piece.now) }
        ensures ok { IfOk result (λ used. (limit : ℕ) (before content : List ℕ) → Takes self.old limit before content
            → Takes self.new limit (before ++ take used piece.now) content) }
        ensures all { IfOk result (λ used. IsTrue (is_framing self.new.place) → used ≡ length piece.now) }
        ensures err { IfErr result (λ fault. (limit : ℕ) (before content : List ℕ) → Takes self.old limit before content
            → IsRefused limit (before ++ piece.now) fault) }
    {
        let mut used = 0;
        while used < piece.len() && self.place.is_framing() {
            match self.take(piece[used]) {
                Ok(()) => used += 1,
                Err(fault) => return Err(fault),
            }
        }
        Ok(used)
    }

    // Takes bytes of a chunk behind so many bytes of the piece.
    fn take_data<'a>(
        &mut self,
        left: u64,
        piece: &'a [u8],
        used: usize,
    ) -> Result<FedChunks<'a>, ChunkFault>
        requires place { self.old.place ≡ Place.InData left }
        requires within { used ≤ length piece.now }
        ensures { (limit : ℕ) (before content : List ℕ) → Takes self.old limit (before ++ take used piece.now) content
            → Answers result limit before content piece.now self.new }
    {
        let rest = &piece[used..];
        let count = left.min(rest.len() as u64) as usize;
        if count as u64 > self.room {
            return Err(ChunkFault::TooLarge { limit: self.limit });
        }
        self.room -= count as u64;
        self.place = after_data(left, count as u64);
        Ok(FedChunks {
            used: used + count,
            body: &rest[..count],
            done: false,
        })
    }

    // Takes a front of a piece of a body that was not refused.
    fn take_front<'a>(&mut self, piece: &'a [u8]) -> Result<FedChunks<'a>, ChunkFault>
        ensures { (limit : ℕ) (before content : List ℕ) → Takes self.old limit before content
            → Answers result limit before content piece.now self.new }
    {
        let used = match self.take_framing(piece) {
            Ok(used) => used,
            Err(fault) => return Err(fault),
        };
        match self.place {
            Place::InData(left) => self.take_data(left, piece, used),
            Place::Whole => Ok(FedChunks {
                used,
                body: b"",
                done: true,
            }),
            _ => Ok(FedChunks {
                used,
                body: b"",
                done: false,
            }),
        }
    }

    /// Takes a front of the next piece, with bytes of at most one chunk. It is told at the byte that decides it that
    /// the body is whole or can't be one, however the bytes are cut. Behind the body no byte is taken, and after a
    /// refusal each piece is refused for the same fault, until `begin`.
    pub fn feed<'a>(&mut self, piece: &'a [u8]) -> Result<FedChunks<'a>, ChunkFault>
        ensures answers { (limit : ℕ) (before content : List ℕ) → Takes self.old limit before content
            → Answers result limit before content piece.now self.new }
        ensures refused { IfErr result (HasRefused self.new) }
        ensures stays { (fault : ChunkFault) → HasRefused self.old fault → IsErrOf result fault }
    {
        if let Some(fault) = self.failed {
            return Err(fault);
        }
        match self.take_front(piece) {
            Ok(fed) => Ok(fed),
            Err(fault) => {
                self.failed = Some(fault);
                Err(fault)
            }
        }
    }
}

// The place in or behind a chunk after so many of the bytes that were left.
fn after_data(left: u64, count: u64) -> Place
    requires { count ≤ left }
    ensures more { count < left → result ≡ Place.InData (left - count) }
    ensures whole { count ≡ left → result ≡ Place.DataEnd }
{
    if count == left {
        return Place::DataEnd;
    }
    Place::InData(left - count)
}
