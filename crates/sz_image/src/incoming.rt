//! An image that comes in pieces: the reply is read, and what there is of the body goes to a room and is hashed.

ghost use Rattle.std.specs.Prelude.{◌≡◌, [], ◌+◌, ◌≤◌, ℕ, Bool, true, false, List, ◌++◌, IsTrue, length, Err, IfOk, IfErr, OnOk};
ghost use Rattle.sha2.specs.Hashers.{Holds256};
ghost use Rattle.sha2.specs.Sha256.{sha256};
ghost use Rattle.sz_spec.specs.Cause.{HasCause};
ghost use Rattle.sz_disk.specs.Room.{Held, HasPut};
ghost use Rattle.sz_http.specs.Reading.{Takes, side_of};
ghost use Rattle.sz_image.specs.Coming.{Comes, HasCome, IsComing, IsJudged, StopsFor, TakesFront};
ghost use Rattle.sz_image.specs.Fetch.{IsSameRoom, blames_room};
ghost use Rattle.sz_image.specs.Reply.{HasStatus, IsRefused};

use crate::head::{framing, refusal};
use sha2::{Digest, Sha256};
use sz_base::ImageFault;
use sz_disk::Room;
use sz_http::{Fed, Reading, Side};

/// What has come of an image.
#[derive(Drop)]
pub(crate) struct Incoming {
    // what came of the body
    hasher: Sha256,
    // whether the head is whole, and has the status 200
    headed: bool,
}

impl Incoming {
    /// Nothing came yet.
    pub(crate) fn nothing() -> Incoming
        ensures hashed { Holds256 result.hasher [] }
        ensures headed { result.headed ≡ false }
    {
        Incoming {
            hasher: Sha256::new(),
            headed: false,
        }
    }

    /// Takes the next bytes of the reply, and says whether it is whole.
    pub(crate) fn take<R: Room>(
        &mut self,
        reading: &mut Reading,
        room: &mut R,
        piece: &[u8],
    ) -> Result<bool, ImageFault>
        requires { (first : Held) × (bytes : List ℕ) × IsComing self.old reading.old first (R.held room.old) bytes }
        ensures ok { (first : Held) (bytes : List ℕ) → IsComing self.old reading.old first (R.held room.old) bytes
            → IfOk result (λ whole. Comes whole self.new reading.new first (R.held room.new) (bytes ++ piece.now)) }
        ensures refused { (first : Held) (hash bytes : List ℕ)
            → IsComing self.old reading.old first (R.held room.old) bytes
            → IfErr result (StopsFor first.space hash (bytes ++ piece.now)) }
        ensures led { R.led room.old room.new × IsSameRoom (R.held room.old) (R.held room.new) }
        ensures cause { HasCause (R.held room.old).faults (R.held room.new).faults (blames_room result) }
        ensures side { side_of reading.new ≡ side_of reading.old }
    {
        let mut at = 0;
        while at < piece.len() {
            let fed = match self.take_front(reading, room.space(), &piece[at..]) {
                Ok(fed) => fed,
                Err(fault) => return Err(fault),
            };
            match self.put(room, fed.body) {
                Ok(()) => {}
                Err(fault) => return Err(fault),
            }
            if fed.done {
                return Ok(true);
            }
            at += fed.used;
        }
        Ok(false)
    }

    /// Takes the end of the connection, where the reply isn't whole yet.
    pub(crate) fn end(&mut self, reading: &mut Reading, space: u64) -> Result<(), ImageFault>
        ensures ok { (first held : Held) (bytes : List ℕ) → first.space ≡ space
            → IsComing self.old reading.old first held bytes → OnOk result (HasCome self.new first held bytes true) }
        ensures refused { (first held : Held) (hash bytes : List ℕ) → first.space ≡ space
            → IsComing self.old reading.old first held bytes → IfErr result (IsRefused space hash bytes true) }
        ensures side { side_of reading.new ≡ side_of reading.old }
    {
        match reading.ended() {
            Ok(()) => match self.judge(reading) {
                Ok(()) => Ok(()),
                Err(fault) => Err(fault),
            },
            Err(fault) => Err(refusal(reading, fault, space)),
        }
    }

    /// The digest of what came.
    pub(crate) fn digest(self) -> [u8; 32]
        ensures { (body : List ℕ) → Holds256 self.hasher body → result ≡ sha256 body }
    {
        self.hasher.finalize()
    }

    // Takes a front of a piece, and judges the head as soon as it is whole.
    fn take_front<'a>(
        &mut self,
        reading: &mut Reading,
        space: u64,
        piece: &'a [u8],
    ) -> Result<Fed<'a>, ImageFault>
        ensures ok { (bytes body : List ℕ) → Takes reading.old Side.Reply space bytes false body
            → (IsTrue self.old.headed → HasStatus bytes 200)
            → IfOk result (TakesFront space bytes body piece.now reading.new self.new.headed) }
        ensures refused { (hash bytes body : List ℕ) → Takes reading.old Side.Reply space bytes false body
            → IfErr result (IsRefused space hash (bytes ++ piece.now) false) }
        ensures side { side_of reading.new ≡ side_of reading.old }
        ensures hasher { self.new.hasher ≡ self.old.hasher }
    {
        match reading.feed(piece) {
            Ok(fed) => match self.judge(reading) {
                Ok(()) => Ok(fed),
                Err(fault) => Err(fault),
            },
            Err(fault) => Err(refusal(reading, fault, space)),
        }
    }

    // Judges the head where it is whole and wasn't judged yet.
    fn judge(&mut self, reading: &Reading) -> Result<(), ImageFault>
        ensures ok { (space : ℕ) (bytes body : List ℕ) (ended : Bool)
            → Takes reading.now Side.Reply space bytes ended body → (IsTrue self.old.headed → HasStatus bytes 200)
            → OnOk result (IsJudged self.new.headed bytes) }
        ensures refused { (space : ℕ) (hash bytes body more : List ℕ) (ended closed : Bool)
            → Takes reading.now Side.Reply space bytes ended body
            → IfErr result (IsRefused space hash (bytes ++ more) closed) }
        ensures hasher { self.new.hasher ≡ self.old.hasher }
    {
        if self.headed {
            return Ok(());
        }
        let Some(head) = reading.head() else {
            return Ok(());
        };
        match framing(&head) {
            Ok(_) => {
                self.headed = true;
                Ok(())
            }
            Err(fault) => Err(fault),
        }
    }

    // Puts these bytes of the body behind those that came.
    fn put<R: Room>(&mut self, room: &mut R, body: &[u8]) -> Result<(), ImageFault>
        requires { (R.held room.old).used + length body.now ≤ (R.held room.old).space }
        ensures ok { OnOk result (HasPut body.now (R.held room.old) (R.held room.new)) }
        ensures hashed { (before : List ℕ) → Holds256 self.old.hasher before
            → OnOk result (Holds256 self.new.hasher (before ++ body.now)) }
        ensures refused { IfErr result (λ fault. (fault ≡ ImageFault.DiskFault)
            × IsSameRoom (R.held room.old) (R.held room.new)) }
        ensures led { R.led room.old room.new }
        ensures cause { HasCause (R.held room.old).faults (R.held room.new).faults (blames_room result) }
        ensures headed { self.new.headed ≡ self.old.headed }
    {
        self.hasher.update(body);
        match room.put(body) {
            Ok(()) => Ok(()),
            Err(Failed) => Err(ImageFault::DiskFault),
        }
    }
}
