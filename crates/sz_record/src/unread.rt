//! The bytes of a payload that are still to be read, and the fields that are taken from their front.

ghost use Rattle.std.specs.Prelude.{◌≡◌, ◌≤◌, [], ◌∷◌, length, IfOk, IfErr};
ghost use Rattle.std.specs.Int.{w8, w16, w32, w64, to_be_bytes};
ghost use Rattle.sz_record.specs.Field.{bytes, long, number, text};
ghost use Rattle.sz_record.specs.Reading.{IsWrong, TakesField, TakesNumber};
ghost use Rattle.sz_record.specs.Spelling.{long_bytes, text_bytes};
ghost use Rattle.sz_record.specs.declared.unread.Wrong.TheVariants.{OutOfMemory as wrong_memory};

use sz_base::OutOfMemory;

/// Why a field is not taken.
#[derive(Clone, Copy)]
pub(crate) enum Wrong {
    /// Bytes are wrong from the place on from which so many are left.
    At { left: usize },
    /// Memory ran out.
    OutOfMemory,
}

impl From<OutOfMemory> for Wrong {
    ghost from_gives = { λ _ e. e ≡ wrong_memory };

    fn from(_: OutOfMemory) -> Self {
        Wrong::OutOfMemory
    }
}

/// The bytes that are left. What is left after a refusal is not said.
#[derive(Clone, Copy)]
pub(crate) struct Unread<'a> {
    pub left: &'a [u8],
}

impl<'a> Unread<'a> {
    /// Takes so many bytes.
    pub fn take(&mut self, count: usize) -> Result<&'a [u8], Wrong>
        ensures taken { IfOk result (λ read. TakesField (bytes count) read.now self.old.left.now self.new.left.now) }
        ensures count { IfOk result (λ read. length read.now ≡ count) }
        ensures wrong { IfErr result (IsWrong (bytes count) self.old.left.now) }
    {
        match self.left.split_at_checked(count) {
            Some((front, rest)) => {
                self.left = rest;
                Ok(front)
            }
            None => Err(Wrong::At { left: 0 }),
        }
    }

    /// Takes so many bytes.
    pub fn array<const N: usize>(&mut self) -> Result<[u8; N], Wrong>
        ensures taken { IfOk result (λ read. TakesField (bytes N) read self.old.left.now self.new.left.now) }
        ensures count { IfOk result (λ read. length read ≡ N) }
        ensures wrong { IfErr result (IsWrong (bytes N) self.old.left.now) }
    {
        match self.left.split_first_chunk::<N>() {
            Some((front, rest)) => {
                self.left = rest;
                Ok(*front)
            }
            None => Err(Wrong::At { left: 0 }),
        }
    }

    /// Takes a number of one byte, between these bounds.
    pub fn byte(&mut self, low: u8, most: u8) -> Result<u8, Wrong>
        ensures taken { IfOk result (λ read.
            TakesNumber w8 low most (read ∷ []) read self.old.left.now self.new.left.now) }
        ensures wrong { IfErr result (IsWrong (number w8 low most) self.old.left.now) }
    {
        let left = self.left.len();
        let [byte] = self.array::<1>()?;
        if low <= byte && byte <= most {
            Ok(byte)
        } else {
            Err(Wrong::At { left })
        }
    }

    /// Takes a number of two bytes, between these bounds.
    pub fn number16(&mut self, low: u16, most: u16) -> Result<u16, Wrong>
        ensures taken { IfOk result (λ read.
            TakesNumber w16 low most (to_be_bytes w16 read) read self.old.left.now self.new.left.now) }
        ensures wrong { IfErr result (IsWrong (number w16 low most) self.old.left.now) }
    {
        let left = self.left.len();
        let read = u16::from_be_bytes(self.array()?);
        if low <= read && read <= most {
            Ok(read)
        } else {
            Err(Wrong::At { left })
        }
    }

    /// Takes a number of four bytes, of at most this.
    pub fn number32(&mut self, most: u32) -> Result<u32, Wrong>
        ensures taken { IfOk result (λ read.
            TakesNumber w32 0 most (to_be_bytes w32 read) read self.old.left.now self.new.left.now) }
        ensures wrong { IfErr result (IsWrong (number w32 0 most) self.old.left.now) }
    {
        let left = self.left.len();
        let read = u32::from_be_bytes(self.array()?);
        if read <= most {
            Ok(read)
        } else {
            Err(Wrong::At { left })
        }
    }

    /// Takes a number of eight bytes, of at most this.
    pub fn number64(&mut self, most: u64) -> Result<u64, Wrong>
        ensures taken { IfOk result (λ read.
            TakesNumber w64 0 most (to_be_bytes w64 read) read self.old.left.now self.new.left.now) }
        ensures wrong { IfErr result (IsWrong (number w64 0 most) self.old.left.now) }
    {
        let left = self.left.len();
        let read = u64::from_be_bytes(self.array()?);
        if read <= most {
            Ok(read)
        } else {
            Err(Wrong::At { left })
        }
    }

    /// Takes bytes behind their number in two bytes.
    pub fn text(&mut self, low: u16, most: u16) -> Result<&'a [u8], Wrong>
        ensures taken { IfOk result (λ read.
            TakesField (text low most) (text_bytes read.now) self.old.left.now self.new.left.now) }
        ensures low { IfOk result (λ read. low ≤ length read.now) }
        ensures most { IfOk result (λ read. length read.now ≤ most) }
        ensures wrong { IfErr result (IsWrong (text low most) self.old.left.now) }
    {
        let size = self.number16(low, most)?;
        self.take(size as usize)
    }

    /// Takes bytes behind their number in four bytes.
    pub fn long(&mut self, most: u32) -> Result<&'a [u8], Wrong>
        ensures taken { IfOk result (λ read.
            TakesField (long most) (long_bytes read.now) self.old.left.now self.new.left.now) }
        ensures most { IfOk result (λ read. length read.now ≤ most) }
        ensures wrong { IfErr result (IsWrong (long most) self.old.left.now) }
    {
        let size = self.number32(most)?;
        self.take(size as usize)
    }
}
