//! The size of a chunk, digit by digit.

ghost use Rattle.std.specs.Prelude.{◌≡◌, ◌+◌, ◌*◌, ◌^◌, ◌<◌, ◌≤◌, IfSome, IfNone};

/// How many digits a chunk's size may have.
const MOST_DIGITS: u16 = 16;

/// The number that the hexadecimal digits so far write.
#[derive(Clone, Copy)]
pub(crate) struct Size {
    /// How many digits there are.
    pub(crate) count: u16,
    pub(crate) value: u64,
    ghost few: { count ≤ 16 },
    ghost fits: { value < 16 ^ count },
}

impl Size {
    /// Before the first digit.
    pub(crate) fn none() -> Size
        ensures count { result.count ≡ 0 }
        ensures value { result.value ≡ 0 }
    {
        Size { count: 0, value: 0 }
    }

    /// The size with one more digit, or nothing where there are 16.
    pub(crate) fn with(self, digit: u64) -> Option<Size>
        requires { digit < 16 }
        ensures value { IfSome result (λ size. size.value ≡ self.value * 16 + digit) }
        ensures count { IfSome result (λ size. size.count ≡ self.count + 1) }
        ensures full { IfNone result (self.count ≡ 16) }
    {
        if self.count >= MOST_DIGITS {
            return None;
        }
        Some(Size {
            count: self.count + 1,
            value: self.value * 16 + digit,
        })
    }
}
