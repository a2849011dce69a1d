//! The readers of numbers in decimal.

ghost use Rattle.std.specs.Prelude.{◌↔◌, ℕ, IsTrue, IfSome, IsNone};
ghost use Rattle.sz_base.specs.Number.{IsNumber, IsNumeral};
ghost use Rattle.sz_base.specs.Target.{IsPort};

/// Reads a number of 64 bits in decimal, without a sign and without leading zeros. `None` exactly where
/// the text is none.
pub fn number(text: &[u8]) -> Option<u64>
    ensures some { IfSome result (IsNumber text.now) }
    ensures none { IsNone result ↔ ((n : ℕ) → ¬ IsNumber text.now n) }
{
    if !is_numeral(text) {
        return None;
    }
    let Ok(digits) = str::from_utf8(text) else {
        return None;
    };
    digits.parse().ok()
}

/// Reads a port from 1 to 65535 in decimal. `None` exactly where the text is none.
pub(crate) fn port(text: &[u8]) -> Option<u16>
    ensures some { IfSome result (IsPort text.now) }
    ensures none { IsNone result ↔ ((port : ℕ) → ¬ IsPort text.now port) }
{
    let port = u16::try_from(number(text)?).ok()?;
    if port == 0 { None } else { Some(port) }
}

fn is_numeral(text: &[u8]) -> bool
    ensures { IsTrue result ↔ IsNumeral text.now }
{
    !text.is_empty()
        && text.iter().all(|byte| byte.is_ascii_digit())
        && (text.len() == 1 || text[0] != b'0')
}
