//! What stands at a place of bytes.

ghost use Rattle.std.specs.Prelude.{◌≡◌, ◌+◌, ◌≤◌, length, drop, take};
ghost use Rattle.sz_lms.specs.Bits.{u32_at};

/// The number in the four bytes at a place, the highest first.
pub(crate) fn u32_at(bytes: &[u8], at: usize) -> u32
    requires { at + 4 ≤ length bytes.now }
    ensures { result ≡ u32_at bytes.now at }
{
    u32::from_be_bytes([bytes[at], bytes[at + 1], bytes[at + 2], bytes[at + 3]])
}

/// So many bytes at a place.
pub(crate) fn array_at<const N: usize>(bytes: &[u8], at: usize) -> [u8; N]
    requires { at + N ≤ length bytes.now }
    ensures { result ≡ take N (drop at bytes.now) }
{
    let mut array = [0; N];
    array.copy_from_slice(&bytes[at..at + N]);
    array
}
