//! Writing over a part of a buffer.

ghost use Rattle.std.specs.Prelude.{◌≡◌, ◌+◌, ◌≤◌, ◌++◌, length, take, drop};

/// Writes bytes over those of a buffer, from a place on.
#[inline(always)]
pub(crate) fn put(buffer: &mut [u8], at: usize, bytes: &[u8])
    requires { at + length bytes.now ≤ length buffer.old }
    ensures { buffer.new ≡ take at buffer.old ++ bytes.now ++ drop (at + length bytes.now) buffer.old }
{
    buffer[at..at + bytes.len()].copy_from_slice(bytes);
}
