//! The digits that a one-time signature runs its chains by (RFC 8554 sections 3.1.3 and 4.4).

ghost use Rattle.std.specs.Prelude.{◌≡◌, ◌+◌, ◌-◌, ◌*◌, ◌/◌, ◌%◌, ◌^◌, ◌<◌};
ghost use Rattle.sz_lms.specs.Bits.{digit};
ghost use Rattle.sz_lms.specs.Ots.{checksum, signed_bytes};
ghost use Rattle.sz_lms.specs.View.{facts_of};
ghost use Rattle.sz_lms.specs.Ots.{missing_of};

use crate::OtsType;
use crate::buffer::put;

/// Digit `i` of bytes, in the type's width (RFC 8554 section 3.1.3). Past the last one it is 0.
#[inline]
pub fn digit(kind: OtsType, bytes: &[u8], i: u16) -> u8
    ensures value { result ≡ digit (facts_of kind).width bytes.now i }
    ensures below { result < 2 ^ (facts_of kind).width }
{
    let width = kind.width();
    let bit = width * usize::from(i);
    let Some(byte) = bytes.get(bit / 8) else {
        return 0;
    };
    (byte >> (8 - width - bit % 8)) & kind.last_digit()
}

// How much the digits of Q lack of being the greatest, all together.
fn missing_sum(kind: OtsType, digest: &[u8; 32]) -> u16
    ensures sum { result ≡ missing_of (facts_of kind) digest.now }
    ensures small { result * 2 ^ (facts_of kind).shift < 2 ^ 16 }
{
    let count = kind.digest_digits();
    let mut missing = 0u16;
    for i in 0..count {
        missing += u16::from(kind.last_digit() - digit(kind, digest, i));
    }
    missing
}

/// What the chains of a one-time signature run by: Q and its checksum (RFC 8554 section 4.4).
pub fn signed_bytes(kind: OtsType, digest: &[u8; 32]) -> [u8; 34]
    ensures { result ≡ signed_bytes (facts_of kind) digest.now }
{
    let checksum = missing_sum(kind, digest) << kind.shift();
    let mut signed = [0u8; 34];
    put(&mut signed, 0, digest);
    put(&mut signed, 32, &checksum.to_be_bytes());
    signed
}
