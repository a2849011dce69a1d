//! The key that a one-time signature leads to (RFC 8554 section 4.6).

ghost use Rattle.std.specs.Prelude.{◌≡◌, ◌-◌, ◌*◌, ◌^◌, ◌<◌, length, take, drop};
ghost use Rattle.sz_lms.specs.Bits.{digit, values_of};
ghost use Rattle.sz_lms.specs.Ots.{chain, key_of_digest, message_digest};
ghost use Rattle.sz_lms.specs.View.{facts_of};

use crate::OtsType;
use crate::bytes::array_at;
use crate::chain::run_chain;
use crate::digits::{digit, signed_bytes};
use crate::hash::{key_hasher, message_hasher};
use sha2::Digest;

/// Q, which is signed in place of the message (RFC 8554 section 4.5).
pub fn message_digest(id: &[u8; 16], q: u32, randomizer: &[u8], message: &[u8]) -> [u8; 32]
    ensures { result ≡ message_digest id.now q randomizer.now message.now }
{
    let mut hasher = message_hasher(id, q, randomizer);
    hasher.update(message);
    hasher.finalize()
}

// The end of chain `i`: its value is taken from its digit to the last step.
fn chain_end(
    kind: OtsType,
    id: &[u8; 16],
    q: u32,
    signed: &[u8; 34],
    i: u16,
    values: &[u8],
) -> [u8; 32]
    requires within { i < (facts_of kind).chains }
    requires values { length values.now ≡ 32 * (facts_of kind).chains }
    ensures { let from = digit (facts_of kind).width signed.now i in
        result ≡ chain id.now q i from (2 ^ (facts_of kind).width - 1 - from) (take 32 (drop (32 * i) values.now)) }
{
    let from = digit(kind, signed, i);
    let value = array_at(values, 32 * usize::from(i));
    run_chain(id, q, i, from, kind.last_digit(), &value)
}

/// The one-time public key that the values of a signature of Q lead to (RFC 8554 section 4.6, algorithm 4b).
pub(crate) fn key_of_digest(
    kind: OtsType,
    id: &[u8; 16],
    q: u32,
    digest: &[u8; 32],
    values: &[u8],
) -> [u8; 32]
    requires { length values.now ≡ 32 * (facts_of kind).chains }
    ensures { result
        ≡ key_of_digest id.now q (facts_of kind) (values_of (facts_of kind).chains values.now) digest.now }
{
    let signed = signed_bytes(kind, digest);
    let mut hasher = key_hasher(id, q);
    for i in 0..kind.chains() {
        hasher.update(chain_end(kind, id, q, &signed, i, values));
    }
    hasher.finalize()
}
