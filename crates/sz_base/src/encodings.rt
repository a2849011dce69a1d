//! The readers of bytes written as text: pairs of hexadecimal digits, and base64.

ghost use Rattle.std.specs.Prelude.{◌≡◌, ◌+◌, ◌*◌, ◌<◌, ◌↔◌, ℕ, List, length, slice_index, IfSome, IfNone, IsNone, IsTrue};
ghost use Rattle.sz_base.specs.Encoding.{IsBase64, IsBase64Of, IsBase64Text, IsColonHex, IsPair};
ghost use Rattle.sz_base.specs.Reading.{ReadsValue};

use crate::{BaseFault, Bytes};
use base64::DecodeAllocError;
use base64::engine::general_purpose::STANDARD;
use hex::FromHex;
use std::alloc::Global;

// How many bytes four symbols stand for that are not padded.
const WHOLE_GROUP: usize = 3;

/// The 32 bytes of a text of 32 pairs of hexadecimal digits, in either case, joined by colons. `None`
/// exactly where the text is none. Takes no memory.
pub fn colon_hex(text: &[u8]) -> Option<[u8; 32]>
    ensures some { IfSome result (IsColonHex text.now) }
    ensures none { IsNone result ↔ ((bytes : List ℕ) → ¬ IsColonHex text.now bytes) }
{
    if text.len() != 95 {
        return None;
    }
    let mut bytes = [0; 32];
    for k in 0..32 {
        bytes[k] = pair_at(text, k)?;
    }
    Some(bytes)
}

// the byte of the pair at place k, which a colon follows unless it is the last
fn pair_at(text: &[u8], k: usize) -> Option<u8>
    requires size { length text.now ≡ 95 }
    requires place { k < 32 }
    ensures some { IfSome result (IsPair (slice_index text.now (3 * k)) (slice_index text.now (3 * k + 1))) }
    ensures colon { IfSome result (λ _. k < 31 → slice_index text.now (3 * k + 2) ≡ 58) }
    ensures none { IfNone result ((bytes : List ℕ) → ¬ IsColonHex text.now bytes) }
{
    if k < 31 && text[3 * k + 2] != b':' {
        return None;
    }
    pair(text[3 * k], text[3 * k + 1])
}

// the byte that two hexadecimal digits stand for
fn pair(high: u8, low: u8) -> Option<u8>
    ensures some { IfSome result (IsPair high low) }
    ensures none { IfNone result ((byte : ℕ) → ¬ IsPair high low byte) }
{
    match <[u8; 1] as FromHex>::from_hex([high, low]) {
        Ok(bytes) => Some(bytes[0]),
        Err(_) => None,
    }
}

/// Reads base64 (RFC 4648, section 4) with its padding, no spare bits and nothing else, so that a text has
/// one reading and bytes have one text. `Form` exactly where the text is none, which shows before memory
/// is asked for.
pub fn base64_bytes(alloc: Global, text: &[u8]) -> Result<Bytes, BaseFault>
    ensures reads { ReadsValue (IsBase64 text.now) result }
{
    if !is_base64(text) {
        return Err(BaseFault::Form);
    }
    match STANDARD.decode(alloc, text) {
        Ok(bytes) => Ok(Bytes::from_vec(bytes)),
        Err(DecodeAllocError::OutOfMemory) => Err(BaseFault::OutOfMemory),
        Err(DecodeAllocError::DecodeError(_)) => unreachable!(),
    }
}

// The text is base64, four symbols after four, where the last four alone may stand for fewer than three bytes.
fn is_base64(text: &[u8]) -> bool
    ensures { IsTrue result ↔ IsBase64Text text.now }
{
    let mut rest = text;
    while let Some((four, after)) = rest.split_first_chunk::<4>() {
        let Some(size) = group_size(four) else {
            return false;
        };
        if size != WHOLE_GROUP && !after.is_empty() {
            return false;
        }
        rest = after;
    }
    rest.is_empty()
}

// how many bytes the four symbols stand for
fn group_size(four: &[u8; 4]) -> Option<usize>
    ensures some { IfSome result (IsBase64Of four.now) }
    ensures none { IfNone result (¬ IsBase64Text four.now) }
{
    let mut bytes = [0; 3];
    STANDARD.decode_slice(four, &mut bytes).ok()
}
