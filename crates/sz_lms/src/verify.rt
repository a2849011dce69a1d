//! The verdict on a whole signature, of several levels, of one tree and of one leaf.

ghost use Rattle.std.specs.Prelude.{◌≡◌, ◌↔◌, IsOk, Some, IfOk, length};
ghost use Rattle.std.specs.Option.{option_map};
ghost use Rattle.sz_lms.specs.Bits.{u32_at};
ghost use Rattle.sz_lms.specs.Hss.{HssOk};
ghost use Rattle.sz_lms.specs.Lms.{LmsOk};
ghost use Rattle.sz_lms.specs.Ots.{ots_type};
ghost use Rattle.sz_lms.specs.Rules.{first_failing, hss_first, lms_first, ots_key_at, ots_length, ots_rules};
ghost use Rattle.sz_lms.specs.View.{broken_rule, facts_of};

use crate::bytes::u32_at;
use crate::level::{KEY_LENGTH, Level};
use crate::ots::{key_of_digest, message_digest};
use crate::{HssCheck, HssFault, OtsType};

/// Whether a signature is one of the message under an HSS public key of 60 bytes (RFC 8554 section 6.3).
/// Otherwise the first rule that it breaks: all rules on lengths, types and leaf numbers come from the front,
/// level by level, and only then those on the roots.
pub fn hss_verify(public: &[u8], message: &[u8], signature: &[u8]) -> Result<(), HssFault>
    ensures exact { broken_rule result ≡ hss_first public.now message.now signature.now }
    ensures valid { IsOk result ↔ HssOk public.now message.now signature.now }
{
    let mut check = HssCheck::begin(public, signature)?;
    check.update(message);
    check.finish()
}

/// Whether a signature is one of the message under an LMS public key of 56 bytes (RFC 8554 section 5.4.2).
/// Otherwise the first rule that it breaks.
pub fn lms_verify(public: &[u8], message: &[u8], signature: &[u8]) -> Result<(), HssFault>
    ensures exact { broken_rule result ≡ lms_first public.now message.now signature.now }
    ensures valid { IsOk result ↔ LmsOk public.now message.now signature.now }
{
    if public.len() != KEY_LENGTH {
        return Err(HssFault::Length);
    }
    let level = Level::read(public, signature)?;
    level.check_end()?;
    level.check_message(message)
}

/// The public key that a one-time signature of the message leads to, made with this leaf of the tree with
/// this identifier (RFC 8554 section 4.6, algorithm 4b).
pub fn ots_candidate(
    id: &[u8; 16],
    leaf: u32,
    signature: &[u8],
    message: &[u8],
) -> Result<[u8; 32], HssFault>
    ensures first { broken_rule result ≡ first_failing (ots_rules signature.now) }
    ensures key { IfOk result (λ key.
        option_map (λ type. ots_key_at id.now leaf type signature.now message.now) (ots_type (u32_at signature.now 0))
        ≡ Some key) }
{
    let kind = one_time_type(signature)?;
    let digest = message_digest(id, leaf, &signature[4..36], message);
    Ok(key_of_digest(kind, id, leaf, &digest, &signature[36..]))
}

// The type of a one-time signature, once its length is that of the type.
#[tactic(auto, unfolding(crate::specs::Rules::first_failing))]
fn one_time_type(signature: &[u8]) -> Result<OtsType, HssFault>
    ensures first { broken_rule result ≡ first_failing (ots_rules signature.now) }
    ensures known { IfOk result (λ kind. ots_type (u32_at signature.now 0) ≡ Some (facts_of kind)) }
    ensures whole { IfOk result (λ kind. length signature.now ≡ ots_length (facts_of kind)) }
{
    if signature.len() < 4 {
        return Err(HssFault::Length);
    }
    let Some(kind) = OtsType::from_code(u32_at(signature, 0)) else {
        return Err(HssFault::Scheme);
    };
    if signature.len() == 36 + 32 * usize::from(kind.chains()) {
        Ok(kind)
    } else {
        Err(HssFault::Length)
    }
}
