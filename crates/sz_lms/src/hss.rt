//! The rules on all levels of a signature, from the front (RFC 8554 section 6.3).

ghost use Rattle.std.specs.Prelude.{◌≡◌, ◌-◌, ◌≤◌, ◌++◌, ℕ, List, None, length, OnOk, IfOk};
ghost use Rattle.sz_lms.specs.Bits.{u32_at};
ghost use Rattle.sz_lms.specs.Parts.{upper_climb_rules};
ghost use Rattle.sz_lms.specs.Rules.{climb_rules, first_failing, head_rules, level_rules, root_rules};
ghost use Rattle.sz_lms.specs.View.{broken_rule};

use crate::HssFault;
use crate::bytes::u32_at;
use crate::level::Level;
use crate::types::KeyTypes;

/// How many bytes a public key has (RFC 8554 section 6.1).
pub const HSS_PUBLIC_LENGTH: usize = 60;

/// The most bytes that a signature has: of eight levels, each with the longest LMS signature (RFC 8554 section 6.2).
pub const LONGEST_SIGNATURE: usize = 74_988;

const MOST_LEVELS: u32 = 8;

/// How many levels stand below the top one, once the rules on their number hold, and the types of the top key
/// are known.
#[tactic(auto, unfolding(crate::specs::Rules::first_failing))]
pub(crate) fn levels_below(public: &[u8], signature: &[u8]) -> Result<u32, HssFault>
    ensures rules { broken_rule result ≡ first_failing (head_rules public.now signature.now) }
    ensures below { IfOk result (λ below. below ≡ u32_at public.now 0 - 1) }
    ensures public { OnOk result (length public.now ≡ HSS_PUBLIC_LENGTH) }
    ensures signature { OnOk result (4 ≤ length signature.now) }
{
    if public.len() != HSS_PUBLIC_LENGTH {
        return Err(HssFault::Length);
    }
    let levels = u32_at(public, 0);
    if levels == 0 || levels > MOST_LEVELS {
        return Err(HssFault::Levels);
    }
    if KeyTypes::read(&public[4..]).is_none() {
        return Err(HssFault::Scheme);
    }
    if signature.len() < 4 {
        return Err(HssFault::Length);
    }
    if u32_at(signature, 0) != levels - 1 {
        return Err(HssFault::Levels);
    }
    Ok(levels - 1)
}

/// The last level, once the rules on lengths, types and leaf numbers hold of it and of all above it.
pub(crate) fn last_level<'a>(top: &Level<'a>, below: u32) -> Result<Level<'a>, HssFault>
    ensures rules { broken_rule result ≡ first_failing (level_rules below top.now.key.now top.now.bytes.now) }
    ensures last { IfOk result (λ last. (message : List ℕ) → climb_rules below top.now.key.now message top.now.bytes.now
        ≡ upper_climb_rules below top.now.key.now top.now.bytes.now
        ++ root_rules last.key.now message last.bytes.now) }
{
    let mut level = *top;
    for _ in 0..below {
        level = level.next()?;
    }
    level.check_end()?;
    Ok(level)
}

/// Each level above the last has to sign the key below it.
pub(crate) fn check_upper_levels(top: &Level<'_>, below: u32) -> Result<(), HssFault>
    requires { first_failing (level_rules below top.now.key.now top.now.bytes.now) ≡ None }
    ensures { broken_rule result ≡ first_failing (upper_climb_rules below top.now.key.now top.now.bytes.now) }
{
    let mut level = *top;
    for _ in 0..below {
        let next = level.next().unwrap();
        level.check_message(next.key)?;
        level = next;
    }
    Ok(())
}
