//! The check of a signature that takes the message in pieces.

ghost use Rattle.std.specs.Prelude.{◌≡◌, ◌++◌, ℕ, List, [], Some, IfOk, IfErr};
ghost use Rattle.sz_lms.specs.Parts.{rules_before_message};
ghost use Rattle.sz_lms.specs.Rules.{first_failing, hss_first, hss_rules, root_rules};
ghost use Rattle.sz_lms.specs.View.{broken_rule, rule_of};

use crate::HssFault;
use crate::hss::{check_upper_levels, last_level, levels_below};
use crate::level::Level;
use sha2::{Digest, Sha256};

/// A check of an HSS signature that takes the message in pieces (RFC 8554 section 6.3). The pieces may be cut
/// anywhere, and there may be none; the answer is that of `hss_verify` on all of them together. Contracts speak of
/// a check by `Checks`, which names its public key, its signature and the message so far.
#[derive(Drop)]
pub struct HssCheck<'a> {
    last: Level<'a>,
    hasher: Sha256,
}

impl<'a> HssCheck<'a> {
    ghost use Rattle.sz_lms.specs.Check.{Checks};

    /// Begins a check, before any of the message. Each rule in which the message has no part is tested here:
    /// all but the one on the last level's root.
    pub fn begin(public: &'a [u8], signature: &'a [u8]) -> Result<HssCheck<'a>, HssFault>
        ensures ok { IfOk result (λ check. Checks check public.now signature.now []) }
        ensures err { IfErr result (λ fault. (message : List ℕ)
            → hss_first public.now message signature.now ≡ Some (rule_of fault)) }
        ensures first { broken_rule result ≡ first_failing (rules_before_message public.now signature.now) }
    {
        let last = checked_last_level(public, signature)?;
        let hasher = last.message_hasher();
        Ok(HssCheck { last, hasher })
    }

    /// Takes the next piece of the message.
    pub fn update(&mut self, piece: &[u8])
        ensures { (public signature message : List ℕ) → Checks self.old public signature message
            → Checks self.new public signature (message ++ piece.now) }
    {
        self.hasher.update(piece);
    }

    /// The answer on all pieces together.
    pub fn finish(self) -> Result<(), HssFault>
        ensures { (public signature message : List ℕ) → Checks self.entry public signature message
            → broken_rule result ≡ hss_first public message signature }
    {
        let digest = self.hasher.finalize();
        self.last.check_digest(&digest)
    }
}

// The last level, once all rules hold in which the message has no part.
fn checked_last_level<'a>(public: &'a [u8], signature: &'a [u8]) -> Result<Level<'a>, HssFault>
    ensures first { broken_rule result ≡ first_failing (rules_before_message public.now signature.now) }
    ensures left { IfOk result (λ last. (message : List ℕ) → hss_rules public.now message signature.now
        ≡ rules_before_message public.now signature.now ++ root_rules last.key.now message last.bytes.now) }
{
    let below = levels_below(public, signature)?;
    let top = Level::read(&public[4..], &signature[4..])?;
    let last = last_level(&top, below)?;
    check_upper_levels(&top, below)?;
    Ok(last)
}
