//! Laws of the judgement and of identity files. Each is the contract of a function that does nothing.

ghost use Rattle.std.specs.Prelude.{◌≡◌, ◌↔◌, ◌≤ℤ◌, List, ℕ, Result, Ok, Some, IfSome};
ghost use Rattle.sz_base.specs.declared.evidence.Evidence.{Evidence};
ghost use Rattle.sz_base.specs.declared.identity.Identity.{Identity};
ghost use Rattle.sz_base.specs.declared.moment.Moment.{Moment};
ghost use Rattle.sz_cms.specs.Message.{InfoOf, Plain};
ghost use Rattle.sz_artifacts.specs.declared.conveyed.onboarding.Onboarding.{Onboarding};
ghost use Rattle.sz_evidence.specs.Authorised.{AreBytes, Authorised, CarriesVoucher};
ghost use Rattle.sz_evidence.specs.IdentityFile.{ReadsAs};
ghost use Rattle.sz_evidence.specs.Judgement.{Judgement};
ghost use Rattle.sz_evidence.specs.declared.judgement.Judged.{Judged};
ghost use Rattle.sz_evidence.specs.declared.reason.Reason.{Reason};
ghost use Rattle.sz_json.specs.declared.name.Name.{Name};
ghost use Rattle.sz_artifacts.specs.declared.voucher.Voucher.{Voucher};

/// The judgement is one answer: evidence has no two judgements, and, where its artifacts are bytes, is never without
/// one.
pub fn judgements_are_single()
    ensures one_answer { (identity : Identity) (when : Moment) (evidence : Evidence)
        (answer other : Result Judged Reason) → Judgement identity when evidence answer
        → Judgement identity when evidence other → answer ≡ other }
    ensures never_none { (identity : Identity) (when : Moment) (evidence : Evidence) → AreBytes evidence
        → ¬ ((answer : Result Judged Reason) → ¬ (Judgement identity when evidence answer)) }
{}

/// The judgement is onboarding information exactly where this is authorised.
pub fn judged_onboarding_is_authorised()
    ensures { (identity : Identity) (when : Moment) (evidence : Evidence) (onboarding : Onboarding)
        → Judgement identity when evidence (Ok (Judged.Onboarding onboarding))
        ↔ Authorised identity when evidence onboarding }
{}

/// Evidence authorises one piece of onboarding information.
pub fn evidence_authorises_one()
    ensures { (identity : Identity) (when : Moment) (evidence : Evidence) (onboarding other : Onboarding)
        → Authorised identity when evidence onboarding → Authorised identity when evidence other
        → onboarding ≡ other }
{}

/// Nothing that is not signed is ever authorised.
pub fn unsigned_is_not_authorised()
    ensures { (identity : Identity) (when : Moment) (evidence : Evidence) (onboarding : Onboarding)
        (kind content : List ℕ) → InfoOf evidence.ci (Plain kind content)
        → ¬ (Authorised identity when evidence onboarding) }
{}

/// Nothing is ever authorised by a voucher for another serial number.
pub fn authorised_is_for_the_serial_number()
    ensures { (identity : Identity) (when : Moment) (evidence : Evidence) (onboarding : Onboarding)
        (voucher : Voucher) → Authorised identity when evidence onboarding → CarriesVoucher evidence.ov voucher
        → voucher.serial ≡ identity.serial }
{}

/// Nothing is ever authorised by a voucher that has expired.
pub fn authorised_has_not_expired()
    ensures { (identity : Identity) (when : Moment) (evidence : Evidence) (onboarding : Onboarding)
        (voucher : Voucher) → Authorised identity when evidence onboarding → CarriesVoucher evidence.ov voucher
        → IfSome voucher.expires_on (λ end. when.time.0 ≤ℤ end.0) }
{}

/// Nothing is ever authorised by a voucher with a nonce at a moment that has another nonce or none.
pub fn authorised_has_the_nonce()
    ensures { (identity : Identity) (when : Moment) (evidence : Evidence) (onboarding : Onboarding)
        (voucher : Voucher) → Authorised identity when evidence onboarding → CarriesVoucher evidence.ov voucher
        → IfSome voucher.nonce (λ nonce. when.nonce ≡ Some nonce) }
{}

/// A file is read as one identity or refused by one name: it is never read as both or in two ways, and never as
/// nothing.
pub fn identities_are_single()
    ensures one_answer { (bytes : List ℕ) (answer other : Result Identity Name) → ReadsAs bytes answer
        → ReadsAs bytes other → answer ≡ other }
    ensures never_none { (bytes : List ℕ) → ¬ ((answer : Result Identity Name) → ¬ (ReadsAs bytes answer)) }
{}
