//! A law of offers: the contract of a function that does nothing.

ghost use Rattle.std.specs.Prelude.{IfSome};
ghost use Rattle.sz_base.specs.declared.evidence.Evidence.{Evidence};
ghost use Rattle.sz_base.specs.declared.identity.Identity.{Identity};
ghost use Rattle.sz_base.specs.declared.moment.Moment.{Moment};
ghost use Rattle.sz_artifacts.specs.declared.conveyed.onboarding.Onboarding.{Onboarding};
ghost use Rattle.sz_evidence.specs.Authorised.{Authorised};
ghost use Rattle.sz_state.specs.Change.{HasShortNames};

/// Information that evidence authorises has short names for its boot image, as a trial asks.
pub fn authorised_names_are_short()
    ensures { (identity : Identity) (when : Moment) (evidence : Evidence) (onboarding : Onboarding)
        → Authorised identity when evidence onboarding → IfSome onboarding.image HasShortNames }
{}
