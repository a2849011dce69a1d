//! What a device makes of an offer, as the laws of a walk see it.

use sz_artifacts::Onboarding;
use sz_base::Evidence;
use sz_evidence::Reason;
use sz_io::Exchange;

/// A device that tries offers.
pub trait Tries {
    ghost use Rattle.std.specs.Prelude.{List, Option};
    ghost use Rattle.sz_base.specs.declared.evidence.Evidence.{Evidence};
    ghost use Rattle.sz_artifacts.specs.declared.conveyed.onboarding.Onboarding.{Onboarding};
    ghost use Rattle.sz_evidence.specs.declared.reason.Reason.{Reason};
    ghost use Rattle.sz_io.specs.declared.exchange.Exchange.{Exchange};

    /// Over these exchanges of downloads the device turns the offer down for a reason, or takes it where there is none.
    ghost tries: { Self → Onboarding → Evidence → List Exchange → Option Reason → Type 0 };
}
