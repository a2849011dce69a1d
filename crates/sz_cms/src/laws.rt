//! Laws of the definitions that the contracts cite. Each is the contract of a function that does nothing.

ghost use Rattle.std.specs.Prelude.{◌≡◌, ◌↔◌, List, ℕ, None};
ghost use Rattle.sz_der.specs.Der.{AreOctets};
ghost use Rattle.sz_cms.specs.Message.{Info, InfoOf};
ghost use Rattle.sz_cms.specs.MessageFault.{info_fault};
ghost use Rattle.sz_cms.specs.Places.{info_at};
ghost use Rattle.sz_cms.specs.Spelled.{AreWrittenAttributes, AreWrittenCerts, Carried, IsWrittenMessage};
ghost use Rattle.sz_cms.specs.View.{KindsAreApart};

/// Octets have no fault exactly where they are those of a message, and of one alone: that of the items at their places.
pub fn fault_or_message()
    ensures exactly { (bytes : List ℕ) → AreOctets bytes
        → ((info_fault bytes ≡ None) ↔ ((info : Info) × InfoOf bytes info)) }
    ensures one_message { (bytes : List ℕ) (info other : Info)
        → InfoOf bytes info → InfoOf bytes other → info ≡ other }
    ensures places { (bytes : List ℕ) (info : Info) → InfoOf bytes info → info_at bytes ≡ info }
{}

/// Types that have names are told apart by their identifiers, so a type that was read is the one with the identifier.
pub fn kinds_are_apart()
    ensures { KindsAreApart }
{}

/// What is written of given values is one string of bytes.
pub fn written_once()
    ensures attributes { (kind content bytes other : List ℕ) → AreWrittenAttributes kind content bytes
        → AreWrittenAttributes kind content other → bytes ≡ other }
    ensures message { (carried : Carried) (issuer serial attributes signature bytes other : List ℕ)
        → IsWrittenMessage carried issuer serial attributes signature bytes
        → IsWrittenMessage carried issuer serial attributes signature other → bytes ≡ other }
    ensures certs { (certs crls : List (List ℕ)) (bytes other : List ℕ) → AreWrittenCerts certs crls bytes
        → AreWrittenCerts certs crls other → bytes ≡ other }
{}
