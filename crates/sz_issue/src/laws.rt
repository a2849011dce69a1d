//! The law of the writers. It is the contract of a function that does nothing.

ghost use Rattle.std.specs.Prelude.{◌≡◌, List, ℕ};
ghost use Rattle.sz_issue.specs.Certificate.{CertValues, IsWrittenTbs};
ghost use Rattle.sz_issue.specs.Parts.{IsSignedForm};
ghost use Rattle.sz_issue.specs.RevocationList.{CrlValues, IsWrittenTbsList};

/// What is written of given values is one string of bytes.
pub fn written_once()
    ensures tbs { (values : CertValues) (bytes other : List ℕ) → IsWrittenTbs values bytes
        → IsWrittenTbs values other → bytes ≡ other }
    ensures list { (values : CrlValues) (bytes other : List ℕ) → IsWrittenTbsList values bytes
        → IsWrittenTbsList values other → bytes ≡ other }
    ensures signed { (tbs signature bytes other : List ℕ) → IsSignedForm tbs signature bytes
        → IsSignedForm tbs signature other → bytes ≡ other }
{}
