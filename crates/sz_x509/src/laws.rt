//! Laws of the definitions that the contracts cite. Each is the contract of a function that does nothing.

ghost use Rattle.std.specs.Prelude.{◌≡◌, ◌↔◌, List, ℕ, None};
ghost use Rattle.sz_der.specs.Der.{AreOctets};
ghost use Rattle.sz_x509.specs.CertFault.{cert_fault};
ghost use Rattle.sz_x509.specs.Certificate.{Certificate, CertOf};
ghost use Rattle.sz_x509.specs.CrlFault.{crl_fault};
ghost use Rattle.sz_x509.specs.RevocationList.{CrlOf, RevocationList};

/// Octets have no fault exactly where they are those of a certificate, and of one alone.
pub fn fault_or_certificate()
    ensures exactly { (bytes : List ℕ) → AreOctets bytes
        → ((cert_fault bytes ≡ None) ↔ ((fields : Certificate) × CertOf bytes fields)) }
    ensures one_certificate { (bytes : List ℕ) (fields other : Certificate)
        → CertOf bytes fields → CertOf bytes other → fields ≡ other }
{}

/// Octets have no fault as a list exactly where they are those of a revocation list, and of one alone.
pub fn fault_or_list()
    ensures exactly { (bytes : List ℕ) → AreOctets bytes
        → ((crl_fault bytes ≡ None) ↔ ((fields : RevocationList) × CrlOf bytes fields)) }
    ensures one_list { (bytes : List ℕ) (fields other : RevocationList)
        → CrlOf bytes fields → CrlOf bytes other → fields ≡ other }
{}
