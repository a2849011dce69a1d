//! Certificates (RFC 5280 section 4.1) with HSS/LMS keys and signatures (RFC 8708).

ghost use Rattle.std.specs.Prelude.{◌≡◌, None, Some, IfOk, IfErr, IsOkAnd, OnOk};
ghost use Rattle.sz_der.specs.Spots.{at};
ghost use Rattle.sz_x509.specs.CertFault.{cert_fault};
ghost use Rattle.sz_x509.specs.CertPlaces.{FieldsAt};
ghost use Rattle.sz_x509.specs.Certificate.{Certificate, CertOf};
ghost use Rattle.sz_x509.specs.View.{view};

use crate::parts::{take_algorithm, take_octets};
use crate::tbs::read_tbs;
use crate::{CertFault, CertKind};
use sz_base::Seconds;
use sz_der::DerReader;
use sz_der::parts::{expect_end, open_part, parts_of, take_part};
use sz_der::tag::SEQUENCE;

/// A certificate. Its parts are slices of the bytes that it was read from.
#[derive(Clone, Copy, Debug, PartialEq, Eq)]
pub struct Cert<'a> {
    /// The whole certificate.
    pub whole: &'a [u8],
    /// TBSCertificate, which the signature covers, as a whole item.
    pub tbs: &'a [u8],
    /// The octets of the serial number's INTEGER.
    pub serial: &'a [u8],
    /// The issuer's name, as a whole item.
    pub issuer: &'a [u8],
    /// The first second at which the certificate is valid.
    pub not_before: Seconds,
    /// The last second at which the certificate is valid.
    pub not_after: Seconds,
    /// The subject's name, as a whole item.
    pub subject: &'a [u8],
    /// The HSS public key, of 60 bytes.
    pub key: &'a [u8],
    /// The subject may issue certificates (RFC 5280 section 4.2.1.9).
    pub ca: bool,
    /// How many certificates that are not self-issued may stand below (RFC 5280 section 4.2.1.9).
    pub path_len: Option<u32>,
    /// What the key may be used for, bit k as 2^k (RFC 5280 section 4.2.1.3).
    pub usage: Option<u16>,
    /// The subject's key identifier (RFC 5280 section 4.2.1.2).
    pub key_id: Option<&'a [u8]>,
    /// The HSS signature.
    pub signature: &'a [u8],
}

impl<'a> Cert<'a> {
    /// The certificate that the bytes are, from the first to the last of them. Takes no memory. A fault is that of the
    /// first item in the order of the bytes at which no certificate continues, with the place of its tag.
    pub fn read(bytes: &'a [u8]) -> Result<Self, CertFault>
        ensures ok { IfOk result (λ cert. CertOf bytes.entry.now (view cert)) }
        ensures only { (fields : Certificate) → CertOf bytes.entry.now fields
            → IsOkAnd result (λ cert. view cert ≡ fields) }
        ensures no_fault { OnOk result (cert_fault bytes.entry.now ≡ None) }
        ensures fault { IfErr result (λ fault. cert_fault bytes.entry.now ≡ Some (at fault)) }
    {
        read_parts(bytes)
    }
}

// Reads each part at its place.
fn read_parts(bytes: &[u8]) -> Result<Cert<'_>, CertFault>
    ensures ok { OnOk result (cert_fault bytes.now ≡ None) }
    ensures fields { IfOk result (λ cert. FieldsAt bytes.now (view cert)) }
    ensures fault { IfErr result (λ fault. cert_fault bytes.now ≡ Some (at fault)) }
{
    let mut outer = DerReader::over(bytes);
    let mut parts = open_part(&mut outer, SEQUENCE, CertKind::Der)?;
    let tbs = take_part(&mut parts, SEQUENCE, CertKind::Der)?;
    let fields = read_tbs(&parts_of(&tbs))?;
    take_algorithm(&mut parts)?;
    let (_, signature) = take_octets(&mut parts, CertKind::Der)?;
    expect_end(&parts, CertKind::Der)?;
    expect_end(&outer, CertKind::Der)?;
    Ok(Cert {
        whole: bytes,
        tbs: tbs.whole,
        serial: fields.serial,
        issuer: fields.issuer,
        not_before: fields.not_before,
        not_after: fields.not_after,
        subject: fields.subject,
        key: fields.key,
        ca: fields.restrictions.ca,
        path_len: fields.restrictions.path_len,
        usage: fields.restrictions.usage,
        key_id: fields.restrictions.key_id,
        signature,
    })
}
