//! Revocation lists (RFC 5280 section 5) with HSS/LMS signatures (RFC 8708).

ghost use Rattle.std.specs.Prelude.{◌≡◌, None, Some, ℕ, List, IfOk, IfErr, IsOkAnd, OnOk};
ghost use Rattle.sz_der.specs.Spots.{at};
ghost use Rattle.sz_x509.specs.CrlFault.{crl_fault};
ghost use Rattle.sz_x509.specs.CrlPlaces.{CrlAt};
ghost use Rattle.sz_x509.specs.RevocationList.{AreEntries, CrlOf, is_listed, RevocationList};
ghost use Rattle.sz_x509.specs.CrlView.{list_view};

use crate::entries::take_serial;
use crate::parts::{take_algorithm, take_octets};
use crate::tbs_list::read_list;
use crate::{CertFault, CertKind};
use sz_base::Seconds;
use sz_der::DerReader;
use sz_der::parts::{expect_end, open_part, parts_of, take_part};
use sz_der::tag::SEQUENCE;

/// A revocation list. Its parts are slices of the bytes that it was read from.
#[derive(Clone, Copy, Debug, PartialEq, Eq)]
pub struct Crl<'a> {
    /// The whole list.
    pub whole: &'a [u8],
    /// TBSCertList, which the signature covers, as a whole item.
    pub tbs: &'a [u8],
    /// The issuer's name, as a whole item.
    pub issuer: &'a [u8],
    /// When the list was issued.
    pub this_update: Seconds,
    /// When the next one will be issued at the latest.
    pub next_update: Option<Seconds>,
    /// The entries, one item after another.
    pub entries: &'a [u8],
    /// The HSS signature.
    pub signature: &'a [u8],
}

impl<'a> Crl<'a> {
    /// The revocation list that the bytes are, from the first to the last of them. Takes no memory. A fault is that of
    /// the first item in the order of the bytes at which no list continues, with the place of its tag.
    pub fn read(bytes: &'a [u8]) -> Result<Self, CertFault>
        ensures ok { IfOk result (λ list. CrlOf bytes.entry.now (list_view list)) }
        ensures only { (fields : RevocationList) → CrlOf bytes.entry.now fields
            → IsOkAnd result (λ list. list_view list ≡ fields) }
        ensures no_fault { OnOk result (crl_fault bytes.entry.now ≡ None) }
        ensures fault { IfErr result (λ fault. crl_fault bytes.entry.now ≡ Some (at fault)) }
    {
        read_parts(bytes)
    }

    /// An entry has this serial number, as the octets of its INTEGER. Takes no memory.
    pub fn lists(&self, serial: &[u8]) -> bool
        ensures { (serials : List (List ℕ)) → AreEntries serials self.now.entries.now
            → result ≡ is_listed serial.now serials }
    {
        let mut reader = DerReader::over(self.entries);
        while !reader.is_at_end() {
            match take_serial(&mut reader) {
                Ok(other) if other == serial => return true,
                Ok(_) => {}
                Err(_) => return false,
            }
        }
        false
    }
}

// Reads each part at its place.
fn read_parts(bytes: &[u8]) -> Result<Crl<'_>, CertFault>
    ensures ok { OnOk result (crl_fault bytes.now ≡ None) }
    ensures fields { IfOk result (λ list. CrlAt bytes.now (list_view list)) }
    ensures fault { IfErr result (λ fault. crl_fault bytes.now ≡ Some (at fault)) }
{
    let mut outer = DerReader::over(bytes);
    let mut parts = open_part(&mut outer, SEQUENCE, CertKind::Der)?;
    let tbs = take_part(&mut parts, SEQUENCE, CertKind::Der)?;
    let fields = read_list(&parts_of(&tbs))?;
    take_algorithm(&mut parts)?;
    let (_, signature) = take_octets(&mut parts, CertKind::Der)?;
    expect_end(&parts, CertKind::Der)?;
    expect_end(&outer, CertKind::Der)?;
    Ok(Crl {
        whole: bytes,
        tbs: tbs.whole,
        issuer: fields.issuer,
        this_update: fields.this_update,
        next_update: fields.next_update,
        entries: fields.entries,
        signature,
    })
}
