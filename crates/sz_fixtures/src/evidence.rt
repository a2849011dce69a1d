//! Keys of fixed secrets, and what they sign: certificates, revocation lists, messages, and the evidence of a device.

ghost use Rattle.sz_cms.specs.Kind.{IsWritten};

use crate::der::{encapsulated, signed_data, signer_info};
use std::alloc::Global;
use std::test::Fail;
use std::thread::Threads;
use sz_base::{Bytes, Certs, Evidence, Numbers, Seconds, Text};
use sz_cms::identifier::DATA;
use sz_cms::{Kind, write_attributes};
use sz_hss::{Key, Levels, Trees};
use sz_issue::{CertSpec, CrlSpec, is_writable, write_cert, write_crl, write_crl_tbs, write_tbs};
use sz_json::{Name, Object, single, write};
use sz_lms_tree::OpenGate;
use sz_x509::Cert;

/// 2020-01-01.
pub const BEGIN: Seconds = Seconds(1_577_836_800);

/// 2040-01-01.
pub const OVER: Seconds = Seconds(2_208_988_800);

/// What a certificate says, and who signs it. Names have one letter, and keys go by their numbers; the serial number is
/// that of the subject's key.
#[derive(Clone, Copy)]
pub struct CertTemplate {
    /// The subject's name.
    pub subject: u8,
    /// The issuer's name.
    pub issuer: u8,
    /// The subject's key.
    pub key: u8,
    /// The key that signs.
    pub by: u8,
    /// The subject may issue certificates.
    pub ca: bool,
    /// How many certificates that are not self-issued may stand below.
    pub path_len: Option<u32>,
    /// The first second at which the certificate is valid.
    pub not_before: Seconds,
    /// The last second at which the certificate is valid.
    pub not_after: Seconds,
    /// What is changed before it is signed.
    pub change: Option<Change>,
}

/// An authority that issues its own certificate, valid from 2020 to 2040.
pub const ROOT: CertTemplate = CertTemplate {
    subject: b'R',
    issuer: b'R',
    key: 1,
    by: 1,
    ca: true,
    path_len: None,
    not_before: BEGIN,
    not_after: OVER,
    change: None,
};

/// A byte behind two others, and what is put in its place.
#[derive(Clone, Copy)]
pub struct Change {
    /// The two bytes before it.
    pub behind: [u8; 2],
    /// The byte.
    pub from: u8,
    /// What is put in its place.
    pub to: u8,
}

/// What a revocation list says, and the key that signs it.
#[derive(Clone, Copy)]
pub struct CrlTemplate {
    /// The issuer's name.
    pub issuer: u8,
    /// The key that signs.
    pub by: u8,
    /// The serial number that is revoked.
    pub serial: u32,
    /// When the list is issued.
    pub this_update: Seconds,
    /// When the next list is issued at the latest.
    pub next_update: Option<Seconds>,
}

/// What evidence is made of, but for the conveyed information.
#[derive(Clone, Copy)]
pub struct EvidenceTemplate {
    /// The serial number that the voucher is for.
    pub serial: &'static str,
    /// The byte that the voucher's nonce repeats, where it has one.
    pub nonce: Option<u8>,
    /// The voucher asks for revocation checks.
    pub revocation: bool,
    /// The certificate that the voucher pins.
    pub pinned: CertTemplate,
    /// The certificate of the voucher's signer.
    pub maker: CertTemplate,
    /// The certificates that the voucher carries.
    pub maker_certs: &'static [CertTemplate],
    /// The certificate of the signer of the conveyed information.
    pub owner: CertTemplate,
    /// The certificates of the owner certificate, which is there where it has any.
    pub owner_certs: &'static [CertTemplate],
    /// The revocation list that goes with them.
    pub crl: Option<CrlTemplate>,
}

/// Keys by their numbers, from 1.
#[derive(Drop)]
pub struct Keys {
    trees: Vec<Trees>,
}

impl Keys {
    /// So many keys of these levels, of which each has its number again and again as its secrets.
    pub fn create<R: Threads + Sync>(
        rt: &R,
        alloc: Global,
        levels: &[u8],
        count: u8,
    ) -> Result<Keys, Fail> {
        let levels = Levels::read(levels)?;
        let mut trees = Vec::new(alloc);
        for number in 1..=count {
            let key = Key::of(levels.copy(), [number; 32], [number; 16]);
            trees.push(Trees::build(rt, &OpenGate, alloc, key)?)?;
        }
        Ok(Keys { trees })
    }

    // the trees of a key
    fn trees_of(&mut self, key: u8) -> Result<&mut Trees, Fail> {
        let place = usize::from(key).checked_sub(1).ok_or("no such key")?;
        Ok(self.trees.get_mut(place).ok_or("no such key")?)
    }

    /// What the key signs the message with. It takes the first leaf number each time, which no key may outside a test.
    pub fn signature<R: Threads + Sync>(
        &mut self,
        rt: &R,
        alloc: Global,
        key: u8,
        message: &[u8],
    ) -> Result<Bytes, Fail> {
        Ok(self.trees_of(key)?.sign(rt, &OpenGate, alloc, 0, message)?)
    }

    /// The certificate.
    pub fn cert<R: Threads + Sync>(
        &mut self,
        rt: &R,
        alloc: Global,
        template: &CertTemplate,
    ) -> Result<Bytes, Fail> {
        let public = self.trees_of(template.key)?.public();
        let tbs = cert_tbs(alloc, template, public)?;
        let signature = self.signature(rt, alloc, template.by, tbs.as_slice())?;
        Ok(write_cert(alloc, tbs.as_slice(), signature.as_slice())?)
    }

    /// The certificates.
    pub fn certs<R: Threads + Sync>(
        &mut self,
        rt: &R,
        alloc: Global,
        templates: &[CertTemplate],
    ) -> Result<Certs, Fail> {
        let mut certs = Certs::create(alloc);
        for template in templates {
            certs.push(self.cert(rt, alloc, template)?)?;
        }
        Ok(certs)
    }

    /// The revocation list.
    pub fn crl<R: Threads + Sync>(
        &mut self,
        rt: &R,
        alloc: Global,
        template: &CrlTemplate,
    ) -> Result<Bytes, Fail> {
        let tbs = crl_tbs(alloc, template)?;
        let signature = self.signature(rt, alloc, template.by, tbs.as_slice())?;
        Ok(write_crl(alloc, tbs.as_slice(), signature.as_slice())?)
    }

    /// The revocation lists.
    pub fn crls<R: Threads + Sync>(
        &mut self,
        rt: &R,
        alloc: Global,
        templates: &[CrlTemplate],
    ) -> Result<Certs, Fail> {
        let mut crls = Certs::create(alloc);
        for template in templates {
            crls.push(self.crl(rt, alloc, template)?)?;
        }
        Ok(crls)
    }

    /// A message of a type with this content and these certificates, which the subject of a certificate signs.
    pub fn signed<R: Threads + Sync>(
        &mut self,
        rt: &R,
        alloc: Global,
        kind: Kind<'_>,
        content: &[u8],
        certs: &[CertTemplate],
        signer: &CertTemplate,
    ) -> Result<Bytes, Fail>
        requires { IsWritten kind }
    {
        let attributes = write_attributes(alloc, kind, content)?;
        let signature = self.signature(rt, alloc, signer.key, attributes.as_slice())?;
        let cert = self.cert(rt, alloc, signer)?;
        let cert = Cert::read(cert.as_slice())?;
        let signer = signer_info(
            alloc,
            cert.issuer,
            cert.serial,
            attributes.as_slice(),
            signature.as_slice(),
        )?;
        let certs = concatenated(alloc, &self.certs(rt, alloc, certs)?)?;
        let content = encapsulated(alloc, kind.identifier(), Some(content))?;
        signed_data(
            alloc,
            content.as_slice(),
            certs.as_slice(),
            b"",
            signer.as_slice(),
        )
    }

    /// The owner certificate with these certificates and this revocation list, where there are any.
    pub fn owner_certificate<R: Threads + Sync>(
        &mut self,
        rt: &R,
        alloc: Global,
        certs: &[CertTemplate],
        crl: Option<CrlTemplate>,
    ) -> Result<Option<Bytes>, Fail> {
        if certs.is_empty() {
            return Ok(None);
        }
        let certs = concatenated(alloc, &self.certs(rt, alloc, certs)?)?;
        let crl = match crl {
            Some(crl) => self.crl(rt, alloc, &crl)?,
            None => Bytes::create(alloc),
        };
        let content = encapsulated(alloc, &DATA, None)?;
        let owner = signed_data(
            alloc,
            content.as_slice(),
            certs.as_slice(),
            crl.as_slice(),
            b"",
        )?;
        Ok(Some(owner))
    }

    /// Evidence whose conveyed information has this content.
    pub fn evidence<R: Threads + Sync>(
        &mut self,
        rt: &R,
        alloc: Global,
        template: &EvidenceTemplate,
        information: &[u8],
    ) -> Result<Evidence, Fail> {
        let pinned = self.cert(rt, alloc, &template.pinned)?;
        let voucher = voucher(alloc, template, pinned.as_slice())?;
        let ov = self.signed(
            rt,
            alloc,
            Kind::Voucher,
            voucher.as_slice(),
            template.maker_certs,
            &template.maker,
        )?;
        let ci = self.signed(
            rt,
            alloc,
            Kind::ConveyedJson,
            information,
            &[],
            &template.owner,
        )?;
        let oc = self.owner_certificate(rt, alloc, template.owner_certs, template.crl)?;
        Ok(Evidence {
            ci,
            oc,
            ov: Some(ov),
        })
    }
}

/// The content of the voucher, where it pins these bytes. It was made in 2024, and its last second begins 2034.
pub fn voucher(alloc: Global, template: &EvidenceTemplate, pinned: &[u8]) -> Result<Bytes, Fail> {
    let mut object = Object::create(alloc);
    object.put_text(alloc, Name::CreatedOn, "2024-01-01T00:00:00Z")?;
    object.put_text(alloc, Name::ExpiresOn, "2034-01-01T00:00:00Z")?;
    object.put_text(alloc, Name::Assertion, "verified")?;
    object.put_text(alloc, Name::SerialNumber, template.serial)?;
    object.put_binary(alloc, Name::PinnedDomainCert, pinned)?;
    object.put_flag(alloc, Name::DomainCertRevocationChecks, template.revocation)?;
    if let Some(byte) = template.nonce {
        object.put_binary(alloc, Name::Nonce, &[byte; 16])?;
    }
    let value = single(alloc, Name::Voucher, object.into_value())?;
    Ok(write(alloc, &value)?)
}

// what the issuer of the certificate signs
fn cert_tbs(alloc: Global, template: &CertTemplate, key: [u8; 60]) -> Result<Bytes, Fail> {
    let spec = CertSpec {
        serial: u32::from(template.key),
        issuer: Text::from_slice(alloc, &[template.issuer])?,
        subject: Text::from_slice(alloc, &[template.subject])?,
        not_before: template.not_before,
        not_after: template.not_after,
        key,
        ca: template.ca,
        path_len: template.path_len,
    };
    if !is_writable(spec.not_before) || !is_writable(spec.not_after) {
        return Err("a time that cannot be written".into());
    }
    let tbs = write_tbs(alloc, &spec)?;
    match template.change {
        Some(change) => changed(alloc, tbs.as_slice(), change),
        None => Ok(tbs),
    }
}

// the bytes with this change
fn changed(alloc: Global, bytes: &[u8], change: Change) -> Result<Bytes, Fail> {
    let mut copy = Bytes::create(alloc);
    let mut behind = [0, 0];
    for byte in bytes {
        let is_meant = behind == change.behind && *byte == change.from;
        copy.push(if is_meant { change.to } else { *byte })?;
        behind = [behind[1], *byte];
    }
    Ok(copy)
}

// what the issuer of the revocation list signs
fn crl_tbs(alloc: Global, template: &CrlTemplate) -> Result<Bytes, Fail> {
    let mut serials = Numbers::create(alloc);
    serials.push(template.serial)?;
    let spec = CrlSpec {
        issuer: Text::from_slice(alloc, &[template.issuer])?,
        this_update: template.this_update,
        next_update: template.next_update,
        serials,
    };
    if !is_writable(spec.this_update) || !spec.next_update.is_none_or(|end| is_writable(end)) {
        return Err("a time that cannot be written".into());
    }
    Ok(write_crl_tbs(alloc, &spec)?)
}

// the items, one after another
fn concatenated(alloc: Global, items: &Certs) -> Result<Bytes, Fail> {
    let mut whole = Bytes::create(alloc);
    for item in items.as_slice() {
        whole.append(item.as_slice())?;
    }
    Ok(whole)
}
