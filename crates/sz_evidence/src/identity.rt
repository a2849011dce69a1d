//! The reader of an identity file.

ghost use Rattle.std.specs.Prelude.{◌≡◌, ◌≤◌, ◌↔◌, IsTrue, IfOk, IfErr};
ghost use Rattle.serde_json.specs.View.{items_view, view};
ghost use Rattle.sz_base.specs.Identity.{IsWhole, most_anchors};
ghost use Rattle.sz_base.specs.Serial.{IsSerial};
ghost use Rattle.sz_evidence.specs.IdentityFile.{AreAnchors, HasAnchors, HasText, IdentityOf, IsAnchor, IsBadIdentity, IsShort, Lacks, NamesBad};
ghost use Rattle.sz_json.specs.declared.name.Name.TheVariants as name;

use std::alloc::Global;
use sz_base::{
    BaseFault, Bytes, Certs, Identity, MOST_ANCHOR_BYTES, MOST_ANCHORS, MOST_OS_BYTES, OutOfMemory,
    Serial, Text, base64_bytes,
};
use sz_json::{JsonFault, Name, Value, list, required_string, required_text};
use sz_x509::Cert;

const BAD_ANCHORS: IdentityFault = IdentityFault::Bad {
    name: Name::Anchors,
};

/// Why bytes are no identity.
#[derive(Clone, Copy, Debug, PartialEq, Eq)]
pub enum IdentityFault {
    /// The member of this name is the first that breaks its rule; `Json` where the bytes are no JSON.
    Bad { name: Name },
    /// Memory ran out.
    OutOfMemory,
}

impl From<JsonFault> for IdentityFault {
    ghost use Rattle.sz_evidence.specs.IdentityFile.{identity_fault_of};

    ghost from_gives = { λ fault e. e ≡ identity_fault_of fault };

    fn from(fault: JsonFault) -> Self {
        match fault {
            JsonFault::Member { name } => IdentityFault::Bad { name },
            JsonFault::OutOfMemory => IdentityFault::OutOfMemory,
        }
    }
}

impl From<OutOfMemory> for IdentityFault {
    ghost use Rattle.sz_evidence.specs.declared.identity.IdentityFault.TheVariants.{OutOfMemory as identity_memory};

    ghost from_gives = { λ _ e. e ≡ identity_memory };

    fn from(_: OutOfMemory) -> Self {
        IdentityFault::OutOfMemory
    }
}

/// Reads an identity file: a JSON object with `serial`, `os-name`, `os-version`, each a text, and `anchors`, a list of
/// one to eight certificates in base64. `Bad` exactly of the first of these that breaks its rule, in this order.
pub fn read_identity(alloc: Global, bytes: &[u8]) -> Result<Identity, IdentityFault>
    ensures ok { IfOk result (IdentityOf bytes.now) }
    ensures whole { IfOk result IsWhole }
    ensures refused { IfErr result (NamesBad (IsBadIdentity bytes.now)) }
{
    let value = sz_json::read(alloc, bytes)?;
    let serial = serial(alloc, &value)?;
    let os_name = short_text(alloc, &value, Name::OsName)?;
    let os_version = short_text(alloc, &value, Name::OsVersion)?;
    let anchors = anchors(alloc, &value)?;
    Ok(Identity {
        serial,
        anchors,
        os_name,
        os_version,
    })
}

fn serial(alloc: Global, value: &Value) -> Result<Serial, IdentityFault>
    ensures ok { IfOk result (λ serial. HasText name.Serial IsSerial (view value.now) serial) }
    ensures refused { IfErr result (Lacks name.Serial (HasText name.Serial IsSerial (view value.now))) }
{
    let text = required_string(value, Name::Serial)?;
    match Serial::read(alloc, text.as_bytes()) {
        Ok(serial) => Ok(serial),
        Err(BaseFault::Form) => Err(IdentityFault::Bad { name: Name::Serial }),
        Err(BaseFault::OutOfMemory) => Err(IdentityFault::OutOfMemory),
    }
}

// a text of at most `MOST_OS_BYTES` bytes
fn short_text(alloc: Global, value: &Value, name: Name) -> Result<Text, IdentityFault>
    ensures ok { IfOk result (λ text. HasText name IsShort (view value.now) text) }
    ensures refused { IfErr result (Lacks name (HasText name IsShort (view value.now))) }
{
    let text = required_text(alloc, value, name)?;
    if text.len() > MOST_OS_BYTES {
        return Err(IdentityFault::Bad { name });
    }
    Ok(text)
}

// the list of anchors
fn anchors(alloc: Global, value: &Value) -> Result<Certs, IdentityFault>
    ensures ok { IfOk result (λ anchors. HasAnchors (view value.now) anchors) }
    ensures refused { IfErr result (Lacks name.Anchors (HasAnchors (view value.now))) }
{
    let Some(entries) = list(value, Name::Anchors)? else {
        return Err(BAD_ANCHORS);
    };
    let anchors = certificates(alloc, entries)?;
    if !are_few(anchors.len()) {
        return Err(BAD_ANCHORS);
    }
    Ok(anchors)
}

// so many anchors a device may have
fn are_few(count: usize) -> bool
    ensures { IsTrue result ↔ (1 ≤ count × count ≤ most_anchors) }
{
    matches!(count, 1..=MOST_ANCHORS)
}

// the certificates of the entries, in order
fn certificates(alloc: Global, entries: &[Value]) -> Result<Certs, IdentityFault>
    ensures ok { IfOk result (λ anchors. AreAnchors (items_view entries.now) anchors) }
    ensures refused { IfErr result (Lacks name.Anchors (AreAnchors (items_view entries.now))) }
{
    let mut anchors = Certs::create(alloc);
    let mut rest = entries;
    'entries: while let Some((entry, after)) = rest.split_first() {
        anchors.push(certificate(alloc, entry)?)?;
        rest = after;
    }
    Ok(anchors)
}

// the certificate of an entry
fn certificate(alloc: Global, entry: &Value) -> Result<Bytes, IdentityFault>
    ensures ok { IfOk result (λ anchor. IsAnchor (view entry.now) anchor) }
    ensures refused { IfErr result (Lacks name.Anchors (IsAnchor (view entry.now))) }
{
    let Some(text) = entry.as_str() else {
        return Err(BAD_ANCHORS);
    };
    let bytes = match base64_bytes(alloc, text.as_bytes()) {
        Ok(bytes) => bytes,
        Err(BaseFault::Form) => return Err(BAD_ANCHORS),
        Err(BaseFault::OutOfMemory) => return Err(IdentityFault::OutOfMemory),
    };
    if bytes.len() > MOST_ANCHOR_BYTES {
        return Err(BAD_ANCHORS);
    }
    match Cert::read(bytes.as_slice()) {
        Ok(_) => Ok(bytes),
        Err(_) => Err(BAD_ANCHORS),
    }
}
