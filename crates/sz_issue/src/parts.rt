//! The writers of parts that stand in certificates and in revocation lists.

ghost use Rattle.std.specs.Prelude.{◌≢◌, ◌%◌, ◌∷◌, IfOk, OnOk};
ghost use Rattle.sz_der.specs.Der.{Der};
ghost use Rattle.sz_der.specs.Items.{AppendsItem};
ghost use Rattle.sz_issue.specs.Parts.{Appends, Holds, IsCommonName, IsSignedForm};
ghost use Rattle.sz_x509.specs.Certificate.{IsHssAlgorithm};

use std::alloc::Global;
use sz_base::{Bytes, OutOfMemory};
use sz_der::DerWriter;
use sz_der::tag::{BIT_STRING, OBJECT_IDENTIFIER, SEQUENCE, SET, UTF8_STRING};
use sz_x509::identifier::HSS_LMS;

/// id-at-commonName, 2.5.4.3 (X.520 section 6.2.2), as the octets of its DER content.
pub const COMMON_NAME: [u8; 3] = [0x55, 0x04, 0x03];

/// The item with this tag and content.
pub(crate) fn item_of(alloc: Global, tag: u8, content: &[u8]) -> Result<Bytes, OutOfMemory>
    requires { tag % 32 ≢ 31 }
    ensures { IfOk result (Der tag content.now) }
{
    let mut out = DerWriter::create(alloc)?;
    out.item(tag, content)?;
    Ok(out.finish())
}

/// Puts an item last that holds one item of this content.
pub(crate) fn write_holder(
    alloc: Global,
    out: &mut DerWriter,
    outer: u8,
    inner: u8,
    content: &[u8],
) -> Result<(), OutOfMemory>
    requires outer { outer % 32 ≢ 31 }
    requires inner { inner % 32 ≢ 31 }
    ensures { OnOk result (Appends (Holds outer inner content.now) out.old out.new) }
{
    let mut held = DerWriter::create(alloc)?;
    held.item(inner, content)?;
    out.item(outer, held.as_slice())?;
    Ok(())
}

/// Puts the AlgorithmIdentifier of HSS/LMS last (RFC 8708 section 3).
pub(crate) fn write_algorithm(alloc: Global, out: &mut DerWriter) -> Result<(), OutOfMemory>
    ensures { OnOk result (Appends IsHssAlgorithm out.old out.new) }
{
    write_holder(alloc, out, SEQUENCE, OBJECT_IDENTIFIER, &HSS_LMS)
}

/// Puts a Name of one common name last.
pub(crate) fn write_name(alloc: Global, out: &mut DerWriter, text: &[u8]) -> Result<(), OutOfMemory>
    ensures { OnOk result (Appends (IsCommonName text.now) out.old out.new) }
{
    let mut attribute = DerWriter::create(alloc)?;
    attribute.item(OBJECT_IDENTIFIER, &COMMON_NAME)?;
    attribute.item(UTF8_STRING, text)?;
    let mut names = DerWriter::create(alloc)?;
    write_holder(alloc, &mut names, SET, SEQUENCE, attribute.as_slice())?;
    out.item(SEQUENCE, names.as_slice())?;
    Ok(())
}

/// Puts a BIT STRING of whole octets last.
pub(crate) fn write_octets(
    alloc: Global,
    out: &mut DerWriter,
    octets: &[u8],
) -> Result<(), OutOfMemory>
    ensures { OnOk result (AppendsItem out.old out.new BIT_STRING (0 ∷ octets.now)) }
{
    let mut content = Bytes::from_slice(alloc, &[0])?;
    content.append(octets)?;
    out.item(BIT_STRING, content.as_slice())?;
    Ok(())
}

/// Writes what is signed, the algorithm and the signature (RFC 5280 sections 4.1 and 5.1).
pub(crate) fn join_signed(alloc: Global, tbs: &[u8], signature: &[u8]) -> Result<Bytes, OutOfMemory>
    ensures { IfOk result (IsSignedForm tbs.now signature.now) }
{
    let mut proof = DerWriter::create(alloc)?;
    write_algorithm(alloc, &mut proof)?;
    write_octets(alloc, &mut proof, signature)?;
    let mut parts = Bytes::from_slice(alloc, tbs)?;
    parts.append(proof.as_slice())?;
    item_of(alloc, SEQUENCE, parts.as_slice())
}
