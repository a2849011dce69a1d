//! The reader of a message and of signed data.

ghost use Rattle.std.specs.Prelude.{◌≡◌, ◌<◌, None, Some, OnOk, IfErr, IfOk, IsOkAnd, map};
ghost use Rattle.std.specs.Option.{option_copied};
ghost use Rattle.sz_der.specs.declared.tag.TheConstants.{CONTEXT_CONSTRUCTED};
ghost use Rattle.sz_der.specs.Spots.{after, after_optional, at, content_at, inside, spot_of, spots_from};
ghost use Rattle.sz_cms.specs.Message.{Info as Message, InfoOf};
ghost use Rattle.sz_cms.specs.MessageFault.{algorithm_fault, algorithms_fault, choice_fault, choices_fault, content_fault, content_field_fault, each_from, info_fault, inner_fault, octets_fault, sequences_at, signed_fault, signed_parts_fault, signer_fault, signers_fault};
ghost use Rattle.sz_cms.specs.Places.{choices_at, content_field_at, info_at, inner_at, signed_from, signer_at, signers_at};
ghost use Rattle.sz_cms.specs.View.{info_of, IsNamed, kind_of, signed_of, signer_of};

use crate::identifier::{ENVELOPED_DATA, SIGNED_DATA};
use crate::signers::{read_signer, take_algorithm};
use crate::{Info, InfoFault, InfoKind, Kind, MOST_CERTS, MOST_CRLS, MOST_SIGNERS, Signed, Signer};
use arrayvec::ArrayVec;
use sz_der::DerReader;
use sz_der::parts::{
    expect_end, is_next, open_part, part_fault, parts_of, take_integer, take_item, take_part,
};
use sz_der::tag::{CONTEXT_CONSTRUCTED, OBJECT_IDENTIFIER, OCTET_STRING, SEQUENCE, SET};

impl<'a> Info<'a> {
    /// The message that the bytes are, from the first to the last of them. Its fields are slices of the bytes, and no
    /// memory is taken. A fault is that of the first item in the order of the bytes at which no message continues, with
    /// the place of its tag.
    pub fn read(bytes: &'a [u8]) -> Result<Self, InfoFault>
        ensures ok { IfOk result (λ info. InfoOf bytes.entry.now (info_of info)) }
        ensures only { (info : Message) → InfoOf bytes.entry.now info
            → IsOkAnd result (λ found. info_of found ≡ info) }
        ensures places { IfOk result (λ info. info_of info ≡ info_at bytes.entry.now) }
        ensures named { IfOk result (λ info. IsNamed (kind_of info)) }
        ensures no_fault { OnOk result (info_fault bytes.entry.now ≡ None) }
        ensures fault { IfErr result (λ fault. info_fault bytes.entry.now ≡ Some (at fault)) }
    {
        read_message(bytes)
    }
}

// Reads each part at its place.
fn read_message<'a>(bytes: &'a [u8]) -> Result<Info<'a>, InfoFault>
    ensures ok { OnOk result (info_fault bytes.entry.now ≡ None) }
    ensures info { IfOk result (λ info. info_of info ≡ info_at bytes.entry.now) }
    ensures named { IfOk result (λ info. IsNamed (kind_of info)) }
    ensures fault { IfErr result (λ fault. info_fault bytes.entry.now ≡ Some (at fault)) }
{
    let mut whole = DerReader::over(bytes);
    let mut parts = open_part(&mut whole, SEQUENCE, InfoKind::Shape)?;
    let identifier = take_part(&mut parts, OBJECT_IDENTIFIER, InfoKind::Shape)?;
    let content = open_part(&mut parts, CONTEXT_CONSTRUCTED, InfoKind::Shape)?;
    let info = read_inner(identifier.content, &content)?;
    expect_end(&parts, InfoKind::Shape)?;
    expect_end(&whole, InfoKind::Shape)?;
    Ok(info)
}

// Reads the content of a message, by the octets of its type.
fn read_inner<'a>(identifier: &'a [u8], first: &DerReader<'a>) -> Result<Info<'a>, InfoFault>
    ensures ok { OnOk result (inner_fault identifier.entry.now (spot_of first.now) ≡ None) }
    ensures info { IfOk result (λ info. info_of info ≡ inner_at identifier.entry.now (spot_of first.now)) }
    ensures named { IfOk result (λ info. IsNamed (kind_of info)) }
    ensures fault { IfErr result (λ fault. inner_fault identifier.entry.now (spot_of first.now) ≡ Some (at fault)) }
{
    if identifier == SIGNED_DATA.as_slice() {
        let signed = read_signed(first)?;
        return Ok(Info::Signed(signed));
    }
    let kind = Kind::of(identifier);
    if identifier == ENVELOPED_DATA.as_slice() {
        return Ok(Info::Plain { kind, content: &[] });
    }
    let content = read_octets(first)?;
    Ok(Info::Plain { kind, content })
}

// Reads an OCTET STRING, and nothing more.
fn read_octets<'a>(first: &DerReader<'a>) -> Result<&'a [u8], InfoFault>
    ensures ok { OnOk result (octets_fault (spot_of first.now) ≡ None) }
    ensures content { IfOk result (λ octets. octets.now ≡ content_at (spot_of first.now)) }
    ensures fault { IfErr result (λ fault. octets_fault (spot_of first.now) ≡ Some (at fault)) }
{
    let mut parts = *first;
    let octets = take_part(&mut parts, OCTET_STRING, InfoKind::Shape)?;
    expect_end(&parts, InfoKind::Shape)?;
    Ok(octets.content)
}

// Reads SignedData (RFC 5652 section 5.1), and nothing more.
fn read_signed<'a>(first: &DerReader<'a>) -> Result<Signed<'a>, InfoFault>
    ensures ok { OnOk result (signed_fault (spot_of first.now) ≡ None) }
    ensures signed { IfOk result (λ signed. signed_of signed ≡ signed_from (inside (spot_of first.now))) }
    ensures named { IfOk result (λ signed. IsNamed signed.kind) }
    ensures fault { IfErr result (λ fault. signed_fault (spot_of first.now) ≡ Some (at fault)) }
{
    let mut parts = *first;
    let data = open_part(&mut parts, SEQUENCE, InfoKind::Shape)?;
    let signed = read_signed_parts(&data)?;
    expect_end(&parts, InfoKind::Shape)?;
    Ok(signed)
}

// Reads the parts of SignedData, and nothing more.
fn read_signed_parts<'a>(first: &DerReader<'a>) -> Result<Signed<'a>, InfoFault>
    ensures ok { OnOk result (signed_parts_fault (spot_of first.now) ≡ None) }
    ensures signed { IfOk result (λ signed. signed_of signed ≡ signed_from (spot_of first.now)) }
    ensures named { IfOk result (λ signed. IsNamed signed.kind) }
    ensures fault { IfErr result (λ fault. signed_parts_fault (spot_of first.now) ≡ Some (at fault)) }
{
    let mut parts = *first;
    take_integer(&mut parts, InfoKind::Shape)?;
    take_algorithms(&mut parts)?;
    let (identifier, content) = take_encapsulated(&mut parts)?;
    let certs = take_choices::<MOST_CERTS>(&mut parts, CONTEXT_CONSTRUCTED)?;
    let crls = take_choices::<MOST_CRLS>(&mut parts, CONTEXT_CONSTRUCTED + 1)?;
    let signers = take_signers(&mut parts)?;
    expect_end(&parts, InfoKind::Shape)?;
    Ok(Signed {
        kind: Kind::of(identifier),
        content,
        certs,
        crls,
        signers,
    })
}

// Takes a SET of algorithms, which are not kept.
fn take_algorithms(reader: &mut DerReader<'_>) -> Result<(), InfoFault>
    ensures ok { OnOk result (algorithms_fault (spot_of reader.old) ≡ None) }
    ensures next { OnOk result (spot_of reader.new ≡ after (spot_of reader.old)) }
    ensures fault { IfErr result (λ fault. algorithms_fault (spot_of reader.old) ≡ Some (at fault)) }
{
    let each = open_part(reader, SET, InfoKind::Shape)?;
    read_algorithms(&each)
}

// Reads algorithms, one after another.
fn read_algorithms(first: &DerReader<'_>) -> Result<(), InfoFault>
    ensures ok { OnOk result (each_from (λ _. algorithm_fault) (spot_of first.now) ≡ None) }
    ensures fault { IfErr result (λ fault. each_from (λ _. algorithm_fault) (spot_of first.now) ≡ Some (at fault)) }
{
    let mut each = *first;
    while !each.is_at_end() {
        take_algorithm(&mut each)?;
    }
    Ok(())
}

// Takes EncapsulatedContentInfo (RFC 5652 section 5.2): the octets of the type of the content, and the content where
// there is one.
fn take_encapsulated<'a>(
    reader: &mut DerReader<'a>,
) -> Result<(&'a [u8], Option<&'a [u8]>), InfoFault>
    ensures ok { OnOk result (content_fault (spot_of reader.old) ≡ None) }
    ensures kind { IfOk result (λ found. found.0.now ≡ content_at (inside (spot_of reader.old))) }
    ensures content { IfOk result (λ found. option_copied found.1
        ≡ content_field_at (after (inside (spot_of reader.old)))) }
    ensures next { OnOk result (spot_of reader.new ≡ after (spot_of reader.old)) }
    ensures fault { IfErr result (λ fault. content_fault (spot_of reader.old) ≡ Some (at fault)) }
{
    let mut parts = open_part(reader, SEQUENCE, InfoKind::Shape)?;
    let identifier = take_part(&mut parts, OBJECT_IDENTIFIER, InfoKind::Shape)?;
    let content = take_content(&mut parts)?;
    expect_end(&parts, InfoKind::Shape)?;
    Ok((identifier.content, content))
}

// Takes the field of the content, where it is.
fn take_content<'a>(reader: &mut DerReader<'a>) -> Result<Option<&'a [u8]>, InfoFault>
    ensures ok { OnOk result (content_field_fault (spot_of reader.old) ≡ None) }
    ensures content { IfOk result (λ content. option_copied content ≡ content_field_at (spot_of reader.old)) }
    ensures next { OnOk result (spot_of reader.new ≡ after_optional CONTEXT_CONSTRUCTED (spot_of reader.old)) }
    ensures fault { IfErr result (λ fault. content_field_fault (spot_of reader.old) ≡ Some (at fault)) }
{
    if !is_next(reader, CONTEXT_CONSTRUCTED) {
        return Ok(None);
    }
    let field = take_item(reader)?;
    let content = read_octets(&parts_of(&field))?;
    Ok(Some(content))
}

// Takes a field of items, of which the SEQUENCEs are kept, where it is.
fn take_choices<'a, const MOST: usize>(
    reader: &mut DerReader<'a>,
    tag: u8,
) -> Result<ArrayVec<&'a [u8], MOST>, InfoFault>
    requires { MOST < 256 }
    ensures ok { OnOk result (choices_fault MOST tag (spot_of reader.old) ≡ None) }
    ensures kept { IfOk result (λ kept. map (λ item. item.now) kept.items ≡ choices_at tag (spot_of reader.old)) }
    ensures next { OnOk result (spot_of reader.new ≡ after_optional tag (spot_of reader.old)) }
    ensures fault { IfErr result (λ fault. choices_fault MOST tag (spot_of reader.old) ≡ Some (at fault)) }
{
    if !is_next(reader, tag) {
        return Ok(ArrayVec::new());
    }
    let field = take_item(reader)?;
    read_choices(&parts_of(&field))
}

// Reads items, one after another, and keeps the SEQUENCEs.
fn read_choices<'a, const MOST: usize>(
    first: &DerReader<'a>,
) -> Result<ArrayVec<&'a [u8], MOST>, InfoFault>
    requires { MOST < 256 }
    ensures ok { OnOk result (each_from (choice_fault MOST) (spot_of first.now) ≡ None) }
    ensures kept { IfOk result (λ kept. map (λ item. item.now) kept.items
        ≡ sequences_at (spots_from (spot_of first.now))) }
    ensures fault { IfErr result (λ fault. each_from (choice_fault MOST) (spot_of first.now) ≡ Some (at fault)) }
{
    let mut each = *first;
    let mut kept = ArrayVec::new();
    while !each.is_at_end() {
        let item = take_item(&mut each)?;
        if item.tag == SEQUENCE {
            if kept.is_full() {
                return Err(part_fault(&item, InfoKind::TooMany { limit: MOST as u8 }));
            }
            kept.push(item.whole);
        }
    }
    Ok(kept)
}

// Takes a SET of signers.
fn take_signers<'a>(
    reader: &mut DerReader<'a>,
) -> Result<ArrayVec<Signer<'a>, MOST_SIGNERS>, InfoFault>
    ensures ok { OnOk result (signers_fault (spot_of reader.old) ≡ None) }
    ensures signers { IfOk result (λ signers. map signer_of signers.items ≡ signers_at (spot_of reader.old)) }
    ensures next { OnOk result (spot_of reader.new ≡ after (spot_of reader.old)) }
    ensures fault { IfErr result (λ fault. signers_fault (spot_of reader.old) ≡ Some (at fault)) }
{
    let each = open_part(reader, SET, InfoKind::Shape)?;
    read_signers(&each)
}

// Reads signers, one after another.
fn read_signers<'a>(first: &DerReader<'a>) -> Result<ArrayVec<Signer<'a>, MOST_SIGNERS>, InfoFault>
    ensures ok { OnOk result (each_from signer_fault (spot_of first.now) ≡ None) }
    ensures signers { IfOk result (λ signers. map signer_of signers.items
        ≡ map signer_at (spots_from (spot_of first.now))) }
    ensures fault { IfErr result (λ fault. each_from signer_fault (spot_of first.now) ≡ Some (at fault)) }
{
    let mut each = *first;
    let mut signers = ArrayVec::new();
    while !each.is_at_end() {
        let item = take_part(&mut each, SEQUENCE, InfoKind::Shape)?;
        if signers.is_full() {
            return Err(part_fault(
                &item,
                InfoKind::TooMany {
                    limit: MOST_SIGNERS as u8,
                },
            ));
        }
        let signer = read_signer(&parts_of(&item))?;
        signers.push(signer);
    }
    Ok(signers)
}
