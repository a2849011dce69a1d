//! The reader of a boot image.

ghost use Rattle.std.specs.Prelude.{◌≡◌, Option, Some, Ok, IfOk, IfErr, IfSome, IsUtf8, option_and_then};
ghost use Rattle.std.specs.List.{All};
ghost use Rattle.std.specs.Option.{option_copied};
ghost use Rattle.serde_json.specs.Data.{Items};
ghost use Rattle.serde_json.specs.View.{items_view, view};
ghost use Rattle.sz_json.specs.Fault.{fault_of, first_inside, IsFault};
ghost use Rattle.sz_json.specs.Form.{list_of};
ghost use Rattle.sz_json.specs.Member.{optional, or_fault, required};
ghost use Rattle.sz_json.specs.declared.name.Name.{Name};
ghost use Rattle.sz_artifacts.specs.Hash.{hash_of, hash_of_text, is_sha256};
ghost use Rattle.sz_artifacts.specs.Image.{hash_fault, hash_fault_where, image_fault, IsBootImage, NamesHash, NamesHashWhere, short_text_of, texts_in, texts_of};
ghost use Rattle.sz_artifacts.specs.WrittenInformation.{AreTexts};

use crate::BootImage;
use crate::conveyed::onboarding::LONGEST_NAME;
use std::alloc::Global;
use sz_base::{Text, Texts, colon_hex};
use sz_json::{JsonFault, Name, Value, list, member, required_string};

const BAD_URIS: JsonFault = JsonFault::Member {
    name: Name::DownloadUri,
};

const BAD_HASH: JsonFault = JsonFault::Member {
    name: Name::HashValue,
};

/// The boot image of a value.
#[tactic(auto, using(sz_json::proofs::Faults::first_fault))]
pub(crate) fn read_image(alloc: Global, value: &Value) -> Result<BootImage, JsonFault>
    ensures ok { IfOk result (IsBootImage (view value.now)) }
    ensures texts { IfOk result AreTexts }
    ensures refused { IfErr result (IsFault (image_fault (view value.now))) }
{
    let os_name = short_text(alloc, value, Name::OsName)?;
    let os_version = short_text(alloc, value, Name::OsVersion)?;
    let uris = uris(alloc, value)?;
    let hash = hash(value)?;
    Ok(BootImage {
        os_name,
        os_version,
        uris: uris.unwrap_or(Texts::create(alloc)),
        hash,
    })
}

// a text of at most `LONGEST_NAME` bytes
fn short_text(alloc: Global, value: &Value, name: Name) -> Result<Option<Text>, JsonFault>
    ensures ok { IfOk result (λ found. optional short_text_of name (view value.now) ≡ Ok found) }
    ensures utf8 { IfOk result (λ found. IfSome found IsUtf8) }
    ensures refused { IfErr result (IsFault (fault_of (optional short_text_of name (view value.now)))) }
{
    let Some(member) = member(value, name)? else {
        return Ok(None);
    };
    match member.as_str() {
        Some(text) if text.len() <= LONGEST_NAME => Ok(Some(Text::from_slice(
            alloc,
            text.as_bytes(),
        )?)),
        _ => Err(JsonFault::Member { name }),
    }
}

// the list of URIs
fn uris(alloc: Global, value: &Value) -> Result<Option<Texts>, JsonFault>
    ensures ok { IfOk result (λ found. optional texts_of Name.DownloadUri (view value.now) ≡ Ok found) }
    ensures utf8 { IfOk result (λ found. IfSome found (All IsUtf8)) }
    ensures refused { IfErr result (IsFault (fault_of (optional texts_of Name.DownloadUri (view value.now)))) }
{
    let Some(member) = member(value, Name::DownloadUri)? else {
        return Ok(None);
    };
    match member.as_array() {
        Some(items) => Ok(Some(texts(alloc, items.as_slice())?)),
        None => Err(BAD_URIS),
    }
}

fn texts(alloc: Global, items: &[Value]) -> Result<Texts, JsonFault>
    ensures ok { IfOk result (λ texts. texts_in (items_view items.now) ≡ Some texts) }
    ensures utf8 { IfOk result (All IsUtf8) }
    ensures refused { IfErr result (IsFault (fault_of (or_fault Name.DownloadUri (texts_in (items_view items.now))))) }
{
    let mut texts = Texts::create(alloc);
    let mut rest = items;
    'items: while let Some((item, after)) = rest.split_first() {
        let Some(text) = item.as_str() else {
            return Err(BAD_URIS);
        };
        texts.push(Text::from_slice(alloc, text.as_bytes())?)?;
        rest = after;
    }
    Ok(texts)
}

// the hash that the list of verifications names, if there is one
fn hash(value: &Value) -> Result<Option<[u8; 32]>, JsonFault>
    ensures ok { IfOk result (λ hash. (verification : Option Items)
        × (optional list_of Name.ImageVerification (view value.now) ≡ Ok verification)
        × NamesHashWhere verification hash) }
    ensures refused { IfErr result (IsFault (first_inside (optional list_of Name.ImageVerification (view value.now))
        hash_fault_where)) }
{
    match list(value, Name::ImageVerification)? {
        Some(entries) => named_hash(entries),
        None => Ok(None),
    }
}

// the hash of the first entry whose algorithm is SHA-256
fn named_hash(entries: &[Value]) -> Result<Option<[u8; 32]>, JsonFault>
    ensures ok { IfOk result (NamesHash (items_view entries.now)) }
    ensures refused { IfErr result (IsFault (hash_fault (items_view entries.now))) }
{
    let mut rest = entries;
    'entries: while let Some((entry, after)) = rest.split_first() {
        let algorithm = required_string(entry, Name::HashAlgorithm)?;
        if is_sha256(algorithm) {
            return Ok(Some(hash_value(entry)?));
        }
        rest = after;
    }
    Ok(None)
}

fn is_sha256(algorithm: &str) -> bool
    ensures { result ≡ is_sha256 algorithm.now }
{
    algorithm == "ietf-sztp-conveyed-info:sha-256" || algorithm == "sha-256"
}

fn hash_value(entry: &Value) -> Result<[u8; 32], JsonFault>
    ensures ok { IfOk result (λ hash. required hash_of Name.HashValue (view entry.now) ≡ Ok hash) }
    ensures refused { IfErr result (IsFault (fault_of (required hash_of Name.HashValue (view entry.now)))) }
{
    let Some(member) = member(entry, Name::HashValue)? else {
        return Err(BAD_HASH);
    };
    match in_text(member.as_str()) {
        Some(hash) => Ok(hash),
        None => Err(BAD_HASH),
    }
}

fn in_text(text: Option<&str>) -> Option<[u8; 32]>
    ensures { result ≡ option_and_then hash_of_text (option_copied text.entry) }
{
    match text {
        Some(text) => hash_of_text(text.as_bytes()),
        None => None,
    }
}

fn hash_of_text(text: &[u8]) -> Option<[u8; 32]>
    ensures { result ≡ hash_of_text text.now }
{
    colon_hex(text)
}
