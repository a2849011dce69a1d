//! Sources, and the reader of their texts.

ghost use Rattle.std.specs.Prelude.{◌≡◌, ◌≢◌, ◌++◌, List, ℕ, false, IfOk, IfSome, IfNone, IsTrue};
ghost use Rattle.std.specs.List.{All};
ghost use Rattle.sz_base.specs.Reading.{ReadsValue};
ghost use Rattle.sz_source.specs.Source.{first_item, IsAnswerFor, IsDomain, IsPathOf, IsSource, IsSplit};

use crate::Item;
use std::alloc::Global;
use sz_base::{BaseFault, Items, OutOfMemory, Target, Text};

/// How many sources a device may be given.
pub const MOST_SOURCES: usize = 16;

/// Where a device looks for bootstrapping data.
#[derive(Debug, Drop)]
pub enum Source {
    /// The folder under this path, as of a removable storage device (RFC 8572 section 4.1).
    Usb(Text),
    /// The DHCPv4 message in the file under this path (section 4.3).
    Dhcp4(Text),
    /// The DHCPv6 message in the file under this path (section 4.3).
    Dhcp6(Text),
    /// The DNS message in the file under this path, which answers for the domain (section 4.2).
    Dns { path: Text, domain: Text },
    /// A bootstrap server (section 4.4).
    Server(Target),
}

/// Sources, in the order in which they are asked.
pub type Sources = Items<Source>;

impl Source {
    /// Reads a source: `usb:PATH`, `dhcp4:PATH`, `dhcp6:PATH`, `dns:PATH:DOMAIN` or `server:HOST:PORT`. A path is any
    /// bytes, at least one; a domain is any bytes but colons, at least one and no point at its end. `Form` exactly
    /// where the text is none.
    pub fn read(alloc: Global, word: &[u8]) -> Result<Self, BaseFault>
        ensures reads { ReadsValue (λ source. IsSource source word.now) result }
    {
        if let Some(path) = behind(word, b"usb:") {
            return Ok(Source::Usb(path_of(alloc, path)?));
        }
        if let Some(path) = behind(word, b"dhcp4:") {
            return Ok(Source::Dhcp4(path_of(alloc, path)?));
        }
        if let Some(path) = behind(word, b"dhcp6:") {
            return Ok(Source::Dhcp6(path_of(alloc, path)?));
        }
        if let Some(answer) = behind(word, b"dns:") {
            let (path, domain) = path_and_domain(alloc, answer)?;
            return Ok(Source::Dns { path, domain });
        }
        if let Some(server) = behind(word, b"server:") {
            return Ok(Source::Server(Target::read(alloc, server)?));
        }
        Err(BaseFault::Form)
    }

    /// What is visited first of the source.
    pub fn item(&self, alloc: Global) -> Result<Item, OutOfMemory>
        ensures { IfOk result (λ item. item ≡ first_item self.now) }
    {
        Ok(match self {
            Source::Usb(path) => Item::Folder(path.copy(alloc)?),
            Source::Dhcp4(path) | Source::Dhcp6(path) | Source::Dns { path, .. } => {
                Item::File(path.copy(alloc)?)
            }
            Source::Server(target) => Item::At(target.copy(alloc)?),
        })
    }
}

// What stands behind a front of the word.
fn behind<'a>(word: &'a [u8], front: &[u8]) -> Option<&'a [u8]>
    ensures some { IfSome result (λ rest. word.entry.now ≡ front.now ++ rest.now) }
    ensures none { IfNone result ((rest : List ℕ) → word.entry.now ≢ front.now ++ rest) }
{
    word.strip_prefix(front)
}

// The path of a DNS message, and behind the last colon the domain.
fn path_and_domain(alloc: Global, text: &[u8]) -> Result<(Text, Text), BaseFault>
    ensures reads { ReadsValue (λ parts. IsAnswerFor text.now parts.0 parts.1) result }
{
    let Some((path, domain)) = answer_parts(text) else {
        return Err(BaseFault::Form);
    };
    let path = Text::from_slice(alloc, path)?;
    let domain = Text::from_slice(alloc, domain)?;
    Ok((path, domain))
}

// The same, in the text.
fn answer_parts(text: &[u8]) -> Option<(&[u8], &[u8])>
    ensures some { IfSome result (λ parts. IsAnswerFor text.now parts.0.now parts.1.now) }
    ensures none { IfNone result ((path domain : List ℕ) → ¬ IsAnswerFor text.now path domain) }
{
    match at_last_colon(text) {
        Some((path, domain)) if !path.is_empty() && is_domain(domain) => Some((path, domain)),
        _ => None,
    }
}

// Whether a text without colons is a domain.
fn is_domain(text: &[u8]) -> bool
    ensures yes { IsTrue result → IsDomain text.now }
    ensures no { result ≡ false → ¬ IsDomain text.now }
{
    !text.is_empty() && text.strip_suffix(b".").is_none()
}

// A path as it stands, where it has a byte.
fn path_of(alloc: Global, path: &[u8]) -> Result<Text, BaseFault>
    ensures reads { ReadsValue (IsPathOf path.now) result }
{
    if path.is_empty() {
        return Err(BaseFault::Form);
    }
    Ok(Text::from_slice(alloc, path)?)
}

// What stands before the last colon, and what behind it.
fn at_last_colon(text: &[u8]) -> Option<(&[u8], &[u8])>
    ensures some { IfSome result (λ parts. IsSplit text.now parts.0.now parts.1.now) }
    ensures none { IfNone result (All (λ byte. byte ≢ 58) text.now) }
{
    let Some(at) = text.iter().rposition(|byte| *byte == b':') else {
        return None;
    };
    Some((&text[..at], &text[at + 1..]))
}
