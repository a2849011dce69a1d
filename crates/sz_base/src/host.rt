//! Hosts, and the reader of their texts.

ghost use Rattle.std.specs.Prelude.{◌≡◌, ◌≢◌, ◌↔◌, List, ℕ, IsTrue, IfOk, IfSome, IfNone};
ghost use Rattle.sz_base.specs.Host.{in_brackets, is_ipv6_byte, is_name_byte, IsHost, IsIpv6Text, IsName};
ghost use Rattle.sz_base.specs.Reading.{ReadsText};

use crate::{BaseFault, OutOfMemory, Text};
use std::alloc::Global;
use std::marker::Model;

const MOST_NAME_BYTES: usize = 255;

const MOST_IPV6_BYTES: usize = 45;

/// Where to connect to: a name of 1 to 255 bytes of letters, digits, `-`, `_` and `.`, or an IPv6 text in
/// brackets. Contracts see it as its bytes.
#[derive(Debug, Drop)]
pub struct Host {
    text: Text,
}

impl Model for Host {
    ghost use Rattle.std.specs.Prelude.{List, ℕ};
    ghost use Rattle.sz_base.specs.Host.{IsHost};

    ghost Value = { List ℕ };

    ghost view = { λ host. host.text };

    ghost invariant = { λ host. IsHost host.text };
}

impl Host {
    /// Reads a host. `Form` exactly where the text is none.
    pub fn read(alloc: Global, text: &[u8]) -> Result<Self, BaseFault>
        ensures reads { ReadsText IsHost text.now result }
    {
        if !is_host(text) {
            return Err(BaseFault::Form);
        }
        let text = Text::from_slice(alloc, text)?;
        Ok(Host { text })
    }

    /// The host's bytes.
    pub fn as_slice(&self) -> &[u8]
        ensures bytes { result.now ≡ self.now }
        ensures form { IsHost self.now }
    {
        self.text.as_slice()
    }

    /// An equal host.
    pub fn copy(&self, alloc: Global) -> Result<Self, OutOfMemory>
        ensures { IfOk result (λ copied. copied ≡ self.now) }
    {
        let text = self.text.copy(alloc)?;
        Ok(Host { text })
    }
}

fn is_host(text: &[u8]) -> bool
    ensures { IsTrue result ↔ IsHost text.now }
{
    match inside_brackets(text) {
        Some(inner) => is_ipv6_text(inner),
        None => is_name(text),
    }
}

fn inside_brackets(text: &[u8]) -> Option<&[u8]>
    ensures some { IfSome result (λ inner. text.now ≡ in_brackets inner.now) }
    ensures none { IfNone result ((inner : List ℕ) → text.now ≢ in_brackets inner) }
{
    let end = text.len().checked_sub(1)?;
    if end == 0 || text[0] != b'[' || text[end] != b']' {
        return None;
    }
    Some(&text[1..end])
}

fn is_name(text: &[u8]) -> bool
    ensures { IsTrue result ↔ IsName text.now }
{
    matches!(text.len(), 1..=MOST_NAME_BYTES) && text.iter().all(|byte| is_name_byte(*byte))
}

fn is_name_byte(byte: u8) -> bool
    ensures { result ≡ is_name_byte byte }
{
    byte.is_ascii_alphanumeric() || b"-_.".contains(&byte)
}

fn is_ipv6_text(text: &[u8]) -> bool
    ensures { IsTrue result ↔ IsIpv6Text text.now }
{
    matches!(text.len(), 2..=MOST_IPV6_BYTES)
        && text.iter().all(|byte| is_ipv6_byte(*byte))
        && text.iter().filter(|byte| **byte == b':').count() >= 2
}

fn is_ipv6_byte(byte: u8) -> bool
    ensures { result ≡ is_ipv6_byte byte }
{
    byte.is_ascii_hexdigit() || b":.".contains(&byte)
}
