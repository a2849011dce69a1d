//! URIs, and the reader of their texts.

ghost use Rattle.std.specs.Prelude.{◌≡◌, ◌↔◌, IsTrue, IfOk};
ghost use Rattle.sz_uri.specs.Uri.{asked_for, IsHttp, IsUri, IsUriOf};
ghost use Rattle.url.specs.Parser.{IsOutOfRoom};

use std::alloc::Global;
use sz_base::{BaseFault, Host, OutOfMemory, Target, Text};
use url::{ParseError, Url};

/// What a URI gives: where to connect to, and what to ask for there.
#[derive(Debug, Drop)]
pub struct Uri {
    /// The host and the port, which is 80 for `http` and 443 for `https` where the URI names none.
    pub target: Target,
    /// The path, and where the URI has a query a question mark and the query: the request target in the origin
    /// form (RFC 9112 section 3.2.1).
    pub path_and_query: Text,
}

impl Uri {
    /// Reads a URI. `Form` exactly where the text is none: where it isn't UTF-8 or no URL, where its scheme is
    /// neither `http` nor `https`, where its host is none of `Host::read`, and where its port is 0.
    pub fn read(alloc: Global, text: &[u8]) -> Result<Self, BaseFault>
        ensures ok { IfOk result (IsUri text.now) }
        ensures refused { result ≡ Err BaseFault.Form → (uri : Uri) → ¬ (IsUri text.now uri) }
    {
        let Ok(text) = str::from_utf8(text) else {
            return Err(BaseFault::Form);
        };
        match Url::parse(alloc, text) {
            Ok(url) => Uri::of_url(alloc, &url),
            Err(error) => Err(fault_of(error)),
        }
    }

    // what the URL gives
    fn of_url(alloc: Global, url: &Url) -> Result<Self, BaseFault>
        ensures ok { IfOk result (IsUriOf url.now) }
        ensures refused { result ≡ Err BaseFault.Form → (uri : Uri) → ¬ (IsUriOf url.now uri) }
    {
        if !is_http(url.scheme()) {
            return Err(BaseFault::Form);
        }
        match (url.host_str(), url.port_or_known_default()) {
            (Some(host), Some(port)) if port > 0 => {
                let host = Host::read(alloc, host.as_bytes())?;
                let path_and_query = path_and_query(alloc, url)?;
                Ok(Uri {
                    target: Target { host, port },
                    path_and_query,
                })
            }
            _ => Err(BaseFault::Form),
        }
    }
}

// a URL that came to 4 GB is too large for the memory that a reader has
fn fault_of(error: ParseError) -> BaseFault
    ensures { result ≡ BaseFault.Form → ¬ (IsOutOfRoom error) }
{
    match error {
        ParseError::OutOfMemory | ParseError::Overflow => BaseFault::OutOfMemory,
        _ => BaseFault::Form,
    }
}

fn is_http(scheme: &str) -> bool
    ensures { IsTrue result ↔ IsHttp scheme.now }
{
    scheme == "http" || scheme == "https"
}

fn path_and_query(alloc: Global, url: &Url) -> Result<Text, OutOfMemory>
    ensures { IfOk result (λ text. text ≡ asked_for url.now) }
{
    let mut text = Text::from_slice(alloc, url.path().as_bytes())?;
    if let Some(query) = url.query() {
        text.append(b"?")?;
        text.append(query.as_bytes())?;
    }
    Ok(text)
}
