//! The request for an image (RFC 9112 sections 3 and 5).

ghost use Rattle.std.specs.Prelude.{◌≡◌, IfOk, string_bytes};
ghost use Rattle.std.specs.Fmt.{decimal};
ghost use Rattle.sz_base.specs.Target.{target_text};
ghost use Rattle.sz_image.specs.Request.{request_text};

use std::alloc::Global;
use sz_base::{Bytes, OutOfMemory, Target};
use sz_uri::Uri;

/// The request for what this URI asks for.
pub(crate) fn request(alloc: Global, uri: &Uri) -> Result<Bytes, OutOfMemory>
    ensures { IfOk result (λ text. text ≡ request_text uri.now) }
{
    let host = host_and_port(alloc, &uri.target)?;
    let mut text = Bytes::from_slice(alloc, b"GET ")?;
    text.append(uri.path_and_query.as_slice())?;
    text.append(b" HTTP/1.1")?;
    text.append(b"\r\n")?;
    text.append(b"Host: ")?;
    text.append(host.as_slice())?;
    text.append(b"\r\n")?;
    text.append(b"Connection: close")?;
    text.append(b"\r\n")?;
    text.append(b"\r\n")?;
    Ok(text)
}

// The host, a colon and the port.
fn host_and_port(alloc: Global, target: &Target) -> Result<Bytes, OutOfMemory>
    ensures { IfOk result (λ text. text ≡ target_text target.now) }
{
    let port = decimal(alloc, u64::from(target.port))?;
    let mut text = Bytes::from_slice(alloc, target.host.as_slice())?;
    text.append(b":")?;
    text.append(port.as_bytes())?;
    Ok(text)
}

// A number in decimal.
fn decimal(alloc: Global, number: u64) -> Result<String, OutOfMemory>
    ensures { IfOk result (λ text. string_bytes text ≡ decimal number) }
{
    Ok(number.to_string(alloc)?)
}
