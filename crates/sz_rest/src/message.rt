//! The writer of messages (RFC 9112 sections 2 to 6), line by line.

ghost use Rattle.std.specs.Prelude.{◌≡◌, ◌++◌, [], string_bytes, IfOk, OnOk};
ghost use Rattle.std.specs.Fmt.{decimal};
ghost use Rattle.sz_rest.specs.Message.{field_line, Finishes, lines_text, start_line};

use std::alloc::Global;
use sz_base::{Bytes, OutOfMemory};

/// The version that is written.
pub(crate) const VERSION: &[u8] = b"HTTP/1.1";

/// The media type of what is asked and answered (RFC 8040 section 11.3.2).
pub(crate) const YANG_JSON: &[u8] = b"application/yang-data+json";

/// The start line of these three words, and no field yet.
pub(crate) fn begin(
    alloc: Global,
    first: &[u8],
    second: &[u8],
    third: &[u8],
) -> Result<Bytes, OutOfMemory>
    ensures { IfOk result (λ text. text ≡ lines_text (start_line first.now second.now third.now) []) }
{
    let mut text = Bytes::from_slice(alloc, first)?;
    text.append(b" ")?;
    text.append(second)?;
    text.append(b" ")?;
    text.append(third)?;
    text.append(b"\r\n")?;
    Ok(text)
}

/// Puts the line of a field last.
pub(crate) fn push_field(text: &mut Bytes, name: &[u8], value: &[u8]) -> Result<(), OutOfMemory>
    ensures { OnOk result (text.new ≡ text.old ++ field_line (name.now, value.now)) }
{
    text.append(name)?;
    text.append(b": ")?;
    text.append(value)?;
    text.append(b"\r\n")
}

/// Ends a message of such lines with the field that says how long the body is, the empty line and the body.
pub(crate) fn finish(alloc: Global, lines: Bytes, body: &[u8]) -> Result<Bytes, OutOfMemory>
    ensures { IfOk result (Finishes lines body.now) }
{
    let length = decimal(alloc, body.len() as u64)?;
    let mut text = lines;
    push_field(&mut text, b"Content-Length", length.as_bytes())?;
    text.append(b"\r\n")?;
    text.append(body)?;
    Ok(text)
}

/// A number in decimal.
pub(crate) fn decimal(alloc: Global, number: u64) -> Result<String, OutOfMemory>
    ensures { IfOk result (λ text. string_bytes text ≡ decimal number) }
{
    Ok(number.to_string(alloc)?)
}
