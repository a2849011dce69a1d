//! The request for bootstrapping data, as a device writes it (RFC 8572 section 7).

ghost use Rattle.std.specs.Prelude.{◌≡◌, [], ◌<◌, ◌^◌, IfOk, OnOk};
ghost use Rattle.std.specs.Option.{option_copied};
ghost use Rattle.serde_json.specs.View.{view};
ghost use Rattle.serde_json.specs.Written.{compact_text};
ghost use Rattle.sz_base.specs.Host.{IsHost};
ghost use Rattle.sz_base.specs.Target.{target_text};
ghost use Rattle.sz_json.specs.Bounded.{IsBoundedJson};
ghost use Rattle.sz_rest.specs.Asked.{AsksFor};
ghost use Rattle.sz_rest.specs.Message.{lines_text};
ghost use Rattle.sz_rest.specs.Request.{AreFormed, empty_leaf, input_value, request_fields, request_line, request_text, request_value};

use crate::message::{VERSION, YANG_JSON, begin, decimal, finish, push_field};
use http::Method;
use std::alloc::Global;
use sz_base::{Bytes, OutOfMemory, Serial, Target};
use sz_json::{Name, Object, Value, single, write};

/// The operation's path under the root of RESTCONF (RFC 8040 section 3.6), which is always `/restconf` here.
pub(crate) const OPERATION_PATH: &[u8] =
    b"/restconf/operations/ietf-sztp-bootstrap-server:get-bootstrapping-data";

/// The field that names the device: this project's own.
pub(crate) const SERIAL_FIELD: &[u8] = b"Sztp-Serial-Number";

/// The request to this server for the device of this serial number, with the nonce where there is one. A server reads
/// it as asking to bootstrap that device.
pub fn write_request(
    alloc: Global,
    target: &Target,
    serial: &Serial,
    nonce: Option<&[u8; 16]>,
) -> Result<Bytes, OutOfMemory>
    ensures written { IfOk result (λ text. text ≡ request_text target.now serial.now (option_copied nonce.entry)) }
    ensures asks { IfOk result (AsksFor serial.now) }
{
    let lines = lines(alloc, target, serial)?;
    let body = body(alloc, nonce)?;
    finish(alloc, lines, body.as_slice())
}

// The request line, and the fields but for the last.
fn lines(alloc: Global, target: &Target, serial: &Serial) -> Result<Bytes, OutOfMemory>
    ensures text { IfOk result (λ lines. lines ≡ lines_text request_line (request_fields target.now serial.now)) }
    ensures formed { OnOk result (AreFormed target.now serial.now) }
{
    let host = host_and_port(alloc, target)?;
    let mut lines = request_line(alloc)?;
    push_field(&mut lines, b"Host", host.as_slice())?;
    push_field(&mut lines, SERIAL_FIELD, serial.as_slice())?;
    push_field(&mut lines, b"Content-Type", YANG_JSON)?;
    push_field(&mut lines, b"Accept", YANG_JSON)?;
    push_field(&mut lines, b"Connection", b"close")?;
    Ok(lines)
}

fn request_line(alloc: Global) -> Result<Bytes, OutOfMemory>
    ensures { IfOk result (λ lines. lines ≡ lines_text request_line []) }
{
    begin(
        alloc,
        Method::POST.as_str().as_bytes(),
        OPERATION_PATH,
        VERSION,
    )
}

// The host, a colon and the port.
fn host_and_port(alloc: Global, target: &Target) -> Result<Bytes, OutOfMemory>
    ensures text { IfOk result (λ text. text ≡ target_text target.now) }
    ensures host { OnOk result (IsHost target.now.host) }
    ensures port { target.now.port < 2 ^ 16 }
{
    let port = decimal(alloc, u64::from(target.port))?;
    let mut text = Bytes::from_slice(alloc, target.host.as_slice())?;
    text.append(b":")?;
    text.append(port.as_bytes())?;
    Ok(text)
}

fn body(alloc: Global, nonce: Option<&[u8; 16]>) -> Result<Bytes, OutOfMemory>
    ensures compact { IfOk result (λ body. body ≡ compact_text (request_value (option_copied nonce.entry))) }
    ensures reads_back { IfOk result (λ body. IsBoundedJson body (request_value (option_copied nonce.entry))) }
{
    let value = request_object(alloc, nonce)?;
    write(alloc, &value)
}

fn request_object(alloc: Global, nonce: Option<&[u8; 16]>) -> Result<Value, OutOfMemory>
    ensures { IfOk result (λ value. view value ≡ request_value (option_copied nonce.entry)) }
{
    let input = input(alloc, nonce)?;
    single(alloc, Name::Input, input)
}

fn input(alloc: Global, nonce: Option<&[u8; 16]>) -> Result<Value, OutOfMemory>
    ensures { IfOk result (λ value. view value ≡ input_value (option_copied nonce.entry)) }
{
    let mut input = Object::create(alloc);
    if let Some(nonce) = nonce {
        input.put_binary(alloc, Name::Nonce, nonce.as_slice())?;
    }
    input.put(alloc, Name::SignedDataPreferred, empty_leaf(alloc)?)?;
    Ok(input.into_value())
}

// A leaf of type empty (RFC 7951 section 6.9).
fn empty_leaf(alloc: Global) -> Result<Value, OutOfMemory>
    ensures { IfOk result (λ leaf. view leaf ≡ empty_leaf) }
{
    let mut items = Vec::new(alloc);
    items.push(Value::Null)?;
    Ok(Value::from(items))
}
