//! What a request asks of a server, or the status with which it is refused.

ghost use Rattle.std.specs.Prelude.{◌≡◌, ◌≢◌, ◌↔◌, ◌<◌, ◌∷◌, ◌++◌, [], ℕ, List, IsTrue, length, slice_index_or, IfOk, IfErr, IfSome, IfNone, IsSome, MatchOption, OnErr};
ghost use Rattle.std.specs.Option.{option_copied, option_to_list};
ghost use Rattle.sz_base.specs.Serial.{IsSerial};
ghost use Rattle.sz_http.specs.Parts.{fields_of, parts_of};
ghost use Rattle.sz_http.specs.Framing.{value_if, values};
ghost use Rattle.sz_rest.specs.Asked.{Asks, AsksForImage, AsksToBootstrap, HasMethod, IsAnImagePath, IsAskFault, IsForOperation, IsImagePath, IsInput, NamesADevice, NamesDevice};
ghost use Rattle.sz_rest.specs.Request.{post};

use crate::AskFault;
use crate::request::{OPERATION_PATH, SERIAL_FIELD};
use http::{Method, StatusCode};
use std::alloc::Global;
use sz_base::{BaseFault, OutOfMemory, Serial, Text};
use sz_http::{Fields, Head};
use sz_json::{JsonFault, Name};

const IMAGES_PATH: &[u8] = b"/images/";

/// What a request asks for.
#[derive(Debug, Drop)]
pub enum Asked {
    /// The bootstrapping data of the device of this serial number.
    Bootstrap(Serial),
    /// The image of this name.
    Image(Text),
}

/// Reads a request by its head and its body. `Refused` exactly with the status of the first rule that applies: on the
/// operation's path 405 for another method than POST, 400 where not exactly one field names the device by a serial
/// number, 400 for a body that is neither empty nor bounded JSON with the operation's input; on an image's path 405 for
/// another method than GET; 404 on any other path.
pub fn read_request(alloc: Global, head: &Head<'_>, body: &[u8]) -> Result<Asked, AskFault>
    ensures ok { IfOk result (Asks (parts_of head.now) body.now) }
    ensures refused { IfErr result (IsAskFault (parts_of head.now) body.now) }
{
    if head.target == OPERATION_PATH {
        let serial = bootstrap(alloc, head, body)?;
        return Ok(Asked::Bootstrap(serial));
    }
    let image = image(alloc, head)?;
    Ok(Asked::Image(image))
}

fn bootstrap(alloc: Global, head: &Head<'_>, body: &[u8]) -> Result<Serial, AskFault>
    requires { IsForOperation (parts_of head.now) }
    ensures ok { IfOk result (AsksToBootstrap (parts_of head.now) body.now) }
    ensures refused { IfErr result (IsAskFault (parts_of head.now) body.now) }
{
    if head.method != Method::POST.as_str().as_bytes() {
        return Err(refused(StatusCode::METHOD_NOT_ALLOWED));
    }
    posted(alloc, head, body)
}

fn posted(alloc: Global, head: &Head<'_>, body: &[u8]) -> Result<Serial, AskFault>
    requires target { IsForOperation (parts_of head.now) }
    requires method { HasMethod (parts_of head.now) post }
    ensures ok { IfOk result (AsksToBootstrap (parts_of head.now) body.now) }
    ensures refused { IfErr result (IsAskFault (parts_of head.now) body.now) }
{
    let named = device(alloc, head)?;
    let Some(serial) = named else {
        return Err(refused(StatusCode::BAD_REQUEST));
    };
    let taken = is_input(alloc, body)?;
    if !taken {
        return Err(refused(StatusCode::BAD_REQUEST));
    }
    Ok(serial)
}

fn image(alloc: Global, head: &Head<'_>) -> Result<Text, AskFault>
    requires { ¬ IsForOperation (parts_of head.now) }
    ensures ok { IfOk result (AsksForImage (parts_of head.now)) }
    ensures refused { (body : List ℕ) → IfErr result (IsAskFault (parts_of head.now) body) }
{
    let Some(image) = image_name(alloc, head.target)? else {
        return Err(refused(StatusCode::NOT_FOUND));
    };
    if head.method != Method::GET.as_str().as_bytes() {
        return Err(refused(StatusCode::METHOD_NOT_ALLOWED));
    }
    Ok(image)
}

fn refused(status: StatusCode) -> AskFault
    ensures { result ≡ AskFault.Refused status }
{
    AskFault::Refused {
        status: status.as_u16(),
    }
}

// The device that the request names.
fn device(alloc: Global, head: &Head<'_>) -> Result<Option<Serial>, OutOfMemory>
    ensures { IfOk result (λ serial. MatchOption serial (¬ NamesADevice (parts_of head.now))
        (NamesDevice (parts_of head.now))) }
{
    match one_value(&head.fields, SERIAL_FIELD) {
        Some(text) => serial_of(alloc, text),
        None => Ok(None),
    }
}

// The name of the image that the target is for.
fn image_name(alloc: Global, target: &[u8]) -> Result<Option<Text>, OutOfMemory>
    ensures { IfOk result (λ image. MatchOption image (¬ IsAnImagePath target.now) (IsImagePath target.now)) }
{
    let Some(name) = target.strip_prefix(IMAGES_PATH) else {
        return Ok(None);
    };
    match serial_of(alloc, name)? {
        Some(serial) => Ok(Some(Text::from_slice(alloc, serial.as_slice())?)),
        None => Ok(None),
    }
}

// The serial number of this text, if it is one.
fn serial_of(alloc: Global, text: &[u8]) -> Result<Option<Serial>, OutOfMemory>
    ensures { IfOk result (λ serial. MatchOption serial (¬ IsSerial text.now)
        (λ serial. (serial ≡ text.now) × IsSerial text.now)) }
{
    match Serial::read(alloc, text) {
        Ok(serial) => Ok(Some(serial)),
        Err(BaseFault::Form) => Ok(None),
        Err(BaseFault::OutOfMemory) => Err(OutOfMemory),
    }
}

// Whether the body is empty, or bounded JSON with the operation's input.
fn is_input(alloc: Global, body: &[u8]) -> Result<bool, OutOfMemory>
    ensures { IfOk result (λ is_input. IsTrue is_input ↔ IsInput body.now) }
{
    if body.is_empty() {
        return Ok(true);
    }
    match sz_json::read_bounded(alloc, body) {
        Ok(value) => Ok(value.get(Name::Input.as_str()).is_some()),
        Err(JsonFault::Member { name: _ }) => Ok(false),
        Err(JsonFault::OutOfMemory) => Err(OutOfMemory),
    }
}

/// A further field of a name that should stand once.
struct Repeated;

// The value of the field of this name, if there is one and no second.
fn one_value<'a>(fields: &Fields<'a>, name: &[u8]) -> Option<&'a [u8]>
    ensures some { IfSome result (λ value. values name.now (fields_of fields.now) ≡ value.now ∷ []) }
    ensures none { IfNone result ((value : List ℕ) → values name.now (fields_of fields.now) ≢ value ∷ []) }
{
    let mut found = None;
    for index in 0..fields.len() {
        let value = value_at(fields, name, index);
        match with_value(found, value) {
            Ok(one) => found = one,
            Err(Repeated) => return None,
        }
    }
    found
}

// What was found, with one more value.
fn with_value<'a>(
    found: Option<&'a [u8]>,
    value: Option<&'a [u8]>,
) -> Result<Option<&'a [u8]>, Repeated>
    ensures ok { IfOk result (λ one. option_to_list (option_copied one)
        ≡ option_to_list (option_copied found.entry) ++ option_to_list (option_copied value.entry)) }
    ensures repeated { OnErr result (IsSome (option_copied found.entry) × IsSome (option_copied value.entry)) }
{
    match (found, value) {
        (Some(_), Some(_)) => Err(Repeated),
        (Some(one), None) => Ok(Some(one)),
        (None, other) => Ok(other),
    }
}

// The value of the field at this index, where it has this name.
fn value_at<'a>(fields: &Fields<'a>, name: &[u8], index: usize) -> Option<&'a [u8]>
    ensures { index < length (fields_of fields.now)
        → option_copied result ≡ value_if name.now (slice_index_or (fields_of fields.now) index ([], [])) }
{
    match fields.get(index) {
        Some((found, value)) if found.eq_ignore_ascii_case(name) => Some(value),
        _ => None,
    }
}
