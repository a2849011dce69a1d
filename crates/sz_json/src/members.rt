//! The readers of a member, each in one form. Each answers `None` exactly where the value is an object without
//! such a member, and the fault of the name exactly where the member has another form or the value is no object.

ghost use Rattle.std.specs.Prelude.{◌≡◌, true, false, Ok, Some, IfOk, IfErr, IfSome, IsUtf8, option_and_then, option_map, is_some, MatchOption};
ghost use Rattle.serde_json.specs.Find.{as_object, get};
ghost use Rattle.serde_json.specs.View.{view, items_view};
ghost use Rattle.sz_json.specs.Fault.{fault_of, IsFault, IsNoWant};
ghost use Rattle.sz_json.specs.Form.{base64_of, binary_of, flag_of, if_between, list_of, number_of, object_of, port_of, text_of};
ghost use Rattle.sz_json.specs.Member.{optional, or_fault, required};
ghost use Rattle.sz_json.specs.Name.{name_text};

use crate::{JsonFault, Name, Value};
use std::alloc::Global;
use sz_base::{BaseFault, Bytes, Text, base64_bytes};

/// A member of any form: what stands under the name in the object.
pub fn member<'v>(value: &'v Value, name: Name) -> Result<Option<&'v Value>, JsonFault>
    ensures object { IfOk result (λ _. is_some (as_object (view value.now)) ≡ true) }
    ensures found { IfOk result (λ found. option_map (λ member. view member.now) found
        ≡ get (name_text name) (view value.now)) }
    ensures refused { IfErr result (λ fault. (fault ≡ JsonFault.Member name)
        × (is_some (as_object (view value.now)) ≡ false)) }
{
    if !value.is_object() {
        return Err(JsonFault::Member { name });
    }
    Ok(value.get(name.as_str()))
}

/// A text, as it stands in the value.
pub fn string<'v>(value: &'v Value, name: Name) -> Result<Option<&'v str>, JsonFault>
    ensures ok { IfOk result (λ found. optional text_of name (view value.now)
        ≡ Ok (option_map (λ text. text.now) found)) }
    ensures refused { IfErr result (IsFault (fault_of (optional text_of name (view value.now)))) }
    ensures no_want { IfErr result IsNoWant }
{
    match member(value, name)? {
        Some(member) => formed(member.as_str(), name),
        None => Ok(None),
    }
}

/// A text, as its bytes, which are UTF-8.
pub fn text(alloc: Global, value: &Value, name: Name) -> Result<Option<Text>, JsonFault>
    ensures ok { IfOk result (λ found. optional text_of name (view value.now) ≡ Ok found) }
    ensures utf8 { IfOk result (λ found. IfSome found IsUtf8) }
    ensures refused { IfErr result (IsFault (fault_of (optional text_of name (view value.now)))) }
{
    match string(value, name)? {
        Some(text) => Ok(Some(Text::from_slice(alloc, text.as_bytes())?)),
        None => Ok(None),
    }
}

/// Bytes, from their text in base64 with its padding (RFC 4648 section 4).
pub fn binary(alloc: Global, value: &Value, name: Name) -> Result<Option<Bytes>, JsonFault>
    ensures ok { IfOk result (λ found. optional binary_of name (view value.now) ≡ Ok found) }
    ensures refused { IfErr result (IsFault (fault_of (optional binary_of name (view value.now)))) }
{
    match member(value, name)? {
        Some(member) => match member.as_str() {
            Some(text) => Ok(Some(decoded(alloc, text, name)?)),
            None => Err(JsonFault::Member { name }),
        },
        None => Ok(None),
    }
}

/// True or false.
pub fn flag(value: &Value, name: Name) -> Result<Option<bool>, JsonFault>
    ensures ok { IfOk result (λ found. optional flag_of name (view value.now) ≡ Ok found) }
    ensures refused { IfErr result (IsFault (fault_of (optional flag_of name (view value.now)))) }
    ensures no_want { IfErr result IsNoWant }
{
    match member(value, name)? {
        Some(member) => formed(member.as_bool(), name),
        None => Ok(None),
    }
}

/// A number below 2^32, written without a fraction.
pub fn number(value: &Value, name: Name) -> Result<Option<u32>, JsonFault>
    ensures ok { IfOk result (λ found. optional number_of name (view value.now) ≡ Ok found) }
    ensures refused { IfErr result (IsFault (fault_of (optional number_of name (view value.now)))) }
    ensures no_want { IfErr result IsNoWant }
{
    match member(value, name)? {
        Some(member) => formed(as_u32(member.as_u64()), name),
        None => Ok(None),
    }
}

/// A port: a number from 1 to 65535, written without a fraction.
pub fn port(value: &Value, name: Name) -> Result<Option<u16>, JsonFault>
    ensures ok { IfOk result (λ found. optional port_of name (view value.now) ≡ Ok found) }
    ensures refused { IfErr result (IsFault (fault_of (optional port_of name (view value.now)))) }
    ensures no_want { IfErr result IsNoWant }
{
    match member(value, name)? {
        Some(member) => formed(as_port(member.as_u64()), name),
        None => Ok(None),
    }
}

/// An object.
pub fn object<'v>(value: &'v Value, name: Name) -> Result<Option<&'v Value>, JsonFault>
    ensures ok { IfOk result (λ found. optional object_of name (view value.now)
        ≡ Ok (option_map (λ member. view member.now) found)) }
    ensures refused { IfErr result (IsFault (fault_of (optional object_of name (view value.now)))) }
    ensures no_want { IfErr result IsNoWant }
{
    match member(value, name)? {
        Some(member) if member.is_object() => Ok(Some(member)),
        Some(_) => Err(JsonFault::Member { name }),
        None => Ok(None),
    }
}

/// A list, as its items.
pub fn list<'v>(value: &'v Value, name: Name) -> Result<Option<&'v [Value]>, JsonFault>
    ensures ok { IfOk result (λ found. optional list_of name (view value.now)
        ≡ Ok (option_map (λ items. items_view items.now) found)) }
    ensures refused { IfErr result (IsFault (fault_of (optional list_of name (view value.now)))) }
    ensures no_want { IfErr result IsNoWant }
{
    match member(value, name)? {
        Some(member) => match member.as_array() {
            Some(items) => Ok(Some(items.as_slice())),
            None => Err(JsonFault::Member { name }),
        },
        None => Ok(None),
    }
}

/// A text that has to be there, as it stands in the value.
pub fn required_string<'v>(value: &'v Value, name: Name) -> Result<&'v str, JsonFault>
    ensures ok { IfOk result (λ text. required text_of name (view value.now) ≡ Ok text.now) }
    ensures refused { IfErr result (IsFault (fault_of (required text_of name (view value.now)))) }
    ensures no_want { IfErr result IsNoWant }
{
    match member(value, name)? {
        Some(member) => needed(member.as_str(), name),
        None => Err(JsonFault::Member { name }),
    }
}

/// A text that has to be there, as its bytes, which are UTF-8.
pub fn required_text(alloc: Global, value: &Value, name: Name) -> Result<Text, JsonFault>
    ensures ok { IfOk result (λ text. required text_of name (view value.now) ≡ Ok text) }
    ensures utf8 { IfOk result IsUtf8 }
    ensures refused { IfErr result (IsFault (fault_of (required text_of name (view value.now)))) }
{
    let text = required_string(value, name)?;
    Ok(Text::from_slice(alloc, text.as_bytes())?)
}

/// Bytes that have to be there, from their text in base64.
pub fn required_binary(alloc: Global, value: &Value, name: Name) -> Result<Bytes, JsonFault>
    ensures ok { IfOk result (λ bytes. required binary_of name (view value.now) ≡ Ok bytes) }
    ensures refused { IfErr result (IsFault (fault_of (required binary_of name (view value.now)))) }
{
    match member(value, name)? {
        Some(member) => match member.as_str() {
            Some(text) => decoded(alloc, text, name),
            None => Err(JsonFault::Member { name }),
        },
        None => Err(JsonFault::Member { name }),
    }
}

/// An object that has to be there.
pub fn required_object<'v>(value: &'v Value, name: Name) -> Result<&'v Value, JsonFault>
    ensures ok { IfOk result (λ member. required object_of name (view value.now) ≡ Ok (view member.now)) }
    ensures refused { IfErr result (IsFault (fault_of (required object_of name (view value.now)))) }
    ensures no_want { IfErr result IsNoWant }
{
    match member(value, name)? {
        Some(member) if member.is_object() => Ok(member),
        _ => Err(JsonFault::Member { name }),
    }
}

// a member that is there, in its form or at fault
pub(crate) fn formed<T>(found: Option<T>, name: Name) -> Result<Option<T>, JsonFault>
    ensures { MatchOption found (result ≡ Err (JsonFault.Member name)) (λ value. result ≡ Ok (Some value)) }
{
    match found {
        Some(value) => Ok(Some(value)),
        None => Err(JsonFault::Member { name }),
    }
}

// a member that has to be there, in its form or at fault
pub(crate) fn needed<T>(found: Option<T>, name: Name) -> Result<T, JsonFault>
    ensures { MatchOption found (result ≡ Err (JsonFault.Member name)) (λ value. result ≡ Ok value) }
{
    match found {
        Some(value) => Ok(value),
        None => Err(JsonFault::Member { name }),
    }
}

// the bytes of a text in base64
fn decoded(alloc: Global, text: &str, name: Name) -> Result<Bytes, JsonFault>
    ensures ok { IfOk result (λ bytes. base64_of text.now ≡ Some bytes) }
    ensures refused { IfErr result (IsFault (fault_of (or_fault name (base64_of text.now)))) }
{
    match base64_bytes(alloc, text.as_bytes()) {
        Ok(bytes) => Ok(bytes),
        Err(BaseFault::Form) => Err(JsonFault::Member { name }),
        Err(BaseFault::OutOfMemory) => Err(JsonFault::OutOfMemory),
    }
}

fn as_u32(number: Option<u64>) -> Option<u32>
    ensures { result ≡ option_and_then (if_between 0 4_294_967_295) number }
{
    match number {
        Some(number @ 0..=0xffff_ffff) => Some(number as u32),
        _ => None,
    }
}

fn as_port(number: Option<u64>) -> Option<u16>
    ensures { result ≡ option_and_then (if_between 1 65535) number }
{
    match number {
        Some(number @ 1..=65535) => Some(number as u16),
        _ => None,
    }
}
