//! The writer of objects, a member at a time.

ghost use Rattle.std.specs.Prelude.{◌≡◌, option_map, string_bytes, IfOk, OnOk, OnErr};
ghost use Rattle.std.specs.Option.{option_copied};
ghost use Rattle.sz_base.specs.Encoding.{base64_text};
ghost use Rattle.serde_json.specs.Data.{boolean, no_members, number, object, put, string, unsigned};
ghost use Rattle.serde_json.specs.View.{view};
ghost use Rattle.sz_json.specs.Name.{name_text};

use crate::{Name, Value};
use base64::engine::general_purpose::STANDARD;
use serde_json::Map;
use std::alloc::Global;
use sz_base::{Bytes, OutOfMemory};

/// An object that is written a member at a time. Contracts see its members, each name once, in the byte order of
/// the names.
#[derive(Drop)]
pub struct Object {
    members: Map<String, Value>,
}

impl Object {
    ghost use Rattle.sz_json.specs.Object.{binary_value, members_in, with_member};

    /// The object without members. Takes no memory.
    pub fn create(alloc: Global) -> Self
        ensures { members_in result ≡ no_members }
    {
        Object {
            members: Map::new(alloc),
        }
    }

    /// Puts a member, in place of one of its name. A refusal leaves the object as it was.
    pub fn put(&mut self, alloc: Global, name: Name, value: Value) -> Result<(), OutOfMemory>
        ensures ok { OnOk result (members_in self.new ≡ put (name_text name) (view value) (members_in self.old)) }
        ensures err { OnErr result (members_in self.new ≡ members_in self.old) }
    {
        serde_json::put(&mut self.members, alloc, name.as_str(), value)?;
        Ok(())
    }

    /// Puts a member where there is one.
    pub fn put_optional(
        &mut self,
        alloc: Global,
        name: Name,
        value: Option<Value>,
    ) -> Result<(), OutOfMemory>
        ensures ok { OnOk result (members_in self.new
            ≡ with_member name (option_map view value) (members_in self.old)) }
        ensures err { OnErr result (members_in self.new ≡ members_in self.old) }
    {
        match value {
            Some(value) => self.put(alloc, name, value),
            None => Ok(()),
        }
    }

    /// Puts a text.
    pub fn put_text(&mut self, alloc: Global, name: Name, text: &str) -> Result<(), OutOfMemory>
        ensures ok { OnOk result (members_in self.new ≡ put (name_text name) (string text.now) (members_in self.old)) }
        ensures err { OnErr result (members_in self.new ≡ members_in self.old) }
    {
        self.put(alloc, name, Value::try_from_str(alloc, text)?)
    }

    /// Puts a text where there is one.
    pub fn put_optional_text(
        &mut self,
        alloc: Global,
        name: Name,
        text: Option<&str>,
    ) -> Result<(), OutOfMemory>
        ensures ok { OnOk result (members_in self.new
            ≡ with_member name (option_map string (option_copied text.entry)) (members_in self.old)) }
        ensures err { OnErr result (members_in self.new ≡ members_in self.old) }
    {
        match text {
            Some(text) => self.put_text(alloc, name, text),
            None => Ok(()),
        }
    }

    /// Puts bytes, as their text in base64.
    pub fn put_binary(&mut self, alloc: Global, name: Name, bytes: &[u8]) -> Result<(), OutOfMemory>
        ensures ok { OnOk result (members_in self.new
            ≡ put (name_text name) (binary_value bytes.now) (members_in self.old)) }
        ensures err { OnErr result (members_in self.new ≡ members_in self.old) }
    {
        self.put(alloc, name, Value::from(base64(alloc, bytes)?))
    }

    /// Puts bytes where there are some, as their text in base64.
    pub fn put_optional_binary(
        &mut self,
        alloc: Global,
        name: Name,
        bytes: Option<&Bytes>,
    ) -> Result<(), OutOfMemory>
        ensures ok { OnOk result (members_in self.new
            ≡ with_member name (option_map binary_value (option_copied bytes.entry)) (members_in self.old)) }
        ensures err { OnErr result (members_in self.new ≡ members_in self.old) }
    {
        match bytes {
            Some(bytes) => self.put_binary(alloc, name, bytes.as_slice()),
            None => Ok(()),
        }
    }

    /// Puts true or false.
    pub fn put_flag(&mut self, alloc: Global, name: Name, flag: bool) -> Result<(), OutOfMemory>
        ensures ok { OnOk result (members_in self.new ≡ put (name_text name) (boolean flag) (members_in self.old)) }
        ensures err { OnErr result (members_in self.new ≡ members_in self.old) }
    {
        self.put(alloc, name, Value::from(flag))
    }

    /// Puts a number.
    pub fn put_number(&mut self, alloc: Global, name: Name, n: u64) -> Result<(), OutOfMemory>
        ensures ok { OnOk result (members_in self.new
            ≡ put (name_text name) (number (unsigned n)) (members_in self.old)) }
        ensures err { OnErr result (members_in self.new ≡ members_in self.old) }
    {
        self.put(alloc, name, Value::from(n))
    }

    /// The object as a value. Takes no memory.
    pub fn into_value(self) -> Value
        ensures { view result ≡ object (members_in self) }
    {
        Value::Object(self.members)
    }
}

/// The object of one member.
pub fn single(alloc: Global, name: Name, value: Value) -> Result<Value, OutOfMemory>
    ensures { IfOk result (λ made. view made ≡ object (put (name_text name) (view value) no_members)) }
{
    let mut object = Object::create(alloc);
    object.put(alloc, name, value)?;
    Ok(object.into_value())
}

// the text of the bytes in base64
fn base64(alloc: Global, bytes: &[u8]) -> Result<String, OutOfMemory>
    ensures { IfOk result (λ text. string_bytes text ≡ base64_text bytes.now) }
{
    Ok(STANDARD.encode(alloc, bytes)?)
}
