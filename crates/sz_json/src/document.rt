//! Whole texts: from bytes to a value, and back.

ghost use Rattle.std.specs.Prelude.{◌≡◌, ◌≤◌, false, IfOk, IfErr};
ghost use Rattle.serde_json.specs.Data.{depth};
ghost use Rattle.serde_json.specs.Read.{max_depth};
ghost use Rattle.serde_json.specs.View.{view};
ghost use Rattle.serde_json.specs.Written.{compact_text, has_float};
ghost use Rattle.sz_json.specs.Fault.{IsNone};
ghost use Rattle.sz_json.specs.Json.{IsJson};

use crate::{JsonFault, Name, Value};
use std::alloc::Global;
use sz_base::{Bytes, OutOfMemory};

/// The value of a JSON text in UTF-8 (RFC 8259), at most 127 levels deep. `Member` with the name `Json` exactly where
/// the bytes are none.
pub fn read(alloc: Global, bytes: &[u8]) -> Result<Value, JsonFault>
    ensures ok { IfOk result (λ value. IsJson bytes.now (view value)) }
    ensures refused { IfErr result (IsNone IsJson bytes.now) }
{
    match Value::from_slice(alloc, bytes) {
        Ok(value) => Ok(value),
        Err(error) if error.is_memory() => Err(JsonFault::OutOfMemory),
        Err(_) => Err(JsonFault::Member { name: Name::Json }),
    }
}

/// The text of a value without a blank, with the members of each object in the byte order of their names. It
/// reads as the value where that is at most 127 levels deep.
pub fn write(alloc: Global, value: &Value) -> Result<Bytes, OutOfMemory>
    ensures compact { IfOk result (λ bytes. has_float (view value.now) ≡ false
        → bytes ≡ compact_text (view value.now)) }
    ensures reads_back { IfOk result (λ bytes. depth (view value.now) ≤ max_depth
        → IsJson bytes (view value.now)) }
{
    Ok(Bytes::from_vec(value.to_vec(alloc)?))
}
