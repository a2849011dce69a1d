//! Texts that come from a source or a client: few of the bytes that make a value large.

ghost use Rattle.std.specs.Prelude.{◌≡◌, ◌↔◌, ◌∷◌, [], IfOk, IfErr, IsTrue, if◌then◌else◌};
ghost use Rattle.serde_json.specs.View.{view};
ghost use Rattle.sz_json.specs.Bounded.{behind, IsBounded, IsBoundedJson, is_mark, left_of};
ghost use Rattle.std.specs.List.{list_any};
ghost use Rattle.sz_json.specs.Fault.{IsNone};

use crate::document::read;
use crate::{JsonFault, Name, Value};
use std::alloc::Global;

/// The most of the bytes `{`, `[`, `,` and `:` that a text of a source or a client has outside of its strings.
const MOST_MARKS: usize = 16_384;

/// Where a byte of a text stands.
#[derive(Clone, Copy)]
enum Place {
    /// Outside of the strings.
    Outside,
    /// In a string.
    Inside,
    /// In a string, behind a backslash that escapes it.
    Escaped,
}

impl Place {
    // the place behind this byte
    fn behind(self, byte: u8) -> Place
        ensures { result ≡ behind self byte }
    {
        match (self, byte) {
            (Place::Outside, b'"') => Place::Inside,
            (Place::Outside, _) => Place::Outside,
            (Place::Inside, b'"') => Place::Outside,
            (Place::Inside, b'\\') => Place::Escaped,
            (Place::Inside, _) => Place::Inside,
            (Place::Escaped, _) => Place::Inside,
        }
    }

    // whether this byte is one of those that are counted
    fn is_mark(self, byte: u8) -> bool
        ensures { result ≡ list_any is_mark (left_of self byte) }
    {
        match self {
            Place::Outside => matches!(byte, b'{' | b'[' | b',' | b':'),
            Place::Inside | Place::Escaped => false,
        }
    }
}

/// The value of a text that comes from a source or a client: JSON, as `read` takes it, that has at most 16,384 of the
/// bytes `{`, `[`, `,` and `:` outside of its strings. `Member` with the name `Json` exactly where the bytes are none,
/// which is found before a value is made.
pub fn read_bounded(alloc: Global, bytes: &[u8]) -> Result<Value, JsonFault>
    ensures ok { IfOk result (λ value. IsBoundedJson bytes.now (view value)) }
    ensures refused { IfErr result (IsNone IsBoundedJson bytes.now) }
{
    if !is_bounded(bytes) {
        return Err(JsonFault::Member { name: Name::Json });
    }
    read(alloc, bytes)
}

// whether the text has few enough of the bytes that are counted
fn is_bounded(text: &[u8]) -> bool
    ensures { IsTrue result ↔ IsBounded text.now }
{
    let mut place = Place::Outside;
    let mut marks = 0;
    for byte in text {
        if place.is_mark(*byte) {
            if marks == MOST_MARKS {
                return false;
            }
            marks += 1;
        }
        place = place.behind(*byte);
    }
    true
}
