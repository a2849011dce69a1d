//! Whether the connection is closed behind a message.

ghost use Rattle.std.specs.Prelude.{◌↔◌, IsTrue};
ghost use Rattle.sz_http.specs.Parts.{fields_of};
ghost use Rattle.sz_http.specs.Connection.{AsksToClose};

use crate::Fields;
use crate::fields::any_is;

/// Whether a field asks to close the connection behind the message (RFC 9112 section 9.6): the whole value of a
/// field `Connection` is `close`, in either case.
pub fn asks_to_close(fields: &Fields<'_>) -> bool
    ensures { IsTrue result ↔ AsksToClose (fields_of fields.now) }
{
    any_is(fields, b"Connection", b"close")
}
