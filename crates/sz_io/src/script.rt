//! What comes in on a connection.
ghost use Rattle.std.specs.Prelude.{◌≡◌, ◌+◌, ◌<◌, ◌∷◌, length, take, drop};

use std::alloc::Global;
use std::mem;
use sz_base::{Bytes, Items};

/// The bytes that come in on a connection, and their end: the other side closes the connection, or the
/// connection is lost.
#[derive(Debug, Drop)]
pub struct Script {
    pub bytes: Bytes,
    /// The other side closes the connection behind the bytes; else it is lost there.
    pub closed: bool,
}

/// What comes in on one connection after the other.
pub type Scripts = Items<Script>;

/// Takes the script at this place out, and leaves an empty one there. Takes no memory.
pub(crate) fn take_script(alloc: Global, scripts: &mut [Script], at: usize) -> Script
    requires { at < length scripts.old }
    ensures before { take at scripts.new ≡ take at scripts.old }
    ensures taken { drop at scripts.old ≡ result ∷ drop (at + 1) scripts.new }
{
    let empty = Script {
        bytes: Bytes::create(alloc),
        closed: false,
    };
    mem::replace(&mut scripts[at], empty)
}
