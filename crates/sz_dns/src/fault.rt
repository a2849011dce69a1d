//! Why a message is refused.

ghost use Rattle.std.specs.Prelude.{◌≡◌};
ghost use Rattle.sz_dns.specs.declared.fault.DnsFault.TheVariants.{OutOfMemory as dns_memory};

use sz_base::OutOfMemory;

/// What is wrong with a message.
#[derive(Clone, Copy, Debug, PartialEq, Eq)]
pub enum DnsKind {
    /// It ends inside its header, a question or a record, or a record's data end inside their fields.
    Short,
    /// A name has more than 255 bytes or 127 pointers.
    Pointer,
    /// A label's first byte is neither a length nor that of a pointer.
    Label,
}

/// Why a message is refused.
#[derive(Clone, Copy, Debug, PartialEq, Eq)]
pub enum DnsFault {
    /// This is wrong at this place of the message, counted from 0.
    Bad { kind: DnsKind, place: usize },
    /// Memory ran out.
    OutOfMemory,
}

impl From<OutOfMemory> for DnsFault {
    ghost from_gives = { λ _ e. e ≡ dns_memory };

    fn from(_: OutOfMemory) -> Self {
        DnsFault::OutOfMemory
    }
}
