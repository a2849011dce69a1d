//! Why a message is refused.

ghost use Rattle.std.specs.Prelude.{◌≡◌};
ghost use Rattle.sz_dhcp.specs.declared.fault.DhcpFault.TheVariants.{OutOfMemory as dhcp_memory};

use sz_base::OutOfMemory;

/// What is wrong with a message.
#[derive(Clone, Copy, Debug, PartialEq, Eq)]
pub enum DhcpKind {
    /// It ends before its options, or inside an option.
    Short,
    /// It has not the cookie of DHCP before its options.
    Cookie,
    /// The list of bootstrap servers ends inside an entry.
    Uri,
}

/// Why a message is refused.
#[derive(Clone, Copy, Debug, PartialEq, Eq)]
pub enum DhcpFault {
    /// This is wrong at this place, counted from 0: of the message, or for `Uri` of the list of bootstrap servers.
    Bad { kind: DhcpKind, place: usize },
    /// Memory ran out.
    OutOfMemory,
}

impl From<OutOfMemory> for DhcpFault {
    ghost from_gives = { λ _ e. e ≡ dhcp_memory };

    fn from(_: OutOfMemory) -> Self {
        DhcpFault::OutOfMemory
    }
}
