//! What answers are compared with: servers by host and port, and members at fault.

use sz_base::{Target, Targets};
use sz_json::{JsonFault, Name};

/// Servers, each by its host and its port.
pub(crate) type Servers = &'static [(&'static [u8], u16)];

/// The target is this host at this port.
pub(crate) fn is_at(target: &Target, host: &[u8], port: u16) -> bool {
    target.host.as_slice() == host && target.port == port
}

/// The targets are these servers, in this order.
pub(crate) fn are(targets: &Targets, servers: Servers) -> bool {
    targets.len() == servers.len()
        && targets
            .as_slice()
            .iter()
            .zip(servers)
            .all(|(target, server)| is_at(target, server.0, server.1))
}

/// The member at fault, where one is.
pub(crate) fn fault_of<T: Drop>(read: Result<T, JsonFault>) -> Result<Option<Name>, JsonFault> {
    match read {
        Ok(_) => Ok(None),
        Err(JsonFault::Member { name }) => Ok(Some(name)),
        Err(JsonFault::OutOfMemory) => Err(JsonFault::OutOfMemory),
    }
}
