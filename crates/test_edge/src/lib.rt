//! Tests of what no clause of the adapters says: that the runtime's calls are the ones meant, over files, sockets and
//! random bytes of this machine and over a runtime that answers short, interrupted or not at all.
#![tactic(auto)]

#[cfg(test)]
mod files;
#[cfg(test)]
mod others;
#[cfg(test)]
mod scripted;
#[cfg(test)]
mod sockets;
