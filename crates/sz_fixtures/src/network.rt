//! Networks in memory, whose servers reply by scripts.

use std::alloc::Global;
use sz_base::{Bytes, Calls, OutOfMemory};
use sz_io::{Script, ScriptNet, Scripts};

/// What comes in on one connection: these bytes, behind which the server closes it, or else it is lost.
#[derive(Clone, Copy)]
pub struct Reply<'a> {
    pub bytes: &'a [u8],
    pub closed: bool,
}

/// A network whose servers send these replies, one connection after the other, and whose call of this number, counted
/// from 1, fails; 0 for none.
pub fn scripted(
    alloc: Global,
    replies: &[Reply<'_>],
    fails: u64,
) -> Result<ScriptNet, OutOfMemory> {
    let mut scripts = Scripts::create(alloc);
    for reply in replies {
        scripts.push(Script {
            bytes: Bytes::from_slice(alloc, reply.bytes)?,
            closed: reply.closed,
        })?;
    }
    Ok(ScriptNet::create(alloc, scripts, calls(alloc, fails)?))
}

/// The same, where each connection is closed behind its reply, but for one without any bytes, which is lost.
pub fn servers(alloc: Global, replies: &[&[u8]], fails: u64) -> Result<ScriptNet, OutOfMemory> {
    let mut scripts = Scripts::create(alloc);
    for reply in replies {
        scripts.push(Script {
            bytes: Bytes::from_slice(alloc, reply)?,
            closed: !reply.is_empty(),
        })?;
    }
    Ok(ScriptNet::create(alloc, scripts, calls(alloc, fails)?))
}

/// The number of the one call that fails, counted from 1; with 0 none does.
pub fn calls(alloc: Global, number: u64) -> Result<Calls, OutOfMemory> {
    let mut calls = Calls::create(alloc);
    calls.push(number)?;
    Ok(calls)
}
