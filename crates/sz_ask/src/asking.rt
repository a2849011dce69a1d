//! One exchange with a bootstrap server.

ghost use Rattle.std.specs.Prelude.{◌<◌, ℕ, List, Option, [], length};
ghost use Rattle.std.specs.Option.{option_copied, option_map};
ghost use Rattle.sz_spec.specs.Cause.{HasCause};
ghost use Rattle.sz_spec.specs.Told.{WhereTold};
ghost use Rattle.sz_io.specs.Net.{after_close, Traffic};
ghost use Rattle.sz_io.specs.declared.exchange.ExchangeEnd.TheVariants.{Open};
ghost use Rattle.sz_rest.specs.Request.{request_text};
ghost use Rattle.sz_exchange.specs.Exchange.{IsAsking};
ghost use Rattle.sz_ask.specs.Coming.{IsComing};
ghost use Rattle.sz_ask.specs.Asked.{blames_net, Ran, RanTo};

use crate::ServerFault;
use crate::incoming::Incoming;
use std::alloc::Global;
use sz_base::{Evidence, PutFault, Serial, Target};
use sz_io::Net;
use sz_rest::{read_reply, write_request};

/// How many bytes the body of a reply may have.
pub const MOST_REPLY_BYTES: u64 = 6_291_456;

// How many bytes of a reply are taken: its head, which may have 65,536, and its body.
const MOST_TAKEN: u64 = 65_536 + MOST_REPLY_BYTES;

// How many bytes of the reply are asked for at a time.
const PIECE: usize = 65536;

/// Asks this server for the bootstrapping data of the device of this serial number, with the nonce where there is one,
/// and reads what it replies. One exchange is added, which is left as soon as the bytes received tell the answer.
/// `Lost` where it is lost; else the first fault of the reply.
pub fn ask<N: Net>(
    alloc: Global,
    net: &mut N,
    target: &Target,
    serial: &Serial,
    nonce: Option<&[u8; 16]>,
) -> Result<Evidence, ServerFault>
    ensures ran { Ran target.now (request_text target.now serial.now (option_copied nonce.entry)) result
        (N.traffic net.old) (N.traffic net.new) }
    ensures cause { HasCause (N.faults net.old) (N.faults net.new) (blames_net result) }
{
    let request = write_request(alloc, target, serial, nonce)?;
    let mut incoming = Incoming::create(alloc)?;
    let Ok(mut piece) = vec![in alloc; 0u8; PIECE] else {
        return Err(ServerFault::OutOfMemory);
    };
    let heard = exchange(
        net,
        target,
        request.as_slice(),
        &mut incoming,
        piece.as_mut_slice(),
    );
    net.close();
    heard?;
    let (status, body) = incoming.reply();
    Ok(read_reply(alloc, status, body)?)
}

// Sends the request, and receives the reply. The connection is left as it stands.
fn exchange<N: Net>(
    net: &mut N,
    target: &Target,
    request: &[u8],
    incoming: &mut Incoming,
    piece: &mut [u8],
) -> Result<(), ServerFault>
    requires { IsComing incoming.old [] × (0 < length piece.old) }
    ensures ran { RanTo target.now request.now result incoming.new (N.traffic net.old)
        (option_map after_close (N.traffic net.new)) }
    ensures cause { HasCause (N.faults net.old) (N.faults net.new) (blames_net result) }
{
    match sz_exchange::open(net, target, MOST_TAKEN, request) {
        Ok(()) => receive(net, incoming, piece),
        Err(PutFault::Failed) => Err(ServerFault::Lost),
        Err(PutFault::OutOfMemory) => Err(ServerFault::OutOfMemory),
    }
}

// Receives the reply to its end, with a buffer for the pieces.
fn receive<N: Net>(
    net: &mut N,
    incoming: &mut Incoming,
    piece: &mut [u8],
) -> Result<(), ServerFault>
    requires { IsComing incoming.old [] × (0 < length piece.old) }
    ensures ran { (target : Target) (request : List ℕ) (before : Option Traffic)
        → WhereTold (IsAsking target request [] Open) before (N.traffic net.old)
        → RanTo target request result incoming.new before (option_map after_close (N.traffic net.new)) }
    ensures cause { HasCause (N.faults net.old) (N.faults net.new) (blames_net result) }
{
    'pieces: for _ in 0..u64::MAX {
        let Ok(count) = net.receive(piece) else {
            return Err(ServerFault::Lost);
        };
        if count == 0 {
            return incoming.end();
        }
        if incoming.take(&piece[..count])? {
            return Ok(());
        }
    }
    Err(ServerFault::OutOfMemory)
}
