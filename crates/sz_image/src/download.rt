//! The download of an image from one URI.

ghost use Rattle.std.specs.Prelude.{◌≡◌, ◌<◌, length, IfOk, IfErr};
ghost use Rattle.std.specs.Option.{option_map};
ghost use Rattle.sz_spec.specs.Cause.{HasCause};
ghost use Rattle.sz_io.specs.Net.{after_close};
ghost use Rattle.sz_http.specs.Reading.{side_of};
ghost use Rattle.sz_uri.specs.Uri.{IsUri};
ghost use Rattle.sz_uri.specs.declared.uri.Uri.{Uri as AnyUri};
ghost use Rattle.sz_image.specs.Fetch.{Brings, Fails, FailsFor, IsSameRoom, blames_net, blames_room};
ghost use Rattle.sz_image.specs.Request.{request_text};

use crate::receive::receive;
use crate::request::request;
use std::alloc::Global;
use sz_base::{BaseFault, ImageFault, PutFault, Text};
use sz_disk::Room;
use sz_exchange::open;
use sz_http::{Reading, Side};
use sz_io::Net;
use sz_uri::Uri;

/// How many bytes of the reply are asked for at a time.
const PIECE: usize = 65536;

// How many times as long as that of a reply with as many bytes an image's connection may last.
const PATIENCE: u64 = 4;

/// Downloads the image at this URI, in place of what the room holds, and answers its size in bytes. The image has the
/// SHA-256 digest `hash`, or there is a fault: the first one that the bytes of the reply show, where at one byte a
/// fault of the message comes before a status other than 200, and that before an image that doesn't fit the room.
/// `buffer` is a reading of replies.
pub fn fetch<N: Net, R: Room>(
    alloc: Global,
    net: &mut N,
    room: &mut R,
    uri: &Text,
    hash: &[u8; 32],
    buffer: &mut Reading,
) -> Result<u64, ImageFault>
    requires { side_of buffer.old ≡ Side.Reply }
    ensures ok { IfOk result (λ size. (from : AnyUri) × IsUri uri.now from
        × Brings from hash.now size (R.held room.old) (R.held room.new) (N.traffic net.old) (N.traffic net.new)) }
    ensures refused { IfErr result (λ fault. FailsFor uri.now hash.now (R.held room.old).space fault
        (N.traffic net.old) (N.traffic net.new)) }
    ensures lost { HasCause (N.faults net.old) (N.faults net.new) (blames_net result) }
    ensures disk_fault { HasCause (R.held room.old).faults (R.held room.new).faults (blames_room result) }
    ensures led { R.led room.old room.new × IsSameRoom (R.held room.old) (R.held room.new) }
    ensures side { side_of buffer.new ≡ Side.Reply }
{
    let uri = match Uri::read(alloc, uri.as_slice()) {
        Ok(uri) => uri,
        Err(BaseFault::Form) => return Err(ImageFault::Uri),
        Err(BaseFault::OutOfMemory) => return Err(ImageFault::OutOfMemory),
    };
    let Ok(request) = request(alloc, &uri) else {
        return Err(ImageFault::OutOfMemory);
    };
    let Ok(mut piece) = vec![in alloc; 0u8; PIECE] else {
        return Err(ImageFault::OutOfMemory);
    };
    let answer = exchange(
        net,
        room,
        &uri,
        request.as_slice(),
        hash,
        buffer,
        piece.as_mut_slice(),
    );
    net.close();
    answer
}

// Asks for the image, and receives it. The connection is left as it stands.
fn exchange<N: Net, R: Room>(
    net: &mut N,
    room: &mut R,
    uri: &Uri,
    request: &[u8],
    hash: &[u8; 32],
    reading: &mut Reading,
    piece: &mut [u8],
) -> Result<u64, ImageFault>
    requires { (side_of reading.old ≡ Side.Reply) × (request.now ≡ request_text uri.now) × (0 < length piece.old) }
    ensures ok { IfOk result (λ size. Brings uri.now hash.now size (R.held room.old) (R.held room.new)
        (N.traffic net.old) (option_map after_close (N.traffic net.new))) }
    ensures refused { IfErr result (λ fault. Fails uri.now hash.now (R.held room.old).space fault
        (N.traffic net.old) (option_map after_close (N.traffic net.new))) }
    ensures lost { HasCause (N.faults net.old) (N.faults net.new) (blames_net result) }
    ensures disk_fault { HasCause (R.held room.old).faults (R.held room.new).faults (blames_room result) }
    ensures led { R.led room.old room.new × IsSameRoom (R.held room.old) (R.held room.new) }
    ensures side { side_of reading.new ≡ Side.Reply }
{
    let most = room.space().saturating_mul(PATIENCE);
    match open(net, &uri.target, most, request) {
        Ok(()) => {}
        Err(PutFault::Failed) => return Err(ImageFault::Lost),
        Err(PutFault::OutOfMemory) => return Err(ImageFault::OutOfMemory),
    }
    room.restart();
    reading.begin(room.space());
    match receive(net, room, reading, piece) {
        Ok(found) if found == *hash => Ok(room.used()),
        Ok(found) => Err(ImageFault::WrongHash { found }),
        Err(fault) => Err(fault),
    }
}
