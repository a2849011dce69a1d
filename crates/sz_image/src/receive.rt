//! The reply to the request for an image, as it comes over the network.

ghost use Rattle.std.specs.Prelude.{◌≡◌, ◌<◌, ℕ, false, [], List, Option, length, IfOk, IfErr};
ghost use Rattle.std.specs.Option.{option_map};
ghost use Rattle.sz_spec.specs.Cause.{HasCause};
ghost use Rattle.sz_spec.specs.Told.{WhereTold};
ghost use Rattle.sz_io.specs.Net.{Traffic, after_close};
ghost use Rattle.sz_http.specs.Reading.{Takes, side_of};
ghost use Rattle.sz_uri.specs.declared.uri.Uri.{Uri};
ghost use Rattle.sz_image.specs.Coming.{HasReceived, IsAskingFor};
ghost use Rattle.sz_image.specs.Fetch.{Fails, IsSameRoom, blames_net, blames_room};

use crate::incoming::Incoming;
use sz_base::ImageFault;
use sz_disk::Room;
use sz_http::{Reading, Side};
use sz_io::Net;

/// Receives the reply to its end, with a buffer for the pieces, puts its body into an empty room, and answers the
/// body's digest.
pub(crate) fn receive<N: Net, R: Room>(
    net: &mut N,
    room: &mut R,
    reading: &mut Reading,
    piece: &mut [u8],
) -> Result<[u8; 32], ImageFault>
    requires buffer { 0 < length piece.old }
    requires began { Takes reading.old Side.Reply (R.held room.old).space [] false [] × ((R.held room.old).used ≡ 0) }
    ensures ok { (uri : Uri) (before : Option Traffic)
        → WhereTold (IsAskingFor uri []) before (N.traffic net.old)
        → IfOk result (λ digest. HasReceived uri digest (R.held room.old) (R.held room.new) before
        (option_map after_close (N.traffic net.new))) }
    ensures refused { (uri : Uri) (hash : List ℕ) (before : Option Traffic)
        → WhereTold (IsAskingFor uri []) before (N.traffic net.old)
        → IfErr result (λ fault. Fails uri hash (R.held room.old).space fault before
        (option_map after_close (N.traffic net.new))) }
    ensures lost { HasCause (N.faults net.old) (N.faults net.new) (blames_net result) }
    ensures led { R.led room.old room.new × IsSameRoom (R.held room.old) (R.held room.new) }
    ensures disk_fault { HasCause (R.held room.old).faults (R.held room.new).faults (blames_room result) }
    ensures side { side_of reading.new ≡ Side.Reply }
{
    let mut incoming = Incoming::nothing();
    'pieces: for _ in 0..u64::MAX {
        let Ok(count) = net.receive(piece) else {
            return Err(ImageFault::Lost);
        };
        if count == 0 {
            return match incoming.end(reading, room.space()) {
                Ok(()) => Ok(incoming.digest()),
                Err(fault) => Err(fault),
            };
        }
        match incoming.take(reading, room, &piece[..count]) {
            Ok(true) => return Ok(incoming.digest()),
            Ok(false) => {}
            Err(fault) => return Err(fault),
        }
    }
    Err(ImageFault::OutOfMemory)
}
