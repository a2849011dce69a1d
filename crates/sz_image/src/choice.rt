//! The download of an image from the first of several URIs that gives it (RFC 8572 sections 5.6 and 6.3).

ghost use Rattle.std.specs.Prelude.{◌≡◌, [], ◌∷◌, ◌++◌, IfOk, IfErr, OnOk};
ghost use Rattle.sz_spec.specs.Cause.{HasCause};
ghost use Rattle.sz_http.specs.Reading.{side_of};
ghost use Rattle.sz_image.specs.Downloads.{BringsFirst, BringsNone, EndsFor, GoesOn, blames_disk};
ghost use Rattle.sz_image.specs.Fetch.{IsSameRoom};

use crate::fetch;
use std::alloc::Global;
use sz_base::{ImageFault, ImageFaults, Texts};
use sz_disk::Room;
use sz_http::{Reading, Side};
use sz_io::Net;

/// Why there is no image.
#[derive(Debug, Drop)]
pub enum NoImage {
    /// No URI gave it: one fault for each of them, in their order.
    Refused(ImageFaults),
    /// The room failed, and counted that.
    DiskFault,
    /// Memory ran out.
    OutOfMemory,
}

/// Downloads the image from the first of these URIs that gives it, in place of what the room holds, and answers its
/// size in bytes. The URIs are tried in their order, and those behind it aren't asked. A fault of the room ends the
/// download, as want of memory does. `buffer` is a reading of replies.
pub fn fetch_first<N: Net, R: Room>(
    alloc: Global,
    net: &mut N,
    room: &mut R,
    uris: &Texts,
    hash: &[u8; 32],
    buffer: &mut Reading,
) -> Result<u64, NoImage>
    requires { side_of buffer.old ≡ Side.Reply }
    ensures ok { IfOk result (λ size. BringsFirst hash.now uris.now size (R.held room.old) (R.held room.new)
        (N.faults net.old) (N.faults net.new) (N.traffic net.old) (N.traffic net.new)) }
    ensures refused { IfErr result (BringsNone hash.now (R.held room.old).space uris.now
        (N.faults net.old) (N.faults net.new) (N.traffic net.old) (N.traffic net.new)) }
    ensures disk_fault { HasCause (R.held room.old).faults (R.held room.new).faults (blames_disk result) }
    ensures led { R.led room.old room.new × IsSameRoom (R.held room.old) (R.held room.new) }
    ensures side { side_of buffer.new ≡ Side.Reply }
{
    let mut faults = ImageFaults::create(alloc);
    for uri in uris.as_slice() {
        match fetch(alloc, net, room, uri, hash, buffer) {
            Ok(size) => return Ok(size),
            Err(fault) => match note(&mut faults, fault) {
                Ok(()) => {}
                Err(why) => return Err(why),
            },
        }
    }
    Err(NoImage::Refused(faults))
}

// Puts the fault of one URI last, or says why the whole download ends.
fn note(faults: &mut ImageFaults, fault: ImageFault) -> Result<(), NoImage>
    ensures ok { OnOk result (GoesOn fault × (faults.new ≡ faults.old ++ fault ∷ [])) }
    ensures ends { IfErr result (EndsFor fault) }
{
    match fault {
        ImageFault::DiskFault => Err(NoImage::DiskFault),
        ImageFault::OutOfMemory => Err(NoImage::OutOfMemory),
        _ => match faults.push(fault) {
            Ok(()) => Ok(()),
            Err(_) => Err(NoImage::OutOfMemory),
        },
    }
}
