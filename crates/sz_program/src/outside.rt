//! The outside of the program.
ghost use Rattle.sz_program.specs.Outside.{Outside};

use sz_disk::{Disk, Disks};
use sz_io::{Clock, Entropy, Folder, Listener, Net, Sink};

/// The outside of the program: its disks by their words, and one object each of the others.
#[derive(Drop)]
pub struct World<'a, D, N, L, F, C, E, O> {
    pub disks: &'a mut Disks<D>,
    pub net: &'a mut N,
    pub listener: &'a mut L,
    pub folder: &'a mut F,
    pub clock: &'a mut C,
    pub entropy: &'a mut E,
    pub out: &'a mut O,
}

/// What contracts see of a world.
pub trait Observed<D> {
    ghost outside: { Self → Outside D };
}

impl<'a, D: Disk, N: Net, L: Listener, F: Folder, C: Clock, E: Entropy, O: Sink> Observed<D>
    for World<'a, D, N, L, F, C, E, O> {
    ghost outside = { λ world. record {
      disks = world.disks.now;
      net = record { faults = N.faults world.net.now; traffic = N.traffic world.net.now };
      listener = record {
        faults = L.faults world.listener.now;
        stands = L.stands world.listener.now;
        arrivals = L.arrivals world.listener.now;
      };
      folder = record { faults = F.faults world.folder.now; files = F.files world.folder.now };
      clock = record { faults = C.faults world.clock.now; answers = C.answers world.clock.now };
      entropy = record { faults = E.faults world.entropy.now; bytes = E.bytes world.entropy.now };
      out = record { faults = O.faults world.out.now; written = O.written world.out.now };
    } };
}
