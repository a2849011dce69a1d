//! The nonce of a boot.

ghost use Rattle.std.specs.Prelude.{◌≡◌};
ghost use Rattle.sz_agent.specs.Boot.{Draws, random_of};

use sz_base::{Failed, Moment, Seconds};
use sz_io::Entropy;

/// The moment of a boot at this time: 16 bytes are drawn once as its nonce (RFC 8366 section 5.3). A draw that fails
/// gives a moment without one.
pub(crate) fn draw<E: Entropy>(entropy: &mut E, when: Seconds) -> Moment
    ensures time { result.time ≡ when }
    ensures drawn { Draws result.nonce (random_of (E.faults entropy.old) (E.bytes entropy.old))
        (random_of (E.faults entropy.new) (E.bytes entropy.new)) }
{
    let mut nonce = [0; 16];
    match entropy.fill(&mut nonce) {
        Ok(()) => Moment {
            time: when,
            nonce: Some(nonce),
        },
        Err(Failed) => Moment {
            time: when,
            nonce: None,
        },
    }
}
