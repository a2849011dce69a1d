//! The trait of a room, where an image is put.
ghost use Rattle.std.specs.Prelude.{◌≡◌, ◌+◌, ◌≤◌, length, OnOk, OnErr, is_err};
ghost use Rattle.sz_spec.specs.Cause.{HasCause};
ghost use Rattle.sz_disk.specs.Room.{Held, IsSound, IsRestarted, HasPut, HoldsSame};

use sz_base::Failed;

/// A room, where an image is put piece by piece. Contracts see it as a `Held`: its space, how many bytes it
/// holds, these bytes where it tells them, and its faults.
pub trait Room {
    /// What contracts see of it.
    ghost held: { Self → Held };

    /// What the room promises of all that happened from an earlier state of it to a later one.
    ghost led: { Self → Self → Type 0 };

    /// The number of bytes that it has place for. It never changes.
    fn space(&self) -> u64
        ensures { result ≡ (held self.now).space };

    /// The number of bytes put since the last restart.
    fn used(&self) -> u64
        ensures { result ≡ (held self.now).used };

    /// Forgets what was put.
    fn restart(&mut self)
        ensures restarted { IsRestarted (held self.old) (held self.new) }
        ensures led { led self.old self.new };

    /// Puts these bytes behind those that it holds. A refusal leaves what it holds as it was.
    fn put(&mut self, bytes: &[u8]) -> Result<(), Failed>
        requires { (held self.old).used + length bytes.now ≤ (held self.old).space }
        ensures ok { OnOk result (HasPut bytes.now (held self.old) (held self.new)) }
        ensures err { OnErr result (HoldsSame (held self.old) (held self.new)) }
        ensures led { led self.old self.new }
        ensures cause { HasCause (held self.old).faults (held self.new).faults (is_err result) };

    /// The laws of what is seen of it.
    ghost sound: { (room : Self) → IsSound (held room) };

    /// A state led to itself.
    ghost led_same: { (room : Self) → led room room };

    /// Two stretches, one after the other, are one.
    ghost led_on: { (first middle last : Self) → led first middle → led middle last → led first last };
}
