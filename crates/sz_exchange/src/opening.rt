//! The opening of an exchange.

ghost use Rattle.std.specs.Prelude.{[], OnOk, IsErrOf};
ghost use Rattle.std.specs.Option.{option_map};
ghost use Rattle.sz_base.specs.Fault.{put_failed};
ghost use Rattle.sz_spec.specs.Cause.{HasCause};
ghost use Rattle.sz_spec.specs.Told.{WhereTold};
ghost use Rattle.sz_io.specs.Net.{after_close};
ghost use Rattle.sz_io.specs.declared.exchange.ExchangeEnd.TheVariants.{Open};
ghost use Rattle.sz_exchange.specs.Exchange.{AddsOne, IsAsking, Loses, MayAdd};

use sz_base::{PutFault, Target};
use sz_io::Net;

/// Connects to the server and sends it the whole request, so that its answer can be received, of which the caller will
/// take at most so many bytes. `Failed` where the exchange is lost; a connection that stands after a refusal is the
/// caller's to close.
pub fn open<N: Net>(net: &mut N, target: &Target, most: u64, request: &[u8]) -> Result<(), PutFault>
    ensures ok { OnOk result (WhereTold (IsAsking target.now request.now [] Open)
        (N.traffic net.old) (N.traffic net.new)) }
    ensures lost { IsErrOf result PutFault.Failed → WhereTold (AddsOne (Loses target.now request.now))
        (N.traffic net.old) (option_map after_close (N.traffic net.new)) }
    ensures no_memory { IsErrOf result PutFault.OutOfMemory → WhereTold MayAdd
        (N.traffic net.old) (option_map after_close (N.traffic net.new)) }
    ensures cause { HasCause (N.faults net.old) (N.faults net.new) (put_failed result) }
{
    match net.connect(target, most) {
        Ok(()) => net.send(request),
        Err(fault) => Err(fault),
    }
}
