//! Whether a voucher is for this device at this moment.

ghost use Rattle.std.specs.Prelude.{◌≡◌};
ghost use Rattle.sz_artifacts.specs.Vouching.{is_other_nonce, is_past, judgement};

use crate::Voucher;
use sz_base::{Moment, Seconds, Serial};

/// Why a voucher is not taken.
#[derive(Clone, Copy, Debug, PartialEq, Eq)]
pub enum VoucherFault {
    /// It is for another serial number.
    WrongSerial,
    /// It has a nonce, and the moment has none or another one.
    Nonce,
    /// The moment is after its end.
    Expired,
}

/// Whether the voucher is for the device of this serial number at this moment: the first fault that applies. Takes no
/// memory.
pub fn judge(voucher: &Voucher, serial: &Serial, when: Moment) -> Result<(), VoucherFault>
    ensures { result ≡ judgement voucher.now serial.now when }
{
    if voucher.serial.as_slice() != serial.as_slice() {
        return Err(VoucherFault::WrongSerial);
    }
    if is_other_nonce(voucher, when) {
        return Err(VoucherFault::Nonce);
    }
    if is_past(voucher.expires_on, when.time) {
        return Err(VoucherFault::Expired);
    }
    Ok(())
}

fn is_other_nonce(voucher: &Voucher, when: Moment) -> bool
    ensures { result ≡ is_other_nonce voucher.now.nonce when.nonce }
{
    match (&voucher.nonce, when.nonce) {
        (Some(wanted), Some(drawn)) => wanted.as_slice() != drawn.as_slice(),
        (Some(_), None) => true,
        (None, _) => false,
    }
}

fn is_past(end: Option<Seconds>, now: Seconds) -> bool
    ensures { result ≡ is_past end now }
{
    match end {
        Some(end) => now.0 > end.0,
        None => false,
    }
}
