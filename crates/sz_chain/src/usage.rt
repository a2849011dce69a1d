//! What a key may be used for, and when (RFC 5280 sections 4.1.2.5 and 4.2.1.3).

ghost use Rattle.std.specs.Prelude.{◌↔◌, ◌<◌, IsTrue};
ghost use Rattle.sz_chain.specs.Chain.{IsAuthority, IsValidAt, MaySign};
ghost use Rattle.sz_chain.specs.Cleared.{IsNotOver};
ghost use Rattle.sz_chain.specs.Issuer.{MayUse};
ghost use Rattle.sz_x509.specs.CrlView.{seconds_of};
ghost use Rattle.sz_x509.specs.View.{view};

use sz_base::Seconds;
use sz_x509::Cert;

/// The bit of keyUsage for signatures of messages.
pub const DIGITAL_SIGNATURE: u16 = 0;
/// The bit of keyUsage for signatures of certificates.
pub const KEY_CERT_SIGN: u16 = 5;
/// The bit of keyUsage for signatures of revocation lists.
pub const CRL_SIGN: u16 = 6;

/// Whether the bit is set, or keyUsage is not there.
pub(crate) fn may_use(bit: u16, usage: Option<u16>) -> bool
    requires { bit < 16 }
    ensures { IsTrue result ↔ MayUse bit usage }
{
    match usage {
        None => true,
        Some(bits) => (bits >> bit) & 1 == 1,
    }
}

/// Whether the certificate is valid at the time, ends included.
#[tactic(auto, unfolding(sz_x509::specs::View::view))]
pub(crate) fn is_valid_at(cert: &Cert<'_>, when: Seconds) -> bool
    ensures { IsTrue result ↔ IsValidAt when.0 (view cert.now) }
{
    cert.not_before.0 <= when.0 && when.0 <= cert.not_after.0
}

/// Whether the certificate may sign messages at the time.
#[tactic(auto, unfolding(sz_x509::specs::View::view))]
pub(crate) fn may_sign(cert: &Cert<'_>, when: Seconds) -> bool
    ensures { IsTrue result ↔ MaySign when.0 (view cert.now) }
{
    is_valid_at(cert, when) && may_use(DIGITAL_SIGNATURE, cert.usage)
}

/// Whether the certificate may issue certificates at the time, its path length aside.
#[tactic(auto, unfolding(sz_x509::specs::View::view))]
pub(crate) fn is_authority(cert: &Cert<'_>, when: Seconds) -> bool
    ensures { IsTrue result ↔ IsAuthority when.0 (view cert.now) }
{
    cert.ca && is_valid_at(cert, when) && may_use(KEY_CERT_SIGN, cert.usage)
}

/// Whether the time of the next list has not passed, where it is told.
pub(crate) fn is_not_over(when: Seconds, next_update: Option<Seconds>) -> bool
    ensures { IsTrue result ↔ IsNotOver when.0 (seconds_of next_update) }
{
    match next_update {
        None => true,
        Some(last) => when.0 <= last.0,
    }
}
