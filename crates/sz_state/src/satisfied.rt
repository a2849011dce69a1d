//! Whether what runs satisfies onboarding information.

ghost use Rattle.std.specs.Prelude.{◌≡◌, ◌↔◌, IfSome, IsTrue};
ghost use Rattle.sz_state.specs.Step.{IsBooted, IsSatisfied};

use sz_artifacts::{BootImage, Onboarding};
use sz_base::Text;
use sz_record::Device;

/// Whether the information names no boot image, or the one that runs.
pub fn is_satisfied(device: &Device, onboarding: &Onboarding) -> bool
    ensures { IsTrue result ↔ IsSatisfied device.now onboarding.now }
{
    match &onboarding.image {
        None => true,
        Some(boot) => is_booted(device, boot),
    }
}

/// Whether what runs is what the boot image names, as far as it names it.
pub(crate) fn is_booted(device: &Device, boot: &BootImage) -> bool
    ensures { IsTrue result ↔ IsBooted device.now boot.now }
{
    is_named(&boot.os_name, device.running_name.as_slice())
        && is_named(&boot.os_version, device.running_version.as_slice())
}

fn is_named(named: &Option<Text>, running: &[u8]) -> bool
    ensures { IsTrue result ↔ IfSome named.now (λ name. name ≡ running.now) }
{
    match named {
        None => true,
        Some(name) => name.as_slice() == running,
    }
}
