//! What the types of a device's parts say of them, where the definitions speak of plain numbers and lists: each
//! function reads the values and changes nothing.

ghost use Rattle.std.specs.Prelude.{◌≡◌, length};
ghost use Rattle.sz_record.specs.Stored.{HasImageWidths, HasMomentWidths, HasWidths};

use crate::{Device, Image};
use sz_base::Moment;

/// The parts of a device fit their types.
pub fn device_widths(device: &Device)
    ensures { HasWidths device.now }
{
    device.identity.serial.as_slice();
    if let Some(image) = &device.image {
        image_widths(image);
    }
    if let Some(committed) = &device.onboarded {
        moment_widths(committed.when);
    }
}

// The parts of a moment fit their types.
fn moment_widths(_when: Moment)
    ensures { HasMomentWidths _when }
{}

// The parts of an image in place fit their types.
fn image_widths(image: &Image)
    ensures { HasImageWidths image.now }
{
    let _size = image.size;
    hash_width(&image.hash);
    moment_widths(image.when);
}

// A hash has 32 bytes.
fn hash_width(_hash: &[u8; 32])
    ensures { length _hash.now ≡ 32 }
{}
