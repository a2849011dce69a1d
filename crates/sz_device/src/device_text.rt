//! The lines that show a device.
ghost use Rattle.std.specs.Prelude.{◌≡◌, ◌++◌, IfOk, OnOk, map};
ghost use Rattle.std.specs.List.{concat};
ghost use Rattle.sz_device.specs.ShowText.{configuration_line, configuration_of, hash_text, image_line, running_line};
ghost use Rattle.sz_device.specs.ShowText.{serial_line, show_text, stage_line, stage_word};

use itoa::Buffer;
use sha2::{Digest, Sha256};
use std::alloc::Global;
use sz_base::{Bytes, OutOfMemory};
use sz_record::{Committed, Device, Image, Stage};

/// The lines that show the device, each with its LF.
pub(crate) fn device_lines(alloc: Global, device: &Device) -> Result<Bytes, OutOfMemory>
    ensures { IfOk result (λ lines. lines ≡ show_text device.now) }
{
    let mut lines = Bytes::create(alloc);
    append_head(&mut lines, device)?;
    append_image(&mut lines, &device.image)?;
    append_configuration(&mut lines, &device.onboarded)?;
    Ok(lines)
}

// Puts the lines last that each device has.
fn append_head(lines: &mut Bytes, device: &Device) -> Result<(), OutOfMemory>
    ensures { OnOk result (lines.new
        ≡ lines.old ++ serial_line device.now ++ stage_line device.now ++ running_line device.now) }
{
    append_parts(
        lines,
        &[b"serial ", device.identity.serial.as_slice(), b"\n"],
    )?;
    append_parts(lines, &[b"stage ", stage_word(device.stage()), b"\n"])?;
    append_parts(
        lines,
        &[
            b"running ",
            device.running_name.as_slice(),
            b" ",
            device.running_version.as_slice(),
            b"\n",
        ],
    )
}

// Puts the line of the image last, where there is one.
fn append_image(lines: &mut Bytes, image: &Option<Image>) -> Result<(), OutOfMemory>
    ensures { OnOk result (lines.new ≡ lines.old ++ image_line image.now) }
{
    let Some(image) = image else {
        return Ok(());
    };
    let mut area = Buffer::new();
    let mut size = Buffer::new();
    append_parts(
        lines,
        &[
            b"image ",
            area.format(image.area).as_bytes(),
            b" ",
            size.format(image.size).as_bytes(),
            b" ",
            &hash_text(&image.hash),
            b"\n",
        ],
    )
}

// Puts the line of the configuration last, where there is one.
fn append_configuration(lines: &mut Bytes, onboarded: &Option<Committed>) -> Result<(), OutOfMemory>
    ensures { OnOk result (lines.new ≡ lines.old ++ configuration_line (configuration_of onboarded.now)) }
{
    let Some(committed) = onboarded else {
        return Ok(());
    };
    let Some(configuration) = &committed.configuration else {
        return Ok(());
    };
    let mut size = Buffer::new();
    append_parts(
        lines,
        &[
            b"configuration ",
            size.format(configuration.len() as u64).as_bytes(),
            b" ",
            &hash_text(&Sha256::digest(configuration.as_slice())),
            b"\n",
        ],
    )
}

// Puts these parts last, one after another.
fn append_parts(lines: &mut Bytes, parts: &[&[u8]]) -> Result<(), OutOfMemory>
    ensures { OnOk result (lines.new ≡ lines.old ++ concat (map (λ part. part.now) parts.now)) }
{
    for part in parts {
        lines.append(part)?;
    }
    Ok(())
}

fn stage_word(stage: Stage) -> &'static [u8]
    ensures { result.now ≡ stage_word stage }
{
    match stage {
        Stage::Factory => b"factory",
        Stage::Installed => b"installed",
        Stage::Onboarded => b"onboarded",
    }
}

// A SHA-256 in lower-case hexadecimal digits.
fn hash_text(hash: &[u8; 32]) -> [u8; 64]
    ensures { result ≡ hash_text hash.now }
{
    let mut digits = [0; 64];
    let Ok(()) = hex::encode_to_slice(hash, &mut digits) else {
        unreachable!()
    };
    digits
}
