//! What devices are made with.

ghost use Rattle.std.specs.Prelude.{IfOk};
ghost use Rattle.sz_base.specs.Identity.{IsWhole};

use std::alloc::Global;
use sz_base::{BaseFault, Bytes, Certs, Identity, OutOfMemory, Serial, Text};

/// The identity of a device A1 that runs version 1 of `os` and trusts this certificate, of at most 65,536 bytes.
pub fn identity(alloc: Global, anchor: Bytes) -> Result<Identity, BaseFault>
    ensures { IfOk result IsWhole }
{
    let mut anchors = Certs::create(alloc);
    anchors.push(anchor)?;
    let identity = Identity {
        serial: Serial::read(alloc, b"A1")?,
        anchors,
        os_name: Text::from_slice(alloc, b"os")?,
        os_version: Text::from_slice(alloc, b"1")?,
    };
    if !identity.is_whole() {
        return Err(BaseFault::Form);
    }
    Ok(identity)
}

/// The file of the same identity with this serial number and this certificate in base64.
pub fn identity_file(alloc: Global, serial: &[u8], anchor: &str) -> Result<Bytes, OutOfMemory> {
    let mut file = Bytes::from_slice(alloc, br#"{"serial": ""#)?;
    file.append(serial)?;
    file.append(br#"", "os-name": "os", "os-version": "1", "anchors": [""#)?;
    file.append(anchor.as_bytes())?;
    file.append(br#""]}"#)?;
    Ok(file)
}
