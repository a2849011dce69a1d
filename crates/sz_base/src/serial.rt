//! Serial numbers, and the reader of their texts.

ghost use Rattle.std.specs.Prelude.{◌≡◌, ◌↔◌, IsTrue, IfOk};
ghost use Rattle.sz_base.specs.Reading.{ReadsText};
ghost use Rattle.sz_base.specs.Serial.{is_serial_byte, IsSerial};

use crate::{BaseFault, OutOfMemory, Text};
use std::alloc::Global;
use std::marker::Model;

/// The most bytes of a serial number.
pub const MOST_SERIAL_BYTES: usize = 64;

/// A device's serial number: 1 to 64 bytes of letters, digits, `-`, `_`, `.`, `:` and `+`, the first of
/// them no point. Contracts see it as its bytes.
#[derive(Debug, Drop)]
pub struct Serial {
    text: Text,
}

impl Model for Serial {
    ghost use Rattle.std.specs.Prelude.{List, ℕ};
    ghost use Rattle.sz_base.specs.Serial.{IsSerial};

    ghost Value = { List ℕ };

    ghost view = { λ serial. serial.text };

    ghost invariant = { λ serial. IsSerial serial.text };
}

impl Serial {
    /// Reads a serial number. `Form` exactly where the text is none.
    pub fn read(alloc: Global, text: &[u8]) -> Result<Self, BaseFault>
        ensures reads { ReadsText IsSerial text.now result }
    {
        if !is_serial(text) {
            return Err(BaseFault::Form);
        }
        let text = Text::from_slice(alloc, text)?;
        Ok(Serial { text })
    }

    /// The serial number's bytes.
    pub fn as_slice(&self) -> &[u8]
        ensures bytes { result.now ≡ self.now }
        ensures form { IsSerial self.now }
    {
        self.text.as_slice()
    }

    /// An equal serial number.
    pub fn copy(&self, alloc: Global) -> Result<Self, OutOfMemory>
        ensures { IfOk result (λ copied. copied ≡ self.now) }
    {
        let text = self.text.copy(alloc)?;
        Ok(Serial { text })
    }
}

fn is_serial(text: &[u8]) -> bool
    ensures { IsTrue result ↔ IsSerial text.now }
{
    matches!(text.len(), 1..=MOST_SERIAL_BYTES)
        && text[0] != b'.'
        && text.iter().all(|byte| is_serial_byte(*byte))
}

fn is_serial_byte(byte: u8) -> bool
    ensures { result ≡ is_serial_byte byte }
{
    byte.is_ascii_alphanumeric() || b"-_.:+".contains(&byte)
}
