//! A writer of whole items, one after another.

ghost use Rattle.std.specs.Prelude.{◌≡◌, ◌≢◌, ◌+◌, ◌%◌, ◌^◌, ◌≤◌, ℕ, List, [], length, vec_capacity, vec_len, IsOkAnd, OnOk, OnErr, IsErr};
ghost use Rattle.sz_der.specs.Items.{AppendsInteger, AppendsItem, AppendsSize};

use crate::tag::INTEGER;
use std::alloc::Global;
use std::marker::Model;
use sz_base::{Bytes, OutOfMemory};

/// Items written one after another. Contracts see it as the bytes so far.
#[derive(Debug, Drop)]
pub struct DerWriter {
    bytes: Vec<u8>,
}

impl Model for DerWriter {
    ghost use Rattle.std.specs.Prelude.{List, ℕ};

    ghost Value = { List ℕ };

    ghost view = { λ writer. writer.bytes.items };
}

impl DerWriter {
    /// A writer with no items. Takes no memory yet.
    pub fn create(alloc: Global) -> Result<Self, OutOfMemory>
        ensures { IsOkAnd result (λ writer. writer ≡ []) }
    {
        Ok(DerWriter {
            bytes: Vec::new(alloc),
        })
    }

    /// Writes an item with this tag and content. A content of 2^32 bytes or more, whose length four octets
    /// cannot tell, is refused as want of memory. A refusal leaves the writer as it was.
    pub fn item(&mut self, tag: u8, content: &[u8]) -> Result<(), OutOfMemory>
        requires { tag % 32 ≢ 31 }
        ensures ok { OnOk result (AppendsItem self.old self.new tag content.now) }
        ensures err { OnErr result (self.new ≡ self.old) }
        ensures long { 2 ^ 32 ≤ length content.now → IsErr result }
    {
        append_item(&mut self.bytes, tag, content)
    }

    /// Writes the INTEGER of this value, in as few octets as will do. A refusal leaves the writer as it was.
    pub fn integer(&mut self, number: u32) -> Result<(), OutOfMemory>
        ensures ok { OnOk result (AppendsInteger self.old self.new number) }
        ensures err { OnErr result (self.new ≡ self.old) }
    {
        let [top, upper, lower, low] = number.to_be_bytes();
        match number {
            0..=0x7F => self.item(INTEGER, &[low]),
            0x80..=0x7FFF => self.item(INTEGER, &[lower, low]),
            0x8000..=0x7F_FFFF => self.item(INTEGER, &[upper, lower, low]),
            0x80_0000..=0x7FFF_FFFF => self.item(INTEGER, &[top, upper, lower, low]),
            _ => self.item(INTEGER, &[0, top, upper, lower, low]),
        }
    }

    /// What was written so far.
    pub fn as_slice(&self) -> &[u8]
        ensures { result.now ≡ self.now }
    {
        self.bytes.as_slice()
    }

    /// What was written.
    pub fn finish(self) -> Bytes
        ensures { result ≡ self }
    {
        Bytes::from_vec(self.bytes)
    }
}

// The most bytes that stand before a content.
const MAX_HEADER: usize = 6;

// Puts an item last. A refusal leaves the bytes as they were.
fn append_item(bytes: &mut Vec<u8>, tag: u8, content: &[u8]) -> Result<(), OutOfMemory>
    requires { tag % 32 ≢ 31 }
    ensures ok { OnOk result (AppendsItem bytes.old.items bytes.new.items tag content.now) }
    ensures err { OnErr result (bytes.new.items ≡ bytes.old.items) }
    ensures long { 2 ^ 32 ≤ length content.now → IsErr result }
{
    let size = u32::try_from(content.len()).map_err(|_| OutOfMemory)?;
    bytes.reserve(MAX_HEADER + content.len())?;
    bytes.push(tag).unwrap();
    append_size(bytes, size);
    bytes.extend_from_slice(content).unwrap();
    Ok(())
}

// Puts the octets of a length last, of which there are at most five.
fn append_size(bytes: &mut Vec<u8>, size: u32)
    requires { vec_len bytes.old + 5 ≤ vec_capacity bytes.old }
    ensures size { AppendsSize bytes.old.items bytes.new.items size }
    ensures at_most_five { vec_len bytes.new ≤ vec_len bytes.old + 5 }
    ensures room { vec_capacity bytes.old ≤ vec_capacity bytes.new }
{
    let [top, upper, lower, low] = size.to_be_bytes();
    match size {
        0..=0x7F => bytes.extend_from_slice(&[low]),
        0x80..=0xFF => bytes.extend_from_slice(&[0x81, low]),
        0x100..=0xFFFF => bytes.extend_from_slice(&[0x82, lower, low]),
        0x1_0000..=0xFF_FFFF => bytes.extend_from_slice(&[0x83, upper, lower, low]),
        _ => bytes.extend_from_slice(&[0x84, top, upper, lower, low]),
    }
    .unwrap();
}
