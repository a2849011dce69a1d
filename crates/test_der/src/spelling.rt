//! Items that the tests spell.

use std::alloc::Global;
use sz_base::{Bytes, OutOfMemory};
use sz_der::DerWriter;
use sz_der::tag::SEQUENCE;

/// The content of a SEQUENCE, as an item.
pub(crate) fn sequence(alloc: Global, content: &[u8]) -> Result<Bytes, OutOfMemory> {
    let mut writer = DerWriter::create(alloc)?;
    writer.item(SEQUENCE, content)?;
    Ok(writer.finish())
}

/// A SEQUENCE that holds a SEQUENCE, and so on, so deep.
pub(crate) fn nested(alloc: Global, depth: u16) -> Result<Bytes, OutOfMemory> {
    let mut nested = Bytes::create(alloc);
    for _ in 0..depth {
        nested = sequence(alloc, nested.as_slice())?;
    }
    Ok(nested)
}
