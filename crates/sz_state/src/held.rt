//! A device that was found on its disk.

use sz_cell::Ready;
use sz_record::Device;

/// A device that was found on its disk, and the cell that has its record.
#[derive(Debug, Drop)]
pub struct Held {
    pub device: Device,
    pub ready: Ready,
}
