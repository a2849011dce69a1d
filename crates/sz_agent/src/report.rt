//! What a boot comes to.

use sz_base::Moment;
use sz_record::Device;
use sz_walk::Visits;

/// What a boot came to.
#[derive(Debug, Drop)]
pub struct Report {
    pub outcome: Outcome,
    /// The visits, in the order in which they were made; none where the boot ended before them.
    pub visits: Visits,
    /// The moment at which evidence was judged: the time that was handed in, and the nonce that was drawn.
    pub moment: Moment,
}

/// How a boot ended. Where it found or made a device of which something is told, it hands it out.
#[derive(Debug, Drop)]
pub enum Outcome {
    /// The device was committed at an earlier boot, and is as it was. Nothing was asked.
    AlreadyOnboarded(Device),
    /// The device is committed now; this is it.
    Onboarded(Device),
    /// An image was put in place, and is to be started; this is the device.
    Installed(Device),
    /// The device is not committed, and no visit came to an offer that it can take.
    NoSource,
    /// The disk failed.
    DiskFault,
    /// No gate of the device's cell is open.
    NotInitialised,
    /// This open slot of the cell is damaged.
    Damaged {
        slot: u8,
        sequence: u64,
        length: u32,
    },
    /// The record's first wrong byte stands at this place, and this is it, or 0 at the end.
    BadRecord {
        place: u32,
        value: u8,
    },
    /// An offer could be taken, and the record has this sequence, which is the last.
    Exhausted {
        sequence: u64,
    },
    /// Memory ran out.
    OutOfMemory,
}
