//! What the trial of an offer comes to.

use sz_evidence::Reason;
use sz_state::Staged;

/// What the trial of an offer comes to.
#[derive(Debug, Drop)]
pub enum Trial {
    /// What runs satisfies the information: the device can be committed.
    Satisfied,
    /// The image that is needed is staged, and can be put in place.
    Staged(Staged),
    /// The offer is turned down.
    Refused(Reason),
    /// The disk failed.
    DiskFault,
    /// Memory ran out.
    OutOfMemory,
}
