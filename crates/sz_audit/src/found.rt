//! What an audit finds.

use sz_evidence::Reason;

/// What is found of one thing that a device keeps.
#[derive(Debug, Drop)]
pub enum Found {
    /// Its evidence is authorised at its stored moment and names what is there.
    Authorised,
    /// Its evidence is not authorised, for this reason.
    Refused(Reason),
    /// Its evidence is authorised and names something else.
    OtherFields,
    /// Its evidence is authorised and names it, and the image's bytes have another hash.
    OtherBytes,
}

/// What is found of a device; `None` of what is not there.
#[derive(Debug, Drop)]
pub struct Audit {
    pub image: Option<Found>,
    pub configuration: Option<Found>,
}
