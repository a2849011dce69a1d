//! What each job of parallel work passes as it begins.

/// What a job of parallel work is.
#[derive(Clone, Copy, Debug, PartialEq, Eq)]
pub enum Part {
    /// One half of a tree.
    Half,
    /// One item of a batch of signatures.
    Item,
    /// One line of a list of files to sign.
    Line,
    /// One device of a fleet.
    Device,
}

/// What a job enters once as it begins. A gate may hold the job back for a while; to enter takes no memory and
/// changes nothing that a contract sees.
pub trait Gate {
    /// The job begins.
    fn enter(&self, part: Part);
}

/// The gate that lets each job begin at once.
#[derive(Clone, Copy, Debug, PartialEq, Eq)]
pub struct OpenGate;

impl Gate for OpenGate {
    fn enter(&self, _: Part) {}
}
