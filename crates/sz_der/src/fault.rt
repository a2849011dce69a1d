//! Why bytes were not read.

/// Why bytes were not read.
#[derive(Clone, Copy, Debug, PartialEq, Eq)]
pub enum DerKind {
    /// The item passes the end of what holds it, or its length takes more than four octets.
    Short,
    /// The length is not in its shortest form.
    LongForm,
    /// The length is indefinite.
    Indefinite,
    /// The tag takes more than one octet.
    HighTag,
    /// The item has another tag than its type's, or its content is not of its type.
    Content,
}

/// A fault, and where it is: the place of the item's tag, counted from 0.
#[derive(Clone, Copy, Debug, PartialEq, Eq)]
pub struct DerFault {
    /// What is wrong.
    pub kind: DerKind,
    /// The place of the item's tag.
    pub place: usize,
}
