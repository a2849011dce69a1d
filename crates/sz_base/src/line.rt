//! Why a line of a text of commands was refused.

/// The rule that a line breaks, in the order in which the rules are tried at one line.
#[derive(Clone, Copy, Debug, PartialEq, Eq)]
pub enum LineKind {
    /// The first line is not the head.
    Head,
    /// An unknown first word, a wrong number of words, a text out of its form, or a last line without its end.
    Word,
    /// A number out of its form or range.
    Number,
    /// What has to come before this line is not there.
    Missing,
    /// The line cannot stand here.
    Order,
    /// A limit is passed.
    TooMany,
}
