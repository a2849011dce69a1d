//! One connection to a server, and what went over it.
use sz_base::{Bytes, Target};

/// What went over one connection.
#[derive(Debug, Drop)]
pub struct Exchange {
    pub target: Target,
    pub sent: Bytes,
    pub received: Bytes,
    pub end: ExchangeEnd,
}

/// How an exchange ended. Of several causes the first one decides.
#[derive(Clone, Copy, Debug, PartialEq, Eq)]
pub enum ExchangeEnd {
    /// Nothing ended it yet.
    Open,
    /// All of the answer came, and the other side closed the connection.
    Closed,
    /// A call failed.
    Lost,
    /// This side closed the connection before either.
    Left,
}
