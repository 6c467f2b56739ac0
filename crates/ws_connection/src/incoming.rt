//! How the reads over a connection stand.

/// How the reads over a connection stand.
#[derive(Clone, Copy, PartialEq, Eq)]
pub enum Incoming {
    /// Nothing was read yet.
    Unread,
    /// The last read has brought bytes.
    Open,
    /// The last read has waited in vain.
    Waited,
    /// By the last read the deadline of the connection had passed.
    Late,
    /// The stream has ended.
    AtEnd,
    /// A read has failed.
    Failed,
}
