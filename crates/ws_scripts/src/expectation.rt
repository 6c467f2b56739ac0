//! What is expected of the tested end.

/// What a tested end is judged by.
#[derive(Clone, Copy, Debug, PartialEq, Eq)]
pub enum Expectation {
    /// It sends each message back, answers what it owes, and sends nothing else.
    Echo,
    /// It keeps RFC 6455: it may send what messages, pings and pongs it likes, and close when it likes.
    Protocol,
}
