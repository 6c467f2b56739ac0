//! The opcodes of frames (RFC 6455 section 5.2), as the numbers that headers are made of.

/// A frame that continues the open message.
pub(crate) const CONTINUATION: u8 = 0;

/// The first frame of a text.
pub(crate) const TEXT: u8 = 1;

/// The first frame of a binary message.
pub(crate) const BINARY: u8 = 2;

pub(crate) const CLOSE: u8 = 8;

pub(crate) const PING: u8 = 9;

pub(crate) const PONG: u8 = 10;
