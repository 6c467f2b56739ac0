//! How a group of cases is written down: rows as they stand in the table of cases.

use crate::script::Chop;

/// The payload of a frame.
#[derive(Clone, Copy)]
pub(crate) enum Data {
    Bytes(&'static [u8]),
    /// A byte, so many times.
    Run(u8, u32),
    /// Bytes, and after them a byte so many times.
    BytesAndRun(&'static [u8], u8, u32),
}

/// What a row sends.
#[derive(Clone, Copy)]
pub(crate) enum Act {
    /// A frame with FIN: its opcode and its payload.
    Fin(u8, Data),
    /// A frame without FIN.
    Part(u8, Data),
    /// A frame with FIN and with reserved bits, as the number 4 * RSV1 + 2 * RSV2 + RSV3.
    Reserved(u8, u8, Data),
    /// A text message with each byte in a frame of its own.
    ByteByByte(&'static [u8]),
    /// Bytes as they are.
    Bare(&'static [u8]),
    /// The turn ends.
    Pause,
}

/// How a row ends.
#[derive(Clone, Copy)]
pub(crate) enum Finish {
    /// As it stands.
    Plain,
    /// With one more turn, a close frame with code 1000.
    Closed,
}

/// A case: its name, how it is cut, how it ends, and what it sends.
#[derive(Clone, Copy)]
pub(crate) struct Row(pub &'static str, pub Chop, pub Finish, pub &'static [Act]);

/// Cases whose names begin alike.
#[derive(Clone, Copy)]
pub(crate) enum Section {
    /// Each as its row says.
    Rows(&'static [Row]),
    /// A text message of each of these payloads. The names have this front, a dot, and the number in the list, from 1.
    /// One whose payload is UTF-8 ends with a close frame.
    Texts(&'static str, &'static [&'static [u8]]),
    /// So one of these payloads joined.
    Joined(&'static str, &'static [&'static [u8]]),
    /// So the first bytes of a payload: one byte of it, two, up to all of them.
    Fronts(&'static str, &'static [u8]),
    /// So the last two characters of each plane of Unicode, which are non-characters.
    NonCharacters(&'static str),
    /// A close frame of each of these codes, without a reason.
    Codes(&'static str, &'static [u16]),
}
