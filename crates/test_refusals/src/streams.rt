//! Streams that a server takes, with what comes of them (RFC 6455 sections 5.2 to 5.7). All keys but one are zeros, so
//! that the payloads stand in the clear.

use crate::events::Told;
use ws_session::{Reason, Status};

/// A stream in pieces, and what a server makes of it.
#[derive(Clone, Copy)]
pub struct Stream {
    /// The most payload bytes of a message.
    pub limit: u32,
    pub pieces: &'static [&'static [u8]],
    pub events: &'static [Told],
    /// What a session puts.
    pub put: &'static [u8],
    /// What an echo puts.
    pub echoed: &'static [u8],
    pub status: Status,
}

/// A text in two fragments with a ping between them, cut inside keys and payloads.
pub const HELLO: Stream = Stream {
    limit: 1000,
    pieces: &[
        b"\x01\x83\x37",
        b"\xfa\x21\x3d\x7f\x9f\x4d\x89\x80\x37\xfa",
        b"\x21\x3d\x80\x82\x37\xfa\x21\x3d\x5b\x95",
    ],
    events: &[Told::Part, Told::Ping(b""), Told::Text(b"Hello")],
    put: b"\x8a\x00",
    echoed: b"\x8a\x00\x81\x05Hello",
    status: Status::Open,
};

/// A character in two fragments, and then half of it as a whole message.
pub const CUT_TEXT: Stream = Stream {
    limit: 1000,
    pieces: &[
        b"\x01\x81\0\0\0\0\xce",
        b"\x80\x81\0\0\0\0\xba",
        b"\x81\x81\0\0\0\0\xce",
    ],
    events: &[
        Told::Part,
        Told::Text(b"\xce\xba"),
        Told::Failed(Reason::TextCut),
    ],
    put: b"\x88\x02\x03\xef",
    echoed: b"\x81\x02\xce\xba\x88\x02\x03\xef",
    status: Status::Failed(Reason::TextCut),
};

/// A message of ten bytes, and one of eleven where ten are the most.
pub const OVERSIZED: Stream = Stream {
    limit: 10,
    pieces: &[
        b"\x82\x8a\0\0\0\0\x00\x01\x02\x03\x04\x05",
        b"\x06\x07\x08\x09\x82\x8b\0\0\0\0",
        b"\x00\x01\x02\x03\x04\x05\x06\x07\x08\x09\x0a",
    ],
    events: &[
        Told::Binary(b"\x00\x01\x02\x03\x04\x05\x06\x07\x08\x09"),
        Told::Failed(Reason::TooBig),
    ],
    put: b"\x88\x02\x03\xf1",
    echoed: b"\x82\x0a\x00\x01\x02\x03\x04\x05\x06\x07\x08\x09\x88\x02\x03\xf1",
    status: Status::Failed(Reason::TooBig),
};

/// A text and a close frame.
pub const CLOSED: Stream = Stream {
    limit: 1000,
    pieces: &[b"\x81\x81\0\0\0\0\x61", b"\x88\x82\0\0\0\0\x03\xe8"],
    events: &[Told::Text(b"a"), Told::Close(1000)],
    put: b"\x88\x02\x03\xe8",
    echoed: b"\x81\x01\x61\x88\x02\x03\xe8",
    status: Status::Clean(Some(1000)),
};

/// The turns of case 5.19: five fragments with two pings between them, and a close frame.
pub const FRAGMENTS: Stream = Stream {
    limit: 1000,
    pieces: &[
        b"\x01\x89\0\0\0\0fragment1\x00\x89\0\0\0\0fragment2\x89\x86\0\0\0\0ping 1",
        b"\x00\x89\0\0\0\0fragment3\x00\x89\0\0\0\0fragment4\x89\x86\0\0\0\0ping 2\x80\x89\0\0\0\0fragment5",
        b"\x88\x82\0\0\0\0\x03\xe8",
    ],
    events: &[
        Told::Part,
        Told::Part,
        Told::Ping(b"ping 1"),
        Told::Part,
        Told::Part,
        Told::Ping(b"ping 2"),
        Told::Text(b"fragment1fragment2fragment3fragment4fragment5"),
        Told::Close(1000),
    ],
    put: b"\x8a\x06ping 1\x8a\x06ping 2\x88\x02\x03\xe8",
    echoed: b"\x8a\x06ping 1\x8a\x06ping 2\x81\x2dfragment1fragment2fragment3fragment4fragment5\x88\x02\x03\xe8",
    status: Status::Clean(Some(1000)),
};
