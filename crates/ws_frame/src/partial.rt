//! The frame under way: what is kept of one that is not whole (RFC 6455 section 5.2).

ghost use Rattle.std.specs.Prelude.{◌≡◌, ◌<◌, [], List, ℕ, length, IsTrue, ◌↔◌, Some, None};
ghost use Rattle.ws_frame.specs.InnerShowing.{IsPartialFrame, KeepsPartialFrame, UsesSome, TakesPart, BeginsPayload};

use crate::first_bytes::FirstBytes;
use std::mem;
use ws_wire::{Header, HeaderRead, read_header};

/// What is kept of a frame that is not whole. Between two frames nothing is.
#[derive(Drop)]
pub(crate) struct Partial {
    /// The header, once it is whole.
    pub(crate) header: Option<Header>,
    /// The bytes of the header until it is whole, and then the first bytes of the payload as they stand on the wire.
    pub(crate) first: FirstBytes,
    /// How many bytes of the payload are still to come.
    pub(crate) to_come: u64,
}

/// What came of taking bytes.
#[derive(Drop)]
pub(crate) enum Taken {
    /// So many were used, and no frame is whole.
    Part(usize),
    /// So many were used, and a frame is whole: its header, and the first bytes of its payload on the wire.
    Whole {
        header: Header,
        first: FirstBytes,
        used: usize,
    },
    /// A header stands there whose length has the top bit set.
    BadLength,
}

impl Partial {
    /// Nothing of a frame.
    pub(crate) fn new() -> Partial
        ensures { IsPartialFrame [] result }
    {
        Partial {
            header: None,
            first: FirstBytes::new(),
            to_come: 0,
        }
    }

    /// Whether nothing of a frame is kept: the stream stands between two frames.
    pub(crate) fn is_empty(&self) -> bool
        ensures { (rest : List ℕ) → IsPartialFrame rest self.now → (IsTrue result ↔ (rest ≡ [])) }
    {
        self.header.is_none() && self.first.len() == 0
    }

    /// Takes at most the rest of one frame: all of one that lies whole in the piece, else the rest of its header, or of
    /// its payload, which is skipped.
    pub(crate) fn take(&mut self, piece: &[u8]) -> Taken
        requires under_way { KeepsPartialFrame self.old }
        requires some { 0 < length piece.now }
        ensures used { UsesSome piece.now result }
        ensures taken { TakesPart self.old self.new piece.now result }
    {
        match self.header {
            None => {
                if self.first.len() == 0 {
                    self.take_frame(piece)
                } else {
                    self.take_header(piece)
                }
            }
            Some(header) => self.take_payload(header, piece),
        }
    }

    /// Takes a frame from its first byte on: the whole of it where the piece has all its bytes, as most pieces do.
    #[inline(always)]
    fn take_frame(&mut self, piece: &[u8]) -> Taken
        requires header { self.old.header ≡ None }
        requires first { self.old.first ≡ [] }
        requires under_way { KeepsPartialFrame self.old }
        requires some { 0 < length piece.now }
        ensures used { UsesSome piece.now result }
        ensures taken { TakesPart self.old self.new piece.now result }
    {
        match read_header(piece) {
            HeaderRead::Need => {
                self.first = FirstBytes::of_front(piece, piece.len());
                Taken::Part(piece.len())
            }
            HeaderRead::BadLength { .. } => Taken::BadLength,
            HeaderRead::Got { header, used } => {
                let payload = &piece[used..];
                if header.payload_len() > payload.len() as u64 {
                    return self.begin_payload(header, used);
                }
                let len = header.payload_len() as usize;
                Taken::Whole {
                    header,
                    first: FirstBytes::of_front(payload, len),
                    used: used + len,
                }
            }
        }
    }

    /// Takes bytes of the header.
    fn take_header(&mut self, piece: &[u8]) -> Taken
        requires header { self.old.header ≡ None }
        requires under_way { KeepsPartialFrame self.old }
        requires some { 0 < length piece.now }
        ensures used { UsesSome piece.now result }
        ensures taken { TakesPart self.old self.new piece.now result }
    {
        let before = self.first.as_slice().len();
        self.first.push(piece);
        match read_header(self.first.as_slice()) {
            HeaderRead::Need => Taken::Part(piece.len()),
            HeaderRead::BadLength { .. } => Taken::BadLength,
            HeaderRead::Got { header, used } => self.begin_payload(header, used - before),
        }
    }

    /// The header is whole.
    fn begin_payload(&mut self, header: Header, used: usize) -> Taken
        ensures { BeginsPayload header used self.new result }
    {
        if header.payload_len() == 0 {
            *self = Partial::new();
            return Taken::Whole {
                header,
                first: FirstBytes::new(),
                used,
            };
        }
        *self = Partial {
            header: Some(header),
            first: FirstBytes::new(),
            to_come: header.payload_len(),
        };
        Taken::Part(used)
    }

    /// Takes bytes of the payload.
    fn take_payload(&mut self, header: Header, piece: &[u8]) -> Taken
        requires header { self.old.header ≡ Some header }
        requires under_way { KeepsPartialFrame self.old }
        requires some { 0 < length piece.now }
        ensures used { UsesSome piece.now result }
        ensures taken { TakesPart self.old self.new piece.now result }
    {
        let used = self.to_come.min(piece.len() as u64) as usize;
        self.first.push(&piece[..used]);
        self.to_come -= used as u64;
        if self.to_come > 0 {
            return Taken::Part(used);
        }
        let first = mem::replace(&mut self.first, FirstBytes::new());
        self.header = None;
        Taken::Whole {
            header,
            first,
            used,
        }
    }
}
