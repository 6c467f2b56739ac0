//! The lines of a stream that comes piece by piece, with payloads in any style (RFC 6455 section 5.2).

ghost use Rattle.std.specs.Prelude.{◌≡◌, ◌≤◌, ◌<◌, ◌+◌, ◌^◌, ◌++◌, [], IfOk, OnOk, drop, false, length, true};
ghost use Rattle.ws_frame.specs.declared.showing.StreamEnd.TheVariants.{BadLengthAt};
ghost use Rattle.ws_frame.specs.Lines.{last_line, marked_at};
ghost use Rattle.ws_frame.specs.PayloadStreaming.{EndsPut, HasPutLines, HasRoomToPut, IsGoing, PutsMore};
ghost use Rattle.ws_frame.specs.PayloadStreaming.{stream_end, stream_source};
ghost use Rattle.ws_frame.specs.InnerPayloads.{PutsFrames, StandsAtFront};

use crate::frame_line::{FrameLine, put_frame};
use crate::one_line::OneLine;
use crate::room::Room;
use crate::showing::StreamEnd;
use crate::source::Source;
use crate::writing_lines::{last_line_of, push_last_line};
use std::alloc::Global;
use ws_base::NoMemory;
use ws_wire::{Header, HeaderRead, read_header};

/// The lines of a stream that comes piece by piece: those of `show`, with payloads in the style of the source. The
/// bytes of a frame that is not whole are kept.
#[derive(Drop)]
pub struct PayloadLines {
    source: Source,
    /// The place of the frame under way.
    pub(crate) offset: u64,
    /// Its bytes that have come.
    rest: Vec<u8>,
    /// Where the words around a payload are made, and a last line.
    pub(crate) room: Room,
    /// A header stands there whose length has the top bit set: nothing behind it is a frame.
    pub(crate) stopped: bool,
}

impl PayloadLines {
    /// Nothing of the stream has come.
    pub fn new(alloc: Global, source: Source) -> PayloadLines
        ensures source { stream_source result ≡ source }
        ensures begun { HasPutLines result [] [] }
        ensures going { IsGoing result }
    {
        PayloadLines {
            source,
            offset: 0,
            rest: Vec::new(alloc),
            room: Room::new(),
            stopped: false,
        }
    }

    /// More bytes come: the lines of the frames that they complete are put behind the others, and that of a bad length,
    /// behind which no line follows. Where memory runs out, the lines are of no use, nor is the stream.
    pub fn take(&mut self, alloc: Global, piece: &[u8], lines: &mut Vec<u8>) -> Result<(), NoMemory>
        requires room { HasRoomToPut (length piece.now) self.old }
        ensures source { stream_source self.new ≡ stream_source self.old }
        ensures put { OnOk result
            (PutsMore self.old self.new piece.now lines.old.items lines.new.items) }
    {
        if self.stopped {
            return Ok(());
        }
        self.rest.extend_from_slice(piece)?;
        let done = self.put_frames(alloc, lines)?;
        drop_front(&mut self.rest, done);
        Ok(())
    }

    /// The payload of the frame at this place is the stream's first violation: its line is to be marked.
    pub(crate) fn mark(&mut self, place: u64)
        ensures marked { self.new ≡ record self.old { source = marked_at self.old.source place } }
    {
        self.source.fault = Some(place);
    }

    /// How the stream ends where nothing more comes.
    pub fn end(&self) -> StreamEnd
        ensures { result ≡ stream_end self.now }
    {
        if self.stopped {
            StreamEnd::BadLengthAt(self.offset)
        } else if self.rest.is_empty() {
            StreamEnd::Whole
        } else {
            StreamEnd::CutAt(self.offset)
        }
    }

    /// Nothing more comes: the line of a cut, and no bytes where the stream ends with a whole frame or at a bad length.
    pub fn end_line(&self) -> OneLine
        ensures ended { EndsPut self.now result }
    {
        if self.stopped {
            return OneLine::none();
        }
        last_line_of(self.source, self.end())
    }

    /// Puts the lines of the frames at the front of what is kept, and that of a bad length behind them. Answers how
    /// many bytes the frames have.
    fn put_frames(&mut self, alloc: Global, lines: &mut Vec<u8>) -> Result<usize, NoMemory>
        requires going { self.old.stopped ≡ false }
        requires count { self.old.offset + length self.old.rest.items < 2 ^ 64 }
        ensures source { self.new.source ≡ self.old.source }
        ensures within { IfOk result (λ done. done ≤ length self.new.rest.items) }
        ensures put { IfOk result (λ done. PutsFrames self.old self.new done lines.old.items lines.new.items) }
    {
        let mut unmasked = Vec::new(alloc);
        let mut at = 0;
        while at < self.rest.len() {
            match frame_at(&self.rest[at..]) {
                FrameAt::Whole { header, start, end } => {
                    let frame = FrameLine {
                        source: self.source,
                        offset: self.offset,
                        header,
                        payload: &self.rest[at + start..at + end],
                    };
                    put_frame(&frame, &mut unmasked, &mut self.room, lines)?;
                    at += end;
                    self.offset += end as u64;
                }
                FrameAt::Part => return Ok(at),
                FrameAt::BadLength => {
                    self.stop(lines)?;
                    return Ok(at);
                }
            }
        }
        Ok(at)
    }

    /// A bad length stands where the next frame begins: its line is put.
    fn stop(&mut self, lines: &mut Vec<u8>) -> Result<(), NoMemory>
        ensures stopped { self.new ≡ record self.old { stopped = true; room = self.new.room } }
        ensures put { OnOk result (lines.new.items
            ≡ lines.old.items ++ last_line self.old.source (BadLengthAt self.old.offset)) }
    {
        self.stopped = true;
        self.room.clear();
        push_last_line(
            &mut self.room,
            self.source,
            StreamEnd::BadLengthAt(self.offset),
        );
        lines.extend_from_slice(self.room.as_slice())?;
        Ok(())
    }
}

/// What stands at the front of some bytes.
#[derive(Clone, Copy)]
pub(crate) enum FrameAt {
    /// A frame with this header, whose payload begins and ends at these places.
    Whole {
        header: Header,
        start: usize,
        end: usize,
    },
    /// Less than a frame.
    Part,
    /// A header whose length has the top bit set.
    BadLength,
}

/// What stands at the front of some bytes.
fn frame_at(bytes: &[u8]) -> FrameAt
    ensures { StandsAtFront bytes.now result }
{
    match read_header(bytes) {
        HeaderRead::Need => FrameAt::Part,
        HeaderRead::BadLength { .. } => FrameAt::BadLength,
        HeaderRead::Got { header, used } => {
            if header.payload_len() > (bytes.len() - used) as u64 {
                return FrameAt::Part;
            }
            FrameAt::Whole {
                header,
                start: used,
                end: used + header.payload_len() as usize,
            }
        }
    }
}

/// Drops so many bytes from the front of some.
fn drop_front(bytes: &mut Vec<u8>, count: usize)
    requires { count ≤ length bytes.old.items }
    ensures { bytes.new.items ≡ drop count bytes.old.items }
{
    // Where a frame comes byte by byte, what came of it isn't moved at each.
    if count == 0 {
        return;
    }
    let left = bytes.len() - count;
    bytes.copy_within(count.., 0);
    bytes.truncate(left);
}
