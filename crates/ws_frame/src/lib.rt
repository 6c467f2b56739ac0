//! The lines of a stream of frames (RFC 6455 section 5.2), from a reader to a writer, and devices: readers and writers
//! that remember whether a call through them failed. What frames are on the wire is that of `ws_wire`, which is handed
//! on.
//!
//! The layers above use the clause `failed` of a watched device, the contracts of `read_input` and `write_whole`, and
//! that of `show`: the lines that are written are those of the stream that was read.
#![tactic(auto)]

mod byte_devices;
mod counting;
mod decimals;
mod failing;
mod first_bytes;
mod frame_line;
mod frame_lines;
pub mod laws;
mod line;
mod one_line;
mod partial;
mod payload_lines;
mod payload_word;
mod reading_input;
mod room;
mod show_fault;
mod showing;
mod showing_payloads;
mod source;
mod stream_lines;
mod watching;
mod writing_lines;
mod writing_whole;

pub use byte_devices::{ByteReader, ByteWriter, FullWriter};
pub use counting::Counting;
pub use failing::Failing;
pub use frame_lines::FrameLines;
pub use one_line::OneLine;
pub use payload_lines::PayloadLines;
pub use reading_input::{InputEnd, READ_SIZE, read_input};
pub use show_fault::ShowFault;
pub use showing::{ShowEnd, StreamEnd, show};
pub use showing_payloads::show_payloads;
pub use source::{DataStyle, Mark, Source};
pub use stream_lines::StreamLines;
pub use watching::Watched;
pub use writing_whole::{WriteFault, write_whole};
pub use ws_wire::{
    Form, HeadBytes, Header, HeaderRead, NO_KEY, Opcode, Role, append_frame, mask, mask_plainly,
    read_header,
};
