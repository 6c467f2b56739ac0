//! The lines that tell what came of two joined sessions. They go out through a room: no text of all of them is made.

ghost use Rattle.std.specs.Prelude.{◌≡◌, ◌≤◌, ◌++◌, Some, decimal, false, length, string_bytes, IfOk};
ghost use Rattle.std.specs.List.{flat_map};
ghost use Rattle.ws_formats.specs.Words.{hex, hex_word};
ghost use Rattle.ws_frame.specs.Devices.{watched};
ghost use Rattle.ws_frame.specs.Streaming.{WritesAll};
ghost use Rattle.ws_frame.specs.Watching.{has_failed};
ghost use Rattle.ws_session.specs.Words.{kind_word};
ghost use Rattle.ws_pair.specs.KeptMessages.{whole_message};
ghost use Rattle.ws_pair.specs.Script.{end_word};
ghost use Rattle.ws_pair.specs.declared.moves.End.TheVariants.{Client, Server};
ghost use Rattle.ws_pair.specs.declared.report.Answer.TheVariants.{Arrived};
ghost use Rattle.ws_pair.specs.ReportLines.{answer_line, message_line, refusal_line, report_lines, WritesReport};
ghost use Rattle.ws_pair.specs.InnerPrinting.{PutsBehind, end_with_last, put_line, reached_line, standing_line};

use crate::messages::Messages;
use crate::moves::End;
use crate::report::{Answer, EndReport, Report};
use itoa::Buffer;
use std::alloc::Global;
use std::fmt;
use std::io::Write;
use ws_base::NoMemory;
use ws_formats::put_digits;
use ws_frame::{Watched, WriteFault};
use ws_rooms::{Room, flush, put};
use ws_session::{Kind, SendFault, Status};

/// How many bytes are put as digits at once.
const BLOCK: usize = 64;

/// Why a report was not written whole.
#[derive(Clone, Copy, Debug)]
pub enum ReportFault {
    /// Nothing was written.
    NoMemory,
    /// A write failed: a beginning was written.
    Write,
}

/// Writes the lines of a report: one for each move, then those of the client and those of the server. Each ends with
/// LF. What memory it takes it asks for before it writes.
pub fn write_report<W: Write>(
    alloc: Global,
    report: &Report,
    writer: &mut Watched<W>,
) -> Result<(), ReportFault>
    requires { has_failed writer.old ≡ false }
    ensures { WritesReport (report_lines report.now) result (watched W.contents writer.old writer.new) }
{
    let Ok(client) = standing(alloc, End::Client, report.client.status) else {
        return Err(ReportFault::NoMemory);
    };
    let Ok(server) = standing(alloc, End::Server, report.server.status) else {
        return Err(ReportFault::NoMemory);
    };
    match write_lines(report, client.as_str(), server.as_str(), writer) {
        Ok(()) => Ok(()),
        Err(_) => Err(ReportFault::Write),
    }
}

/// Writes the lines of a report, of which the last of each end are given.
fn write_lines<W: Write>(
    report: &Report,
    client: &str,
    server: &str,
    writer: &mut Watched<W>,
) -> Result<(), WriteFault>
    requires { has_failed writer.old ≡ false }
    ensures { WritesAll (flat_map answer_line report.now.answers.items
        ++ (end_with_last Client report.now.client client.now ++ end_with_last Server report.now.server server.now))
        (watched W.contents writer.old writer.new) result }
{
    let mut room = Room::new();
    put_answers(&mut room, report.answers.as_slice(), writer);
    put_end(&mut room, End::Client, &report.client, client, writer);
    put_end(&mut room, End::Server, &report.server, server, writer);
    if writer.failed() {
        return Err(WriteFault);
    }
    flush(&mut room, writer)
}

/// Puts bytes behind those that wait, unless a write has failed.
#[inline(always)]
fn put_more<W: Write>(room: &mut Room, bytes: &[u8], writer: &mut Watched<W>)
    ensures { PutsBehind W.contents bytes.now room.old room.new writer.old writer.new }
{
    if writer.failed() {
        return;
    }
    let _ = put(room, bytes, writer);
}

/// Puts a line for each move. Behind a failed write, here and below, no further line and no digits are made.
fn put_answers<W: Write>(room: &mut Room, answers: &[Answer], writer: &mut Watched<W>)
    ensures { PutsBehind W.contents (flat_map answer_line answers.now) room.old room.new writer.old writer.new }
{
    for answer in answers {
        if writer.failed() {
            return;
        }
        put_answer(room, *answer, writer);
    }
}

/// Puts what came of one move.
#[inline(always)]
fn put_answer<W: Write>(room: &mut Room, answer: Answer, writer: &mut Watched<W>)
    ensures { PutsBehind W.contents (answer_line answer) room.old room.new writer.old writer.new }
{
    match answer {
        Answer::Did => put_more(room, b"ok\n", writer),
        Answer::Refused(fault) => put_more(room, refusal_line(fault).as_bytes(), writer),
        Answer::Arrived(count) => put_arrived(room, count, writer),
        Answer::Cut => put_more(room, b"cut\n", writer),
    }
}

/// The line of a send that was refused.
fn refusal_line(fault: SendFault) -> &'static str
    ensures { result.now ≡ refusal_line fault }
{
    match fault {
        SendFault::Over => "refused Over\n",
        SendFault::Busy => "refused Busy\n",
        SendFault::NothingOpen => "refused NothingOpen\n",
        SendFault::NotText => "refused NotText\n",
        SendFault::TooLong => "refused TooLong\n",
        SendFault::BadCode => "refused BadCode\n",
        SendFault::NoMemory => "refused NoMemory\n",
    }
}

/// Puts how many bytes came.
fn put_arrived<W: Write>(room: &mut Room, count: u32, writer: &mut Watched<W>)
    ensures { PutsBehind W.contents (answer_line (Arrived count)) room.old room.new writer.old writer.new }
{
    put_more(room, b"arrived ", writer);
    put_number(room, count as u64, writer);
    put_more(room, b"\n", writer);
}

/// Puts a number, in decimal digits.
fn put_number<W: Write>(room: &mut Room, number: u64, writer: &mut Watched<W>)
    ensures { PutsBehind W.contents (decimal number) room.old room.new writer.old writer.new }
{
    let mut digits = Buffer::new();
    put_more(room, digits.format(number).as_bytes(), writer);
}

/// Puts the lines of one end, of which the last is given.
fn put_end<W: Write>(
    room: &mut Room,
    side: End,
    end: &EndReport,
    last: &str,
    writer: &mut Watched<W>,
)
    ensures { PutsBehind W.contents (end_with_last side end.now last.now) room.old room.new writer.old writer.new }
{
    put_put(room, side, end.put.as_slice(), writer);
    put_reached(room, side, end.reached, writer);
    put_messages(room, side, &end.delivered, writer);
    put_more(room, last.as_bytes(), writer);
}

/// Puts the bytes that an end wrote.
fn put_put<W: Write>(room: &mut Room, side: End, bytes: &[u8], writer: &mut Watched<W>)
    ensures { PutsBehind W.contents (put_line side bytes.now) room.old room.new writer.old writer.new }
{
    put_more(room, word_of(side).as_bytes(), writer);
    put_more(room, b" put ", writer);
    put_hex(room, bytes, writer);
    put_more(room, b"\n", writer);
}

/// Puts how many bytes reached an end.
fn put_reached<W: Write>(room: &mut Room, side: End, reached: u64, writer: &mut Watched<W>)
    ensures { PutsBehind W.contents (reached_line side reached) room.old room.new writer.old writer.new }
{
    put_more(room, word_of(side).as_bytes(), writer);
    put_more(room, b" reached ", writer);
    put_number(room, reached, writer);
    put_more(room, b"\n", writer);
}

/// Puts a line for each message that an end delivered.
fn put_messages<W: Write>(room: &mut Room, side: End, messages: &Messages, writer: &mut Watched<W>)
    ensures { PutsBehind W.contents (flat_map (message_line side) messages.now.items)
        room.old room.new writer.old writer.new }
{
    let mut walk = messages.iter();
    while let Some(message) = walk.next() {
        if writer.failed() {
            return;
        }
        put_message(room, side, message.kind, message.payload, writer);
    }
}

/// Puts a message that an end delivered.
fn put_message<W: Write>(
    room: &mut Room,
    side: End,
    kind: Kind,
    payload: &[u8],
    writer: &mut Watched<W>,
)
    ensures { PutsBehind W.contents (message_line side (whole_message kind payload.now))
        room.old room.new writer.old writer.new }
{
    put_more(room, word_of(side).as_bytes(), writer);
    put_more(room, b" got ", writer);
    put_more(room, kind_word(kind).as_bytes(), writer);
    put_more(room, b" ", writer);
    put_hex(room, payload, writer);
    put_more(room, b"\n", writer);
}

/// The word of a kind of message.
fn kind_word(kind: Kind) -> &'static str
    ensures { result.now ≡ kind_word kind }
{
    match kind {
        Kind::Text => "text",
        Kind::Binary => "binary",
    }
}

/// Puts bytes, two digits each, or a dash where there are none.
fn put_hex<W: Write>(room: &mut Room, bytes: &[u8], writer: &mut Watched<W>)
    ensures { PutsBehind W.contents (hex_word bytes.now) room.old room.new writer.old writer.new }
{
    if bytes.is_empty() {
        put_more(room, b"-", writer);
        return;
    }
    put_blocks(room, bytes, writer);
}

/// Puts bytes, two digits each.
fn put_blocks<W: Write>(room: &mut Room, bytes: &[u8], writer: &mut Watched<W>)
    ensures { PutsBehind W.contents (hex bytes.now) room.old room.new writer.old writer.new }
{
    let mut at = 0;
    while at < bytes.len() {
        if writer.failed() {
            return;
        }
        let end = at + (bytes.len() - at).min(BLOCK);
        put_block(room, &bytes[at..end], writer);
        at = end;
    }
}

/// Puts the digits of a few bytes at once.
#[inline(always)]
fn put_block<W: Write>(room: &mut Room, bytes: &[u8], writer: &mut Watched<W>)
    requires { length bytes.now ≤ 64 }
    ensures { PutsBehind W.contents (hex bytes.now) room.old room.new writer.old writer.new }
{
    let mut block = [0; 2 * BLOCK];
    let digits = &mut block[..2 * bytes.len()];
    put_digits(bytes, digits);
    put_more(room, digits, writer);
}

/// How an end stands.
fn standing(alloc: Global, side: End, status: Status) -> Result<String, NoMemory>
    ensures { IfOk result (λ line. string_bytes line ≡ standing_line side status) }
{
    let line = format!(in alloc; "{side} status {status}\n")?;
    Ok(line)
}

/// The word of an end.
fn word_of(side: End) -> &'static str
    ensures { result.now ≡ end_word side }
{
    match side {
        End::Client => "client",
        End::Server => "server",
    }
}

impl fmt::Display for End {
    ghost output = { λ end. Some (end_word end) };

    fn fmt<W: fmt::Write>(&self, f: &mut fmt::Formatter<W>) -> fmt::Result {
        match self {
            End::Client => write!(f, "client"),
            End::Server => write!(f, "server"),
        }
    }
}
