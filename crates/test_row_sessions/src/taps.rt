//! Rows of a tapped connection.

use crate::tap_devices::{Move, MoveReader, Moves, NoMoveLeft, NotingWriter};
use std::alloc::Global;
use std::cell::RefCell;
use test_row_frames::{RowFault, bytes_of, most_of, put, put_hex, put_number};
use ws_base::Payload;
use ws_frame::{DataStyle, Watched};
use ws_tap::{TapEnd, TapSide, Tapped, tap_ends};
use ws_wire::Role;

/// Each order in which two ends send two pieces each.
const ORDERS: [[Role; 4]; 6] = [
    [Role::Client, Role::Client, Role::Server, Role::Server],
    [Role::Client, Role::Server, Role::Client, Role::Server],
    [Role::Client, Role::Server, Role::Server, Role::Client],
    [Role::Server, Role::Client, Role::Client, Role::Server],
    [Role::Server, Role::Client, Role::Server, Role::Client],
    [Role::Server, Role::Server, Role::Client, Role::Client],
];

/// What a tap has told, and passed on.
#[derive(Drop)]
struct TapTold {
    text: Vec<u8>,
    to_server: NotingWriter,
    to_client: NotingWriter,
    end: TapEnd,
}

/// `tap [+text|+all] NUMBER MOVE ..`: the lines that a tap tells of the connection of this number, with payloads in
/// this style, or by their first bytes; `>` and what it writes to the server; `<` and what it writes to the client,
/// each with `ended` where that direction was ended; and how it ended: `client` or `server`, whose direction ended
/// first, or `broken` where no move is left. Behind `>` stand the moves of the client, behind `<` those of the server:
/// pieces that it sends, and `end` where it ends its direction.
pub fn tap_moves(alloc: Global, words: &[&str], out: &mut String) -> Result<(), RowFault> {
    let (style, words) = style_and_rest(words);
    let [number, words @ ..] = words else {
        return Err(RowFault::NotARow);
    };
    let number = most_of(number)?;
    let moves = moves_of(alloc, words)?;
    let told = tap(alloc, Tapped { number, style }, moves)?;
    put_hex(out, "", told.text.as_slice())?;
    put_passed(out, " > ", &told.to_server)?;
    put_passed(out, " < ", &told.to_client)?;
    put(out, end_word(told.end))
}

/// The style of payloads that the first word names, and the words behind it; else by their first bytes, and all words.
fn style_and_rest<'a, 'b>(words: &'a [&'b str]) -> (DataStyle, &'a [&'b str]) {
    match words {
        ["+text", rest @ ..] => (DataStyle::Text, rest),
        ["+all", rest @ ..] => (DataStyle::All, rest),
        _ => (DataStyle::Hex, words),
    }
}

/// `tap_orders [+text|+all] NUMBER CLIENT SERVER`: each end sends its bytes in two pieces, cut at every place, and then
/// ends its direction, in each order of the four pieces. The lines that are told of the client, and those of the
/// server, where all these are the same and all bytes were passed on; else where they are not.
pub fn tap_orders(alloc: Global, words: &[&str], out: &mut String) -> Result<(), RowFault> {
    let (style, words) = style_and_rest(words);
    let [number, client, server] = words else {
        return Err(RowFault::NotARow);
    };
    let number = most_of(number)?;
    let tapped = Tapped { number, style };
    let (client, server) = (bytes_of(alloc, client)?, bytes_of(alloc, server)?);
    let first = tap_cut(alloc, tapped, &client, 0, &server, 0)?;
    for at in 0..=client.len() {
        for place in 0..=server.len() {
            let lines = tap_cut(alloc, tapped, &client, at, &server, place)?;
            if lines.as_str() != first.as_str() {
                return put_differing(out, at, place, lines.as_str());
            }
        }
    }
    put(out, first.as_str())
}

/// The lines that are others where the bytes are cut at these places.
fn put_differing(out: &mut String, at: usize, place: usize, lines: &str) -> Result<(), RowFault> {
    put_number(out, "differs at ", at as u64)?;
    put_number(out, " and ", place as u64)?;
    put(out, ": ")?;
    put(out, lines)
}

/// What is told of the client, and of the server, where each sends its bytes in two pieces, in each order of them: the
/// lines of the one that the first order gives, and those of the other; and which orders give others, or lose bytes.
fn tap_cut(
    alloc: Global,
    tapped: Tapped,
    client: &Payload,
    at: usize,
    server: &Payload,
    place: usize,
) -> Result<String, RowFault> {
    let mut out = String::new(alloc);
    for order in ORDERS {
        let mut pieces = Pieces::cut(client, at, server, place);
        let told = tap(alloc, tapped, pieces.in_order(alloc, order)?)?;
        let lines = told_of_both(alloc, &told, client, server)?;
        if out.is_empty() {
            out = lines;
        } else if out.as_str() != lines.as_str() {
            put(&mut out, ", another order: ")?;
            put(&mut out, lines.as_str())?;
        }
    }
    Ok(out)
}

/// The pieces of both ends that are left.
#[derive(Drop)]
struct Pieces<'a> {
    client: [&'a [u8]; 2],
    server: [&'a [u8]; 2],
    of_client: usize,
    of_server: usize,
}

impl<'a> Pieces<'a> {
    /// Two pieces of each end.
    fn cut(client: &'a Payload, at: usize, server: &'a Payload, place: usize) -> Pieces<'a> {
        Pieces {
            client: halves(client.as_slice(), at),
            server: halves(server.as_slice(), place),
            of_client: 0,
            of_server: 0,
        }
    }

    /// The moves of both ends in this order, which both end then.
    fn in_order(&mut self, alloc: Global, order: [Role; 4]) -> Result<Vec<Move>, RowFault> {
        let mut moves = Vec::new(alloc);
        for by in order {
            let piece = self.next(by);
            if !piece.is_empty() {
                let mut bytes = Vec::new(alloc);
                bytes.extend_from_slice(piece)?;
                moves.push(Move { by, bytes })?;
            }
        }
        for by in [Role::Client, Role::Server] {
            moves.push(Move {
                by,
                bytes: Vec::new(alloc),
            })?;
        }
        Ok(moves)
    }

    /// The next piece of this end.
    fn next(&mut self, by: Role) -> &'a [u8] {
        let (pieces, at) = match by {
            Role::Client => (self.client, self.of_client),
            Role::Server => (self.server, self.of_server),
        };
        match by {
            Role::Client => self.of_client = at.saturating_add(1),
            Role::Server => self.of_server = at.saturating_add(1),
        }
        pieces.get(at).copied().unwrap_or(&[])
    }
}

/// The bytes up to this place, and those behind it.
fn halves(bytes: &[u8], at: usize) -> [&[u8]; 2] {
    let at = at.min(bytes.len());
    [&bytes[..at], &bytes[at..]]
}

/// The lines of the client, those of the server, and whether all that they sent was passed on, with their ends.
fn told_of_both(
    alloc: Global,
    told: &TapTold,
    client: &Payload,
    server: &Payload,
) -> Result<String, RowFault> {
    let Ok(text) = str::from_utf8(told.text.as_slice()) else {
        return Err(RowFault::NotARow);
    };
    let mut out = String::new(alloc);
    for mark in [" > ", " < "] {
        put_hex(&mut out, "", lines_with(alloc, text, mark)?.as_slice())?;
        put(&mut out, " ")?;
    }
    let is_passed = has_got(&told.to_server, client) && has_got(&told.to_client, server);
    put(
        &mut out,
        if is_passed {
            "passed on"
        } else {
            "not passed on"
        },
    )?;
    Ok(out)
}

/// The lines that have this mark.
fn lines_with(alloc: Global, text: &str, mark: &str) -> Result<Vec<u8>, RowFault> {
    let mut lines = Vec::new(alloc);
    for line in text.lines() {
        if line.contains(mark) {
            lines.extend_from_slice(line.as_bytes())?;
            lines.push(b'\n')?;
        }
    }
    Ok(lines)
}

/// Whether all these bytes were written, and the direction was ended behind them.
fn has_got(writer: &NotingWriter, bytes: &Payload) -> bool {
    writer.is_ended && writer.taken.as_slice() == bytes.as_slice()
}

/// What a tap of this connection tells and passes on where its ends make these moves.
fn tap(alloc: Global, tapped: Tapped, moves: Vec<Move>) -> Result<TapTold, RowFault> {
    let moves = RefCell::new(Moves::new(moves));
    let mut client = side_of(alloc, &moves, Role::Client);
    let mut server = side_of(alloc, &moves, Role::Server);
    let mut output = Watched::new(Vec::new(alloc));
    let ended = tap_ends(
        alloc,
        tapped,
        &mut client,
        &mut server,
        &mut NoMoveLeft {},
        &mut output,
    );
    let Ok(end) = ended else {
        return Err(RowFault::NoMemory);
    };
    Ok(TapTold {
        text: output.into_inner(),
        to_server: server.writer,
        to_client: client.writer,
        end,
    })
}

/// The moves that words spell.
fn moves_of(alloc: Global, words: &[&str]) -> Result<Vec<Move>, RowFault> {
    let mut moves = Vec::new(alloc);
    let mut by = Role::Client;
    for word in words {
        match *word {
            ">" => by = Role::Client,
            "<" => by = Role::Server,
            "end" => moves.push(Move {
                by,
                bytes: Vec::new(alloc),
            })?,
            _ => push_piece(alloc, word, by, &mut moves)?,
        }
    }
    Ok(moves)
}

/// Puts the piece of an end behind the moves, where it has bytes.
fn push_piece(alloc: Global, word: &str, by: Role, moves: &mut Vec<Move>) -> Result<(), RowFault> {
    let bytes = bytes_of(alloc, word)?.into_vec();
    if !bytes.is_empty() {
        moves.push(Move { by, bytes })?;
    }
    Ok(())
}

/// One end of the connection.
fn side_of<'a>(
    alloc: Global,
    moves: &'a RefCell<Moves>,
    by: Role,
) -> TapSide<MoveReader<'a>, NotingWriter> {
    TapSide {
        reader: MoveReader::of(moves, by),
        writer: NotingWriter::new(alloc),
    }
}

/// Puts what was written to an end.
fn put_passed(out: &mut String, mark: &str, writer: &NotingWriter) -> Result<(), RowFault> {
    put_hex(out, mark, writer.taken.as_slice())?;
    put(out, if writer.is_ended { " ended" } else { "" })
}

/// The word for an end.
fn end_word<'a>(end: TapEnd) -> &'a str {
    match end {
        TapEnd::Ended(Role::Client) => ", client",
        TapEnd::Ended(Role::Server) => ", server",
        TapEnd::Broken => ", broken",
    }
}
