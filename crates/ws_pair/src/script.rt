//! Scripts of moves: what happens at two joined sessions, one move a line.

ghost use Rattle.std.specs.Prelude.{◌≡◌, map, MatchResult};
ghost use Rattle.ws_formats.specs.Lines.{Damages};
ghost use Rattle.ws_formats.specs.Reading.{Reads};
ghost use Rattle.ws_base.specs.Finding.{Finds};
ghost use Rattle.ws_pair.specs.Script.{AreMoveLines, AreMoveWords, IsArriveOf, IsCutOf, IsMoveAt, IsMoveLine};
ghost use Rattle.ws_pair.specs.Script.{end_word, move_name_word, move_of};

use crate::moves::{End, Move};
use std::alloc::Global;
use ws_base::{LineFault, Sequence, TextFault};
use ws_formats::{Line, read_key_or_dash, read_lines, read_u32};
use ws_line_words::few_words;
use ws_sends::{KeyedSend, read_send};

/// The moves of a script, which has a line for each. Every line ends with LF, and its words are parted by one space:
/// `begin END text|binary fin|part HEX KEY`, `more END fin|part HEX KEY`, `ping END HEX KEY`, `pong END HEX KEY`,
/// `close END CODE|none HEX KEY`, `arrive END N KEY` or `cut END`.
pub fn read_moves(alloc: Global, text: &[u8]) -> Result<Sequence<Move>, TextFault>
    ensures { MatchResult result (λ moves. AreMoveLines moves text.now) (λ fault. Damages AreMoveLines fault text.now) }
{
    read_lines::<Move>(alloc, text)
}

impl Line for Move {
    ghost is_line_of = { IsMoveLine };

    fn read(alloc: Global, line: &[u8]) -> Result<Move, LineFault> {
        let Some(words) = few_words(line) else {
            return Err(LineFault::Damaged);
        };
        let found = read_words(alloc, words.as_slice())?;
        Ok(found)
    }
}

/// The move that words tell.
fn read_words(alloc: Global, words: &[&[u8]]) -> Result<Move, LineFault>
    ensures { Reads result (λ found. AreMoveWords found (map (λ w. w.now) words.now)) }
{
    let [name, end, fields @ ..] = words else {
        return Err(LineFault::Damaged);
    };
    let Some(side) = read_end(end) else {
        return Err(LineFault::Damaged);
    };
    let found = read_fields(alloc, name, side, fields)?;
    Ok(found)
}

/// The end that a word names.
fn read_end(word: &[u8]) -> Option<End>
    ensures { Finds result (λ end. word.now ≡ end_word end) }
{
    match word {
        b"client" => Some(End::Client),
        b"server" => Some(End::Server),
        _ => None,
    }
}

/// The move at this end that a name and the words behind the end tell.
fn read_fields(alloc: Global, name: &[u8], side: End, fields: &[&[u8]]) -> Result<Move, LineFault>
    ensures { Reads result (λ found. IsMoveAt side found name.now (map (λ w. w.now) fields.now)) }
{
    match read_name(name) {
        Some(MoveName::Arrive) => match read_arrive(side, fields) {
            Some(found) => Ok(found),
            None => Err(LineFault::Damaged),
        },
        Some(MoveName::Cut) => match read_cut(side, fields) {
            Some(found) => Ok(found),
            None => Err(LineFault::Damaged),
        },
        None => {
            let send = read_send(alloc, name, fields)?;
            Ok(move_of(side, send))
        }
    }
}

/// What the first word of a move is that sends nothing.
#[derive(Clone, Copy)]
enum MoveName {
    Arrive,
    Cut,
}

/// The first word of a move that sends nothing.
fn read_name(word: &[u8]) -> Option<MoveName>
    ensures { Finds result (λ name. word.now ≡ move_name_word name) }
{
    match word {
        b"arrive" => Some(MoveName::Arrive),
        b"cut" => Some(MoveName::Cut),
        _ => None,
    }
}

fn read_arrive(side: End, fields: &[&[u8]]) -> Option<Move>
    ensures { Finds result (λ found. IsArriveOf side found (map (λ w. w.now) fields.now)) }
{
    let [bytes, key] = fields else {
        return None;
    };
    let bytes = read_u32(bytes)?;
    let key = read_key_or_dash(key)?;
    Some(Move::Arrive { side, bytes, key })
}

fn read_cut(side: End, fields: &[&[u8]]) -> Option<Move>
    ensures { Finds result (λ found. IsCutOf side found (map (λ w. w.now) fields.now)) }
{
    if fields.is_empty() {
        Some(Move::Cut { side })
    } else {
        None
    }
}

/// A send at this end.
fn move_of(side: End, send: KeyedSend) -> Move
    ensures { result ≡ move_of side send }
{
    match send {
        KeyedSend::Begin {
            kind,
            payload,
            fin,
            key,
        } => Move::Begin {
            side,
            kind,
            payload,
            fin,
            key,
        },
        KeyedSend::More { payload, fin, key } => Move::More {
            side,
            payload,
            fin,
            key,
        },
        KeyedSend::Ping { payload, key } => Move::Ping { side, payload, key },
        KeyedSend::Pong { payload, key } => Move::Pong { side, payload, key },
        KeyedSend::Close { given, key } => Move::Close { side, given, key },
    }
}
