//! Rows of transcripts by fixed seeds, whose lines without their turns are those of `show` on the joined bytes.

use std::alloc::Global;
use test_row_frames::{RowFault, number_of, put, put_number};
use ws_base::Sequence;
use ws_frame::{DataStyle, Role, ShowEnd, Watched, show};
use ws_lines::{Showing, fits_places, show_transcript};
use ws_scripts::{Ended, Transcript, Turn};

/// `transcripts FIRST LAST`: how many of the transcripts of these seeds have, in each direction, the lines of `show`.
pub fn count_alike(alloc: Global, words: &[&str], out: &mut String) -> Result<(), RowFault> {
    let [first, last] = words else {
        return Err(RowFault::NotARow);
    };
    let mut alike: u64 = 0;
    for seed in number_of(first)?..=number_of(last)? {
        if is_alike(alloc, seed)? {
            alike = alike.saturating_add(1);
        }
    }
    put_number(out, "", alike)?;
    put(out, " alike")
}

/// A row of numbers by a seed (Lehmer's).
fn next_of(seed: u64) -> u64 {
    (seed % 2_147_483_647) * 48_271 % 2_147_483_647
}

/// Bytes that are frames now and then: their first two are an opcode and a short length, masked or not.
fn push_some(bytes: &mut Vec<u8>, seed: u64) -> Result<u64, RowFault> {
    let mut now = next_of(seed);
    let opcodes: [u8; 8] = [0x81, 0x02, 0x89, 0x8a, 0x88, 0xb3, 0x00, 0x82];
    let lengths: [u8; 8] = [0x00, 0x01, 0x03, 0x80, 0x82, 0x7e, 0x7f, 0x11];
    bytes.push(opcodes[(now % 8) as usize])?;
    now = next_of(now);
    bytes.push(lengths[(now % 8) as usize])?;
    now = next_of(now);
    for _ in 0..now % 12 {
        now = next_of(now);
        bytes.push((now % 256) as u8)?;
    }
    Ok(now)
}

/// The bytes of one direction in one turn: none, or up to three such parts.
fn some_bytes(alloc: Global, seed: u64) -> Result<(Vec<u8>, u64), RowFault> {
    let mut bytes = Vec::new(alloc);
    let mut now = next_of(seed);
    for _ in 0..now % 4 {
        now = push_some(&mut bytes, now)?;
    }
    Ok((bytes, next_of(now)))
}

/// A transcript by a seed, of none to four turns.
fn some_transcript(alloc: Global, seed: u64) -> Result<Transcript, RowFault> {
    let mut turns = Vec::new(alloc);
    let mut now = next_of(seed);
    for _ in 0..now % 5 {
        let (sent, after) = some_bytes(alloc, now)?;
        let (got, later) = some_bytes(alloc, after)?;
        turns.push(Turn {
            sent: Sequence::from_vec(sent),
            got: Sequence::from_vec(got),
        })?;
        now = later;
    }
    Ok(Transcript {
        turns: Sequence::from_vec(turns),
        ended: Ended::Peer,
    })
}

/// The lines of a transcript.
fn lines_of(alloc: Global, transcript: &Transcript) -> Vec<u8> {
    let mut writer = Watched::new(Vec::new(alloc));
    if fits_places(transcript) {
        let showing = Showing {
            tested: Role::Server,
            style: DataStyle::Hex,
            sent_fault: None,
            got_fault: None,
        };
        let _written = show_transcript(alloc, showing, transcript, &mut writer);
    }
    writer.into_inner()
}

/// The lines that begin with a mark, without it.
fn lines_with(alloc: Global, mark: &[u8], lines: &[u8]) -> Result<Vec<u8>, RowFault> {
    let mut found = Vec::new(alloc);
    for line in lines.split(|byte| *byte == b'\n') {
        if line.starts_with(mark) {
            found.extend_from_slice(&line[mark.len()..])?;
            found.push(b'\n')?;
        }
    }
    Ok(found)
}

/// Whether the lines with a mark are what `show` writes of the bytes of an end.
fn is_shown(
    alloc: Global,
    from: Role,
    bytes: &[u8],
    mark: &[u8],
    lines: &[u8],
) -> Result<bool, RowFault> {
    let mut reader = Watched::new(bytes);
    let mut writer = Watched::new(Vec::new(alloc));
    let _end: ShowEnd = show(&mut reader, &mut writer, from, 100_000);
    let found = lines_with(alloc, mark, lines)?;
    Ok(writer.into_inner().as_slice() == found.as_slice())
}

/// Whether the lines of each direction, without their turns, are those of `show` on its bytes.
fn is_alike(alloc: Global, seed: u64) -> Result<bool, RowFault> {
    let transcript = some_transcript(alloc, seed)?;
    let (mut sent, mut got) = (Vec::new(alloc), Vec::new(alloc));
    for turn in transcript.turns.as_slice() {
        sent.extend_from_slice(turn.sent.as_slice())?;
        got.extend_from_slice(turn.got.as_slice())?;
    }
    let lines = lines_of(alloc, &transcript);
    let is_sent = is_shown(
        alloc,
        Role::Client,
        sent.as_slice(),
        b"> ",
        lines.as_slice(),
    )?;
    let is_got = is_shown(alloc, Role::Server, got.as_slice(), b"< ", lines.as_slice())?;
    Ok(is_sent && is_got)
}
