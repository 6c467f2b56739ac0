//! The calls that users wait for, each over one small input, so that `bench/costs` can count their instructions: those
//! of `run_wst`, `take_pieces` and `drive_client` alone. So a cost calls one of these, once.

ghost use Rattle.std.specs.Prelude.{◌<◌};

use crate::captures::{Echo, Format, capture};
use crate::chance::Chance;
use crate::digest::Digest;
use crate::endpoint::STREAM;
use crate::frames::{Frames, Mix};
use crate::input::{Text, run_wst};
use crate::jobs::megabytes;
use crate::pool::Fill;
use crate::scripts::{Cut, calls, moves, steps};
use anyhow::{Context, Result, bail};
use std::alloc::{AllocError, Global};
use std::fmt::Write;
use ws_frame::Watched;
use ws_peer::{DriveEnd, drive};
use ws_session::{Limits, Session};
use ws_wire::{NO_KEY, Role};
use wst_sockets::Network;

/// The largest message that is taken.
const LIMIT: u32 = 1_048_576;

/// The most bytes that are read of a client.
const BUDGET: u64 = 1_073_741_824;

/// The bytes of a piece, as a TCP segment brings them.
const SEGMENT: usize = 1448;

/// A call whose instructions are counted.
#[derive(Clone, Copy)]
pub enum Cost {
    /// The start of the program: words, devices, and nothing to read.
    Start,
    Convert,
    Judge,
    /// The same capture, by the protocol alone.
    JudgeProtocol,
    Show,
    ShowCapture,
    Session,
    SessionEcho,
    Pair,
    SendCapture,
    SweepOwn,
    SweepTung,
    /// A session's `take`, in segments.
    TakeSegments,
    /// The same, byte by byte.
    TakeBytes,
    /// One client of an echo in memory.
    Drive,
}

impl Cost {
    /// All of them.
    pub const ALL: [Cost; 15] = [
        Cost::Start,
        Cost::Convert,
        Cost::Judge,
        Cost::JudgeProtocol,
        Cost::Show,
        Cost::ShowCapture,
        Cost::Session,
        Cost::SessionEcho,
        Cost::Pair,
        Cost::SendCapture,
        Cost::SweepOwn,
        Cost::SweepTung,
        Cost::TakeSegments,
        Cost::TakeBytes,
        Cost::Drive,
    ];

    /// The word that names it.
    pub fn name(self) -> &'static str {
        match self {
            Cost::Start => "start",
            Cost::Convert => "convert",
            Cost::Judge => "judge",
            Cost::JudgeProtocol => "judge_protocol",
            Cost::Show => "show_stream",
            Cost::ShowCapture => "show_capture",
            Cost::Session => "session",
            Cost::SessionEcho => "session_echo",
            Cost::Pair => "pair",
            Cost::SendCapture => "send_capture",
            Cost::SweepOwn => "sweep_own",
            Cost::SweepTung => "sweep_tung",
            Cost::TakeSegments => "take_segments",
            Cost::TakeBytes => "take_bytes",
            Cost::Drive => "drive",
        }
    }

    /// Whether a word asks for it.
    pub fn is_asked(self, word: &str) -> bool {
        word == self.name()
    }

    /// Makes the call once, over a part of a megabyte that is made from the seed.
    pub fn run<N: Network>(self, alloc: Global, net: &N, part: u32, seed: u32) -> Result<String>
        requires { 0 < part }
    {
        let mut chance = Chance::new(seed);
        let mut results = String::new(alloc);
        let frames = Frames::new(alloc, Fill::Ascii, &mut chance)?;
        let size = megabytes(1, part);
        let made = self.input(alloc, &frames, size, &mut chance)?;
        let input = made.as_slice();
        match self {
            Cost::TakeSegments => take(alloc, input, SEGMENT, &mut results)?,
            Cost::TakeBytes => take(alloc, input, 1, &mut results)?,
            Cost::Drive => drive_client(alloc, input, &mut results)?,
            _ => run_wst(alloc, net, self.words(), Text::of(input), &mut results)?,
        }
        Ok(results)
    }

    /// The words of a run of `wst`.
    fn words(self) -> &'static str {
        match self {
            Cost::Convert => "wst convert",
            Cost::Judge => "wst judge",
            Cost::JudgeProtocol => "wst judge --expect protocol",
            Cost::ShowCapture => "wst show --capture",
            Cost::Session => "wst session",
            Cost::SessionEcho => "wst session --echo",
            Cost::Pair => "wst pair",
            Cost::SendCapture => "wst send --capture own",
            Cost::SweepOwn => "wst sweep --steps 2 own",
            Cost::SweepTung => "wst sweep --steps 2 tung",
            Cost::Start | Cost::Show | Cost::TakeSegments | Cost::TakeBytes | Cost::Drive => {
                "wst show --from client"
            }
        }
    }

    /// What the call is given, of about so many bytes.
    fn input(
        self,
        alloc: Global,
        frames: &Frames,
        size: usize,
        chance: &mut Chance,
    ) -> Result<Vec<u8>, AllocError> {
        let whole = (Format::Two, Echo::Right);
        match self {
            Cost::Start | Cost::SweepOwn | Cost::SweepTung => Ok(Vec::new(alloc)),
            Cost::Convert | Cost::Judge | Cost::JudgeProtocol | Cost::ShowCapture => {
                capture(alloc, frames, Mix::Traffic, whole, size, chance)
            }
            Cost::Session => {
                let cut = (size / 2, Cut::Anywhere, true);
                calls(alloc, frames, Mix::Traffic, cut, chance)
            }
            Cost::SessionEcho => {
                let cut = (size / 2, Cut::Anywhere, false);
                calls(alloc, frames, Mix::Traffic, cut, chance)
            }
            Cost::Pair => moves(alloc, frames, Mix::Chat, size, chance),
            Cost::SendCapture => steps(alloc, frames, Mix::Traffic, size, chance),
            Cost::TakeBytes => chat(alloc, frames, size / 10, chance),
            Cost::Show | Cost::TakeSegments | Cost::Drive => chat(alloc, frames, size, chance),
        }
    }
}

/// A client's chat of at least so many bytes, with a close frame at its end.
fn chat(
    alloc: Global,
    frames: &Frames,
    size: usize,
    chance: &mut Chance,
) -> Result<Vec<u8>, AllocError> {
    let mut stream = Vec::new(alloc);
    for _ in 0..size {
        if stream.len() >= size {
            break;
        }
        let part = frames.part(Mix::Chat, chance);
        frames.put_cut(&part, STREAM, chance, &mut stream)?;
    }
    frames.put_close(STREAM, &mut stream)?;
    Ok(stream)
}

/// A server's session takes a stream in pieces of so many bytes. Puts how many events came, and how it stands.
fn take(alloc: Global, stream: &[u8], len: usize, results: &mut String) -> Result<()> {
    let limits = Limits::new(LIMIT).context("bad limits")?;
    let mut session = Session::new(alloc, Role::Server, limits);
    let mut replies = Vec::new(alloc);
    let events = take_pieces(&mut session, stream, len, &mut replies).context("no memory")?;
    write!(results, " {events} {}", session.status())?;
    Ok(())
}

/// Takes a stream in pieces of so many bytes, and counts its events. Nothing where memory ran out.
#[inline(never)]
fn take_pieces(
    session: &mut Session,
    stream: &[u8],
    len: usize,
    replies: &mut Vec<u8>,
) -> Option<u64> {
    let mut events: u64 = 0;
    let mut rest = stream;
    let mut left = len;
    for _ in 0..stream.len() {
        if rest.is_empty() {
            break;
        }
        let (piece, _) = rest.split_at(left.min(rest.len()));
        let taken = session.take(piece, NO_KEY, replies).ok()?;
        rest = &rest[taken.used..];
        left = left.saturating_sub(taken.used);
        if left == 0 {
            left = len;
            replies.clear();
        }
        if taken.event.is_some() {
            events = events.wrapping_add(1);
        }
    }
    Some(events)
}

/// An echo over a client's stream in memory. Puts how it stands, and the digest of what it wrote.
#[inline(never)]
fn drive_client(alloc: Global, stream: &[u8], results: &mut String) -> Result<()> {
    let limits = Limits::new(LIMIT).context("bad limits")?;
    let mut echo = ws_session::Echo::new(alloc, limits, Role::Server);
    let mut reader = Watched::new(Text::of(stream));
    let mut writer = Watched::new(Digest::new());
    let end = drive(
        alloc,
        &[],
        &mut reader,
        &mut writer,
        &mut echo,
        NO_KEY,
        BUDGET,
    );
    let DriveEnd::Done(status) = end else {
        bail!("the echo stopped");
    };
    let written = writer.into_inner();
    write!(results, " {status} {written}")?;
    Ok(())
}
