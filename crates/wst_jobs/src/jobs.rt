//! The jobs, each at its full size for the part 1.

ghost use Rattle.std.specs.Prelude.{◌<◌, ◌≤◌};

use crate::captures::{Echo, Format, capture, late_pongs};
use crate::chance::Chance;
use crate::endpoint::{Pieces, serve};
use crate::frames::{Frames, Mix};
use crate::input::{Text, run_wst};
use crate::mixed::mixed;
use crate::pool::Fill;
use crate::scripts::{Cut, calls, moves, steps};
use crate::showing::show;
use anyhow::Result;
use std::alloc::Global;
use wst_sockets::Network;

/// A job that a user waits for.
#[derive(Clone, Copy)]
pub enum Job {
    /// Captures of traffic: `convert`, `judge` and `show --capture`.
    Captures,
    /// Scripts: `session`, `session --echo`, `pair` and `send --capture`.
    Scripts,
    /// `show` over a chat's stream.
    Show,
    /// The library's session, as a server.
    Endpoint,
    /// Short scripts against our echo, as a server and as a client.
    Sweep,
    /// Late pongs, single bytes, tiny frames and texts that are cut inside a character.
    Awkward,
    /// New masking keys, accents, large messages, pongs in any order, tested clients, and both echoes.
    Mixed,
}

/// How much of a job the part 1 has, so that it takes about half a second: a smaller part has it once.
fn times(full: u32, part: u32) -> u32
    requires { full ≤ 4 }
    ensures { result ≤ 4 }
{
    if part == 1 { full } else { 1 }
}

/// The bytes of a part of so many megabytes.
pub fn megabytes(count: u32, part: u32) -> usize
    requires { 0 < part }
{
    count as usize * 1_000_000 / part as usize
}

impl Job {
    /// All jobs.
    pub const ALL: [Job; 7] = [
        Job::Captures,
        Job::Scripts,
        Job::Show,
        Job::Endpoint,
        Job::Sweep,
        Job::Awkward,
        Job::Mixed,
    ];

    /// The word that names it.
    pub fn name(self) -> &'static str {
        match self {
            Job::Captures => "captures",
            Job::Scripts => "scripts",
            Job::Show => "show",
            Job::Endpoint => "endpoint",
            Job::Sweep => "sweep",
            Job::Awkward => "awkward",
            Job::Mixed => "mixed",
        }
    }

    /// Whether a word asks for it: its name does, and `all`.
    pub fn is_asked(self, word: &str) -> bool {
        word == "all" || word == self.name()
    }

    /// Does a part of it over the input of a seed.
    pub fn run<N: Network>(self, alloc: Global, net: &N, part: u32, seed: u32) -> Result<String>
        requires { 0 < part }
    {
        let mut chance = Chance::new(seed);
        let mut results = String::new(alloc);
        match self {
            Job::Captures => {
                for _ in 0..times(2, part) {
                    captures(alloc, net, part, &mut chance, &mut results)?;
                }
            }
            Job::Scripts => {
                for _ in 0..times(4, part) {
                    scripts(alloc, net, part, &mut chance, &mut results)?;
                }
            }
            Job::Show => {
                let frames = Frames::new(alloc, Fill::Ascii, &mut chance)?;
                show(
                    alloc,
                    net,
                    frames,
                    Mix::Chat,
                    megabytes(350 * times(2, part), part),
                    chance,
                    &mut results,
                )?;
            }
            Job::Endpoint => endpoint(alloc, part, &mut chance, &mut results)?,
            Job::Sweep => sweep(alloc, net, part, &mut chance, &mut results)?,
            Job::Awkward => awkward(alloc, net, part, chance, &mut results)?,
            Job::Mixed => mixed(alloc, net, part, &mut chance, &mut results)?,
        }
        Ok(results)
    }
}

/// Captures of traffic, in both formats.
fn captures<N: Network>(
    alloc: Global,
    net: &N,
    part: u32,
    chance: &mut Chance,
    results: &mut String,
) -> Result<()>
    requires { 0 < part }
{
    let frames = Frames::new(alloc, Fill::Ascii, chance)?;
    let runs = [
        ("wst convert", Format::One, Echo::Right, 16),
        ("wst convert", Format::Two, Echo::Right, 16),
        ("wst judge", Format::Two, Echo::Right, 24),
        ("wst judge --explain", Format::One, Echo::Faulty, 12),
        ("wst show --capture", Format::Two, Echo::Right, 24),
    ];
    for (words, format, echo, size) in runs {
        let text = capture(
            alloc,
            &frames,
            Mix::Traffic,
            (format, echo),
            megabytes(size, part),
            chance,
        )?;
        run_wst(alloc, net, words, Text::of(text.as_slice()), results)?;
    }
    Ok(())
}

/// Scripts of calls, of moves and of steps.
fn scripts<N: Network>(
    alloc: Global,
    net: &N,
    part: u32,
    chance: &mut Chance,
    results: &mut String,
) -> Result<()>
    requires { 0 < part }
{
    let frames = Frames::new(alloc, Fill::Ascii, chance)?;
    let size = megabytes(3, part);
    let script = calls(
        alloc,
        &frames,
        Mix::Traffic,
        (size, Cut::Anywhere, true),
        chance,
    )?;
    run_wst(
        alloc,
        net,
        "wst session",
        Text::of(script.as_slice()),
        results,
    )?;
    let script = calls(
        alloc,
        &frames,
        Mix::Traffic,
        (size, Cut::Anywhere, false),
        chance,
    )?;
    run_wst(
        alloc,
        net,
        "wst session --echo",
        Text::of(script.as_slice()),
        results,
    )?;
    let script = moves(alloc, &frames, Mix::Chat, megabytes(6, part), chance)?;
    run_wst(alloc, net, "wst pair", Text::of(script.as_slice()), results)?;
    let script = steps(alloc, &frames, Mix::Traffic, size, chance)?;
    run_wst(
        alloc,
        net,
        "wst send --capture own",
        Text::of(script.as_slice()),
        results,
    )
}

/// A server's session over a chat in segments, in small pieces and byte by byte.
fn endpoint(alloc: Global, part: u32, chance: &mut Chance, results: &mut String) -> Result<()>
    requires { 0 < part }
{
    let frames = Frames::new(alloc, Fill::Ascii, chance)?;
    let times = times(2, part);
    let sizes = [
        (megabytes(100 * times, part), Pieces::Segments),
        (megabytes(20 * times, part), Pieces::Small),
        (megabytes(2 * times, part), Pieces::Bytes),
    ];
    for pieces in sizes {
        serve(alloc, &frames, Mix::Chat, pieces, chance, results)?;
    }
    Ok(())
}

/// Short scripts of up to four steps against our echo as a server, and of up to three as a client, under two keys.
fn sweep<N: Network>(
    alloc: Global,
    net: &N,
    part: u32,
    chance: &mut Chance,
    results: &mut String,
) -> Result<()>
    requires { 0 < part }
{
    let (server, client) = if part == 1 { (4, 3) } else { (1, 1) };
    let runs = [("server", server), ("client", client)];
    for (role, most) in runs {
        let [a, b, c, d] = chance.key();
        let words = format!(in alloc;
            "wst sweep --steps {most} --role {role} --key {a:02x}{b:02x}{c:02x}{d:02x} own"
        )?;
        run_wst(alloc, net, words.as_str(), Text::of(&[]), results)?;
    }
    Ok(())
}

/// What is awkward: pongs that come late, frames of a few bytes, and wide letters byte by byte.
fn awkward<N: Network>(
    alloc: Global,
    net: &N,
    part: u32,
    chance: Chance,
    results: &mut String,
) -> Result<()>
    requires { 0 < part }
{
    let mut chance = chance;
    let frames = Frames::new(alloc, Fill::Wide, &mut chance)?;
    let text = late_pongs(alloc, &frames, megabytes(1, part) / 5, &mut chance)?;
    run_wst(alloc, net, "wst judge", Text::of(text.as_slice()), results)?;
    let text = capture(
        alloc,
        &frames,
        Mix::Tiny,
        (Format::Two, Echo::Right),
        megabytes(6, part),
        &mut chance,
    )?;
    run_wst(alloc, net, "wst judge", Text::of(text.as_slice()), results)?;
    let script = calls(
        alloc,
        &frames,
        Mix::Chat,
        (megabytes(1, part) / 2, Cut::Bytes, false),
        &mut chance,
    )?;
    run_wst(
        alloc,
        net,
        "wst session --echo",
        Text::of(script.as_slice()),
        results,
    )?;
    let size = (megabytes(1, part), Pieces::Bytes);
    serve(alloc, &frames, Mix::Chat, size, &mut chance, results)?;
    show(
        alloc,
        net,
        frames,
        Mix::Tiny,
        megabytes(16, part),
        chance,
        results,
    )
}
