//! The job `mixed`: what the other jobs don't reach.

ghost use Rattle.std.specs.Prelude.{◌<◌};

use crate::chance::Chance;
use crate::digest::Digest;
use crate::input::{Text, run_wst};
use crate::jobs::megabytes;
use crate::keyed::Pools;
use crate::pongs::{Pongs, messages, pings};
use crate::streams::{long_stream, short_stream};
use crate::telling::tell_stream;
use anyhow::{Context, Result};
use std::alloc::Global;
use std::fmt::Write;
use ws_session::Limits;
use ws_wire::Role;
use wst_sockets::Network;

/// The largest message that is taken.
const LIMIT: u32 = 1_048_576;

/// What is told where memory ran out.
const STOPPED: &str = "a session has no memory";

/// Sessions of both ends, captures of both, and sweeps at both peers. Each frame of a client has a masking key of its
/// own.
pub fn mixed<N: Network>(
    alloc: Global,
    net: &N,
    part: u32,
    chance: &mut Chance,
    results: &mut String,
) -> Result<()>
    requires { 0 < part }
{
    let pools = Pools::new(alloc, chance)?;
    let ends = [
        (Role::Server, Role::Client, "wst show --from client"),
        (Role::Client, Role::Server, "wst show --from server"),
    ];
    for (role, sender, show) in ends {
        let stream = long_stream(alloc, &pools, sender, megabytes(60, part), chance)?;
        tell(alloc, role, stream.as_slice(), chance, results)?;
        run_wst(alloc, net, show, Text::of(stream.as_slice()), results)?;
        let count = megabytes(1, part) / 80;
        tell_short(alloc, &pools, (role, sender), count, chance, results)?;
    }
    for tested in [Role::Server, Role::Client] {
        judge(alloc, net, &pools, tested, part, chance, results)?;
    }
    sweeps(alloc, net, part, chance, results)
}

/// A session over one stream.
fn tell(
    alloc: Global,
    role: Role,
    stream: &[u8],
    chance: &mut Chance,
    results: &mut String,
) -> Result<()> {
    let limits = Limits::new(LIMIT).context("bad limits")?;
    let mut digest = Digest::new();
    tell_stream(alloc, role, limits, stream, chance, &mut digest).context(STOPPED)?;
    write!(results, " {digest}")?;
    Ok(())
}

/// So many short connections, each at a session of its own.
fn tell_short(
    alloc: Global,
    pools: &Pools,
    (role, sender): (Role, Role),
    count: usize,
    chance: &mut Chance,
    results: &mut String,
) -> Result<()> {
    let limits = Limits::new(LIMIT).context("bad limits")?;
    let mut digest = Digest::new();
    let mut stream = Vec::new(alloc);
    for _ in 0..count {
        stream.clear();
        short_stream(pools, sender, chance, &mut stream)?;
        tell_stream(alloc, role, limits, stream.as_slice(), chance, &mut digest).context(STOPPED)?;
    }
    write!(results, " {digest}")?;
    Ok(())
}

/// Captures of connections to a tested end: of pings that it doesn't all answer in order, and of messages.
fn judge<N: Network>(
    alloc: Global,
    net: &N,
    pools: &Pools,
    tested: Role,
    part: u32,
    chance: &mut Chance,
    results: &mut String,
) -> Result<()>
    requires { 0 < part }
{
    let words = match tested {
        Role::Server => "wst judge",
        Role::Client => "wst judge --role client",
    };
    for pongs in [Pongs::LeftOut, Pongs::Reversed, Pongs::Newest] {
        let count = megabytes(1, part) / 25;
        let text = pings(alloc, pools, (tested, pongs), count, chance)?;
        run_wst(alloc, net, words, Text::of(text.as_slice()), results)?;
    }
    let text = messages(alloc, pools, tested, megabytes(8, part), chance)?;
    run_wst(alloc, net, words, Text::of(text.as_slice()), results)
}

/// Scripts of up to three steps against both echoes, each as a server and as a client, each script with its line.
fn sweeps<N: Network>(
    alloc: Global,
    net: &N,
    part: u32,
    chance: &mut Chance,
    results: &mut String,
) -> Result<()> {
    let steps = if part == 1 { 3 } else { 1 };
    let runs = [
        ("server", "own"),
        ("server", "tung"),
        ("client", "own"),
        ("client", "tung"),
    ];
    for (role, target) in runs {
        let [a, b, c, d] = chance.key();
        let words = format!(in alloc;
            "wst sweep --steps {steps} --all --progress --role {role} --key {a:02x}{b:02x}{c:02x}{d:02x} {target}"
        )?;
        run_wst(alloc, net, words.as_str(), Text::of(&[]), results)?;
    }
    Ok(())
}
