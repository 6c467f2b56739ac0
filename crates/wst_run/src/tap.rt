//! The command `tap`: its run (docs/FORMATS.md).

ghost use Rattle.std.specs.Prelude.{◌≡◌, ◌↔◌, ◌⊎◌, IsTrue, MatchResult, false};
ghost use Rattle.ws_frame.specs.Devices.{watched};
ghost use Rattle.ws_frame.specs.Watching.{has_failed};
ghost use Rattle.ws_targets.specs.Places.{IsAddress};
ghost use Rattle.wst_testing.specs.RunPlans.{IsUrl};
ghost use Rattle.wst_commands.specs.Devices.{Tells};
ghost use Rattle.wst_commands.specs.declared.exit.Exit.TheVariants.{WrongWords};
ghost use Rattle.wst_run.specs.Tap.{IsServer, IsServerOf, RefusesEnds, RefusesServer, RunsTap, TapsServer};
ghost use Rattle.wst_run.specs.Tap.{TellsTapRefusal, tap_target_text};

use std::alloc::Global;
use std::io::Write;
use ws_frame::Watched;
use ws_targets::{Advice, Target, TargetFault, is_address, read_target, target_advice};
use wst_commands::{Exit, Fault, count_given, end_run, tell, tell_fault};
use wst_network::Connector;
use wst_services::{TapPlan, tap_over};
use wst_testing::is_url;
use wst_words::TapOptions;

/// At most so many connections go on at a time.
const MAX_AT_ONCE: u32 = 1000;

/// Why nothing is tapped.
#[derive(Clone, Copy)]
enum TapRefusal {
    /// Nothing can be listened at the first address.
    BadListen,
    /// The target names no server, with what is wrong with it.
    BadTarget(Advice),
    /// Memory ran out.
    NoMemory,
}

/// Taps what the words ask for, or tells why not.
#[inline(never)]
pub(crate) fn run_tap<C: Connector, W: Write, F: Write>(
    alloc: Global,
    options: &TapOptions<'_>,
    connector: &C,
    writer: &mut Watched<W>,
    faults: &mut Watched<F>,
) -> Exit
    requires { has_failed writer.old ≡ false }
    ensures { RunsTap options.now result (watched W.contents writer.old writer.new)
        (watched F.contents faults.old faults.new) }
{
    match server_of(alloc, options) {
        Ok(server) => {
            let address = server.address();
            tap_server(alloc, options, address, connector, writer, faults)
        }
        Err(refusal) => tell_tap_refusal(alloc, refusal, faults),
    }
}

/// The server that the words name, where they say where to listen.
fn server_of(alloc: Global, options: &TapOptions<'_>) -> Result<Target, TapRefusal>
    ensures { MatchResult result (IsServerOf options.now) (RefusesEnds options.now) }
{
    if !is_address(options.listen.as_bytes()) {
        return Err(TapRefusal::BadListen);
    }
    server_named(alloc, options.target)
}

/// The server that a word names.
fn server_named(alloc: Global, word: &str) -> Result<Target, TapRefusal>
    ensures { MatchResult result (IsServer word.now) (RefusesServer word.now) }
{
    if !can_name_server(word) {
        return Err(TapRefusal::BadTarget(target_advice(word)));
    }
    match read_target(alloc, word) {
        Ok(server) => Ok(server),
        Err(TargetFault::Bad) => Err(TapRefusal::BadTarget(target_advice(word))),
        Err(TargetFault::NoMemory) => Err(TapRefusal::NoMemory),
    }
}

/// Whether a word is a URL, or a host and a port.
fn can_name_server(word: &str) -> bool
    ensures { IsTrue result ↔ (IsUrl word.now ⊎ IsAddress word.now) }
{
    is_url(word) || is_address(word.as_bytes())
}

/// Tells why nothing is tapped, and what to type, and answers the exit that it stands for.
fn tell_tap_refusal<F: Write>(alloc: Global, refusal: TapRefusal, faults: &mut Watched<F>) -> Exit
    ensures { TellsTapRefusal refusal result (watched F.contents faults.old faults.new) }
{
    match refusal {
        TapRefusal::BadListen => tell_bad_address(
            b"bad address\n  LISTEN is an address to listen at: HOST:PORT\n",
            faults,
        ),
        TapRefusal::BadTarget(advice) => tell_bad_address(tap_target_text(advice), faults),
        TapRefusal::NoMemory => tell_fault(alloc, Fault::NoMemory, faults),
    }
}

/// Tells what is wrong with an address.
fn tell_bad_address<F: Write>(text: &[u8], faults: &mut Watched<F>) -> Exit
    ensures exit { result ≡ WrongWords }
    ensures told { Tells text.now (watched F.contents faults.old faults.new) }
{
    tell(text, faults);
    Exit::WrongWords
}

/// The lines that tell of a target that names no server.
fn tap_target_text(advice: Advice) -> &'static [u8]
    ensures { result.now ≡ tap_target_text advice }
{
    match advice {
        Advice::Encrypted => {
            b"bad address\n  wss:// is not supported; run socat or stunnel and give its address as TARGET\n"
        }
        Advice::User => b"bad address\n  no user before the host: ws://HOST:PORT/PATH\n",
        Advice::Port =>
            b"bad address\n  a port is at most 65535, and 80 without one: ws://HOST:PORT/PATH\n",
        Advice::Web | Advice::Unencoded | Advice::Fragment | Advice::Url | Advice::Nothing =>
            b"bad address\n  TARGET is HOST:PORT or ws://HOST:PORT/PATH\n",
    }
}

/// Taps the connections of those who come to the server at this address, so many at a time, or tells that it can't be
/// so many.
fn tap_server<C: Connector, W: Write, F: Write>(
    alloc: Global,
    options: &TapOptions<'_>,
    server: &str,
    connector: &C,
    writer: &mut Watched<W>,
    faults: &mut Watched<F>,
) -> Exit
    requires { has_failed writer.old ≡ false }
    ensures { TapsServer options.now server.now result (watched W.contents writer.old writer.new)
        (watched F.contents faults.old faults.new) }
{
    let Some(at_once) = count_given(options.at_once, MAX_AT_ONCE) else {
        return tell_fault(alloc, Fault::BadAtOnce, faults);
    };
    let plan = TapPlan {
        listen: options.listen,
        server,
        at_once,
        count: options.count,
        style: options.style,
        time: options.time,
    };
    let ended = tap_over(alloc, &plan, connector, writer, faults);
    end_run(alloc, ended, faults)
}
