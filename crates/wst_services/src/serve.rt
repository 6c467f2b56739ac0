//! The command `serve`: what is asked for, and its run.

ghost use Rattle.std.specs.Prelude.{◌≡◌, MatchResult, false};
ghost use Rattle.ws_frame.specs.Devices.{watched};
ghost use Rattle.ws_frame.specs.Watching.{has_failed};
ghost use Rattle.wst_services.specs.Serve.{CanNotServe, IsServePlan, RunsServer, ServesAt};

use crate::serving_clients::{serve_over, tell_listening};
use std::alloc::Global;
use std::io::Write;
use ws_connection::{Protocols, protocols_of};
use ws_frame::Watched;
use ws_session::Limits;
use wst_commands::{
    Exit, Fault, TimeLimit, count_given, deadline_given, end_run, has_unit, limits_given,
    timeout_given,
};
use wst_network::Connector;
use wst_sockets::{Heard, listen_over};
use wst_words::ServeOptions;

/// At most so many connections go on at a time.
const MAX_AT_ONCE: u32 = 1000;

/// Connections that are to be served over a network.
#[derive(Drop)]
pub struct ServePlan<'a> {
    /// The address at which to listen, as it was given.
    pub address: &'a str,
    /// So many connections. `None` stands for no end.
    pub count: Option<u32>,
    /// The limits of each connection's session.
    pub limits: Limits,
    /// At most so many bytes are read of each connection behind the head of its request.
    pub budget: u64,
    /// How long a client is waited for from which no byte comes.
    pub timeout: TimeLimit,
    /// How long a connection lasts, whatever comes.
    pub deadline: TimeLimit,
    /// So many connections go on at a time.
    pub at_once: u32,
    /// The subprotocols that are known.
    pub protocols: Protocols<'a>,
}

/// What is to be served, or the first reason against it: the names that are given can't be offered, the seconds are no
/// limit of time, of a wait or of a connection, not so many can go on at a time, or no endpoint can have the limits.
pub fn plan_serve<'a>(alloc: Global, options: &ServeOptions<'a>) -> Result<ServePlan<'a>, Fault>
    ensures { MatchResult result (IsServePlan options.now) (CanNotServe options.now) }
{
    let Some(protocols) = protocols_of(alloc, options.protocols)? else {
        return Err(Fault::BadProtocols);
    };
    let Some(timeout) = timeout_given(options.timeout) else {
        if has_unit(options.timeout) {
            return Err(Fault::TimeoutWithUnit);
        }
        return Err(Fault::BadTimeout);
    };
    let Some(deadline) = deadline_given(options.deadline, TimeLimit::Unlimited) else {
        if has_unit(options.deadline) {
            return Err(Fault::DeadlineWithUnit);
        }
        return Err(Fault::BadDeadline);
    };
    let Some(at_once) = count_given(options.at_once, MAX_AT_ONCE) else {
        return Err(Fault::BadAtOnce);
    };
    let Some(limits) = limits_given(options.limit, options.frame) else {
        return Err(Fault::BadLimits);
    };
    Ok(ServePlan {
        address: options.address,
        count: options.count,
        limits,
        budget: options.budget,
        timeout,
        deadline,
        at_once,
        protocols,
    })
}

/// Listens at the address, which is told in a line, with the port that the system chose in the place of a port 0, and
/// serves so many connections, each of which is told in a line when it has ended. The exit is that of a failure where
/// the address can't be listened at, no connection can be taken any more, or a line could not be written or flushed.
/// Why nothing can be listened at is told to `faults`, and so is want of memory for a line.
pub fn run_serve<C: Connector, W: Write, F: Write>(
    alloc: Global,
    plan: &ServePlan<'_>,
    connector: &C,
    writer: &mut Watched<W>,
    faults: &mut Watched<F>,
) -> Exit
    requires writer_works { has_failed writer.old ≡ false }
    ensures serves { RunsServer plan.now result (watched W.contents writer.old writer.new)
        (watched F.contents faults.old faults.new) }
{
    let ended = serve_at(alloc, plan, connector, writer, faults);
    end_run(alloc, ended, faults)
}

/// Listens at the address, and serves so many connections.
fn serve_at<C: Connector, W: Write, F: Write>(
    alloc: Global,
    plan: &ServePlan<'_>,
    connector: &C,
    writer: &mut Watched<W>,
    faults: &mut Watched<F>,
) -> Result<Exit, Fault>
    requires { has_failed writer.old ≡ false }
    ensures { ServesAt plan.now result (watched W.contents writer.old writer.new)
        (watched F.contents faults.old faults.new) }
{
    let Heard {
        listener,
        poller,
        told: address,
        ..
    } = listen_over(alloc, connector, plan.address)?;
    let told = tell_listening(alloc, address.as_slice(), writer)?;
    if writer.failed() {
        return Ok(told);
    }
    serve_over(alloc, plan, listener, poller, writer, faults)
}
