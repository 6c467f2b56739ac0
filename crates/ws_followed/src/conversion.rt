//! A followed connection as a capture.

ghost use Rattle.std.specs.Prelude.{◌≡◌, ◌≤◌, ◌<◌, ◌+◌, ◌^◌, List, IfOk, MatchResult, length};
ghost use Rattle.ws_followed.specs.Conversion.{EndsFollowed, HasFollowedFault, IsFollowedCapture, IsWholeText};
ghost use Rattle.ws_followed.specs.Conversion.{LacksHeads, judged_turns, other_node};
ghost use Rattle.ws_followed.specs.InnerConversion.{AreHeads, AreWithin, HoldCloses, AcceptsOpening, IsOpening};
ghost use Rattle.ws_followed.specs.InnerConversion.{IsUnanswered, LackHeads, front_lines};
ghost use Rattle.ws_followed.specs.declared.segment.Segment.{Segment as SegmentValue};

use crate::closes::holds_close;
use crate::gaps::first_gap;
use crate::reading::read_segments;
use crate::segment::{Node, Segment};
use crate::turns::{bytes_from, turns_behind};
use std::alloc::Global;
use ws_base::{NoMemory, Sequence, TextFault};
use ws_scripts::{Capture, Ended, Transcript, Turn};
use ws_upgrade::{HeadFault, RequestRead, ResponseRead, read_request, read_response_to};
use ws_wire::Role;

/// Why a text gives no capture.
#[derive(Clone, Copy)]
pub enum FollowedFault {
    /// The first line, counted from 1, that is none of a followed stream.
    Damaged(u64),
    /// The first line, counted from 1, in whose place bytes are missing.
    Missing(u64),
    /// What neither end sent begins with a request of an opening handshake that is accepted.
    NoRequest,
    /// The response to it is cut.
    CutResponse,
    /// The response is refused.
    Response(HeadFault),
    /// Memory ran out.
    NoMemory,
}

impl From<NoMemory> for FollowedFault {
    ghost use Rattle.std.specs.Prelude.{◌≡◌};
    ghost use Rattle.ws_followed.specs.declared.conversion.FollowedFault.TheVariants.{NoMemory};

    ghost from_gives = { λ _ fault. fault ≡ NoMemory };

    fn from(_refused: NoMemory) -> FollowedFault {
        FollowedFault::NoMemory
    }
}

/// The capture of a followed connection, in which the end with this role is judged.
pub fn read_followed(alloc: Global, text: &[u8], judged: Role) -> Result<Capture, FollowedFault>
    ensures { MatchResult result (λ capture. (segments : List SegmentValue) × IsWholeText segments text.now
        × IsFollowedCapture judged segments capture) (HasFollowedFault text.now) }
{
    let segments = whole_segments(alloc, text)?;
    capture_of(alloc, segments.as_slice(), judged)
}

/// The segments of a text in which no bytes are missing.
fn whole_segments(alloc: Global, text: &[u8]) -> Result<Sequence<Segment>, FollowedFault>
    ensures { MatchResult result (λ segments. IsWholeText segments text.now) (HasFollowedFault text.now) }
{
    match read_segments(alloc, text) {
        Ok(segments) => match first_gap(segments.as_slice()) {
            Some(at) => Err(FollowedFault::Missing(line_of(text, at))),
            None => Ok(segments),
        },
        Err(TextFault::Damaged(line)) => Err(FollowedFault::Damaged(line)),
        Err(TextFault::NoMemory) => Err(FollowedFault::NoMemory),
    }
}

/// The number of the line of a segment, counted from 1, whose place among the segments is counted from 0.
fn line_of(text: &[u8], at: usize) -> u64
    requires { at + 7 < 2 ^ 64 }
    ensures { result ≡ front_lines text.now + at + 1 }
{
    let before: u64 = match text {
        [b'\n', ..] => 6,
        _ => 5,
    };
    before + at as u64 + 1
}

/// The capture of a connection with these segments.
fn capture_of(alloc: Global, segments: &[Segment], judged: Role) -> Result<Capture, FollowedFault>
    ensures { MatchResult result (IsFollowedCapture judged segments.now) (LacksHeads segments.now) }
{
    let zero = bytes_from(alloc, Node::Zero, segments)?;
    let one = bytes_from(alloc, Node::One, segments)?;
    let heads = heads_of(alloc, zero.as_slice(), one.as_slice())?;
    let ended = ended_by(zero.as_slice(), one.as_slice(), heads);
    let turns = judged_turns(alloc, segments, judged, heads)?;
    Ok(Capture {
        key: None,
        transcript: Transcript { turns, ended },
    })
}

/// Which end is the client, and how long the heads are.
#[derive(Clone, Copy)]
pub(crate) struct Heads {
    pub client: Node,
    /// The length of the request.
    pub to_server: usize,
    /// That of the response.
    pub from_server: usize,
}

/// The heads of what both ends sent: the client is the one that begins with a request.
fn heads_of(alloc: Global, zero: &[u8], one: &[u8]) -> Result<Heads, FollowedFault>
    ensures { MatchResult result (AreHeads zero.now one.now) (LackHeads zero.now one.now) }
{
    if let RequestRead::Got { used, .. } = read_request(zero) {
        let from_server = response_len(alloc, zero, one)?;
        return Ok(Heads {
            client: Node::Zero,
            to_server: used,
            from_server,
        });
    }
    if let RequestRead::Got { used, .. } = read_request(one) {
        let from_server = response_len(alloc, one, zero)?;
        return Ok(Heads {
            client: Node::One,
            to_server: used,
            from_server,
        });
    }
    Err(FollowedFault::NoRequest)
}

/// The length of the response to a request that is accepted.
fn response_len(alloc: Global, client: &[u8], server: &[u8]) -> Result<usize, FollowedFault>
    requires { IsOpening client.now }
    ensures within { IfOk result (λ len. len ≤ length server.now) }
    ensures response { MatchResult result (AcceptsOpening client.now server.now) (IsUnanswered client.now server.now) }
{
    match read_response_to(alloc, client, server)? {
        Some(ResponseRead::Got { used, .. }) => Ok(used),
        Some(ResponseRead::Need) => Err(FollowedFault::CutResponse),
        Some(ResponseRead::Refused(fault)) => Err(FollowedFault::Response(fault)),
        None => unreachable!(),
    }
}

/// How the connection ended, as far as that is known.
fn ended_by(zero: &[u8], one: &[u8], heads: Heads) -> Ended
    requires { AreWithin zero.now one.now heads }
    ensures { EndsFollowed (HoldCloses zero.now one.now heads) result }
{
    let (client, server) = match heads.client {
        Node::Zero => (zero, one),
        Node::One => (one, zero),
    };
    if holds_close(&client[heads.to_server..]) && holds_close(&server[heads.from_server..]) {
        Ended::Peer
    } else {
        Ended::Broken
    }
}

/// The turns of the end that is judged.
fn judged_turns(
    alloc: Global,
    segments: &[Segment],
    judged: Role,
    heads: Heads,
) -> Result<Sequence<Turn>, NoMemory>
    ensures { IfOk result (λ turns. turns
        ≡ judged_turns judged heads.client heads.to_server heads.from_server segments.now) }
{
    let Heads {
        client,
        to_server,
        from_server,
    } = heads;
    match judged {
        Role::Server => turns_behind(alloc, other_node(client), to_server, from_server, segments),
        Role::Client => turns_behind(alloc, client, from_server, to_server, segments),
    }
}

/// The other end.
fn other_node(node: Node) -> Node
    ensures { result ≡ other_node node }
{
    match node {
        Node::Zero => Node::One,
        Node::One => Node::Zero,
    }
}
