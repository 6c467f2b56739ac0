//! An index in JSON, as Autobahn's test suite writes one.

ghost use Rattle.std.specs.Prelude.{◌≡◌, IfOk, Some, string_bytes};
ghost use Rattle.ws_runs.specs.Json.{behavior, case_json, close_behavior, index_json, members_json, peer_json};
ghost use Rattle.ws_runs.specs.Json.{peers_json};
ghost use Rattle.ws_runs.specs.Views.{result_value, result_values};

use crate::mark::{Mark, mark_of_words, why_of};
use crate::peer::Peer;
use crate::result::CaseResult;
use crate::runs::Runs;
use crate::shown::{QuotedBytes, QuotedText};
use std::alloc::Global;
use std::fmt;
use ws_base::NoMemory;

/// The index of runs: an object with a member for each peer, each an object with a member for each case that it ran.
pub fn index_text(alloc: Global, runs: &Runs<'_>) -> Result<String, NoMemory>
    ensures { IfOk result (λ text. string_bytes text ≡ index_json runs.now) }
{
    let members = PeerMembers(runs.peers());
    let text = format!(in alloc; "{{{members}}}\n")?;
    Ok(text)
}

/// The members of peers.
#[derive(Clone, Copy)]
struct PeerMembers<'r, 'a>(&'r [Peer<'a>]);

impl fmt::Display for PeerMembers<'_, '_> {
    ghost output = { λ members. Some (peers_json members.0.now) };

    fn fmt<W: fmt::Write>(&self, f: &mut fmt::Formatter<W>) -> fmt::Result {
        let mut mark = "";
        for peer in self.0 {
            write!(f, "{mark}{}", PeerMember(peer))?;
            mark = ",";
        }
        Ok(())
    }
}

/// The member of a peer.
#[derive(Clone, Copy)]
struct PeerMember<'r, 'a>(&'r Peer<'a>);

impl fmt::Display for PeerMember<'_, '_> {
    ghost output = { λ member. Some (peer_json member.0.now) };

    fn fmt<W: fmt::Write>(&self, f: &mut fmt::Formatter<W>) -> fmt::Result {
        let name = QuotedText(self.0.name());
        let members = CaseMembers(self.0.cells());
        write!(f, "\"{name}\":{{{members}}}")
    }
}

/// The members of the cases of a peer.
#[derive(Clone, Copy)]
struct CaseMembers<'r, 'a>(&'r [CaseResult<'a>]);

impl fmt::Display for CaseMembers<'_, '_> {
    ghost output = { λ members. Some (members_json (result_values members.0.now)) };

    fn fmt<W: fmt::Write>(&self, f: &mut fmt::Formatter<W>) -> fmt::Result {
        let mut mark = "";
        for case in self.0 {
            write!(f, "{mark}{}", CaseMember(*case))?;
            mark = ",";
        }
        Ok(())
    }
}

/// The member of a case.
#[derive(Clone, Copy)]
struct CaseMember<'a>(CaseResult<'a>);

impl fmt::Display for CaseMember<'_> {
    ghost output = { λ member. Some (case_json (result_value member.0)) };

    fn fmt<W: fmt::Write>(&self, f: &mut fmt::Formatter<W>) -> fmt::Result {
        let id = QuotedBytes(self.0.id);
        let behavior = behavior(mark_of_words(self.0.words));
        let close = close_behavior(why_of(self.0.words));
        write!(
            f,
            "\"{id}\":{{\"behavior\":\"{behavior}\",\"behaviorClose\":\"{close}\"}}"
        )
    }
}

/// How a peer behaved in a case.
fn behavior<'a>(mark: Mark) -> &'a str
    ensures { result.now ≡ behavior mark }
{
    match mark {
        Mark::Pass => "OK",
        Mark::Loose => "NON-STRICT",
        Mark::Fail => "FAILED",
        Mark::NoConnection | Mark::Missing => "UNIMPLEMENTED",
    }
}

/// How it closed the connection, by the name of the rule.
fn close_behavior<'a>(why: &[u8]) -> &'a str
    ensures { result.now ≡ close_behavior why.now }
{
    if why == b"OtherCode".as_slice() {
        "WRONG CODE"
    } else if why == b"LateEnd".as_slice() {
        "UNCLEAN"
    } else if why == b"BrokenEnd".as_slice() {
        "UNCLEAN"
    } else if why == b"OwnEnd".as_slice() {
        "UNCLEAN"
    } else if why == b"Close".as_slice() {
        "FAILED"
    } else if why == b"NoClose".as_slice() {
        "FAILED"
    } else if why == b"End".as_slice() {
        "FAILED"
    } else {
        "OK"
    }
}
