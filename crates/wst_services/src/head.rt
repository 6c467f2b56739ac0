//! The command `head`. Its answers, and what a list of subprotocols is, are told in docs/FORMATS.md.

ghost use Rattle.std.specs.Prelude.{◌≡◌, false, map};
ghost use Rattle.ws_frame.specs.Devices.{watched};
ghost use Rattle.ws_frame.specs.Watching.{has_failed};
ghost use Rattle.ws_upgrade.specs.Protocols.{AreOffers};
ghost use Rattle.wst_services.specs.Head.{AnswersDecision, AnswersHead, AnswersKnowing, RunsHead};

use std::alloc::Global;
use std::io::{Read, Write};
use ws_connection::{HeadEnd, HeadRoom, RequestDecision, RequestHead, protocols_of, read_head};
use ws_frame::Watched;
use ws_upgrade::{Offers, refusal, response_of};
use wst_commands::{Exit, Fault, deliver};
use wst_words::HeadOptions;

/// Reads the head of a request, and writes the response or the refusal. What follows the head is ignored. Where the
/// names that are given can't be offered, nothing is read.
#[inline(never)]
pub fn run_head<R: Read, W: Write>(
    alloc: Global,
    options: HeadOptions<'_>,
    reader: &mut Watched<R>,
    writer: &mut Watched<W>,
) -> Result<Exit, Fault>
    requires reader_works { has_failed reader.old ≡ false }
    requires writer_works { has_failed writer.old ≡ false }
    ensures { RunsHead options.entry result (watched R.remaining reader.old reader.new)
        (watched W.contents writer.old writer.new) }
{
    let Some(protocols) = protocols_of(alloc, options.protocols)? else {
        return Err(Fault::BadProtocols);
    };
    answer_head(alloc, protocols.as_slice(), reader, writer)
}

/// Reads the head of a request, and answers it as an endpoint that knows these subprotocols.
fn answer_head<R: Read, W: Write>(
    alloc: Global,
    known: &[&[u8]],
    reader: &mut Watched<R>,
    writer: &mut Watched<W>,
) -> Result<Exit, Fault>
    requires reader_works { has_failed reader.old ≡ false }
    requires writer_works { has_failed writer.old ≡ false }
    requires known { AreOffers (map (λ name. name.now) known.now) }
    ensures { AnswersKnowing (map (λ name. name.now) known.now) result
        (watched R.remaining reader.old reader.new) (watched W.contents writer.old writer.new) }
{
    let mut room = HeadRoom::new();
    match read_head(reader, &mut room, &RequestHead { known }) {
        HeadEnd::Decided(decision) => answer(alloc, known, decision, writer),
        HeadEnd::Cut => Err(Fault::HeadIsCut),
        HeadEnd::ReadFault => Ok(Exit::Failed),
    }
}

/// Writes what answers a head that is decided.
fn answer<W: Write>(
    alloc: Global,
    known: &[&[u8]],
    decision: RequestDecision,
    writer: &mut Watched<W>,
) -> Result<Exit, Fault>
    requires works { has_failed writer.old ≡ false }
    requires known { AreOffers (map (λ name. name.now) known.now) }
    ensures { AnswersDecision (map (λ name. name.now) known.now) decision result
        (watched W.contents writer.old writer.new) }
{
    match decision {
        RequestDecision::Accepted {
            accept,
            protocol,
            ..
        } => {
            let chosen = Offers::proved(known).chosen(protocol);
            let text = response_of(alloc, &accept, chosen)?;
            Ok(deliver(Exit::Done, text.as_slice(), writer))
        }
        RequestDecision::Refused(fault) => Ok(deliver(Exit::Damaged, refusal(fault), writer)),
    }
}
