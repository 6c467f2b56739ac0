//! Clients under test whose cases stand in a document: what it has before and behind all of them is written too.

ghost use Rattle.std.specs.Prelude.{◌≡◌, false};
ghost use Rattle.std.specs.List.{All};
ghost use Rattle.ws_frame.specs.Devices.{watched};
ghost use Rattle.ws_frame.specs.Watching.{has_failed};
ghost use Rattle.ws_scripts.specs.Scripts.{CanBeRun};
ghost use Rattle.ws_upgrade.specs.Protocols.{AreOffers};
ghost use Rattle.wst_commands.specs.Devices.{StaysFailed};
ghost use Rattle.wst_clients.specs.ClientTests.{DocumentsClients};
ghost use Rattle.wst_clients.specs.Visits.{known_by, unmet_by};

use crate::tested_clients::TestedClients;
use crate::testing_clients::test_clients;
use crate::visiting::VisitRules;
use std::alloc::Global;
use std::io::Write;
use ws_frame::Watched;
use ws_reports::Report;
use wst_commands::{Exit, Fault, deliver};
use wst_testing::close_report;

/// A document of the cases of clients: what it is about, and the report that it is.
#[derive(Clone, Copy)]
pub struct ClientDocument<'a> {
    pub target: &'a str,
    pub report: &'a Report,
}

/// Tests clients as `test_clients` does, between what the document has before and behind all cases. What it has behind
/// them is written also where the run ends early, if the output works.
pub fn document_clients<C: TestedClients, W: Write, F: Write>(
    alloc: Global,
    clients: &mut C,
    rules: &VisitRules<'_>,
    document: ClientDocument<'_>,
    writer: &mut Watched<W>,
    faults: &mut Watched<F>,
) -> Result<Exit, Fault>
    requires works { has_failed writer.old ≡ false }
    requires can { All CanBeRun rules.now.cases.now }
    requires known { AreOffers (known_by rules.now) }
    requires are { C.are rules.now clients.old }
    ensures documents { DocumentsClients (record { visits = C.visits; passes = C.passes }) (unmet_by C.none C.fails)
        rules.now document.entry.target.now document.entry.report.now result
        (watched W.contents writer.old writer.new) (watched F.contents faults.old faults.new) }
    ensures still { StaysFailed faults.old faults.new }
{
    let start = document.report.start_text(alloc, document.target)?;
    let begun = deliver(Exit::Done, start.as_bytes(), writer);
    if writer.failed() {
        return Ok(begun);
    }
    let ended = test_clients(alloc, clients, rules, writer, faults);
    close_report(document.report, &ended, writer);
    ended
}
