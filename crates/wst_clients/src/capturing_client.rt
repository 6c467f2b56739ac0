//! The capture of one case that a client under test asks for: the first turn ends the run.

ghost use Rattle.std.specs.Prelude.{◌≡◌, ◌∷◌, [], MatchResult, false};
ghost use Rattle.ws_frame.specs.Devices.{watched};
ghost use Rattle.ws_frame.specs.Watching.{has_failed};
ghost use Rattle.ws_scripts.specs.Scripts.{CanBeRun};
ghost use Rattle.ws_upgrade.specs.Protocols.{AreOffers};
ghost use Rattle.wst_commands.specs.Devices.{StaysFailed};
ghost use Rattle.wst_clients.specs.ClientCaptures.{CapturesClient, WritesLast, WritesTaken};
ghost use Rattle.wst_clients.specs.Visits.{known_by, unmet_by};
ghost use Rattle.wst_commands.specs.declared.fault.Fault.TheVariants as variant;

use crate::tested_clients::TestedClients;
use crate::testing_clients::{fault_of, none_run};
use crate::visiting::{NoVisit, Round, Visit, VisitRules};
use std::alloc::Global;
use std::io::Write;
use ws_frame::Watched;
use ws_suite::{Case, Expectation};
use ws_wire::{NO_KEY, Role};
use wst_commands::{Exit, Fault};
use wst_testing::{Outcome, tell_capture, tell_case};

/// Takes the turn of the first who asks for the case, whose capture is written. Where the end of the run is asked for
/// before, or nobody asks in time, the line of a case is written that was not run. The one case of the rules is this
/// one.
pub fn capture_client<C: TestedClients, W: Write, F: Write>(
    alloc: Global,
    clients: &mut C,
    rules: &VisitRules<'_>,
    case: &Case,
    writer: &mut Watched<W>,
    faults: &mut Watched<F>,
) -> Result<Exit, Fault>
    requires works { has_failed writer.old ≡ false }
    requires one { rules.now.cases.now ≡ case.now ∷ [] }
    requires can { CanBeRun case.now }
    requires known { AreOffers (known_by rules.now) }
    requires are { C.are rules.now clients.old }
    ensures captures { CapturesClient (record { visits = C.visits; passes = C.passes }) (unmet_by C.none C.fails)
        rules.now case.now result (watched W.contents writer.old writer.new)
        (watched F.contents faults.old faults.new) }
    ensures still { StaysFailed faults.old faults.new }
{
    let standing = none_run(alloc, rules.cases)?;
    let round = Round {
        alloc,
        rules: &*rules,
        standing: &standing,
    };
    match clients.next_visit(round, faults) {
        Ok(taken) => {
            let told = tell_taken(alloc, rules.expected, case, taken, writer);
            clients.end();
            told
        }
        Err(why) => {
            clients.end();
            Err(fault_of(why))
        }
    }
}

/// Writes what the run has come to with the turn that was taken, or why none was.
fn tell_taken<W: Write>(
    alloc: Global,
    expected: Expectation,
    case: &Case,
    taken: Result<Visit, NoVisit>,
    writer: &mut Watched<W>,
) -> Result<Exit, Fault>
    requires works { has_failed writer.old ≡ false }
    ensures { MatchResult result
        (λ exit. WritesTaken expected case.now taken exit (watched W.contents writer.old writer.new))
        (λ fault. (fault ≡ variant.NoMemory) × (writer.new ≡ writer.old)) }
{
    match taken {
        Ok(visit) => tell_last(alloc, expected, case, visit, writer),
        Err(NoVisit::TooLate) => { tell_case(alloc, case, &Outcome::NotRun, Exit::Damaged, writer) }
        Err(NoVisit::Never) => Ok(Exit::Failed),
    }
}

/// Writes the capture of a case that was run, or the line of one that was not, with the connection that ends the run.
fn tell_last<W: Write>(
    alloc: Global,
    expected: Expectation,
    case: &Case,
    visit: Visit,
    writer: &mut Watched<W>,
) -> Result<Exit, Fault>
    requires works { has_failed writer.old ≡ false }
    ensures { MatchResult result
        (λ exit. WritesLast expected case.now visit exit (watched W.contents writer.old writer.new))
        (λ fault. (fault ≡ variant.NoMemory) × (writer.new ≡ writer.old)) }
{
    match visit {
        Visit::Ran(_, transcript) => {
            let told = tell_capture(alloc, Role::Client, expected, NO_KEY, transcript, writer)?;
            Ok(told)
        }
        Visit::Over => tell_case(alloc, case, &Outcome::NotRun, Exit::Damaged, writer),
    }
}
