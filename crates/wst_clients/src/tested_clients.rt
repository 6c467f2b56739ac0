//! Those who come to be tested: what is known of them, and those of a listener.

ghost use Rattle.std.specs.Prelude.{IfErr, IfOk, OnErr};
ghost use Rattle.ws_frame.specs.Devices.{watched};
ghost use Rattle.wst_commands.specs.Devices.{StaysFailed};
ghost use Rattle.wst_clients.specs.Turns.{IsWhyNone, MayFail, StopsFor, TakesNext};
ghost use Rattle.wst_clients.specs.Visitors.{AreHeld, AreTestedBy};
ghost use Rattle.wst_clients.specs.Visits.{BreaksTurn, CanBeVisited, IsInside, Passes, Visits, unmet_by};

use crate::visiting::{NoVisit, Round, Visit, take_next};
use crate::visitors::Visitors;
use std::io::Write;
use ws_frame::Watched;
use ws_loops::{Listener, LoopFault, NoLines, Poller};
use ws_tester::Tester;

/// Clients of one kind that are tested.
pub trait TestedClients {
    ghost use Rattle.ws_paths.specs.Standings.{StandingValue};
    ghost use Rattle.wst_clients.specs.Visits.{Passing};
    ghost use Rattle.wst_clients.specs.declared.visiting.NoVisit.{NoVisit};
    ghost use Rattle.wst_clients.specs.declared.visiting.Visit.{Visit};
    ghost use Rattle.wst_clients.specs.declared.visiting.VisitRules.{VisitRules};

    /// This may come of a turn that is taken by these rules, where the cases stand so.
    ghost visits: { VisitRules → StandingValue → Visit → Type 0 };

    /// Such a one may pass by.
    ghost passes: { VisitRules → StandingValue → Passing → Type 0 };

    /// They can be tested by these rules.
    ghost are: { VisitRules → Self → Type 0 };

    /// There is no turn by these rules, for this reason.
    ghost none: { VisitRules → NoVisit → Self → Type 0 };

    /// They can't be waited for any more.
    ghost fails: { Self → Type 0 };

    /// Takes the next turn, and tells of those who pass by.
    fn next_visit<F: Write>(
        &mut self,
        round: Round<'_>,
        faults: &mut Watched<F>,
    ) -> Result<Result<Visit, NoVisit>, LoopFault>
        requires can { CanBeVisited round.rules.now round.standing.now }
        requires are { are round.rules.now self.old }
        ensures visits { IfOk result (λ taken. TakesNext (record { visits = visits; passes = passes })
            (unmet_by none fails) round.entry.rules.now round.entry.standing.now taken
            (watched F.contents faults.old faults.new)) }
        ensures lacks { OnErr result (BreaksTurn (record { visits = visits; passes = passes }) round.entry.rules.now
            round.entry.standing.now (watched F.contents faults.old faults.new)) }
        ensures inside { IfOk result (λ taken. IfOk taken (λ visit. IsInside round.entry.rules.now visit)) }
        ensures none { IfOk result (λ taken. IfErr taken (λ why. none round.entry.rules.now why self.new)) }
        ensures stops { IfErr result (StopsFor (fails self.new)) }
        ensures are { IfOk result (λ taken. are round.entry.rules.now self.new) }
        ensures still { StaysFailed faults.old faults.new };

    /// No further turn is taken: those who are left are read to the end, for a while.
    fn end(&mut self);
}

impl<L: Listener + Drop, P: Poller + Drop> TestedClients for Visitors<'_, Tester, L, P> {
    ghost visits = { λ rules standing visit. Visits rules standing visit };

    ghost passes = { λ rules standing passing. Passes rules standing passing };

    ghost are = { λ rules visitors. AreTestedBy rules visitors × AreHeld L.Client.did visitors };

    ghost none = { λ rules why visitors. IsWhyNone L.did P.time rules why visitors };

    ghost fails = { λ visitors. MayFail visitors };

    fn next_visit<F: Write>(
        &mut self,
        round: Round<'_>,
        faults: &mut Watched<F>,
    ) -> Result<Result<Visit, NoVisit>, LoopFault> {
        take_next(round, self, faults)
    }

    fn end(&mut self) {
        let _ = self.end_all(&mut NoLines);
    }
}
