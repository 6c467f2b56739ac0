//! Cases run one after the other, each over a new end, in memory or at an address: where they come from, and who is
//! told of them.

ghost use Rattle.std.specs.Prelude.{◌≡◌, [], None, IfOk, OnErr, OnOk};
ghost use Rattle.std.specs.List.{All};
ghost use Rattle.ws_frame.specs.Devices.{watched};
ghost use Rattle.ws_frame.specs.Watching.{has_failed};
ghost use Rattle.ws_scripts.specs.Scripts.{CanBeRun};
ghost use Rattle.wst_testing.specs.LineOutputs.{ShowsMeeting};
ghost use Rattle.wst_testing.specs.Ends.{IsEndOfPlan};
ghost use Rattle.wst_testing.specs.Runner.{AwaitsCase, AwaitsOutcome, HasGiven, HearsCase, HearsMeeting, IsListed};
ghost use Rattle.wst_testing.specs.Runner.{MovesOn, RunsEach, StaysGiving};

use crate::address_server::AddressServer;
use crate::case_server::{CaseServer, MemoryEnd};
use crate::line_output::LineStop;
use crate::run_plans::{RunPlan, TestedEnd};
use std::alloc::Global;
use std::io::Write;
use std::marker::Model;
use ws_base::NoMemory;
use ws_frame::{Watched, WriteFault};
use ws_lines::Showing;
use ws_suite::Case;
use wst_network::Connector;
use wst_sockets::{ConnectFault, Meeting, Network};

/// Why a run of cases ends before all of them were run.
#[derive(Clone, Copy)]
pub enum RunStop {
    /// Enough was run.
    Enough,
    /// The output failed.
    Output,
    /// There is no connection to a tested end, or no whole answer came.
    NoConnection(ConnectFault),
    /// Memory ran out.
    NoMemory,
}

impl From<NoMemory> for RunStop {
    ghost use Rattle.wst_testing.specs.declared.runner.RunStop.TheVariants as stop;

    ghost from_gives = { λ _ given. given ≡ stop.NoMemory };

    fn from(_refused: NoMemory) -> RunStop {
        RunStop::NoMemory
    }
}

impl From<WriteFault> for RunStop {
    ghost use Rattle.wst_testing.specs.declared.runner.RunStop.TheVariants as stop;

    ghost from_gives = { λ _ given. given ≡ stop.Output };

    fn from(_failed: WriteFault) -> RunStop {
        RunStop::Output
    }
}

/// What is run: a case, and perhaps what else is known of it.
pub trait HasCase {
    ghost use Rattle.std.specs.Prelude.{◌≡◌};
    ghost use Rattle.ws_scripts.specs.declared.script.Case.{Case};

    /// The case.
    ghost case_of: { Self → Case };

    /// The case.
    fn case(&self) -> &Case
        ensures { result.now ≡ case_of self.now };
}

impl HasCase for Case {
    ghost case_of = { λ case. case };

    fn case(&self) -> &Case {
        self
    }
}

/// Where the cases of a run come from, one after the other.
pub trait CaseSource {
    ghost use Rattle.std.specs.Prelude.{◌≡◌, List, Option, Some, ℕ};

    /// What it gives.
    type Item: HasCase;

    /// From the first state to the second one it gave just these.
    ghost gave: { Self → Self → List Self.Item → Type 0 };

    /// From the first state to the second one it gave just these, and it has no more.
    ghost gave_all: { Self → Self → List Self.Item → Type 0 };

    /// What it gave last.
    ghost last: { Self → Option Self.Item };

    /// At most so many more are given.
    ghost left: { Self → ℕ };

    /// One that it gave, which is kept beside later ones.
    type Kept: Drop;

    /// What is kept.
    ghost kept_item: { Self.Kept → Self.Item };

    /// Gives the next one, if there is one.
    fn advance(&mut self, alloc: Global) -> Result<bool, NoMemory>
        ensures { IfOk result (MovesOn gave gave_all last left Self.Item.case_of self.old self.new) };

    /// What it gave last.
    fn item(&self) -> &Self::Item
        requires { HasGiven (last self.now) }
        ensures { last self.now ≡ Some result.now };

    /// What it gave last, to be kept beside later ones.
    fn keep(&mut self) -> Self::Kept
        requires { HasGiven (last self.old) }
        ensures kept { last self.old ≡ Some (kept_item result) }
        ensures gave { StaysGiving gave self.old self.new }
        ensures left { left self.new ≡ left self.old };

    /// What is kept.
    fn kept(kept: &Self::Kept) -> &Self::Item
        ensures { result.now ≡ kept_item kept.now };
}

/// It is told of what is run, one after the other: that it runs next, and then what came of it. It may end the run.
pub trait Sink {
    ghost use Rattle.std.specs.Prelude.{List, Option};
    ghost use Rattle.std.specs.Borrow.{GName};
    ghost use Rattle.wst_sockets.specs.declared.meeting.Meeting.{Meeting};
    ghost use Rattle.wst_testing.specs.declared.runner.RunStop.{RunStop};

    /// What it is told of.
    type Item;

    /// From the first state to the second one it was told of just these and what came of them, and, if so, that this
    /// one runs next.
    ghost heard: { Self → Self → List (Self.Item × Meeting) → Option Self.Item → Type 0 };

    /// From the first state to the second one it was told of just these, and ended the run with the last of them, for
    /// this reason.
    ghost stopped: { Self → Self → List (Self.Item × Meeting) → RunStop → Type 0 };

    /// The borrows through which it passes on what it is told. No call changes them.
    ghost borrows: { Self → List GName };

    /// This one runs next. Where memory runs out, the sink is as before.
    fn begins(&mut self, alloc: Global, item: &Self::Item) -> Result<(), NoMemory>
        requires { AwaitsCase heard self.old }
        ensures heard { OnOk result (HearsCase heard self.old self.new item.now) }
        ensures kept { OnErr result (self.new ≡ self.old) }
        ensures borrows { borrows self.new ≡ borrows self.old };

    /// This came of the one that runs. Where memory runs out, the sink is as before.
    fn came(&mut self, alloc: Global, item: &Self::Item, meeting: Meeting) -> Result<(), RunStop>
        requires { AwaitsOutcome heard self.old item.now }
        ensures heard { HearsMeeting heard stopped self.old self.new item.now meeting result }
        ensures borrows { borrows self.new ≡ borrows self.old };
}

/// It runs cases over tested ends, each over a new one.
pub trait CaseRunner {
    ghost use Rattle.std.specs.Prelude.{List, ℕ};
    ghost use Rattle.ws_scripts.specs.declared.script.Case.{Case};
    ghost use Rattle.wst_sockets.specs.declared.meeting.Meeting.{Meeting};

    /// With this masking key, this may come of this case over a new end.
    ghost meets: { Self → List ℕ → Case → Meeting → Type 0 };

    /// Runs the cases that a source gives. The sink is told of them in their order: of each that it runs, and then of
    /// what came of it.
    fn run_each<S: CaseSource, K: Sink<Item = S::Item>>(
        &self,
        alloc: Global,
        key: [u8; 4],
        source: &mut S,
        sink: &mut K,
    ) -> Result<(), RunStop>
        requires unused { S.gave source.old source.old [] }
        requires fresh { K.heard sink.old sink.old [] None }
        ensures runs { RunsEach S.Item.case_of (meets self.now key) S.gave S.gave_all K.heard K.stopped source.old
            sink.old sink.new result }
        ensures borrows { K.borrows sink.new ≡ K.borrows sink.old };
}

/// It runs cases one after the other over ends of this kind.
#[derive(Clone, Copy)]
pub struct InTurn<'e, E>(pub &'e E);

impl<E: CaseServer> CaseRunner for InTurn<'_, E> {
    ghost meets = { λ one key case meeting. E.meets one.0.now key case meeting };

    fn run_each<S: CaseSource, K: Sink<Item = S::Item>>(
        &self,
        alloc: Global,
        key: [u8; 4],
        source: &mut S,
        sink: &mut K,
    ) -> Result<(), RunStop> {
        run_cases(alloc, self.0, key, source, sink)
    }
}

/// An end that is tested. Each case is run over a new one.
#[derive(Drop)]
pub enum End<'a, N, C> {
    /// It stands in memory.
    Memory(MemoryEnd),
    /// It is a server that is met over a network.
    Address(AddressServer<'a, N, C>),
}

impl<'a, N, C> End<'a, N, C> {
    /// The end that a plan names. Where it names clients, the address to which they come.
    pub fn of_plan(
        net: &'a N,
        connector: &'a C,
        plan: &'a RunPlan<'_>,
    ) -> Result<End<'a, N, C>, &'a str>
        ensures { IsEndOfPlan plan.now plan.now.tested result }
    {
        match &plan.tested {
            TestedEnd::Memory(end) => Ok(End::Memory(*end)),
            TestedEnd::Server(target) => Ok(End::Address(AddressServer::new(
                net, connector, target, plan,
            ))),
            TestedEnd::Clients(address) => Err(address),
        }
    }
}

impl<N: Network, C: Connector> CaseServer for End<'_, N, C> {
    ghost use Rattle.wst_testing.specs.Ends.{MeetsEnd, MeetsEndShown};

    ghost meets = { λ end key case meeting. MeetsEnd end key case meeting };

    ghost meets_shown = { λ end key case meeting. MeetsEndShown end key case meeting };

    fn run(&self, alloc: Global, case: &Case, key: [u8; 4]) -> Result<Meeting, NoMemory> {
        match self {
            End::Memory(end) => end.run(alloc, case, key),
            End::Address(server) => server.run(alloc, case, key),
        }
    }

    fn run_shown<W: Write>(
        &self,
        alloc: Global,
        case: &Case,
        key: [u8; 4],
        showing: Showing,
        writer: &mut Watched<W>,
    ) -> Result<Meeting, LineStop> {
        match self {
            End::Memory(end) => end.run_shown(alloc, case, key, showing, writer),
            End::Address(server) => server.run_shown(alloc, case, key, showing, writer),
        }
    }
}

/// Runs the cases that a source gives, in their order, each over a new end. The sink is told of each before it runs,
/// and of what came of it before the next one runs.
pub fn run_cases<E: CaseServer, S: CaseSource, K: Sink<Item = S::Item>>(
    alloc: Global,
    end: &E,
    key: [u8; 4],
    source: &mut S,
    sink: &mut K,
) -> Result<(), RunStop>
    requires unused { S.gave source.old source.old [] }
    requires fresh { K.heard sink.old sink.old [] None }
    ensures runs { RunsEach S.Item.case_of (E.meets end.now key) S.gave S.gave_all K.heard K.stopped source.old sink.old
        sink.new result }
    ensures borrows { K.borrows sink.new ≡ K.borrows sink.old }
{
    while source.advance(alloc)? {
        let item = source.item();
        sink.begins(alloc, item)?;
        let meeting = end.run(alloc, item.case(), key)?;
        sink.came(alloc, item, meeting)?;
    }
    Ok(())
}

/// The cases of a list, in their order.
#[derive(Drop)]
pub struct ListedCases<'a> {
    /// The one that was given last.
    last: Option<&'a Case>,
    /// Those behind it.
    rest: &'a [Case],
}

impl<'a> Model for ListedCases<'a> {
    ghost use Rattle.std.specs.List.{All};
    ghost use Rattle.ws_scripts.specs.Scripts.{CanBeRun};
    ghost use Rattle.wst_testing.specs.Runner.{ListValue, last_of};

    ghost Value = { ListValue };

    ghost view = { λ listed. record { last = last_of listed.last; rest = listed.rest.now } };

    ghost invariant = { λ listed. All CanBeRun listed.rest.now };
}

impl<'a> ListedCases<'a> {
    /// All of these.
    pub fn of(cases: &'a [Case]) -> ListedCases<'a>
        requires { All CanBeRun cases.now }
        ensures { IsListed cases.now result }
    {
        ListedCases {
            last: None,
            rest: cases,
        }
    }
}

impl<'a> CaseSource for ListedCases<'a> {
    ghost use Rattle.std.specs.Prelude.{length};
    ghost use Rattle.wst_testing.specs.Runner.{GaveAllOfList, GaveOfList};

    type Item = Case;

    ghost gave = { λ start now cases. GaveOfList start now cases };

    ghost gave_all = { λ start now cases. GaveAllOfList start cases };

    ghost last = { λ listed. listed.last };

    ghost left = { λ listed. length listed.rest };

    type Kept = &'a Case;

    ghost kept_item = { λ kept. kept.now };

    fn advance(&mut self, _alloc: Global) -> Result<bool, NoMemory> {
        match self.rest.split_first() {
            Some((case, rest)) => {
                self.last = Some(case);
                self.rest = rest;
                Ok(true)
            }
            None => Ok(false),
        }
    }

    fn item(&self) -> &Case {
        match self.last {
            Some(case) => case,
            None => unreachable!(),
        }
    }

    fn keep(&mut self) -> &'a Case {
        match self.last {
            Some(case) => case,
            None => unreachable!(),
        }
    }

    fn kept<'k>(kept: &'k &'a Case) -> &'k Case {
        kept
    }
}
