//! The tester of a script.

mod changing;
mod deciding;

ghost use Rattle.std.specs.Prelude.{◌≡◌, ◌∷◌, [], Some, IfOk, if◌then◌else◌};
ghost use Rattle.ws_session.specs.Exchange.{is_over};
ghost use Rattle.ws_scripts.specs.declared.transcript.Ended.{Ended};
ghost use Rattle.ws_suite.specs.Growing.{HasGrown};
ghost use Rattle.ws_machines.specs.Machines.{HasNext};
ghost use Rattle.ws_tester.specs.Standings.{StandsAs, is_server_close};
ghost use Rattle.ws_tester.specs.Following.{BeginsRun, WasTold, first_state, has_items};
ghost use Rattle.ws_tester.specs.Outcomes.{got_in_all};
ghost use Rattle.ws_tester.specs.Outgoings.{after_first, first_turn};
ghost use Rattle.ws_tester.specs.RunStates.{plan_value, recorded, wanted_in};

use crate::outgoing::Outgoing;
use crate::standing::{Standing, is_server_close, standing_of};
use crate::tester::changing::push_turn;
use std::alloc::Global;
use std::marker::Model;
use ws_base::{NoMemory, Sequence};
use ws_machines::{Machine, StreamEvent};
use ws_session::laws::one_list_of_events;
use ws_suite::{CutTurn, Ended, Expectation, RunEvidence, Transcript, Turn};
use ws_wire::Role;

/// How many bytes are read at once at most.
const MAX_PIECE: u64 = 4096;

/// How a script is run.
#[derive(Clone, Copy)]
pub struct TestPlan {
    /// The tested end.
    pub tested: Role,
    /// What is expected of it: by that it is told what a turn is waited for.
    pub expected: Expectation,
    /// Whether waits can be in vain: then a turn that holds the close or fault of what is sent is waited for as the
    /// last one is.
    pub has_timeouts: bool,
}

/// Runs a script against a tested end whose handshake is done, turn by turn, and records what went over the stream.
/// What comes while a turn is sent counts to it. A turn is over once what is owed has come, or nothing has come in
/// time; the last one to a server is read to the end of the stream. Once a server's close was got nothing more is sent,
/// also where it came with the head, and its own direction is to be ended. By the protocol a close whose code the
/// standard leaves undefined is a close. Pings of the tested end aren't answered.
#[derive(Drop)]
pub struct Tester {
    alloc: Global,
    plan: TestPlan,
    past: Vec<Turn>,
    sent: Vec<u8>,
    got: Vec<u8>,
    outgoing: Outgoing,
    evidence: RunEvidence,
    standing: Standing,
    had_sent_end: bool,
    allowance: u64,
    is_closing: bool,
    is_half_closed: bool,
    write_failed: bool,
    waits_anew: bool,
    has_begun: bool,
    ended: Option<Ended>,
}

impl Model for Tester {
    ghost use Rattle.ws_tester.specs.Following.{TesterValue};
    ghost use Rattle.ws_tester.specs.RunStates.{plan_value};

    ghost Value = { TesterValue };

    ghost view = { λ x. record {
      run = record {
        plan = plan_value x.plan;
        past = x.past.items;
        turn = record { sent = x.sent.items; got = x.got.items };
        outgoing = x.outgoing;
        allowance = x.allowance;
        closing = x.is_closing;
        half_closed = x.is_half_closed;
        write_failed = x.write_failed;
        pings = x.evidence.pings;
        waits_anew = x.waits_anew;
        begun = x.has_begun;
        ended = x.ended;
      };
      seen = x.evidence;
      standing = x.standing;
      had_sent_end = x.had_sent_end;
    } };
}

impl Tester {
    /// Begins to run a script, of whose turns these are the pieces, where `first` came with the head
    /// of the tested end and at most `budget` bytes are to be read. Nothing was told yet.
    pub fn new(
        alloc: Global,
        plan: TestPlan,
        script: Sequence<CutTurn>,
        first: Vec<u8>,
        budget: u64,
    ) -> Result<Tester, NoMemory>
        ensures begins { IfOk result (λ tester. BeginsRun
            (record { plan = plan_value plan; script = script; budget = budget; first = first.items }) tester.run) }
        ensures told { IfOk result (λ tester. WasTold tester tester []) }
        ensures goes_on { IfOk result (λ tester. HasNext (wanted_in tester.run)) }
    {
        let has_turns = has_turns(&script);
        let mut tester = Tester::first(alloc, plan, script, first, budget)?;
        if has_turns {
            tester.settle()?;
            return Ok(tester);
        }
        tester.end_with(Ended::Tester);
        Ok(tester)
    }

    /// The turns that are over.
    pub fn past(&self) -> &[Turn]
        ensures { result.now ≡ self.now.run.past }
    {
        self.past.as_slice()
    }

    /// What the turn under way has sent.
    pub fn sent(&self) -> &[u8]
        ensures { result.now ≡ self.now.run.turn.sent }
    {
        self.sent.as_slice()
    }

    /// What it has got.
    pub fn got(&self) -> &[u8]
        ensures { result.now ≡ self.now.run.turn.got }
    {
        self.got.as_slice()
    }

    /// Whether there is anything to record.
    pub fn has_begun(&self) -> bool
        ensures { result ≡ self.now.run.begun }
    {
        self.has_begun
    }

    /// The run before anything is sent: what came with the head is got.
    fn first(
        alloc: Global,
        plan: TestPlan,
        script: Sequence<CutTurn>,
        first: Vec<u8>,
        budget: u64,
    ) -> Result<Tester, NoMemory>
        ensures state { IfOk result (λ tester. tester.run ≡ first_state
            (record { plan = plan_value plan; script = script; budget = budget; first = first.items })
            (is_server_close plan.tested tester.standing)) }
        ensures grown { IfOk result (λ tester. HasGrown plan.tested
            (record { sent = []; got = first.items } ∷ []) tester.seen) }
        ensures stands { IfOk result (λ tester. StandsAs plan.tested plan.expected tester.standing
            (got_in_all (record { sent = []; got = first.items } ∷ []))) }
        ensures before { IfOk result (λ tester. tester.had_sent_end ≡ is_over tester.seen.tested.status) }
    {
        let evidence = first_evidence(alloc, plan.tested, first.as_slice())?;
        let had_sent_end = evidence.has_sent_end();
        let standing = standing_of(alloc, plan, &evidence, &[], first.as_slice())?;
        let is_closing = is_server_close(plan.tested, standing);
        let has_begun = has_turns(&script) || has_bytes(first.as_slice());
        Ok(Tester {
            alloc,
            plan,
            past: Vec::new(alloc),
            sent: Vec::new(alloc),
            got: first,
            outgoing: first_outgoing(alloc, script, is_closing),
            evidence,
            standing,
            had_sent_end,
            allowance: budget,
            is_closing,
            is_half_closed: false,
            write_failed: false,
            waits_anew: true,
            has_begun,
            ended: None,
        })
    }

    /// What is recorded: the turns, if there is anything to record, and how the run has ended.
    fn into_transcript(self) -> Result<Transcript, NoMemory>
        ensures turns { IfOk result (λ transcript. transcript.turns ≡ recorded self.run) }
        ensures ended { IfOk result (λ transcript. (how : Ended) → self.run.ended ≡ Some how → transcript.ended ≡ how) }
    {
        let Tester {
            mut past,
            sent,
            got,
            has_begun,
            ended,
            alloc,
            ..
        } = self;
        if has_begun {
            push_turn(&mut past, sent, got)?;
        } else {
            past = Vec::new(alloc);
        }
        Ok(Transcript {
            turns: Sequence::from_vec(past),
            ended: ended.unwrap_or(Ended::Tester),
        })
    }
}

/// What is to be sent first: nothing of the first turn where a server's close came with the head.
fn first_outgoing(alloc: Global, script: Sequence<CutTurn>, is_closing: bool) -> Outgoing
    ensures rest { result.rest ≡ (if is_closing then [] else first_turn script) }
    ensures later { result.later ≡ after_first script }
{
    let mut outgoing = Outgoing::new(alloc, script);
    if is_closing {
        outgoing.stop();
    }
    outgoing
}

/// Whether there is any turn.
fn has_turns(script: &Sequence<CutTurn>) -> bool
    ensures { result ≡ has_items script.now }
{
    !script.as_slice().is_empty()
}

/// Whether there is any byte.
fn has_bytes(bytes: &[u8]) -> bool
    ensures { result ≡ has_items bytes.now }
{
    !bytes.is_empty()
}

/// What is shown of a first turn in which this was got.
fn first_evidence(alloc: Global, tested: Role, first: &[u8]) -> Result<RunEvidence, NoMemory>
    ensures grown { IfOk result (λ evidence. HasGrown tested
        (record { sent = []; got = first.now } ∷ []) evidence) }
    ensures pings { IfOk result (λ evidence. evidence.pings ≡ []) }
{
    let mut evidence = RunEvidence::new(alloc, tested);
    evidence.begin_turn();
    evidence.on_got(first)?;
    Ok(evidence)
}

impl Machine for Tester {
    ghost use Rattle.ws_tester.specs.Following.{WasTold};
    ghost use Rattle.ws_tester.specs.Records.{IsRecorded};
    ghost use Rattle.ws_tester.specs.RunStates.{run_left, wanted_in};

    type End = Transcript;

    ghost agrees = { λ start now told. WasTold start now told };

    ghost wants = { λ now. wanted_in now.run };

    ghost left = { λ now. run_left now.run };

    ghost gives = { λ start told transcript. IsRecorded start.run told transcript };

    fn to_write(&self) -> &[u8] {
        if self.ended.is_some() {
            return &[];
        }
        self.outgoing.piece()
    }

    fn to_report(&self) -> &[u8] {
        &[]
    }

    fn room(&self) -> usize {
        if self.ended.is_some() || self.wants_end() {
            return 0;
        }
        self.allowance.min(MAX_PIECE) as usize
    }

    fn wants_end(&self) -> bool {
        self.ended.is_none() && self.is_closing && !self.is_half_closed && self.outgoing.is_empty()
    }

    fn waits_anew(&self) -> bool {
        self.waits_anew
    }

    fn is_done(&self) -> bool {
        self.ended.is_some()
    }

    fn on_event(&mut self, event: StreamEvent<'_>) -> Result<(), NoMemory> {
        self.change(event)?;
        self.go_on(event)?;
        Ok(())
    }

    fn into_end(self) -> Result<Transcript, NoMemory> {
        one_list_of_events();
        let transcript = self.into_transcript()?;
        Ok(transcript)
    }
}
