//! The opening handshake of a client that then tests its server, as a machine (RFC 6455 sections 4.1 and 5 to 7).

ghost use Rattle.std.specs.Prelude.{◌≡◌, ◌<◌, ◌≤◌, ◌++◌, [], drop, length, map, IfOk, OnOk, MatchOption};
ghost use Rattle.ws_machines.specs.Machines.{HasNext, MayBeTold};
ghost use Rattle.ws_tester.specs.Following.{BeginsRun, WasTold};
ghost use Rattle.ws_tester.specs.RunStates.{plan_value, wanted_in};
ghost use Rattle.ws_upgrade.specs.Reading.{HasStatusCode, LacksStatusCode, max_head};
ghost use Rattle.ws_handshake.specs.Probes.{WasProbed, asked_of, is_opening, script_behind, wanted_of};
ghost use Rattle.ws_handshake.specs.InnerProbes.{ReadsAnswer, IsStageBehind, OpensOn};
ghost use Rattle.ws_handshake.specs.Responses.{DecidesResponse};
ghost use Rattle.ws_handshake.specs.declared.probe_machine.ProbeStage.TheVariants.{Opening};

use crate::head_reading::{DecidedHead, HeadReading};
use crate::pending::Pending;
use crate::probe_end::{HeadRefusal, Probe};
use crate::response_head::{ResponseDecision, ResponseHead};
use std::alloc::Global;
use std::marker::Model;
use std::mem;
use ws_base::{NoMemory, Sequence};
use ws_machines::{Machine, StreamEvent};
use ws_suite::CutTurn;
use ws_tester::{TestPlan, Tester};
use ws_upgrade::{HeadFault, status_of};

/// What is asked of a server, and how its script is run then.
#[derive(Clone, Copy)]
pub struct ProbePlan<'a> {
    /// The nonce and the subprotocols of the request.
    pub head: ResponseHead<'a>,
    /// How the script is run.
    pub test: TestPlan,
    /// How many bytes are read behind the head at most: neither the head nor what comes with it counts.
    pub budget: u64,
}

/// How far a probe has come.
#[derive(Drop)]
pub enum ProbeStage {
    /// The request is written, and then the head of the answer read.
    Opening,
    /// The script is run.
    Running(Tester),
    /// The answer is to be refused.
    Refused(HeadRefusal),
    /// There is no connection.
    Lost,
}

/// Asks a server for an upgrade, and where it accepts runs a script against it, as `Tester` does. The request is
/// written to its last byte before anything is read. The head of the answer is read no further than it takes: at most
/// 1024 bytes at once, at most 8192 in all. What came with its last piece is the first that the script gets.
#[derive(Drop)]
pub struct ProbeMachine<'a> {
    alloc: Global,
    plan: ProbePlan<'a>,
    script: Sequence<CutTurn>,
    request: Pending,
    reading: HeadReading,
    stage: ProbeStage,
}

impl<'a> Model for ProbeMachine<'a> {
    ghost use Rattle.std.specs.Prelude.{◌<◌, length};
    ghost use Rattle.ws_upgrade.specs.Reading.{max_head};
    ghost use Rattle.ws_handshake.specs.Probes.{ProbeValue, asked_of};

    ghost Value = { ProbeValue };

    ghost view = { λ x. record {
      asked = asked_of x.plan;
      script = x.script;
      rest = x.request;
      read = x.reading;
      stage = x.stage;
    } };

    ghost invariant = { λ x. length x.reading < max_head };
}

impl<'a> ProbeMachine<'a> {
    /// Is to write this request, and to run a script, of whose turns these are the pieces. Nothing was told yet.
    pub fn new(
        alloc: Global,
        plan: ProbePlan<'a>,
        script: Sequence<CutTurn>,
        request: Vec<u8>,
    ) -> ProbeMachine<'a>
        ensures asked { result.asked ≡ asked_of plan.entry }
        ensures script { result.script ≡ script }
        ensures request { result.rest ≡ request.items }
        ensures read { result.read ≡ [] }
        ensures stage { result.stage ≡ Opening }
        ensures told { WasProbed result result [] }
        ensures goes_on { HasNext (wanted_of result) }
    {
        ProbeMachine {
            alloc,
            plan,
            script,
            request: Pending::new(request),
            reading: HeadReading::new(alloc),
            stage: ProbeStage::Opening,
        }
    }

    /// Whether the head of the answer isn't whole yet.
    pub fn is_opening(&self) -> bool
        ensures { result ≡ is_opening self.now.stage }
    {
        match &self.stage {
            ProbeStage::Opening => true,
            ProbeStage::Running(_) | ProbeStage::Refused(_) | ProbeStage::Lost => false,
        }
    }

    /// How far it has come: the tester, once the head of the answer is accepted.
    pub fn into_stage(self) -> ProbeStage
        ensures { result ≡ self.entry.stage }
    {
        let ProbeMachine { stage, .. } = self;
        stage
    }

    /// Something happened before the head of the answer is whole.
    fn on_opening(&mut self, event: StreamEvent<'_>) -> Result<(), NoMemory>
        requires told { MayBeTold (wanted_of self.old) event }
        requires opening { self.old.stage ≡ Opening }
        ensures opens { OnOk result (OpensOn self.old event.entry self.new) }
        ensures bound { OnOk result (length self.new.read < max_head) }
    {
        match event {
            StreamEvent::Came(piece) => {
                self.on_came(piece)?;
                Ok(())
            }
            StreamEvent::Taken(count) => {
                self.request.take(count);
                Ok(())
            }
            StreamEvent::DirectionEnded | StreamEvent::Reported => Ok(()),
            StreamEvent::Ended
            | StreamEvent::ReadFailed
            | StreamEvent::NothingCame
            | StreamEvent::WriteFailed
            | StreamEvent::DeadlinePassed(_) => {
                self.stage = ProbeStage::Lost;
                Ok(())
            }
        }
    }

    /// These bytes of the answer came.
    fn on_came(&mut self, piece: &[u8]) -> Result<(), NoMemory>
        requires opening { self.old.stage ≡ Opening }
        ensures answers { OnOk result (ReadsAnswer self.old self.new (self.old.read ++ piece.now)) }
        ensures bound { OnOk result (length self.new.read < max_head) }
    {
        match self.reading.on_came(piece, &self.plan.head)? {
            None => Ok(()),
            Some(head) => {
                self.stage = self.stage_behind(&head)?;
                Ok(())
            }
        }
    }

    /// The stage behind a head that is decided.
    fn stage_behind(&mut self, head: &DecidedHead<ResponseDecision>) -> Result<ProbeStage, NoMemory>
        requires { DecidesResponse self.old.asked.nonce self.old.asked.offers head.now.bytes.items head.now.decision }
        ensures { IfOk result (λ stage.
            IsStageBehind self.old.asked self.old.script head.now.bytes.items stage) }
    {
        let bytes = head.bytes.as_slice();
        match head.decision {
            ResponseDecision::Accepted { used, .. } => {
                let first = bytes_behind(self.alloc, bytes, used)?;
                let tester = self.tester_behind(first)?;
                Ok(ProbeStage::Running(tester))
            }
            ResponseDecision::Refused(fault) => Ok(ProbeStage::Refused(refusal_of(bytes, fault))),
        }
    }

    /// The tester of the script, where this came behind the head.
    fn tester_behind(&mut self, first: Vec<u8>) -> Result<Tester, NoMemory>
        ensures begins { IfOk result (λ tester. BeginsRun (script_behind self.old first.items) tester.run) }
        ensures told { IfOk result (λ tester. WasTold tester tester []) }
        ensures goes_on { IfOk result (λ tester. HasNext (wanted_in tester.run)) }
    {
        let script = mem::replace(&mut self.script, Sequence::new(self.alloc));
        let tester = Tester::new(self.alloc, self.plan.test, script, first, self.plan.budget)?;
        Ok(tester)
    }
}

/// The bytes that came behind a head of this length.
fn bytes_behind(alloc: Global, bytes: &[u8], used: usize) -> Result<Vec<u8>, NoMemory>
    requires { used ≤ length bytes.now }
    ensures { IfOk result (λ behind. behind.items ≡ drop used bytes.now) }
{
    let behind = bytes[used..].to_vec(alloc)?;
    Ok(behind)
}

/// Why an answer is to be refused that began with these bytes.
pub fn refusal_of(bytes: &[u8], fault: HeadFault) -> HeadRefusal
    ensures fault { result.fault ≡ fault }
    ensures status { MatchOption result.status (LacksStatusCode bytes.now) (HasStatusCode bytes.now) }
{
    HeadRefusal {
        fault,
        status: status_of(bytes),
    }
}

impl Machine for ProbeMachine<'_> {
    ghost use Rattle.ws_handshake.specs.Probes.{ProbeGives, WasProbed, probe_left, wanted_of};

    type End = Probe;

    ghost agrees = { λ start now told. WasProbed start now told };

    ghost wants = { λ now. wanted_of now };

    ghost left = { λ now. probe_left now };

    ghost gives = { λ start told probe. ProbeGives start told probe };

    fn to_write(&self) -> &[u8] {
        match &self.stage {
            ProbeStage::Opening => self.request.as_slice(),
            ProbeStage::Running(tester) => tester.to_write(),
            ProbeStage::Refused(_) | ProbeStage::Lost => &[],
        }
    }

    fn to_report(&self) -> &[u8] {
        match &self.stage {
            ProbeStage::Running(tester) => tester.to_report(),
            ProbeStage::Opening | ProbeStage::Refused(_) | ProbeStage::Lost => &[],
        }
    }

    fn room(&self) -> usize {
        match &self.stage {
            ProbeStage::Opening if self.request.is_empty() => self.reading.room(),
            ProbeStage::Running(tester) => tester.room(),
            ProbeStage::Opening | ProbeStage::Refused(_) | ProbeStage::Lost => 0,
        }
    }

    fn wants_end(&self) -> bool {
        match &self.stage {
            ProbeStage::Running(tester) => tester.wants_end(),
            ProbeStage::Opening | ProbeStage::Refused(_) | ProbeStage::Lost => false,
        }
    }

    fn waits_anew(&self) -> bool {
        match &self.stage {
            ProbeStage::Running(tester) => tester.waits_anew(),
            ProbeStage::Opening | ProbeStage::Refused(_) | ProbeStage::Lost => true,
        }
    }

    fn is_done(&self) -> bool {
        match &self.stage {
            ProbeStage::Opening => false,
            ProbeStage::Running(tester) => tester.is_done(),
            ProbeStage::Refused(_) | ProbeStage::Lost => true,
        }
    }

    fn on_event(&mut self, event: StreamEvent<'_>) -> Result<(), NoMemory> {
        match &mut self.stage {
            ProbeStage::Opening => self.on_opening(event)?,
            ProbeStage::Running(tester) => tester.on_event(event)?,
            ProbeStage::Refused(_) | ProbeStage::Lost => {}
        }
        Ok(())
    }

    fn into_end(self) -> Result<Probe, NoMemory> {
        let ProbeMachine { stage, .. } = self;
        match stage {
            ProbeStage::Running(tester) => {
                let transcript = tester.into_end()?;
                Ok(Probe::Ran(transcript))
            }
            ProbeStage::Refused(refusal) => Ok(Probe::Refused(refusal)),
            ProbeStage::Lost => Ok(Probe::NoConnection),
            // A machine that reads a head is not done.
            ProbeStage::Opening => unreachable!(),
        }
    }
}
