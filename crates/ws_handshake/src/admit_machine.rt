//! The opening handshake of a server, as a machine (RFC 6455 section 4.2): the request is read and answered, and what
//! it asks for is handed back.

ghost use Rattle.std.specs.Prelude.{◌≡◌, ◌<◌, ◌≤◌, ◌++◌, [], None, IfOk, OnOk, length, map};
ghost use Rattle.ws_machines.specs.Machines.{HasNext, MayBeTold};
ghost use Rattle.ws_upgrade.specs.Protocols.{AreOffers};
ghost use Rattle.ws_upgrade.specs.Reading.{max_head};
ghost use Rattle.ws_handshake.specs.Admissions.{IsAnswerTo, WasAdmitted, most_bytes, wanted_to_admit};
ghost use Rattle.ws_handshake.specs.InnerAdmissions.{AnswersOn, BreaksAdmission, ReadsRequestOn, ReadsRequestTo};
ghost use Rattle.ws_handshake.specs.Requests.{DecidesRequest};

use crate::admission::{Admission, request_in};
use crate::head_reading::{DecidedHead, HeadReading};
use crate::pending::Pending;
use crate::request_head::{RequestDecision, RequestHead};
use std::alloc::Global;
use std::marker::Model;
use ws_base::NoMemory;
use ws_machines::{Machine, StreamEvent};
use ws_upgrade::refusal;

/// Reads the head of a request, no further than it takes: at most 1024 bytes at once, at most 8192 in all. Then it
/// writes the response, or the refusal. The response names the first subprotocol that the request offers and that is
/// known.
#[derive(Drop)]
pub struct AdmitMachine<'a> {
    alloc: Global,
    known: &'a [&'a [u8]],
    reading: HeadReading,
    answer: Pending,
    outcome: Option<Admission>,
}

impl<'a> Model for AdmitMachine<'a> {
    ghost use Rattle.std.specs.Prelude.{◌<◌, length, map};
    ghost use Rattle.ws_upgrade.specs.Protocols.{AreOffers};
    ghost use Rattle.ws_upgrade.specs.Reading.{max_head};
    ghost use Rattle.ws_handshake.specs.Admissions.{AdmitValue};

    ghost Value = { AdmitValue };

    ghost view = { λ x. record {
      known = map (λ name. name.now) x.known.now;
      read = x.reading;
      rest = x.answer;
      outcome = x.outcome;
    } };

    ghost invariant = { λ x. (length x.reading < max_head) × AreOffers (map (λ name. name.now) x.known.now) };
}

impl<'a> AdmitMachine<'a> {
    /// Is to read a request, where these subprotocols are known. Nothing was told yet.
    pub fn new(alloc: Global, known: &'a [&'a [u8]]) -> AdmitMachine<'a>
        requires { AreOffers (map (λ name. name.now) known.now) }
        ensures known { result.known ≡ map (λ name. name.now) known.now }
        ensures outcome { result.outcome ≡ None }
        ensures told { WasAdmitted result result [] }
        ensures goes_on { HasNext (wanted_to_admit result) }
    {
        AdmitMachine {
            alloc,
            known,
            reading: HeadReading::new(alloc),
            answer: Pending::new(Vec::new(alloc)),
            outcome: None,
        }
    }

    /// Something happened before the head of the request is decided.
    fn on_reading(&mut self, event: StreamEvent<'_>) -> Result<(), NoMemory>
        requires told { MayBeTold (wanted_to_admit self.old) event }
        requires reading { self.old.outcome ≡ None }
        ensures reads { OnOk result (ReadsRequestOn self.old event.entry self.new) }
        ensures bound { OnOk result (length self.new.read < max_head) }
    {
        match event {
            StreamEvent::Came(piece) => {
                self.on_came(piece)?;
                Ok(())
            }
            StreamEvent::Ended
            | StreamEvent::ReadFailed
            | StreamEvent::NothingCame
            | StreamEvent::DeadlinePassed(_) => {
                self.outcome = Some(Admission::Lost);
                Ok(())
            }
            StreamEvent::Taken(_)
            | StreamEvent::WriteFailed
            | StreamEvent::DirectionEnded
            | StreamEvent::Reported => Ok(()),
        }
    }

    /// These bytes of the request came.
    fn on_came(&mut self, piece: &[u8]) -> Result<(), NoMemory>
        requires reading { self.old.outcome ≡ None }
        ensures reads { OnOk result (ReadsRequestTo (self.old.read ++ piece.now) self.old self.new) }
        ensures bound { OnOk result (length self.new.read < max_head) }
    {
        let decider = RequestHead { known: self.known };
        match self.reading.on_came(piece, &decider)? {
            None => Ok(()),
            Some(head) => {
                let (answer, admission) = self.answer_to(&head)?;
                self.answer = Pending::new(answer);
                self.outcome = Some(admission);
                Ok(())
            }
        }
    }

    /// The answer to a head that is decided, and what comes of it where all of that is taken.
    fn answer_to(
        &self,
        head: &DecidedHead<RequestDecision>,
    ) -> Result<(Vec<u8>, Admission), NoMemory>
        requires { DecidesRequest self.now.known head.now.bytes.items head.now.decision }
        ensures answers { IfOk result (λ answer.
            IsAnswerTo self.now.known answer.0.items head.now.bytes.items answer.1) }
        ensures fits { IfOk result (λ answer. length answer.0.items ≤ most_bytes) }
    {
        let bytes = head.bytes.as_slice();
        match head.decision {
            RequestDecision::Accepted { .. } => {
                let (response, request) = request_in(self.alloc, self.known, bytes)?;
                Ok((response, Admission::Accepted(request)))
            }
            RequestDecision::Refused(fault) => {
                let text = refusal(fault).to_vec(self.alloc)?;
                Ok((text, Admission::Refused(fault)))
            }
        }
    }

    /// Something happened while the answer is written.
    fn on_answering(&mut self, event: StreamEvent<'_>)
        requires { MayBeTold (wanted_to_admit self.old) event }
        ensures { AnswersOn self.old event.entry self.new }
    {
        match event {
            StreamEvent::Taken(count) => self.answer.take(count),
            StreamEvent::WriteFailed | StreamEvent::DeadlinePassed(_) => self.break_off(),
            StreamEvent::Came(_)
            | StreamEvent::Ended
            | StreamEvent::ReadFailed
            | StreamEvent::NothingCame
            | StreamEvent::DirectionEnded
            | StreamEvent::Reported => {}
        }
    }

    /// Nothing more of the answer is written. A request whose response isn't whole is lost.
    fn break_off(&mut self)
        ensures { BreaksAdmission self.old self.new }
    {
        self.answer.stop();
        if let Some(Admission::Accepted(_)) = &self.outcome {
            self.outcome = Some(Admission::Lost);
        }
    }
}

impl Machine for AdmitMachine<'_> {
    ghost use Rattle.ws_handshake.specs.Admissions.{AdmitGives, WasAdmitted, admit_left, wanted_to_admit};

    type End = Admission;

    ghost agrees = { λ start now told. WasAdmitted start now told };

    ghost wants = { λ now. wanted_to_admit now };

    ghost left = { λ now. admit_left now };

    ghost gives = { λ start told admission. AdmitGives start told admission };

    fn to_write(&self) -> &[u8] {
        match &self.outcome {
            Some(_) => self.answer.as_slice(),
            None => &[],
        }
    }

    fn to_report(&self) -> &[u8] {
        &[]
    }

    fn room(&self) -> usize {
        match &self.outcome {
            Some(_) => 0,
            None => self.reading.room(),
        }
    }

    fn wants_end(&self) -> bool {
        false
    }

    fn waits_anew(&self) -> bool {
        true
    }

    fn is_done(&self) -> bool {
        self.outcome.is_some() && self.answer.is_empty()
    }

    fn on_event(&mut self, event: StreamEvent<'_>) -> Result<(), NoMemory> {
        match &self.outcome {
            Some(_) => self.on_answering(event),
            None => self.on_reading(event)?,
        }
        Ok(())
    }

    fn into_end(self) -> Result<Admission, NoMemory> {
        let AdmitMachine { outcome, .. } = self;
        match outcome {
            Some(admission) => Ok(admission),
            // A machine that reads a head is not done.
            None => unreachable!(),
        }
    }
}
