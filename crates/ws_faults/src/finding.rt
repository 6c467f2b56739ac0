//! The frame whose payload is the first violation of a stream that comes piece by piece.

ghost use Rattle.std.specs.Prelude.{◌≡◌, ◌<◌, ◌≤◌, ◌++◌, [], ℕ, IfOk, List, OnOk, length, take};
ghost use Rattle.ws_wire.specs.declared.role.Role.{Role};
ghost use Rattle.ws_faults.specs.PayloadFaults.{IsMarkOf};
ghost use Rattle.ws_faults.specs.Finding.{HasSearched, fault_after, fault_at, finder_after};

use std::alloc::Global;
use ws_base::NoMemory;
use ws_session::{EventKind, Limits, PayloadRoom, Reason, Session};
use ws_wire::{NO_KEY, Role};

/// Finds the frame whose payload is the first violation of a stream, while the stream comes. Only the bytes of an open
/// message and of the frame under way are kept.
#[derive(Drop)]
pub struct FaultFinder {
    /// The end that takes the stream.
    session: Session,
    /// The rooms for what it tells and puts, which nobody reads.
    told: PayloadRoom,
    put: Vec<u8>,
    /// How many bytes have come.
    place: u64,
    /// Where the frame under way begins.
    after: u64,
    fault: Option<u64>,
}

impl FaultFinder {
    /// Nothing has come of a stream that an end with this role takes.
    pub fn new(alloc: Global, role: Role) -> FaultFinder
        ensures begun { HasSearched role result [] }
    {
        FaultFinder {
            session: Session::new(alloc, role, Limits::largest()),
            told: PayloadRoom::new(alloc),
            put: Vec::new(alloc),
            place: 0,
            after: 0,
            fault: None,
        }
    }

    /// More bytes come.
    pub fn take(&mut self, piece: &[u8]) -> Result<(), NoMemory>
        ensures taken { (role : Role) (bytes : List ℕ) → HasSearched role self.old bytes
            → OnOk result (HasSearched role self.new (bytes ++ piece.now)) }
    {
        let mut rest = piece;
        while !rest.is_empty() {
            let used = self.take_front(rest)?;
            rest = &rest[used..];
        }
        Ok(())
    }

    /// Where the frame begins whose text or close payload is the first violation. None where there is no violation, or
    /// where the header of its frame is one.
    pub fn fault(&self) -> Option<u64>
        ensures found { (role : Role) (bytes : List ℕ) → HasSearched role self.now bytes
            → IsMarkOf role bytes result }
    {
        self.fault
    }

    /// Takes the front of a piece, up to what its session tells next. Answers how many bytes these are.
    fn take_front(&mut self, piece: &[u8]) -> Result<usize, NoMemory>
        requires some { 0 < length piece.now }
        ensures used { IfOk result (λ used. (0 < used) × (used ≤ length piece.now)) }
        ensures taken { (role : Role) (bytes : List ℕ) → HasSearched role self.old bytes
            → IfOk result (λ used. HasSearched role self.new (bytes ++ take used piece.now)) }
    {
        self.put.clear();
        let front = self
            .session
            .take_into(piece, NO_KEY, &mut self.put, &mut self.told)?;
        // There is no room for a greater place, as there is none for a stream of so many bytes.
        let Some(place) = self.place.checked_add(front.used as u64) else {
            return Err(NoMemory);
        };
        self.place = place;
        self.note(front.event);
        Ok(front.used)
    }

    /// This ends with the last byte that has come, if something does.
    fn note(&mut self, event: Option<EventKind>)
        ensures { self.new ≡ finder_after self.old event }
    {
        let Some(event) = event else {
            return;
        };
        self.fault = fault_after(event, self.after, self.fault);
        self.after = self.place;
    }
}

/// The place of the frame that was found, once the frame at `after` has ended so.
fn fault_after(event: EventKind, after: u64, fault: Option<u64>) -> Option<u64>
    ensures { result ≡ fault_after event after fault }
{
    match event {
        EventKind::Failed(reason) => fault_at(reason, after),
        EventKind::Part
        | EventKind::Message(_)
        | EventKind::Ping
        | EventKind::Pong
        | EventKind::Close(_) => fault,
    }
}

/// The place of the frame, if its payload is the violation and not its header.
fn fault_at(reason: Reason, place: u64) -> Option<u64>
    ensures { result ≡ fault_at reason place }
{
    match reason {
        Reason::NotText
        | Reason::TextCut
        | Reason::CloseOneByte
        | Reason::CloseCode
        | Reason::CloseReason => Some(place),
        Reason::ReservedBits
        | Reason::Opcode
        | Reason::MaskWrong
        | Reason::NotShortest
        | Reason::BadLength
        | Reason::ControlCut
        | Reason::ControlLong
        | Reason::NothingToContinue
        | Reason::MessageOpen
        | Reason::TooBig
        | Reason::FrameBig => None,
    }
}
