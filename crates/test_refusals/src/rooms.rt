//! What a session asks of the allocator, between requests of a size that nothing else has: `rows/refusals/rooms.py`
//! counts it from outside.

use std::alloc::Global;
use ws_base::NoMemory;
use ws_session::{Kind, Limits, MAX_MESSAGE, PayloadRoom, SendFault, Session};
use ws_wire::{NO_KEY, Role};

/// The size of the requests that part the others.
const MARK: usize = 7_340_033;

/// The payload bytes of the frames that are put, and the most of a message.
const SIZES: [usize; 6] = [0, 1, 125, 126, 65_535, 65_536];

const LIMIT: u32 = 100_000;

/// A text of this many bytes begins, and a byte of it follows that no text has.
const LONG: usize = 50_000;

/// The payload bytes of a message that is lent, more than a room keeps.
const LARGE: usize = 200_000;

/// What happens to a session that lends, and to the rooms.
#[derive(Clone, Copy)]
enum Step {
    /// It takes these bytes, and lends through the one room.
    Lend(&'static [u8]),
    /// The same through the other room.
    LendBeside(&'static [u8]),
    /// The rooms are given back.
    Forget,
    Mark,
}

/// A message whose first fragment is empty comes through a room that served another, and then one whose fragments come
/// through two such rooms.
const FRAGMENTS: [Step; 12] = [
    Step::Mark,
    Step::Lend(b"\x81\x05hello"),
    Step::Lend(b"\x01\x00"),
    Step::Lend(b"\x80\x05hello"),
    Step::Forget,
    Step::Mark,
    Step::Lend(b"\x81\x05hello"),
    Step::LendBeside(b"\x81\x05hello"),
    Step::Lend(b"\x01\x05hello"),
    Step::LendBeside(b"\x80\x05hello"),
    Step::Forget,
    Step::Mark,
];

/// A session that lends, what it put, and two rooms.
#[derive(Drop)]
struct Lender {
    session: Session,
    out: Vec<u8>,
    room: PayloadRoom,
    other: PayloadRoom,
}

impl Lender {
    /// A client whose messages have at most so many bytes.
    fn new(alloc: Global, most: u32) -> Result<Lender, NoMemory> {
        let Some(limits) = Limits::new(most) else {
            return Err(NoMemory);
        };
        Ok(Lender {
            session: Session::new(alloc, Role::Client, limits),
            out: Vec::new(alloc),
            room: PayloadRoom::new(alloc),
            other: PayloadRoom::new(alloc),
        })
    }

    /// Makes a step.
    fn make(&mut self, alloc: Global, step: &Step) -> Result<(), NoMemory> {
        match step {
            Step::Lend(piece) => lend(&mut self.session, piece, &mut self.out, &mut self.room),
            Step::LendBeside(piece) => {
                lend(&mut self.session, piece, &mut self.out, &mut self.other)
            }
            Step::Forget => {
                self.room.forget();
                self.other.forget();
                Ok(())
            }
            Step::Mark => mark(alloc),
        }
    }
}

/// A new session puts a frame of each size, and another one takes a text that isn't over, a fault, and bytes behind it.
pub fn play(alloc: Global) -> Result<(), NoMemory> {
    let Some(limits) = Limits::new(LIMIT) else {
        return Err(NoMemory);
    };
    mark(alloc)?;
    let mut session = Session::new(alloc, Role::Client, limits);
    mark(alloc)?;
    for size in SIZES {
        put_frame(alloc, &mut session, size)?;
    }
    take_to_the_end(alloc, limits)?;
    lend_large_and_small(alloc)?;
    lend_fragments(alloc)
}

/// A session puts a frame of so many bytes.
fn put_frame(alloc: Global, session: &mut Session, size: usize) -> Result<(), NoMemory> {
    let payload = filled(alloc, size)?;
    let mut out = Vec::new(alloc);
    mark(alloc)?;
    let sent = begin(session, payload.as_slice(), &mut out);
    mark(alloc)?;
    sent_or_not(sent)
}

/// A session takes a frame that leaves its message open, and then bytes that are none of a text.
fn take_to_the_end(alloc: Global, limits: Limits) -> Result<(), NoMemory> {
    let mut frame = Vec::from_slice(alloc, b"\x01\x7e\xc3\x50")?;
    let payload = filled(alloc, LONG)?;
    frame.extend_from_slice(payload.as_slice())?;
    let mut out = Vec::new(alloc);
    out.reserve(100)?;
    mark(alloc)?;
    let mut session = Session::new(alloc, Role::Client, limits);
    take_and_mark(alloc, &mut session, frame.as_slice(), &mut out)?;
    take_and_mark(alloc, &mut session, b"\x80\x01\xff", &mut out)?;
    take_and_mark(alloc, &mut session, frame.as_slice(), &mut out)
}

/// A session lends a large message, and then ten small ones; then the room is given back.
fn lend_large_and_small(alloc: Global) -> Result<(), NoMemory> {
    let mut large = Vec::from_slice(alloc, b"\x82\x7f\0\0\0\0\0\x03\x0d\x40")?;
    let payload = filled(alloc, LARGE)?;
    large.extend_from_slice(payload.as_slice())?;
    let mut lender = Lender::new(alloc, MAX_MESSAGE)?;
    mark(alloc)?;
    lend(
        &mut lender.session,
        large.as_slice(),
        &mut lender.out,
        &mut lender.room,
    )?;
    mark(alloc)?;
    for _ in 0..10 {
        lender.make(alloc, &Step::Lend(b"\x81\x05hello"))?;
    }
    for step in [Step::Mark, Step::Forget, Step::Mark] {
        lender.make(alloc, &step)?;
    }
    Ok(())
}

/// A session lends messages in fragments; each time the rooms are given back.
fn lend_fragments(alloc: Global) -> Result<(), NoMemory> {
    let mut lender = Lender::new(alloc, LIMIT)?;
    for step in FRAGMENTS {
        lender.make(alloc, &step)?;
    }
    Ok(())
}

/// One send.
fn begin(session: &mut Session, payload: &[u8], out: &mut Vec<u8>) -> Result<(), SendFault> {
    session.begin(Kind::Binary, payload, true, NO_KEY, out)
}

/// One call that takes bytes.
fn take_and_mark(
    alloc: Global,
    session: &mut Session,
    piece: &[u8],
    out: &mut Vec<u8>,
) -> Result<(), NoMemory> {
    let _ = session.take(piece, NO_KEY, out)?;
    mark(alloc)
}

/// One call that takes bytes, and lends what it read in a room.
fn lend(
    session: &mut Session,
    piece: &[u8],
    out: &mut Vec<u8>,
    room: &mut PayloadRoom,
) -> Result<(), NoMemory> {
    let _ = session.take_into(piece, NO_KEY, out, room)?;
    Ok(())
}

/// A request of a size that nothing else has.
fn mark(alloc: Global) -> Result<(), NoMemory> {
    let mut room: Vec<u8> = Vec::new(alloc);
    room.reserve_exact(MARK)?;
    Ok(())
}

/// A send that lacks memory ends the list.
fn sent_or_not(sent: Result<(), SendFault>) -> Result<(), NoMemory> {
    match sent {
        Ok(()) => Ok(()),
        Err(_) => Err(NoMemory),
    }
}

/// So many bytes of a text.
fn filled(alloc: Global, size: usize) -> Result<Vec<u8>, NoMemory> {
    let mut bytes = Vec::new(alloc);
    bytes.resize(size, b'a')?;
    Ok(bytes)
}
