//! What a client sends of its own accord, and takes between that (RFC 6455 sections 5.4 to 5.6). The key is zeros.

use crate::events::{Told, is_told};
use crate::tally::Tally;
use std::alloc::Global;
use ws_base::NoMemory;
use ws_session::{Kind, Limits, SendFault, Session, Status, Taken};
use ws_wire::Role;

const KEY: [u8; 4] = [0; 4];

/// The most payload bytes of a message.
const LIMIT: u32 = 1000;

/// One call.
pub enum Call {
    Begin(Kind, &'static [u8], bool),
    More(&'static [u8], bool),
    Ping(&'static [u8]),
    Pong(&'static [u8]),
    Close(u16),
    Take(&'static [u8]),
}

impl Call {
    fn name(&self) -> &'static str {
        match self {
            Call::Begin(..) => "begin",
            Call::More(..) => "more",
            Call::Ping(_) => "ping",
            Call::Pong(_) => "pong",
            Call::Close(_) => "close",
            Call::Take(_) => "take",
        }
    }
}

/// What a call answers.
pub enum Answer {
    Sent,
    Refused(SendFault),
    /// The piece is used whole, with this event.
    Took(Told),
}

/// What a call has answered.
#[derive(Drop)]
enum Answered {
    Sent,
    Refused(SendFault),
    Took(Taken),
}

/// Calls, each with its answer, and what comes of all.
pub struct List {
    pub calls: &'static [(Call, Answer)],
    pub put: &'static [u8],
    pub status: Status,
}

/// A character in two fragments, and then half of it as a whole message.
pub const TEXT: List = List {
    calls: &[
        (Call::Begin(Kind::Text, b"\xce", false), Answer::Sent),
        (Call::More(b"\xba", true), Answer::Sent),
        (
            Call::Begin(Kind::Text, b"\xce", true),
            Answer::Refused(SendFault::NotText),
        ),
    ],
    put: b"\x01\x81\0\0\0\0\xce\x80\x81\0\0\0\0\xba",
    status: Status::Open,
};

/// Two messages, the second of which the server refuses.
pub const OVERSIZED: List = List {
    calls: &[
        (
            Call::Begin(
                Kind::Binary,
                b"\x00\x01\x02\x03\x04\x05\x06\x07\x08\x09",
                true,
            ),
            Answer::Sent,
        ),
        (
            Call::Begin(
                Kind::Binary,
                b"\x00\x01\x02\x03\x04\x05\x06\x07\x08\x09\x0a",
                true,
            ),
            Answer::Sent,
        ),
        (
            Call::Take(b"\x88\x02\x03\xf1"),
            Answer::Took(Told::Close(1009)),
        ),
        (Call::Ping(b""), Answer::Refused(SendFault::Over)),
    ],
    put: b"\x82\x8a\0\0\0\0\x00\x01\x02\x03\x04\x05\x06\x07\x08\x09\
        \x82\x8b\0\0\0\0\x00\x01\x02\x03\x04\x05\x06\x07\x08\x09\x0a\x88\x82\0\0\0\0\x03\xf1",
    status: Status::Clean(Some(1009)),
};

/// What case 5.19 sends, a pong that nothing asked for, and what an echo sends back.
pub const FRAGMENTS: List = List {
    calls: &[
        (Call::Begin(Kind::Text, b"fragment1", false), Answer::Sent),
        (Call::More(b"fragment2", false), Answer::Sent),
        (Call::Ping(b"ping 1"), Answer::Sent),
        (
            Call::Take(b"\x8a\x06ping 1"),
            Answer::Took(Told::Pong(b"ping 1")),
        ),
        (Call::More(b"fragment3", false), Answer::Sent),
        (Call::More(b"fragment4", false), Answer::Sent),
        (Call::Ping(b"ping 2"), Answer::Sent),
        (Call::More(b"fragment5", true), Answer::Sent),
        (
            Call::Take(b"\x8a\x06ping 2"),
            Answer::Took(Told::Pong(b"ping 2")),
        ),
        (
            Call::Take(b"\x81\x2dfragment1fragment2fragment3fragment4fragment5"),
            Answer::Took(Told::Text(b"fragment1fragment2fragment3fragment4fragment5")),
        ),
        (Call::Pong(b"pong 3"), Answer::Sent),
        (Call::Close(1000), Answer::Sent),
        (
            Call::Take(b"\x88\x02\x03\xe8"),
            Answer::Took(Told::Close(1000)),
        ),
    ],
    put: b"\x01\x89\0\0\0\0fragment1\x00\x89\0\0\0\0fragment2\x89\x86\0\0\0\0ping 1\
        \x00\x89\0\0\0\0fragment3\x00\x89\0\0\0\0fragment4\x89\x86\0\0\0\0ping 2\
        \x80\x89\0\0\0\0fragment5\x8a\x86\0\0\0\0pong 3\x88\x82\0\0\0\0\x03\xe8",
    status: Status::Clean(Some(1000)),
};

/// A session, and what it put.
#[derive(Drop)]
struct Played {
    session: Session,
    out: Vec<u8>,
}

// Each call by a function of its own, which says nothing of it: what is proved of one is small then.
impl Played {
    fn begin(&mut self, kind: Kind, payload: &[u8], fin: bool) -> Result<Answered, NoMemory> {
        sent(self.session.begin(kind, payload, fin, KEY, &mut self.out))
    }

    fn more(&mut self, payload: &[u8], fin: bool) -> Result<Answered, NoMemory> {
        sent(self.session.more(payload, fin, KEY, &mut self.out))
    }

    fn ping(&mut self, payload: &[u8]) -> Result<Answered, NoMemory> {
        sent(self.session.ping(payload, KEY, &mut self.out))
    }

    fn pong(&mut self, payload: &[u8]) -> Result<Answered, NoMemory> {
        sent(self.session.pong(payload, KEY, &mut self.out))
    }

    fn close(&mut self, code: u16) -> Result<Answered, NoMemory> {
        sent(self.session.close(Some((code, "")), KEY, &mut self.out))
    }

    fn take(&mut self, piece: &[u8]) -> Result<Answered, NoMemory> {
        let taken = self.session.take(piece, KEY, &mut self.out)?;
        Ok(Answered::Took(taken))
    }
}

/// Makes the calls of a list at a new client.
pub fn send(alloc: Global, list: &List, tally: &mut Tally) -> Result<(), NoMemory> {
    let Some(limits) = Limits::new(LIMIT) else {
        return Err(NoMemory);
    };
    let mut played = Played {
        session: Session::new(alloc, Role::Client, limits),
        out: Vec::new(alloc),
    };
    for (call, answer) in list.calls {
        // No room is left, so that each frame wants memory.
        played.out = Vec::from_slice(alloc, played.out.as_slice())?;
        let answered = make_again(&mut played, call, list.put, tally)?;
        tally.compare(is_answer(&answered, call, answer));
    }
    tally.compare(played.out.as_slice() == list.put);
    tally.compare(played.session.status() == list.status);
    tally.compare(played.session.held() == 0);
    Ok(())
}

/// One call. Where memory runs out nothing has changed, and the same call is made again.
fn make_again(
    played: &mut Played,
    call: &Call,
    put: &[u8],
    tally: &mut Tally,
) -> Result<Answered, NoMemory> {
    tally.call();
    let (status, held, len) = (
        played.session.status(),
        played.session.held(),
        played.out.len(),
    );
    match make(played, call) {
        Ok(answered) => return Ok(answered),
        Err(NoMemory) => tally.refuse(call.name()),
    }
    tally.compare(played.session.status() == status);
    tally.compare(played.session.held() == held);
    tally.compare(played.out.len() == len && put.starts_with(played.out.as_slice()));
    make(played, call)
}

/// Makes one call once.
fn make(played: &mut Played, call: &Call) -> Result<Answered, NoMemory> {
    match call {
        Call::Begin(kind, payload, fin) => played.begin(*kind, payload, *fin),
        Call::More(payload, fin) => played.more(payload, *fin),
        Call::Ping(payload) => played.ping(payload),
        Call::Pong(payload) => played.pong(payload),
        Call::Close(code) => played.close(*code),
        Call::Take(piece) => played.take(piece),
    }
}

/// What a send answered, where it isn't want of memory.
fn sent(answer: Result<(), SendFault>) -> Result<Answered, NoMemory> {
    match answer {
        Ok(()) => Ok(Answered::Sent),
        Err(SendFault::NoMemory) => Err(NoMemory),
        Err(fault) => Ok(Answered::Refused(fault)),
    }
}

/// Whether a call answered as a list says.
fn is_answer(answered: &Answered, call: &Call, answer: &Answer) -> bool {
    match (answered, answer) {
        (Answered::Sent, Answer::Sent) => true,
        (Answered::Refused(got), Answer::Refused(fault)) => *got == *fault,
        (Answered::Took(taken), Answer::Took(told)) => {
            is_whole(taken, call)
                && taken
                    .event
                    .as_ref()
                    .is_some_and(|event| is_told(event, told))
        }
        _ => false,
    }
}

/// Whether a piece was used whole.
fn is_whole(taken: &Taken, call: &Call) -> bool {
    match call {
        Call::Take(piece) => taken.used == piece.len(),
        _ => false,
    }
}
