//! Captures of connections whose masking keys are new for each frame: texts that are sent back, and pings of which some
//! are answered, or all in another order.

use crate::chance::Chance;
use crate::keyed::{Frame, Pools, put_close};
use crate::pool::push_digits;
use std::alloc::{AllocError, Global};
use ws_wire::Role;

/// Which pongs answer the pings of a turn.
#[derive(Clone, Copy)]
pub enum Pongs {
    /// One in ten is left out, but never the last one.
    LeftOut,
    /// All, the newest first.
    Reversed,
    /// That for the newest ping alone.
    Newest,
}

/// A capture in format 2, whose tester's masking key is not known.
#[derive(Drop)]
struct Capture {
    text: Vec<u8>,
    tester: Role,
    tested: Role,
    /// The bytes of the turn under way.
    sent: Vec<u8>,
    got: Vec<u8>,
}

/// The most pings of a turn.
const MANY: u64 = 500;

/// A capture of at least so many pings.
pub fn pings(
    alloc: Global,
    pools: &Pools,
    (tested, pongs): (Role, Pongs),
    count: usize,
    chance: &mut Chance,
) -> Result<Vec<u8>, AllocError> {
    let mut capture = Capture::new(alloc, tested)?;
    let mut turn: Vec<Frame> = Vec::new(alloc);
    let mut sent = 0;
    for _ in 0..count {
        if sent >= count {
            break;
        }
        turn.clear();
        for _ in 0..1 + chance.below(MANY) {
            let ping = Frame::ping(4, chance);
            turn.push(ping)?;
            pools.put(&ping, capture.tester, chance, &mut capture.sent)?;
        }
        sent = turn.len().saturating_add(sent);
        capture.answer(pools, turn.as_slice(), pongs, chance)?;
        capture.end_turn()?;
    }
    capture.end(chance)
}

/// A capture of at least so many bytes of text, in which an echo sends back texts with accents and some binary.
pub fn messages(
    alloc: Global,
    pools: &Pools,
    tested: Role,
    size: usize,
    chance: &mut Chance,
) -> Result<Vec<u8>, AllocError> {
    let mut capture = Capture::new(alloc, tested)?;
    for _ in 0..size {
        if capture.text.len() >= size {
            break;
        }
        for _ in 0..1 + chance.below(40) {
            let frame = match chance.below(5) {
                0 => Frame::binary(chance.below(300), chance),
                _ => Frame::text(chance.below(600), chance),
            };
            pools.put(&frame, capture.tester, chance, &mut capture.sent)?;
            pools.put(&frame, capture.tested, chance, &mut capture.got)?;
        }
        capture.end_turn()?;
    }
    capture.end(chance)
}

impl Capture {
    /// The first lines of a capture.
    fn new(alloc: Global, tested: Role) -> Result<Capture, AllocError> {
        let mut text = Vec::new(alloc);
        text.extend_from_slice(b"wst-capture 2\nkey -\n")?;
        let tester = match tested {
            Role::Client => Role::Server,
            Role::Server => Role::Client,
        };
        Ok(Capture {
            text,
            tester,
            tested,
            sent: Vec::new(alloc),
            got: Vec::new(alloc),
        })
    }

    /// Puts the pongs that answer the pings of a turn.
    fn answer(
        &mut self,
        pools: &Pools,
        turn: &[Frame],
        pongs: Pongs,
        chance: &mut Chance,
    ) -> Result<(), AllocError> {
        let newest = turn.len().saturating_sub(1);
        for place in 0..turn.len() {
            let (ping, is_answered) = match pongs {
                Pongs::LeftOut => (turn[place], place == newest || chance.below(10) > 0),
                Pongs::Reversed => (turn[newest - place], true),
                Pongs::Newest => (turn[place], place == newest),
            };
            if is_answered {
                pools.put(&ping.answer(), self.tested, chance, &mut self.got)?;
            }
        }
        Ok(())
    }

    /// Puts the lines of the turn under way.
    fn end_turn(&mut self) -> Result<(), AllocError> {
        self.text.extend_from_slice(b"turn\n")?;
        put_line(b"> ", &mut self.sent, &mut self.text)?;
        put_line(b"< ", &mut self.got, &mut self.text)
    }

    /// Puts a turn with a close frame and its answer, and the end.
    fn end(mut self, chance: &mut Chance) -> Result<Vec<u8>, AllocError> {
        put_close(self.tester, chance, &mut self.sent)?;
        put_close(self.tested, chance, &mut self.got)?;
        self.end_turn()?;
        self.text.extend_from_slice(b"end peer\n")?;
        Ok(self.text)
    }
}

/// Puts the line of a direction, if it has bytes, and lets them go.
fn put_line(front: &[u8], bytes: &mut Vec<u8>, text: &mut Vec<u8>) -> Result<(), AllocError> {
    if bytes.is_empty() {
        return Ok(());
    }
    text.extend_from_slice(front)?;
    push_digits(text, bytes.as_slice())?;
    text.push(b'\n')?;
    bytes.clear();
    Ok(())
}
