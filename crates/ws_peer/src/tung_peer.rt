//! The ported `tungstenite` as a peer: a socket of that crate, which reads and writes two buffers in memory.
//! What it says is the crate's own affair: nothing is claimed of it here.

ghost use Rattle.std.specs.Prelude.{◌≡◌, ◌++◌, IfOk, OnOk, false};
ghost use Rattle.std.specs.Io.{StartsWith};

use crate::peer::{Going, Peer};
use std::alloc::{AllocError, Global};
use std::cell::RefCell;
use std::collections::VecDeque;
use std::io;
use std::io::{ErrorKind, Read, Write};
use std::marker::Model;
use std::rc::Rc;
use tungstenite::{Error, MaskKeys, WebSocket};
use ws_base::NoMemory;
use ws_wire::{NO_KEY, Role};

/// Bytes that the peer and its socket share.
type Shared = Rc<RefCell<VecDeque<u8>>>;

/// A stream in memory: the socket's end of the two buffers.
#[derive(Drop)]
struct Pipe {
    /// What the socket reads.
    input: Shared,
    /// What it wrote.
    output: Shared,
}

impl Read for Pipe {
    /// Reads what is there, and would block where nothing is.
    fn read(&mut self, buf: &mut [u8]) -> io::Result<usize> {
        let Ok(mut input) = self.input.try_borrow_mut() else {
            return Err(in_use());
        };
        if input.is_empty() {
            return Err(io::Error::from(ErrorKind::WouldBlock));
        }
        input.read(buf)
    }
}

impl Write for Pipe {
    fn write(&mut self, buf: &[u8]) -> io::Result<usize> {
        let Ok(mut output) = self.output.try_borrow_mut() else {
            return Err(in_use());
        };
        output.write(buf)
    }

    fn flush(&mut self) -> io::Result<()> {
        Ok(())
    }
}

/// A buffer is lent elsewhere, which never happens.
fn in_use() -> io::Error {
    io::Error::from(ErrorKind::Other)
}

/// The masking key of each frame that a client sends.
#[derive(Drop)]
struct OneKey([u8; 4]);

impl MaskKeys for OneKey {
    fn next_key(&mut self) -> [u8; 4] {
        self.0
    }
}

/// A socket of `tungstenite` that sends each text and each binary message back, over a stream in memory.
#[derive(Drop)]
pub struct TungPeer {
    socket: WebSocket<Pipe, OneKey>,
    input: Shared,
    output: Shared,
    is_spent: bool,
}

impl Model for TungPeer {
    ghost use Rattle.std.specs.Prelude.{Bool};

    ghost Value = { Bool };

    ghost view = { λ p. p.is_spent };
}

impl TungPeer {
    /// A server with which nothing was said yet. Contracts see whether it is spent.
    pub fn new(alloc: Global) -> Result<TungPeer, NoMemory>
        ensures { IfOk result (λ peer. peer ≡ false) }
    {
        let peer = TungPeer::with_role(alloc, Role::Server, NO_KEY)?;
        Ok(peer)
    }

    /// A peer of this role with which nothing was said yet. A client masks each frame that it sends with the key; to a
    /// server the key is nothing (RFC 6455 section 5.1).
    pub fn with_role(alloc: Global, role: Role, key: [u8; 4]) -> Result<TungPeer, NoMemory>
        ensures { IfOk result (λ peer. peer ≡ false) }
    {
        let role = match role {
            Role::Client => tungstenite::Role::Client,
            Role::Server => tungstenite::Role::Server,
        };
        let input = shared(alloc)?;
        let output = shared(alloc)?;
        let pipe = Pipe {
            input: input.clone()?,
            output: output.clone()?,
        };
        Ok(TungPeer {
            socket: WebSocket::from_raw_socket(alloc, pipe, OneKey(key), role, None),
            input,
            output,
            is_spent: false,
        })
    }

    /// Takes a piece, and puts what the socket wrote for it at the end of `out`.
    fn exchange(&mut self, piece: &[u8], out: &mut Vec<u8>) -> Result<Going, NoMemory>
        ensures kept { StartsWith out.new.items out.old.items }
        ensures spent { self.new ≡ self.old }
    {
        if !push(&self.input, piece)? {
            return Ok(Going::Ended);
        }
        let going = echo_all(&mut self.socket)?;
        let Ok(mut output) = self.output.try_borrow_mut() else {
            return Ok(Going::Ended);
        };
        move_all(&mut output, out)?;
        Ok(going)
    }
}

impl Peer for TungPeer {
    ghost use Rattle.std.specs.Prelude.{⊤};

    ghost agrees = { λ _ _ _. ⊤ };

    ghost is_spent = { λ peer. peer };

    fn feed(&mut self, piece: &[u8], out: &mut Vec<u8>) -> Result<Going, NoMemory> {
        if self.is_spent {
            return Err(NoMemory);
        }
        match self.exchange(piece, out) {
            Ok(going) => Ok(going),
            Err(refused) => {
                self.is_spent = true;
                Err(refused)
            }
        }
    }

    fn finish(&mut self, _out: &mut Vec<u8>) -> Result<(), NoMemory> {
        if self.is_spent {
            return Err(NoMemory);
        }
        Ok(())
    }
}

/// A buffer without bytes.
fn shared(alloc: Global) -> Result<Shared, AllocError> {
    Ok(Rc::new(alloc, RefCell::new(VecDeque::new(alloc)))?)
}

/// Puts the piece behind what is there. Answers whether the buffer could be borrowed.
fn push(to: &Shared, piece: &[u8]) -> Result<bool, NoMemory> {
    let Ok(mut buffer) = to.try_borrow_mut() else {
        return Ok(false);
    };
    match buffer.write_all(piece) {
        Ok(()) => Ok(true),
        Err(_) => Err(NoMemory),
    }
}

/// Reads and echoes until the stream has nothing more, or the socket fails.
fn echo_all<S: Read + Write + Drop>(socket: &mut WebSocket<S, OneKey>) -> Result<Going, NoMemory> {
    for _ in 0..u64::MAX {
        match echo_once(socket) {
            Ok(()) => {}
            Err(Error::OutOfMemory) => return Err(NoMemory),
            Err(Error::Io(error)) => {
                return match error.kind() {
                    ErrorKind::WouldBlock => Ok(Going::More),
                    ErrorKind::OutOfMemory => Err(NoMemory),
                    _ => Ok(Going::Ended),
                };
            }
            Err(_) => return Ok(Going::Ended),
        }
    }
    Ok(Going::Ended)
}

/// Reads a message, and sends it back where it is a text or a binary one.
fn echo_once<S: Read + Write + Drop>(socket: &mut WebSocket<S, OneKey>) -> Result<(), Error> {
    let message = socket.read()?;
    if message.is_text() || message.is_binary() {
        socket.send(message)
    } else {
        Ok(())
    }
}

/// Moves all bytes to the end of `to`.
fn move_all(from: &mut VecDeque<u8>, to: &mut Vec<u8>) -> Result<(), NoMemory>
    ensures moved { OnOk result (to.new.items ≡ to.old.items ++ from.old.items) }
    ensures kept { StartsWith to.new.items to.old.items }
{
    let (front, back) = from.as_slices();
    to.extend_from_slice(front)?;
    to.extend_from_slice(back)?;
    from.clear();
    Ok(())
}
