//! A client's stream to which at most so many bytes are written at once.

ghost use Rattle.std.specs.Prelude.{◌≡◌, ◌<◌, length};

use ws_loops::{Listener, NonBlocking, TryAccept, TryRead, TryWrite};
use wst_network::{ConnectMiss, SystemListener, SystemStream};

/// A stream of the system to which at most so many bytes are written at once, and at least one.
#[derive(Drop)]
pub struct PieceStream {
    stream: SystemStream,
    piece: usize,
}

impl NonBlocking for PieceStream {
    ghost use Rattle.std.specs.Prelude.{⊤};

    ghost did = { λ old new deeds. ⊤ };

    fn try_read(&mut self, room: &mut [u8]) -> TryRead {
        self.stream.try_read(room)
    }

    fn try_write(&mut self, bytes: &[u8]) -> TryWrite {
        let len = self.piece.max(1).min(bytes.len());
        self.stream.try_write(&bytes[..len])
    }

    fn end_direction(&mut self) {
        self.stream.end_direction();
    }
}

/// A listener of the system, whose clients have such streams.
#[derive(Drop)]
pub struct PieceListener {
    pub listener: SystemListener,
    pub piece: usize,
}

impl Listener for PieceListener {
    ghost use Rattle.std.specs.Prelude.{⊤};

    type Client = PieceStream;

    type Miss = ConnectMiss;

    ghost did = { λ old new deeds. ⊤ };

    fn try_accept(&mut self, at: usize) -> TryAccept<PieceStream, ConnectMiss> {
        match self.listener.try_accept(at) {
            TryAccept::Client(stream) => TryAccept::Client(PieceStream {
                stream,
                piece: self.piece,
            }),
            TryAccept::Lost(why) => TryAccept::Lost(why),
            TryAccept::Failed(why) => TryAccept::Failed(why),
            TryAccept::NotReady => TryAccept::NotReady,
        }
    }
}
