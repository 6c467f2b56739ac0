//! What a frame is, by the opcode of its header (RFC 6455 section 5.2).

ghost use Rattle.std.specs.Prelude.{◌≡◌};
ghost use Rattle.ws_wire.specs.Opcode.{IsOpcode, opcode_number};

/// What a frame is. The wire has the number, and all that compares opcodes this.
#[derive(Clone, Copy)]
pub enum Opcode {
    /// The next frame of the open message.
    Continuation,
    /// The first frame of a text message.
    Text,
    /// The first frame of a binary message.
    Binary,
    Close,
    Ping,
    Pong,
    /// One of the other numbers, which are reserved: of a header 3 to 7 or 11 to 15.
    Reserved(u8),
}

impl Opcode {
    /// What the number of a header says, which is at most 15.
    pub fn of(number: u8) -> Opcode
        ensures { IsOpcode result number }
    {
        match number {
            0 => Opcode::Continuation,
            1 => Opcode::Text,
            2 => Opcode::Binary,
            8 => Opcode::Close,
            9 => Opcode::Ping,
            10 => Opcode::Pong,
            other => Opcode::Reserved(other),
        }
    }

    /// Its number.
    pub(crate) fn number(self) -> u8
        ensures { result ≡ opcode_number self }
    {
        match self {
            Opcode::Continuation => 0,
            Opcode::Text => 1,
            Opcode::Binary => 2,
            Opcode::Close => 8,
            Opcode::Ping => 9,
            Opcode::Pong => 10,
            Opcode::Reserved(other) => other,
        }
    }
}
