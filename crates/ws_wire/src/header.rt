//! A frame's header (RFC 6455 section 5.2): its fields, and the forms of its length.

ghost use Rattle.std.specs.Prelude.{◌≡◌, ◌<◌, ◌≤◌, ◌^◌, length, MatchOption, IfSome, Some, IsTrue, ◌↔◌};
ghost use Rattle.ws_wire.specs.Header.{CanHold, HeaderFields, IsHeader, IsMaskingKey, IsShortestForm, form_word};
ghost use Rattle.ws_wire.specs.Header.{shortest_form, is_longer_than_needed};
ghost use Rattle.ws_wire.specs.Opcode.{IsOpcode};

use crate::opcode::Opcode;
use std::fmt;
use std::marker::Model;

/// The most that a short form holds.
const MAX_SHORT: u64 = 125;

/// The most that a form of two bytes holds.
const MAX_TWO: u64 = 65535;

/// The most that the reserved bits can be.
const MAX_RSV: u8 = 7;

/// The most that an opcode can be.
const MAX_OPCODE: u8 = 15;

/// How the payload length is written.
#[derive(Clone, Copy)]
pub enum Form {
    /// In the seven bits beside MASK: 0 to 125.
    Short,
    /// In the two bytes that follow: below 2^16.
    Two,
    /// In the eight bytes that follow: below 2^64. The top bit has to be 0 on the wire.
    Eight,
}

impl Form {
    /// Whether the form can hold the length.
    fn holds(self, len: u64) -> bool
        ensures { IsTrue result ↔ CanHold self len }
    {
        match self {
            Form::Short => len <= MAX_SHORT,
            Form::Two => len <= MAX_TWO,
            Form::Eight => true,
        }
    }

    /// The shortest form that holds the length, the only one that section 5.2 allows.
    fn shortest(len: u64) -> Form
        ensures { result ≡ shortest_form len }
    {
        if len <= MAX_SHORT {
            Form::Short
        } else if len <= MAX_TWO {
            Form::Two
        } else {
            Form::Eight
        }
    }

    /// Its word: `short`, `two` or `eight`.
    pub fn word(self) -> &'static str
        ensures word { result.now ≡ form_word self }
        ensures short { length result.now ≤ 5 }
    {
        match self {
            Form::Short => "short",
            Form::Two => "two",
            Form::Eight => "eight",
        }
    }
}

impl fmt::Display for Form {
    ghost output = { λ form. Some (form_word form) };

    fn fmt<W: fmt::Write>(&self, f: &mut fmt::Formatter<W>) -> fmt::Result {
        write!(f, "{}", self.word())
    }
}

/// A frame's header. The reserved bits are at most 7, the opcode is at most 15, and the form can
/// hold the length. The opcode is decoded once, as the header is made.
#[derive(Clone, Copy)]
pub struct Header {
    // in this order no byte is lost before `len`, which stands at a multiple of eight: 24 bytes in all
    fin: bool,
    kind: Opcode,
    key: Option<[u8; 4]>,
    len: u64,
    rsv: u8,
    form: Form,
}

impl Model for Header {
    ghost use Rattle.ws_wire.specs.Header.{HeaderFields, IsHeader};
    ghost use Rattle.ws_wire.specs.Opcode.{IsOpcode, opcode_number, opcode_from_number};

    ghost Value = { HeaderFields };

    ghost view = { λ h. record {
      fin = h.fin;
      rsv = h.rsv;
      opcode = opcode_number h.kind;
      key = h.key;
      len = h.len;
      form = h.form;
    } };

    ghost invariant = { λ h. IsHeader (record {
      fin = h.fin;
      rsv = h.rsv;
      opcode = opcode_number h.kind;
      key = h.key;
      len = h.len;
      form = h.form;
    }) × IsOpcode h.kind (opcode_number h.kind) };

    ghost inverse = { λ h. record {
      fin = h.fin;
      rsv = h.rsv;
      kind = opcode_from_number h.opcode;
      key = h.key;
      len = h.len;
      form = h.form;
    } };
}

impl Header {
    /// The header with these fields. `rsv` is 4 * RSV1 + 2 * RSV2 + RSV3. `None` where it is above
    /// 7, the opcode above 15, or the length more than the form can hold.
    #[inline(always)]
    pub fn new(
        fin: bool,
        rsv: u8,
        opcode: u8,
        key: Option<[u8; 4]>,
        len: u64,
        form: Form,
    ) -> Option<Header>
        ensures made { let header : HeaderFields =
            record { fin = fin; rsv = rsv; opcode = opcode; key = key; len = len; form = form }
            in MatchOption result (¬ (IsHeader header)) (λ h. (h ≡ header) × IsHeader header) }
    {
        if rsv > MAX_RSV || opcode > MAX_OPCODE || !form.holds(len) {
            return None;
        }
        if let Some(bytes) = &key {
            are_bytes(bytes);
        }
        Some(Header {
            fin,
            rsv,
            kind: Opcode::of(opcode),
            key,
            len,
            form,
        })
    }

    /// The header with these fields and the shortest form. `None` where `rsv` is above 7 or the
    /// opcode above 15.
    pub fn shortest(
        fin: bool,
        rsv: u8,
        opcode: u8,
        key: Option<[u8; 4]>,
        len: u64,
    ) -> Option<Header>
        ensures made { let header : HeaderFields =
            record { fin = fin; rsv = rsv; opcode = opcode; key = key; len = len; form = shortest_form len }
            in MatchOption result (¬ (IsHeader header)) (λ h. (h ≡ header) × IsHeader header) }
        ensures shortest { IfSome result (λ h. IsShortestForm h.form len) }
    {
        Header::new(fin, rsv, opcode, key, len, Form::shortest(len))
    }

    /// Whether FIN is set: the frame is the last of its message.
    pub fn fin(&self) -> bool
        ensures { result ≡ self.now.fin }
    {
        self.fin
    }

    /// The reserved bits, 4 * RSV1 + 2 * RSV2 + RSV3.
    pub fn rsv(&self) -> u8
        ensures value { result ≡ self.now.rsv }
        ensures bound { result < 8 }
    {
        self.rsv
    }

    /// The opcode.
    pub fn opcode(&self) -> u8
        ensures value { result ≡ self.now.opcode }
        ensures bound { result < 16 }
    {
        Opcode::number(self.kind)
    }

    /// What the frame is, by its opcode.
    pub fn kind(&self) -> Opcode
        ensures { IsOpcode result self.now.opcode }
    {
        self.kind
    }

    /// The masking key, where MASK is set.
    pub fn key(&self) -> Option<[u8; 4]>
        ensures value { result ≡ self.now.key }
        ensures bytes { IsMaskingKey result }
    {
        self.key
    }

    /// The payload length in bytes.
    pub fn payload_len(&self) -> u64
        ensures value { result ≡ self.now.len }
        ensures bound { CanHold self.now.form result }
    {
        self.len
    }

    /// How the length is written.
    pub fn form(&self) -> Form
        ensures { result ≡ self.now.form }
    {
        self.form
    }

    /// Whether the form is longer than needed, which section 5.2 forbids.
    pub fn is_longer_than_needed(&self) -> bool
        ensures { result ≡ is_longer_than_needed self.now.form self.now.len }
    {
        match self.form {
            Form::Short => false,
            Form::Two => self.len <= MAX_SHORT,
            Form::Eight => self.len <= MAX_TWO,
        }
    }
}

/// Sees that a key is made of bytes.
fn are_bytes(key: &[u8; 4])
    ensures { IsMaskingKey (Some key.now) }
{
    let _ = key[0];
    let _ = key[1];
    let _ = key[2];
    let _ = key[3];
}
