//! The frame that has begun to come and isn't whole (RFC 6455 section 5.2).

ghost use Rattle.std.specs.Prelude.{◌≡◌, ◌^◌, ◌+◌, ◌≤◌, ◌<◌, ◌++◌, [], length, false};
ghost use Rattle.ws_session.specs.declared.receiver.under_way.UnderWay.TheVariants.{Control, Data};
ghost use Rattle.ws_wire.specs.Header.{header_bytes};
ghost use Rattle.ws_session.specs.InnerMasked.{masked_from};
ghost use Rattle.ws_session.specs.InnerReceiving.{came_of, control_payload_of};
ghost use Rattle.ws_session.specs.InnerReceiver.{NotBegun, HasRoom, length_so_far};

use crate::control_payload::Small;
use ws_wire::{Form, Header};

/// What has come of the frame under way.
#[derive(Clone, Copy)]
pub(crate) enum UnderWay {
    /// The bytes of its header so far: at most 13.
    Header(Small),
    /// Its header, and how many bytes of its payload have come. These stand in the assembly, unmasked. The next one is
    /// masked from the phase `came` modulo 4.
    Data { header: Header, came: usize },
    /// Its header, and its payload so far, unmasked.
    Control { header: Header, payload: Small },
}

/// No byte of the next frame has come.
pub(super) fn nothing() -> UnderWay
    ensures { result ≡ NotBegun }
{
    UnderWay::Header(Small::of(&[]))
}

impl UnderWay {
    /// It is over: of the next frame no byte has come. Most came in one piece, and nothing is kept of them.
    pub(super) fn end(&mut self)
        ensures { self.new ≡ NotBegun }
    {
        if self.has_begun() {
            self.clear();
        }
    }

    /// Forgets what is kept. It writes all the room that a control frame has, so it stands apart.
    #[inline(never)]
    fn clear(&mut self)
        ensures { self.new ≡ NotBegun }
    {
        *self = nothing();
    }

    /// So much of the payload of a data frame has come.
    #[inline(never)]
    pub(super) fn begin_data(&mut self, header: &Header, came: usize)
        ensures { self.new ≡ Data header.now came }
    {
        *self = UnderWay::Data {
            header: *header,
            came,
        };
    }

    /// More of the payload of a control frame has come, which isn't whole with it.
    #[inline(never)]
    pub(super) fn go_on_control(&mut self, header: &Header, more: &[u8])
        requires { length (control_payload_of self.old) + length more.now ≤ 125 }
        ensures { self.new ≡ Control header.now (control_payload_of self.old
            ++ masked_from header.now.key (length (control_payload_of self.old)) more.now) }
    {
        if let UnderWay::Control {
            header: same,
            payload,
        } = self
        {
            *same = *header;
            payload.push_masked(header.key(), more);
            return;
        }
        *self = UnderWay::Control {
            header: *header,
            payload: Small::unmasked(header.key(), more),
        };
    }

    /// Whether a byte of it has come.
    pub(super) fn has_begun(&self) -> bool
        ensures { result ≡ false → self.now ≡ NotBegun }
    {
        match self {
            UnderWay::Header(bytes) => !bytes.as_slice().is_empty(),
            UnderWay::Data { .. } | UnderWay::Control { .. } => true,
        }
    }

    /// The payload of a control frame so far.
    pub(super) fn control_payload(&self) -> &[u8]
        ensures bytes { result.now ≡ control_payload_of self.now }
        ensures bound { length result.now ≤ 125 }
    {
        match self {
            UnderWay::Control { payload, .. } => payload.as_slice(),
            UnderWay::Header(_) | UnderWay::Data { .. } => &[],
        }
    }

    /// How many bytes of its payload stand in the assembly.
    pub(super) fn came(&self) -> usize
        ensures { result ≡ came_of self.now }
    {
        match self {
            UnderWay::Data { came, .. } => *came,
            UnderWay::Header(_) | UnderWay::Control { .. } => 0,
        }
    }

    /// How many bytes of the frame have come.
    pub(super) fn len(&self) -> usize
        requires { HasRoom self.now }
        ensures { result ≡ length_so_far self.now }
    {
        match self {
            UnderWay::Header(bytes) => bytes.as_slice().len(),
            UnderWay::Data { header, came } => header_len(header) + *came,
            UnderWay::Control { header, payload } => header_len(header) + payload.as_slice().len(),
        }
    }
}

/// How many bytes the header has (section 5.2).
fn header_len(header: &Header) -> usize
    ensures len { result ≡ length (header_bytes header.now) }
    ensures bound { result ≤ 14 }
{
    let len = match header.form() {
        Form::Short => 2,
        Form::Two => 4,
        Form::Eight => 10,
    };
    if header.key().is_some() { len + 4 } else { len }
}
