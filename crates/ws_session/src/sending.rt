//! The message that is open on the sending side (RFC 6455 section 5.4).

ghost use Rattle.std.specs.Prelude.{◌≡◌, ◌↔◌, ◌≤◌, ℕ, List, ◌++◌, length, is_some, if◌then◌else◌, MatchOption};
ghost use Rattle.std.specs.Prelude.{MatchResult, OnOk, Option, None, Some};
ghost use Rattle.ws_text.specs.Stream.{HasReadText};
ghost use Rattle.ws_session.specs.declared.message.Message.{Message};
ghost use Rattle.ws_session.specs.declared.message.Kind.TheVariants as OfKind;
ghost use Rattle.ws_session.specs.Exchange.{IsSendingOf};
ghost use Rattle.ws_session.specs.Sends.{Begin, More, IsNoText};
ghost use Rattle.ws_session.specs.InnerSending.{HasReadSome, IsSentBehind, IsRefusedBehind, IsSentWith};
ghost use Rattle.ws_session.specs.InnerSending.{IsFirstWrongWith};

use crate::limits::MAX_MESSAGE;
use crate::message::Kind;
use crate::send_fault::SendFault;
use std::marker::Model;
use ws_text::Utf8Stream;

/// What is kept of an open message: its size so far, and where it is text the stream that has read it.
#[derive(Clone, Copy)]
enum SentSoFar {
    Text { size: usize, text: Utf8Stream },
    Binary { size: usize },
}

/// The message that is open on the sending side, if there is one. Its payload isn't kept.
#[derive(Drop)]
pub(crate) struct Sending {
    open: Option<SentSoFar>,
}

impl Model for Sending {
    ghost use Rattle.std.specs.Prelude.{Option};
    ghost use Rattle.ws_session.specs.Exchange.{SendingValue};

    ghost Value = { Option SendingValue };

    ghost use Rattle.ws_session.specs.InnerSending.{sending_of, CanGoOn};

    ghost view = { λ s. sending_of s.open };

    ghost invariant = { λ s. CanGoOn s.open };
}

impl Sending {
    /// No message is open.
    pub(crate) fn new() -> Sending
        ensures { result ≡ None }
    {
        Sending { open: None }
    }

    /// The same again.
    pub(crate) fn copy(&self) -> Sending
        ensures { result ≡ self.now }
    {
        Sending { open: self.open }
    }

    /// What is kept once the first frame of a message is sent, or why it isn't sent.
    pub(crate) fn after_first(
        &self,
        kind: Kind,
        payload: &[u8],
        fin: bool,
    ) -> Result<Sending, SendFault>
        ensures short { OnOk result (length payload.now ≤ MAX_MESSAGE) }
        ensures checked { (opened : Option Message) → IsSendingOf opened self.now →
            MatchResult result (λ sending. IsSentWith opened (Begin kind payload.now fin) sending)
            (λ fault. IsFirstWrongWith opened (Begin kind payload.now fin) fault) }
    {
        if self.open.is_some() {
            return Err(SendFault::Busy);
        }
        match kind {
            Kind::Text => after_text(0, Utf8Stream::new(), payload, fin),
            Kind::Binary => after_binary(0, payload, fin),
        }
    }

    /// What is kept once the next frame of the open message is sent, or why it isn't sent.
    pub(crate) fn after_next(&self, payload: &[u8], fin: bool) -> Result<Sending, SendFault>
        ensures short { OnOk result (length payload.now ≤ MAX_MESSAGE) }
        ensures checked { (opened : Option Message) → IsSendingOf opened self.now →
            MatchResult result (λ sending. IsSentWith opened (More payload.now fin) sending)
            (λ fault. IsFirstWrongWith opened (More payload.now fin) fault) }
    {
        match &self.open {
            None => Err(SendFault::NothingOpen),
            Some(SentSoFar::Text { size, text }) => after_text(*size, *text, payload, fin),
            Some(SentSoFar::Binary { size }) => after_binary(*size, payload, fin),
        }
    }
}

/// What is kept of a text after one more payload, or why it isn't sent.
fn after_text(
    size: usize,
    text: Utf8Stream,
    payload: &[u8],
    fin: bool,
) -> Result<Sending, SendFault>
    requires size { size ≤ MAX_MESSAGE }
    requires read { HasReadSome text }
    ensures short { OnOk result (length payload.now ≤ MAX_MESSAGE) }
    ensures checked { (message : Message) → message.kind ≡ OfKind.Text → size ≡ length message.payload →
        HasReadText text message.payload →
        MatchResult result (IsSentBehind message payload.now fin) (IsRefusedBehind message payload.now fin) }
{
    let Some(text) = read(text, payload, fin) else {
        return Err(SendFault::NotText);
    };
    if payload.len() > MAX_MESSAGE as usize - size {
        return Err(SendFault::TooLong);
    }
    if fin {
        return Ok(Sending::new());
    }
    Ok(Sending {
        open: Some(SentSoFar::Text {
            size: size + payload.len(),
            text,
        }),
    })
}

/// The stream after one more payload of a text. `None` where the text can't go on so, or ends inside a
/// character.
fn read(text: Utf8Stream, payload: &[u8], fin: bool) -> Option<Utf8Stream>
    ensures { (before : List ℕ) → HasReadText text before →
        MatchOption result (IsNoText fin (before ++ payload.now))
        (λ new. HasReadText new (before ++ payload.now) × (¬ IsNoText fin (before ++ payload.now))) }
{
    let mut text = text;
    if text.push(payload).is_err() {
        return None;
    }
    if fin && !text.is_whole() {
        return None;
    }
    Some(text)
}

/// What is kept of a binary message after one more payload, or why it isn't sent.
fn after_binary(size: usize, payload: &[u8], fin: bool) -> Result<Sending, SendFault>
    requires { size ≤ MAX_MESSAGE }
    ensures short { OnOk result (length payload.now ≤ MAX_MESSAGE) }
    ensures checked { (message : Message) → message.kind ≡ OfKind.Binary → size ≡ length message.payload →
        MatchResult result (IsSentBehind message payload.now fin) (IsRefusedBehind message payload.now fin) }
{
    if payload.len() > MAX_MESSAGE as usize - size {
        return Err(SendFault::TooLong);
    }
    if fin {
        return Ok(Sending::new());
    }
    Ok(Sending {
        open: Some(SentSoFar::Binary {
            size: size + payload.len(),
        }),
    })
}
