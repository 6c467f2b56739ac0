//! A frame that an endpoint is asked to send, with its masking key, and the words of a script that tell it.

ghost use Rattle.std.specs.Prelude.{◌≡◌, map};
ghost use Rattle.ws_formats.specs.Reading.{Reads};
ghost use Rattle.ws_base.specs.Finding.{Finds};
ghost use Rattle.ws_session.specs.Sends.{send_of};
ghost use Rattle.ws_sends.specs.KeyedSends.{AreSendWords, IsSendOf, key_in, send_in, send_name_word};
ghost use Rattle.ws_sends.specs.declared.keyed_send.SendName.TheVariants.{Begin, More, Ping, Pong, Close};

use std::alloc::Global;
use ws_base::{LineFault, Payload};
use ws_formats::{read_close, read_fin, read_hex, read_key_or_dash};
use ws_session::{Kind, Outgoing};

/// A frame to send, which owns its bytes. `key` masks what a client puts, and a server uses none (RFC 6455 section
/// 5.3).
#[derive(Drop)]
pub enum KeyedSend {
    /// The first frame of a message, the only one where `fin` is set.
    Begin {
        kind: Kind,
        payload: Payload,
        fin: bool,
        key: [u8; 4],
    },
    /// The next frame of the open message, the last one where `fin` is set.
    More {
        payload: Payload,
        fin: bool,
        key: [u8; 4],
    },
    Ping {
        payload: Payload,
        key: [u8; 4],
    },
    Pong {
        payload: Payload,
        key: [u8; 4],
    },
    /// A close frame, with a code and a reason or empty.
    Close {
        given: Option<(u16, String)>,
        key: [u8; 4],
    },
}

impl KeyedSend {
    /// The frame, as a session is asked to send it.
    pub fn outgoing(&self) -> Outgoing<'_>
        ensures { send_of result ≡ send_in self.now }
    {
        match self {
            KeyedSend::Begin {
                kind,
                payload,
                fin,
                ..
            } => Outgoing::Begin {
                kind: *kind,
                payload: payload.as_slice(),
                fin: *fin,
            },
            KeyedSend::More { payload, fin, .. } => Outgoing::More {
                payload: payload.as_slice(),
                fin: *fin,
            },
            KeyedSend::Ping { payload, .. } => Outgoing::Ping(payload.as_slice()),
            KeyedSend::Pong { payload, .. } => Outgoing::Pong(payload.as_slice()),
            KeyedSend::Close { given, .. } => Outgoing::close(given),
        }
    }

    /// Its masking key.
    pub fn key(&self) -> [u8; 4]
        ensures { result ≡ key_in self.now }
    {
        match self {
            KeyedSend::Begin { key, .. }
            | KeyedSend::More { key, .. }
            | KeyedSend::Ping { key, .. }
            | KeyedSend::Pong { key, .. }
            | KeyedSend::Close { key, .. } => *key,
        }
    }
}

/// The send that a script tells by its name and the words `fields`: `begin` and `text|binary fin|part HEX KEY`, `more`
/// and `fin|part HEX KEY`, `ping` or `pong` and `HEX KEY`, or `close` and `CODE|none HEX KEY`.
pub fn read_send(alloc: Global, name: &[u8], fields: &[&[u8]]) -> Result<KeyedSend, LineFault>
    ensures { Reads result (λ found. AreSendWords found name.now (map (λ w. w.now) fields.now)) }
{
    let Some(name) = read_name(name) else {
        return Err(LineFault::Damaged);
    };
    let found = read_fields(alloc, name, fields)?;
    Ok(found)
}

/// What the name of a send is.
#[derive(Clone, Copy)]
enum SendName {
    Begin,
    More,
    Ping,
    Pong,
    Close,
}

/// The name of a send.
fn read_name(word: &[u8]) -> Option<SendName>
    ensures { Finds result (λ name. word.now ≡ send_name_word name) }
{
    match word {
        b"begin" => Some(SendName::Begin),
        b"more" => Some(SendName::More),
        b"ping" => Some(SendName::Ping),
        b"pong" => Some(SendName::Pong),
        b"close" => Some(SendName::Close),
        _ => None,
    }
}

/// The send of this name, by the words behind it.
fn read_fields(alloc: Global, name: SendName, fields: &[&[u8]]) -> Result<KeyedSend, LineFault>
    ensures { Reads result (λ found. IsSendOf name found (map (λ w. w.now) fields.now)) }
{
    match name {
        SendName::Begin => read_begin(alloc, fields),
        SendName::More => read_more(alloc, fields),
        SendName::Ping => read_ping(alloc, fields),
        SendName::Pong => read_pong(alloc, fields),
        SendName::Close => read_close_send(alloc, fields),
    }
}

fn read_begin(alloc: Global, fields: &[&[u8]]) -> Result<KeyedSend, LineFault>
    ensures { Reads result (λ found. IsSendOf Begin found (map (λ w. w.now) fields.now)) }
{
    let [kind, fin, payload, key] = fields else {
        return Err(LineFault::Damaged);
    };
    let Some(kind) = Kind::from_word(kind) else {
        return Err(LineFault::Damaged);
    };
    let Some(fin) = read_fin(fin) else {
        return Err(LineFault::Damaged);
    };
    let payload = read_hex(alloc, payload)?;
    let Some(key) = read_key_or_dash(key) else {
        return Err(LineFault::Damaged);
    };
    Ok(KeyedSend::Begin {
        kind,
        payload,
        fin,
        key,
    })
}

fn read_more(alloc: Global, fields: &[&[u8]]) -> Result<KeyedSend, LineFault>
    ensures { Reads result (λ found. IsSendOf More found (map (λ w. w.now) fields.now)) }
{
    let [fin, payload, key] = fields else {
        return Err(LineFault::Damaged);
    };
    let Some(fin) = read_fin(fin) else {
        return Err(LineFault::Damaged);
    };
    let payload = read_hex(alloc, payload)?;
    let Some(key) = read_key_or_dash(key) else {
        return Err(LineFault::Damaged);
    };
    Ok(KeyedSend::More { payload, fin, key })
}

fn read_ping(alloc: Global, fields: &[&[u8]]) -> Result<KeyedSend, LineFault>
    ensures { Reads result (λ found. IsSendOf Ping found (map (λ w. w.now) fields.now)) }
{
    let [payload, key] = fields else {
        return Err(LineFault::Damaged);
    };
    let payload = read_hex(alloc, payload)?;
    let Some(key) = read_key_or_dash(key) else {
        return Err(LineFault::Damaged);
    };
    Ok(KeyedSend::Ping { payload, key })
}

fn read_pong(alloc: Global, fields: &[&[u8]]) -> Result<KeyedSend, LineFault>
    ensures { Reads result (λ found. IsSendOf Pong found (map (λ w. w.now) fields.now)) }
{
    let [payload, key] = fields else {
        return Err(LineFault::Damaged);
    };
    let payload = read_hex(alloc, payload)?;
    let Some(key) = read_key_or_dash(key) else {
        return Err(LineFault::Damaged);
    };
    Ok(KeyedSend::Pong { payload, key })
}

fn read_close_send(alloc: Global, fields: &[&[u8]]) -> Result<KeyedSend, LineFault>
    ensures { Reads result (λ found. IsSendOf Close found (map (λ w. w.now) fields.now)) }
{
    let [code, reason, key] = fields else {
        return Err(LineFault::Damaged);
    };
    let given = read_close(alloc, code, reason)?;
    let Some(key) = read_key_or_dash(key) else {
        return Err(LineFault::Damaged);
    };
    Ok(KeyedSend::Close { given, key })
}
