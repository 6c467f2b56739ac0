//! Rows of headers and masking.

use crate::answer_words::{put, put_hex, put_number, put_shown};
use crate::row_fault::RowFault;
use crate::words::{bytes_of, fin_of, header_key_of, mask_key_of, number_of, small_number_of};
use std::alloc::Global;
use ws_wire::{Form, Header, HeaderRead, append_frame, mask, read_header};

/// `header FIN RSV OPCODE KEY LENGTH FORM`: the header with these fields, or `none`.
pub fn make_header(words: &[&str], out: &mut String) -> Result<(), RowFault> {
    let [fin, rsv, opcode, key, len, form] = words else {
        return Err(RowFault::NotARow);
    };
    let made = Header::new(
        fin_of(fin)?,
        small_number_of(rsv)?,
        small_number_of(opcode)?,
        header_key_of(key)?,
        number_of(len)?,
        form_of(form)?,
    );
    put_made(out, &made)
}

/// `shortest FIN RSV OPCODE KEY LENGTH`: the header with these fields in the shortest form, or `none`.
pub fn make_shortest(words: &[&str], out: &mut String) -> Result<(), RowFault> {
    let [fin, rsv, opcode, key, len] = words else {
        return Err(RowFault::NotARow);
    };
    let made = Header::shortest(
        fin_of(fin)?,
        small_number_of(rsv)?,
        small_number_of(opcode)?,
        header_key_of(key)?,
        number_of(len)?,
    );
    put_made(out, &made)
}

/// `read_header BYTES`: `need`, or the header at the front, `got` or `bad_length`, and how many bytes it takes.
pub fn read(alloc: Global, words: &[&str], out: &mut String) -> Result<(), RowFault> {
    let [bytes] = words else {
        return Err(RowFault::NotARow);
    };
    let bytes = bytes_of(alloc, bytes)?;
    match read_header(bytes.as_slice()) {
        HeaderRead::Need => put(out, "need"),
        HeaderRead::Got { header, used } => put_read(out, "got ", used, &header),
        HeaderRead::BadLength { header, used } => put_read(out, "bad_length ", used, &header),
    }
}

/// How many bytes a header takes, behind this word, and the header.
fn put_read(out: &mut String, word: &str, used: usize, header: &Header) -> Result<(), RowFault> {
    put_number(out, word, used as u64)?;
    put(out, " ")?;
    put_header(out, header)
}

/// `mask KEY PHASE BYTES`: the bytes masked from this phase on.
pub fn mask_part(alloc: Global, words: &[&str], out: &mut String) -> Result<(), RowFault> {
    let [key, phase, bytes] = words else {
        return Err(RowFault::NotARow);
    };
    let phase = small_number_of(phase)?;
    let key = mask_key_of(key)?;
    if phase > 3 {
        return Err(RowFault::NotARow);
    }
    let mut bytes = bytes_of(alloc, bytes)?.into_vec();
    mask(key, usize::from(phase), &mut bytes);
    put_hex(out, "", bytes.as_slice())
}

/// `append_frame FIN RSV OPCODE KEY BEFORE PAYLOAD`: what stands in the output after a frame was put behind these
/// bytes.
pub fn append(alloc: Global, words: &[&str], out: &mut String) -> Result<(), RowFault> {
    let [fin, rsv, opcode, key, before, payload] = words else {
        return Err(RowFault::NotARow);
    };
    let payload = bytes_of(alloc, payload)?;
    let mut bytes = bytes_of(alloc, before)?.into_vec();
    let (rsv, opcode) = (small_number_of(rsv)?, small_number_of(opcode)?);
    let len = payload.len() as u64;
    let Some(header) = Header::shortest(fin_of(fin)?, rsv, opcode, header_key_of(key)?, len) else {
        return Err(RowFault::NotARow);
    };
    append_frame(&header, payload.as_slice(), &mut bytes)?;
    put_hex(out, "", bytes.as_slice())
}

/// A form of the length.
fn form_of(word: &str) -> Result<Form, RowFault> {
    match word {
        "short" => Ok(Form::Short),
        "two" => Ok(Form::Two),
        "eight" => Ok(Form::Eight),
        _ => Err(RowFault::NotARow),
    }
}

/// A header that was made, or `none`.
fn put_made(out: &mut String, made: &Option<Header>) -> Result<(), RowFault> {
    match made {
        None => put(out, "none"),
        Some(header) => put_header(out, header),
    }
}

/// The bytes of a header, and its fields. A form that is longer than needed ends in ` !form`.
fn put_header(out: &mut String, header: &Header) -> Result<(), RowFault> {
    put_hex(out, "", header.write().as_slice())?;
    put(out, if header.fin() { " fin" } else { " part" })?;
    put_number(out, " rsv=", u64::from(header.rsv()))?;
    put_number(out, " opcode=", u64::from(header.opcode()))?;
    put_key(out, header.key())?;
    put_number(out, " len=", header.payload_len())?;
    put_shown(out, " ", &header.form())?;
    put(
        out,
        if header.is_longer_than_needed() {
            " !form"
        } else {
            ""
        },
    )
}

/// The masking key of a header, `-` where it has none.
fn put_key(out: &mut String, key: Option<[u8; 4]>) -> Result<(), RowFault> {
    match key {
        None => put(out, " key=-"),
        Some(key) => put_hex(out, " key=", &key),
    }
}
