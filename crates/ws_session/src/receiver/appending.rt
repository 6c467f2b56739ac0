//! Payload bytes that come are put behind those that are kept, unmasked (RFC 6455 section 5.3).

ghost use Rattle.std.specs.Prelude.{◌≡◌, ◌+◌, ◌++◌, ◌≤◌, ◌<◌, ℕ, List, length, OnOk, OnErr, Some};
ghost use Rattle.std.specs.Prelude.{vec_len, vec_capacity};
ghost use Rattle.ws_wire.specs.Masking.{masked, AreKeyLanes};
ghost use Rattle.ws_session.specs.InnerMasked.{masked_from};

use crate::control_payload::unmasked;
use std::simd::u8x16;
use ws_base::NoMemory;
use ws_wire::mask;

/// So many bytes and more are unmasked while they are copied, block by block. What is less is copied first and unmasked
/// where it lies, which takes less time.
const LARGE: usize = 16_384;

/// The bytes of a block: a multiple of the key's four, so that each block begins at the same phase.
const BLOCK: usize = 256;

/// How many bytes of a block are unmasked at once.
const LANES: usize = 16;

/// Puts a part of a payload after other bytes, unmasked. `phase` is the place of its first byte in the payload,
/// modulo 4.
#[inline(always)]
pub(super) fn append_masked(
    kept: &mut Vec<u8>,
    phase: usize,
    key: Option<[u8; 4]>,
    bytes: &[u8],
) -> Result<(), NoMemory>
    requires { phase ≤ 3 }
    ensures put { OnOk result (kept.new.items ≡ kept.old.items ++ masked_from key phase bytes.now) }
    ensures kept { OnErr result (kept.new.items ≡ kept.old.items) }
    ensures wants { OnErr result (0 < length bytes.now) }
{
    if let [byte] = bytes {
        kept.push(unmasked(key, phase, *byte))?;
        return Ok(());
    }
    if let Some(key) = key
        && bytes.len() >= LARGE
    {
        return append_blocks(kept, phase, key, bytes);
    }
    append_then_mask(kept, phase, key, bytes)
}

/// The same: they are copied first, and unmasked where they lie.
#[inline(always)]
fn append_then_mask(
    kept: &mut Vec<u8>,
    phase: usize,
    key: Option<[u8; 4]>,
    bytes: &[u8],
) -> Result<(), NoMemory>
    requires { phase ≤ 3 }
    ensures put { OnOk result (kept.new.items ≡ kept.old.items ++ masked_from key phase bytes.now) }
    ensures kept { OnErr result (kept.new.items ≡ kept.old.items) }
    ensures full { OnErr result (vec_capacity kept.old < vec_len kept.old + length bytes.now) }
{
    let from = kept.len();
    kept.extend_from_slice(bytes)?;
    if let Some(key) = key {
        mask(key, phase, &mut kept[from..]);
    }
    Ok(())
}

/// The same, block by block. Memory is requested once, before the first.
#[inline(never)]
fn append_blocks(
    kept: &mut Vec<u8>,
    phase: usize,
    key: [u8; 4],
    bytes: &[u8],
) -> Result<(), NoMemory>
    requires { phase ≤ 3 }
    ensures put { OnOk result (kept.new.items ≡ kept.old.items ++ masked_from (Some key) phase bytes.now) }
    ensures kept { OnErr result (kept.new.items ≡ kept.old.items) }
    ensures wants { OnErr result (0 < length bytes.now) }
{
    kept.reserve(bytes.len())?;
    let lanes = key_lanes(key, phase);
    let mut at = 0;
    while bytes.len() - at >= BLOCK {
        append_block(kept, lanes, &bytes[at..at + BLOCK])?;
        at += BLOCK;
    }
    append_then_mask(kept, phase, Some(key), &bytes[at..])?;
    Ok(())
}

/// Puts a block after other bytes, unmasked.
#[inline(always)]
fn append_block(kept: &mut Vec<u8>, lanes: u8x16, bytes: &[u8]) -> Result<(), NoMemory>
    requires lanes { length lanes ≡ 16 }
    requires block { length bytes.now ≡ 256 }
    ensures put { OnOk result ((key : List ℕ) (phase : ℕ) → AreKeyLanes key phase lanes →
        kept.new.items ≡ kept.old.items ++ masked key phase bytes.now) }
    ensures len { OnOk result (vec_len kept.new ≡ vec_len kept.old + 256) }
    ensures capacity { vec_capacity kept.old ≤ vec_capacity kept.new }
    ensures full { OnErr result (vec_capacity kept.old < vec_len kept.old + 256) }
{
    let mut block = [0; BLOCK];
    block.copy_from_slice(bytes);
    mask_block(lanes, &mut block);
    kept.extend_from_slice(&block)?;
    Ok(())
}

/// Masks a block.
#[inline(always)]
fn mask_block(lanes: u8x16, block: &mut [u8])
    requires lanes { length lanes ≡ 16 }
    requires block { length block.old ≡ 256 }
    ensures { (key : List ℕ) (phase : ℕ) → AreKeyLanes key phase lanes → block.new ≡ masked key phase block.old }
{
    let mut at = 0;
    while at < BLOCK {
        mask_lanes(lanes, &mut block[at..at + LANES]);
        at += LANES;
    }
}

/// Masks as many bytes as the lanes are.
#[inline(always)]
fn mask_lanes(lanes: u8x16, bytes: &mut [u8])
    requires lanes { length lanes ≡ 16 }
    requires bytes { length bytes.old ≡ 16 }
    ensures { (key : List ℕ) (phase : ℕ) → AreKeyLanes key phase lanes → bytes.new ≡ masked key phase bytes.old }
{
    let masked = u8x16::from_slice(bytes) ^ lanes;
    masked.copy_to_slice(bytes);
}

/// The key's bytes over the lanes of a vector, from this phase on: zeros, masked.
fn key_lanes(key: [u8; 4], phase: usize) -> u8x16
    requires { phase ≤ 3 }
    ensures len { length result ≡ 16 }
    ensures lanes { AreKeyLanes key phase result }
{
    let mut lanes = [0; LANES];
    mask(key, phase, &mut lanes);
    u8x16::from_array(lanes)
}
