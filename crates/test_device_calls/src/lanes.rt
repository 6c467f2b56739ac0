//! Rows of masking by lanes beside masking byte by byte.

ghost use Rattle.std.specs.Prelude.{◌≤◌, ◌+◌};

use test_row_frames::{RowFault, number_of, put, put_number};
use ws_wire::{mask, mask_plainly};

const KEY: [u8; 4] = [0x37, 0xfa, 0x21, 0x3d];

/// The longest part that is masked.
const MOST: usize = 200;

/// One place of a vector, and each place after it until the next vector's.
const STARTS: usize = 32;

/// `lanes PHASE START`: how many parts, of all lengths to 200 bytes, that begin so far in a buffer, are masked by lanes
/// from this phase as byte by byte.
pub fn compare_lanes(words: &[&str], out: &mut String) -> Result<(), RowFault> {
    let [phase, start] = words else {
        return Err(RowFault::NotARow);
    };
    let (phase, start) = (number_of(phase)?, number_of(start)?);
    if phase > 3 || start >= STARTS as u64 {
        return Err(RowFault::NotARow);
    }
    put_number(out, "", alike_parts(phase as usize, start as usize))?;
    put(out, " alike")
}

/// How many parts of a buffer are masked alike.
fn alike_parts(phase: usize, start: usize) -> u64
    requires phase { phase ≤ 3 }
    requires start { start ≤ 31 }
{
    let mut alike: u64 = 0;
    for len in 0..=MOST {
        if is_alike(phase, start, len) {
            alike = alike.saturating_add(1);
        }
    }
    alike
}

/// Bytes of which no two neighbours are alike.
fn buffer() -> [u8; MOST + STARTS] {
    let mut bytes = [0; MOST + STARTS];
    for (i, byte) in bytes.iter_mut().enumerate() {
        *byte = (i % 251) as u8;
    }
    bytes
}

/// Masks a part of a buffer both ways, and compares the two buffers.
fn is_alike(phase: usize, start: usize, len: usize) -> bool
    requires phase { phase ≤ 3 }
    requires part { start + len ≤ 232 }
{
    let mut by_lanes = buffer();
    let mut by_bytes = buffer();
    mask(KEY, phase, &mut by_lanes[start..start + len]);
    mask_plainly(KEY, phase, &mut by_bytes[start..start + len]);
    by_lanes.as_slice() == by_bytes.as_slice()
}
