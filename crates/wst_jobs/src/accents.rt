//! Text with accents: letters of one, two and three bytes.

use crate::chance::Chance;
use crate::pool::POOL;
use std::alloc::{AllocError, Global};

/// The bytes of a group of letters: what begins and ends at a multiple of it has whole letters.
pub const GROUP: usize = 12;

/// The bytes of a pool of such text.
pub fn accented(alloc: Global, chance: &mut Chance) -> Result<Vec<u8>, AllocError> {
    let mut bytes = Vec::new(alloc);
    for _ in 0..POOL / GROUP {
        let sizes: &[u8] = match chance.below(4) {
            0 => &[1, 2, 3, 1, 2, 3],
            1 => &[2, 2, 2, 3, 3],
            2 => &[1, 1, 1, 2, 2, 2, 3],
            _ => &[3, 3, 3, 3],
        };
        for size in sizes {
            push_letter(*size, chance, &mut bytes)?;
        }
    }
    Ok(bytes)
}

/// Puts a letter of so many bytes: one of ASCII, one of Western Europe's, or one of Vietnam's.
fn push_letter(size: u8, chance: &mut Chance, out: &mut Vec<u8>) -> Result<(), AllocError> {
    let last = 0x80 + chance.below(64) as u8;
    match size {
        1 => out.push(b'a' + last % 26)?,
        2 => out.extend_from_slice(&[0xc3, last])?,
        _ => out.extend_from_slice(&[0xe1, 0xb8 + chance.below(4) as u8, last])?,
    }
    Ok(())
}
