//! The time that stands before a line.

ghost use Rattle.std.specs.Prelude.{◌≡◌, IfOk, OnOk, true};
ghost use Rattle.wst_noted.specs.TimedLines.{GrowsByTime, IsTime, is_of_time};

use itoa::Buffer;
use std::alloc::{AllocError, Global};
use std::time::Duration;

/// A time as it stands before a line: its seconds with three decimals, and a space.
pub(crate) fn stamp(alloc: Global, time: Duration) -> Result<Vec<u8>, AllocError>
    ensures { IfOk result (λ text. IsTime text.items) }
{
    let mut text = Vec::new(alloc);
    push_stamp(&mut text, time)?;
    Ok(text)
}

/// Puts a time behind what stands in the text.
pub(crate) fn push_stamp(text: &mut Vec<u8>, time: Duration) -> Result<(), AllocError>
    ensures { OnOk result (GrowsByTime text.old.items text.new.items) }
{
    let mut digits = Buffer::new();
    text.extend_from_slice(digits.format(time.as_secs()).as_bytes())?;
    text.push(b'.')?;
    push_decimals(text, time.subsec_millis())?;
    Ok(())
}

/// Puts the last three decimal digits of a number behind what stands in the text, and a space.
fn push_decimals(text: &mut Vec<u8>, number: u32) -> Result<(), AllocError>
    ensures { OnOk result (GrowsByTime text.old.items text.new.items) }
{
    text.push(digit(number / 100))?;
    text.push(digit(number / 10))?;
    text.push(digit(number))?;
    text.push(b' ')?;
    Ok(())
}

/// The last decimal digit of a number.
fn digit(number: u32) -> u8
    ensures { is_of_time result ≡ true }
{
    b'0' + (number % 10) as u8
}
