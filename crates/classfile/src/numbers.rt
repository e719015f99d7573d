//! Numbers and runs of bytes at the front of what is left of a file of `total` bytes.

ghost use Rattle.std.specs.Prelude.{◌≡◌, ◌≤◌};
ghost use Rattle.std.specs.Int.{w8, w16, w32};
ghost use Rattle.classfile.specs.Gives.{Gives};
ghost use Rattle.classfile.specs.reading.Numbers.{number_at, run_at};
ghost use Rattle.classfile.specs.reading.Class.{pair_at};

use crate::fault::ClassFault;
use byteorder::{BigEndian, ByteOrder};

pub(crate) fn u8_at(total: usize, bytes: &[u8]) -> Result<(u8, &[u8]), ClassFault>
    ensures { Gives (λ x. (x.0, x.1.now)) result (number_at w8 total bytes.now) }
{
    if bytes.len() < 1 {
        return Err(ClassFault::Truncated {
            at: total.saturating_sub(bytes.len()),
        });
    }
    let (front, rest) = bytes.split_at(1);
    Ok((u8::from_be_bytes([front[0]]), rest))
}

pub(crate) fn u16_at(total: usize, bytes: &[u8]) -> Result<(u16, &[u8]), ClassFault>
    ensures { Gives (λ x. (x.0, x.1.now)) result (number_at w16 total bytes.now) }
{
    if bytes.len() < 2 {
        return Err(ClassFault::Truncated {
            at: total.saturating_sub(bytes.len()),
        });
    }
    let (front, rest) = bytes.split_at(2);
    Ok((BigEndian::read_u16(front), rest))
}

/// Two numbers of 16 bits.
pub(crate) fn u16_pair_at(total: usize, bytes: &[u8]) -> Result<((u16, u16), &[u8]), ClassFault>
    ensures { Gives (λ x. (x.0, x.1.now)) result (pair_at total bytes.now) }
{
    let (first, rest) = u16_at(total, bytes)?;
    let (second, rest) = u16_at(total, rest)?;
    Ok(((first, second), rest))
}

pub(crate) fn u32_at(total: usize, bytes: &[u8]) -> Result<(u32, &[u8]), ClassFault>
    ensures { Gives (λ x. (x.0, x.1.now)) result (number_at w32 total bytes.now) }
{
    if bytes.len() < 4 {
        return Err(ClassFault::Truncated {
            at: total.saturating_sub(bytes.len()),
        });
    }
    let (front, rest) = bytes.split_at(4);
    Ok((BigEndian::read_u32(front), rest))
}

/// Room for `count` items, and no more than the bytes can hold.
pub(crate) fn room_for(count: u16, bytes: &[u8]) -> usize
    ensures { result ≤ count }
{
    usize::from(count).min(bytes.len())
}

/// The next `count` bytes.
pub(crate) fn run_at(total: usize, count: usize, bytes: &[u8]) -> Result<(&[u8], &[u8]), ClassFault>
    ensures { Gives (λ x. (x.0.now, x.1.now)) result (run_at count total bytes.now) }
{
    if bytes.len() < count {
        return Err(ClassFault::Truncated {
            at: total.saturating_sub(bytes.len()),
        });
    }
    Ok(bytes.split_at(count))
}
