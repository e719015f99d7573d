//! Indices of constants of a kind that is wanted.

ghost use Rattle.std.specs.Prelude.{◌≡◌};
ghost use Rattle.classfile.specs.Gives.{Gives};
ghost use Rattle.classfile.specs.reading.Code.{index_at, is_wanted};

use crate::constant::Constant;
use crate::fault::ClassFault;
use crate::lookup::{has_utf8, is_class, is_class_or_none, is_plain_class};
use crate::numbers::u16_at;

/// What has to stand at an index.
#[derive(Clone, Copy)]
pub(crate) enum WantedConstant {
    Utf8,
    Class,
    /// A Class that is no array.
    PlainClass,
    /// A Class, or nothing at index 0.
    ClassOrNone,
}

/// Whether what is wanted stands at an index.
#[inline(always)]
fn is_wanted(wanted: WantedConstant, pool: &[Constant], index: u16) -> bool
    ensures { result ≡ is_wanted wanted pool.now index }
{
    match wanted {
        WantedConstant::Utf8 => has_utf8(pool, index),
        WantedConstant::Class => is_class(pool, index),
        WantedConstant::PlainClass => is_plain_class(pool, index),
        WantedConstant::ClassOrNone => is_class_or_none(pool, index),
    }
}

/// The index of a constant that is wanted.
#[inline(always)]
pub(crate) fn index_at<'a>(
    wanted: WantedConstant,
    pool: &[Constant],
    total: usize,
    bytes: &'a [u8],
) -> Result<(u16, &'a [u8]), ClassFault>
    ensures { Gives (λ x. (x.0, x.1.now)) result (index_at (is_wanted wanted pool.now) total bytes.now) }
{
    let (index, rest) = u16_at(total, bytes)?;
    if !is_wanted(wanted, pool, index) {
        return Err(ClassFault::Index {
            at: total.saturating_sub(bytes.len()),
        });
    }
    Ok((index, rest))
}
