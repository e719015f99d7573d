//! The attribute Code.

ghost use Rattle.std.specs.Prelude.{◌≡◌, ◌<◌, ◌^◌, IfOk};
ghost use Rattle.classfile.specs.Gives.{Gives};
ghost use Rattle.classfile.specs.reading.Code.{code_length_at, code_bytes_at, code_tables_at, limited_code_at};
ghost use Rattle.classfile.specs.reading.Code.{code_at, whole_code};

use crate::code_bytes::CodeBytes;
use crate::constant::Constant;
use crate::exceptions::{ExceptionTable, exceptions_at};
use crate::fault::ClassFault;
use crate::numbers::{run_at, u16_pair_at, u32_at};
use crate::unread::{UnreadAttributes, unread_attributes_at};
use std::alloc::Global;

/// The code of a method (JVMS 4.7.3): its limits, its bytes, from 1 to 65,535,
/// its exception table, and its own attributes, which are kept unread.
#[derive(Drop)]
pub struct Code {
    pub max_stack: u16,
    pub max_locals: u16,
    pub code: CodeBytes,
    pub exceptions: ExceptionTable,
    pub attributes: UnreadAttributes,
}

#[tactic(auto, unfolding(crate::specs::reading::Code::code_length_at))]
fn code_length_at(total: usize, bytes: &[u8]) -> Result<(u32, &[u8]), ClassFault>
    ensures read { Gives (λ x. (x.0, x.1.now)) result (code_length_at total bytes.now) }
    ensures short { IfOk result (λ x. x.0 < 2 ^ 16) }
{
    let (length, rest) = u32_at(total, bytes)?;
    if length == 0 || 65536 <= length {
        return Err(ClassFault::Index {
            at: total.saturating_sub(bytes.len()),
        });
    }
    Ok((length, rest))
}

#[tactic(auto, unfolding(crate::specs::reading::Code::code_bytes_at))]
fn code_bytes_at(
    alloc: Global,
    total: usize,
    bytes: &[u8],
) -> Result<(CodeBytes, &[u8]), ClassFault>
    ensures { Gives (λ x. (x.0, x.1.now)) result (code_bytes_at total bytes.now) }
{
    let (length, rest) = code_length_at(total, bytes)?;
    let (code, rest) = run_at(total, length as usize, rest)?;
    let code = CodeBytes::copy_of(alloc, code)?;
    Ok((code, rest))
}

/// The tables after code of `code_length` bytes.
#[tactic(auto, unfolding(crate::specs::reading::Code::code_tables_at))]
fn code_tables_at<'a>(
    alloc: Global,
    pool: &[Constant],
    code_length: usize,
    total: usize,
    bytes: &'a [u8],
) -> Result<((ExceptionTable, UnreadAttributes), &'a [u8]), ClassFault>
    ensures { Gives (λ x. ((x.0.0, x.0.1), x.1.now)) result (code_tables_at pool.now code_length total bytes.now) }
{
    let (exceptions, rest) = exceptions_at(alloc, pool, code_length, total, bytes)?;
    let (attributes, rest) = unread_attributes_at(alloc, pool, total, rest)?;
    Ok(((exceptions, attributes), rest))
}

#[tactic(auto, unfolding(crate::specs::reading::Code::code_at, crate::specs::reading::Code::limited_code_at))]
fn code_at<'a>(
    alloc: Global,
    pool: &[Constant],
    total: usize,
    bytes: &'a [u8],
) -> Result<(Code, &'a [u8]), ClassFault>
    ensures { Gives (λ x. (x.0, x.1.now)) result (code_at pool.now total bytes.now) }
{
    let ((max_stack, max_locals), rest) = u16_pair_at(total, bytes)?;
    limited_code_at(alloc, pool, max_stack, max_locals, total, rest)
}

/// What is after the limits of code.
fn limited_code_at<'a>(
    alloc: Global,
    pool: &[Constant],
    max_stack: u16,
    max_locals: u16,
    total: usize,
    bytes: &'a [u8],
) -> Result<(Code, &'a [u8]), ClassFault>
    ensures { Gives (λ x. (x.0, x.1.now)) result (limited_code_at pool.now max_stack max_locals total bytes.now) }
{
    let (code, rest) = code_bytes_at(alloc, total, bytes)?;
    let length = code.as_slice().len();
    let ((exceptions, attributes), rest) = code_tables_at(alloc, pool, length, total, rest)?;
    let code = Code {
        max_stack,
        max_locals,
        code,
        exceptions,
        attributes,
    };
    Ok((code, rest))
}

/// The Code that fills these bytes.
#[tactic(auto, unfolding(crate::specs::reading::Code::whole_code))]
pub(crate) fn whole_code(alloc: Global, pool: &[Constant], bytes: &[u8]) -> Result<Code, ClassFault>
    ensures { Gives (λ c. c) result (whole_code pool.now bytes.now) }
{
    let total = bytes.len();
    let (code, rest) = code_at(alloc, pool, total, bytes)?;
    if !rest.is_empty() {
        return Err(ClassFault::Extra {
            at: total.saturating_sub(rest.len()),
        });
    }
    Ok(code)
}
