//! Exception tables.

ghost use Rattle.std.specs.Prelude.{◌≡◌, List};
ghost use Rattle.classfile.specs.Gives.{Gives};
ghost use Rattle.classfile.specs.reading.Repeat.{repeat_at};
ghost use Rattle.classfile.specs.reading.Code.{is_handler, handler_numbers_at, handler_at, exceptions_at};

use crate::constant::Constant;
use crate::fault::ClassFault;
use crate::lookup::is_class_or_none;
use crate::numbers::{room_for, u16_at, u16_pair_at};
use std::alloc::Global;
use std::marker::Model;

/// An entry of an exception table (JVMS 4.7.3). Offsets into the code are in bytes;
/// `end_pc` is exclusive, and `catch_type` is 0 or the index of a Class.
#[derive(Clone, Copy)]
pub struct ExceptionHandler {
    pub start_pc: u16,
    pub end_pc: u16,
    pub handler_pc: u16,
    pub catch_type: u16,
}

/// An exception table, in the file's order.
#[derive(Drop)]
pub struct ExceptionTable {
    items: Vec<ExceptionHandler>,
}

impl Model for ExceptionTable {
    ghost use Rattle.std.specs.Prelude.{List};
    ghost use Rattle.classfile.specs.declared.exceptions.ExceptionHandler.{ExceptionHandler};

    ghost Value = { List ExceptionHandler };

    ghost view = { λ t. t.items.items };
}

impl ExceptionTable {
    /// The handlers as a slice.
    pub fn as_slice(&self) -> &[ExceptionHandler]
        ensures { result.now ≡ self.now }
    {
        &self.items
    }
}

/// Whether a handler's range and its handler lie in code of `code_length` bytes, and its type is a class.
fn is_handler(pool: &[Constant], code_length: usize, handler: &ExceptionHandler) -> bool
    ensures { result ≡ is_handler pool.now code_length handler.now }
{
    handler.start_pc < handler.end_pc
        && usize::from(handler.end_pc) <= code_length
        && usize::from(handler.handler_pc) < code_length
        && is_class_or_none(pool, handler.catch_type)
}

#[tactic(auto, unfolding(crate::specs::reading::Code::handler_numbers_at))]
fn handler_numbers_at(total: usize, bytes: &[u8]) -> Result<(ExceptionHandler, &[u8]), ClassFault>
    ensures { Gives (λ x. (x.0, x.1.now)) result (handler_numbers_at total bytes.now) }
{
    let ((start_pc, end_pc), rest) = u16_pair_at(total, bytes)?;
    let ((handler_pc, catch_type), rest) = u16_pair_at(total, rest)?;
    let handler = ExceptionHandler {
        start_pc,
        end_pc,
        handler_pc,
        catch_type,
    };
    Ok((handler, rest))
}

#[tactic(auto, unfolding(crate::specs::reading::Code::handler_at))]
fn handler_at<'a>(
    pool: &[Constant],
    code_length: usize,
    total: usize,
    bytes: &'a [u8],
) -> Result<(ExceptionHandler, &'a [u8]), ClassFault>
    ensures { Gives (λ x. (x.0, x.1.now)) result (handler_at pool.now code_length total bytes.now) }
{
    let (handler, rest) = handler_numbers_at(total, bytes)?;
    if !is_handler(pool, code_length, &handler) {
        return Err(ClassFault::Index {
            at: total.saturating_sub(bytes.len()),
        });
    }
    Ok((handler, rest))
}

/// The exception table of code of `code_length` bytes.
#[tactic(auto, unfolding(crate::specs::reading::Code::exceptions_at))]
pub(crate) fn exceptions_at<'a>(
    alloc: Global,
    pool: &[Constant],
    code_length: usize,
    total: usize,
    bytes: &'a [u8],
) -> Result<(ExceptionTable, &'a [u8]), ClassFault>
    ensures { Gives (λ x. (x.0, x.1.now)) result (exceptions_at pool.now code_length total bytes.now) }
{
    let (count, rest) = u16_at(total, bytes)?;
    let mut items = Vec::with_capacity(alloc, room_for(count, rest))?;
    let rest = push_handlers_at(pool, code_length, total, count, &mut items, rest)?;
    Ok((ExceptionTable { items }, rest))
}

/// Reads `count` exception table entries after those that stand before.
fn push_handlers_at<'a>(
    pool: &[Constant],
    code_length: usize,
    total: usize,
    count: u16,
    items: &mut Vec<ExceptionHandler>,
    bytes: &'a [u8],
) -> Result<&'a [u8], ClassFault>
    ensures { Gives (λ rest. (items.new.items, rest.now)) result
        (repeat_at (λ earlier. handler_at pool.now code_length total) count items.old.items bytes.now) }
{
    let mut rest = bytes;
    for _index in 0..count {
        let (handler, after) = handler_at(pool, code_length, total, rest)?;
        items.push(handler)?;
        rest = after;
    }
    Ok(rest)
}
