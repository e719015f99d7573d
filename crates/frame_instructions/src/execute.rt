//! An instruction that touches its own frame alone. After a trap the frame is as it was.

ghost use Rattle.std.specs.Prelude.{◌≡◌, OnErr, IfSome, IfNone, option_map};
ghost use Rattle.frame_instructions.specs.Instructions.{after};
ghost use Rattle.frame_instructions.specs.Completion.{completed};

use crate::arithmetic::{Computed, is_shift};
use crate::control_transfer::{
    if_int, if_ints, if_null, if_references, jump, lookup_switch, table_switch,
};
use crate::load_store::{increment, load, rearrange_stack, store};
use crate::numeric::{
    advance, compare, convert, convert_long, negate_int, negate_long, on_ints, on_longs, push,
    push_number, shift,
};
use crate::operand_kind::OperandKind;
use crate::trap::Trap;
use bytecode::{Conversion, Instruction};
use vm_state::frame::Frame;
use vm_state::value::Value;

/// Executes an instruction, where it is one that touches its own frame alone.
///
/// # Errors
/// `Trap::Fault` where an operand or a local variable is missing or of another kind, or there is no room; `Trap::Raise`
/// of ArithmeticException for a division by zero. Then the frame is as it was.
#[inline(always)]
pub fn execute_local(frame: &mut Frame, instruction: &Instruction) -> Option<Result<(), Trap>>
    ensures gives { after instruction.now frame.old ≡ option_map (λ r. completed r frame.new) result }
    ensures same { IfSome result (λ r. OnErr r (frame.new ≡ frame.old)) }
    ensures none { IfNone result (frame.new ≡ frame.old) }
{
    Some(match instruction {
        Instruction::Nop => {
            advance(frame);
            Ok(())
        }
        Instruction::PushNull => push(frame, Value::Null),
        Instruction::PushInt(number) => push_number(frame, Computed::Int(*number)),
        Instruction::PushLong(number) => push_number(frame, Computed::Long(*number)),
        Instruction::LoadInt(at) => load(frame, OperandKind::Int, *at),
        Instruction::LoadLong(at) => load(frame, OperandKind::Long, *at),
        Instruction::LoadReference(at) => load(frame, OperandKind::Reference, *at),
        Instruction::StoreInt(at) => store(frame, OperandKind::Int, *at),
        Instruction::StoreLong(at) => store(frame, OperandKind::Long, *at),
        Instruction::StoreReference(at) => store(frame, OperandKind::Reference, *at),
        Instruction::Stack(operation) => rearrange_stack(frame, *operation),
        Instruction::CombineInts(operator) => on_ints(frame, *operator),
        Instruction::CombineLongs(operator) if is_shift(*operator) => shift(frame, *operator),
        Instruction::CombineLongs(operator) => on_longs(frame, *operator),
        Instruction::NegateInt => negate_int(frame),
        Instruction::NegateLong => negate_long(frame),
        Instruction::Increment(at, by) => increment(frame, *at, *by),
        Instruction::Convert(Conversion::LongToInt) => convert_long(frame),
        Instruction::Convert(to) => convert(frame, *to),
        Instruction::CompareLongs => compare(frame),
        Instruction::IfInt(by, to) => if_int(frame, *by, *to),
        Instruction::IfInts(by, to) => if_ints(frame, *by, *to),
        Instruction::IfNull(by, to) => if_null(frame, *by, *to),
        Instruction::IfReferences(by, to) => if_references(frame, *by, *to),
        Instruction::Goto(to) => jump(frame, *to),
        Instruction::TableSwitch(switch) => table_switch(frame, switch),
        Instruction::LookupSwitch(switch) => lookup_switch(frame, switch),
        _ => return None,
    })
}
