//! What an instruction may do beyond its frame, as far as its code says (JVMS 5.5; 6.5).

ghost use Rattle.std.specs.Prelude.{◌≡◌, Some, None, option_copied, is_some};
ghost use Rattle.frame_instructions.specs.Instructions.{local_of};
ghost use Rattle.machine.specs.Operations.{meaning};
ghost use Rattle.use_graph.specs.steps.Deeds.{operation_for};
ghost use Rattle.use_graph.specs.Code.{needed_by, needed_by_call, needed_on_object, callee_of, callee_of_call};
ghost use Rattle.use_graph.specs.Code.{chosen_callee, found_callee, is_print, print_of, print_by, called_print};
ghost use Rattle.use_graph.specs.Code.{written_field, read_field, written_by, read_by, resolved_feature};
ghost use Rattle.use_graph.specs.Code.{feature_on_object, operation_feature, feature_of};

use crate::callee::{Callee, callee_of};
use crate::feature::Feature;
use built_in::method::BuiltInMethod;
use bytecode::{Instruction, Placed};
use hierarchy::member::{Method, Unresolved};
use machine::call_operation::{
    CallOperation, Choice, InstanceCall, has_value, has_values, of_class, of_either, of_interface,
};
use machine::object_operation::ObjectOperation;
use machine::resolved::{Resolved, resolved_operation};
use program::Program;
use program::runtime_constant::{FieldTarget, MethodReference, RuntimeConstant};
use program::signature::Signature;
use vm_state::ends::FaultKind;

/// What an instruction may do beyond its frame.
#[derive(Clone, Copy)]
pub(crate) struct Deed {
    /// Where it begins, in bytes of the method's code.
    pub(crate) pc: u16,
    /// The given class that it needs to be initialized.
    pub(crate) needs: Option<u32>,
    pub(crate) callee: Callee,
    pub(crate) feature: Option<Feature>,
}

/// What an instruction of a method may do.
pub(crate) fn deed_of(program: &Program, class: u32, method: u16, item: &Placed) -> Deed
    ensures pc { result.pc ≡ item.now.pc }
    ensures needs { result.needs ≡ needed_by (operation_for program.now class method item.now.instruction) }
    ensures callee { result.callee ≡ callee_of (operation_for program.now class method item.now.instruction) }
    ensures feature { result.feature ≡ feature_of program.now class method (Some item.now.instruction) }
{
    let instruction = &item.instruction;
    if is_local(instruction) {
        return Deed {
            pc: item.pc,
            needs: None,
            callee: Callee::Nobody,
            feature: None,
        };
    }
    let resolved = resolved_operation(program, class, method, instruction);
    Deed {
        pc: item.pc,
        needs: needed(resolved),
        callee: callee_of(resolved),
        feature: resolved_feature(program, class, instruction).or(operation_feature(resolved)),
    }
}

/// Whether an instruction touches its own frame alone, and names no constant.
fn is_local(instruction: &Instruction) -> bool
    ensures { result ≡ is_some (local_of instruction.now) }
{
    matches!(
        instruction,
        Instruction::Nop
            | Instruction::PushNull
            | Instruction::PushInt(_)
            | Instruction::PushLong(_)
            | Instruction::LoadInt(_)
            | Instruction::LoadLong(_)
            | Instruction::LoadReference(_)
            | Instruction::StoreInt(_)
            | Instruction::StoreLong(_)
            | Instruction::StoreReference(_)
            | Instruction::Stack(_)
            | Instruction::CombineInts(_)
            | Instruction::CombineLongs(_)
            | Instruction::NegateInt
            | Instruction::NegateLong
            | Instruction::Increment(_, _)
            | Instruction::Convert(_)
            | Instruction::CompareLongs
            | Instruction::IfInt(_, _)
            | Instruction::IfInts(_, _)
            | Instruction::IfNull(_, _)
            | Instruction::IfReferences(_, _)
            | Instruction::Goto(_)
            | Instruction::TableSwitch(_)
            | Instruction::LookupSwitch(_)
    )
}

fn needed(resolved: Resolved) -> Option<u32>
    ensures { result ≡ needed_by (meaning resolved) }
{
    match resolved {
        Resolved::GetStatic(class, _) | Resolved::PutStatic(_, class, _) => Some(class),
        Resolved::OnCall(CallOperation::Static(call)) => Some(call.class),
        Resolved::OnObject(ObjectOperation::NewGiven(class)) => Some(class),
        _ => None,
    }
}

fn is_print(member: BuiltInMethod) -> bool
    ensures { result ≡ is_print member }
{
    matches!(
        member,
        BuiltInMethod::Print(_) | BuiltInMethod::PrintLine(_) | BuiltInMethod::EndLine
    )
}

/// Whether a call to what a reference resolves to prints.
fn print_of(target: Result<Method, Unresolved>) -> Option<Feature>
    ensures { result ≡ print_of target }
{
    match target {
        Ok(Method::BuiltIn(member)) if is_print(member) => Some(Feature::Prints),
        _ => None,
    }
}

fn print_by(signature: Option<&Signature>, reference: MethodReference) -> Option<Feature>
    ensures { result ≡ print_by (option_copied signature.entry) reference }
{
    match signature {
        Some(signature) if has_values(signature) => print_of(reference.target),
        _ => None,
    }
}

fn called_print(
    program: &Program,
    class: u32,
    reference: Option<MethodReference>,
) -> Option<Feature>
    ensures { result ≡ called_print program.now class reference }
{
    let reference = reference?;
    print_by(program.signature(class, reference.descriptor), reference)
}

fn written_field(target: Result<FieldTarget, Unresolved>) -> Option<Feature>
    ensures { result ≡ written_field target }
{
    match target {
        Ok(FieldTarget::Static { class, .. } | FieldTarget::Instance { class, .. }) => {
            Some(Feature::Writes(class))
        }
        _ => None,
    }
}

fn read_field(program: &Program, target: Result<FieldTarget, Unresolved>) -> Option<Feature>
    ensures { result ≡ read_field program.now.family target }
{
    match target {
        Ok(
            FieldTarget::Static {
                class,
                is_final,
                ..
            },
        ) if !is_final => Some(Feature::Reads(class)),
        Ok(FieldTarget::Instance { class, index, .. }) if !program.is_final_field(class, index) => {
            Some(Feature::Reads(class))
        }
        _ => None,
    }
}

fn written_by(constant: Option<RuntimeConstant>) -> Option<Feature>
    ensures { result ≡ written_by constant }
{
    match constant {
        Some(RuntimeConstant::Field(kind, target)) if has_value(kind) => written_field(target),
        _ => None,
    }
}

fn read_by(program: &Program, constant: Option<RuntimeConstant>) -> Option<Feature>
    ensures { result ≡ read_by program.now.family constant }
{
    match constant {
        Some(RuntimeConstant::Field(kind, target)) if has_value(kind) => read_field(
            program, target,
        ),
        _ => None,
    }
}

/// What is told by what an instruction's reference resolves to.
fn resolved_feature(program: &Program, class: u32, instruction: &Instruction) -> Option<Feature>
    ensures { result ≡ resolved_feature program.now class instruction.now }
{
    match instruction {
        Instruction::GetStatic(index) => read_by(program, program.constant(class, *index)),
        Instruction::PutStatic(index) => written_by(program.constant(class, *index)),
        Instruction::InvokeVirtual(index) => {
            called_print(program, class, of_class(program.constant(class, *index)))
        }
        Instruction::InvokeInterface(index) => {
            called_print(
                program,
                class,
                of_interface(program.constant(class, *index)),
            )
        }
        Instruction::InvokeSpecial(index) | Instruction::InvokeStatic(index) => {
            called_print(program, class, of_either(program.constant(class, *index)))
        }
        _ => None,
    }
}

/// What is told by what an instruction does.
fn operation_feature(resolved: Resolved) -> Option<Feature>
    ensures { result ≡ operation_feature (meaning resolved) }
{
    match resolved {
        Resolved::OnCall(CallOperation::Print(..) | CallOperation::EndLine(_)) => {
            Some(Feature::Prints)
        }
        Resolved::OnObject(ObjectOperation::Throw) => Some(Feature::Throws),
        Resolved::OnObject(ObjectOperation::EnterMonitor | ObjectOperation::ExitMonitor) => {
            Some(Feature::Locks)
        }
        Resolved::Refused(FaultKind::Unsupported) => Some(Feature::LeftOut),
        Resolved::Refused(FaultKind::Missing) => Some(Feature::Misses),
        _ => None,
    }
}
