//! What instructions do that touch more than their frame, once what they name is looked up.

ghost use Rattle.std.specs.Prelude.{◌≡◌, Some};
ghost use Rattle.program.specs.Tables.{implementation_at};
ghost use Rattle.machine.specs.Operations.{meaning, int_constant, long_constant, may_write};
ghost use Rattle.machine.specs.Operations.{get_target, getstatic_of, put_target, putstatic_of, on_call};
ghost use Rattle.machine.specs.Operations.{returns_so, return_of, on_object, anewarray_of};
ghost use Rattle.machine.specs.Operations.{array_operation, resolved_operation};

use crate::array_operation::ArrayOperation;
use crate::call_operation::{
    CallOperation, invokeinterface_of, invokespecial_of, invokestatic_of, invokevirtual_of,
};
use crate::object_operation::{
    ObjectOperation, check_cast_of, get_field_of, instance_test_of, new_of, put_field_of,
};
use crate::stored_kind::operand_kind;
use bytecode::Instruction;
use frame_instructions::operand_kind::OperandKind;
use program::class::Implementation;
use program::runtime_constant::{FieldKind, FieldTarget, RuntimeConstant};
use program::signature::ReturnKind;
use program::{Program, Unresolved};
use vm_state::ends::FaultKind;

/// What an instruction does that touches more than its frame, or names a constant of the run-time constant pool.
#[derive(Clone, Copy)]
pub enum Resolved {
    /// `ldc` and `ldc_w` of an int.
    PushInt(i32),
    /// `ldc2_w` of a long.
    PushLong(i64),
    /// `ldc` and `ldc_w` of a string, by its number among the strings of the program.
    PushText(usize),
    /// `getstatic` of a field of a given class, by the number of the class and the field's among its static fields.
    GetStatic(u32, u32),
    /// `putstatic` of a field of a given class, of this kind.
    PutStatic(FieldKind, u32, u32),
    /// `getstatic` of `System.out`.
    GetOut,
    /// An instruction on arrays.
    OnArray(ArrayOperation),
    /// A call of a method.
    OnCall(CallOperation),
    /// `return`, `ireturn`, `lreturn` and `areturn`, of a method that returns so.
    Return(ReturnKind),
    /// An instruction on objects.
    OnObject(ObjectOperation),
    /// What ends its thread whatever the frame holds: a reference that does not resolve, something that the machine
    /// leaves out, or what JVMS leaves to verification.
    Refused(FaultKind),
}

const FAULT: Resolved = Resolved::Refused(FaultKind::Fault);

const MISSING: Resolved = Resolved::Refused(FaultKind::Missing);

const UNSUPPORTED: Resolved = Resolved::Refused(FaultKind::Unsupported);

/// `ldc` and `ldc_w` of a constant of the run-time constant pool.
fn int_constant(constant: Option<RuntimeConstant>) -> Resolved
    ensures { meaning result ≡ int_constant constant }
{
    match constant {
        Some(RuntimeConstant::Int(number)) => Resolved::PushInt(number),
        Some(RuntimeConstant::String(text)) => Resolved::PushText(text),
        Some(RuntimeConstant::Float) | Some(RuntimeConstant::Class(_)) => UNSUPPORTED,
        Some(RuntimeConstant::MethodHandle) | Some(RuntimeConstant::MethodType) => UNSUPPORTED,
        _ => FAULT,
    }
}

/// `ldc2_w` of a constant of the run-time constant pool.
fn long_constant(constant: Option<RuntimeConstant>) -> Resolved
    ensures { meaning result ≡ long_constant constant }
{
    match constant {
        Some(RuntimeConstant::Long(number)) => Resolved::PushLong(number),
        Some(RuntimeConstant::Double) => UNSUPPORTED,
        _ => FAULT,
    }
}

fn get_target(target: Result<FieldTarget, Unresolved>) -> Resolved
    ensures { meaning result ≡ get_target target }
{
    match target {
        Ok(FieldTarget::Static { class, number, .. }) => Resolved::GetStatic(class, number),
        Ok(FieldTarget::Instance { .. }) => FAULT,
        Ok(FieldTarget::Out) => Resolved::GetOut,
        Err(Unresolved::Missing) => MISSING,
        Err(Unresolved::NoReference) | Err(Unresolved::Incompatible) => FAULT,
    }
}

/// `getstatic` of a constant of the run-time constant pool.
fn getstatic_of(constant: Option<RuntimeConstant>) -> Resolved
    ensures { meaning result ≡ getstatic_of constant }
{
    match constant {
        Some(RuntimeConstant::Field(FieldKind::Float, _)) => UNSUPPORTED,
        Some(RuntimeConstant::Field(FieldKind::Double, _)) => UNSUPPORTED,
        Some(RuntimeConstant::Field(_, target)) => get_target(target),
        _ => FAULT,
    }
}

/// Whether a method may write a static field: the class initialization method alone writes the final ones of its class.
fn may_write(program: &Program, class: u32, method: u16, owner: u32, is_final: bool) -> bool
    ensures { result ≡ may_write program.now class method owner is_final }
{
    if !is_final {
        return true;
    }
    match program.initializer(class) {
        Some(initializer) => owner == class && initializer == method,
        None => false,
    }
}

fn put_target(
    program: &Program,
    class: u32,
    method: u16,
    kind: FieldKind,
    target: Result<FieldTarget, Unresolved>,
) -> Resolved
    ensures { meaning result ≡ put_target program.now class method kind target }
{
    match target {
        Ok(
            FieldTarget::Static {
                class: owner,
                number,
                is_final,
                ..
            },
        ) => {
            if !may_write(program, class, method, owner, is_final) {
                return FAULT;
            }
            Resolved::PutStatic(kind, owner, number)
        }
        Ok(FieldTarget::Instance { .. }) | Ok(FieldTarget::Out) => FAULT,
        Err(Unresolved::Missing) => MISSING,
        Err(Unresolved::NoReference) | Err(Unresolved::Incompatible) => FAULT,
    }
}

/// `putstatic` of a constant of the run-time constant pool, in a method.
fn putstatic_of(
    program: &Program,
    class: u32,
    method: u16,
    constant: Option<RuntimeConstant>,
) -> Resolved
    ensures { meaning result ≡ putstatic_of program.now class method constant }
{
    match constant {
        Some(RuntimeConstant::Field(FieldKind::Float, _)) => UNSUPPORTED,
        Some(RuntimeConstant::Field(FieldKind::Double, _)) => UNSUPPORTED,
        Some(RuntimeConstant::Field(kind, target)) => put_target(
            program, class, method, kind, target,
        ),
        _ => FAULT,
    }
}

/// A call of a method, or the fault that it is.
fn on_call(operation: Result<CallOperation, FaultKind>) -> Resolved
    ensures { meaning result ≡ on_call operation }
{
    match operation {
        Ok(operation) => Resolved::OnCall(operation),
        Err(kind) => Resolved::Refused(kind),
    }
}

/// Whether an instruction returns what a method does: nothing, or operands of a kind.
fn returns_so(operand: Option<OperandKind>, kind: ReturnKind) -> bool
    ensures { result ≡ returns_so operand kind }
{
    match (operand, kind) {
        (None, ReturnKind::Nothing) => true,
        (Some(operand), ReturnKind::Value(kind)) => operand_kind(kind) == Some(operand),
        _ => false,
    }
}

/// A return of nothing, or of operands of a kind, in a method.
fn return_of(program: &Program, class: u32, method: u16, operand: Option<OperandKind>) -> Resolved
    ensures { meaning result ≡ return_of operand (implementation_at program.now class method) }
{
    match program.implementation(class, method) {
        Some(Implementation::Code(code)) if returns_so(operand, code.returns) => {
            Resolved::Return(code.returns)
        }
        _ => FAULT,
    }
}

/// `anewarray` of a constant of the run-time constant pool.
fn anewarray_of(program: &Program, constant: Option<RuntimeConstant>) -> Resolved
    ensures { meaning result ≡ anewarray_of program.now constant }
{
    match constant {
        Some(RuntimeConstant::Class(None)) => MISSING,
        Some(RuntimeConstant::Class(Some(class))) => match program.array_of(class) {
            Some(array) => Resolved::OnArray(ArrayOperation::NewOfReferences(array)),
            None => FAULT,
        },
        _ => FAULT,
    }
}

/// What an instruction on arrays does; others are left out.
fn array_operation(program: &Program, class: u32, instruction: &Instruction) -> Resolved
    ensures { meaning result ≡ array_operation program.now class instruction.now }
{
    match instruction {
        Instruction::NewArray(kind) => Resolved::OnArray(ArrayOperation::New(*kind)),
        Instruction::NewReferenceArray(index) => {
            anewarray_of(program, program.constant(class, *index))
        }
        Instruction::ArrayLength => Resolved::OnArray(ArrayOperation::Length),
        Instruction::LoadElement(kind) => Resolved::OnArray(ArrayOperation::Load(*kind)),
        Instruction::StoreElement(kind) => Resolved::OnArray(ArrayOperation::Store(*kind)),
        _ => UNSUPPORTED,
    }
}

/// An instruction on objects, or the fault that it is.
fn on_object(operation: Result<ObjectOperation, FaultKind>) -> Resolved
    ensures { meaning result ≡ on_object operation }
{
    match operation {
        Ok(operation) => Resolved::OnObject(operation),
        Err(kind) => Resolved::Refused(kind),
    }
}

/// What an instruction of a method does that is none of those that touch their frame alone.
pub fn resolved_operation(
    program: &Program,
    class: u32,
    method: u16,
    instruction: &Instruction,
) -> Resolved
    ensures { meaning result ≡ resolved_operation program.now class method instruction.now }
{
    match instruction {
        Instruction::LoadConstant(index) => int_constant(program.constant(class, *index)),
        Instruction::LoadWideConstant(index) => long_constant(program.constant(class, *index)),
        Instruction::GetStatic(index) => getstatic_of(program.constant(class, *index)),
        Instruction::PutStatic(index) => {
            putstatic_of(program, class, method, program.constant(class, *index))
        }
        Instruction::InvokeVirtual(index) => {
            on_call(invokevirtual_of(program, class, program.constant(class, *index)))
        }
        Instruction::InvokeInterface(index) => {
            on_call(invokeinterface_of(program, class, program.constant(class, *index)))
        }
        Instruction::InvokeSpecial(index) => {
            on_call(invokespecial_of(program, class, program.constant(class, *index)))
        }
        Instruction::InvokeStatic(index) => {
            on_call(invokestatic_of(program, class, program.constant(class, *index)))
        }
        Instruction::Return => return_of(program, class, method, None),
        Instruction::ReturnInt => return_of(program, class, method, Some(OperandKind::Int)),
        Instruction::ReturnLong => return_of(program, class, method, Some(OperandKind::Long)),
        Instruction::ReturnReference => {
            return_of(program, class, method, Some(OperandKind::Reference))
        }
        Instruction::New(index) => on_object(new_of(program, program.constant(class, *index))),
        Instruction::CheckCast(index) => on_object(check_cast_of(program.constant(class, *index))),
        Instruction::InstanceOf(index) => on_object(instance_test_of(program.constant(
            class, *index,
        ))),
        Instruction::Throw => Resolved::OnObject(ObjectOperation::Throw),
        Instruction::GetField(index) => on_object(get_field_of(program.constant(class, *index))),
        Instruction::PutField(index) => on_object(put_field_of(program.constant(class, *index))),
        Instruction::MonitorEnter => Resolved::OnObject(ObjectOperation::EnterMonitor),
        Instruction::MonitorExit => Resolved::OnObject(ObjectOperation::ExitMonitor),
        Instruction::Bad => FAULT,
        _ => array_operation(program, class, instruction),
    }
}
