//! What is left out at the instruction of a frame, in words.

use built_in::class_id::ClassId;
use bytecode::Instruction;
use classfile::flags::{NATIVE, has_flag};
use instruction_text::method_text;
use machine::call_operation::{CallOperation, Choice, InstanceCall};
use machine::instance_calls::receiver_under;
use machine::references::name_of;
use machine::resolved::{Resolved, resolved_operation};
use program::class::Implementation;
use program::runtime_constant::RuntimeConstant;
use program::{Method, Program};
use std::alloc::{AllocError, Global};
use vm_state::frame::{Activity, Frame};
use vm_state::shared::Shared;

/// What makes `ldc` of a class.
const CLASS_LITERAL: &str = ": a class literal, or assert";

/// Whether a method is native or else synchronized, if it is left out.
fn method_words(
    alloc: Global,
    program: &Program,
    class: u32,
    index: u16,
) -> Result<String, AllocError> {
    if !matches!(
        program.implementation(class, index),
        Some(Implementation::Unsupported)
    ) {
        return Ok(String::new(alloc));
    }
    let Some(file) = program.family().file(class) else {
        return Ok(String::new(alloc));
    };
    let word = match file.methods().get(usize::from(index)) {
        Some(method) if has_flag(method.access_flags, NATIVE) => "native",
        _ => "synchronized",
    };
    let method = method_text(alloc, file, index)?;
    format!(in alloc; ": {method} is {word}")
}

/// The class of the receiver of a call, if it is an object.
fn receiver_class(
    program: &Program,
    shared: &Shared,
    frame: &Frame,
    call: InstanceCall,
) -> Option<ClassId> {
    let signature = program.signature(call.caller, call.descriptor)?;
    match receiver_under(&frame.cells, signature.parameters.as_slice()) {
        Ok(receiver) => shared.class_of(name_of(receiver)?),
        Err(_) => None,
    }
}

/// The method of a given class that a call runs, if there is one.
fn called(
    program: &Program,
    shared: &Shared,
    frame: &Frame,
    call: CallOperation,
) -> Option<Method> {
    match call {
        CallOperation::Static(call) => Some(Method::Given {
            class: call.class,
            index: call.index,
        }),
        CallOperation::Instance(call) => match call.choice {
            Choice::Found(method) => method,
            Choice::Selected(method) => {
                program.select(receiver_class(program, shared, frame, call)?, method)
            }
        },
        CallOperation::Print(..) | CallOperation::EndLine(_) => None,
    }
}

/// The method that an instruction calls, if it calls one.
fn method_called(
    program: &Program,
    shared: &Shared,
    frame: &Frame,
    operation: Resolved,
) -> Option<Method> {
    match operation {
        Resolved::OnCall(call) => called(program, shared, frame, call),
        _ => None,
    }
}

/// What is left out at an instruction of a method.
fn instruction_words(
    alloc: Global,
    program: &Program,
    shared: &Shared,
    frame: &Frame,
    class: u32,
    index: u16,
) -> Result<String, AllocError> {
    let Some(instruction) = program.instruction(class, index, frame.place) else {
        return Ok(String::new(alloc));
    };
    if let Instruction::LoadConstant(constant) = instruction {
        return match program.constant(class, *constant) {
            Some(RuntimeConstant::Class(_)) => String::from_str(alloc, CLASS_LITERAL),
            _ => Ok(String::new(alloc)),
        };
    }
    let operation = resolved_operation(program, class, index, instruction);
    match method_called(program, shared, frame, operation) {
        Some(Method::Given { class, index }) => method_words(alloc, program, class, index),
        _ => Ok(String::new(alloc)),
    }
}

/// What is left out where a frame stands, as words that follow its place: of a call whether the method that it runs is
/// native or synchronized, and of `ldc` of a class what makes it. Nothing where nothing more is to be said.
pub(crate) fn left_out_words(
    alloc: Global,
    program: &Program,
    shared: &Shared,
    frame: &Frame,
) -> Result<String, AllocError> {
    match frame.activity {
        Activity::Method { class, index } => {
            instruction_words(alloc, program, shared, frame, class, index)
        }
        Activity::Start(class) => match program.main(class) {
            Some(index) => method_words(alloc, program, class, index),
            None => Ok(String::new(alloc)),
        },
    }
}
