//! What is left out at instructions, in words: what `--verbose` adds to `Unsupported`.

use bytecode::Instruction;
use classfile::flags::{NATIVE, has_flag};
use hierarchy::member::DeclaredMember;
use hierarchy::selectable::Selectable;
use instruction_text::{method_text, place_text};
use program::class::Implementation;
use program::runtime_constant::RuntimeConstant;
use program::{Method, Program};
use std::alloc::{AllocError, Global};

/// What makes `ldc` of a class.
const CLASS_LITERAL: &str = "a class literal, or assert";

/// Whether a method is native or synchronized.
fn is_left_out(program: &Program, method: DeclaredMember) -> bool {
    matches!(
        program.implementation(method.class, method.index),
        Some(Implementation::Unsupported)
    )
}

/// The first of some methods that is native or synchronized.
fn first_left_out(program: &Program, methods: &[DeclaredMember]) -> Option<DeclaredMember> {
    for method in methods {
        if is_left_out(program, *method) {
            return Some(*method);
        }
    }
    None
}

/// A native or synchronized method that calls of a method may run, if there is one.
fn left_out_of(
    alloc: Global,
    program: &Program,
    method: Method,
) -> Result<Option<DeclaredMember>, AllocError> {
    if let Method::Given { class, index } = method
        && is_left_out(program, DeclaredMember { class, index })
    {
        return Ok(Some(DeclaredMember { class, index }));
    }
    match program.selectable(method) {
        Selectable::Nothing => Ok(None),
        Selectable::Alone(member) => Ok(first_left_out(program, &[member])),
        Selectable::Named(member) => {
            let mut like = Vec::new(alloc);
            program.add_named_like(member, &mut like)?;
            Ok(first_left_out(program, like.as_slice()))
        }
    }
}

/// Whether a method that is left out is native or else synchronized, and the class that declares it.
fn method_words(
    alloc: Global,
    program: &Program,
    method: DeclaredMember,
) -> Result<String, AllocError> {
    let Some(file) = program.family().file(method.class) else {
        return Ok(String::new(alloc));
    };
    let word = match file.methods().get(usize::from(method.index)) {
        Some(method) if has_flag(method.access_flags, NATIVE) => "native",
        _ => "synchronized",
    };
    let name = method_text(alloc, file, method.index)?;
    format!(in alloc; "{name} is {word}")
}

/// What is left out of a call of the method that a constant of a class names.
fn call_words(
    alloc: Global,
    program: &Program,
    class: u32,
    constant: u16,
) -> Result<String, AllocError> {
    let Ok(method) = program.resolve_method(class, constant) else {
        return Ok(String::new(alloc));
    };
    match left_out_of(alloc, program, method)? {
        Some(method) => method_words(alloc, program, method),
        None => Ok(String::new(alloc)),
    }
}

/// What is left out at an instruction of a class. Nothing where nothing more is to be said.
fn instruction_words(
    alloc: Global,
    program: &Program,
    class: u32,
    instruction: &Instruction,
) -> Result<String, AllocError> {
    match instruction {
        Instruction::LoadConstant(constant) => match program.constant(class, *constant) {
            Some(RuntimeConstant::Class(_)) => String::from_str(alloc, CLASS_LITERAL),
            _ => Ok(String::new(alloc)),
        },
        Instruction::InvokeVirtual(constant)
        | Instruction::InvokeSpecial(constant)
        | Instruction::InvokeStatic(constant)
        | Instruction::InvokeInterface(constant) => call_words(alloc, program, class, *constant),
        _ => Ok(String::new(alloc)),
    }
}

/// The instruction of a method that begins at a byte.
fn instruction_at(program: &Program, method: DeclaredMember, pc: u16) -> Option<&Instruction> {
    match program.implementation(method.class, method.index) {
        Some(Implementation::Code(code)) => code.body.instruction(code.body.place_of(pc)?),
        _ => None,
    }
}

/// Adds the line on what is left out at a place of a method, or of the method itself, where more is to be said of it.
pub(crate) fn add_note(
    alloc: Global,
    program: &Program,
    method: DeclaredMember,
    pc: Option<u16>,
    notes: &mut String,
) -> Result<(), AllocError> {
    let Some(pc) = pc else {
        let words = method_words(alloc, program, method)?;
        return writeln!(notes, "{words}");
    };
    let Some(instruction) = instruction_at(program, method, pc) else {
        return Ok(());
    };
    let words = instruction_words(alloc, program, method.class, instruction)?;
    if words.is_empty() {
        return Ok(());
    }
    let Some(file) = program.family().file(method.class) else {
        return Ok(());
    };
    let place = place_text(alloc, file, method.index, pc)?;
    writeln!(notes, "{place}: {words}")
}
