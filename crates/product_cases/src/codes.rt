//! The code of a method, and its body as a text.

use crate::answer::Answer;
use crate::hex::bytes_of;
use bytecode::{Body, Instruction, LookupSwitch, TableSwitch, decode};
use classfile::{ClassFile, read};
use std::mem::size_of;

/// A class file up to the length of the attribute Code of its only method.
const BEFORE: &str =
    "CAFEBABE000000340008010001410700010100106A6176612F6C616E672F4F626A65637407000301\
                      00016D010003282956010004436F646500210002000400000000000100090005000600010007";

/// What stands in that attribute beside the code: its limits, its length, and that there are no handlers.
const BESIDE: u32 = 12;

/// The body of a code, each instruction after its pc. To `size` it is that of an instruction.
pub fn ask(answer: &mut Answer, code: &str) {
    if code == "size" {
        return answer.show(&size_of::<Instruction>());
    }
    let file = file_of(answer, code);
    match read(answer.alloc, &file) {
        Ok(class) => of_class(answer, &class),
        Err(fault) => answer.show(&fault),
    }
}

/// The class file whose only method has this code, with nine operands and nine local variables.
fn file_of(answer: &mut Answer, digits: &str) -> Vec<u8> {
    let code = bytes_of(answer, digits);
    let length = u32::try_from(code.len()).unwrap_or(0);
    let mut file = bytes_of(answer, BEFORE);
    let content = length.saturating_add(BESIDE).to_be_bytes();
    answer.note(file.extend_from_slice(&content));
    answer.note(file.extend_from_slice(&[0, 9, 0, 9]));
    answer.note(file.extend_from_slice(&length.to_be_bytes()));
    answer.note(file.extend_from_slice(&code));
    answer.note(file.extend_from_slice(&[0, 0, 0, 0, 0, 0]));
    file
}

fn of_class(answer: &mut Answer, class: &ClassFile) {
    if let Some(method) = class.methods().first()
        && let Some(code) = method.code()
    {
        return match decode(answer.alloc, code) {
            Ok(body) => add_body(answer, &body),
            Err(_) => answer.refuse(),
        };
    }
    answer.word("no code")
}

/// Adds a body, its instructions apart by commas.
fn add_body(answer: &mut Answer, body: &Body) {
    for place in 0..u32::try_from(body.len()).unwrap_or(0) {
        answer.separate(", ");
        add_place(answer, body, place);
    }
}

/// Adds what stands at a place: its pc, and the instruction.
fn add_place(answer: &mut Answer, body: &Body, place: u32) {
    let (Some(pc), Some(instruction)) = (body.pc(place), body.instruction(place)) else {
        return answer.word("nothing");
    };
    if body.place_of(pc) != Some(place) {
        answer.word("another place ");
    }
    answer.show(&pc);
    answer.word(" ");
    answer.word(word_of(instruction));
    add_operands(answer, instruction)
}

/// Adds the operands of an instruction, those of a switch in order.
fn add_operands(answer: &mut Answer, instruction: &Instruction) {
    if let Some(number) = number_of(instruction) {
        return answer.parenthesized(&number);
    }
    match instruction {
        Instruction::LoadElement(kind) | Instruction::StoreElement(kind) => {
            answer.parenthesized_debug(kind)
        }
        Instruction::Stack(operation) => answer.parenthesized_debug(operation),
        Instruction::CombineInts(operator) => answer.parenthesized_debug(operator),
        Instruction::CombineLongs(operator) => answer.parenthesized_debug(operator),
        Instruction::Convert(conversion) => answer.parenthesized_debug(conversion),
        Instruction::NewArray(kind) => answer.parenthesized_debug(kind),
        Instruction::TableSwitch(table) => add_table(answer, table),
        Instruction::LookupSwitch(lookup) => add_lookup(answer, lookup),
        other => add_pair(answer, other),
    }
}

/// Adds the two operands of an instruction that has two.
fn add_pair(answer: &mut Answer, instruction: &Instruction) {
    match instruction {
        Instruction::Increment(local, more) => answer.pair(local, more),
        Instruction::IfInt(comparison, target) | Instruction::IfInts(comparison, target) => {
            answer.pair(comparison, target)
        }
        Instruction::IfReferences(equality, target) | Instruction::IfNull(equality, target) => {
            answer.pair(equality, target)
        }
        Instruction::Goto(target) => answer.parenthesized_debug(target),
        _ => {}
    }
}

/// The number that is the one operand of an instruction.
fn number_of(instruction: &Instruction) -> Option<i64> {
    match instruction {
        Instruction::PushInt(number) => Some(i64::from(*number)),
        Instruction::PushLong(number) => Some(*number),
        Instruction::LoadConstant(index)
        | Instruction::LoadWideConstant(index)
        | Instruction::LoadInt(index)
        | Instruction::LoadLong(index)
        | Instruction::LoadReference(index)
        | Instruction::StoreInt(index)
        | Instruction::StoreLong(index)
        | Instruction::StoreReference(index)
        | Instruction::GetStatic(index)
        | Instruction::PutStatic(index)
        | Instruction::GetField(index)
        | Instruction::PutField(index)
        | Instruction::InvokeVirtual(index)
        | Instruction::InvokeSpecial(index)
        | Instruction::InvokeStatic(index)
        | Instruction::InvokeInterface(index)
        | Instruction::New(index)
        | Instruction::NewReferenceArray(index)
        | Instruction::CheckCast(index)
        | Instruction::InstanceOf(index) => Some(i64::from(*index)),
        _ => None,
    }
}

fn add_table(answer: &mut Answer, table: &TableSwitch) {
    answer.word(" ");
    answer.show(&table.low());
    answer.word(" ");
    answer.debug(&table.default());
    for target in table.targets() {
        answer.word(" ");
        answer.debug(target);
    }
}

fn add_lookup(answer: &mut Answer, lookup: &LookupSwitch) {
    answer.word(" ");
    answer.debug(&lookup.default());
    for case in lookup.cases() {
        answer.word(" ");
        answer.show(&case.key);
        answer.word(":");
        answer.debug(&case.target);
    }
}

/// The name of an instruction's variant.
fn word_of(instruction: &Instruction) -> &'static str {
    match instruction {
        Instruction::Nop => "Nop",
        Instruction::PushNull => "PushNull",
        Instruction::PushInt(_) => "PushInt",
        Instruction::PushLong(_) => "PushLong",
        Instruction::LoadConstant(_) => "LoadConstant",
        Instruction::LoadWideConstant(_) => "LoadWideConstant",
        Instruction::LoadInt(_) => "LoadInt",
        Instruction::LoadLong(_) => "LoadLong",
        Instruction::LoadReference(_) => "LoadReference",
        Instruction::StoreInt(_) => "StoreInt",
        Instruction::StoreLong(_) => "StoreLong",
        Instruction::StoreReference(_) => "StoreReference",
        Instruction::LoadElement(_) => "LoadElement",
        Instruction::StoreElement(_) => "StoreElement",
        Instruction::Stack(_) => "Stack",
        Instruction::CombineInts(_) => "CombineInts",
        Instruction::CombineLongs(_) => "CombineLongs",
        Instruction::NegateInt => "NegateInt",
        Instruction::NegateLong => "NegateLong",
        Instruction::Increment(_, _) => "Increment",
        Instruction::Convert(_) => "Convert",
        Instruction::CompareLongs => "CompareLongs",
        Instruction::IfInt(_, _) => "IfInt",
        Instruction::IfInts(_, _) => "IfInts",
        Instruction::IfReferences(_, _) => "IfReferences",
        Instruction::IfNull(_, _) => "IfNull",
        Instruction::Goto(_) => "Goto",
        Instruction::TableSwitch(_) => "TableSwitch",
        Instruction::LookupSwitch(_) => "LookupSwitch",
        Instruction::ReturnInt => "ReturnInt",
        Instruction::ReturnLong => "ReturnLong",
        Instruction::ReturnReference => "ReturnReference",
        Instruction::Return => "Return",
        Instruction::GetStatic(_) => "GetStatic",
        Instruction::PutStatic(_) => "PutStatic",
        Instruction::GetField(_) => "GetField",
        Instruction::PutField(_) => "PutField",
        Instruction::InvokeVirtual(_) => "InvokeVirtual",
        Instruction::InvokeSpecial(_) => "InvokeSpecial",
        Instruction::InvokeStatic(_) => "InvokeStatic",
        Instruction::InvokeInterface(_) => "InvokeInterface",
        Instruction::New(_) => "New",
        Instruction::NewArray(_) => "NewArray",
        Instruction::NewReferenceArray(_) => "NewReferenceArray",
        Instruction::ArrayLength => "ArrayLength",
        Instruction::Throw => "Throw",
        Instruction::CheckCast(_) => "CheckCast",
        Instruction::InstanceOf(_) => "InstanceOf",
        Instruction::MonitorEnter => "MonitorEnter",
        Instruction::MonitorExit => "MonitorExit",
        Instruction::Unsupported => "Unsupported",
        Instruction::Bad => "Bad",
    }
}
