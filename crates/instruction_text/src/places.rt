//! Places in methods, and the instructions there.

ghost use Rattle.std.specs.Prelude.{◌≡◌, IfOk, slice_index};
ghost use Rattle.std.specs.String.{string_bytes};
ghost use Rattle.instruction_text.specs.Texts.{method_text, place_text, instruction_text, code_from, operand_text};
ghost use Rattle.instruction_text.specs.Texts.{index_of, primitive_text};

use crate::constants::{class_at, named_at, pushed_at, text_at};
use crate::mnemonic::mnemonic;
use classfile::ClassFile;
use std::alloc::{AllocError, Global};

/// The opcodes whose operands name something (JVMS 6.5, 7).
const LDC: u8 = 18;

const LDC_W: u8 = 19;

const LDC2_W: u8 = 20;

const GETSTATIC: u8 = 178;

const NEW: u8 = 187;

const NEWARRAY: u8 = 188;

const ANEWARRAY: u8 = 189;

const CHECKCAST: u8 = 192;

const INSTANCEOF: u8 = 193;

const WIDE: u8 = 196;

const MULTIANEWARRAY: u8 = 197;

/// A method of a class file, by its place among those of its class: `p/A.f(I)V`. Of a place that has none it is the
/// class and a dot.
///
/// # Errors
/// Where memory runs out.
#[tactic(auto, unfolding(crate::specs::Texts::method_text))]
pub fn method_text(alloc: Global, file: &ClassFile, index: u16) -> Result<String, AllocError>
    ensures { IfOk result (λ text. string_bytes text ≡ method_text file.now index) }
{
    let class = class_at(alloc, file, file.this_class())?;
    let Some(method) = file.methods().get(usize::from(index)) else {
        return format!(in alloc; "{class}.");
    };
    let name = text_at(alloc, file, method.name)?;
    let descriptor = text_at(alloc, file, method.descriptor)?;
    format!(in alloc; "{class}.{name}{descriptor}")
}

/// The instruction that begins at a pc of a method: its mnemonic (JVMS 7) and what its constant names, as
/// `invokevirtual java/lang/String.length()I`, `getstatic java/lang/System.out:Ljava/io/PrintStream;` or `ldc class
/// p/A`. No branch's target is told, and no local variable. It is `?` where no code stands at the pc.
///
/// # Errors
/// Where memory runs out.
#[tactic(auto, unfolding(crate::specs::Texts::instruction_text))]
pub fn instruction_text(
    alloc: Global,
    file: &ClassFile,
    index: u16,
    pc: u16,
) -> Result<String, AllocError>
    ensures { IfOk result (λ text. string_bytes text ≡ instruction_text file.now index pc) }
{
    let code = code_from(file, index, pc);
    let Some((opcode, operands)) = code.split_first() else {
        return String::from_str(alloc, "?");
    };
    let name = mnemonic(*opcode);
    let named = operand_text(alloc, file, *opcode, operands)?;
    if named.is_empty() {
        return String::from_str(alloc, name);
    }
    format!(in alloc; "{name} {named}")
}

/// A place and its instruction: `p/A.f(I)V 5 invokevirtual java/lang/String.length()I`.
///
/// # Errors
/// Where memory runs out.
#[tactic(auto, unfolding(crate::specs::Texts::place_text))]
pub fn place_text(
    alloc: Global,
    file: &ClassFile,
    index: u16,
    pc: u16,
) -> Result<String, AllocError>
    ensures { IfOk result (λ text. string_bytes text ≡ place_text file.now index pc) }
{
    let method = method_text(alloc, file, index)?;
    let instruction = instruction_text(alloc, file, index, pc)?;
    format!(in alloc; "{method} {pc} {instruction}")
}

/// The bytes of a method's code from a pc on.
fn code_from(file: &ClassFile, index: u16, pc: u16) -> &[u8]
    ensures { result.now ≡ code_from file.now index pc }
{
    let Some(method) = file.methods().get(usize::from(index)) else {
        return &[];
    };
    let Some(code) = method.code() else {
        return &[];
    };
    code.code.as_slice().get(usize::from(pc)..).unwrap_or(&[])
}

/// What the operands of an instruction name.
#[tactic(auto, unfolding(crate::specs::Texts::operand_text))]
fn operand_text(
    alloc: Global,
    file: &ClassFile,
    opcode: u8,
    operands: &[u8],
) -> Result<String, AllocError>
    ensures { IfOk result (λ text. string_bytes text ≡ operand_text file.now opcode operands.now) }
{
    match opcode {
        LDC => pushed_at(alloc, file, u16::from(first_of(operands))),
        LDC_W | LDC2_W => pushed_at(alloc, file, index_of(operands)),
        GETSTATIC..=NEW | ANEWARRAY | CHECKCAST | INSTANCEOF | MULTIANEWARRAY => {
            named_at(alloc, file, index_of(operands))
        }
        NEWARRAY => String::from_str(alloc, primitive(first_of(operands))),
        WIDE => String::from_str(alloc, mnemonic(first_of(operands))),
        _ => Ok(String::new(alloc)),
    }
}

/// The first of some bytes, 0 where there is none.
fn first_of(bytes: &[u8]) -> u8
    ensures { result ≡ slice_index bytes.now 0 }
{
    match bytes.first() {
        Some(byte) => *byte,
        None => 0,
    }
}

/// The index that the first two of some bytes spell, 0 where they are fewer.
fn index_of(bytes: &[u8]) -> u16
    ensures { result ≡ index_of bytes.now }
{
    match bytes {
        [high, low, ..] => u16::from_be_bytes([*high, *low]),
        _ => 0,
    }
}

/// The type of an array's elements by its code (JVMS 6.5, newarray).
#[tactic(auto, unfolding(crate::specs::Texts::primitive_text))]
fn primitive(code: u8) -> &'static str
    ensures { result.now ≡ primitive_text code }
{
    match code {
        4 => "boolean",
        5 => "char",
        6 => "float",
        7 => "double",
        8 => "byte",
        9 => "short",
        10 => "int",
        11 => "long",
        _ => "?",
    }
}
