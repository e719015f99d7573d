//! Class files, their parts by their accessors, and names of classes.

use crate::answer::Answer;
use crate::hex::bytes_of;
use classfile::{ClassFile, ClassName, ModifiedUtf8, printed, read};
use std::alloc::AllocError;

/// Given is a class file. Asked are `parts`, and `entries`, what stands at the first indices of its pool. Without a
/// file `name TEXT` asks for the forms of a class's name, and `units BYTES` for those of one of these bytes.
pub fn ask(answer: &mut Answer, given: &str, asked: &str) {
    match asked.split_once(' ') {
        Some(("name", text)) => of_text(answer, text),
        Some((_, digits)) => of_units(answer, digits),
        None => of_file(answer, given, asked),
    }
}

fn of_file(answer: &mut Answer, given: &str, asked: &str) {
    let file = bytes_of(answer, given);
    match read(answer.alloc, &file) {
        Ok(class) if asked == "parts" => add_parts(answer, &class),
        Ok(class) => add_entries(answer, &class),
        Err(fault) => answer.show(&fault),
    }
}

/// The parts of a class file, by its accessors.
fn add_parts(answer: &mut Answer, class: &ClassFile) {
    add_count(answer, class.constants().len(), " indices, flags ");
    answer.show(&class.access_flags());
    answer.word(", ");
    add_text(answer, class.class_name(class.this_class()));
    answer.word(" below ");
    add_text(answer, class.class_name(class.super_class()));
    answer.word("; ");
    add_count(answer, class.interfaces().len(), " interfaces, ");
    add_count(answer, class.fields().len(), " fields, ");
    add_count(answer, class.methods().len(), " methods, ");
    add_count(answer, class.attributes().len(), " attributes");
}

fn add_count(answer: &mut Answer, count: usize, what: &str) {
    answer.show(&count);
    answer.word(what);
}

/// What stands at the first indices of the pool.
fn add_entries(answer: &mut Answer, class: &ClassFile) {
    for index in 1..6 {
        if 1 < index {
            answer.word(", ");
        }
        if class.constant(index).is_none() {
            answer.word("no entry ");
        }
        add_text(answer, class.utf8(index));
    }
}

fn add_text(answer: &mut Answer, bytes: Option<&[u8]>) {
    match bytes {
        Some(bytes) => answer.made(printed(answer.alloc, bytes)),
        None => answer.word("no text"),
    }
}

fn of_text(answer: &mut Answer, text: &str) {
    match ClassName::from_text(answer.alloc, text) {
        Ok(name) => add_forms(answer, name.units(), name.modified_utf8(answer.alloc)),
        Err(_) => answer.refuse(),
    }
}

fn of_units(answer: &mut Answer, digits: &str) {
    let bytes = bytes_of(answer, digits);
    match ClassName::from_modified_utf8(answer.alloc, &bytes) {
        Ok(name) => {
            let spelled = ModifiedUtf8::from_units(answer.alloc, name.units());
            add_forms(answer, name.units(), spelled)
        }
        Err(_) => answer.refuse(),
    }
}

/// Adds the units of a name, its bytes in a class file, and its text for a reader.
fn add_forms(answer: &mut Answer, units: &[u16], spelled: Result<ModifiedUtf8, AllocError>) {
    for unit in units {
        answer.hexadecimal(&unit.to_be_bytes());
        answer.word(" ");
    }
    match spelled {
        Ok(spelled) => {
            answer.hexadecimal(spelled.bytes());
            answer.word(" ");
            answer.made(printed(answer.alloc, spelled.bytes()))
        }
        Err(_) => answer.refuse(),
    }
}
