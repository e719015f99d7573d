//! Calls on class files.

use super::page::Page;
use crate::hex::classes_of;
use bytecode::decode;
use classfile::{ClassFile, write};
use program::link;
use std::alloc::{AllocError, Global};
use std::io::Write;

/// Makes a call twice over the same things lent.
pub fn call<W: Write>(page: &mut Page<'_, W>, name: &str, files: &[Vec<u8>]) {
    let Ok(classes) = classes_of(page.alloc, files) else {
        return page.give_up();
    };
    make(page, name, files, &classes);
    make(page, name, files, &classes);
}

fn make<W: Write>(page: &mut Page<'_, W>, name: &str, files: &[Vec<u8>], classes: &[ClassFile]) {
    match name {
        "classfile::read" => read_all(page, files),
        "classfile::write" => {
            page.ask(name);
            page.number(bytes_in(page.alloc, classes));
        }
        "decode" => {
            page.ask(name);
            page.number(instructions_in(page.alloc, classes));
        }
        "link" => link_read(page, files),
        _ => page.give_up(),
    }
}

fn read_all<W: Write>(page: &mut Page<'_, W>, files: &[Vec<u8>]) {
    page.ask("classfile::read");
    match classes_of(page.alloc, files) {
        Ok(classes) => page.value(classes.len()),
        Err(fault) => page.line(&fault),
    }
}

fn link_read<W: Write>(page: &mut Page<'_, W>, files: &[Vec<u8>]) {
    let Ok(classes) = classes_of(page.alloc, files) else {
        return page.give_up();
    };
    page.ask("link");
    match link(page.alloc, classes) {
        Ok(program) => page.value(program.given_count() as usize),
        Err(fault) => page.line(&fault),
    }
}

/// How many bytes the texts of classes have.
fn bytes_in(alloc: Global, classes: &[ClassFile]) -> Result<usize, AllocError> {
    let mut count = 0usize;
    for class in classes {
        let Ok(text) = write(alloc, class) else {
            return Err(AllocError);
        };
        count = count.saturating_add(text.len());
    }
    Ok(count)
}

/// How many instructions the methods of classes have.
pub fn instructions_in(alloc: Global, classes: &[ClassFile]) -> Result<usize, AllocError> {
    let mut count = 0usize;
    for class in classes {
        for method in class.methods().iter() {
            if let Some(code) = method.code() {
                let Ok(body) = decode(alloc, code) else {
                    return Err(AllocError);
                };
                count = count.saturating_add(body.len());
            }
        }
    }
    Ok(count)
}
