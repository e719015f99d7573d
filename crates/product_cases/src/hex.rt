//! Bytes from hexadecimal digits.

use crate::answer::Answer;
use classfile::{ClassFault, ClassFile, read};
use std::alloc::Global;

/// The bytes of digits, two each. What is no digit is passed over.
pub fn bytes_of(answer: &mut Answer, digits: &str) -> Vec<u8> {
    let mut bytes = Vec::new(answer.alloc);
    let mut high = None;
    for character in digits.chars() {
        if let Some(digit) = character.to_digit(16) {
            match high {
                None => high = Some(digit),
                Some(first) => {
                    let byte = u8::try_from(first.wrapping_mul(16).wrapping_add(digit));
                    if bytes.push(byte.unwrap_or(0)).is_err() {
                        answer.refuse();
                    }
                    high = None;
                }
            }
        }
    }
    bytes
}

/// The files of lines, each of which has the digits of one.
pub fn files_of(answer: &mut Answer, lines: &str) -> Vec<Vec<u8>> {
    let mut files = Vec::new(answer.alloc);
    for line in lines.lines() {
        if !line.is_empty() {
            let file = bytes_of(answer, line);
            if files.push(file).is_err() {
                answer.refuse();
            }
        }
    }
    files
}

/// The class files of these bytes, or the first fault.
pub fn classes_of(alloc: Global, files: &[Vec<u8>]) -> Result<Vec<ClassFile>, ClassFault> {
    let mut classes = Vec::new(alloc);
    for bytes in files {
        let class = match read(alloc, bytes) {
            Ok(class) => class,
            Err(fault) => return Err(fault),
        };
        if classes.push(class).is_err() {
            return Err(ClassFault::Memory);
        }
    }
    Ok(classes)
}
