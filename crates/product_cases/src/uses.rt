//! What the initialization of a class may run and use.

use crate::answer::Answer;
use crate::members::{add_member, add_names, given};
use program::Program;
use use_graph::class_uses::Uses;
use use_graph::uses;

/// Asked are of a class `runs`, the methods that may run when it is initialized, in no promised order; and `uses`, the
/// classes that its initialization may use.
pub fn ask(answer: &mut Answer, program: &Program, word: &str, class: &str) {
    if let Some(number) = given(answer, program, class) {
        match uses(answer.alloc, program, number) {
            Ok(found) => of_uses(answer, program, word, &found),
            Err(_) => answer.refuse(),
        }
    }
}

fn of_uses(answer: &mut Answer, program: &Program, word: &str, found: &Uses) {
    match word {
        "runs" => add_methods(answer, program, found),
        _ => add_names(answer, program, &found.classes),
    }
}

fn add_methods(answer: &mut Answer, program: &Program, found: &Uses) {
    for class in 0..program.given_count() {
        for index in 0..program.method_count(class) {
            if is_among(found, class, index) {
                answer.separate(", ");
                add_member(answer, program, class, index);
            }
        }
    }
    answer.or_nothing()
}

fn is_among(found: &Uses, class: u32, index: u16) -> bool {
    for method in &found.methods {
        if method.class == class && method.index == index {
            return true;
        }
    }
    false
}
