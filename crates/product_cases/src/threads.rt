//! Questions that several threads of the system answer: runs at gates, commits in a book of one thread, and classes
//! settled by workers. No contract says that threads run side by side.
//!
//! Each wait ends after ten seconds, and is told then.

mod commits;
mod entries;
mod gates;
mod meeting;
mod plan;
mod runs;
mod settling;
mod shown;
mod starts;
mod worker_gates;

use crate::answer::Answer;
use crate::hex::{classes_of, files_of};
use crate::threads::plan::halves;
use classfile::ClassFile;
use program::{Program, link};
use std::sync::Wait;
use std::thread::Threads;

/// Given are classes. Asked is `run`, `commits` or `settle`, and then what `runs`, `commits` or `settling` says.
pub fn ask<R: Threads + Wait + Sync>(rt: &R, answer: &mut Answer, given: &str, asked: &str) {
    let files = files_of(answer, given);
    match classes_of(answer.alloc, &files) {
        Ok(classes) => of_classes(rt, answer, classes, asked),
        Err(fault) => answer.show(&fault),
    }
}

fn of_classes<R: Threads + Wait + Sync>(
    rt: &R,
    answer: &mut Answer,
    classes: Vec<ClassFile>,
    asked: &str,
) {
    match link(answer.alloc, classes) {
        Ok(program) => of_program(rt, answer, &program, asked),
        Err(fault) => answer.show(&fault),
    }
}

fn of_program<R: Threads + Wait + Sync>(
    rt: &R,
    answer: &mut Answer,
    program: &Program,
    asked: &str,
) {
    let (verb, about) = halves(asked, " ");
    match verb {
        "run" => runs::ask(rt, answer, program, about),
        "commits" => answer.made(commits::answer(answer.alloc, program, about)),
        "settle" => settling::ask(rt, answer, program, about),
        _ => answer.word("no question"),
    }
}
