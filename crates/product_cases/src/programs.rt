//! Classes, what linking them answers, and what the initialization of one may run and use.

use crate::answer::Answer;
use crate::hex::{bytes_of, classes_of, files_of};
use crate::{members, tables, uses};
use classfile::ClassFile;
use init_engine::World;
use initializer_analysis::forced::Forced;
use initializer_analysis::judge;
use initializer_analysis::verdict::Verdict;
use program::{Program, link};

/// A question about classes. Its words end before ` | `; behind that stand the file of the class `Asking`, which has a
/// reference, and the reference's index in its constant pool.
#[derive(Clone, Copy)]
struct Question<'a> {
    word: &'a str,
    class: &'a str,
    asking: &'a str,
    index: u16,
}

impl<'a> Question<'a> {
    fn of(asked: &'a str) -> Question<'a> {
        let (words, reference) = asked.split_once(" | ").unwrap_or((asked, ""));
        let (asking, index) = reference.split_once(' ').unwrap_or((reference, ""));
        let mut words = words.split_whitespace();
        Question {
            word: words.next().unwrap_or(""),
            class: words.next().unwrap_or(""),
            asking,
            index: index.parse().unwrap_or(0),
        }
    }
}

/// Given are classes. The order of their files makes no difference, so both ends are tried. Asked are
///
/// - `strings`, the strings; `supers CLASS`, its given superclasses, nearest first; `init CLASS`, what is initialized
///   before it; `methods CLASS`, how its methods are implemented, with what they take and return and their handlers;
///   `initializer CLASS`, the place of its class initialization method; `statics CLASS`, what its static fields get
///   before that runs;
/// - `field REFERENCE` and `method REFERENCE`, what a reference of one more class resolves to; `constant ENTRY`, what
///   an entry of the pool of that class stands for; `select CLASS REFERENCE`, which method a call of that method runs
///   on an object of the class; `special CLASS REFERENCE`, which one invokespecial of it runs in the class;
/// - `runs CLASS` and `uses CLASS` (`src/uses.rt`); `wave CLASS`, its wave by the code of initializers alone, none of
///   which runs; `start`, whether a run may start without entries.
pub fn ask(answer: &mut Answer, given: &str, asked: &str) {
    let question = Question::of(asked);
    let mut files = files_of(answer, given);
    if !question.asking.is_empty() {
        let asking = bytes_of(answer, question.asking);
        if files.push(asking).is_err() {
            answer.refuse();
        }
    }
    of_files(answer, &files, question);
    files.reverse();
    let mut again = Answer::new(answer.alloc);
    of_files(&mut again, &files, question);
    hold_against(answer, again)
}

/// Adds what was answered to the same question in another order, where it is something else.
fn hold_against(answer: &mut Answer, again: Answer) {
    let Ok(again) = again.finish() else {
        return answer.refuse();
    };
    if again.as_str() != answer.as_str() {
        answer.word(", but ");
        answer.word(&again);
        answer.word(" in another order")
    }
}

fn of_files(answer: &mut Answer, files: &[Vec<u8>], question: Question<'_>) {
    match classes_of(answer.alloc, files) {
        Ok(classes) => of_classes(answer, classes, question),
        Err(fault) => answer.show(&fault),
    }
}

fn of_classes(answer: &mut Answer, classes: Vec<ClassFile>, question: Question<'_>) {
    match link(answer.alloc, classes) {
        Ok(program) => of_program(answer, &program, question),
        Err(fault) => answer.show(&fault),
    }
}

fn of_program(answer: &mut Answer, program: &Program, question: Question<'_>) {
    let Question { class, index, .. } = question;
    match question.word {
        "supers" => members::add_superclasses(answer, program, class),
        "init" => members::add_before(answer, program, class),
        "field" => members::add_field(answer, program, index),
        "method" => members::add_resolved(answer, program, index),
        "select" => members::add_selected(answer, program, class, index),
        "special" => members::add_special(answer, program, class, index),
        "wave" => add_wave(answer, program, class),
        "start" => start(answer, program),
        _ => of_tables(answer, program, question),
    }
}

fn of_tables(answer: &mut Answer, program: &Program, question: Question<'_>) {
    let Question { class, index, .. } = question;
    match question.word {
        "strings" => tables::add_strings(answer, program),
        "constant" => tables::add_constant(answer, program, index),
        "methods" => tables::add_methods(answer, program, class),
        "initializer" => tables::add_initializer(answer, program, class),
        "statics" => tables::add_statics(answer, program, class),
        "runs" | "uses" => uses::ask(answer, program, question.word, class),
        _ => answer.word("no question"),
    }
}

/// Whether a run may start without entries, which no command can ask.
fn start(answer: &mut Answer, program: &Program) {
    match World::lazy(answer.alloc, program, &[]) {
        Ok(_) => answer.word("started"),
        Err(fault) => answer.show(&fault),
    }
}

/// The wave of a class, where none is forced.
fn add_wave(answer: &mut Answer, program: &Program, class: &str) {
    let Some(class) = members::number_of(answer, program, class) else {
        return answer.word("no given class");
    };
    match judge(answer.alloc, program, &Forced::none(answer.alloc)) {
        Ok(verdicts) => match verdicts.of_class(class) {
            Some(Verdict::Wave(wave)) => answer.show(&wave),
            _ => answer.word("none"),
        },
        Err(_) => answer.refuse(),
    }
}
