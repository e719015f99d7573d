//! What a linked program answers of its classes and their members.

use crate::answer::Answer;
use built_in::class_id::{ArrayType, BuiltIn, ClassId, ElementType};
use classfile::ClassName;
use program::runtime_constant::RuntimeConstant;
use program::{Field, Method, Program, Unresolved};

/// The number of the given class of a name.
pub fn number_of(answer: &mut Answer, program: &Program, class: &str) -> Option<u32> {
    let Ok(name) = ClassName::from_text(answer.alloc, class) else {
        answer.refuse();
        return None;
    };
    match program.number_of(answer.alloc, &name) {
        Ok(number) => number,
        Err(_) => {
            answer.refuse();
            None
        }
    }
}

/// The number of the given class of a name; that there is none is the answer then.
pub fn given(answer: &mut Answer, program: &Program, class: &str) -> Option<u32> {
    let number = number_of(answer, program, class);
    if number.is_none() {
        answer.word("no given class");
    }
    number
}

/// The given superclasses of a class, nearest first.
pub fn add_superclasses(answer: &mut Answer, program: &Program, class: &str) {
    if let Some(class) = given(answer, program, class) {
        for number in program.supers(class) {
            add_name(answer, program, number);
        }
        answer.or_nothing()
    }
}

/// What is initialized before a class.
pub fn add_before(answer: &mut Answer, program: &Program, class: &str) {
    if let Some(class) = given(answer, program, class) {
        add_names(answer, program, program.init_order(class))
    }
}

/// Adds the names of classes, or `nothing`.
pub fn add_names(answer: &mut Answer, program: &Program, numbers: &[u32]) {
    for number in numbers {
        add_name(answer, program, *number);
    }
    answer.or_nothing()
}

/// Adds the name of a class after other names.
pub fn add_name(answer: &mut Answer, program: &Program, number: u32) {
    answer.separate(" ");
    add_class(answer, program, number)
}

/// Adds the name of a class.
pub fn add_class(answer: &mut Answer, program: &Program, number: u32) {
    answer.made(program.class_text(answer.alloc, ClassId::Given(number)))
}

/// The field that an index of the pool of `Asking` resolves to.
pub fn add_field(answer: &mut Answer, program: &Program, index: u16) {
    if let Some(asking) = given(answer, program, "Asking") {
        match program.resolve_field(asking, index) {
            Ok(Field::Given { class, index }) => add_member(answer, program, class, index),
            Ok(Field::Out) => answer.word("System.out"),
            Err(why) => answer.debug(&why),
        }
    }
}

/// The method that an index of the pool of `Asking` resolves to.
pub fn add_resolved(answer: &mut Answer, program: &Program, index: u16) {
    match resolved(answer, program, index) {
        Ok(method) => add_found(answer, program, Some(method)),
        Err(why) => answer.debug(&why),
    }
}

fn resolved(answer: &mut Answer, program: &Program, index: u16) -> Result<Method, Unresolved> {
    match number_of(answer, program, "Asking") {
        Some(asking) => program.resolve_method(asking, index),
        None => Err(Unresolved::NoReference),
    }
}

/// The method that is run on an object of a class.
pub fn add_selected(answer: &mut Answer, program: &Program, class: &str, index: u16) {
    let Some(class) = class_id(answer, program, class) else {
        return answer.word("no given class");
    };
    match resolved(answer, program, index) {
        Ok(method) => add_found(answer, program, program.select(class, method)),
        Err(why) => answer.debug(&why),
    }
}

/// The method that invokespecial runs in a class.
pub fn add_special(answer: &mut Answer, program: &Program, class: &str, index: u16) {
    if let Some(class) = given(answer, program, class) {
        match resolved(answer, program, index) {
            Ok(method) => add_special_of(answer, program, class, method, index),
            Err(why) => answer.debug(&why),
        }
    }
}

fn add_special_of(answer: &mut Answer, program: &Program, class: u32, method: Method, index: u16) {
    let asking = number_of(answer, program, "Asking");
    match named_class(program, asking, index) {
        Some(named) => {
            let start = program.special_start(class, named, method);
            add_found(answer, program, program.special(start, method))
        }
        None => answer.word("no given class"),
    }
}

/// The class that a method reference names.
fn named_class(program: &Program, asking: Option<u32>, index: u16) -> Option<ClassId> {
    let Some(asking) = asking else {
        return None;
    };
    match program.constant(asking, index) {
        Some(RuntimeConstant::Method(reference) | RuntimeConstant::InterfaceMethod(reference)) => {
            reference.class
        }
        _ => None,
    }
}

/// The class of a name: an array of `int`, a built-in class, or a given one.
fn class_id(answer: &mut Answer, program: &Program, name: &str) -> Option<ClassId> {
    if name.starts_with('[') {
        let array = ArrayType {
            dimensions: 1,
            element: ElementType::Int,
        };
        return Some(ClassId::Array(array));
    }
    match BuiltIn::named(name.as_bytes()) {
        Some(class) => Some(ClassId::BuiltIn(class)),
        None => match number_of(answer, program, name) {
            Some(number) => Some(ClassId::Given(number)),
            None => None,
        },
    }
}

fn add_found(answer: &mut Answer, program: &Program, found: Option<Method>) {
    match found {
        Some(Method::Given { class, index }) => add_member(answer, program, class, index),
        Some(Method::BuiltIn(member)) => answer.debug(&member),
        None => answer.word("nothing"),
    }
}

/// Adds a member by its class and its place there.
pub fn add_member(answer: &mut Answer, program: &Program, class: u32, index: u16) {
    add_class(answer, program, class);
    answer.word(" ");
    answer.show(&index)
}
