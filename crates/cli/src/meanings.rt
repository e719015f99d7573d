//! What a refusal means, in words: the second line of one, where `--verbose` asks for it.
//!
//! Standard error is a trait, so that no function that tells something has the parts of a `Voice` among its locals.

use crate::{CommandFault, Request};
use classfile::ClassFault;
use init_engine::EntryFault;
use loading::fault::{BadParent, LinkFault};
use std::alloc::Global;
use std::io::{self, Write};

/// The range of a budget.
const BUDGETS: &str = "the budget is a number from 1 to 1000000000";

/// The range of the number of workers.
const WORKERS: &str = "there are 1 to 64 workers";

/// The range of a limit.
const LIMITS: &str = "the limit is a number from 1 to 1000000000000000";

/// The range of the number of steps of a replay.
const STEPS: &str = "the number of steps is from 0 to 1000000000000000";

/// What is wrong with a file that does not begin as a class file does.
pub(crate) const NO_CLASS_FILE: &str = "no class file, since it does not begin with CAFEBABE";

/// Standard error. A failure of it is ignored.
pub(crate) trait Errors {
    /// Tells a text as it stands.
    fn tell(&mut self, text: &str);

    /// Tells a refusal, and then what it means, if that is asked for.
    fn refuse(&mut self, refusal: &CommandFault);

    /// Tells that memory was refused, and then what was at work, if that is asked for.
    fn refuse_memory(&mut self, work: &str);

    /// Tells what is wrong with the words, and then the range of a number that is, if that is asked for.
    fn wrong(&mut self, text: &str);
}

/// What is left to be told of a refusal, since it takes what the words name.
#[derive(Drop)]
pub(crate) enum Untold {
    /// The class file of this place, and what is wrong with it.
    Class(usize, &'static str),
    /// The file of this place does not begin as a class file does.
    NoClassFile(usize),
    /// The entry of this place, and what is wrong with it.
    Entry(usize, &'static str),
    /// The image is wrong.
    Image,
    /// A list of classes is wrong, as this text says.
    List(String),
    /// A class lacks a parent.
    Parents,
    /// A class has the name of one that the machine has of itself.
    BuiltIn,
    /// Two class files are of the class of this name, as it is printed.
    Twice(String),
}

/// A standard error, and whether refusals are explained there.
#[derive(Drop)]
pub(crate) struct Voice<'a, E> {
    alloc: Global,
    errors: &'a mut E,
    is_verbose: bool,
    untold: Option<Untold>,
}

impl<'a, E: Write> Voice<'a, E> {
    /// One for these words, which are no command.
    pub(crate) fn of_words(alloc: Global, words: &[&str], errors: &'a mut E) -> Voice<'a, E> {
        Voice {
            alloc,
            errors,
            is_verbose: words.contains(&"--verbose"),
            untold: None,
        }
    }

    /// One that explains what the words of a request ask for.
    pub(crate) fn of(alloc: Global, request: &Request<'_>, errors: &'a mut E) -> Voice<'a, E> {
        Voice {
            alloc,
            errors,
            is_verbose: request.is_verbose(),
            untold: None,
        }
    }

    /// What is left to be told.
    pub(crate) fn into_untold(self) -> Option<Untold> {
        self.untold
    }
}

impl<E: Write> Errors for Voice<'_, E> {
    fn tell(&mut self, text: &str) {
        let _ = self.errors.write_all(text.as_bytes());
        let _ = self.errors.flush();
    }

    fn refuse(&mut self, refusal: &CommandFault) {
        let _ = writeln!(self.errors, "preinit: {refusal}");
        if self.is_verbose {
            self.untold = left_untold(self.alloc, refusal);
            if self.untold.is_none() {
                let _ = write_meaning(self.errors, refusal);
            }
        }
        let _ = self.errors.flush();
    }

    fn refuse_memory(&mut self, work: &str) {
        let refusal = CommandFault::Memory;
        let _ = writeln!(self.errors, "preinit: {refusal}");
        if self.is_verbose {
            let meaning = meaning(&refusal);
            let _ = writeln!(self.errors, "{meaning}, while {work}");
        }
        let _ = self.errors.flush();
    }

    fn wrong(&mut self, text: &str) {
        self.tell(text);
        if self.is_verbose
            && let Some(range) = range_in(text)
        {
            let _ = writeln!(self.errors, "{range}");
            let _ = self.errors.flush();
        }
    }
}

/// The range of the number that words get wrong, by what is said of them, where that does not say it.
fn range_in(text: &str) -> Option<&'static str> {
    if text.contains("' for '--budget <N>'") {
        Some(BUDGETS)
    } else if text.contains("' for '--workers <N>'") {
        Some(WORKERS)
    } else if text.contains("' for '--limit <N>'") && !text.contains(" is not in ") {
        Some(LIMITS)
    } else if text.contains("' for '--at <N>'") && !text.contains(" is not in ") {
        Some(STEPS)
    } else {
        None
    }
}

/// What takes the names in the words to be told of a refusal. None where memory for it is refused.
fn left_untold(alloc: Global, refusal: &CommandFault) -> Option<Untold> {
    match refusal {
        CommandFault::Class(place, ClassFault::Magic) => Some(Untold::NoClassFile(*place)),
        CommandFault::Class(place, fault) => Some(Untold::Class(*place, class_meaning(fault))),
        CommandFault::Entry(fault) => match fault {
            EntryFault::Unknown { entry } | EntryFault::NoMain { entry } => {
                Some(Untold::Entry(*entry, entry_meaning(fault)))
            }
            _ => None,
        },
        CommandFault::Image(_) => Some(Untold::Image),
        CommandFault::Link(fault) => left_of_link(alloc, fault),
        CommandFault::Option(text) => match String::from_str(alloc, text.as_str()) {
            Ok(text) => Some(Untold::List(text)),
            Err(_) => None,
        },
        _ => None,
    }
}

/// What takes the names of the class files to be told of a fault of linking.
fn left_of_link(alloc: Global, fault: &LinkFault) -> Option<Untold> {
    match fault {
        LinkFault::Twice { name } => match name.to_string(alloc) {
            Ok(name) => Some(Untold::Twice(name)),
            Err(_) => None,
        },
        LinkFault::Parent { kind, .. } => match kind {
            BadParent::UnknownSuperclass | BadParent::UnknownInterface => Some(Untold::Parents),
            _ => None,
        },
        LinkFault::BuiltIn { .. } => Some(Untold::BuiltIn),
        _ => None,
    }
}

/// What is wrong with the name of a file, where that can't be seen.
fn oddity_of(name: &str) -> Option<&'static str> {
    if name.starts_with('\u{FEFF}') {
        Some("a byte order mark stands before this name; write the list without one")
    } else if name.contains('\0') {
        Some("this name has a byte 0, which no name of a file has")
    } else {
        None
    }
}

/// Writes what a refusal means, as a line.
fn write_meaning<E: Write>(errors: &mut E, refusal: &CommandFault) -> io::Result<()> {
    match refusal {
        CommandFault::File(name, cause) => match oddity_of(name) {
            Some(oddity) => writeln!(errors, "{name}: {oddity}"),
            None => writeln!(errors, "{name}: {cause}"),
        },
        CommandFault::List(name) => writeln!(errors, "{name}: it is a list that is not UTF-8"),
        _ => {
            let meaning = meaning(refusal);
            writeln!(errors, "{meaning}")
        }
    }
}

/// What a refusal means that names no file.
fn meaning(refusal: &CommandFault) -> &'static str {
    match refusal {
        CommandFault::Memory => "the system gave no more memory",
        CommandFault::Link(fault) => link_meaning(fault),
        CommandFault::Entry(fault) => entry_meaning(fault),
        CommandFault::Option(_) => "a list of classes is wrong",
        CommandFault::Budget => BUDGETS,
        CommandFault::Wave(_) => WORKERS,
        CommandFault::Text(_) => {
            "a line of a journal is a thread, one space, a number of steps and a line feed, and nothing else"
        }
        CommandFault::Turn(_) => "the thread of this line is not there, or has no such steps",
        CommandFault::Spawn => "the system started no thread",
        CommandFault::Device => "standard output was closed, or its device is full",
        CommandFault::Class(..)
        | CommandFault::File(..)
        | CommandFault::Image(_)
        | CommandFault::List(_) => "a file is wrong",
    }
}

fn class_meaning(fault: &ClassFault) -> &'static str {
    match fault {
        ClassFault::Version { .. } => {
            "a class file of another version than 52.0: compile with --release 8"
        }
        ClassFault::Magic => NO_CLASS_FILE,
        ClassFault::Truncated { .. } => "it ends within what begins at this byte",
        ClassFault::Extra { .. } => "it goes on at this byte, behind its class",
        _ => "it breaks a rule of class files, at this constant or byte",
    }
}

fn link_meaning(fault: &LinkFault) -> &'static str {
    match fault {
        LinkFault::Memory => "the system gave no more memory",
        LinkFault::Limit => "there are more than 65,535 classes",
        LinkFault::Twice { .. } => "two class files are of this class",
        LinkFault::BuiltIn { .. } => "the machine has this class of itself: leave it out",
        LinkFault::Parent { kind, .. } => parent_meaning(*kind),
        LinkFault::Circle { .. } => "the class is its own ancestor",
    }
}

fn parent_meaning(kind: BadParent) -> &'static str {
    match kind {
        BadParent::NoSuperclass => "the class has no superclass",
        BadParent::UnknownSuperclass => "no class file of its superclass is given",
        BadParent::NoClass => "its superclass is an interface, or can't be extended",
        BadParent::NotObject => "it is an interface that extends a class",
        BadParent::UnknownInterface => "no class file of an interface of it is given",
        BadParent::NoInterface => "it implements what is no interface",
    }
}

fn entry_meaning(fault: &EntryFault) -> &'static str {
    match fault {
        EntryFault::Memory => "the system gave no more memory",
        EntryFault::Unknown { .. } => {
            "no class that is given has this name; write it with dots and packages"
        }
        EntryFault::NoMain { .. } => "the class itself declares no static main(String[])",
        EntryFault::Count => "there are 1 to 64 entries",
    }
}
