//! What readers answer to inputs: a value, or a fault of a name.

use super::files::instructions_in;
use super::programs::start_of;
use crate::answer::Answer;
use classfile::ClassFile;
use cli::entries_of;
use init_engine::World;
use journal::{Journal, JournalFault};
use options::{force, parse};
use program::{Program, link};
use sha2::{Digest, Sha256};
use std::str::from_utf8;
use thread_runner::replay::{ReplayFault, replay};

/// Who reads an input.
#[derive(Clone, Copy)]
pub enum Reader {
    /// `classfile::read`, then `decode` of each method, then `link`.
    ClassFiles,
    /// `image_reader::read`, of the input and its digest.
    Images,
    /// `Journal::parse`, then `replay`.
    Journals,
    /// `options::parse`, then `force`.
    Lists,
    /// `World::lazy`, of the names of a list.
    Entries,
}

impl Reader {
    /// What it is called.
    pub fn name(self) -> &'static str {
        match self {
            Reader::ClassFiles => "class files",
            Reader::Images => "images",
            Reader::Journals => "journals",
            Reader::Lists => "lists",
            Reader::Entries => "entries",
        }
    }

    /// What it answers: a word for a value, or a fault. Journals, lists and entries are about the classes of a program.
    pub fn ask(self, answer: &mut Answer, program: &Program, bytes: &[u8]) {
        match self {
            Reader::ClassFiles => of_class_file(answer, bytes),
            Reader::Images => of_image(answer, bytes),
            Reader::Journals => of_journal(answer, program, bytes),
            Reader::Lists => of_list(answer, program, from_utf8(bytes).unwrap_or("")),
            Reader::Entries => of_entries(answer, program, from_utf8(bytes).unwrap_or("")),
        }
    }
}

fn of_class_file(answer: &mut Answer, bytes: &[u8]) {
    match classfile::read(answer.alloc, bytes) {
        Ok(class) => of_class(answer, class),
        Err(fault) => answer.show(&fault),
    }
}

fn of_class(answer: &mut Answer, class: ClassFile) {
    let mut classes = Vec::new(answer.alloc);
    if classes.push(class).is_err() || instructions_in(answer.alloc, &classes).is_err() {
        return answer.refuse();
    }
    match link(answer.alloc, classes) {
        Ok(_) => answer.word("linked"),
        Err(fault) => answer.show(&fault),
    }
}

fn of_image(answer: &mut Answer, bytes: &[u8]) {
    let mut whole = answer.copied(bytes);
    let mut hasher = Sha256::new();
    hasher.update(bytes);
    let digest = hasher.finalize();
    answer.note(whole.extend_from_slice(&digest));
    match image_reader::read(answer.alloc, &whole) {
        Ok(_) => answer.word("read"),
        Err(fault) => answer.show(&fault),
    }
}

fn of_journal(answer: &mut Answer, program: &Program, bytes: &[u8]) {
    match Journal::parse(answer.alloc, bytes) {
        Ok(journal) => of_replay(answer, program, &journal),
        Err(JournalFault::Memory) => answer.refuse(),
        Err(JournalFault::Text(_)) => answer.word("Text"),
    }
}

fn of_replay(answer: &mut Answer, program: &Program, journal: &Journal) {
    let Some(start) = start_of(answer.alloc, program, "Work,Work") else {
        return answer.refuse();
    };
    match replay(answer.alloc, program, start, journal) {
        Ok(_) => answer.word("replayed"),
        Err(ReplayFault::Memory) => answer.refuse(),
        Err(ReplayFault::Turn(_)) => answer.word("Turn"),
    }
}

fn of_list(answer: &mut Answer, program: &Program, list: &str) {
    let forced = match parse(answer.alloc, list) {
        Ok(patterns) => force(answer.alloc, program, &patterns),
        Err(fault) => Err(fault),
    };
    match forced {
        Ok(_) => answer.word("known"),
        Err(fault) => answer.show(&fault),
    }
}

fn of_entries(answer: &mut Answer, program: &Program, list: &str) {
    let Ok(entries) = entries_of(answer.alloc, list) else {
        return answer.refuse();
    };
    match World::lazy(answer.alloc, program, &entries) {
        Ok(_) => answer.word("started"),
        Err(fault) => answer.show(&fault),
    }
}
