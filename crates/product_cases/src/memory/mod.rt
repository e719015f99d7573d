//! Calls that take memory, each made twice over the same things lent, of the classes of `memory/classes.txt`; and
//! inputs that are fed to readers. The bytes of the classes, and of images, stand in `assembled/memory`.
//!
//! A line has the name of a call and what it answered. `MEMORY.md` says what `./test` makes of them.

mod books;
mod feeding;
mod files;
mod images;
mod inputs;
mod lists;
mod page;
mod programs;
mod readers;
mod runs;
mod threads;
mod verdicts;

use crate::answer::Answer;
use crate::hex::files_of;
use feeding::feed;
use page::Page;
use program::Program;
use programs::linked;
use std::io::{self, Write};
use std::sync::Wait;
use std::thread::Threads;
use std::{fs, rt};

/// Makes a call: the word has its group, which is the file that it stands in, and its name. Answers whether all went
/// well.
pub fn call<R, W>(rt: &R, out: &mut W, word: &str) -> io::Result<bool>
where
    R: rt::Files + AllocGlobal + Threads + Wait + Sync,
    W: Write,
{
    let files = fs::read_to_string(rt, "assembled/memory/classes.txt")?;
    let images = fs::read_to_string(rt, "assembled/memory/images.txt")?;
    let mut page = Page::new(rt.alloc(), out);
    let mut notes = Answer::new(rt.alloc());
    let files = files_of(&mut notes, &files);
    let images = files_of(&mut notes, &images);
    match notes.finish() {
        Ok(_) => of_files(rt, &mut page, word, &files, &images),
        Err(_) => page.give_up(),
    }
    Ok(page.is_well())
}

/// Makes a call on files, or on the program that they make.
fn of_files<R: Threads + Wait + Sync, W: Write>(
    rt: &R,
    page: &mut Page<'_, W>,
    word: &str,
    files: &[Vec<u8>],
    images: &[Vec<u8>],
) {
    match word.split_once(' ') {
        Some(("files", name)) => files::call(page, name, files),
        Some(("images", name)) => images::call(rt, page, name, files, images),
        Some((group, name)) => match linked(page.alloc, files) {
            Some(program) => of_program(rt, page, group, name, &program, files, images),
            None => page.give_up(),
        },
        None => page.give_up(),
    }
}

fn of_program<R: Threads + Wait + Sync, W: Write>(
    rt: &R,
    page: &mut Page<'_, W>,
    group: &str,
    name: &str,
    program: &Program,
    files: &[Vec<u8>],
    images: &[Vec<u8>],
) {
    match group {
        "verdicts" => verdicts::call(rt, page, name, program),
        "lists" => lists::call(page, name, program),
        "runs" => runs::call(page, name, program),
        "books" => books::call(page, name, program),
        "threads" => threads::call(rt, page, name, program),
        "feed" => feed(page, name, program, files, images),
        _ => page.give_up(),
    }
}
