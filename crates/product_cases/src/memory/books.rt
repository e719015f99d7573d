//! Calls on a book, by commits of one thread.

ghost use Rattle.std.specs.Prelude.{◌≡◌, ◌<◌, length};
ghost use Rattle.init_engine.specs.Turns.{world_of};

use super::page::Page;
use super::programs::start_of;
use crate::streams::OneByOne;
use init_engine::World;
use program::Program;
use sinks::Out;
use std::alloc::{AllocError, Global};
use std::io::Write;
use std::marker::Brand;
use thread_runner::origin::Origin;
use thread_runner::running::stretch;
use thread_runner::{Book, Commit};

/// No run here takes as many commits.
const MANY: u32 = 10_000;

/// What the thread prints.
const PRINTED: &[u8] = b"7\n7\n7\n";

/// Makes a call twice over the same things lent.
pub fn call<W: Write>(page: &mut Page<'_, W>, name: &str, program: &Program) {
    if name != "commit" {
        return page.give_up();
    }
    commit_work(page, program);
    commit_work(page, program);
}

fn commit_work<W: Write>(page: &mut Page<'_, W>, program: &Program) {
    let Some(world) = start_of(page.alloc, program, "Work") else {
        return page.give_up();
    };
    commit_in::<Brand, W>(page, program, world)
}

fn commit_in<O: Origin, W: Write>(page: &mut Page<'_, W>, program: &Program, world: World)
    requires program { program.now ≡ O.program }
    requires start { world_of world ≡ O.start }
{
    let mut book = Book::<O>::new(page.alloc, world, 10_000);
    commit_all(page, program, &mut book);
    tell_book(page, &mut book)
}

fn commit_all<O: Origin, W: Write>(page: &mut Page<'_, W>, program: &Program, book: &mut Book<O>)
    requires { program.now ≡ O.program }
{
    page.ask("commit");
    match commit_on(page.alloc, program, book) {
        Ok(()) => page.value(0),
        Err(_) => page.memory(),
    }
    if commit_on(page.alloc, program, book).is_err() {
        page.give_up();
    }
}

/// Commits of the first thread up to the first that does not move: each of a stretch over its frames and the classes
/// that are initialized.
fn commit_on<O: Origin>(
    alloc: Global,
    program: &Program,
    book: &mut Book<O>,
) -> Result<(), AllocError>
    requires { program.now ≡ O.program }
{
    for _ in 0..MANY {
        if book.world().thread_count() == 0 {
            return Ok(());
        }
        if !commit_one(alloc, program, book)? {
            return Ok(());
        }
    }
    Ok(())
}

/// Whether the first thread moves.
fn commit_one<O: Origin>(
    alloc: Global,
    program: &Program,
    book: &mut Book<O>,
) -> Result<bool, AllocError>
    requires program { program.now ≡ O.program }
    requires thread { 0 < length book.old.past.world.threads }
{
    let Ok(frames) = book.frames(alloc, 0) else {
        return Err(AllocError);
    };
    let Ok(done) = book.done(alloc, program) else {
        return Err(AllocError);
    };
    let Ok(made) = stretch::<O>(alloc, program, frames, &done) else {
        return Err(AllocError);
    };
    match book.commit(alloc, program, 0, made) {
        Ok(commit) => Ok(matches!(commit, Commit::Moved)),
        Err(error) => Err(error),
    }
}

/// Tells the journal of a book, what is seen of its world, and how much of what was printed goes out.
fn tell_book<O: Origin, W: Write>(page: &mut Page<'_, W>, book: &mut Book<O>) {
    let mut out = Out::new(OneByOne::failing(PRINTED, PRINTED.len()));
    page.ask("send");
    let answer = book.send(&mut out);
    if answer.is_ok() && out.into_inner().is_full() {
        page.value(book.journal().len());
    } else {
        page.line(&"a fault of the sink, or another text");
    }
    page.world(book.world());
}
