//! Commits in a bare book of one thread, over starts in which some classes are initialized.

ghost use Rattle.std.specs.Prelude.{◌≡◌, ◌<◌, length};
ghost use Rattle.init_engine.specs.Turns.{world_of};

use crate::answer::Answer;
use crate::threads::plan::{ThreadPlan, halves};
use crate::threads::starts::start;
use init_engine::World;
use program::Program;
use std::alloc::{AllocError, Global};
use std::marker::Brand;
use thread_runner::done_set::DoneSet;
use thread_runner::origin::Origin;
use thread_runner::running::{front_stretch, stretch};
use thread_runner::stretch::Stretch;
use thread_runner::{Book, Commit, FrontStretch};

/// Asked is a thread and its commits (`plan.rt`). The setting `frames` says that each stretch is on all frames of the
/// thread, `front` that it is on its innermost one alone, as in a run. A word is a stretch: `known`, over the classes
/// that are initialized; `others`, over those behind `beside`, initialized in another start; `none`, over none;
/// `twice`, over none, and after it another that was made at the same place.
///
/// Answered is what each commit is, and the last run of the journal after it.
pub fn answer(alloc: Global, program: &Program, about: &str) -> Result<String, AllocError> {
    let plan = ThreadPlan::of(about);
    let (initialized, others) = halves(plan.initialized, " beside ");
    let Ok(others) = done_over(alloc, program, plan.entries, others) else {
        return Err(AllocError);
    };
    match start(alloc, program, plan.entries, initialized) {
        Ok(Some(world)) => answers_in::<Brand>(alloc, program, world, &plan, &others),
        Ok(None) => String::from_str(alloc, "no start"),
        Err(error) => Err(error),
    }
}

/// The classes that are initialized in a start.
fn done_over(
    alloc: Global,
    program: &Program,
    entry: &str,
    initialized: &str,
) -> Result<DoneSet, AllocError> {
    match start(alloc, program, entry, initialized) {
        Ok(Some(world)) => done_in::<Brand>(alloc, program, world),
        Ok(None) => Ok(DoneSet::none()),
        Err(error) => Err(error),
    }
}

fn done_in<O: Origin>(alloc: Global, program: &Program, world: World) -> Result<DoneSet, AllocError>
    requires { world_of world ≡ O.start }
{
    let book = Book::<O>::new(alloc, world, 10_000);
    book.done(alloc, program)
}

fn answers_in<O: Origin>(
    alloc: Global,
    program: &Program,
    world: World,
    plan: &ThreadPlan<'_>,
    others: &DoneSet,
) -> Result<String, AllocError>
    requires program { program.now ≡ O.program }
    requires start { world_of world ≡ O.start }
{
    let mut book = Book::<O>::new(alloc, world, 10_000);
    let mut answer = Answer::new(alloc);
    for word in plan.words.split_whitespace() {
        commit_word(&mut answer, program, &mut book, plan.settings, word, others);
    }
    answer.finish()
}

/// Commits what a word asks for.
fn commit_word<O: Origin>(
    answer: &mut Answer,
    program: &Program,
    book: &mut Book<O>,
    kind: &str,
    word: &str,
    others: &DoneSet,
)
    requires { program.now ≡ O.program }
{
    match word {
        "known" => match book.done(answer.alloc, program) {
            Ok(known) => commit_over(answer, program, book, kind, &known),
            Err(_) => answer.refuse(),
        },
        "others" => commit_over(answer, program, book, kind, others),
        "twice" => commit_twice(answer, program, book, kind),
        _ => commit_over(answer, program, book, kind, &DoneSet::none()),
    }
}

/// Commits a stretch over these classes.
fn commit_over<O: Origin>(
    answer: &mut Answer,
    program: &Program,
    book: &mut Book<O>,
    kind: &str,
    done: &DoneSet,
)
    requires { program.now ≡ O.program }
{
    match make(answer.alloc, program, book, kind, done) {
        Ok(made) => commit(answer, program, book, made),
        Err(_) => answer.refuse(),
    }
}

/// Commits two stretches that were made at the same place.
fn commit_twice<O: Origin>(answer: &mut Answer, program: &Program, book: &mut Book<O>, kind: &str)
    requires { program.now ≡ O.program }
{
    let Ok(first) = make(answer.alloc, program, book, kind, &DoneSet::none()) else {
        return answer.refuse();
    };
    let Ok(other) = make(answer.alloc, program, book, kind, &DoneSet::none()) else {
        return answer.refuse();
    };
    commit(answer, program, book, first);
    commit(answer, program, book, other)
}

/// What a thread made.
#[derive(Drop)]
enum MadeStretch<O: Origin> {
    Frames(Stretch<O>),
    Front(Option<FrontStretch<O>>),
}

/// Makes a stretch of the thread from where it is.
fn make<O: Origin>(
    alloc: Global,
    program: &Program,
    book: &Book<O>,
    kind: &str,
    done: &DoneSet,
) -> Result<MadeStretch<O>, AllocError>
    requires { program.now ≡ O.program }
{
    if book.world().thread_count() == 0 {
        return Ok(MadeStretch::Front(None));
    }
    match kind {
        "frames" => make_on_frames(alloc, program, book, done),
        _ => make_on_front(alloc, program, book, done),
    }
}

fn make_on_frames<O: Origin>(
    alloc: Global,
    program: &Program,
    book: &Book<O>,
    done: &DoneSet,
) -> Result<MadeStretch<O>, AllocError>
    requires program { program.now ≡ O.program }
    requires thread { 0 < length book.now.past.world.threads }
{
    let Ok(frames) = book.frames(alloc, 0) else {
        return Err(AllocError);
    };
    match stretch::<O>(alloc, program, frames, done) {
        Ok(made) => Ok(MadeStretch::Frames(made)),
        Err(error) => Err(error),
    }
}

/// A stretch on the thread's front, if it has one.
fn make_on_front<O: Origin>(
    alloc: Global,
    program: &Program,
    book: &Book<O>,
    done: &DoneSet,
) -> Result<MadeStretch<O>, AllocError>
    requires program { program.now ≡ O.program }
    requires thread { 0 < length book.now.past.world.threads }
{
    let frame = match book.front(alloc, 0) {
        Ok(Some(frame)) => frame,
        Ok(None) => return Ok(MadeStretch::Front(None)),
        Err(error) => return Err(error),
    };
    match front_stretch::<O>(alloc, program, 0, frame, done) {
        Ok(made) => Ok(MadeStretch::Front(made)),
        Err(error) => Err(error),
    }
}

/// Commits a stretch.
fn commit<O: Origin>(
    answer: &mut Answer,
    program: &Program,
    book: &mut Book<O>,
    made: MadeStretch<O>,
)
    requires { program.now ≡ O.program }
{
    if book.world().thread_count() == 0 {
        return;
    }
    let commit = match made {
        MadeStretch::Frames(made) => book.commit(answer.alloc, program, 0, made),
        MadeStretch::Front(made) => book.commit_front(answer.alloc, program, 0, made),
    };
    match commit {
        Ok(commit) => add_commit(answer, book, commit),
        Err(_) => answer.refuse(),
    }
}

/// Adds what was answered to a commit, and the journal's last run.
fn add_commit<O: Origin>(answer: &mut Answer, book: &Book<O>, commit: Commit) {
    let (thread, steps) = book.journal().last().copied().unwrap_or((0, 0));
    answer.debug(&commit);
    answer.word(" ");
    answer.show(&thread);
    answer.word(" ");
    answer.show(&steps);
    answer.word(";")
}
