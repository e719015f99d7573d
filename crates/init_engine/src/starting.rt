//! The start of a run: what entries stand for, and threads that are about to need their classes.

ghost use Rattle.std.specs.Prelude.{◌≡◌, ◌↔◌, ◌⊎◌, ◌<◌, ◌≤◌, ◌∷◌, [], length, map, replicate};
ghost use Rattle.std.specs.Prelude.{Err, IfErr, IfOk, OnOk};
ghost use Rattle.vm_state.specs.Objects.{one_held};
ghost use Rattle.semantics.specs.Worlds.{argument, threads_from};
ghost use Rattle.machine.specs.Linked.{program_of, start_frame};
ghost use Rattle.init_engine.specs.Numbering.{AreNumbered};
ghost use Rattle.init_engine.specs.Threads.{thread_of, HasNumber};
ghost use Rattle.program.specs.Tables.{Tables};
ghost use Rattle.semantics.specs.Steps.{Going};
ghost use Rattle.init_engine.specs.Turns.{world_of};
ghost use Rattle.init_engine.specs.Starts.{IsEntryCount, IsCountFault, IsEntry, AreEntries, IsStart, IsAtFault};
ghost use Rattle.init_engine.specs.Starts.{IsFirstAtFault, EntriesFail, StandForEntries, OneListOfEntries};
ghost use Rattle.init_engine.specs.Starts.{start_over, IsLazyShared};
ghost use Rattle.vm_state.specs.Shares.{shared_of};
ghost use Rattle.init_engine.specs.declared.fault.EntryFault.TheVariants.{Memory, Count};

use crate::fault::EntryFault;
use crate::world::{Thread, World};
use built_in::class_id::{ArrayType, BuiltIn, ClassId, ElementType};
use classfile::ClassName;
use machine::entering::{blank_classes, start_frame};
use program::Program;
use std::alloc::{AllocError, Global};
use vm_state::heap::Heap;
use vm_state::object::{Monitor, Object, Slots};
use vm_state::shared::Shared;

/// The most entries that are run together: a thread each.
const MOST: usize = 64;

/// Refuses a count of entries that there may not be.
fn check_count(count: usize) -> Result<(), EntryFault>
    ensures ok { OnOk result (IsEntryCount count) }
    ensures fault { IfErr result (λ fault. IsCountFault count fault) }
{
    if count == 0 {
        return Err(EntryFault::Count);
    }
    if count > MOST {
        return Err(EntryFault::Count);
    }
    Ok(())
}

/// The class of the entry of a place, which may be run.
fn entry_class(
    alloc: Global,
    program: &Program,
    place: usize,
    name: &ClassName,
) -> Result<u32, EntryFault>
    ensures entry { IfOk result (λ class. IsEntry program.now name.now class) }
    ensures fault { IfErr result (λ fault. (fault ≡ Memory) ⊎ IsAtFault program.now name.now place fault) }
{
    let Some(class) = program.number_of(alloc, name)? else {
        return Err(EntryFault::Unknown { entry: place });
    };
    if program.main(class).is_none() {
        return Err(EntryFault::NoMain { entry: place });
    }
    Ok(class)
}

/// The classes of entries, which may all be run, however many there are.
fn find_classes(
    alloc: Global,
    program: &Program,
    entries: &[ClassName],
) -> Result<Vec<u32>, EntryFault>
    ensures entries { IfOk result (λ classes. AreEntries program.now entries.now classes.items) }
    ensures fault { IfErr result (λ fault. (fault ≡ Memory) ⊎ IsFirstAtFault program.now entries.now fault) }
{
    let mut classes = Vec::new(alloc);
    for (place, name) in entries.iter().enumerate() {
        classes.push(entry_class(alloc, program, place, name)?)?;
    }
    Ok(classes)
}

/// The classes that entries stand for: the given class of each name, which has a `main` of its own.
///
/// # Errors
/// `Count` where there is no entry or more than 64, before memory is asked for. Else the first entry at fault:
/// `Unknown` where no class of its name was given, `NoMain` where the class declares no such `main` itself; or
/// `Memory`.
pub fn entry_classes(
    alloc: Global,
    program: &Program,
    entries: &[ClassName],
) -> Result<Vec<u32>, EntryFault>
    ensures classes { IfOk result (λ classes. StandForEntries program.now entries.now classes.items) }
    ensures few { IfOk result (λ classes. length classes.items ≤ 64) }
    ensures count { (result ≡ Err Count) ↔ ((length entries.now ≡ 0) ⊎ (64 < length entries.now)) }
    ensures fault { IfErr result (λ fault. (fault ≡ Memory) ⊎ EntriesFail program.now entries.now fault) }
{
    check_count(entries.len())?;
    let classes = find_classes(alloc, program, entries)?;
    Ok(classes)
}

/// Names stand for one list of classes.
pub fn one_list_of_entries()
    ensures { OneListOfEntries }
{}

/// The array of no strings that `main` is called with.
fn argument(alloc: Global) -> Object
    ensures { result ≡ argument }
{
    Object {
        class: ClassId::Array(ArrayType {
            dimensions: 1,
            element: ElementType::BuiltIn(BuiltIn::String),
        }),
        slots: Slots::none(alloc),
        monitor: Monitor::Free,
    }
}

/// The argument of each thread, its first object, and no others.
fn arguments(alloc: Global, count: usize) -> Result<Heap, AllocError>
    ensures { IfOk result (λ heap. heap ≡ record { classes = []; threads = replicate count (one_held argument) }) }
{
    let mut heap = Heap::new(alloc);
    for _ in 0..count {
        heap.add_thread(alloc, argument(alloc))?;
    }
    Ok(heap)
}

/// Threads in the order of their numbers, each about to need its entry class.
fn threads_of(alloc: Global, classes: &[u32]) -> Result<Vec<Thread>, AllocError>
    requires { length classes.now ≤ 64 }
    ensures threads { IfOk result (λ threads. (P : Tables) → map thread_of threads.items
        ≡ threads_from (program_of P) 0 classes.now) }
    ensures numbered { IfOk result (λ threads. AreNumbered threads.items) }
    ensures count { IfOk result (λ threads. length threads.items ≤ 64) }
{
    let mut threads = Vec::new(alloc);
    for (number, class) in classes.iter().enumerate() {
        threads.push(starting(alloc, *class, number as u32)?)?;
    }
    Ok(threads)
}

/// A thread that is about to need its entry class.
fn starting(alloc: Global, class: u32, number: u32) -> Result<Thread, AllocError>
    ensures thread { IfOk result (λ thread. thread_of thread ≡ Going (start_frame class number ∷ []) []) }
    ensures number { IfOk result (λ thread. HasNumber thread number) }
{
    let top = start_frame(alloc, class, number)?;
    Ok(Thread::on(alloc, number, top))
}

/// What `count` threads share in the lazy start: no class is initialized, and each thread's argument is its first
/// object.
///
/// # Errors
/// `AllocError` where memory is refused.
pub fn lazy_shared(alloc: Global, program: &Program, count: usize) -> Result<Shared, AllocError>
    ensures { IfOk result (IsLazyShared program.now count) }
{
    let heap = arguments(alloc, count)?;
    Ok(Shared::new(blank_classes(alloc, program)?, heap))
}

impl World {
    /// The start over some shared state: a thread for each class is about to need it.
    ///
    /// # Errors
    /// `AllocError` where memory is refused.
    pub fn start(alloc: Global, shared: Shared, classes: &[u32]) -> Result<World, AllocError>
        requires { length classes.now ≤ 64 }
        ensures { IfOk result (λ w. (P : Tables) → world_of w
            ≡ start_over (program_of P) (shared_of shared []) classes.now) }
    {
        let threads = threads_of(alloc, classes)?;
        Ok(World::of_threads(alloc, threads, shared))
    }

    /// The lazy start: no class is initialized, and a thread for each entry is about to need its entry class
    /// (JVMS 5.2, 5.5). One class may be the entry of several threads.
    ///
    /// # Errors
    /// `Count` where there is no entry or more than 64, before memory is asked for. Else the first entry at fault:
    /// `Unknown` where no class of its name was given, `NoMain` where the class declares no such `main` itself; or
    /// `Memory`.
    pub fn lazy(
        alloc: Global,
        program: &Program,
        entries: &[ClassName],
    ) -> Result<World, EntryFault>
        // The world is the start of the classes of these names, each with a `main` of its own.
        ensures start { IfOk result (λ w. IsStart program.now entries.now (world_of w)) }

        // A wrong number of entries is answered by `Count`, whatever memory does, and nothing else is.
        ensures count { (result ≡ Err Count) ↔ ((length entries.now ≡ 0) ⊎ (64 < length entries.now)) }

        // What is answered otherwise is what is wrong with the entries, or that memory ran out.
        ensures fault { IfErr result (λ fault. (fault ≡ Memory) ⊎ EntriesFail program.now entries.now fault) }
    {
        let classes = entry_classes(alloc, program, entries)?;
        let shared = lazy_shared(alloc, program, classes.len())?;
        Ok(World::start(alloc, shared, classes.as_slice())?)
    }
}
