//! The methods of all classes of a family, by one thread or by several: what one does for a class hangs on no other.

ghost use Rattle.std.specs.Prelude.{◌≡◌, ◌≤◌, ◌<◌, ◌^◌, length, true, IfOk};
ghost use Rattle.std.specs.List.{AllZip};
ghost use denote.Param.Send.{IsSync};
ghost use Rattle.program.specs.Programs.{IsImplementation};
ghost use Rattle.program.specs.Signatures.{AreSignatures};
ghost use Rattle.program.specs.steps.Frames.{AreTried, AreWhole, CanImplement, CanImplementAll, IsTried};
ghost use Rattle.program.specs.steps.ResolvedConstants.{HoldsClasses};

use crate::class::{Class, Methods};
use crate::linked_file::LinkedFile;
use crate::methods::methods_of;
use classfile::ClassFile;
use loading::family::Family;
use std::alloc::{AllocError, Global};
use std::thread::{self, Threads};

/// The methods of a class of this file.
fn methods_in(
    alloc: Global,
    family: &Family,
    file: &ClassFile,
    class: &Class,
) -> Result<Methods, AllocError>
    requires pool { HoldsClasses family.now file.now class.now.runtime_pool }
    requires signatures { AreSignatures file.now class.now.signatures }
    ensures { IfOk result (AllZip (IsImplementation family.now file.now) file.now.methods) }
{
    let linked = LinkedFile {
        family,
        file,
        runtime_pool: &class.runtime_pool,
        signatures: &class.signatures,
    };
    methods_of(alloc, &linked)
}

/// Implements the methods of the class of a number, or none of them where memory runs out.
fn implement_one(alloc: Global, family: &Family, number: usize, class: &mut Class)
    requires small { number < 2 ^ 32 }
    requires ready { CanImplement family.now number class.old }
    ensures { IsTried family.now number class.old class.new }
{
    let Some(file) = family.file(number as u32) else {
        return;
    };
    match methods_in(alloc, family, file, class) {
        Ok(methods) => class.methods = methods,
        Err(_) => (),
    }
}

/// Whether each class of a family has as many methods as its file.
fn are_whole(family: &Family, classes: &[Class]) -> bool
    ensures { result ≡ true → AreWhole family.now classes.now }
{
    for (number, given) in family.classes().iter().enumerate() {
        let Some(class) = classes.get(number) else {
            return false;
        };
        if class.methods.count() != given.file.methods().len() {
            return false;
        }
    }
    true
}

/// Implements the methods of all classes of a family, and answers whether memory was there for all.
pub(crate) fn implement(alloc: Global, family: &Family, classes: &mut Vec<Class>) -> bool
    requires many { length classes.old.items ≡ length family.now }
    requires ready { CanImplementAll family.now classes.old.items }
    ensures tried { AreTried family.now classes.old.items classes.new.items }
    ensures whole { result ≡ true → AreWhole family.now classes.new.items }
{
    for number in 0..family.classes().len() {
        implement_one(alloc, family, number, &mut classes[number]);
    }
    are_whole(family, classes.as_slice())
}

/// Does what `implement` does, by at most so many threads.
pub(crate) fn implement_by<R: Threads + Sync>(
    rt: &R,
    alloc: Global,
    threads: usize,
    family: &Family,
    classes: &mut Vec<Class>,
) -> bool
    requires threads { 0 < threads }
    requires many { length classes.old.items ≡ length family.now }
    requires ready { CanImplementAll family.now classes.old.items }
    ensures tried { AreTried family.now classes.old.items classes.new.items }
    ensures whole { result ≡ true → AreWhole family.now classes.new.items }
{
    let _given = family.classes();
    let one = move |number: usize, class: &mut Class|
        requires { (number < 2 ^ 32) × CanImplement family.now number class.now }
        ensures { IsTried family.entry.now number class.entry.now class.exit.now }
    { implement_one(alloc, family, number, class) };
    thread::for_each_mut(rt, classes.as_mut_slice(), threads, &one);
    are_whole(family, classes.as_slice())
}
