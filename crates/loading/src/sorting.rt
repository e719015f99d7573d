//! Class files in the order of their names, which is that of their numbers.

ghost use Rattle.std.specs.Prelude.{◌≡◌, MatchOption, vec_len};
ghost use Rattle.std.specs.Cmp.Lexicographic.{slice_cmp};
ghost use Rattle.std.specs.Ordering.{nat_cmp};
ghost use Rattle.std.specs.List.Sorted.{IsPermutation};
ghost use Rattle.loading.specs.Names.{name_of};
ghost use Rattle.loading.specs.Files.{IsTwice, IsTaken, IsLeast, No};
ghost use Rattle.loading.specs.steps.Linking.{AreSorted, Ascend, ArePlain};

use crate::names::name_of;
use built_in::class_id::BuiltIn;
use classfile::ClassFile;
use std::cmp::Ordering;

/// How the names of two files compare, by their bytes.
fn by_name(a: &ClassFile, b: &ClassFile) -> Ordering
    ensures { result ≡ slice_cmp nat_cmp (name_of a.now) (name_of b.now) }
{
    name_of(a).cmp(&name_of(b))
}

/// Puts files in the order of their names.
pub(crate) fn sort_by_name(files: &mut Vec<ClassFile>)
    ensures permutation { IsPermutation files.old.items files.new.items }
    ensures len { vec_len files.new ≡ vec_len files.old }
    ensures sorted { AreSorted files.new.items }
{
    files.sort_unstable_by(|a, b| by_name(a, b));
}

/// A file of the least name that two files have.
pub(crate) fn first_twice(files: &[ClassFile]) -> Option<&ClassFile>
    requires { AreSorted files.now }
    ensures { MatchOption result (Ascend files.now) (λ f. IsLeast (IsTwice files.now) (name_of f.now)) }
{
    for next in 1..files.len() {
        let file = &files[next];
        if name_of(&files[next - 1]) == name_of(file) {
            return Some(file);
        }
    }
    None
}

/// The file of the least name that is a built-in class's. Where there is none, no name is an array's either.
pub(crate) fn first_taken(files: &[ClassFile]) -> Option<&ClassFile>
    requires { Ascend files.now }
    ensures { MatchOption result (No (IsTaken files.now) × ArePlain files.now)
        (λ f. IsLeast (IsTaken files.now) (name_of f.now)) }
{
    for file in files {
        if BuiltIn::named(name_of(file)).is_some() {
            return Some(file);
        }
    }
    None
}
