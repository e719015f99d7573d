//! One way through all classes, each after its parents, on which what is known of declarations goes from class to class
//! (JVMS 5.4.3.2 to 5.4.3.4).

ghost use Rattle.std.specs.Prelude.{◌≡◌, ◌<◌, ◌++◌, ◌∷◌, [], ℕ, List, Option, Some, length};
ghost use Rattle.std.specs.List.{Contains};
ghost use Rattle.loading.specs.Families.{Family as Classes, parents_in};
ghost use Rattle.hierarchy.specs.steps.DeclarationBits.{AreKnown, IsOwn, Knows, known_of, own_of};
ghost use Rattle.hierarchy.specs.steps.ParentSteps.{AreSteps};

use crate::bits::{Known, Own};
use crate::parents_first::ParentsFirst;
use loading::family::Family;

/// What is known of the parents of a class and those above them.
fn above(parents: &[u32], rows: &[Known]) -> Known
    ensures { (family : Classes) (declares : ℕ → Option ℕ) (d k n : ℕ) → n < 64
        → AreKnown family declares d k n parents.now rows.now
        → Knows family declares parents.now d k n result }
{
    let mut known = Known::none();
    for parent in parents {
        if let Some(row) = rows.get(*parent as usize) {
            known = known.before(*row);
        }
    }
    known
}

/// Finds what is known from a class on, after that of its parents.
fn fill_class(rows: &mut [Known], class: u32, own: Own, parents: &[u32])
    requires { class < length rows.old }
    ensures len { length rows.new ≡ length rows.old }
    ensures filled { (family : Classes) (declares : ℕ → Option ℕ) (done : List ℕ) (d k n : ℕ) → n < 64
        → declares d ≡ Some k → IsOwn declares class d n own
        → parents.now ≡ parents_in family class
        → ((p : ℕ) → Contains parents.now p → Contains done p)
        → AreKnown family declares d k n done rows.old
        → AreKnown family declares d k n (done ++ class ∷ []) rows.new }
{
    rows[class as usize] = above(parents, rows).below(own);
}

/// Finds what is known from each class on, by what each has of its own.
pub(crate) fn fill(family: &Family, order: &ParentsFirst, own: &[Own], rows: &mut [Known])
    requires order { AreSteps family.now order.now.steps.items order.now.parents.items }
    requires len { length rows.old ≡ length family.now }
    requires owns { length own.now ≡ length family.now }
    ensures len { length rows.new ≡ length family.now }
    ensures filled { (declares : ℕ → Option ℕ) (d k n c : ℕ) → n < 64 → declares d ≡ Some k
        → ((x : ℕ) → x < length family.now → IsOwn declares x d n (own_of own.now x)) → c < length family.now
        → Knows family.now declares (c ∷ []) d k n (known_of rows.new c) }
{
    let steps = order.steps.as_slice();
    for step in steps {
        let here = own[step.class as usize];
        fill_class(rows, step.class, here, order.parents_of(*step));
    }
}
