//! The built-in class above each given class (JVMS 4.1, super_class).

ghost use Rattle.std.specs.Prelude.{◌≡◌, ℕ, ◌<◌, length, IfOk, Some, slice_get};
ghost use Rattle.built_in.specs.declared.class_id.BuiltIn.{BuiltIn as Top};
ghost use Rattle.loading.specs.declared.given.Superclass.TheVariants as super;
ghost use Rattle.loading.specs.Families.{AreParentsWithin, superclass_in};
ghost use Rattle.hierarchy.specs.steps.Tops.{AreTops, IsTop};

use built_in::class_id::BuiltIn;
use loading::family::Family;
use loading::given::Superclass;
use std::alloc::{AllocError, Global};

/// By class: the built-in class at the end of its chain of superclasses.
pub(crate) fn tops_of(alloc: Global, family: &Family) -> Result<Vec<BuiltIn>, AllocError>
    ensures { IfOk result (λ tops. AreTops family.now tops.items) }
{
    let mut tops = vec![in alloc; BuiltIn::Object; family.classes().len()]?;
    fill_tops(family, &mut tops);
    Ok(tops)
}

/// Gives each class the built-in class above it.
fn fill_tops(family: &Family, tops: &mut Vec<BuiltIn>)
    requires within { AreParentsWithin family.now }
    requires len { length tops.old.items ≡ length family.now }
    ensures { AreTops family.now tops.new.items }
{
    let order = family.parents_first();
    for class in order {
        let top = top_of(family, tops, *class);
        tops[*class as usize] = top;
    }
}

/// The built-in class above a class, from those of the classes above it.
fn top_of(family: &Family, tops: &[BuiltIn], class: u32) -> BuiltIn
    requires { class < length family.now }
    ensures { ((d : ℕ) → superclass_in family.now class ≡ Some (super.Given d)
        → (b : Top) × (slice_get tops.now d ≡ Some b) × IsTop family.now d b) → IsTop family.now class result }
{
    match family.superclass(class) {
        Some(Superclass::BuiltIn(class)) => class,
        Some(Superclass::Given(above)) => match top_in(tops, above) {
            Some(top) => top,
            None => BuiltIn::Object,
        },
        None => BuiltIn::Object,
    }
}

/// The built-in class of a number.
pub(crate) fn top_in(tops: &[BuiltIn], class: u32) -> Option<BuiltIn>
    ensures { result ≡ slice_get tops.now class }
{
    tops.get(class as usize).copied()
}
