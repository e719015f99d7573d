//! Flags along superclasses.

ghost use Rattle.std.specs.Prelude.{◌≡◌, ℕ, ◌<◌, IfSome, length, option_to_list};
ghost use Rattle.std.specs.List.{Contains};
ghost use Rattle.loading.specs.Families.{superclasses_in};
ghost use Rattle.options.specs.Classes.{AreClasses, IsAtOrAbove, IsAtOrBelow};
ghost use Rattle.options.specs.steps.Flags.{Grow, HasFlaggedSuperclass, IsFlagged};

use crate::flags::flag;
use loading::family::Family;
use loading::given::Superclass;

/// The superclass of a class, if it is a given one.
fn given_superclass(family: &Family, class: u32) -> Option<u32>
    ensures value { superclasses_in family.now class ≡ option_to_list result }
    ensures within { IfSome result (λ above. above < length family.now) }
{
    match family.superclass(class) {
        Some(Superclass::Given(above)) => Some(above),
        Some(Superclass::BuiltIn(_)) | None => None,
    }
}

/// Flags each class below a flagged one.
pub(crate) fn flag_below(family: &Family, flags: &mut [bool])
    requires { length flags.old ≡ length family.now }
    ensures len { length flags.new ≡ length flags.old }
    ensures flags { AreClasses flags.new (IsAtOrBelow family.now (IsFlagged flags.old)) }
{
    for class in family.parents_first() {
        flag_below_one(family, *class, flags);
    }
}

/// Flags a class whose superclass is flagged.
fn flag_below_one(family: &Family, class: u32, flags: &mut [bool])
    requires within { class < length flags.old }
    requires len { length flags.old ≡ length family.now }
    ensures { Grow flags.old flags.new (λ c. (c ≡ class) × HasFlaggedSuperclass family.now flags.old class) }
{
    let Some(above) = given_superclass(family, class) else {
        return;
    };
    if flags[above as usize] {
        flag(flags, class as usize);
    }
}

/// Flags each class above a flagged one.
pub(crate) fn flag_above(family: &Family, flags: &mut [bool])
    requires { length flags.old ≡ length family.now }
    ensures len { length flags.new ≡ length flags.old }
    ensures flags { AreClasses flags.new (IsAtOrAbove family.now (IsFlagged flags.old)) }
{
    let order = family.parents_first();
    for place in (0..order.len()).rev() {
        flag_above_one(family, order[place], flags);
    }
}

/// Flags the superclass of a flagged class.
fn flag_above_one(family: &Family, class: u32, flags: &mut [bool])
    requires within { class < length flags.old }
    requires len { length flags.old ≡ length family.now }
    ensures { Grow flags.old flags.new
        (λ c. IsFlagged flags.old class × Contains (superclasses_in family.now class) c) }
{
    if !flags[class as usize] {
        return;
    }
    if let Some(above) = given_superclass(family, class) {
        flag(flags, above as usize);
    }
}
