//! Names of classes, for faults.

ghost use Rattle.std.specs.Prelude.{◌≡◌, ◌<◌, Some, length, IfOk};
ghost use Rattle.std.specs.Option.{option_map};
ghost use Rattle.classfile.specs.Units.{units_text};
ghost use Rattle.loading.specs.Families.{name_in};
ghost use Rattle.options.specs.Demands.{used_name};

use classfile::ClassName;
use initializer_analysis::verdict::Reason;
use loading::family::Family;
use loading::names::name_of;
use std::alloc::{AllocError, Global};

/// The name of a given class.
pub(crate) fn class_name(
    alloc: Global,
    family: &Family,
    class: u32,
) -> Result<ClassName, AllocError>
    requires { class < length family.now }
    ensures { IfOk result (λ name. name_in family.now class ≡ Some (units_text name)) }
{
    let classes = family.classes();
    ClassName::from_modified_utf8(alloc, name_of(&classes[class as usize].file))
}

/// The name of the class that another one depends on, if that is why the other one is not accepted.
pub(crate) fn used_name(
    alloc: Global,
    family: &Family,
    reason: Reason,
) -> Result<Option<ClassName>, AllocError>
    ensures { IfOk result (λ used. used_name family.now reason ≡ option_map units_text used) }
{
    let class = match reason {
        Reason::DependsOn(class) => class,
        Reason::Forced
        | Reason::Marked(_)
        | Reason::Cycle
        | Reason::Raised
        | Reason::ForeignObject
        | Reason::Budget
        | Reason::Faulted => return Ok(None),
    };
    match family.file(class) {
        Some(file) => Ok(Some(ClassName::from_modified_utf8(alloc, name_of(file))?)),
        None => Ok(None),
    }
}
