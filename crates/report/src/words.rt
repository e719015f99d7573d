//! Names of classes, and reasons.

ghost use Rattle.std.specs.Prelude.{◌≡◌, IfOk};
ghost use Rattle.std.specs.String.{string_bytes};
ghost use Rattle.report.specs.Texts.{class_text, reason_text};

use classfile::printed;
use initializer_analysis::verdict::Reason;
use loading::family::Family;
use loading::names::name_of;
use std::alloc::{AllocError, Global};

/// The name of a given class with slashes, for a reader.
///
/// # Errors
/// Where memory runs out.
pub fn class_text(alloc: Global, family: &Family, class: u32) -> Result<String, AllocError>
    ensures { IfOk result (λ text. string_bytes text ≡ class_text family.now class) }
{
    match family.file(class) {
        Some(file) => printed(alloc, name_of(file)),
        None => Ok(String::new(alloc)),
    }
}

/// The text of a reason. Names of classes are printed with slashes.
///
/// # Errors
/// Where memory runs out.
pub fn reason_text(alloc: Global, family: &Family, reason: Reason) -> Result<String, AllocError>
    ensures { IfOk result (λ text. string_bytes text ≡ reason_text family.now reason) }
{
    let word = reason.word();
    match reason {
        Reason::DependsOn(class) => {
            let name = class_text(alloc, family, class)?;
            format!(in alloc; "{word} {name}")
        }
        Reason::Forced
        | Reason::Marked(_)
        | Reason::Cycle
        | Reason::Raised
        | Reason::ForeignObject
        | Reason::Budget
        | Reason::Faulted => String::from_str(alloc, word),
    }
}
