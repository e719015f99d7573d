//! What the texts of a constant pool are, found out once for each.

ghost use Rattle.std.specs.Prelude.{◌≡◌, IfOk};
ghost use Rattle.classfile.specs.reading.Forms.{form_of, forms_of};

use crate::constant::Constant;
use crate::descriptor::{is_class_name, is_field, is_method};
use std::alloc::{AllocError, Global};

/// Whether a text is a field's descriptor, a method's descriptor (JVMS 4.3), and a class's name (JVMS 4.4.1).
#[derive(Clone, Copy)]
pub(crate) struct TextForm {
    pub(crate) is_field: bool,
    pub(crate) is_method: bool,
    pub(crate) is_class_name: bool,
}

fn form_of(constant: &Constant) -> TextForm
    ensures { result ≡ form_of constant.now }
{
    match constant {
        Constant::Utf8 { text } => TextForm {
            is_field: is_field(text.bytes()),
            is_method: is_method(text.bytes()),
            is_class_name: is_class_name(text.bytes()),
        },
        _ => TextForm {
            is_field: false,
            is_method: false,
            is_class_name: false,
        },
    }
}

/// The forms by index.
pub(crate) fn forms_of(alloc: Global, pool: &[Constant]) -> Result<Vec<TextForm>, AllocError>
    ensures { IfOk result (λ forms. forms.items ≡ forms_of pool.now) }
{
    let mut forms = Vec::with_capacity(alloc, pool.len())?;
    for constant in pool {
        forms.push(form_of(constant))?;
    }
    Ok(forms)
}
