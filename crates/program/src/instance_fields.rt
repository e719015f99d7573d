//! The fields of instances of a class (JVMS 2.7, 4.5).

ghost use Rattle.std.specs.Prelude.{◌≡◌, ◌<◌, ◌^◌, [], ◌∷◌, ◌++◌, length, map, Some, IfOk, OnOk};
ghost use Rattle.std.specs.List.{filter, AllZip};
ghost use Rattle.program.specs.InstanceFields.{has_instances, is_instance_field, kind_of, own_kinds, built_in_kinds};
ghost use Rattle.program.specs.InstanceFields.{is_enum};
ghost use Rattle.program.specs.steps.Slots.{AreAdded};

use crate::runtime_constant::FieldKind;
use crate::statics::{field_kind, has_value};
use built_in::class_id::BuiltIn;
use classfile::flags::{ABSTRACT, STATIC, has_flag};
use classfile::{ClassFile, Member};
use loading::given::{GivenClass, Superclass};
use loading::names::{is_interface, text_at};
use std::alloc::{AllocError, Global};
use std::marker::Model;

/// The kinds of values that some slots hold.
#[derive(Drop)]
pub(crate) struct FieldKinds {
    kinds: Vec<FieldKind>,
}

impl Model for FieldKinds {
    ghost use Rattle.std.specs.Prelude.{List};
    ghost use Rattle.program.specs.declared.runtime_constant.FieldKind.{FieldKind as Held};

    ghost Value = { List Held };

    ghost view = { λ s. s.kinds.items };
}

impl FieldKinds {
    /// The kinds as a slice.
    pub(crate) fn as_slice(&self) -> &[FieldKind]
        ensures { result.now ≡ self.now }
    {
        self.kinds.as_slice()
    }

    /// The kinds of the slots that objects of a class have beside those of its given superclass.
    pub(crate) fn added_by(alloc: Global, given: &GivenClass) -> Result<FieldKinds, AllocError>
        ensures { IfOk result (AreAdded given.now) }
    {
        let mut kinds = Vec::new(alloc);
        add_built_in_kinds(given.superclass, &mut kinds)?;
        add_own_kinds(&given.file, &mut kinds)?;
        Ok(FieldKinds { kinds })
    }
}

/// Whether a class has instances: it is neither an interface nor abstract (JVMS 4.1).
pub(crate) fn has_instances(file: &ClassFile) -> bool
    ensures { result ≡ has_instances file.now }
{
    !is_interface(file) && !has_flag(file.access_flags(), ABSTRACT)
}

/// The kind of a field's values.
fn kind_of(file: &ClassFile, field: &Member) -> FieldKind
    ensures { result ≡ kind_of file.now field.now }
{
    field_kind(text_at(file, field.descriptor))
}

/// Whether a field is one of instances and has a value.
pub(crate) fn is_instance_field(file: &ClassFile, field: &Member) -> bool
    ensures { result ≡ is_instance_field file.now field.now }
{
    !has_flag(field.access_flags, STATIC) && has_value(kind_of(file, field))
}

/// Whether it is Enum, of which objects have slots.
pub(crate) fn is_enum(class: BuiltIn) -> bool
    ensures { result ≡ is_enum class }
{
    matches!(class, BuiltIn::Enum)
}

/// Adds the slots that objects have of a built-in superclass: of Enum its name and its ordinal.
fn add_built_in_kinds(superclass: Superclass, kinds: &mut Vec<FieldKind>) -> Result<(), AllocError>
    ensures { OnOk result (kinds.new.items ≡ kinds.old.items ++ built_in_kinds (Some superclass)) }
{
    let Superclass::BuiltIn(class) = superclass else {
        return Ok(());
    };
    if is_enum(class) {
        kinds.push(FieldKind::Reference)?;
        kinds.push(FieldKind::Int)?;
    }
    Ok(())
}

/// Adds the kinds of a class's own fields of instances that have values.
fn add_own_kinds(file: &ClassFile, kinds: &mut Vec<FieldKind>) -> Result<(), AllocError>
    ensures kinds { OnOk result (kinds.new.items ≡ kinds.old.items ++ own_kinds file.now) }
    ensures few { OnOk result (length (own_kinds file.now) < 2 ^ 16) }
{
    let fields = file.fields();
    for field in fields {
        add_kind(file, field, kinds)?;
    }
    Ok(())
}

/// Adds the kind of a field, if it is one of instances and has a value.
fn add_kind(file: &ClassFile, field: &Member, kinds: &mut Vec<FieldKind>) -> Result<(), AllocError>
    ensures { OnOk result (kinds.new.items
        ≡ kinds.old.items ++ map (kind_of file.now) (filter (is_instance_field file.now) (field.now ∷ []))) }
{
    if is_instance_field(file, field) {
        kinds.push(kind_of(file, field))?;
    }
    Ok(())
}

/// By class: the slots that its objects have beside those of its given superclass.
pub(crate) fn added_slots_of(
    alloc: Global,
    classes: &[GivenClass],
) -> Result<Vec<FieldKinds>, AllocError>
    ensures { IfOk result (λ added. AllZip AreAdded classes.now added.items) }
{
    let mut added = Vec::with_capacity(alloc, classes.len())?;
    for given in classes {
        added.push(FieldKinds::added_by(alloc, given)?)?;
    }
    Ok(added)
}
