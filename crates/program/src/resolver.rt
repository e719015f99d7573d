//! What the references of a class are resolved with.

ghost use Rattle.std.specs.Prelude.{◌≡◌, Some};
ghost use Rattle.loading.specs.Families.{file_in};
ghost use Rattle.program.specs.steps.Slots.{AreFieldSlotsOf};
ghost use Rattle.program.specs.steps.StaticNumbers.{AreStaticNumbersOf};

use crate::field_slots::FieldSlots;
use crate::named_classes::NamedClasses;
use crate::static_numbers::StaticNumbers;
use classfile::ClassFile;
use hierarchy::hierarchy::Hierarchy;

/// What the references of all classes are resolved with.
#[derive(Drop)]
pub(crate) struct Linker<'a> {
    pub(crate) hierarchy: &'a Hierarchy,
    /// By class: the numbers of its static fields.
    pub(crate) numbers: &'a [StaticNumbers],
    /// By class: the slots of its fields of instances.
    pub(crate) field_slots: &'a [FieldSlots],
    pub(crate) ghost fits: { AreStaticNumbersOf hierarchy.now.family numbers.now },
    pub(crate) ghost slots_fit: { AreFieldSlotsOf hierarchy.now.family field_slots.now },
}

/// What the references of one class are resolved with.
#[derive(Drop)]
pub(crate) struct Resolver<'a> {
    pub(crate) hierarchy: &'a Hierarchy,
    pub(crate) numbers: &'a [StaticNumbers],
    pub(crate) field_slots: &'a [FieldSlots],
    pub(crate) class: u32,
    pub(crate) file: &'a ClassFile,
    pub(crate) named: &'a NamedClasses<'a>,
    pub(crate) ghost fits: { AreStaticNumbersOf hierarchy.now.family numbers.now },
    pub(crate) ghost slots_fit: { AreFieldSlotsOf hierarchy.now.family field_slots.now },
    pub(crate) ghost is_class: { file_in hierarchy.now.family class ≡ Some file.now },
    pub(crate) ghost names_family: { named.now.family ≡ hierarchy.now.family },
    pub(crate) ghost names_file: { named.now.file ≡ file.now },
}
