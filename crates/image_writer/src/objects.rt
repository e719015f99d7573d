//! Objects and regions.

ghost use Rattle.std.specs.Prelude.{◌≡◌, ℕ, ◌++◌, ◌<◌, ◌^◌, length, map, replicate, option_map, IfOk, OnOk};
ghost use Rattle.std.specs.List.{flat_map, All};
ghost use Rattle.vm_state.specs.declared.object.Object.{Object as Held};
ghost use Rattle.region_shape.specs.Regions.{region_of, environment_of};
ghost use Rattle.loading.specs.ClassIds.{object_type};
ghost use Rattle.image_format.specs.declared.version.Version.TheVariants.{Two};
ghost use Rattle.image_format.specs.Names.{name_of_class};
ghost use Rattle.image_format.specs.Texts.{instance_text, array_text, object_text, kept_text, region_text, flag_text};
ghost use Rattle.image_format.specs.Told.{told_value, told_array, told_class, told_object, told_kept};
ghost use Rattle.image_format.specs.Told.{told_region, told_regions};
ghost use Rattle.image_writer.specs.steps.Sizes.{HasFiles, IsSizedValue, IsSizedObject, IsSizedRegion, object_by};

use crate::files::show_files;
use crate::numbers::{push_named, push_u8, push_u32};
use crate::values::{push_elements, push_fields, push_values, string_of};
use built_in::class_id::{ArrayType, ClassId, ElementType};
use image_format::elements::kind_of_elements;
use image_format::names::{class_name, push_object_type};
use object_graph::Image;
use program::Program;
use program::runtime_constant::FieldKind;
use region_shape::regions::Region;
use std::alloc::{AllocError, Global};
use vm_state::heap::Pool;
use vm_state::kept::Kept;
use vm_state::object::Slots;

/// An instance: its form, its class's name, and its slots.
fn push_instance(
    alloc: Global,
    out: &mut Vec<u8>,
    program: &Program,
    name: &[u8],
    slots: &Slots,
) -> Result<(), AllocError>
    requires files { HasFiles program.now }
    requires name { length name.now < 2 ^ 16 }
    requires slots { All IsSizedValue slots.now }
    ensures { OnOk result (out.new.items
        ≡ out.old.items ++ instance_text name.now (map (told_value program.now.strings) slots.now)) }
{
    push_u8(out, 0)?;
    push_named(out, name)?;
    push_values(alloc, out, program, slots)
}

/// An array: its form, its type's name, the count of its elements, and these.
fn push_array(
    alloc: Global,
    out: &mut Vec<u8>,
    program: &Program,
    name: &[u8],
    kind: FieldKind,
    slots: &Slots,
) -> Result<(), AllocError>
    requires files { HasFiles program.now }
    requires name { length name.now < 2 ^ 16 }
    requires count { length slots.now < 2 ^ 32 }
    requires slots { All IsSizedValue slots.now }
    ensures { OnOk result (out.new.items
        ≡ out.old.items ++ array_text name.now kind (map (told_value program.now.strings) slots.now)) }
{
    push_u8(out, 1)?;
    push_named(out, name)?;
    push_u32(out, slots.len() as u32)?;
    push_elements(alloc, out, program, kind, slots)
}

/// The name of a class; of an array class whose elements are of a class that is neither given nor built in, the
/// descriptor over that one's name.
fn name_of_class(alloc: Global, program: &Program, class: ClassId) -> Result<Vec<u8>, AllocError>
    ensures { IfOk result (λ name. name.items
        ≡ name_of_class program.now.family (told_class program.now.strings class)) }
{
    match class {
        ClassId::Array(array) => name_of_array(alloc, program, array),
        ClassId::Given(_) => class_name(alloc, program.family(), class),
        ClassId::BuiltIn(_) => class_name(alloc, program.family(), class),
    }
}

fn name_of_array(alloc: Global, program: &Program, array: ArrayType) -> Result<Vec<u8>, AllocError>
    ensures { IfOk result (λ name. name.items
        ≡ name_of_class program.now.family (told_array program.now.strings array array.element)) }
{
    match array.element {
        ElementType::Unknown(number) => {
            name_of_unknown(alloc, array.dimensions, string_of(program, number as usize))
        }
        _ => class_name(alloc, program.family(), ClassId::Array(array)),
    }
}

/// The descriptor of arrays of a number of dimensions, over a class of this name.
fn name_of_unknown(alloc: Global, dimensions: u8, class: &[u8]) -> Result<Vec<u8>, AllocError>
    ensures { IfOk result (λ name. name.items ≡ replicate dimensions 91 ++ object_type class.now) }
{
    let mut name = vec![in alloc; b'['; usize::from(dimensions)]?;
    push_object_type(&mut name, class)?;
    Ok(name)
}

/// An object, by its class and slots.
fn push_object(
    alloc: Global,
    out: &mut Vec<u8>,
    program: &Program,
    class: ClassId,
    slots: &Slots,
) -> Result<(), AllocError>
    requires files { HasFiles program.now }
    requires sized { IsSizedObject program.now (object_by class slots.now) }
    ensures { OnOk result (out.new.items ≡ out.old.items
        ++ object_text program.now.family (told_object program.now.strings (object_by class slots.now))) }
{
    let name = name_of_class(alloc, program, class)?;
    match class {
        ClassId::Array(array) => {
            push_array(alloc, out, program, &name, kind_of_elements(array), slots)
        }
        ClassId::Given(_) => push_instance(alloc, out, program, &name, slots),
        ClassId::BuiltIn(_) => push_instance(alloc, out, program, &name, slots),
    }
}

/// The number of an object, and the object.
fn push_kept(
    alloc: Global,
    out: &mut Vec<u8>,
    program: &Program,
    number: u32,
    object: &Kept,
) -> Result<(), AllocError>
    requires files { HasFiles program.now }
    requires sized { IsSizedObject program.now (object_by object.now.class object.now.slots) }
    ensures { OnOk result (out.new.items ≡ out.old.items ++ kept_text Two program.now.family
        (told_kept program.now.strings (number, object_by object.now.class object.now.slots))) }
{
    push_u32(out, number)?;
    push_object(alloc, out, program, object.class.id(), &object.slots)
}

/// Objects with their numbers.
fn push_objects(
    alloc: Global,
    out: &mut Vec<u8>,
    program: &Program,
    objects: &Pool,
) -> Result<(), AllocError>
    requires files { HasFiles program.now }
    requires sized { All (λ (o : ℕ × Held). IsSizedObject program.now o.1) objects.now.objects }
    requires numbers { All (λ (o : ℕ × Held). o.0 < 2 ^ 32) objects.now.objects }
    ensures { OnOk result (out.new.items ≡ out.old.items
        ++ flat_map (kept_text Two program.now.family) (map (told_kept program.now.strings) objects.now.objects)) }
{
    for place in 0..objects.len() {
        if let Some(held) = objects.at(place) {
            let number = held.0 as u32;
            push_kept(alloc, out, program, number, held.1)?;
        }
    }
    Ok(())
}

/// A region: the count of the objects that were made, its statics, how many objects are held, and these.
pub(crate) fn push_region(
    alloc: Global,
    out: &mut Vec<u8>,
    image: &Image,
    class: u32,
    region: &Region,
) -> Result<(), AllocError>
    requires files { HasFiles image.now.program }
    requires sized { IsSizedRegion image.now.program (region_of region.now) }
    requires few { (region_of region.now).pool.count < 2 ^ 32 }
    ensures { OnOk result (out.new.items ≡ out.old.items ++ region_text Two image.now.program.family
        (told_region image.now.program class (region_of region.now))) }
{
    let program = image.program();
    let objects = &region.objects;
    let made = region.objects.count() as u32;
    push_u32(out, made)?;
    push_fields(
        alloc,
        out,
        program,
        &region.fields,
        image.static_count(class),
    )?;
    let kept = objects.len() as u32;
    push_u32(out, kept)?;
    push_objects(alloc, out, program, objects)
}

/// The flag of a class: 1 and its region where it is initialized, and else 0.
fn push_flag(alloc: Global, out: &mut Vec<u8>, image: &Image, class: u32) -> Result<(), AllocError>
    requires { HasFiles image.now.program }
    ensures { OnOk result (out.new.items ≡ out.old.items ++ flag_text Two image.now.program.family
        (option_map (told_region image.now.program class) (environment_of image.now.regions class))) }
{
    match image.region(class) {
        Some(region) => {
            push_u8(out, 1)?;
            push_region(alloc, out, image, class, region)
        }
        None => push_u8(out, 0),
    }
}

/// The flags and regions of the classes below a number.
fn push_flags_below(
    alloc: Global,
    out: &mut Vec<u8>,
    image: &Image,
    count: u32,
) -> Result<(), AllocError>
    requires files { HasFiles image.now.program }
    requires count { count ≡ length image.now.program.family }
    ensures { OnOk result (out.new.items ≡ out.old.items ++ flat_map (flag_text Two image.now.program.family)
        (told_regions image.now.program (environment_of image.now.regions))) }
{
    for class in 0..count {
        push_flag(alloc, out, image, class)?;
    }
    Ok(())
}

/// The flags and regions of all classes.
pub(crate) fn push_flags(alloc: Global, out: &mut Vec<u8>, image: &Image) -> Result<(), AllocError>
    ensures { OnOk result (out.new.items ≡ out.old.items ++ flat_map (flag_text Two image.now.program.family)
        (told_regions image.now.program (environment_of image.now.regions))) }
{
    show_files(image.program());
    let classes = image.program().family().classes();
    push_flags_below(alloc, out, image, classes.len() as u32)
}
