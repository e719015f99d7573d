//! Numbers in an image fit their types: what the types of its values say, which the definition of regions leaves out.
//! The first two functions do nothing; the others go over what there is.

ghost use Rattle.std.specs.Prelude.{ℕ, ◌<◌, length};
ghost use Rattle.std.specs.List.{All};
ghost use Rattle.vm_state.specs.declared.object.Object.{Object as Held};
ghost use Rattle.vm_state.specs.Statics.{field_in};
ghost use Rattle.region_shape.specs.Regions.{environment_of};
ghost use Rattle.image_writer.specs.steps.Fits.{ClassFits, FitsType};

use object_graph::Image;
use vm_state::classes::Fields;
use vm_state::heap::Pool;
use vm_state::object::Slots;
use vm_state::value::Value;

/// A value's number fits.
#[inline(always)]
fn show_value_fits(_value: Value)
    ensures { FitsType _value }
{}

/// The numbers of the values in slots fit.
#[inline(always)]
fn show_values_fit(slots: &Slots)
    ensures { All FitsType slots.now }
{
    for slot in 0..slots.len() {
        let Some(value) = slots.get(slot) else {
            return;
        };
        show_value_fits(value);
    }
}

/// The numbers of the values of the first static fields fit.
fn show_fields_fit(fields: &Fields, count: u32)
    ensures { (k : ℕ) → k < count → FitsType (field_in fields.now k) }
{
    for field in 0..count {
        show_value_fits(fields.get(field));
    }
}

/// The numbers of the values in objects fit.
fn show_objects_fit(objects: &Pool)
    ensures { All (λ (o : ℕ × Held). All FitsType o.1.slots) objects.now.objects }
{
    for place in 0..objects.len() {
        let Some(held) = objects.at(place) else {
            return;
        };
        show_values_fit(&held.1.slots);
    }
}

/// The numbers of the values in the region of a class fit, if it is initialized.
fn show_class_fits(image: &Image, class: u32)
    ensures { ClassFits image.now.program (environment_of image.now.regions) class }
{
    if let Some(region) = image.region(class) {
        show_fields_fit(&region.fields, image.static_count(class));
        show_objects_fit(&region.objects);
    }
}

/// The numbers of the values in the regions of all classes fit.
pub(crate) fn show_classes_fit(image: &Image)
    ensures { (c : ℕ) → c < length image.now.program.family
        → ClassFits image.now.program (environment_of image.now.regions) c }
{
    let classes = image.program().family().classes();
    for class in 0..classes.len() as u32 {
        show_class_fits(image, class);
    }
}
