//! Reads objects with their numbers, and regions.

ghost use Rattle.std.specs.Prelude.{◌≡◌, [], IfOk, OnOk};
ghost use Rattle.vm_state.specs.Objects.{AscendsFrom};
ghost use Rattle.vm_state.specs.Pools.{pool_by};
ghost use Rattle.vm_state.specs.Statics.{field_in};
ghost use Rattle.region_shape.specs.Regions.{region_of};
ghost use Rattle.image_format.specs.declared.version.Version.TheVariants.{Two};
ghost use Rattle.image_format.specs.Shapes.{IsNumber, AreSoMany};
ghost use Rattle.image_parser.specs.RegionFaults.{above};
ghost use Rattle.image_parser.specs.reading.Held.{HoldsFields, HoldsKept, HoldsObjects, HoldsRegion, HoldsKeptAll};
ghost use Rattle.image_parser.specs.reading.Objects.{counted_region_at, kept_at, many_at, object_number_at};
ghost use Rattle.image_parser.specs.reading.Objects.{objects_at, region_at, so_many_at};
ghost use Rattle.image_parser.specs.reading.Reads.{Reads};
ghost use Rattle.image_parser.specs.reading.Results.{Gives, chain_at, each_at};
ghost use Rattle.image_parser.specs.reading.Values.{value_at};

use crate::fault::RegionFault;
use crate::numbers::u32_at;
use crate::objects::{object_at, values_at};
use image_format::version::Version;
use program::Program;
use program::runtime_constant::FieldKind;
use region_shape::regions::Region;
use std::alloc::{AllocError, Global};
use vm_state::classes::Fields;
use vm_state::heap::Pool;
use vm_state::object::Object;
use vm_state::value::Value;

/// The least bytes of an object: its form, the length of its class's name, and a name of one byte.
const LEAST_OBJECT: usize = 4;

/// A number, if it is not below this one, and below the count.
fn spelled_number_at(count: u32, least: u32, bytes: &[u8]) -> Result<(u32, &[u8]), RegionFault>
    ensures value { Gives (λ x. (x.0, x.1.now)) result (object_number_at Two count least bytes.now) }
    ensures number { IfOk result (λ x. IsNumber Two count least x.0) }
{
    let (number, rest) = u32_at(bytes)?;
    if least <= number && number < count {
        Ok((number, rest))
    } else {
        Err(RegionFault::Shape)
    }
}

/// The number of the next object, where those before it are below this one.
fn object_number_at(
    version: Version,
    count: u32,
    least: u32,
    bytes: &[u8],
) -> Result<(u32, &[u8]), RegionFault>
    ensures value { Gives (λ x. (x.0, x.1.now)) result (object_number_at version count least bytes.now) }
    ensures number { IfOk result (λ x. IsNumber version count least x.0) }
{
    match version {
        Version::One => Ok((least, bytes)),
        Version::Two => spelled_number_at(count, least, bytes),
    }
}

/// The next object, with its number.
#[tactic(auto, unfolding(crate::specs::reading::Objects::kept_at))]
fn kept_at<'a>(
    alloc: Global,
    version: Version,
    program: &mut Program,
    count: u32,
    least: u32,
    bytes: &'a [u8],
) -> Result<((u32, Object), &'a [u8]), RegionFault>
    ensures value { Reads HoldsKept (λ x. (x.0, x.1.now)) program.old program.new result
        (kept_at version program.old.family count least bytes.now) }
    ensures number { IfOk result (λ x. IsNumber version count least x.0.0) }
{
    let (number, rest) = object_number_at(version, count, least, bytes)?;
    let (object, rest) = object_at(alloc, program, rest)?;
    Ok(((number, object), rest))
}

/// Reads so many objects, with numbers from 0 on, where there is none yet.
fn push_objects_at<'a>(
    alloc: Global,
    version: Version,
    program: &mut Program,
    count: u32,
    many: u32,
    objects: &mut Vec<(u64, Object)>,
    bytes: &'a [u8],
) -> Result<&'a [u8], RegionFault>
    requires many { AreSoMany version count many }
    requires none { objects.old.items ≡ [] }
    ensures value { Reads HoldsKeptAll (λ rest. (objects.new.items, rest.now)) program.old program.new result
        (chain_at (kept_at version program.old.family count) above many 0 [] bytes.now) }
    ensures ascending { OnOk result (AscendsFrom 0 objects.new.items count) }
{
    let mut rest = bytes;
    let mut least = 0u32;
    for _index in 0..many {
        let ((number, object), after) = kept_at(alloc, version, program, count, least, rest)?;
        least = number + 1;
        objects.push((u64::from(number), object))?;
        rest = after;
    }
    Ok(rest)
}

/// How many objects there are.
fn many_at(version: Version, count: u32, bytes: &[u8]) -> Result<(u32, &[u8]), RegionFault>
    ensures value { Gives (λ x. (x.0, x.1.now)) result (many_at version count bytes.now) }
    ensures many { IfOk result (λ x. AreSoMany version count x.0) }
{
    match version {
        Version::One => Ok((count, bytes)),
        Version::Two => u32_at(bytes),
    }
}

/// A number of objects. No room is asked for beyond what the bytes that are left can hold.
#[tactic(auto, unfolding(crate::specs::reading::Objects::so_many_at))]
fn so_many_at<'a>(
    alloc: Global,
    version: Version,
    program: &mut Program,
    count: u32,
    many: u32,
    bytes: &'a [u8],
) -> Result<(Vec<(u64, Object)>, &'a [u8]), RegionFault>
    requires { AreSoMany version count many }
    ensures value { Reads HoldsKeptAll (λ x. (x.0.items, x.1.now)) program.old program.new result
        (so_many_at version program.old.family count many bytes.now) }
    ensures ascending { IfOk result (λ x. AscendsFrom 0 x.0.items count) }
{
    let mut objects = Vec::with_capacity(alloc, (many as usize).min(bytes.len() / LEAST_OBJECT))?;
    let rest = push_objects_at(alloc, version, program, count, many, &mut objects, bytes)?;
    Ok((objects, rest))
}

/// How many objects there are, and these, of so many that were made.
#[tactic(auto, unfolding(crate::specs::reading::Objects::objects_at))]
fn objects_at<'a>(
    alloc: Global,
    version: Version,
    program: &mut Program,
    count: u32,
    bytes: &'a [u8],
) -> Result<(Pool, &'a [u8]), RegionFault>
    ensures { Reads (λ strings. HoldsObjects strings count) (λ x. (pool_by x.0, x.1.now)) program.old program.new result
        (objects_at version program.old.family count bytes.now) }
{
    let (many, rest) = many_at(version, count, bytes)?;
    let (objects, rest) = so_many_at(alloc, version, program, count, many, rest)?;
    let pool = Pool::of_objects(alloc, u64::from(count), objects)?;
    Ok((pool, rest))
}

/// Static fields with these values. No class has so many that 32 bits do not count them.
fn fields_of(alloc: Global, values: &[Value]) -> Result<Fields, AllocError>
    ensures { IfOk result (λ fields. field_in fields ≡ field_in values.now) }
{
    let Ok(count) = u32::try_from(values.len()) else {
        return Err(AllocError);
    };
    let mut fields = Fields::new(alloc);
    fields.keep(values.len())?;
    for field in 0..count {
        fields.set(field, values[field as usize])?;
    }
    Ok(fields)
}

/// A static field for each of these kinds.
fn statics_at<'a>(
    alloc: Global,
    program: &mut Program,
    kinds: &[FieldKind],
    bytes: &'a [u8],
) -> Result<(Fields, &'a [u8]), RegionFault>
    ensures { Reads HoldsFields (λ x. (field_in x.0, x.1.now)) program.old program.new result
        (each_at value_at kinds.now [] bytes.now) }
{
    let (values, rest) = values_at(alloc, program, kinds, bytes)?;
    let fields = fields_of(alloc, values.as_slice())?;
    Ok((fields, rest))
}

/// The statics of a class, and the objects that are kept of so many.
#[tactic(auto, unfolding(crate::specs::reading::Objects::counted_region_at))]
fn counted_region_at<'a>(
    alloc: Global,
    version: Version,
    program: &mut Program,
    class: u32,
    count: u32,
    bytes: &'a [u8],
) -> Result<(Region, &'a [u8]), RegionFault>
    ensures { Reads HoldsRegion (λ x. (region_of x.0, x.1.now)) program.old program.new result
        (counted_region_at version program.old.family class count bytes.now) }
{
    let kinds = program.static_kinds(alloc, class)?;
    let (fields, rest) = statics_at(alloc, program, &kinds, bytes)?;
    let (objects, rest) = objects_at(alloc, version, program, count, rest)?;
    Ok((Region { fields, objects }, rest))
}

/// The region of a class: the count of the objects that were made, the statics, and the objects that are kept.
#[tactic(auto, unfolding(crate::specs::reading::Objects::region_at))]
pub(crate) fn region_at<'a>(
    alloc: Global,
    version: Version,
    program: &mut Program,
    class: u32,
    bytes: &'a [u8],
) -> Result<(Region, &'a [u8]), RegionFault>
    ensures { Reads HoldsRegion (λ x. (region_of x.0, x.1.now)) program.old program.new result
        (region_at version program.old.family class bytes.now) }
{
    let (count, rest) = u32_at(bytes)?;
    counted_region_at(alloc, version, program, class, count, rest)
}
