//! Shared state with the regions of an image in place, and the world that starts over it.

ghost use Rattle.std.specs.Prelude.{◌≡◌, ◌↔◌, ◌⊎◌, ◌<◌, [], length, option_map};
ghost use Rattle.std.specs.Prelude.{Err, IfErr, IfOk, OnOk};
ghost use Rattle.vm_state.specs.Shares.{shared_of};
ghost use Rattle.semantics.specs.Images.{with_image};
ghost use Rattle.region_shape.specs.Regions.{environment_of, region_of};
ghost use Rattle.object_graph.specs.Images.{AreSmall, start_image};
ghost use Rattle.init_engine.specs.Starts.{EntriesFail};
ghost use Rattle.init_engine.specs.Turns.{world_of};
ghost use Rattle.init_engine.specs.declared.fault.EntryFault.TheVariants.{Memory, Count};
ghost use Rattle.image_reader.specs.Starts.{IsImageStart};
ghost use Rattle.image_reader.specs.steps.Placing.{with_class};

use classfile::ClassName;
use init_engine::starting::{entry_classes, lazy_shared};
use init_engine::{EntryFault, World};
use object_graph::Image;
use program::Program;
use region_shape::regions::{Region, Regions};
use std::alloc::{AllocError, Global};
use vm_state::shared::Shared;

/// A copy of the region of a class, where the image has one.
fn copy_of(alloc: Global, image: &Image, class: u32) -> Result<Option<Region>, AllocError>
    ensures { IfOk result (λ copy. option_map region_of copy ≡ environment_of image.now.regions class) }
{
    match image.region(class) {
        Some(region) => {
            let fields = region.fields.copy(alloc)?;
            let objects = region.objects.copy(alloc)?;
            Ok(Some(Region { fields, objects }))
        }
        None => Ok(None),
    }
}

/// Puts the region of a class in place, if there is one. Where memory is refused nothing changes.
fn put_region(
    alloc: Global,
    class: u32,
    region: Option<Region>,
    shared: &mut Shared,
) -> Result<(), AllocError>
    ensures { OnOk result (shared_of shared.new []
        ≡ with_class (option_map region_of region) class (shared_of shared.old [])) }
{
    match region {
        Some(Region { fields, objects }) => shared.initialize(alloc, class, fields, objects),
        None => Ok(()),
    }
}

/// Puts copies of the regions of all classes of an image in place. Where memory is refused some may be in place.
fn place_copies(alloc: Global, image: &Image, shared: &mut Shared) -> Result<(), AllocError>
    ensures { OnOk result (shared_of shared.new [] ≡ with_image (start_image image.now) (shared_of shared.old [])) }
{
    let _held = image.region(0);
    for class in 0..image.program().given_count() {
        let copy = copy_of(alloc, image, class)?;
        put_region(alloc, class, copy, shared)?;
    }
    Ok(())
}

/// Puts the regions of all classes of a program in place. Where memory is refused some may be in place.
fn put_regions(
    alloc: Global,
    program: &Program,
    regions: Regions,
    shared: &mut Shared,
) -> Result<(), AllocError>
    requires { AreSmall program.now (environment_of regions) }
    ensures { OnOk result (shared_of shared.new []
        ≡ with_image (start_image (record { program = program.now; regions = regions })) (shared_of shared.old [])) }
{
    let mut left = regions;
    for class in 0..program.given_count() {
        let region = left.take(class);
        put_region(alloc, class, region, shared)?;
    }
    Ok(())
}

/// The start of a run from an image: its classes are initialized with their regions, and a thread for each entry is
/// about to need its entry class (JVMS 5.2, 5.5). One class may be the entry of several threads. The image stays: its
/// regions are copied.
///
/// # Errors
/// `Count` where there is no entry or more than 64, before memory is asked for. Else the first entry at fault:
/// `Unknown` where no class of its name was given, `NoMain` where the class declares no such `main` itself; or
/// `Memory`.
pub fn world(alloc: Global, image: &Image, entries: &[ClassName]) -> Result<World, EntryFault>
    // The world is the start of the classes of these names, each with a `main` of its own.
    ensures start { IfOk result (λ w. IsImageStart image.now entries.now (world_of w)) }

    // A wrong number of entries is answered by `Count`, whatever memory does, and nothing else is.
    ensures count { (result ≡ Err Count) ↔ ((length entries.now ≡ 0) ⊎ (64 < length entries.now)) }

    // What is answered otherwise is what is wrong with the entries, or that memory ran out.
    ensures fault { IfErr result (λ fault. (fault ≡ Memory) ⊎ EntriesFail image.now.program entries.now fault) }
{
    let program = image.program();
    let classes = entry_classes(alloc, program, entries)?;
    let mut shared = lazy_shared(alloc, program, classes.len())?;
    place_copies(alloc, image, &mut shared)?;
    Ok(World::start(alloc, shared, classes.as_slice())?)
}

/// The start of an image, with its program: the image is let go, and its regions are moved into the world.
///
/// # Errors
/// Those of `world`.
pub fn into_world(
    alloc: Global,
    image: Image,
    entries: &[ClassName],
) -> Result<(Program, World), EntryFault>
    ensures program { IfOk result (λ made. made.0 ≡ image.program) }
    ensures start { IfOk result (λ made. IsImageStart image entries.now (world_of made.1)) }
    ensures count { (result ≡ Err Count) ↔ ((length entries.now ≡ 0) ⊎ (64 < length entries.now)) }
    ensures fault { IfErr result (λ fault. (fault ≡ Memory) ⊎ EntriesFail image.program entries.now fault) }
{
    let (program, regions) = image.into_parts();
    match world_over(alloc, &program, regions, entries) {
        Ok(world) => Ok((program, world)),
        Err(fault) => Err(fault),
    }
}

/// The start of a run from the image of a program and these regions.
fn world_over(
    alloc: Global,
    program: &Program,
    regions: Regions,
    entries: &[ClassName],
) -> Result<World, EntryFault>
    requires { AreSmall program.now (environment_of regions) }
    ensures start { IfOk result
        (λ w. IsImageStart (record { program = program.now; regions = regions }) entries.now (world_of w)) }
    ensures count { (result ≡ Err Count) ↔ ((length entries.now ≡ 0) ⊎ (64 < length entries.now)) }
    ensures fault { IfErr result (λ fault. (fault ≡ Memory) ⊎ EntriesFail program.now entries.now fault) }
{
    let classes = entry_classes(alloc, program, entries)?;
    let mut shared = lazy_shared(alloc, program, classes.len())?;
    put_regions(alloc, program, regions, &mut shared)?;
    Ok(World::start(alloc, shared, classes.as_slice())?)
}
