//! An image.

ghost use Rattle.std.specs.Prelude.{◌≡◌, length, option_map, IfOk};
ghost use Rattle.region_shape.specs.Regions.{region_of, environment_of};
ghost use Rattle.program.specs.Tables.{statics_in};
ghost use Rattle.region_shape.specs.Wholes.{AreWhole};
ghost use Rattle.object_graph.specs.Cuts.{AreReached, IsCutOf};
ghost use Rattle.object_graph.specs.Images.{object_count, AreSmall};

use crate::counting::{count_of, static_count};
use crate::cutting::cut_classes;
use crate::reach::reached;
use program::Program;
use region_shape::regions::{Region, Regions};
use std::alloc::{AllocError, Global};
use std::marker::Model;

/// A program, and the regions of classes that are initialized before it runs. Some static field reaches each object.
#[derive(Drop)]
pub struct Image {
    program: Program,
    regions: Regions,
}

impl Model for Image {
    ghost use Rattle.region_shape.specs.Regions.{environment_of as regions_of};
    ghost use Rattle.region_shape.specs.Wholes.{AreWhole as HasWhole};
    ghost use Rattle.object_graph.specs.Cuts.{AreReached as HasReached};
    ghost use Rattle.object_graph.specs.Images.{ImageTables, AreSmall as HasSmall};

    ghost Value = { ImageTables };

    ghost view = { λ i. record { program = i.program; regions = i.regions } };

    ghost invariant = { λ i. HasWhole i.program (regions_of i.regions) × HasSmall i.program (regions_of i.regions)
        × HasReached i.program (regions_of i.regions) };
}

impl Image {
    /// The image of a program and regions, of which all is reached.
    pub fn of_reached(program: Program, regions: Regions) -> Image
        requires whole { AreWhole program (environment_of regions) }
        requires small { AreSmall program (environment_of regions) }
        requires reached { AreReached program (environment_of regions) }
        ensures { result ≡ record { program = program; regions = regions } }
    {
        Image { program, regions }
    }

    /// The program.
    pub fn program(&self) -> &Program
        ensures { result.now ≡ self.now.program }
    {
        &self.program
    }

    /// The region of a class, if it is initialized.
    pub fn region(&self, class: u32) -> Option<&Region>
        ensures value { option_map (λ r. region_of r.now) result ≡ environment_of self.now.regions class }
        // What holds of every image.
        ensures whole { AreWhole self.now.program (environment_of self.now.regions) }
        ensures small { AreSmall self.now.program (environment_of self.now.regions) }
        ensures reached { AreReached self.now.program (environment_of self.now.regions) }
    {
        self.regions.get(class)
    }

    /// The program and the regions, for a caller that needs no image any more.
    pub fn into_parts(self) -> (Program, Regions)
        ensures program { result.0 ≡ self.program }
        ensures regions { result.1 ≡ self.regions }
        // What holds of every image.
        ensures whole { AreWhole self.program (environment_of self.regions) }
        ensures small { AreSmall self.program (environment_of self.regions) }
        ensures reached { AreReached self.program (environment_of self.regions) }
    {
        let Image { program, regions } = self;
        (program, regions)
    }

    /// The regions.
    pub(crate) fn regions(&self) -> &Regions
        ensures { result.now ≡ self.now.regions }
    {
        &self.regions
    }

    /// How many objects the region of a class has; none, where the class is not initialized.
    pub fn object_count(&self, class: u32) -> u32
        ensures { result ≡ object_count (environment_of self.now.regions class) }
    {
        match self.region(class) {
            Some(region) => count_of(&region.objects),
            None => 0,
        }
    }

    /// How many static fields with values a class has: at most 65,535, and none where there is no such class.
    pub fn static_count(&self, class: u32) -> u32
        ensures { result ≡ length (statics_in self.now.program class) }
    {
        static_count(&self.program, class)
    }
}

/// The image of a program and regions of some of its classes, without the objects that no static field reaches. Each
/// region has shape, names such objects alone as these regions hold, and strings of the program alone, and has fewer
/// than 2^32 objects, and no array of 2^31 elements or more.
///
/// # Errors
/// Where memory runs out.
pub fn gather(alloc: Global, program: Program, regions: Regions) -> Result<Image, AllocError>
    requires whole { AreWhole program (environment_of regions) }
    requires small { AreSmall program (environment_of regions) }
    ensures program { IfOk result (λ image. image.program ≡ program) }
    ensures cut { IfOk result (λ image. IsCutOf program (environment_of regions) (environment_of image.regions)) }
{
    let _classes = program.classes();
    let found = reached(alloc, &program, &regions)?;
    let mut regions = regions;
    match cut_classes(alloc, &found, program.given_count(), &mut regions) {
        Ok(()) => Ok(Image::of_reached(program, regions)),
        Err(error) => Err(error),
    }
}
