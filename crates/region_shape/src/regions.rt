//! Regions of settled classes.

ghost use Rattle.std.specs.Prelude.{◌≡◌, [], ◌<◌, ◌^◌, length, Some, None, replicate, slice_set, option_copied, IfOk};
ghost use Rattle.std.specs.Prelude.{OnErr, OnOk};
ghost use Rattle.region_shape.specs.Regions.{region_in, with_region};

use std::alloc::{AllocError, Global};
use std::marker::Model;
use vm_state::classes::Fields;
use vm_state::heap::Pool;

/// The region of one class: its static fields, and the objects that its class initialization method made.
#[derive(Drop)]
pub struct Region {
    pub fields: Fields,
    pub objects: Pool,
}

/// The regions of some classes, by the numbers of the classes.
pub struct Regions {
    regions: Vec<Option<Region>>,
}

// By hand, since a derived one is proved anew wherever some are let go.
impl Drop for Regions {
    fn drop(self) {
        let Regions { regions: _ } = self;
    }
}

impl Model for Regions {
    ghost use Rattle.std.specs.Prelude.{List, Option};
    ghost use Rattle.region_shape.specs.declared.regions.Region.{Region as Held};

    ghost Value = { List (Option Held) };

    ghost view = { λ s. s.regions.items };
}

impl Regions {
    /// No region.
    pub fn none(alloc: Global) -> Regions
        ensures { result ≡ [] }
    {
        Regions {
            regions: Vec::new(alloc),
        }
    }

    /// The region of a class, if it is here.
    #[inline(always)]
    pub fn get(&self, class: u32) -> Option<&Region>
        ensures { option_copied result ≡ region_in self.now class }
    {
        match self.regions.get(class as usize) {
            Some(Some(region)) => Some(region),
            _ => None,
        }
    }

    /// A place for the region of each of `count` classes.
    ///
    /// # Errors
    /// `AllocError` where memory is refused.
    pub fn of_classes(alloc: Global, count: usize) -> Result<Regions, AllocError>
        ensures { IfOk result (λ regions. regions ≡ replicate count None) }
    {
        let mut regions = Vec::with_capacity(alloc, count)?;
        match add_places(count, &mut regions) {
            Ok(()) => Ok(Regions { regions }),
            Err(error) => Err(error),
        }
    }

    /// How many classes have a place.
    pub fn len(&self) -> usize
        ensures { result ≡ length self.now }
    {
        self.regions.len()
    }

    /// Puts the region of a class here.
    ///
    /// # Errors
    /// `AllocError` where memory is refused; the regions are the same then.
    pub fn put(&mut self, class: u32, region: Region) -> Result<(), AllocError>
        ensures ok { OnOk result (region_in self.new ≡ with_region (region_in self.old) class region) }
        ensures err { OnErr result (region_in self.new ≡ region_in self.old) }
    {
        match self.keep(class as usize) {
            Ok(()) => {
                self.set(class, region);
                Ok(())
            }
            Err(error) => Err(error),
        }
    }

    /// Puts the region of a class at its place, without memory.
    pub fn set(&mut self, class: u32, region: Region)
        requires { class < length self.old }
        ensures { self.new ≡ slice_set self.old class (Some region) }
    {
        self.regions[class as usize] = Some(region);
    }

    /// Takes the region of a class out, if it is here. Its place stays.
    pub fn take(&mut self, class: u32) -> Option<Region>
        ensures taken { result ≡ region_in self.old class }
        ensures left { self.new ≡ slice_set self.old class None }
    {
        match self.regions.get_mut(class as usize) {
            Some(place) => place.take(),
            None => None,
        }
    }

    /// Keeps a place for a class; the regions are the same.
    fn keep(&mut self, class: usize) -> Result<(), AllocError>
        requires { class < 2 ^ 32 }
        ensures same { region_in self.new ≡ region_in self.old }
        ensures ok { OnOk result (class < length self.new) }
    {
        while self.regions.len() <= class {
            self.regions.push(None)?;
        }
        Ok(())
    }
}

/// Adds `count` places, where there are none yet.
fn add_places(count: usize, regions: &mut Vec<Option<Region>>) -> Result<(), AllocError>
    requires { regions.old.items ≡ [] }
    ensures { OnOk result (regions.new.items ≡ replicate count None) }
{
    for _ in 0..count {
        regions.push(None)?;
    }
    Ok(())
}
