//! The flags and regions of all classes.

ghost use Rattle.std.specs.Prelude.{◌≡◌, ◌++◌, ◌∷◌, [], ℕ, List, Option, IfOk, IfErr, OnOk, length, option_map};
ghost use Rattle.region_shape.specs.Regions.{environment_of, region_of};
ghost use Rattle.image_format.specs.Regions.{ImageRegion as Told};
ghost use Rattle.image_parser.specs.FlagFaults.{numbers, FlagsFail, IsFlagsFault};
ghost use Rattle.image_parser.specs.reading.Held.{HoldsClass, HoldsRegions};
ghost use Rattle.image_parser.specs.reading.Flagged.{AreHeld};
ghost use Rattle.image_parser.specs.reading.Flags.{flagged_at, flag_at, flag_in, flags_at};
ghost use Rattle.image_parser.specs.reading.Reads.{Reads, ReadsIn};
ghost use Rattle.image_parser.specs.reading.Results.{each_at};

use crate::fault::{FlagsFault, RegionFault};
use crate::kept_objects::region_at;
use crate::numbers::u8_at;
use image_format::version::Version;
use program::Program;
use region_shape::regions::{Region, Regions};
use std::alloc::{AllocError, Global};

/// What follows the flag of a class.
fn flagged_at<'a>(
    alloc: Global,
    version: Version,
    program: &mut Program,
    class: u32,
    flag: u8,
    bytes: &'a [u8],
) -> Result<(Option<Region>, &'a [u8]), RegionFault>
    ensures { Reads HoldsClass (λ x. (option_map region_of x.0, x.1.now)) program.old program.new result
        (flagged_at version program.old.family class flag bytes.now) }
{
    match flag {
        0 => Ok((None, bytes)),
        1 => some_at(alloc, version, program, class, bytes),
        _ => Err(RegionFault::Shape),
    }
}

/// The region of a class that is initialized.
fn some_at<'a>(
    alloc: Global,
    version: Version,
    program: &mut Program,
    class: u32,
    bytes: &'a [u8],
) -> Result<(Option<Region>, &'a [u8]), RegionFault>
    ensures { Reads HoldsClass (λ x. (option_map region_of x.0, x.1.now)) program.old program.new result
        (flagged_at version program.old.family class 1 bytes.now) }
{
    let (region, rest) = region_at(alloc, version, program, class, bytes)?;
    Ok((Some(region), rest))
}

/// The flag of a class, and its region.
#[tactic(auto, unfolding(crate::specs::reading::Flags::flag_at))]
fn flag_at<'a>(
    alloc: Global,
    version: Version,
    program: &mut Program,
    class: u32,
    bytes: &'a [u8],
) -> Result<(Option<Region>, &'a [u8]), RegionFault>
    ensures { Reads HoldsClass (λ x. (option_map region_of x.0, x.1.now)) program.old program.new result
        (flag_at version program.old.family class bytes.now) }
{
    let (flag, rest) = u8_at(bytes)?;
    flagged_at(alloc, version, program, class, flag, rest)
}

/// The flag of a class, and its region, or the fault with the class's number.
#[tactic(auto, using(crate::proofs::FlagLemmas::inside_fails))]
fn flag_in<'a>(
    alloc: Global,
    version: Version,
    program: &mut Program,
    class: u32,
    bytes: &'a [u8],
) -> Result<(Option<Region>, &'a [u8]), FlagsFault>
    ensures { ReadsIn HoldsClass (λ x. (option_map region_of x.0, x.1.now)) program.old program.new result
        (flag_in version program.old.family class bytes.now) }
{
    match flag_at(alloc, version, program, class, bytes) {
        Ok(read) => Ok(read),
        Err(fault) => Err(fault.inside(class)),
    }
}

/// Adds the region of a class, if it is initialized, to those of all lower classes.
fn add_region(class: u32, region: Option<Region>, regions: &mut Regions) -> Result<(), AllocError>
    ensures { (strings : List (List ℕ)) (lower : List (Option Told)) (told : Option Told) → length lower ≡ class
        → HoldsRegions strings lower (environment_of regions.old)
        → HoldsClass strings told (option_map region_of region)
        → OnOk result (HoldsRegions strings (lower ++ told ∷ []) (environment_of regions.new)) }
{
    match region {
        Some(region) => regions.put(class, region),
        None => Ok(()),
    }
}

/// Reads the flags of so many classes, and keeps their regions where there are none.
fn push_flags_at<'a>(
    alloc: Global,
    version: Version,
    program: &mut Program,
    count: u32,
    regions: &mut Regions,
    bytes: &'a [u8],
) -> Result<&'a [u8], FlagsFault>
    requires { regions.old ≡ [] }
    ensures { ReadsIn HoldsRegions (λ rest. (environment_of regions.new, rest.now)) program.old program.new result
        (each_at (flag_in version program.old.family) (numbers 0 count) [] bytes.now) }
{
    let mut rest = bytes;
    for class in 0..count {
        let (region, after) = flag_in(alloc, version, program, class, rest)?;
        add_region(class, region, regions)?;
        rest = after;
    }
    Ok(rest)
}

/// The flags and regions of all classes.
#[tactic(auto, unfolding(crate::specs::reading::Flags::flags_at))]
fn flags_at<'a>(
    alloc: Global,
    version: Version,
    program: &mut Program,
    bytes: &'a [u8],
) -> Result<(Regions, &'a [u8]), FlagsFault>
    ensures { ReadsIn HoldsRegions (λ x. (environment_of x.0, x.1.now)) program.old program.new result
        (flags_at version program.old.family bytes.now) }
{
    let _classes = program.classes();
    let count = program.given_count();
    let mut regions = Regions::none(alloc);
    match push_flags_at(alloc, version, program, count, &mut regions, bytes) {
        Ok(rest) => Ok((regions, rest)),
        Err(fault) => Err(fault),
    }
}

/// Reads the flags and regions of all classes of a program at the front of some bytes, and answers what stands after
/// them too.
///
/// # Errors
/// The fault of the first part that fails, or `Memory` where memory runs out.
pub(crate) fn read_flags<'a>(
    alloc: Global,
    version: Version,
    program: &mut Program,
    bytes: &'a [u8],
) -> Result<(Regions, &'a [u8]), FlagsFault>
    ensures flags { IfOk result (λ x. AreHeld version program.old program.new bytes.now x.0 x.1.now) }
    ensures fault { IfErr result (λ fault. IsFlagsFault (FlagsFail version program.old.family bytes.now) fault) }
    ensures family { program.new.family ≡ program.old.family }
{
    let _classes = program.family().classes();
    flags_at(alloc, version, program, bytes)
}
