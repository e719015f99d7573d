//! All that stands after the class files.

ghost use Rattle.std.specs.Prelude.{◌≡◌, ◌⊎◌, [], Ok, Err, IfOk, IfErr};
ghost use Rattle.std.specs.Bool.{Decides};
ghost use Rattle.program.specs.Tables.{Tables};
ghost use Rattle.image_format.specs.declared.version.Version.TheVariants.{Two};
ghost use Rattle.image_parser.specs.declared.fault.RegionsFault.TheVariants.{Memory};
ghost use Rattle.image_parser.specs.AllRegions.{RegionsFail};
ghost use Rattle.image_parser.specs.reading.Flagged.{AreHeld, IsIdleFault, NeedsReached, RegionsHeld};

use crate::fault::RegionsFault;
use crate::flags::read_flags;
use crate::names::nameless;
use image_format::version::Version;
use object_graph::first_idle;
use program::Program;
use region_shape::regions::Regions;
use std::alloc::Global;

/// Reads the flags and regions of all classes of a program, which fill the bytes. The program gets the strings that
/// they hold.
///
/// # Errors
/// The first fault of a part, in order; then `Extra`; then the least class that names an object that there is not;
/// then, in version 2, the least class that keeps an object which no static field reaches. `Memory` where memory runs
/// out.
#[tactic(auto, using(crate::proofs::AllRegionsLemmas::among))]
pub(crate) fn read_regions(
    alloc: Global,
    version: Version,
    program: &mut Program,
    bytes: &[u8],
) -> Result<Regions, RegionsFault>
    ensures text { IfOk result (RegionsHeld version program.old program.new bytes.now) }
    ensures fault { IfErr result (λ x. (x ≡ Memory) ⊎ RegionsFail version program.old.family bytes.now x) }
    ensures family { program.new.family ≡ program.old.family }
{
    match read_flags(alloc, version, program, bytes) {
        Ok((regions, rest)) => whole(alloc, version, program, regions, bytes, rest),
        Err(fault) => Err(fault.among_regions()),
    }
}

/// Whether no byte is left.
fn is_done(rest: &[u8]) -> bool
    ensures { Decides result (rest.now ≡ []) }
{
    rest.is_empty()
}

/// Regions that were read, if nothing is left, each name is one of an object that there is, and in version 2 each
/// object is reached.
fn whole(
    alloc: Global,
    version: Version,
    program: &Program,
    regions: Regions,
    bytes: &[u8],
    rest: &[u8],
) -> Result<Regions, RegionsFault>
    ensures text { (P : Tables) → AreHeld version P program.now bytes.now regions rest.now
        → IfOk result (RegionsHeld version P program.now bytes.now) }
    ensures fault { (P : Tables) → AreHeld version P program.now bytes.now regions rest.now
        → IfErr result (λ x. (x ≡ Memory) ⊎ RegionsFail version P.family bytes.now x) }
{
    let _classes = program.classes();
    if !is_done(rest) {
        return Err(RegionsFault::Extra);
    }
    match nameless(program, &regions) {
        Some(class) => Err(RegionsFault::Name { class }),
        None => shown(alloc, version, program, regions),
    }
}

/// Regions, if in version 2 some static field reaches each of their objects.
fn shown(
    alloc: Global,
    version: Version,
    program: &Program,
    regions: Regions,
) -> Result<Regions, RegionsFault>
    ensures shown { IfOk result (λ shown. (shown ≡ regions) × NeedsReached version program.now regions) }
    ensures idle { IfErr result (λ x. (x ≡ Memory) ⊎ IsIdleFault version program.now regions x) }
{
    match version {
        Version::One => Ok(regions),
        Version::Two => used(alloc, program, regions),
    }
}

/// Regions, if some static field reaches each of their objects.
fn used(alloc: Global, program: &Program, regions: Regions) -> Result<Regions, RegionsFault>
    ensures used { IfOk result (λ used. (used ≡ regions) × NeedsReached Two program.now regions) }
    ensures idle { IfErr result (λ x. (x ≡ Memory) ⊎ IsIdleFault Two program.now regions x) }
{
    match first_idle(alloc, program, &regions)? {
        Some(class) => Err(RegionsFault::Idle { class }),
        None => Ok(regions),
    }
}
