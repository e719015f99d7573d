//! Whole images.

ghost use Rattle.std.specs.Prelude.{◌≡◌, ◌≤◌, ◌⊎◌, List, Option, ℕ, length, take, drop, IfOk, IfErr};
ghost use Rattle.std.specs.Bool.{Decides};
ghost use Rattle.std.specs.Int.{w32, from_be_bytes};
ghost use Rattle.classfile.specs.Faults.{IsBytes};
ghost use Rattle.loading.specs.Families.{Family as Classes};
ghost use Rattle.program.specs.Programs.{HasOwnStrings, IsProgram};
ghost use Rattle.image_format.specs.Regions.{ImageRegion as Told};
ghost use Rattle.image_format.specs.Images.{ImageText, OldText, VersionText};
ghost use Rattle.image_parser.specs.declared.image_fault.ImageFault.TheVariants.{Memory};
ghost use Rattle.image_parser.specs.HeaderFaults.{IsSealed};
ghost use denote.Param.Send.{IsSync};
ghost use Rattle.image_parser.specs.ImageFaults.{HasFiles, ImageFails, IsImage, IsLinked, PartsFail};
ghost use Rattle.image_parser.specs.ImageFaults.{PartsText};
ghost use Rattle.image_parser.specs.TextOrFault.{TextOrFault};
ghost use Rattle.image_parser.specs.reading.Frames.{FailsInEach, IsUnsealed};
ghost use Rattle.image_parser.specs.Parsings.{IsOfFiles, IsParsed, told_in};

use crate::files::read_files;
use crate::halves::{read_files_by_several, threads_for};
use crate::header::{is_sealed, parts_of, unsealed_parts};
use crate::image_fault::ImageFault;
use crate::regions::read_regions;
use byteorder::{BigEndian, ByteOrder};
use classfile::ClassFile;
use image_format::version::Version;
use program::{Program, link, link_by};
use region_shape::regions::Regions;
use std::alloc::Global;
use std::thread::{self, Threads};

/// An image of fewer bytes is digested before another thread has begun.
const SMALL: usize = 65_536;

/// What an image's text says: a linked program, with the strings that its classes hold, and the regions of those that
/// are initialized.
#[derive(Drop)]
pub struct Parsed {
    pub version: Version,
    pub program: Program,
    pub regions: Regions,
}

/// Reads an image of version 2, or of version 1 with all objects that its classes made.
///
/// # Errors
/// What is wrong first, from the frame inward and then from front to back; `Memory` where memory runs out.
pub fn parse(alloc: Global, bytes: &[u8]) -> Result<Parsed, ImageFault>
    ensures { IsParsed bytes.now result }
{
    of_bytes(alloc, bytes)
}

/// Does the same as `parse`. Where there is much to read, other threads read class files and digest all meanwhile.
///
/// # Errors
/// Those of `parse`.
pub fn parse_by_several<R: Threads + Sync>(
    rt: &R,
    alloc: Global,
    bytes: &[u8],
) -> Result<Parsed, ImageFault>
    ensures { IsParsed bytes.now result }
{
    of_bytes_by_several(rt, alloc, bytes)
}

/// Bytes are the text of one image or have one fault, and never both. A text is one of version 2 or one of version 1.
pub fn image_or_fault()
    ensures one { (bytes : List ℕ) → IsBytes bytes → TextOrFault (IsImage bytes) (ImageFails bytes) }
    ensures version { (bytes : List ℕ) (F G : Classes) (a b : List (Option Told)) → ImageText bytes F a
        → OldText bytes G b → ⊥ }
{}

/// The digest of an image, which stands at its end.
fn digest_of(bytes: &[u8]) -> &[u8] {
    let (_, digest) = bytes.split_at(bytes.len().saturating_sub(32));
    digest
}

/// What the bytes of an image say.
fn of_bytes(alloc: Global, bytes: &[u8]) -> Result<Parsed, ImageFault>
    ensures text { IfOk result (λ parsed. VersionText parsed.version bytes.now parsed.program.family (told_in parsed)) }
    ensures program { IfOk result (λ parsed. IsProgram parsed.program) }
    ensures files { IfOk result (λ parsed. IsOfFiles parsed.program parsed.regions) }
    ensures fault { IfErr result (λ x. (x ≡ Memory) ⊎ ImageFails bytes.now x) }
{
    match parts_of(bytes) {
        Ok((version, parts)) => of_parts(alloc, version, parts, digest_of(bytes)),
        Err(fault) => Err(ImageFault::of_header(fault)),
    }
}

/// What the bytes of an image say, whose digest another thread may look at.
fn of_bytes_by_several<R: Threads + Sync>(
    rt: &R,
    alloc: Global,
    bytes: &[u8],
) -> Result<Parsed, ImageFault>
    ensures text { IfOk result (λ parsed. VersionText parsed.version bytes.now parsed.program.family (told_in parsed)) }
    ensures program { IfOk result (λ parsed. IsProgram parsed.program) }
    ensures files { IfOk result (λ parsed. IsOfFiles parsed.program parsed.regions) }
    ensures fault { IfErr result (λ x. (x ≡ Memory) ⊎ ImageFails bytes.now x) }
{
    if bytes.len() < SMALL {
        return of_bytes(alloc, bytes);
    }
    match unsealed_parts(bytes) {
        Ok((version, parts)) => of_unsealed(rt, alloc, bytes, version, parts),
        Err(fault) => Err(ImageFault::of_header(fault)),
    }
}

/// What the bytes of an image say that has these parts, at whose digest another thread looks while its class files are
/// linked. Regions are read once it is known to be right: their strings are hashed by it.
fn of_unsealed<R: Threads + Sync>(
    rt: &R,
    alloc: Global,
    bytes: &[u8],
    version: Version,
    parts: &[u8],
) -> Result<Parsed, ImageFault>
    requires { IsUnsealed bytes.now version parts.now }
    ensures text { IfOk result (λ parsed. VersionText parsed.version bytes.now parsed.program.family (told_in parsed)) }
    ensures program { IfOk result (λ parsed. IsProgram parsed.program) }
    ensures files { IfOk result (λ parsed. IsOfFiles parsed.program parsed.regions) }
    ensures fault { IfErr result (λ x. (x ≡ Memory) ⊎ ImageFails bytes.now x) }
{
    let seal = move || -> bool
        ensures { Decides result (IsSealed bytes.entry.now) }
    { is_sealed(bytes) };
    let link = move || -> Result<(Program, &[u8]), ImageFault>
        requires { IsSync R.row × (4 ≤ length parts.now) }
        ensures linked { IfOk result (λ x. IsLinked parts.entry.now x.0.family x.1.now) }
        ensures program { IfOk result (λ x. IsProgram x.0) }
        ensures own_strings { IfOk result (λ x. HasOwnStrings x.0) }
        ensures fault { IfErr result (λ x. (x ≡ Memory) ⊎ FailsInEach parts.entry.now x) }
    { linked_by_several(rt, alloc, parts, files_by_several(rt, alloc, parts)) };
    let (is_sealed, linked) = thread::join(rt, seal, link);
    if is_sealed {
        of_linked(alloc, version, linked, parts, digest_of(bytes))
    } else {
        Err(ImageFault::Digest)
    }
}

/// The number of the first four bytes, and the others.
fn count_at(parts: &[u8]) -> (u32, &[u8])
    requires { 4 ≤ length parts.now }
    ensures count { result.0 ≡ from_be_bytes w32 (take 4 parts.now) }
    ensures rest { result.1.now ≡ drop 4 parts.now }
{
    let (front, rest) = parts.split_at(4);
    (BigEndian::read_u32(front), rest)
}

/// The class files at the front of an image's parts, and what stands after them.
fn files_in(alloc: Global, parts: &[u8]) -> Result<(Vec<ClassFile>, &[u8]), ImageFault>
    requires { 4 ≤ length parts.now }
    ensures files { IfOk result (λ x. HasFiles parts.now x.0.items x.1.now) }
    ensures fault { IfErr result (λ x. (x ≡ Memory) ⊎ FailsInEach parts.now x) }
{
    let (count, bytes) = count_at(parts);
    match read_files(alloc, count, bytes) {
        Ok(read) => Ok(read),
        Err(fault) => Err(ImageFault::of_files(fault)),
    }
}

/// Does what `files_in` does. Where there is much to read, several threads do.
fn files_by_several<'a, R: Threads + Sync>(
    rt: &R,
    alloc: Global,
    parts: &'a [u8],
) -> Result<(Vec<ClassFile>, &'a [u8]), ImageFault>
    requires { 4 ≤ length parts.now }
    ensures files { IfOk result (λ x. HasFiles parts.now x.0.items x.1.now) }
    ensures fault { IfErr result (λ x. (x ≡ Memory) ⊎ FailsInEach parts.now x) }
{
    let (count, bytes) = count_at(parts);
    match read_files_by_several(rt, alloc, count, bytes) {
        Ok(read) => Ok(read),
        Err(fault) => Err(ImageFault::of_files(fault)),
    }
}

/// The linked program of the class files that were read at the front of an image's parts, and what stands after them.
fn linked_program<'a>(
    alloc: Global,
    parts: &[u8],
    read: Result<(Vec<ClassFile>, &'a [u8]), ImageFault>,
) -> Result<(Program, &'a [u8]), ImageFault>
    requires files { IfOk read (λ x. HasFiles parts.now x.0.items x.1.now) }
    requires fault { IfErr read (λ x. (x ≡ Memory) ⊎ FailsInEach parts.now x) }
    ensures linked { IfOk result (λ x. IsLinked parts.now x.0.family x.1.now) }
    ensures program { IfOk result (λ x. IsProgram x.0) }
    ensures own_strings { IfOk result (λ x. HasOwnStrings x.0) }
    ensures fault { IfErr result (λ x. (x ≡ Memory) ⊎ FailsInEach parts.now x) }
{
    match read {
        Ok((files, rest)) => match link(alloc, files) {
            Ok(program) => Ok((program, rest)),
            Err(fault) => Err(ImageFault::of_link(fault)),
        },
        Err(fault) => Err(fault),
    }
}

/// Does what `linked_program` does. Several threads implement methods.
fn linked_by_several<'a, R: Threads + Sync>(
    rt: &R,
    alloc: Global,
    parts: &[u8],
    read: Result<(Vec<ClassFile>, &'a [u8]), ImageFault>,
) -> Result<(Program, &'a [u8]), ImageFault>
    requires files { IfOk read (λ x. HasFiles parts.now x.0.items x.1.now) }
    requires fault { IfErr read (λ x. (x ≡ Memory) ⊎ FailsInEach parts.now x) }
    ensures linked { IfOk result (λ x. IsLinked parts.now x.0.family x.1.now) }
    ensures program { IfOk result (λ x. IsProgram x.0) }
    ensures own_strings { IfOk result (λ x. HasOwnStrings x.0) }
    ensures fault { IfErr result (λ x. (x ≡ Memory) ⊎ FailsInEach parts.now x) }
{
    match read {
        Ok((files, rest)) => match link_by(rt, alloc, threads_for(rt, parts), files) {
            Ok(program) => Ok((program, rest)),
            Err(fault) => Err(ImageFault::of_link(fault)),
        },
        Err(fault) => Err(fault),
    }
}

/// What the parts of an image say.
fn of_parts(
    alloc: Global,
    version: Version,
    parts: &[u8],
    digest: &[u8],
) -> Result<Parsed, ImageFault>
    requires { 4 ≤ length parts.now }
    ensures text { IfOk result (λ parsed. (parsed.version ≡ version)
        × PartsText version parts.now parsed.program.family (told_in parsed)) }
    ensures program { IfOk result (λ parsed. IsProgram parsed.program) }
    ensures files { IfOk result (λ parsed. IsOfFiles parsed.program parsed.regions) }
    ensures fault { IfErr result (λ x. (x ≡ Memory) ⊎ PartsFail version parts.now x) }
{
    let linked = linked_program(alloc, parts, files_in(alloc, parts));
    of_linked(alloc, version, linked, parts, digest)
}

/// What the parts of an image say at whose front this was found.
fn of_linked(
    alloc: Global,
    version: Version,
    linked: Result<(Program, &[u8]), ImageFault>,
    parts: &[u8],
    digest: &[u8],
) -> Result<Parsed, ImageFault>
    requires linked { IfOk linked (λ x. IsLinked parts.now x.0.family x.1.now) }
    requires program { IfOk linked (λ x. IsProgram x.0) }
    requires own_strings { IfOk linked (λ x. HasOwnStrings x.0) }
    requires fault { IfErr linked (λ x. (x ≡ Memory) ⊎ FailsInEach parts.now x) }
    ensures text { IfOk result (λ parsed. (parsed.version ≡ version)
        × PartsText version parts.now parsed.program.family (told_in parsed)) }
    ensures program { IfOk result (λ parsed. IsProgram parsed.program) }
    ensures files { IfOk result (λ parsed. IsOfFiles parsed.program parsed.regions) }
    ensures fault { IfErr result (λ x. (x ≡ Memory) ⊎ PartsFail version parts.now x) }
{
    match linked {
        Ok((program, rest)) => of_program(alloc, version, program, parts, rest, digest),
        Err(fault) => Err(fault),
    }
}

/// What the parts of an image say whose class files make this program.
fn of_program(
    alloc: Global,
    version: Version,
    program: Program,
    parts: &[u8],
    rest: &[u8],
    digest: &[u8],
) -> Result<Parsed, ImageFault>
    requires linked { IsLinked parts.now program.family rest.now }
    requires program { IsProgram program }
    requires own_strings { HasOwnStrings program }
    ensures text { IfOk result (λ parsed. (parsed.version ≡ version)
        × PartsText version parts.now parsed.program.family (told_in parsed)) }
    ensures program { IfOk result (λ parsed. IsProgram parsed.program) }
    ensures files { IfOk result (λ parsed. IsOfFiles parsed.program parsed.regions) }
    ensures fault { IfErr result (λ x. (x ≡ Memory) ⊎ PartsFail version parts.now x) }
{
    let mut program = program;
    if program.hash_strings_by(alloc, digest).is_err() {
        return Err(ImageFault::Memory);
    }
    match read_regions(alloc, version, &mut program, rest) {
        Ok(regions) => {
            let _classes = program.classes();
            Ok(Parsed {
                version,
                program,
                regions,
            })
        }
        Err(fault) => Err(ImageFault::of_regions(alloc, program.family(), fault)),
    }
}
