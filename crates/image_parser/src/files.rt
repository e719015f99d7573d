//! The class files of an image.

ghost use Rattle.std.specs.Prelude.{◌≡◌, ◌+◌, ◌<◌, ◌^◌, ◌⊎◌, None, Ok, Err, IfOk, IfErr};
ghost use Rattle.loading.specs.Names.{name_of};
ghost use Rattle.image_parser.specs.declared.fault.FilesFault.TheVariants.{Memory};
ghost use Rattle.image_parser.specs.FileFaults.{AreFiles, FilesFail, GivesFile};
ghost use Rattle.image_parser.specs.Regions.{Begins};
ghost use Rattle.image_parser.specs.reading.Files.{counted_at, sized_at, last_name, is_after, in_order, class_in};
ghost use Rattle.image_parser.specs.reading.Files.{file_at, files_at};
ghost use Rattle.image_parser.specs.reading.Results.{Gives};

use crate::fault::{FilesFault, RegionFault};
use crate::numbers::{run_at, u32_at};
use classfile::{ClassFile, read};
use loading::names::name_of;
use std::alloc::Global;

/// A count of 32 bits, and so many bytes.
#[tactic(auto, unfolding(crate::specs::reading::Files::counted_at))]
fn counted_at(bytes: &[u8]) -> Result<(&[u8], &[u8]), RegionFault>
    ensures { Gives (λ x. (x.0.now, x.1.now)) result (counted_at bytes.now) }
{
    let (count, rest) = u32_at(bytes)?;
    run_at(count as usize, rest)
}

/// The bytes of a class file, after their count.
#[tactic(auto, using(crate::proofs::FileLemmas::outside_fails))]
pub(crate) fn sized_at(bytes: &[u8]) -> Result<(&[u8], &[u8]), FilesFault>
    ensures { GivesFile (λ x. (x.0.now, x.1.now)) result (sized_at bytes.now) }
{
    match counted_at(bytes) {
        Ok(read) => Ok(read),
        Err(fault) => Err(fault.of_run()),
    }
}

/// Whether a file's name comes after that of the last one.
pub(crate) fn is_after(files: &[ClassFile], file: &ClassFile) -> bool
    ensures { result ≡ is_after (last_name files.now) (name_of file.now) }
{
    match files.last() {
        None => true,
        Some(before) => name_of(before).cmp(&name_of(file)).is_lt(),
    }
}

/// A file, if its name comes after that of the last one.
fn in_order(files: &[ClassFile], file: ClassFile) -> Result<ClassFile, FilesFault>
    ensures { GivesFile (λ x. x) result (in_order (last_name files.now) file) }
{
    if is_after(files, &file) {
        Ok(file)
    } else {
        Err(FilesFault::Order)
    }
}

/// The class file that these bytes are.
fn class_in(
    alloc: Global,
    index: u32,
    files: &[ClassFile],
    run: &[u8],
) -> Result<ClassFile, FilesFault>
    ensures { GivesFile (λ x. x) result (class_in index (last_name files.now) run.now) }
{
    match read(alloc, run) {
        Ok(file) => in_order(files, file),
        Err(fault) => Err(FilesFault::of_class(index, fault)),
    }
}

/// The class file of a place, after these.
#[tactic(auto, unfolding(crate::specs::reading::Files::file_at))]
fn file_at<'a>(
    alloc: Global,
    index: u32,
    files: &[ClassFile],
    bytes: &'a [u8],
) -> Result<(ClassFile, &'a [u8]), FilesFault>
    ensures { GivesFile (λ x. (x.0, x.1.now)) result (file_at index (last_name files.now) bytes.now) }
{
    let (run, rest) = sized_at(bytes)?;
    let file = class_in(alloc, index, files, run)?;
    Ok((file, rest))
}

/// Class files of which the first has this place, whatever comes before it.
pub(crate) fn files_at(
    alloc: Global,
    first: u32,
    count: u32,
    bytes: &[u8],
) -> Result<(Vec<ClassFile>, &[u8]), FilesFault>
    requires { first + count < 2 ^ 32 }
    ensures { GivesFile (λ x. (x.0.items, x.1.now)) result (files_at count first None bytes.now) }
{
    let mut files = Vec::new(alloc);
    let mut rest = bytes;
    for index in 0..count {
        let (file, after) = file_at(alloc, first + index, files.as_slice(), rest)?;
        files.push(file)?;
        rest = after;
    }
    Ok((files, rest))
}

/// Reads so many class files at the front of some bytes, each after its length and with ascending names, and answers
/// what stands after them too.
///
/// # Errors
/// The fault of the first class file that fails, or `Memory` where memory runs out.
pub(crate) fn read_files(
    alloc: Global,
    count: u32,
    bytes: &[u8],
) -> Result<(Vec<ClassFile>, &[u8]), FilesFault>
    ensures text { IfOk result (λ x. Begins (AreFiles count) bytes.now x.0.items x.1.now) }
    ensures fault { IfErr result (λ x. (x ≡ Memory) ⊎ FilesFail count bytes.now x) }
{
    files_at(alloc, 0, count, bytes)
}
