//! The class files of an image, read by several threads: where the second half begins, the lengths before class files
//! tell alone. What is wrong in it may not be what is wrong first, so then one thread reads all again.

ghost use Rattle.std.specs.Prelude.{◌≡◌, ◌+◌, ◌<◌, ◌^◌, ◌⊎◌, None, Ok, IfOk, IfErr};
ghost use denote.Param.Send.{IsSync};
ghost use Rattle.image_parser.specs.declared.fault.FilesFault.TheVariants.{Memory};
ghost use Rattle.image_parser.specs.FileFaults.{AreFiles, FilesFail, GivesFile};
ghost use Rattle.image_parser.specs.Regions.{Begins};
ghost use Rattle.image_parser.specs.reading.Files.{after_files, files_at, last_name, meets, past};

use crate::fault::FilesFault;
use crate::files::{files_at, is_after, sized_at};
use classfile::ClassFile;
use std::alloc::Global;
use std::thread::{self, Threads};

/// So many bytes are worth a thread.
const SHARE: usize = 65_536;
/// The most threads.
const MOST: usize = 8;

/// How many threads read class files and implement methods: as many as there are processors, and one for few bytes.
pub(crate) fn threads_for<R: Threads>(rt: &R, bytes: &[u8]) -> usize
    ensures { 0 < result }
{
    match thread::available_parallelism(rt) {
        Ok(count) => count.get().min(MOST).min(bytes.len() / SHARE).max(1),
        Err(_) => 1,
    }
}

/// What stands after so many class files, of which the lengths alone are read.
fn past(count: u32, bytes: &[u8]) -> Result<&[u8], FilesFault>
    ensures { GivesFile (λ x. x.now) result (past count bytes.now) }
{
    let mut rest = bytes;
    for index in 0..count {
        let (_, after) = sized_at(rest)?;
        rest = after;
    }
    Ok(rest)
}

/// Whether class files stand after others by their names, if there are any.
fn meets(files: &[ClassFile], more: &[ClassFile]) -> bool
    ensures { result ≡ meets (last_name files.now) more.now }
{
    match more.first() {
        None => true,
        Some(file) => is_after(files, file),
    }
}

/// Class files of which the first has this place, whatever comes before it, read by so many threads.
#[cycle(halves)]
fn files_by<'a, R: Threads + Sync>(
    rt: &R,
    alloc: Global,
    parts: usize,
    first: u32,
    count: u32,
    bytes: &'a [u8],
) -> Result<(Vec<ClassFile>, &'a [u8]), FilesFault>
    requires { first + count < 2 ^ 32 }
    ensures { GivesFile (λ x. (x.0.items, x.1.now)) result (files_at count first None bytes.now) }
{
    if parts < 2 || count < 2 {
        return files_at(alloc, first, count, bytes);
    }
    let low = count / 2;
    let Ok(middle) = past(low, bytes) else {
        return files_at(alloc, first, count, bytes);
    };
    let high = count - low;
    let up = first + low;
    let front = move || -> Result<(Vec<ClassFile>, &[u8]), FilesFault>
        requires { IsSync R.row × (first + low < 2 ^ 32) }
        ensures { GivesFile (λ x. (x.0.items, x.1.now)) result (files_at low first None bytes.entry.now) }
    { files_by(rt, alloc, parts / 2, first, low, bytes) };
    let back = move || -> Result<(Vec<ClassFile>, &[u8]), FilesFault>
        requires { IsSync R.row × (up + high < 2 ^ 32) }
        ensures { GivesFile (λ x. (x.0.items, x.1.now)) result (files_at high up None middle.entry.now) }
    { files_by(rt, alloc, parts - parts / 2, up, high, middle) };
    let (front, back) = thread::join(rt, front, back);
    let (files, _) = front?;
    match back {
        Ok((more, rest)) if meets(files.as_slice(), more.as_slice()) => joined(files, more, rest),
        _ => files_at(alloc, first, count, bytes),
    }
}

/// Class files, and those that come after them.
fn joined<'a>(
    files: Vec<ClassFile>,
    more: Vec<ClassFile>,
    rest: &'a [u8],
) -> Result<(Vec<ClassFile>, &'a [u8]), FilesFault>
    ensures { GivesFile (λ x. (x.0.items, x.1.now)) result (after_files files.items (Ok (more.items, rest.now))) }
{
    let mut files = files;
    let mut more = more;
    match files.append(&mut more) {
        Ok(()) => Ok((files, rest)),
        Err(_) => Err(FilesFault::Memory),
    }
}

/// Does what `read_files` does. Where there is much to read, several threads do.
///
/// # Errors
/// Those of `read_files`.
pub(crate) fn read_files_by_several<'a, R: Threads + Sync>(
    rt: &R,
    alloc: Global,
    count: u32,
    bytes: &'a [u8],
) -> Result<(Vec<ClassFile>, &'a [u8]), FilesFault>
    ensures text { IfOk result (λ x. Begins (AreFiles count) bytes.now x.0.items x.1.now) }
    ensures fault { IfErr result (λ x. (x ≡ Memory) ⊎ FilesFail count bytes.now x) }
{
    files_by(rt, alloc, threads_for(rt, bytes), 0, count, bytes)
}
