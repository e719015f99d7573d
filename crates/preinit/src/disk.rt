//! The files of the system. A regular file is written beside its name and takes its place when it is whole.

use cli::{FileCause, FileFault, Files};
use std::alloc::{AllocError, Global};
use std::fs::{self, File, Metadata, OpenFile};
use std::io::{self, ErrorKind, Read, Write};
use std::os::unix::fs::MetadataExt;
use std::rt;

/// How many bytes are read at once: most class files have fewer.
const PIECE: usize = 16_384;

/// How many links a name may lead through, as the system has it.
const LINKS: u32 = 40;

/// How many characters of its name a file beside another has, so that no name is too long for one: 60 take 240 bytes at
/// most, and a number and what stands around it 15.
const NAME: usize = 60;

/// The files of the system, by their paths.
#[derive(Drop)]
pub struct Disk<'a, R> {
    rt: &'a R,
    /// What each read fills anew.
    piece: [u8; PIECE],
}

impl<'a, R> Disk<'a, R> {
    pub fn new(rt: &'a R) -> Disk<'a, R> {
        Disk {
            rt,
            piece: [0; PIECE],
        }
    }
}

impl<R: rt::Files + AllocGlobal> Files for Disk<'_, R> {
    fn get(&mut self, name: &str) -> Result<Vec<u8>, FileFault> {
        let mut file = fs::open(self.rt, name).map_err(file_fault)?;
        read_all(self.rt.alloc(), &mut file, &mut self.piece).map_err(file_fault)
    }

    fn put(&mut self, name: &str, bytes: &[u8]) -> Result<(), FileFault> {
        match fs::metadata(self.rt, name) {
            Ok(old) if old.is_file() => replace(self.rt, name, &old, bytes).map_err(file_fault),
            Ok(_) => fs::write(self.rt, name, bytes).map_err(file_fault),
            Err(error) if is_absent(&error) => make(self.rt, name, bytes).map_err(file_fault),
            Err(error) => Err(file_fault(error)),
        }
    }

    fn are_one(&mut self, first: &str, second: &str) -> bool {
        if first == second {
            return true;
        }
        match (fs::metadata(self.rt, first), fs::metadata(self.rt, second)) {
            (Ok(one), Ok(other)) => one.is_file() && are_one_node(&one, &other),
            (Err(one), Err(other)) if is_absent(&one) && is_absent(&other) => {
                are_one_new_file(self.rt, first, second)
            }
            _ => false,
        }
    }
}

/// Whether the system says that there is no file of a name, or no folder for it.
fn is_absent(error: &io::Error) -> bool {
    error.kind() == ErrorKind::NotFound
}

/// Whether two names are of one file or of one folder.
fn are_one_node(one: &Metadata, other: &Metadata) -> bool {
    one.dev() == other.dev() && one.ino() == other.ino()
}

/// Whether two names of no file are those of one file, once it is made. Where memory is refused, that is not seen.
fn are_one_new_file<R: rt::Files + AllocGlobal>(rt: &R, first: &str, second: &str) -> bool {
    match (made_name(rt, first), made_name(rt, second)) {
        (Ok(one), Ok(other)) => are_one_place(rt, one.as_str(), other.as_str()),
        _ => false,
    }
}

/// Whether two names are one in one folder.
fn are_one_place<R: rt::Files>(rt: &R, first: &str, second: &str) -> bool {
    let (first_folder, first) = parted(first);
    let (second_folder, second) = parted(second);
    if first != second {
        return false;
    }
    match (
        fs::metadata(rt, first_folder),
        fs::metadata(rt, second_folder),
    ) {
        (Ok(one), Ok(other)) => are_one_node(&one, &other),
        _ => false,
    }
}

/// The folder that a name stands in, and the name there.
fn parted(name: &str) -> (&str, &str) {
    match name.rsplit_once('/') {
        Some(("", file)) => ("/", file),
        Some(parts) => parts,
        None => (".", name),
    }
}

/// The name of the file that is made where there is none of this name: of a link it is what the link leads to.
fn made_name<R: rt::Files + AllocGlobal>(rt: &R, name: &str) -> io::Result<String> {
    let mut made = String::from_str(rt.alloc(), name)?;
    for _ in 0..LINKS {
        match fs::read_link(rt, made.as_str()) {
            Ok(target) => made = linked(rt.alloc(), made.as_str(), target.as_str())?,
            Err(error) if is_no_link(&error) => return Ok(made),
            Err(error) => return Err(error),
        }
    }
    Err(io::Error::from(ErrorKind::NotFound))
}

/// Whether the system says that a name is not that of a link.
fn is_no_link(error: &io::Error) -> bool {
    matches!(error.kind(), ErrorKind::InvalidInput | ErrorKind::NotFound)
}

/// What a link of this name leads to.
fn linked(alloc: Global, name: &str, target: &str) -> Result<String, AllocError> {
    match name.rsplit_once('/') {
        Some((folder, _)) if !target.starts_with('/') => format!(in alloc; "{folder}/{target}"),
        _ => String::from_str(alloc, target),
    }
}

/// Puts a file of these bytes in the place of one, which keeps its permissions. Where the name is a link, its target is
/// replaced.
fn replace<R: rt::Files + AllocGlobal>(
    rt: &R,
    name: &str,
    old: &Metadata,
    bytes: &[u8],
) -> io::Result<()> {
    let target = fs::canonicalize(rt, name)?;
    let target = target.as_str();
    let beside = written_beside(rt, target, bytes)?;
    let moved = match fs::set_permissions(rt, beside.as_str(), old.permissions()) {
        Ok(()) => fs::rename(rt, beside.as_str(), target),
        Err(error) => Err(error),
    };
    removed_unless(rt, beside.as_str(), moved)
}

/// Makes a file of these bytes where none has the name. Where the name is a link, its target is made.
fn make<R: rt::Files + AllocGlobal>(rt: &R, name: &str, bytes: &[u8]) -> io::Result<()> {
    let made = made_name(rt, name)?;
    let made = made.as_str();
    let beside = written_beside(rt, made, bytes)?;
    let moved = fs::rename(rt, beside.as_str(), made);
    removed_unless(rt, beside.as_str(), moved)
}

/// A new file of these bytes beside another one, by its name. None is left where it can't be written.
fn written_beside<R: rt::Files + AllocGlobal>(
    rt: &R,
    name: &str,
    bytes: &[u8],
) -> io::Result<String> {
    for number in 0..u32::MAX {
        let beside = beside_name(rt.alloc(), name, number)?;
        match File::create_new(rt, beside.as_str()) {
            Ok(file) => {
                let written = write_whole(file, bytes);
                removed_unless(rt, beside.as_str(), written)?;
                return Ok(beside);
            }
            Err(error) if error.kind() == ErrorKind::AlreadyExists => {}
            Err(error) => return Err(error),
        }
    }
    Err(io::Error::from(ErrorKind::AlreadyExists))
}

/// A name for a file beside another one.
fn beside_name(alloc: Global, name: &str, number: u32) -> Result<String, AllocError> {
    match name.rsplit_once('/') {
        Some((folder, file)) => format!(in alloc; "{folder}/{file:.NAME$}.{number}.new"),
        None => format!(in alloc; "{name:.NAME$}.{number}.new"),
    }
}

/// Writes these bytes, up to the device.
fn write_whole<F: Write + OpenFile + Drop>(mut file: F, bytes: &[u8]) -> io::Result<()> {
    file.write_all(bytes)?;
    file.sync_all()
}

/// What was done with a file, which is removed where it failed.
fn removed_unless<R: rt::Files>(rt: &R, name: &str, done: io::Result<()>) -> io::Result<()> {
    if done.is_err() {
        // That it can't be removed is not told: what failed first is.
        let _ = fs::remove_file(rt, name);
    }
    done
}

/// What is left of a file, read piece by piece.
fn read_all<F: Read>(alloc: Global, file: &mut F, piece: &mut [u8]) -> io::Result<Vec<u8>> {
    let mut bytes = Vec::new(alloc);
    for _ in 0..u64::MAX {
        match file.read(piece) {
            Ok(0) => break,
            Ok(count) => bytes.extend_from_slice(&piece[..count])?,
            Err(error) if error.kind() == ErrorKind::Interrupted => {}
            Err(error) => return Err(error),
        }
    }
    Ok(bytes)
}

fn file_fault(error: io::Error) -> FileFault {
    match error.kind() {
        ErrorKind::OutOfMemory => FileFault::Memory,
        kind => FileFault::Device(cause_of(kind)),
    }
}

/// What an error of the system says of a file.
fn cause_of(kind: ErrorKind) -> FileCause {
    match kind {
        ErrorKind::NotFound => FileCause::Absent,
        ErrorKind::PermissionDenied | ErrorKind::ReadOnlyFilesystem => FileCause::Denied,
        ErrorKind::IsADirectory | ErrorKind::NotADirectory => FileCause::Folder,
        ErrorKind::StorageFull | ErrorKind::QuotaExceeded | ErrorKind::FileTooLarge => {
            FileCause::Full
        }
        _ => FileCause::Other,
    }
}
