//! The files that a command reads and writes.
ghost use Rattle.std.specs.Prelude.{◌≡◌, ◌≤◌, ◌++◌, ◌∷◌, [], true, IfErr, IfOk, OnOk, length};
ghost use Rattle.command_line.specs.Requests.{texts};
ghost use Rattle.cli.specs.CommandFault.{refusal_status};
ghost use Rattle.cli.specs.Files.{AreBytesOf, AreTextsOf, OthersStay};
ghost use Rattle.cli.specs.ImageBuilds.{AreAtMost};
ghost use Rattle.cli.specs.Runs.{texts_of};
ghost use Rattle.cli.specs.steps.Left.{LeavesFile};

use crate::CommandFault;
use std::alloc::{AllocError, Global};
use std::fmt::{self, Display, Formatter, Write};

/// What the system said of a file that was not read or written.
#[derive(Clone, Copy, Debug)]
pub enum FileCause {
    /// It is not there, or its folder is not.
    Absent,
    /// It may not be read or written.
    Denied,
    /// It is a folder, or what should be its folder is none.
    Folder,
    /// Its device has no room.
    Full,
    /// It has more bytes than an image can count.
    Long,
    /// Anything else.
    Other,
}

impl Display for FileCause {
    fn fmt<W: Write>(&self, formatter: &mut Formatter<W>) -> Result<(), fmt::Error> {
        formatter.write_str(match self {
            FileCause::Absent => "it is not there, or its folder is not",
            FileCause::Denied => "permission is denied",
            FileCause::Folder => "it is a folder, or it stands in what is none",
            FileCause::Full => "there is no room on its device",
            FileCause::Long => "it is a class file of 2^32 bytes or more",
            FileCause::Other => "the system or its device failed",
        })
    }
}

/// Why a file was not read or written.
#[derive(Clone, Copy)]
pub enum FileFault {
    /// Memory was refused.
    Memory,
    /// The file is not there, may not be used, or its device failed.
    Device(FileCause),
}

/// The files of a command, by the names that its words give. Contracts see what the file of each name holds, where the
/// type of the files says so.
pub trait Files {
    ghost use Rattle.std.specs.Prelude.{ℕ, List, Option, None};

    ghost holds: { Self → List ℕ → Option (List ℕ) } = { λ _ _. None };

    /// The bytes of a file. It changes no file.
    ///
    /// # Errors
    /// `Device` where the file can't be read, `Memory` where its bytes can't be held.
    fn get(&mut self, name: &str) -> Result<Vec<u8>, FileFault>
        ensures bytes { IfOk result (λ bytes. AreBytesOf (holds self.old name.now) bytes.items) }
        ensures same { holds self.new ≡ holds self.old };

    /// Makes a file of these bytes, in the place of one of that name. It changes no other file.
    ///
    /// # Errors
    /// `Device` where the file can't be written: what it then holds is open. `Memory` where memory was refused: then it
    /// is as it was.
    fn put(&mut self, name: &str, bytes: &[u8]) -> Result<(), FileFault>
        ensures made { OnOk result (AreBytesOf (holds self.new name.now) bytes.now) }
        ensures others { OthersStay (holds self.old) (holds self.new) name.now }
        ensures refused { IfErr result (λ fault. fault ≡ FileFault.Memory → holds self.new ≡ holds self.old) };

    /// Whether two names are of one file, as far as that can be seen. It changes no file.
    fn are_one(&mut self, first: &str, second: &str) -> bool
        ensures same_name { first.now ≡ second.now → result ≡ true }
        ensures same { holds self.new ≡ holds self.old }
    {
        first == second
    }
}

/// The contents of the files of these names, each of at most `most` bytes.
///
/// # Errors
/// `File` of the first that can't be read or is longer, or `Memory`.
pub(crate) fn contents<F: Files>(
    alloc: Global,
    names: &[&str],
    files: &mut F,
    most: usize,
) -> Result<Vec<Vec<u8>>, CommandFault>
    ensures most { IfOk result (λ contents. AreAtMost most (texts_of contents.items)) }
    ensures texts { IfOk result
        (λ contents. AreTextsOf (F.holds files.old) (texts names.now) (texts_of contents.items)) }
    ensures same { F.holds files.new ≡ F.holds files.old }
{
    let mut contents = Vec::new(alloc);
    for name in names {
        match content(name, files, most) {
            Ok(bytes) => add_bytes(&mut contents, bytes)?,
            Err(fault) => return Err(CommandFault::of_file(alloc, name, fault)),
        }
    }
    Ok(contents)
}

/// The content of the file of this name, of at most `most` bytes.
fn content<F: Files>(name: &str, files: &mut F, most: usize) -> Result<Vec<u8>, FileFault>
    ensures most { IfOk result (λ bytes. length bytes.items ≤ most) }
    ensures bytes { IfOk result (λ bytes. AreBytesOf (F.holds files.old name.now) bytes.items) }
    ensures same { F.holds files.new ≡ F.holds files.old }
{
    match files.get(name) {
        Ok(bytes) => at_most(bytes, most),
        Err(fault) => Err(fault),
    }
}

/// These bytes, where they are at most `most`.
fn at_most(bytes: Vec<u8>, most: usize) -> Result<Vec<u8>, FileFault>
    ensures most { IfOk result (λ bytes. length bytes.items ≤ most) }
    ensures same { IfOk result (λ taken. taken ≡ bytes) }
{
    if most < bytes.len() {
        return Err(FileFault::Device(FileCause::Long));
    }
    Ok(bytes)
}

fn add_bytes(contents: &mut Vec<Vec<u8>>, bytes: Vec<u8>) -> Result<(), AllocError>
    ensures { OnOk result (contents.new.items ≡ contents.old.items ++ bytes ∷ []) }
{
    Ok(contents.push(bytes)?)
}

/// The bytes of the file of this name.
pub(crate) fn get<F: Files>(
    alloc: Global,
    name: &str,
    files: &mut F,
) -> Result<Vec<u8>, CommandFault>
    ensures bytes { IfOk result (λ bytes. AreBytesOf (F.holds files.old name.now) bytes.items) }
    ensures same { F.holds files.new ≡ F.holds files.old }
{
    match files.get(name) {
        Ok(bytes) => Ok(bytes),
        Err(fault) => Err(CommandFault::of_file(alloc, name, fault)),
    }
}

/// Makes a file of these bytes.
pub(crate) fn put<F: Files>(
    alloc: Global,
    name: &str,
    bytes: &[u8],
    files: &mut F,
) -> Result<(), CommandFault>
    ensures made { OnOk result (AreBytesOf (F.holds files.new name.now) bytes.now) }
    ensures others { OthersStay (F.holds files.old) (F.holds files.new) name.now }
    ensures left { IfErr result
        (λ refusal. LeavesFile (F.holds files.old) (F.holds files.new) name.now (refusal_status refusal)) }
{
    // Memory for the name is asked for first, so that a file that fails is always told as one.
    let told = String::from_str(alloc, name)?;
    match files.put(name, bytes) {
        Ok(()) => Ok(()),
        Err(FileFault::Memory) => Err(CommandFault::Memory),
        Err(FileFault::Device(cause)) => Err(CommandFault::File(told, cause)),
    }
}
