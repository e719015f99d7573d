//! Why a command was refused.
ghost use Rattle.std.specs.Prelude.{◌≡◌, ◌≢◌};
ghost use Rattle.cli.specs.CommandFault.{IsOfFile, refusal_status};
ghost use Rattle.cli.specs.steps.Refusals.{journal_refusal, replay_refusal};
ghost use Rattle.cli.specs.declared.fault.CommandFault.TheVariants.{Memory};

use crate::{FileCause, FileFault, Status};
use classfile::ClassFault;
use image_parser::ImageFault;
use image_runner::ReplayFault;
use init_engine::EntryFault;
use journal::JournalFault;
use program::LinkFault;
use std::alloc::{AllocError, Global};
use thiserror::Error;
use wave_scheduler::outcome::WaveFault;

/// Why a command was refused. Its text follows `preinit: ` on standard error.
#[derive(Debug, Drop, Error)]
pub enum CommandFault {
    /// Memory was refused, by any of the calls.
    #[error("Memory")]
    Memory,
    /// A file of this place among the class files, from 0, is no class file.
    #[error("Class {0} {1}")]
    Class(usize, ClassFault),
    /// The classes do not make one program.
    #[error("Link {0}")]
    Link(LinkFault),
    /// A file is no image.
    #[error("{0}")]
    Image(ImageFault),
    /// An entry can't be run.
    #[error("Entry {0}")]
    Entry(EntryFault),
    /// A list of patterns of classes is wrong, as this text says.
    #[error("Option {0}")]
    Option(String),
    /// The budget is 0, or over 1,000,000,000.
    #[error("Budget")]
    Budget,
    /// The waves can't be tried as it was asked.
    #[error("Wave {0}")]
    Wave(WaveFault),
    /// The file of this name, as given, was not read or written.
    #[error("File {0}")]
    File(String, FileCause),
    /// The list of this name, as given, is not UTF-8.
    #[error("List {0}")]
    List(String),
    /// A line of a journal is none, from 1.
    #[error("Text {0}")]
    Text(usize),
    /// The thread of a line of a journal is not there or has no step, from 1.
    #[error("Turn {0}")]
    Turn(usize),
    /// A thread could not be started.
    #[error("Spawn")]
    Spawn,
    /// Standard output failed.
    #[error("Device")]
    Device,
}

impl CommandFault {
    /// The status that the command then ends with: `Failed` for a file or standard output, and else
    /// `Refused`.
    pub fn status(&self) -> Status
        ensures { result ≡ refusal_status self.now }
    {
        match self {
            CommandFault::File(..) | CommandFault::Device => Status::Failed,
            _ => Status::Refused,
        }
    }

    /// The refusal of the class file at this place. To be out of memory is no fault of the file.
    pub(crate) fn of_class(place: usize, fault: ClassFault) -> CommandFault
        ensures memory { fault ≡ ClassFault.Memory → result ≡ CommandFault.Memory }
        ensures other { fault ≢ ClassFault.Memory → result ≡ CommandFault.Class place fault }
    {
        match fault {
            ClassFault::Memory => CommandFault::Memory,
            fault => CommandFault::Class(place, fault),
        }
    }

    /// The refusal of the classes together. To be out of memory is no fault of theirs.
    pub(crate) fn of_link(fault: LinkFault) -> CommandFault
        ensures memory { fault ≡ LinkFault.Memory → result ≡ CommandFault.Memory }
        ensures other { fault ≢ LinkFault.Memory → result ≡ CommandFault.Link fault }
    {
        match fault {
            LinkFault::Memory => CommandFault::Memory,
            fault => CommandFault::Link(fault),
        }
    }

    /// The refusal of the bytes of an image. To be out of memory is no fault of theirs.
    pub(crate) fn of_image(fault: ImageFault) -> CommandFault
        ensures memory { fault ≡ ImageFault.Memory → result ≡ CommandFault.Memory }
        ensures other { fault ≢ ImageFault.Memory → result ≡ CommandFault.Image fault }
    {
        match fault {
            ImageFault::Memory => CommandFault::Memory,
            fault => CommandFault::Image(fault),
        }
    }

    /// The refusal of an entry. To be out of memory is no fault of its.
    pub(crate) fn of_entry(fault: EntryFault) -> CommandFault
        ensures memory { fault ≡ EntryFault.Memory → result ≡ CommandFault.Memory }
        ensures other { fault ≢ EntryFault.Memory → result ≡ CommandFault.Entry fault }
        ensures status { refusal_status result ≡ Status.Refused }
    {
        match fault {
            EntryFault::Memory => CommandFault::Memory,
            fault => CommandFault::Entry(fault),
        }
    }

    /// The refusal of the file of this name. To be out of memory is no fault of the file.
    pub(crate) fn of_file(alloc: Global, name: &str, fault: FileFault) -> CommandFault
        ensures memory { fault ≡ FileFault.Memory → result ≡ CommandFault.Memory }
        ensures device { fault ≢ FileFault.Memory → IsOfFile result name.now }
    {
        match fault {
            FileFault::Memory => CommandFault::Memory,
            FileFault::Device(cause) => match String::from_str(alloc, name) {
                Ok(name) => CommandFault::File(name, cause),
                Err(_) => CommandFault::Memory,
            },
        }
    }
}

impl CommandFault {
    /// The refusal of the list of this name, which is not UTF-8.
    pub(crate) fn of_list(alloc: Global, name: &str) -> CommandFault {
        match String::from_str(alloc, name) {
            Ok(name) => CommandFault::List(name),
            Err(_) => CommandFault::Memory,
        }
    }

    /// The refusal of the text of a journal. To be out of memory is no fault of its.
    pub(crate) fn of_journal(fault: JournalFault) -> CommandFault
        ensures { result ≡ journal_refusal fault }
    {
        match fault {
            JournalFault::Memory => CommandFault::Memory,
            JournalFault::Text(line) => CommandFault::Text(line),
        }
    }

    /// The refusal of a replay. To be out of memory is no fault of its.
    pub(crate) fn of_replay(fault: ReplayFault) -> CommandFault
        ensures { result ≡ replay_refusal fault }
    {
        match fault {
            ReplayFault::Memory => CommandFault::Memory,
            ReplayFault::Entry(fault) => CommandFault::Entry(fault),
            ReplayFault::Turn(line) => CommandFault::Turn(line),
        }
    }
}

impl From<AllocError> for CommandFault {
    ghost from_gives = { λ _ e. e ≡ Memory };

    fn from(_error: AllocError) -> CommandFault {
        CommandFault::Memory
    }
}
