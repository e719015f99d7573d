//! What `clap` reports, as a fault.
ghost use Rattle.std.specs.Prelude.{◌≡◌};
ghost use Rattle.clap.specs.Values.{kind_of};
ghost use Rattle.clap.specs.declared.error.kind.ErrorKind.TheVariants.{OutOfMemory};
ghost use Rattle.command_line.specs.steps.Faults.{SaysKind};

use crate::WordsFault;
use clap::Error;
use clap::error::ErrorKind;
use std::alloc::Global;

/// The fault that an error of `clap` is. It stands in a file of its own, so that no contract of a
/// public call names `clap`.
pub(crate) fn fault_of(alloc: Global, error: &Error) -> WordsFault
    ensures memory { kind_of error.now ≡ OutOfMemory → result ≡ WordsFault.Memory }
    ensures kind { SaysKind (kind_of error.now) result }
{
    let kind = error.kind();
    if kind == ErrorKind::OutOfMemory {
        return WordsFault::Memory;
    }
    let text = match format!(in alloc; "{error}") {
        Ok(text) => text,
        Err(_) => return WordsFault::Memory,
    };
    if kind == ErrorKind::DisplayHelp || kind == ErrorKind::DisplayVersion {
        return WordsFault::Help(text);
    }
    WordsFault::Wrong(text)
}
