//! Why there is no run of an image, or no replay.

ghost use Rattle.std.specs.Prelude.{◌≡◌, ◌≢◌};

use init_engine::EntryFault;
use thread_runner::Ended;

/// Why a run by threads did not end by itself.
#[derive(Drop)]
pub enum RunFault {
    /// Memory was refused.
    Memory,
    /// The entries can't be run.
    Entry(EntryFault),
    /// A thread could not be started.
    Spawn,
    /// The sink failed, after this many bytes of what was printed.
    Device(u128),
    /// The journal has as many steps as it may, and a thread still has a step.
    Limit(Ended),
    /// No thread has a step, and one has not ended.
    Stuck(Ended),
}

/// Why a journal is not replayed.
#[derive(Debug, Drop)]
pub enum ReplayFault {
    /// Memory was refused.
    Memory,
    /// The entries can't be run.
    Entry(EntryFault),
    /// The thread of a line of the journal's text, from 1, is not there or has no step at its place.
    Turn(usize),
}

impl ReplayFault {
    /// The fault of entries. To be out of memory is no fault of theirs.
    pub(crate) fn of_entries(fault: EntryFault) -> ReplayFault
        ensures memory { fault ≡ EntryFault.Memory → result ≡ ReplayFault.Memory }
        ensures other { fault ≢ EntryFault.Memory → result ≡ ReplayFault.Entry fault }
    {
        match fault {
            EntryFault::Memory => ReplayFault::Memory,
            fault => ReplayFault::Entry(fault),
        }
    }
}
