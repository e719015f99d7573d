//! The monitors that are owned, by the numbers of their objects.

ghost use Rattle.std.specs.Prelude.{◌≡◌, [], OnOk, OnErr, IfOk};
ghost use Rattle.vm_state.specs.steps.Owners.{monitor_in, IsMonitorSet};

use crate::object::Monitor;
use std::alloc::{AllocError, Global};
use std::collections::BTreeMap;
use std::marker::Model;

/// Monitors with the numbers of their objects; the others are free.
#[derive(Drop)]
pub(crate) struct Owners {
    owned: BTreeMap<u64, Monitor>,
}

impl Model for Owners {
    ghost use Rattle.std.specs.Prelude.{List, ℕ};
    ghost use Rattle.vm_state.specs.declared.object.Monitor.{Monitor as HeldMonitor};

    ghost Value = { List (ℕ × HeldMonitor) };

    ghost view = { λ s. s.owned.entries };
}

impl Owners {
    /// All are free.
    pub(crate) fn none(alloc: Global) -> Owners
        ensures { result ≡ [] }
    {
        Owners {
            owned: BTreeMap::new(alloc),
        }
    }

    /// A copy of the owners.
    pub(crate) fn copy(&self) -> Result<Owners, AllocError>
        ensures { IfOk result (λ o. o ≡ self.now) }
    {
        let owned = self.owned.clone()?;
        Ok(Owners { owned })
    }

    /// The monitor of a number.
    pub(crate) fn monitor(&self, number: u64) -> Monitor
        ensures { result ≡ monitor_in self.now number }
    {
        match self.owned.get(&number) {
            Some(monitor) => *monitor,
            None => Monitor::Free,
        }
    }

    /// The monitor of a number becomes this one. It takes memory only where it gets owned.
    pub(crate) fn set(&mut self, number: u64, monitor: Monitor) -> Result<(), AllocError>
        ensures ok { OnOk result (IsMonitorSet self.old self.new number monitor) }
        ensures err { OnErr result (self.new ≡ self.old) }
    {
        match monitor {
            Monitor::Free => {
                self.owned.remove(&number);
            }
            Monitor::Owned { .. } => {
                self.owned.insert(number, monitor)?;
            }
        }
        Ok(())
    }
}
