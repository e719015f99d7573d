//! The store of a thread that runs outside the lock: it knows which classes were asked for, and refuses all else.

ghost use Rattle.std.specs.Prelude.{◌≡◌, ℕ, List};
ghost use Rattle.thread_runner.specs.steps.Asked.{Local, over_asked, refused};

use built_in::class_id::{ArrayType, ClassId};
use machine::kinds::{Actor, Stop};
use machine::store::Store;
use std::alloc::Global;
use vm_state::object::Slots;
use vm_state::value::{Name, Value};

/// Classes that were asked for, and found to be initialized.
#[derive(Clone, Copy)]
pub(crate) struct AskedStore<'a> {
    pub(crate) classes: &'a [u32],
}

impl<'a> Store for AskedStore<'a> {
    ghost Answer = { Local };

    ghost State = { List ℕ };

    ghost state = { λ s p. s.classes.now };

    ghost run = { λ by asked row. over_asked asked row };

    ghost stopped = { refused };

    ghost CanUse = { λ by s c. Unit {0} };

    #[tactic(auto, unfolding(machine::specs::Accesses::unless_refused))]
    fn use_class(&self, _by: Actor, class: u32) -> Result<bool, Stop> {
        if self.classes.contains(&class) {
            Ok(true)
        } else {
            Err(Stop::Needs(class))
        }
    }

    #[tactic(auto, unfolding(machine::specs::Accesses::unless_refused))]
    fn read_static(&self, _by: Actor, _class: u32, _field: u32) -> Result<Value, Stop> {
        Err(Stop::Barred)
    }

    #[tactic(auto, unfolding(machine::specs::Accesses::unless_refused))]
    fn write_static(
        &mut self,
        _alloc: Global,
        _by: Actor,
        _class: u32,
        _field: u32,
        _value: Value,
    ) -> Result<(), Stop> {
        Err(Stop::Barred)
    }

    #[tactic(auto, unfolding(machine::specs::Accesses::unless_refused))]
    fn class_of(&self, _by: Actor, _object: Name) -> Result<Option<ClassId>, Stop> {
        Err(Stop::Barred)
    }

    #[tactic(auto, unfolding(machine::specs::Accesses::unless_refused))]
    fn slot(&self, _by: Actor, _object: Name, _slot: usize) -> Result<Option<Value>, Stop> {
        Err(Stop::Barred)
    }

    #[tactic(auto, unfolding(machine::specs::Accesses::unless_refused))]
    fn size(&self, _by: Actor, _object: Name) -> Result<Option<i32>, Stop> {
        Err(Stop::Barred)
    }

    #[tactic(auto, unfolding(machine::specs::Accesses::unless_refused))]
    fn length(&self, _by: Actor, _object: Name) -> Result<Option<i32>, Stop> {
        Err(Stop::Barred)
    }

    #[tactic(auto, unfolding(machine::specs::Accesses::unless_refused))]
    fn named(&self, _by: Actor, _object: Name, _slot: usize) -> Result<Option<Value>, Stop> {
        Err(Stop::Barred)
    }

    #[tactic(auto, unfolding(machine::specs::Accesses::unless_refused))]
    fn copied_slots(
        &self,
        _alloc: Global,
        _by: Actor,
        _object: Name,
    ) -> Result<Option<Slots>, Stop> {
        Err(Stop::Barred)
    }

    #[tactic(auto, unfolding(machine::specs::Accesses::unless_refused))]
    fn set_named(
        &mut self,
        _by: Actor,
        _object: Name,
        _name: Value,
        _ordinal: Value,
    ) -> Result<(), Stop> {
        Err(Stop::Barred)
    }

    #[tactic(auto, unfolding(machine::specs::Accesses::unless_refused))]
    fn change(
        &mut self,
        _by: Actor,
        _object: Name,
        _slot: usize,
        _value: Value,
    ) -> Result<(), Stop> {
        Err(Stop::Barred)
    }

    #[tactic(auto, unfolding(machine::specs::Accesses::unless_refused))]
    fn use_monitor(&mut self, _by: Actor, _object: Name, _enter: bool) -> Result<bool, Stop> {
        Err(Stop::Barred)
    }

    #[tactic(auto, unfolding(machine::specs::Accesses::unless_refused))]
    fn make_array(
        &mut self,
        _alloc: Global,
        _by: Actor,
        _array: ArrayType,
        _zero: Value,
        _size: usize,
    ) -> Result<Name, Stop> {
        Err(Stop::Barred)
    }

    #[tactic(auto, unfolding(machine::specs::Accesses::unless_refused))]
    fn make(
        &mut self,
        _alloc: Global,
        _by: Actor,
        _class: ClassId,
        _slots: Slots,
    ) -> Result<Name, Stop> {
        Err(Stop::Barred)
    }
}
