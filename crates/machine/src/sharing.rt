//! The store of all threads: what they share.

ghost use Rattle.std.specs.Prelude.{◌≡◌, ℕ, List, length, option_map, option_and_then};
ghost use Rattle.vm_state.specs.Output.{Print};
ghost use Rattle.vm_state.specs.Shares.{shared_of};
ghost use Rattle.vm_state.specs.SharedState.{SharedState};
ghost use Rattle.semantics.specs.Rows.{Result as Led, Named, part_of, int_length};
ghost use Rattle.machine.specs.ObjectParts.{slot_in};
ghost use Rattle.machine.specs.Sharing.{run_shared, stopped_shared, CanUseShared};

use crate::kinds::{Actor, Stop};
use crate::monitors::{Lock, lock_monitor};
use crate::store::Store;
use built_in::class_id::{ArrayType, ClassId};
use std::alloc::{AllocError, Global};
use vm_state::classes::Usability;
use vm_state::object::Slots;
use vm_state::shared::Shared;
use vm_state::value::{Name, Value};

/// How many slots an object has that is held, as an int: no array is longer than an int says, and of more it would be
/// the low 32 bits.
#[inline(always)]
pub fn length_of(slots: Option<&Slots>) -> Option<i32>
    ensures { result ≡ option_map (λ s. int_length (length s.now)) slots.entry }
{
    match slots {
        Some(slots) => Some(((slots.len() % 4_294_967_296) as u32).cast_signed()),
        None => None,
    }
}

/// One of the first two slots of an object, the name and the ordinal of an `Enum` object, once its name is set.
pub fn named_slot(slots: Option<&Slots>, slot: usize) -> Option<Value>
    ensures { result ≡ slot_in (option_and_then (part_of Named) (option_map (λ s. s.now) slots.entry)) slot }
{
    let slots = slots?;
    match (slots.get(0)?, slots.get(1)?) {
        (Value::Null, _) => None,
        (name, _) if slot == 0 => Some(name),
        (_, ordinal) if slot == 1 => Some(ordinal),
        _ => None,
    }
}

impl Store for Shared {
    ghost Answer = { Led };

    ghost State = { SharedState };

    ghost state = { shared_of };

    ghost run = { run_shared };

    ghost stopped = { stopped_shared };

    ghost CanUse = { CanUseShared };

    #[tactic(auto, unfolding(crate::specs::Accesses::unless_refused))]
    #[inline(always)]
    fn use_class(&self, by: Actor, class: u32) -> Result<bool, Stop> {
        match self.state(class).usability(by.thread) {
            Usability::Ready => Ok(true),
            Usability::Broken => Ok(false),
            Usability::Fresh => Err(Stop::Needs(class)),
            Usability::Busy => Err(Stop::Waits),
        }
    }

    #[inline(always)]
    fn read_static(&self, _by: Actor, class: u32, field: u32) -> Result<Value, Stop> {
        Ok(self.field(class, field))
    }

    #[tactic(auto, unfolding(crate::specs::Accesses::unless_refused))]
    fn write_static(
        &mut self,
        alloc: Global,
        _by: Actor,
        class: u32,
        field: u32,
        value: Value,
    ) -> Result<(), Stop> {
        match self.set_field(alloc, class, field, value) {
            Ok(()) => Ok(()),
            Err(AllocError) => Err(Stop::Memory),
        }
    }

    #[inline(always)]
    fn class_of(&self, _by: Actor, object: Name) -> Result<Option<ClassId>, Stop> {
        Ok(Shared::class_of(self, object))
    }

    #[inline(always)]
    fn slot(&self, _by: Actor, object: Name, slot: usize) -> Result<Option<Value>, Stop> {
        match self.slots(object) {
            Some(slots) => Ok(slots.get(slot)),
            None => Ok(None),
        }
    }

    #[inline(always)]
    fn size(&self, _by: Actor, object: Name) -> Result<Option<i32>, Stop> {
        Ok(length_of(self.slots(object)))
    }

    #[inline(always)]
    fn length(&self, _by: Actor, object: Name) -> Result<Option<i32>, Stop> {
        Ok(length_of(self.slots(object)))
    }

    fn named(&self, _by: Actor, object: Name, slot: usize) -> Result<Option<Value>, Stop> {
        Ok(named_slot(self.slots(object), slot))
    }

    #[tactic(auto, unfolding(crate::specs::Accesses::unless_refused))]
    fn copied_slots(&self, alloc: Global, _by: Actor, object: Name) -> Result<Option<Slots>, Stop> {
        match self.slots(object) {
            Some(slots) => Ok(Some(slots.copy(alloc)?)),
            None => Ok(None),
        }
    }

    #[tactic(auto, unfolding(crate::specs::Accesses::unless_refused))]
    fn set_named(
        &mut self,
        _by: Actor,
        object: Name,
        name: Value,
        ordinal: Value,
    ) -> Result<(), Stop> {
        match self.set_first(object, name, ordinal) {
            Ok(()) => Ok(()),
            Err(AllocError) => Err(Stop::Memory),
        }
    }

    #[tactic(auto, unfolding(crate::specs::Accesses::unless_refused))]
    #[inline(always)]
    fn change(&mut self, _by: Actor, object: Name, slot: usize, value: Value) -> Result<(), Stop> {
        match self.set_slot(object, slot, value) {
            Ok(()) => Ok(()),
            Err(AllocError) => Err(Stop::Memory),
        }
    }

    #[tactic(auto, unfolding(crate::specs::Accesses::unless_refused))]
    fn use_monitor(&mut self, by: Actor, object: Name, enter: bool) -> Result<bool, Stop> {
        match lock_monitor(by.thread, enter, self.monitor(object)) {
            Lock::Done(monitor) => match self.set_monitor(object, monitor) {
                Ok(()) => Ok(true),
                Err(AllocError) => Err(Stop::Memory),
            },
            Lock::Refused => Ok(false),
            Lock::Blocked => Err(Stop::Waits),
        }
    }

    #[tactic(auto, unfolding(crate::specs::Accesses::unless_refused))]
    fn make_array(
        &mut self,
        alloc: Global,
        by: Actor,
        array: ArrayType,
        zero: Value,
        size: usize,
    ) -> Result<Name, Stop> {
        let slots = Slots::filled(alloc, array, zero, size)?;
        match Shared::make(self, alloc, by.maker, ClassId::Array(array), slots) {
            Ok(name) => Ok(name),
            Err(AllocError) => Err(Stop::Memory),
        }
    }

    #[tactic(auto, unfolding(crate::specs::Accesses::unless_refused))]
    fn make(
        &mut self,
        alloc: Global,
        by: Actor,
        class: ClassId,
        slots: Slots,
    ) -> Result<Name, Stop> {
        match Shared::make(self, alloc, by.maker, class, slots) {
            Ok(name) => Ok(name),
            Err(AllocError) => Err(Stop::Memory),
        }
    }
}
