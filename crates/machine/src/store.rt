//! What an instruction touches beyond its own frame.

ghost use Rattle.std.specs.Prelude.{◌≡◌, ℕ, true, false, List, IfOk, IfErr, replicate};
ghost use Rattle.built_in.specs.declared.class_id.ClassId.TheVariants.{Array};
ghost use Rattle.vm_state.specs.Output.{Print};
ghost use Rattle.semantics.specs.Rows.{Row, UseClass, ReadStatic, WriteStatic, AskClass, LookInto, Change};
ghost use Rattle.semantics.specs.Rows.{Make, UseMonitor, Slots as AllSlots};
ghost use Rattle.machine.specs.Accesses.{Kept, Leads, LeadsOn};
ghost use Rattle.machine.specs.ObjectParts.{look_into_slot, count_slots, ask_length, look_into_named, set_named};
ghost use Rattle.machine.specs.declared.kinds.Actor.{Actor as By};
ghost use Rattle.machine.specs.declared.kinds.Stop.{Stop as Reason};

use crate::kinds::{Actor, Stop};
use built_in::class_id::{ArrayType, ClassId};
use std::alloc::Global;
use vm_state::object::Slots;
use vm_state::value::{Name, Value};

/// Where instructions make their accesses. A row has a meaning in it, and each access is one step of that meaning.
pub trait Store {
    // What a row leads to.
    ghost Answer: { Type 0 };

    // What definitions see of a store.
    ghost State: { Type 0 };

    // The state of a store, where this was printed so far.
    ghost state: { Self → List Print → Self.State };

    // What a row leads to from a state.
    ghost run: { By → Self.State → Row → Self.Answer };

    // What a row leads to that is stopped for a reason other than memory.
    ghost stopped: { Reason → Self.Answer };

    // A class was asked for, and may be used.
    ghost CanUse: { By → Self → ℕ → Type 0 };

    /// Asks for an initialized class (JVMS 5.5): true where it may be used, false where its initialization failed.
    ///
    /// # Errors
    /// `Needs` where its initialization has to begin, `Waits` where another thread is at it, or the store's own reason.
    fn use_class(&self, by: Actor, class: u32) -> Result<bool, Stop>
        ensures leads { (p : List Print) → Leads stopped (run by (state self.now p)) (run by (state self.now p))
            (UseClass class) result }
        ensures may { IfOk result (λ usable. usable ≡ true → CanUse by self.now class) };

    /// The value of a static field of a class that was asked for.
    ///
    /// # Errors
    /// The store's reason why it may not be read.
    fn read_static(&self, by: Actor, class: u32, field: u32) -> Result<Value, Stop>
        requires { CanUse by self.now class }
        ensures { (p : List Print) → Leads stopped (run by (state self.now p)) (run by (state self.now p))
            (ReadStatic class field) result };

    /// Sets a static field of a class that was asked for. Where it is stopped nothing changes; where memory stops it,
    /// nothing that definitions see.
    ///
    /// # Errors
    /// The store's reason; `Memory` where memory is refused.
    fn write_static(
        &mut self,
        alloc: Global,
        by: Actor,
        class: u32,
        field: u32,
        value: Value,
    ) -> Result<(), Stop>
        requires { CanUse by self.old class }
        ensures leads { (p : List Print) → LeadsOn stopped (run by (state self.old p)) (run by (state self.new p))
            (WriteStatic class field value) result }
        ensures same { IfErr result (λ stop. Kept state stop self.old self.new) };

    /// The class of an object, if it is held.
    ///
    /// # Errors
    /// The store's reason why it may not be asked for.
    fn class_of(&self, by: Actor, object: Name) -> Result<Option<ClassId>, Stop>
        ensures { (p : List Print) → Leads stopped (run by (state self.now p)) (run by (state self.now p))
            (AskClass object) result };

    /// The value in a slot of an object, if it is held and has that slot: of an instance field or an element.
    ///
    /// # Errors
    /// The store's reason why it may not be looked into.
    fn slot(&self, by: Actor, object: Name, slot: usize) -> Result<Option<Value>, Stop>
        ensures { (p : List Print) → Leads stopped (run by (state self.now p)) (run by (state self.now p))
            (look_into_slot object slot) result };

    /// How many slots an object has, if it is held, before one of them is looked into or changed.
    ///
    /// # Errors
    /// The store's reason why it may not be looked into.
    fn size(&self, by: Actor, object: Name) -> Result<Option<i32>, Stop>
        ensures { (p : List Print) → Leads stopped (run by (state self.now p)) (run by (state self.now p))
            (count_slots object) result };

    /// How many slots an object has, if it is held, and nothing else of them: an array's length.
    ///
    /// # Errors
    /// The store's reason why it may not be looked into.
    fn length(&self, by: Actor, object: Name) -> Result<Option<i32>, Stop>
        ensures { (p : List Print) → Leads stopped (run by (state self.now p)) (run by (state self.now p))
            (ask_length object) result };

    /// The name or the ordinal of an `Enum` object, by its slot, if it is held and its name is set.
    ///
    /// # Errors
    /// The store's reason why it may not be looked into.
    fn named(&self, by: Actor, object: Name, slot: usize) -> Result<Option<Value>, Stop>
        ensures { (p : List Print) → Leads stopped (run by (state self.now p)) (run by (state self.now p))
            (look_into_named object slot) result };

    /// A copy of an object's slots, if it is held.
    ///
    /// # Errors
    /// The store's reason why it may not be looked into; `Memory` where memory is refused.
    fn copied_slots(&self, alloc: Global, by: Actor, object: Name) -> Result<Option<Slots>, Stop>
        ensures { (p : List Print) → Leads stopped (run by (state self.now p)) (run by (state self.now p))
            (LookInto object AllSlots) result };

    /// Sets the name and the ordinal of an `Enum` object. Where it is not held nothing changes; nor where it is
    /// stopped.
    ///
    /// # Errors
    /// The store's reason why it may not be changed; `Memory` where memory is refused.
    fn set_named(
        &mut self,
        by: Actor,
        object: Name,
        name: Value,
        ordinal: Value,
    ) -> Result<(), Stop>
        ensures leads { (p : List Print) → LeadsOn stopped (run by (state self.old p)) (run by (state self.new p))
            (set_named object name ordinal) result }
        ensures same { IfErr result (λ stop. Kept state stop self.old self.new) };

    /// Puts a value into a slot of an object. Where it is not held, or has no such slot, nothing changes; nor where it
    /// is stopped.
    ///
    /// # Errors
    /// The store's reason why it may not be changed; `Memory` where memory is refused.
    fn change(&mut self, by: Actor, object: Name, slot: usize, value: Value) -> Result<(), Stop>
        ensures leads { (p : List Print) → LeadsOn stopped (run by (state self.old p)) (run by (state self.new p))
            (Change object slot value) result }
        ensures same { IfErr result (λ stop. Kept state stop self.old self.new) };

    /// Enters or leaves the monitor of an object (JVMS 2.11.10): true where that was done. Where it was not nothing
    /// changes; nor where it is stopped.
    ///
    /// # Errors
    /// `Waits` where another thread owns a monitor that is to be entered, or the store's own reason; `Memory` where
    /// memory is refused.
    fn use_monitor(&mut self, by: Actor, object: Name, enter: bool) -> Result<bool, Stop>
        ensures leads { (p : List Print) → Leads stopped (run by (state self.old p)) (run by (state self.new p))
            (UseMonitor object enter) result }
        ensures refused { IfOk result (λ done. done ≡ false → self.new ≡ self.old) }
        ensures same { IfErr result (λ stop. Kept state stop self.old self.new) };

    /// Makes an array of `size` components with this value, whose monitor is free, and answers its name.
    /// Where it is stopped nothing changes; where memory stops it, nothing that definitions see.
    ///
    /// # Errors
    /// The store's reason, before memory is asked for; `Memory` where memory is refused.
    fn make_array(
        &mut self,
        alloc: Global,
        by: Actor,
        array: ArrayType,
        zero: Value,
        size: usize,
    ) -> Result<Name, Stop>
        ensures leads { (p : List Print) → Leads stopped (run by (state self.old p)) (run by (state self.new p))
            (Make (Array array) (replicate size zero)) result }
        ensures same { IfErr result (λ stop. Kept state stop self.old self.new) };

    /// Makes an object, whose monitor is free, and answers its name. Where it is stopped nothing changes; where memory
    /// stops it, nothing that definitions see.
    ///
    /// # Errors
    /// The store's reason; `Memory` where memory is refused.
    fn make(&mut self, alloc: Global, by: Actor, class: ClassId, slots: Slots) -> Result<Name, Stop>
        ensures leads { (p : List Print) → Leads stopped (run by (state self.old p)) (run by (state self.new p))
            (Make class slots) result }
        ensures same { IfErr result (λ stop. Kept state stop self.old self.new) };
}
