//! What all threads share.

ghost use Rattle.std.specs.Prelude.{◌≡◌, List, IfOk, IfSome, IfNone, IsOk, OnOk, OnErr, Some, option_copied};
ghost use Rattle.std.specs.Prelude.{option_map, ◌<◌, ◌+◌, ◌^◌, length, true};
ghost use Rattle.vm_state.specs.Output.{Print};
ghost use Rattle.vm_state.specs.SharedState.{object_of, class_at, form_at, pool_of, set_pool, slots_at};
ghost use Rattle.vm_state.specs.SharedState.{monitor_of, set_region, with_monitor, with_slot};
ghost use Rattle.vm_state.specs.steps.ClassWords.{expected_class};
ghost use Rattle.vm_state.specs.Statics.{IsPlaced, usable};
ghost use Rattle.vm_state.specs.declared.classes.Usability.{Usability};
ghost use Rattle.vm_state.specs.Shares.{shared_of, SharesTheSame, SetsField, SetsState, Begins, Makes, IsNextName};
ghost use Rattle.vm_state.specs.Shares.{Initializes, region_by, empty_region};
ghost use Rattle.vm_state.specs.Pools.{IsPoolBy};
ghost use Rattle.vm_state.specs.Objects.{kept_of};
ghost use Rattle.vm_state.specs.declared.kept.Kept.{Kept as HeldObject};

use crate::classes::{ClassState, Classes, Fields, NoPlace, StaticField};
use crate::heap::{Heap, Pool};
use crate::kept::{Expected, Kept};
use crate::object::{Monitor, Slots};
use crate::packing::Packing;
use crate::value::{Maker, Name, Value};
use built_in::class_id::ClassId;
use std::alloc::{AllocError, Global};
use std::marker::Model;

/// The states and static fields of the classes, and the objects.
#[derive(Drop)]
pub struct Shared {
    classes: Classes,
    heap: Heap,
}

impl Model for Shared {
    ghost use Rattle.vm_state.specs.SharedTables.{SharedTables};

    ghost Value = { SharedTables };

    ghost view = { λ s. record { classes = s.classes; heap = s.heap } };
}

impl Shared {
    /// These tables.
    pub fn new(classes: Classes, heap: Heap) -> Shared
        ensures { result ≡ record { classes = classes; heap = heap } }
    {
        Shared { classes, heap }
    }

    /// The state of a class.
    #[tactic(auto, unfolding(crate::specs::Shares::shared_of))]
    #[inline(always)]
    pub fn state(&self, class: u32) -> ClassState
        ensures { (p : List Print) → result ≡ (shared_of self.now p).states class }
    {
        self.classes.state(class)
    }

    /// Whether a class is ready for a thread; not where it must be initialized first, by this thread or another, nor
    /// where its initialization has failed.
    #[tactic(auto, unfolding(crate::specs::Shares::shared_of))]
    #[inline(always)]
    pub fn is_ready(&self, class: u32, thread: u32) -> bool
        ensures ready { (p : List Print) → result ≡ true → usable thread ((shared_of self.now p).states class)
            ≡ Usability.Ready }
        ensures known { (p : List Print) → usable thread ((shared_of self.now p).states class) ≡ Usability.Ready →
            result ≡ true }
    {
        self.classes.is_ready(class, thread)
    }

    /// The value of a static field.
    #[tactic(auto, unfolding(crate::specs::Shares::shared_of))]
    #[inline(always)]
    pub fn field(&self, class: u32, field: u32) -> Value
        ensures { (p : List Print) → result ≡ ((shared_of self.now p).regions class).fields field }
    {
        self.classes.field(class, field)
    }

    /// Sets a static field that has a place, without memory.
    ///
    /// # Errors
    /// `NoPlace` where it has none; nothing has changed then.
    #[inline(always)]
    pub fn replace_field(&mut self, class: u32, field: u32, value: Value) -> Result<(), NoPlace>
        ensures ok { OnOk result (SetsField self.old self.new class field value) }
        ensures placed { IsPlaced self.old.classes class (field + 1) → IsOk result }
        ensures err { OnErr result (self.new ≡ self.old) }
    {
        self.classes.replace_field(class, field, value)?;
        Ok(())
    }

    /// Sets a static field.
    ///
    /// # Errors
    /// `AllocError` where memory is refused, but never where the field has a place; nothing has changed then.
    #[inline(always)]
    pub fn set_field(
        &mut self,
        alloc: Global,
        class: u32,
        field: u32,
        value: Value,
    ) -> Result<(), AllocError>
        ensures ok { OnOk result (SetsField self.old self.new class field value) }
        ensures placed { IsPlaced self.old.classes class (field + 1) → IsOk result }
        ensures err { OnErr result (SharesTheSame self.old self.new) }
    {
        match self.replace_field(class, field, value) {
            Ok(()) => Ok(()),
            Err(NoPlace) => self.add_field(alloc, class, field, value),
        }
    }

    /// Sets a static field that has no place yet. Where memory is refused nothing changes.
    fn add_field(
        &mut self,
        alloc: Global,
        class: u32,
        field: u32,
        value: Value,
    ) -> Result<(), AllocError>
        ensures ok { OnOk result (SetsField self.old self.new class field value) }
        ensures err { OnErr result (SharesTheSame self.old self.new) }
    {
        self.classes.set_field(alloc, class, field, value)?;
        Ok(())
    }

    /// Keeps a place for a class, and for the first `count` of its static fields; nothing else changes.
    ///
    /// # Errors
    /// `AllocError` where memory is refused, but never where they have places.
    pub fn keep(&mut self, alloc: Global, class: u32, count: usize) -> Result<(), AllocError>
        ensures same { SharesTheSame self.old self.new }
        ensures ok { OnOk result (IsPlaced self.new.classes class count) }
        ensures placed { IsPlaced self.old.classes class count → IsOk result }
    {
        self.classes.keep(alloc, class, count)
    }

    /// Sets the state of a class that has a place, without memory.
    pub fn replace_state(&mut self, class: u32, state: ClassState)
        requires { class < length self.old.classes }
        ensures { SetsState self.old self.new class state }
    {
        self.classes.replace_state(class, state);
    }

    /// Begins the initialization of a class by a thread (JVMS 5.5, step 6). The class and these fields have places, so
    /// it takes no memory.
    pub fn begin(&mut self, class: u32, thread: u32, statics: &[StaticField])
        requires { IsPlaced self.old.classes class (length statics.now) }
        ensures { Begins self.old self.new class thread statics.now }
    {
        self.classes.begin(class, thread, statics);
    }

    /// Puts the static fields and the objects of a class in place of those that it had, and says that the class is
    /// initialized.
    ///
    /// # Errors
    /// `AllocError` where memory is refused; nothing has changed then.
    pub fn initialize(
        &mut self,
        alloc: Global,
        class: u32,
        fields: Fields,
        objects: Pool,
    ) -> Result<(), AllocError>
        ensures ok { OnOk result (Initializes self.old self.new class fields objects) }
        ensures err { OnErr result (SharesTheSame self.old self.new) }
    {
        self.classes.keep(alloc, class, 0)?;
        self.heap.classes.put(alloc, class, objects)?;
        self.classes.initialize(class, fields);
        Ok(())
    }

    /// Takes the static fields and the objects of a class out. It has none of them then; its state stays.
    pub fn take(&mut self, alloc: Global, class: u32) -> (Fields, Pool)
        ensures taken { (p : List Print) → region_by result.0 result.1 ≡ (shared_of self.old p).regions class }
        ensures left { (p : List Print) → shared_of self.new p ≡ set_region (shared_of self.old p) class empty_region }
    {
        let fields = self.classes.take_fields(alloc, class);
        let objects = self.heap.classes.take(alloc, class);
        (fields, objects)
    }

    /// The object of a name, if it is held.
    #[inline(always)]
    pub fn object(&self, name: Name) -> Option<&Kept>
        ensures kept { (p : List Print) → option_copied result
            ≡ option_map kept_of (object_of (shared_of self.now p) name) }
        ensures class { (p : List Print) → option_map (λ (o : HeldObject). o.class) (option_copied result)
            ≡ class_at (pool_of (shared_of self.now p) name.maker) name.number }
        ensures slots { (p : List Print) → option_map (λ (o : HeldObject). o.slots) (option_copied result)
            ≡ slots_at (pool_of (shared_of self.now p) name.maker) name.number }
    {
        self.kept(name)
    }

    /// The object of a name, as it is kept.
    #[tactic(auto, unfolding(crate::specs::Shares::shared_of))]
    #[inline(always)]
    fn kept(&self, name: Name) -> Option<&Kept>
        ensures { (p : List Print) → option_copied result
            ≡ option_map kept_of (object_of (shared_of self.now p) name) }
    {
        match name.maker {
            Maker::Class(class) => self.heap.classes.object(class, name.number),
            Maker::Thread(thread) => self.heap.threads.object(thread, name.number),
        }
    }

    /// The objects.
    pub fn heap(&self) -> &Heap
        ensures { result.now ≡ self.now.heap }
    {
        &self.heap
    }

    /// The objects of a maker; none where it made none.
    #[tactic(auto, unfolding(crate::specs::Shares::shared_of))]
    pub fn pool(&self, maker: Maker) -> Option<&Pool>
        ensures { (p : List Print) → IsPoolBy (option_copied result) (pool_of (shared_of self.now p) maker) }
    {
        self.heap.pool(maker)
    }

    /// The class of the object of a name, if it is held.
    #[inline(always)]
    pub fn class_of(&self, name: Name) -> Option<ClassId>
        ensures { (p : List Print) → result ≡ class_at (pool_of (shared_of self.now p) name.maker) name.number }
    {
        match self.object(name) {
            Some(object) => Some(object.class.id()),
            None => None,
        }
    }

    /// The slots of the object of a name, if it is held.
    #[inline(always)]
    pub fn slots(&self, name: Name) -> Option<&Slots>
        ensures { (p : List Print) → option_copied result
            ≡ slots_at (pool_of (shared_of self.now p) name.maker) name.number }
    {
        match self.object(name) {
            Some(object) => Some(&object.slots),
            None => None,
        }
    }

    /// Puts a value into a slot of the object of a name. Where it is not held, or has no such slot, nothing changes. It
    /// takes memory only where a value comes among numbers that is none of their type.
    ///
    /// # Errors
    /// `AllocError` where memory is refused; nothing has changed then.
    pub fn set_slot(&mut self, name: Name, slot: usize, value: Value) -> Result<(), AllocError>
        ensures ok { OnOk result ((p : List Print) → shared_of self.new p ≡ set_pool (shared_of self.old p) name.maker
            (with_slot (pool_of (shared_of self.old p) name.maker) name.number slot value)) }
        ensures err { OnErr result (self.new ≡ self.old) }
    {
        self.set_slot_as(name, Packing::Briefs, slot, value)
    }

    /// As [`set_slot`](Shared::set_slot), quick where the object's slots are held as expected.
    ///
    /// # Errors
    /// `AllocError` where memory is refused; nothing has changed then.
    #[tactic(auto, unfolding(crate::specs::Shares::shared_of))]
    #[inline(always)]
    pub fn set_slot_as(
        &mut self,
        name: Name,
        expected: Packing,
        slot: usize,
        value: Value,
    ) -> Result<(), AllocError>
        ensures ok { OnOk result ((p : List Print) → shared_of self.new p ≡ set_pool (shared_of self.old p) name.maker
            (with_slot (pool_of (shared_of self.old p) name.maker) name.number slot value)) }
        ensures err { OnErr result (self.new ≡ self.old) }
    {
        let number = name.number;
        match name.maker {
            Maker::Class(class) => self
                .heap
                .classes
                .set_slot_as(class, number, expected, slot, value),
            Maker::Thread(thread) => self
                .heap
                .threads
                .set_slot_as(thread, number, expected, slot, value),
        }
    }

    /// Puts a value into a slot of the object of a name, and says how many slots it has; not where it is not held, is
    /// not of the class expected, holds its slots otherwise, has no such slot, or the value does not fit.
    #[tactic(auto, unfolding(crate::specs::Shares::shared_of))]
    #[inline(always)]
    pub fn put_within(
        &mut self,
        name: Name,
        expected: Expected,
        packing: Packing,
        slot: usize,
        value: Value,
    ) -> Option<usize>
        ensures slot { IfSome result (λ n. (slot < n) × (n < 2 ^ 31)) }
        ensures form { IfSome result (λ n. (p : List Print)
            → form_at (pool_of (shared_of self.old p) name.maker) name.number ≡ Some (expected_class expected, n)) }
        ensures some { IfSome result (λ n. (p : List Print)
            → shared_of self.new p ≡ set_pool (shared_of self.old p) name.maker
            (with_slot (pool_of (shared_of self.old p) name.maker) name.number slot value)) }
        ensures none { IfNone result (self.new ≡ self.old) }
    {
        let number = name.number;
        match name.maker {
            Maker::Class(class) => {
                self.heap
                    .classes
                    .put_within(class, number, expected, packing, slot, value)
            }
            Maker::Thread(thread) => {
                self.heap
                    .threads
                    .put_within(thread, number, expected, packing, slot, value)
            }
        }
    }

    /// Puts values into the first two slots of the object of a name. Where it is not held, or has no such slot, nothing
    /// changes.
    ///
    /// # Errors
    /// `AllocError` where memory is refused; nothing has changed then.
    #[tactic(auto, unfolding(crate::specs::Shares::shared_of))]
    pub fn set_first(&mut self, name: Name, first: Value, second: Value) -> Result<(), AllocError>
        ensures ok { OnOk result ((p : List Print) → shared_of self.new p ≡ set_pool (shared_of self.old p) name.maker
            (with_slot (with_slot (pool_of (shared_of self.old p) name.maker) name.number 0 first) name.number 1
            second)) }
        ensures err { OnErr result (self.new ≡ self.old) }
    {
        match name.maker {
            Maker::Class(class) => self
                .heap
                .classes
                .set_first(class, name.number, first, second),
            Maker::Thread(thread) => self
                .heap
                .threads
                .set_first(thread, name.number, first, second),
        }
    }

    /// The monitor of the object of a name; of one that is not held it is free.
    #[tactic(auto, unfolding(crate::specs::Shares::shared_of))]
    pub fn monitor(&self, name: Name) -> Monitor
        ensures { (p : List Print) → result ≡ monitor_of (object_of (shared_of self.now p) name) }
    {
        match name.maker {
            Maker::Class(class) => self.heap.classes.monitor(class, name.number),
            Maker::Thread(thread) => self.heap.threads.monitor(thread, name.number),
        }
    }

    /// Sets the monitor of the object of a name. Where it is not held nothing changes. It takes memory only where the
    /// monitor gets owned.
    ///
    /// # Errors
    /// `AllocError` where memory is refused; nothing has changed then.
    #[tactic(auto, unfolding(crate::specs::Shares::shared_of))]
    pub fn set_monitor(&mut self, name: Name, monitor: Monitor) -> Result<(), AllocError>
        ensures ok { OnOk result ((p : List Print) → shared_of self.new p ≡ set_pool (shared_of self.old p) name.maker
            (with_monitor (pool_of (shared_of self.old p) name.maker) name.number monitor)) }
        ensures err { OnErr result (self.new ≡ self.old) }
    {
        match name.maker {
            Maker::Class(class) => self.heap.classes.set_monitor(class, name.number, monitor),
            Maker::Thread(thread) => self.heap.threads.set_monitor(thread, name.number, monitor),
        }
    }

    /// One more object of a maker, and its name. The classes stay as they are.
    ///
    /// # Errors
    /// `AllocError` where memory is refused; nothing has changed then.
    pub fn make(
        &mut self,
        alloc: Global,
        maker: Maker,
        class: ClassId,
        slots: Slots,
    ) -> Result<Name, AllocError>
        ensures name { IfOk result (λ name. IsNextName self.old maker name) }
        ensures ok { OnOk result (Makes self.old self.new maker class slots) }
        ensures classes { self.new.classes ≡ self.old.classes }
        ensures err { OnErr result (SharesTheSame self.old self.new) }
    {
        match maker {
            Maker::Class(number) => self.make_by_class(alloc, number, class, slots),
            Maker::Thread(number) => self.make_by_thread(alloc, number, class, slots),
        }
    }

    #[tactic(auto, unfolding(crate::specs::Shares::shared_of))]
    fn make_by_class(
        &mut self,
        alloc: Global,
        maker: u32,
        class: ClassId,
        slots: Slots,
    ) -> Result<Name, AllocError>
        ensures name { IfOk result (λ name. IsNextName self.old (Maker.Class maker) name) }
        ensures ok { OnOk result (Makes self.old self.new (Maker.Class maker) class slots) }
        ensures classes { self.new.classes ≡ self.old.classes }
        ensures err { OnErr result (SharesTheSame self.old self.new) }
    {
        let number = self.heap.classes.make(alloc, maker, class, slots)?;
        Ok(Name {
            maker: Maker::Class(maker),
            number,
        })
    }

    #[tactic(auto, unfolding(crate::specs::Shares::shared_of))]
    fn make_by_thread(
        &mut self,
        alloc: Global,
        maker: u32,
        class: ClassId,
        slots: Slots,
    ) -> Result<Name, AllocError>
        ensures name { IfOk result (λ name. IsNextName self.old (Maker.Thread maker) name) }
        ensures ok { OnOk result (Makes self.old self.new (Maker.Thread maker) class slots) }
        ensures classes { self.new.classes ≡ self.old.classes }
        ensures err { OnErr result (SharesTheSame self.old self.new) }
    {
        let number = self.heap.threads.make(alloc, maker, class, slots)?;
        Ok(Name {
            maker: Maker::Thread(maker),
            number,
        })
    }
}
