//! The states and the static fields of the given classes.

ghost use Rattle.std.specs.Prelude.{◌≡◌, ◌++◌, ◌∷◌, map, ◌<◌, ◌≤◌, ◌^◌, ◌+◌, [], length, IfOk, IsOk, OnErr, OnOk, true};
ghost use Rattle.vm_state.specs.Statics.{blank_area, usable, field_in, states_of, fields_of, with_state, with_fields};
ghost use Rattle.vm_state.specs.Statics.{with_value, with_constants, IsPlaced};
ghost use Rattle.vm_state.specs.steps.Statics.{with_constant};

use crate::value::Value;
use std::alloc::{AllocError, Global};
use std::marker::Model;
use std::mem;

/// How far the initialization of a class is (JVMS 5.5).
#[derive(Clone, Copy)]
pub enum ClassState {
    /// Its initialization has not begun.
    Uninitialized,
    /// Its initialization is in progress by the thread of this number.
    InProgress(u32),
    /// It is fully initialized and ready for use.
    Initialized,
    /// It is in an erroneous state: its initialization failed.
    Erroneous,
}

/// What a class's state is to a thread that wants to use the class (JVMS 5.5, steps 2 to 5).
#[derive(Clone, Copy)]
pub enum Usability {
    /// Initialized, or in progress by the thread itself: the thread goes on (steps 3 and 4).
    Ready,
    /// Uninitialized: the thread is to initialize it first (step 6).
    Fresh,
    /// In progress by another thread, for which the thread waits (step 2).
    Busy,
    /// Erroneous: the thread gets a `NoClassDefFoundError` (step 5).
    Broken,
}

impl ClassState {
    /// What this state is to a thread.
    #[inline(always)]
    pub fn usability(self, thread: u32) -> Usability
        ensures { result ≡ usable thread self }
    {
        match self {
            ClassState::Uninitialized => Usability::Fresh,
            ClassState::InProgress(owner) => {
                if thread == owner {
                    Usability::Ready
                } else {
                    Usability::Busy
                }
            }
            ClassState::Initialized => Usability::Ready,
            ClassState::Erroneous => Usability::Broken,
        }
    }

    /// Whether the class is ready for a thread: mostly it is initialized, which is asked first.
    #[inline(always)]
    fn is_ready(&self, thread: u32) -> bool
        ensures ready { result ≡ true → usable thread self.now ≡ Usability.Ready }
        ensures known { usable thread self.now ≡ Usability.Ready → result ≡ true }
    {
        if let ClassState::Initialized = self {
            return true;
        }
        if let ClassState::InProgress(owner) = self {
            return thread == *owner;
        }
        false
    }
}

/// A static field as its class declares it (JVMS 4.5).
#[derive(Clone, Copy)]
pub struct StaticField {
    pub is_final: bool,
    /// Its value before the class is initialized: zero or null (JVMS 2.3, 2.4).
    pub zero: Value,
    /// The ConstantValue of a final field (JVMS 4.7.2), which it gets as initialization begins.
    pub constant: Option<Value>,
}

/// No place was kept yet for a class or a static field.
#[derive(Clone, Copy)]
pub struct NoPlace;

/// The static fields of a class, by their numbers. A field that was never set is null.
#[derive(Drop)]
pub struct Fields {
    values: Vec<Value>,
}

impl Model for Fields {
    ghost use Rattle.std.specs.Prelude.{List};
    ghost use Rattle.vm_state.specs.declared.value.Value.{Value as Held};

    ghost Value = { List Held };

    ghost view = { λ s. s.values.items };
}

impl Fields {
    /// No field was set.
    pub fn new(alloc: Global) -> Fields
        ensures { result ≡ [] }
    {
        Fields {
            values: Vec::new(alloc),
        }
    }

    /// The fields of a class before its initialization.
    ///
    /// # Errors
    /// `AllocError` where memory is refused.
    pub fn zeros(alloc: Global, statics: &[StaticField]) -> Result<Fields, AllocError>
        ensures { IfOk result (λ r. r ≡ map (λ s. s.zero) statics.now) }
    {
        let mut values = Vec::new(alloc);
        for field in statics {
            values.push(field.zero)?;
        }
        Ok(Fields { values })
    }

    /// A copy of the fields.
    ///
    /// # Errors
    /// `AllocError` where memory is refused.
    pub fn copy(&self, alloc: Global) -> Result<Fields, AllocError>
        ensures { IfOk result (λ f. f ≡ self.now) }
    {
        let values = Vec::from_slice(alloc, self.values.as_slice())?;
        Ok(Fields { values })
    }

    /// The value of a field.
    #[inline(always)]
    pub fn get(&self, field: u32) -> Value
        ensures { result ≡ field_in self.now field }
    {
        match self.values.get(field as usize) {
            Some(value) => *value,
            None => Value::Null,
        }
    }

    /// Keeps places for the first `count` fields; no field's value changes.
    ///
    /// # Errors
    /// `AllocError` where memory is refused, but never where they have places; nothing has changed then.
    pub fn keep(&mut self, count: usize) -> Result<(), AllocError>
        ensures same { field_in self.new ≡ field_in self.old }
        ensures ok { OnOk result (count ≤ length self.new) }
        ensures placed { count ≤ length self.old → IsOk result }
        ensures err { OnErr result (self.new ≡ self.old) }
    {
        if self.values.len() < count {
            self.values.resize(count, Value::Null)?;
        }
        Ok(())
    }

    /// Sets a field that has a place, without memory.
    ///
    /// # Errors
    /// `NoPlace` where it has none; nothing has changed then.
    #[inline(always)]
    pub fn replace(&mut self, field: u32, value: Value) -> Result<(), NoPlace>
        ensures ok { OnOk result (field_in self.new ≡ with_value (field_in self.old) field value) }
        ensures placed { field < length self.old → IsOk result }
        ensures err { OnErr result (self.new ≡ self.old) }
    {
        let at = field as usize;
        if at >= self.values.len() {
            return Err(NoPlace);
        }
        self.values[at] = value;
        Ok(())
    }

    /// Sets a field.
    ///
    /// # Errors
    /// `AllocError` where memory is refused; nothing has changed then.
    pub fn set(&mut self, field: u32, value: Value) -> Result<(), AllocError>
        ensures ok { OnOk result (field_in self.new ≡ with_value (field_in self.old) field value) }
        ensures err { OnErr result (self.new ≡ self.old) }
    {
        self.set_at(field as usize, value)
    }

    fn set_at(&mut self, field: usize, value: Value) -> Result<(), AllocError>
        requires { field + 1 < 2 ^ 64 }
        ensures ok { OnOk result (field_in self.new ≡ with_value (field_in self.old) field value) }
        ensures err { OnErr result (self.new ≡ self.old) }
    {
        self.keep(field + 1)?;
        self.values[field] = value;
        Ok(())
    }

    /// Sets the constant of a field that has a place, where it has one.
    fn set_constant(&mut self, field: usize, constant: Option<Value>)
        requires { field < length self.old }
        ensures fields { field_in self.new ≡ with_constant (field_in self.old) field constant }
        ensures places { length self.new ≡ length self.old }
    {
        if let Some(value) = constant {
            self.values[field] = value;
        }
    }

    /// Sets the constant of each field whose declaration has one, without memory: these fields have places.
    pub fn set_constants(&mut self, statics: &[StaticField])
        requires { length statics.now ≤ length self.old }
        ensures { field_in self.new ≡ with_constants statics.now (field_in self.old) }
    {
        for field in 0..statics.len() {
            self.set_constant(field, statics[field].constant);
        }
    }
}

/// What is kept of one class, apart from its objects.
#[derive(Drop)]
pub struct ClassArea {
    state: ClassState,
    fields: Fields,
}

/// The states and the static fields of the given classes, by their numbers. Nothing was begun and nothing
/// set of a class that was never changed.
#[derive(Drop)]
pub struct Classes {
    areas: Vec<ClassArea>,
}

impl Model for Classes {
    ghost use Rattle.std.specs.Prelude.{List};
    ghost use Rattle.vm_state.specs.declared.classes.ClassArea.{ClassArea as Area};

    ghost Value = { List Area };

    ghost view = { λ s. s.areas.items };
}

impl Classes {
    /// Nothing is kept of any class.
    pub fn new(alloc: Global) -> Classes
        ensures { result ≡ [] }
    {
        Classes {
            areas: Vec::new(alloc),
        }
    }

    /// One more class, with these static fields, whose initialization has not begun.
    ///
    /// # Errors
    /// `AllocError` where memory is refused; nothing has changed then.
    pub fn add(&mut self, alloc: Global, statics: &[StaticField]) -> Result<(), AllocError>
        ensures ok { OnOk result (self.new ≡ self.old ++ blank_area statics.now ∷ []) }
        ensures err { OnErr result (self.new ≡ self.old) }
    {
        let fields = Fields::zeros(alloc, statics)?;
        self.areas.push(ClassArea {
            state: ClassState::Uninitialized,
            fields,
        })?;
        Ok(())
    }

    /// The state of a class.
    #[tactic(auto, unfolding(crate::specs::Statics::states_of))]
    #[inline(always)]
    pub fn state(&self, class: u32) -> ClassState
        ensures { result ≡ states_of self.now class }
    {
        match self.areas.get(class as usize) {
            Some(area) => area.state,
            None => ClassState::Uninitialized,
        }
    }

    /// Whether a class is ready for a thread; not where it must be initialized first, by this thread or another, nor
    /// where its initialization has failed.
    #[tactic(auto, unfolding(crate::specs::Statics::states_of))]
    #[inline(always)]
    pub fn is_ready(&self, class: u32, thread: u32) -> bool
        ensures ready { result ≡ true → usable thread (states_of self.now class) ≡ Usability.Ready }
        ensures known { usable thread (states_of self.now class) ≡ Usability.Ready → result ≡ true }
    {
        match self.areas.get(class as usize) {
            Some(area) => area.state.is_ready(thread),
            None => false,
        }
    }

    /// The value of a static field.
    #[tactic(auto, unfolding(crate::specs::Statics::fields_of))]
    #[inline(always)]
    pub fn field(&self, class: u32, field: u32) -> Value
        ensures { result ≡ fields_of self.now class field }
    {
        match self.areas.get(class as usize) {
            Some(area) => area.fields.get(field),
            None => Value::Null,
        }
    }

    /// Keeps a place for a class; no class's state and no field's value changes.
    fn reach(&mut self, alloc: Global, class: usize) -> Result<(), AllocError>
        requires { class < 2 ^ 32 }
        ensures states { states_of self.new ≡ states_of self.old }
        ensures fields { fields_of self.new ≡ fields_of self.old }
        ensures ok { OnOk result (class < length self.new) }
        ensures placed { class < length self.old → IsOk result × (self.new ≡ self.old) }
    {
        while self.areas.len() <= class {
            self.areas.push(ClassArea {
                state: ClassState::Uninitialized,
                fields: Fields::new(alloc),
            })?;
        }
        Ok(())
    }

    /// Keeps a place for a class, and for the first `count` of its static fields; no class's state and no field's value
    /// changes.
    ///
    /// # Errors
    /// `AllocError` where memory is refused, but never where they have places.
    pub fn keep(&mut self, alloc: Global, class: u32, count: usize) -> Result<(), AllocError>
        ensures states { states_of self.new ≡ states_of self.old }
        ensures fields { fields_of self.new ≡ fields_of self.old }
        ensures ok { OnOk result (IsPlaced self.new class count) }
        ensures placed { IsPlaced self.old class count → IsOk result }
    {
        self.reach(alloc, class as usize)?;
        let area = &mut self.areas[class as usize];
        area.fields.keep(count)?;
        Ok(())
    }

    /// Sets the state of a class that has a place, without memory.
    pub fn replace_state(&mut self, class: u32, state: ClassState)
        requires { class < length self.old }
        ensures states { states_of self.new ≡ with_state (states_of self.old) class state }
        ensures fields { fields_of self.new ≡ fields_of self.old }
    {
        let area = &mut self.areas[class as usize];
        area.state = state;
    }

    /// Sets a static field that has a place, without memory.
    ///
    /// # Errors
    /// `NoPlace` where it has none; nothing has changed then.
    #[inline(always)]
    pub fn replace_field(&mut self, class: u32, field: u32, value: Value) -> Result<(), NoPlace>
        ensures fields { OnOk result
            (fields_of self.new ≡ with_fields (fields_of self.old) class
            (with_value (fields_of self.old class) field value)) }
        ensures states { OnOk result (states_of self.new ≡ states_of self.old) }
        ensures placed { IsPlaced self.old class (field + 1) → IsOk result }
        ensures err { OnErr result (self.new ≡ self.old) }
    {
        let at = class as usize;
        if at >= self.areas.len() {
            return Err(NoPlace);
        }
        let area = &mut self.areas[at];
        area.fields.replace(field, value)?;
        Ok(())
    }

    /// Sets a static field.
    ///
    /// # Errors
    /// `AllocError` where memory is refused; nothing has changed then.
    #[inline(never)]
    pub fn set_field(
        &mut self,
        alloc: Global,
        class: u32,
        field: u32,
        value: Value,
    ) -> Result<(), AllocError>
        ensures fields { OnOk result
            (fields_of self.new ≡ with_fields (fields_of self.old) class
            (with_value (fields_of self.old class) field value)) }
        ensures states { states_of self.new ≡ states_of self.old }
        ensures err { OnErr result (fields_of self.new ≡ fields_of self.old) }
    {
        self.reach(alloc, class as usize)?;
        let area = &mut self.areas[class as usize];
        area.fields.set(field, value)?;
        Ok(())
    }

    /// Puts the static fields of a class in place of those that it had, and says that it is initialized. The class has
    /// a place, so it takes no memory.
    pub fn initialize(&mut self, class: u32, fields: Fields)
        requires { class < length self.old }
        ensures states { states_of self.new ≡ with_state (states_of self.old) class ClassState.Initialized }
        ensures fields { fields_of self.new ≡ with_fields (fields_of self.old) class (field_in fields) }
    {
        let area = &mut self.areas[class as usize];
        area.fields = fields;
        area.state = ClassState::Initialized;
    }

    /// Takes the static fields of a class out. None is set of it then.
    pub fn take_fields(&mut self, alloc: Global, class: u32) -> Fields
        ensures taken { field_in result ≡ fields_of self.old class }
        ensures fields { fields_of self.new ≡ with_fields (fields_of self.old) class (field_in []) }
        ensures states { states_of self.new ≡ states_of self.old }
    {
        let none = Fields::new(alloc);
        if class as usize >= self.areas.len() {
            return none;
        }
        let area = &mut self.areas[class as usize];
        mem::replace(&mut area.fields, none)
    }

    /// Begins the initialization of a class by a thread: its state, and its constants (JVMS 5.5, step 6). The class and
    /// these fields have places, so it takes no memory.
    pub fn begin(&mut self, class: u32, thread: u32, statics: &[StaticField])
        requires { IsPlaced self.old class (length statics.now) }
        ensures states { states_of self.new ≡ with_state (states_of self.old) class (ClassState.InProgress thread) }
        ensures fields { fields_of self.new
            ≡ with_fields (fields_of self.old) class (with_constants statics.now (fields_of self.old class)) }
    {
        let area = &mut self.areas[class as usize];
        area.fields.set_constants(statics);
        area.state = ClassState::InProgress(thread);
    }
}
