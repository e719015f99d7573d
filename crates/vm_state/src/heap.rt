//! The objects, by their names.

ghost use Rattle.std.specs.Prelude.{◌≡◌, ℕ, ◌∷◌, [], ◌++◌, ◌<◌, ◌≤◌, ◌^◌, ◌+◌, length, slice_get, IfOk};
ghost use Rattle.std.specs.Prelude.{OnOk, OnErr, IfSome, IfNone, IsSome, Some, None, option_copied, option_map};
ghost use Rattle.vm_state.specs.Objects.{AscendsFrom, none_held, one_held, object_in, kept_of, numbered_kept};
ghost use Rattle.vm_state.specs.steps.Objects.{with_next, with_monitor_in, object_at_place, numbers_of, objects_of};
ghost use Rattle.vm_state.specs.steps.Objects.{IsKept};
ghost use Rattle.vm_state.specs.SharedState.{class_at, form_at, monitor_of, slots_at, with_new, with_slot};
ghost use Rattle.vm_state.specs.SharedState.{with_monitor};
ghost use Rattle.vm_state.specs.steps.ClassWords.{expected_class};
ghost use Rattle.vm_state.specs.declared.kept.Kept.{Kept as HeldObject};
ghost use Rattle.vm_state.specs.Pools.{IsPoolBy, IsListOf, pool_at, pool_by, pool_in, with_pool};

use crate::items::copy_items;
use crate::kept::{Expected, Kept, KeptClass};
use crate::object::{Monitor, Object, Slots};
use crate::owners::Owners;
use crate::packing::Packing;
use crate::places::{kept_at, number_at, place_of};
use crate::row::{LentObject, Row};
use crate::value::{Maker, Value};
use built_in::class_id::ClassId;
use std::alloc::{AllocError, Global};
use std::marker::Model;
use std::mem;

/// The objects of one maker, in the order of their numbers; and how many objects it made. Numbers may be left out:
/// those of the `plain` first objects are 0, 1, 2 and so on, the others stand beside.
#[derive(Drop)]
pub struct Pool {
    count: u64,
    plain: usize,
    later: Vec<u64>,
    kept: Vec<Kept>,
    owners: Owners,
}

impl Model for Pool {
    ghost use Rattle.std.specs.Prelude.{◌≡◌, ℕ, ◌-◌, ◌≤◌, length};
    ghost use Rattle.vm_state.specs.declared.object.Monitor.TheVariants.{Free};
    ghost use Rattle.vm_state.specs.Objects.{HeldObjects, AscendsFrom};
    ghost use Rattle.vm_state.specs.steps.Objects.{numbers_in, objects_of};
    ghost use Rattle.vm_state.specs.steps.Owners.{monitor_in};

    ghost Value = { HeldObjects };

    ghost view = { λ s. record {
      count = s.count;
      objects = objects_of s.owners (numbers_in s.later.items s.kept.items) s.kept.items;
    } };

    ghost invariant = { λ s.
        AscendsFrom 0 (objects_of s.owners (numbers_in s.later.items s.kept.items) s.kept.items) s.count
        × (length s.later.items ≤ length s.kept.items)
        × ((k : ℕ) → s.count ≤ k → monitor_in s.owners k ≡ Free)
        × (s.plain ≡ length s.kept.items - length s.later.items) };
}

/// Adds an object at the end.
fn push_object(kept: &mut Vec<Kept>, object: Kept) -> Result<(), AllocError>
    ensures ok { OnOk result (kept.new.items ≡ kept.old.items ++ object ∷ []) }
    ensures err { OnErr result (kept.new.items ≡ kept.old.items) }
{
    kept.push(object)?;
    Ok(())
}

/// Adds an object at the end, of this number. Where memory is refused nothing changes.
fn push_kept(
    later: &mut Vec<u64>,
    kept: &mut Vec<Kept>,
    number: u64,
    object: Kept,
) -> Result<(), AllocError>
    requires { length later.old.items ≤ length kept.old.items }
    ensures ok { OnOk result (IsKept later.old.items kept.old.items number object later.new.items kept.new.items) }
    ensures err { OnErr result ((later.new.items ≡ later.old.items) × (kept.new.items ≡ kept.old.items)) }
{
    if later.is_empty() && number == kept.len() as u64 {
        return push_object(kept, object);
    }
    later.push(number)?;
    match push_object(kept, object) {
        Ok(()) => Ok(()),
        Err(error) => {
            later.pop();
            Err(error)
        }
    }
}

/// An object with its monitor.
fn object_of(kept: Kept, monitor: Monitor) -> Object
    ensures { result ≡ record { class = kept.class; slots = kept.slots; monitor = monitor } }
{
    let Kept { class, slots } = kept;
    Object {
        class: class.id(),
        slots,
        monitor,
    }
}

/// Adds the object at a place with its number and its monitor.
fn add_object(
    plain: usize,
    later: &[u64],
    place: usize,
    kept: Kept,
    owners: &Owners,
    objects: &mut Vec<(u64, Object)>,
) -> Result<(), AllocError>
    ensures { OnOk result ((n : ℕ) → slice_get (numbers_of plain later.now) place ≡ Some n
        → objects.new.items ≡ objects.old.items ++ (n, with_monitor_in owners.now n kept) ∷ []) }
{
    if let Some(number) = number_at(plain, later, place) {
        objects.push((number, object_of(kept, owners.monitor(number))))?;
    }
    Ok(())
}

/// Objects with their numbers and monitors, put where there are none.
fn add_objects(
    plain: usize,
    later: &[u64],
    kept: Vec<Kept>,
    owners: &Owners,
    objects: &mut Vec<(u64, Object)>,
) -> Result<(), AllocError>
    requires none { objects.old.items ≡ [] }
    requires all { length kept.items ≡ plain + length later.now }
    ensures { OnOk result (objects.new.items ≡ objects_of owners.now (numbers_of plain later.now) kept.items) }
{
    let mut place = 0usize;
    for held in kept {
        add_object(plain, later, place, held, owners, objects)?;
        place += 1;
    }
    Ok(())
}

/// Puts objects with their numbers into a pool that holds none.
fn put_objects(pool: &mut Pool, objects: Vec<(u64, Object)>) -> Result<(), AllocError>
    requires none { pool.old.objects ≡ [] }
    requires ascending { AscendsFrom 0 objects.items pool.old.count }
    ensures { OnOk result (pool.new ≡ record { count = pool.old.count; objects = objects.items }) }
{
    for held in objects {
        let (number, object) = held;
        pool.put(number, object)?;
    }
    Ok(())
}

impl Pool {
    /// The pool of a maker that made nothing.
    pub fn new(alloc: Global) -> Pool
        ensures { result ≡ none_held }
    {
        Pool::of_none(alloc, 0)
    }

    /// The pool of a maker that made `count` objects, of which none is held.
    fn of_none(alloc: Global, count: u64) -> Pool
        ensures { result ≡ record { count = count; objects = [] } }
    {
        Pool {
            count,
            plain: 0,
            later: Vec::new(alloc),
            kept: Vec::new(alloc),
            owners: Owners::none(alloc),
        }
    }

    /// A copy of the pool.
    ///
    /// # Errors
    /// `AllocError` where memory is refused.
    pub fn copy(&self, alloc: Global) -> Result<Pool, AllocError>
        ensures { IfOk result (λ r. r ≡ self.now) }
    {
        let mut kept = Vec::with_capacity(alloc, self.kept.len())?;
        copy_items(alloc, self.kept.as_slice(), &mut kept)?;
        let later = Vec::from_slice(alloc, self.later.as_slice())?;
        let owners = self.owners.copy()?;
        Ok(Pool {
            count: self.count,
            plain: self.plain,
            later,
            kept,
            owners,
        })
    }

    /// How many objects were made.
    pub fn count(&self) -> u64
        ensures { result ≡ (pool_by self.now).count }
    {
        self.count
    }

    /// The pool of a maker that made `count` objects, of which these are held.
    ///
    /// # Errors
    /// `AllocError` where memory is refused.
    pub fn of_objects(
        alloc: Global,
        count: u64,
        objects: Vec<(u64, Object)>,
    ) -> Result<Pool, AllocError>
        requires { AscendsFrom 0 objects.items count }
        ensures { IfOk result (λ r. r ≡ record { count = count; objects = objects.items }) }
    {
        let mut pool = Pool::of_none(alloc, count);
        match put_objects(&mut pool, objects) {
            Ok(()) => Ok(pool),
            Err(error) => Err(error),
        }
    }

    /// How many objects were made, and those that are held with their numbers, in the order of the numbers.
    ///
    /// # Errors
    /// `AllocError` where memory is refused.
    pub fn into_parts(self, alloc: Global) -> Result<(u64, Vec<(u64, Object)>), AllocError>
        ensures parts { IfOk result (λ r. (r.0 ≡ self.count) × (r.1.items ≡ self.objects)) }
        ensures ascending { IfOk result (λ r. AscendsFrom 0 r.1.items r.0) }
    {
        let Pool {
            count,
            plain,
            later,
            kept,
            owners,
        } = self;
        let mut objects = Vec::with_capacity(alloc, kept.len())?;
        match add_objects(plain, later.as_slice(), kept, &owners, &mut objects) {
            Ok(()) => Ok((count, objects)),
            Err(error) => Err(error),
        }
    }

    /// How many objects are held, each once, in the order of their numbers.
    pub fn len(&self) -> usize
        ensures all { result ≡ length self.now.objects }
        ensures ascending { AscendsFrom 0 self.now.objects self.now.count }
        ensures pool { IsListOf self.now.objects (pool_by self.now) }
    {
        self.kept.len()
    }

    /// The object at a place, in the order of the numbers, with its number.
    pub fn at(&self, place: usize) -> Option<(u64, &Kept)>
        ensures { option_map (λ o. (o.0, o.1.now)) result
            ≡ option_map numbered_kept (slice_get self.now.objects place) }
    {
        match number_at(self.plain, self.later.as_slice(), place) {
            Some(number) => match kept_at(self.kept.as_slice(), place) {
                Some(kept) => Some((number, kept)),
                None => None,
            },
            None => None,
        }
    }

    /// The object at a place, in the order of the numbers, lent, with its number.
    pub(crate) fn lent(&self, place: usize) -> Option<(u64, LentObject<'_>)>
        ensures { result ≡ slice_get self.now.objects place }
    {
        match number_at(self.plain, self.later.as_slice(), place) {
            Some(number) => match kept_at(self.kept.as_slice(), place) {
                Some(kept) => {
                    let monitor = self.owners.monitor(number);
                    let object = LentObject::of(kept.class.id(), &kept.slots, monitor);
                    Some((number, object))
                }
                None => None,
            },
            None => None,
        }
    }

    /// The place of the object of a number, if it is held. Mostly it is the number.
    #[inline(always)]
    pub fn place(&self, number: u64) -> Option<usize>
        ensures held { IfSome result (λ place. IsSome (object_at_place self.now.objects place number)) }
        ensures none { IfNone result (object_in self.now.objects number ≡ None) }
    {
        if number < self.plain as u64 {
            return Some(number as usize);
        }
        self.searched_place(number)
    }

    /// The place of the object of a number, found by halving the pool.
    #[inline(never)]
    fn searched_place(&self, number: u64) -> Option<usize>
        ensures held { IfSome result (λ place. IsSome (object_at_place self.now.objects place number)) }
        ensures none { IfNone result (object_in self.now.objects number ≡ None) }
    {
        let later = self.later.as_slice();
        let place = place_of(self.plain, later, number);
        match number_at(self.plain, later, place) {
            Some(found) => { if found == number { Some(place) } else { None } }
            None => None,
        }
    }

    /// The object of a number, if it is held.
    #[inline(always)]
    pub fn object(&self, number: u64) -> Option<&Kept>
        ensures kept { option_copied result ≡ option_map kept_of (object_in self.now.objects number) }
        ensures class { option_map (λ (o : HeldObject). o.class) (option_copied result)
            ≡ class_at (pool_by self.now) number }
        ensures slots { option_map (λ (o : HeldObject). o.slots) (option_copied result)
            ≡ slots_at (pool_by self.now) number }
    {
        self.kept(number)
    }

    /// The object of a number, as it is kept.
    #[inline(always)]
    fn kept(&self, number: u64) -> Option<&Kept>
        ensures { option_copied result ≡ option_map kept_of (object_in self.now.objects number) }
    {
        if number < self.plain as u64 {
            return Some(&self.kept[number as usize]);
        }
        kept_at(self.kept.as_slice(), self.searched_or_past(number))
    }

    /// The place of the object of a number, mostly the number; past the last place where it is not held.
    #[inline(always)]
    fn place_or_past(&self, number: u64) -> usize
        ensures held { result < length self.now.objects
            → IsSome (object_at_place self.now.objects result number) }
        ensures none { length self.now.objects ≤ result → object_in self.now.objects number ≡ None }
    {
        if number < self.plain as u64 {
            return number as usize;
        }
        self.searched_or_past(number)
    }

    /// The place of the object of a number, found by halving the pool; past the last place where it is not held.
    #[inline(never)]
    fn searched_or_past(&self, number: u64) -> usize
        ensures held { result < length self.now.objects
            → IsSome (object_at_place self.now.objects result number) }
        ensures none { length self.now.objects ≤ result → object_in self.now.objects number ≡ None }
    {
        match self.searched_place(number) {
            Some(place) => place,
            None => self.kept.len(),
        }
    }

    /// The monitor of the object of a number; of one that is not held it is free.
    pub fn monitor(&self, number: u64) -> Monitor
        ensures { result ≡ monitor_of (object_in self.now.objects number) }
    {
        match self.place(number) {
            Some(_) => self.owners.monitor(number),
            None => Monitor::Free,
        }
    }

    /// Puts a value into a slot of the object of a number. Where it is not held, or has no such slot, nothing changes.
    ///
    /// # Errors
    /// `AllocError` where memory is refused; nothing has changed then.
    pub fn set_slot(&mut self, number: u64, slot: usize, value: Value) -> Result<(), AllocError>
        ensures ok { OnOk result (pool_by self.new ≡ with_slot (pool_by self.old) number slot value) }
        ensures err { OnErr result (self.new ≡ self.old) }
    {
        self.set_slot_as(number, Packing::Briefs, slot, value)
    }

    /// As [`set_slot`](Pool::set_slot), quick where the object's slots are held as expected.
    ///
    /// # Errors
    /// `AllocError` where memory is refused; nothing has changed then.
    #[inline(always)]
    pub fn set_slot_as(
        &mut self,
        number: u64,
        expected: Packing,
        slot: usize,
        value: Value,
    ) -> Result<(), AllocError>
        ensures ok { OnOk result (pool_by self.new ≡ with_slot (pool_by self.old) number slot value) }
        ensures err { OnErr result (self.new ≡ self.old) }
    {
        if let Some(place) = self.place(number) {
            let held = &mut self.kept[place];
            held.slots.set_as(expected, slot, value)?;
        }
        Ok(())
    }

    /// Puts a value into a slot of the object of a number, and says how many slots it has; not where it is not held, is
    /// not of the class expected, holds its slots otherwise, has no such slot, or the value does not fit.
    #[inline(always)]
    pub fn put_within(
        &mut self,
        number: u64,
        expected: Expected,
        packing: Packing,
        slot: usize,
        value: Value,
    ) -> Option<usize>
        ensures slot { IfSome result (λ n. (slot < n) × (n < 2 ^ 31)) }
        ensures form { IfSome result (λ n. form_at (pool_by self.old) number ≡ Some (expected_class expected, n)) }
        ensures some { IfSome result (λ n. pool_by self.new ≡ with_slot (pool_by self.old) number slot value) }
        ensures none { IfNone result (self.new ≡ self.old) }
    {
        let place = self.place_or_past(number);
        if place >= self.kept.len() {
            return None;
        }
        let held = &mut self.kept[place];
        if !held.class.is_expected(expected) {
            return None;
        }
        let count = held.slots.put_within(packing, slot, value)?;
        Some(count)
    }

    /// Puts values into the first two slots of the object of a number. Where it is not held, or has no such slot,
    /// nothing changes.
    ///
    /// # Errors
    /// `AllocError` where memory is refused; nothing has changed then.
    pub fn set_first(&mut self, number: u64, first: Value, second: Value) -> Result<(), AllocError>
        ensures ok { OnOk result (pool_by self.new
            ≡ with_slot (with_slot (pool_by self.old) number 0 first) number 1 second) }
        ensures err { OnErr result (self.new ≡ self.old) }
    {
        if let Some(place) = self.place(number) {
            let held = &mut self.kept[place];
            held.slots.set_first(first, second)?;
        }
        Ok(())
    }

    /// Sets the monitor of the object of a number. Where it is not held nothing changes.
    ///
    /// # Errors
    /// `AllocError` where memory is refused, but never where it gets free; nothing has changed then.
    fn set_monitor(&mut self, number: u64, monitor: Monitor) -> Result<(), AllocError>
        ensures ok { OnOk result (pool_by self.new ≡ with_monitor (pool_by self.old) number monitor) }
        ensures err { OnErr result (self.new ≡ self.old) }
    {
        match self.place(number) {
            Some(_) => self.owners.set(number, monitor),
            None => Ok(()),
        }
    }

    /// One more object that is held, whose number is above those of the others.
    fn put(&mut self, number: u64, object: Object) -> Result<(), AllocError>
        requires { AscendsFrom 0 (self.old.objects ++ (number, object) ∷ []) self.old.count }
        ensures { OnOk result (self.new
            ≡ record self.old { objects = self.old.objects ++ (number, object) ∷ [] }) }
    {
        let Object {
            class,
            slots,
            monitor,
        } = object;
        self.owners.set(number, monitor)?;
        let kept = Kept {
            class: KeptClass::of(class),
            slots,
        };
        push_kept(&mut self.later, &mut self.kept, number, kept)?;
        self.plain = self.kept.len() - self.later.len();
        Ok(())
    }

    /// One more object, of the next number, which it answers. Where memory is refused nothing changes.
    fn add(&mut self, class: ClassId, slots: Slots) -> Result<u64, AllocError>
        ensures number { IfOk result (λ n. n ≡ self.old.count) }
        ensures ok { OnOk result (self.new
            ≡ with_next self.old (record { class = class; slots = slots; monitor = Monitor.Free })) }
        ensures err { OnErr result (self.new ≡ self.old) }
    {
        let number = self.count;
        let Some(count) = number.checked_add(1) else {
            return Err(AllocError);
        };
        let kept = Kept {
            class: KeptClass::of(class),
            slots,
        };
        push_kept(&mut self.later, &mut self.kept, number, kept)?;
        self.plain = self.kept.len() - self.later.len();
        self.count = count;
        Ok(number)
    }

    /// One more object, whose monitor is free, and its number.
    ///
    /// # Errors
    /// `AllocError` where memory is refused; nothing has changed then.
    pub fn make(&mut self, class: ClassId, slots: Slots) -> Result<u64, AllocError>
        ensures number { IfOk result (λ n. n ≡ (pool_by self.old).count) }
        ensures ok { OnOk result (pool_by self.new ≡ with_new (pool_by self.old) class slots) }
        ensures err { OnErr result (self.new ≡ self.old) }
    {
        let number = self.add(class, slots)?;
        Ok(number)
    }
}

/// The pools of some makers, by their numbers. A maker without a pool made nothing.
#[derive(Drop)]
pub struct Pools {
    pools: Vec<Pool>,
}

impl Model for Pools {
    ghost use Rattle.std.specs.Prelude.{List};
    ghost use Rattle.vm_state.specs.Objects.{HeldObjects};

    ghost Value = { List HeldObjects };

    ghost view = { λ s. s.pools.items };
}

impl Pools {
    /// No pool.
    pub fn none(alloc: Global) -> Pools
        ensures { result ≡ [] }
    {
        Pools {
            pools: Vec::new(alloc),
        }
    }

    /// One more maker, with its first object. Where memory is refused nothing changes.
    fn add_maker(&mut self, alloc: Global, first: Object) -> Result<(), AllocError>
        ensures ok { OnOk result (self.new ≡ self.old ++ one_held first ∷ []) }
        ensures err { OnErr result (self.new ≡ self.old) }
    {
        let mut pool = Pool::of_none(alloc, 1);
        pool.put(0, first)?;
        self.pools.push(pool)?;
        Ok(())
    }

    /// Keeps a place for a maker's pool; no maker's objects change.
    fn reach(&mut self, alloc: Global, maker: usize) -> Result<(), AllocError>
        requires { maker < 2 ^ 32 }
        ensures pools { pool_in self.new ≡ pool_in self.old }
        ensures ok { OnOk result (maker < length self.new) }
    {
        while self.pools.len() <= maker {
            self.pools.push(Pool::new(alloc))?;
        }
        Ok(())
    }

    /// The object of a maker and a number, if it is held.
    #[inline(always)]
    pub fn object(&self, maker: u32, number: u64) -> Option<&Kept>
        ensures { option_copied result ≡ option_map kept_of ((pool_in self.now maker).at number) }
    {
        match self.pools.get(maker as usize) {
            Some(pool) => pool.object(number),
            None => None,
        }
    }

    /// The monitor of the object of a maker and a number; of one that is not held it is free.
    pub fn monitor(&self, maker: u32, number: u64) -> Monitor
        ensures { result ≡ monitor_of ((pool_in self.now maker).at number) }
    {
        match self.pools.get(maker as usize) {
            Some(pool) => pool.monitor(number),
            None => Monitor::Free,
        }
    }

    /// The objects of a maker; none where it made none.
    fn pool(&self, maker: u32) -> Option<&Pool>
        ensures { IsPoolBy (option_copied result) (pool_in self.now maker) }
    {
        self.pools.get(maker as usize)
    }

    /// Puts a value into a slot of the object of a maker and a number, quick where its slots are held as expected.
    /// Where it is not held, or has no such slot, nothing changes.
    ///
    /// # Errors
    /// `AllocError` where memory is refused; nothing has changed then.
    #[inline(always)]
    pub fn set_slot_as(
        &mut self,
        maker: u32,
        number: u64,
        expected: Packing,
        slot: usize,
        value: Value,
    ) -> Result<(), AllocError>
        ensures ok { OnOk result (pool_in self.new
            ≡ with_pool (pool_in self.old) maker (with_slot (pool_in self.old maker) number slot value)) }
        ensures err { OnErr result (self.new ≡ self.old) }
    {
        match self.pools.get_mut(maker as usize) {
            Some(pool) => pool.set_slot_as(number, expected, slot, value),
            None => Ok(()),
        }
    }

    /// Puts a value into a slot of the object of a maker and a number, and says how many slots it has; not where it is
    /// not held, is not of the class expected, holds its slots otherwise, has no such slot, or the value does not fit.
    #[inline(always)]
    pub fn put_within(
        &mut self,
        maker: u32,
        number: u64,
        expected: Expected,
        packing: Packing,
        slot: usize,
        value: Value,
    ) -> Option<usize>
        ensures slot { IfSome result (λ n. (slot < n) × (n < 2 ^ 31)) }
        ensures form { IfSome result
            (λ n. form_at (pool_in self.old maker) number ≡ Some (expected_class expected, n)) }
        ensures some { IfSome result (λ n. pool_in self.new
            ≡ with_pool (pool_in self.old) maker (with_slot (pool_in self.old maker) number slot value)) }
        ensures none { IfNone result (self.new ≡ self.old) }
    {
        match self.pools.get_mut(maker as usize) {
            Some(pool) => pool.put_within(number, expected, packing, slot, value),
            None => None,
        }
    }

    /// Puts values into the first two slots of the object of a maker and a number. Where it is not held, or has no such
    /// slot, nothing changes.
    ///
    /// # Errors
    /// `AllocError` where memory is refused; nothing has changed then.
    pub fn set_first(
        &mut self,
        maker: u32,
        number: u64,
        first: Value,
        second: Value,
    ) -> Result<(), AllocError>
        ensures ok { OnOk result (pool_in self.new ≡ with_pool (pool_in self.old) maker
            (with_slot (with_slot (pool_in self.old maker) number 0 first) number 1 second)) }
        ensures err { OnErr result (self.new ≡ self.old) }
    {
        if maker as usize >= self.pools.len() {
            return Ok(());
        }
        let pool = &mut self.pools[maker as usize];
        pool.set_first(number, first, second)
    }

    /// Sets the monitor of the object of a maker and a number. Where it is not held nothing changes.
    ///
    /// # Errors
    /// `AllocError` where memory is refused; nothing has changed then.
    pub fn set_monitor(
        &mut self,
        maker: u32,
        number: u64,
        monitor: Monitor,
    ) -> Result<(), AllocError>
        ensures ok { OnOk result (pool_in self.new
            ≡ with_pool (pool_in self.old) maker (with_monitor (pool_in self.old maker) number monitor)) }
        ensures err { OnErr result (self.new ≡ self.old) }
    {
        match self.pools.get_mut(maker as usize) {
            Some(pool) => pool.set_monitor(number, monitor),
            None => Ok(()),
        }
    }

    /// Puts a whole pool, of the objects of a maker and how many it made, in place of the one that it had.
    ///
    /// # Errors
    /// `AllocError` where memory is refused; nothing has changed then.
    pub fn put(&mut self, alloc: Global, maker: u32, pool: Pool) -> Result<(), AllocError>
        ensures ok { OnOk result (pool_in self.new ≡ with_pool (pool_in self.old) maker (pool_by pool)) }
        ensures err { OnErr result (pool_in self.new ≡ pool_in self.old) }
    {
        self.reach(alloc, maker as usize)?;
        self.pools[maker as usize] = pool;
        Ok(())
    }

    /// Takes the pool of a maker out, which has made nothing then.
    pub fn take(&mut self, alloc: Global, maker: u32) -> Pool
        ensures taken { pool_by result ≡ pool_in self.old maker }
        ensures left { pool_in self.new ≡ with_pool (pool_in self.old) maker (pool_by none_held) }
    {
        let none = Pool::new(alloc);
        if maker as usize >= self.pools.len() {
            return none;
        }
        let pool = &mut self.pools[maker as usize];
        mem::replace(pool, none)
    }

    /// One more object of a maker, and its number.
    ///
    /// # Errors
    /// `AllocError` where memory is refused; nothing has changed then.
    pub fn make(
        &mut self,
        alloc: Global,
        maker: u32,
        class: ClassId,
        slots: Slots,
    ) -> Result<u64, AllocError>
        ensures number { IfOk result (λ n. n ≡ (pool_in self.old maker).count) }
        ensures ok { OnOk result
            (pool_in self.new ≡ with_pool (pool_in self.old) maker (with_new (pool_in self.old maker) class slots)) }
        ensures err { OnErr result (pool_in self.new ≡ pool_in self.old) }
    {
        self.reach(alloc, maker as usize)?;
        let pool = &mut self.pools[maker as usize];
        let number = pool.add(class, slots)?;
        Ok(number)
    }
}

/// The objects of all makers: of classes and of threads.
#[derive(Drop)]
pub struct Heap {
    pub(crate) classes: Pools,
    pub(crate) threads: Pools,
}

impl Heap {
    /// No object.
    pub fn new(alloc: Global) -> Heap
        ensures { result ≡ record { classes = []; threads = [] } }
    {
        Heap {
            classes: Pools::none(alloc),
            threads: Pools::none(alloc),
        }
    }

    /// The objects of a maker; none where it made none. Takes no memory.
    pub fn pool(&self, maker: Maker) -> Option<&Pool>
        ensures { IsPoolBy (option_copied result) (pool_at self.now maker) }
    {
        match maker {
            Maker::Class(class) => self.classes.pool(class),
            Maker::Thread(thread) => self.threads.pool(thread),
        }
    }

    /// The objects of a maker with their numbers, ascending, none left out; lent, and not copied. Takes no memory.
    pub fn row(&self, maker: Maker) -> Row<'_>
        ensures { IsListOf result (pool_at self.now maker) }
    {
        match self.pool(maker) {
            Some(pool) => {
                let _count = pool.len();
                Row::of(pool)
            }
            None => Row::none(),
        }
    }

    /// The first object of one more thread.
    ///
    /// # Errors
    /// `AllocError` where memory is refused; nothing has changed then.
    pub fn add_thread(&mut self, alloc: Global, first: Object) -> Result<(), AllocError>
        ensures ok { OnOk result (self.new ≡ record self.old { threads = self.old.threads ++ one_held first ∷ [] }) }
        ensures err { OnErr result (self.new ≡ self.old) }
    {
        self.threads.add_maker(alloc, first)
    }
}
