//! Values in a row by how they are held, for who knows how that mostly is: a compare in the place of a table of jumps.

ghost use Rattle.std.specs.Prelude.{◌≡◌, true, false, map, length, slice_get, slice_set, IfSome, IfNone, OnOk, OnErr};
ghost use Rattle.std.specs.Prelude.{Some, ◌<◌, ◌^◌};
ghost use Rattle.vm_state.specs.declared.value.Value.TheVariants.{Int, Long};
ghost use Rattle.vm_state.specs.steps.Elements.{values_of, brief_value, char_value};

use crate::elements::{Brief, Elements, Few, Packed, put_element, put_few, put_narrow, value_at};
use crate::value::Value;
use std::alloc::AllocError;

/// An array has no more elements than an int can say.
const MOST: usize = 2_147_483_647;

/// As what values in a row are held.
#[derive(Clone, Copy)]
pub enum Packing {
    /// In 8 bytes each, or as values: as fields of instances, and elements that are references.
    Briefs,
    Bytes,
    Chars,
    Shorts,
    Ints,
    Longs,
}

/// How many values there are, and the one at a slot.
#[inline(always)]
fn counted_value(values: &[Value], slot: usize) -> Option<(usize, Value)>
    ensures count { IfSome result (λ r. r.0 ≡ length values.now) }
    ensures value { IfSome result (λ r. slice_get values.now slot ≡ Some r.1) }
{
    match values.get(slot) {
        Some(value) => Some((values.len(), *value)),
        None => None,
    }
}

/// Puts a value into a slot, where there is one and it fits, and says how many there are: not more than an int can say.
#[inline(always)]
fn put_counted<E: Packed>(elements: &mut Vec<E>, slot: usize, value: Value) -> Option<usize>
    ensures slot { IfSome result (λ n. (slot < n) × (n < 2 ^ 31)) }
    ensures count { IfSome result (λ n. n ≡ length (map E.value_of elements.old.items)) }
    ensures some { IfSome result
        (λ n. map E.value_of elements.new.items ≡ slice_set (map E.value_of elements.old.items) slot value) }
    ensures none { IfNone result (elements.new ≡ elements.old) }
{
    let count = elements.len();
    if slot < count && count <= MOST && put_narrow(elements, slot, value) {
        Some(count)
    } else {
        None
    }
}

/// Puts a value into a slot of a few, where there is one and it fits, and says how many there are.
#[inline(always)]
fn put_few_counted(few: &mut Few, slot: usize, value: Value) -> Option<usize>
    ensures slot { IfSome result (λ n. (slot < n) × (n < 2 ^ 31)) }
    ensures count { IfSome result (λ n. n ≡ length (map brief_value few.old)) }
    ensures some { IfSome result (λ n. map brief_value few.new ≡ slice_set (map brief_value few.old) slot value) }
    ensures none { IfNone result (few.new ≡ few.old) }
{
    let count = few.as_slice().len();
    if slot < count && count <= MOST && put_few(few, slot, value) {
        Some(count)
    } else {
        None
    }
}

/// Puts a value into a slot, where there is one, and says how many there are.
#[inline(always)]
fn put_value(values: &mut Vec<Value>, slot: usize, value: Value) -> Option<usize>
    ensures slot { IfSome result (λ n. (slot < n) × (n < 2 ^ 31)) }
    ensures count { IfSome result (λ n. n ≡ length values.old.items) }
    ensures some { IfSome result (λ n. values.new.items ≡ slice_set values.old.items slot value) }
    ensures none { IfNone result (values.new ≡ values.old) }
{
    let count = values.len();
    if slot < count && count <= MOST {
        put_element(values, slot, value);
        Some(count)
    } else {
        None
    }
}

/// How many there are of what is held in 8 bytes each, and the value at a slot.
#[inline(always)]
fn counted_at(briefs: &[Brief], slot: usize) -> Option<(usize, Value)>
    ensures count { IfSome result (λ r. r.0 ≡ length (map brief_value briefs.now)) }
    ensures value { IfSome result (λ r. slice_get (map brief_value briefs.now) slot ≡ Some r.1) }
{
    match value_at(briefs, slot) {
        Some(value) => Some((briefs.len(), value)),
        None => None,
    }
}

/// The reference that this stands for, where it is null, or leads to an object or a text.
#[inline(always)]
fn reference_of(brief: &Brief) -> Option<Value>
    ensures { IfSome result (λ v. brief_value brief.now ≡ v) }
{
    if let Brief::OfThread(thread, number) = brief {
        return Some(Value::OfThread(u32::from(*thread), u64::from(*number)));
    }
    if let Brief::OfClass(class, number) = brief {
        return Some(Value::OfClass(u32::from(*class), u64::from(*number)));
    }
    if let Brief::Null = brief {
        return Some(Value::Null);
    }
    if let Brief::Text(text) = brief {
        return Some(Value::Text(*text as usize));
    }
    None
}

/// How many there are of what is held in 8 bytes each, and the reference at a slot.
#[inline(always)]
fn counted_reference(briefs: &[Brief], slot: usize) -> Option<(usize, Value)>
    ensures count { IfSome result (λ r. r.0 ≡ length (map brief_value briefs.now)) }
    ensures value { IfSome result (λ r. slice_get (map brief_value briefs.now) slot ≡ Some r.1) }
{
    match briefs.get(slot) {
        Some(brief) => match reference_of(brief) {
            Some(reference) => Some((briefs.len(), reference)),
            None => None,
        },
        None => None,
    }
}

impl Elements {
    /// As [`brief_at`](Elements::brief_at), quick where the value is a reference. Of another it may answer none.
    #[inline(always)]
    pub(crate) fn reference_at(&self, slot: usize) -> Option<(usize, Value)>
        ensures count { IfSome result (λ r. r.0 ≡ length (values_of self.now)) }
        ensures value { IfSome result (λ r. slice_get (values_of self.now) slot ≡ Some r.1) }
    {
        if let Elements::Values(values) = self {
            return counted_value(values.as_slice(), slot);
        }
        if let Elements::Briefs(briefs) = self {
            return counted_reference(briefs.as_slice(), slot);
        }
        if let Elements::Few(few, _) = self {
            return counted_reference(few.as_slice(), slot);
        }
        None
    }

    /// How many there are, and the value at a slot. None where they are held as numbers of one type, or there is no
    /// such slot.
    #[inline(always)]
    pub(crate) fn brief_at(&self, slot: usize) -> Option<(usize, Value)>
        ensures count { IfSome result (λ r. r.0 ≡ length (values_of self.now)) }
        ensures value { IfSome result (λ r. slice_get (values_of self.now) slot ≡ Some r.1) }
    {
        // One after another: a `match` on so many kinds becomes a table of jumps. The last is compared first.
        if let Elements::Values(values) = self {
            return counted_value(values.as_slice(), slot);
        }
        if let Elements::Briefs(briefs) = self {
            return counted_at(briefs.as_slice(), slot);
        }
        if let Elements::Few(few, _) = self {
            return counted_at(few.as_slice(), slot);
        }
        None
    }

    /// Puts a value into a slot, and says so; not where they are held as numbers of one type, or it does not fit. Where
    /// there is no such slot nothing changes.
    #[inline(always)]
    fn put_brief(&mut self, slot: usize, value: Value) -> bool
        ensures yes { result ≡ true → values_of self.new ≡ slice_set (values_of self.old) slot value }
        ensures no { result ≡ false → self.new ≡ self.old }
    {
        match self {
            Elements::Few(few, _) => put_few(few, slot, value),
            Elements::Briefs(briefs) => put_narrow(briefs, slot, value),
            Elements::Values(values) => {
                put_element(values, slot, value);
                true
            }
            _ => false,
        }
    }

    /// All of them, where they are held as bytes or booleans.
    #[inline(always)]
    pub(crate) fn as_bytes(&self) -> Option<&[i8]>
        ensures { IfSome result (λ s. map Int s.now ≡ values_of self.now) }
    {
        match self {
            Elements::Bytes(bytes) => Some(bytes.as_slice()),
            _ => None,
        }
    }

    /// All of them, where they are held as chars.
    #[inline(always)]
    pub(crate) fn as_chars(&self) -> Option<&[u16]>
        ensures { IfSome result (λ s. map char_value s.now ≡ values_of self.now) }
    {
        match self {
            Elements::Chars(chars) => Some(chars.as_slice()),
            _ => None,
        }
    }

    /// All of them, where they are held as shorts.
    #[inline(always)]
    pub(crate) fn as_shorts(&self) -> Option<&[i16]>
        ensures { IfSome result (λ s. map Int s.now ≡ values_of self.now) }
    {
        match self {
            Elements::Shorts(shorts) => Some(shorts.as_slice()),
            _ => None,
        }
    }

    /// All of them, where they are held as ints.
    #[inline(always)]
    pub(crate) fn as_ints(&self) -> Option<&[i32]>
        ensures { IfSome result (λ s. map Int s.now ≡ values_of self.now) }
    {
        match self {
            Elements::Ints(ints) => Some(ints.as_slice()),
            _ => None,
        }
    }

    /// All of them, where they are held as longs.
    #[inline(always)]
    pub(crate) fn as_longs(&self) -> Option<&[i64]>
        ensures { IfSome result (λ s. map Long s.now ≡ values_of self.now) }
    {
        match self {
            Elements::Longs(longs) => Some(longs.as_slice()),
            _ => None,
        }
    }

    /// Puts a number into a slot, and says so; not where they are held otherwise, or it does not fit. Where there is no
    /// such slot nothing changes.
    #[inline(always)]
    fn put_number(&mut self, packing: Packing, slot: usize, value: Value) -> bool
        ensures yes { result ≡ true → values_of self.new ≡ slice_set (values_of self.old) slot value }
        ensures no { result ≡ false → self.new ≡ self.old }
    {
        match (packing, self) {
            (Packing::Bytes, Elements::Bytes(bytes)) => put_narrow(bytes, slot, value),
            (Packing::Chars, Elements::Chars(chars)) => put_narrow(chars, slot, value),
            (Packing::Shorts, Elements::Shorts(shorts)) => put_narrow(shorts, slot, value),
            (Packing::Ints, Elements::Ints(ints)) => put_narrow(ints, slot, value),
            (Packing::Longs, Elements::Longs(longs)) => put_narrow(longs, slot, value),
            _ => false,
        }
    }

    /// Puts a value into a slot, and says so; not where they are held otherwise, or it does not fit. Where there is no
    /// such slot nothing changes.
    #[inline(always)]
    fn put_as(&mut self, packing: Packing, slot: usize, value: Value) -> bool
        ensures yes { result ≡ true → values_of self.new ≡ slice_set (values_of self.old) slot value }
        ensures no { result ≡ false → self.new ≡ self.old }
    {
        match packing {
            Packing::Briefs => self.put_brief(slot, value),
            _ => self.put_number(packing, slot, value),
        }
    }

    /// As [`set`](Elements::set), quick where the values are held as expected.
    #[inline(always)]
    pub(crate) fn set_as(
        &mut self,
        expected: Packing,
        slot: usize,
        value: Value,
    ) -> Result<(), AllocError>
        ensures ok { OnOk result (values_of self.new ≡ slice_set (values_of self.old) slot value) }
        ensures err { OnErr result (self.new ≡ self.old) }
    {
        if self.put_as(expected, slot, value) {
            return Ok(());
        }
        self.set(slot, value)
    }

    /// Puts a value into a slot, and says how many there are; not where they are held as numbers of one type, where
    /// there is no such slot, or it does not fit.
    #[inline(always)]
    fn put_brief_within(&mut self, slot: usize, value: Value) -> Option<usize>
        ensures slot { IfSome result (λ n. (slot < n) × (n < 2 ^ 31)) }
        ensures count { IfSome result (λ n. n ≡ length (values_of self.old)) }
        ensures some { IfSome result (λ n. values_of self.new ≡ slice_set (values_of self.old) slot value) }
        ensures none { IfNone result (self.new ≡ self.old) }
    {
        if let Elements::Values(values) = self {
            return put_value(values, slot, value);
        }
        if let Elements::Briefs(briefs) = self {
            return put_counted(briefs, slot, value);
        }
        if let Elements::Few(few, _) = self {
            return put_few_counted(few, slot, value);
        }
        None
    }

    /// Puts a value into a slot, and says how many there are; not where they are held otherwise, where there is no such
    /// slot, or it does not fit.
    #[inline(always)]
    pub(crate) fn put_within(
        &mut self,
        packing: Packing,
        slot: usize,
        value: Value,
    ) -> Option<usize>
        ensures slot { IfSome result (λ n. (slot < n) × (n < 2 ^ 31)) }
        ensures count { IfSome result (λ n. n ≡ length (values_of self.old)) }
        ensures some { IfSome result (λ n. values_of self.new ≡ slice_set (values_of self.old) slot value) }
        ensures none { IfNone result (self.new ≡ self.old) }
    {
        match packing {
            Packing::Briefs => self.put_brief_within(slot, value),
            _ => self.put_number_within(packing, slot, value),
        }
    }

    /// Puts a number into a slot, and says how many there are; not where they are held otherwise, where there is no
    /// such slot, or it does not fit.
    #[inline(always)]
    fn put_number_within(&mut self, packing: Packing, slot: usize, value: Value) -> Option<usize>
        ensures slot { IfSome result (λ n. (slot < n) × (n < 2 ^ 31)) }
        ensures count { IfSome result (λ n. n ≡ length (values_of self.old)) }
        ensures some { IfSome result (λ n. values_of self.new ≡ slice_set (values_of self.old) slot value) }
        ensures none { IfNone result (self.new ≡ self.old) }
    {
        match (packing, self) {
            (Packing::Bytes, Elements::Bytes(bytes)) => put_counted(bytes, slot, value),
            (Packing::Chars, Elements::Chars(chars)) => put_counted(chars, slot, value),
            (Packing::Shorts, Elements::Shorts(shorts)) => put_counted(shorts, slot, value),
            (Packing::Ints, Elements::Ints(ints)) => put_counted(ints, slot, value),
            (Packing::Longs, Elements::Longs(longs)) => put_counted(longs, slot, value),
            _ => None,
        }
    }
}
