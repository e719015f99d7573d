//! Values in a row, each in as many bytes as all of them need.

ghost use Rattle.std.specs.Prelude.{◌≡◌, true, false, map, length, replicate, slice_get, slice_set, IfOk, IfSome};
ghost use Rattle.std.specs.Prelude.{IfNone, Ok, OnOk, OnErr, [], ◌∷◌, ◌++◌};
ghost use Rattle.std.specs.List.{All};
ghost use Rattle.vm_state.specs.declared.value.Value.{Value as Held};
ghost use Rattle.vm_state.specs.declared.value.Value.TheVariants.{Int, Long};
ghost use Rattle.vm_state.specs.steps.Elements.{values_of, char_value, brief_value};
ghost use Rattle.vm_state.specs.Values.{IsNumber};

use crate::value::Value;
use built_in::class_id::{ArrayType, ElementType};
use std::alloc::{AllocError, Global};
use std::marker::Model;

/// A value in 8 bytes: an int, or a reference whose numbers are small.
#[derive(Clone, Copy)]
pub(crate) enum Brief {
    Int(i32),
    Null,
    Text(u32),
    OfClass(u16, u32),
    OfThread(u16, u32),
    Out,
}

/// How many are held without memory of their own.
const FEW: usize = 3;

/// Up to three of them.
#[derive(Drop)]
pub(crate) struct Few {
    count: u8,
    briefs: [Brief; 3],
}

impl Model for Few {
    ghost use Rattle.std.specs.Prelude.{List, ◌≤◌, take};
    ghost use Rattle.vm_state.specs.declared.elements.Brief.{Brief as Held};

    ghost Value = { List Held };

    ghost view = { λ s. take s.count s.briefs };

    ghost invariant = { λ s. s.count ≤ 3 };
}

impl Few {
    /// None.
    fn none() -> Few
        ensures { result ≡ [] }
    {
        Few {
            count: 0,
            briefs: [Brief::Null; 3],
        }
    }

    /// A copy of these values.
    fn copy(&self) -> Few
        ensures { result ≡ self.now }
    {
        Few {
            count: self.count,
            briefs: self.briefs,
        }
    }

    /// All of them.
    #[inline(always)]
    pub(crate) fn as_slice(&self) -> &[Brief]
        ensures { result.now ≡ self.now }
    {
        &self.briefs[..usize::from(self.count)]
    }

    /// Puts one into a slot. Where there is no such slot nothing changes.
    #[inline(always)]
    fn put(&mut self, slot: usize, brief: Brief)
        ensures { self.new ≡ slice_set self.old slot brief }
    {
        if slot < usize::from(self.count) {
            self.briefs[slot] = brief;
        }
    }

    /// Adds one at the end, and says so; not where there is no room.
    fn push(&mut self, brief: Brief) -> bool
        ensures yes { result ≡ true → self.new ≡ self.old ++ brief ∷ [] }
        ensures no { result ≡ false → self.new ≡ self.old }
    {
        let place = usize::from(self.count);
        if place < FEW {
            self.briefs[place] = brief;
            self.count += 1;
            true
        } else {
            false
        }
    }
}

/// What stands for the values of a few slots, if something does.
fn few_of(values: &[Value]) -> Option<Few>
    ensures { IfSome result (λ few. map brief_value few ≡ values.now) }
{
    let mut few = Few::none();
    for value in values {
        let brief = Brief::narrow(*value)?;
        if !few.push(brief) {
            return None;
        }
    }
    Some(few)
}

/// What stands for some values, in fewer bytes.
pub(crate) trait Packed: Copy {
    // The value that it stands for.
    ghost value_of: { Self → Held };

    /// The value that it stands for.
    fn value(self) -> Value
        ensures { result ≡ value_of self };

    /// What stands for a value, if something does.
    fn narrow(value: Value) -> Option<Self>
        ensures { IfSome result (λ e. value_of e ≡ value) };

    /// This one `count` times.
    fn many(self, alloc: Global, count: usize) -> Result<Vec<Self>, AllocError>
        ensures { IfOk result (λ v. v.items ≡ replicate count self) };
}

impl Packed for i8 {
    ghost value_of = { Int };

    #[inline(always)]
    fn value(self) -> Value {
        Value::Int(i32::from(self))
    }

    #[inline(always)]
    fn narrow(value: Value) -> Option<i8> {
        match value {
            Value::Int(number) => i8::try_from(number).ok(),
            _ => None,
        }
    }

    fn many(self, alloc: Global, count: usize) -> Result<Vec<i8>, AllocError> {
        vec![in alloc; self; count]
    }
}

impl Packed for u16 {
    ghost value_of = { char_value };

    #[inline(always)]
    fn value(self) -> Value {
        Value::Int(i32::from(self))
    }

    #[inline(always)]
    fn narrow(value: Value) -> Option<u16> {
        match value {
            Value::Int(number) => u16::try_from(number).ok(),
            _ => None,
        }
    }

    fn many(self, alloc: Global, count: usize) -> Result<Vec<u16>, AllocError> {
        vec![in alloc; self; count]
    }
}

impl Packed for i16 {
    ghost value_of = { Int };

    #[inline(always)]
    fn value(self) -> Value {
        Value::Int(i32::from(self))
    }

    #[inline(always)]
    fn narrow(value: Value) -> Option<i16> {
        match value {
            Value::Int(number) => i16::try_from(number).ok(),
            _ => None,
        }
    }

    fn many(self, alloc: Global, count: usize) -> Result<Vec<i16>, AllocError> {
        vec![in alloc; self; count]
    }
}

impl Packed for i32 {
    ghost value_of = { Int };

    #[inline(always)]
    fn value(self) -> Value {
        Value::Int(self)
    }

    #[inline(always)]
    fn narrow(value: Value) -> Option<i32> {
        match value {
            Value::Int(number) => Some(number),
            _ => None,
        }
    }

    fn many(self, alloc: Global, count: usize) -> Result<Vec<i32>, AllocError> {
        vec![in alloc; self; count]
    }
}

impl Packed for i64 {
    ghost value_of = { Long };

    #[inline(always)]
    fn value(self) -> Value {
        Value::Long(self)
    }

    #[inline(always)]
    fn narrow(value: Value) -> Option<i64> {
        match value {
            Value::Long(number) => Some(number),
            _ => None,
        }
    }

    fn many(self, alloc: Global, count: usize) -> Result<Vec<i64>, AllocError> {
        vec![in alloc; self; count]
    }
}

/// The numbers of a name in fewer bytes, if they fit.
#[inline(always)]
fn brief_name(maker: u32, number: u64) -> Option<(u16, u32)>
    ensures { IfSome result (λ r. (r.0 ≡ maker) × (r.1 ≡ number)) }
{
    match (u16::try_from(maker), u32::try_from(number)) {
        (Ok(maker), Ok(number)) => Some((maker, number)),
        _ => None,
    }
}

impl Packed for Brief {
    ghost value_of = { brief_value };

    #[inline(always)]
    fn value(self) -> Value {
        match self {
            Brief::Int(number) => Value::Int(number),
            Brief::Null => Value::Null,
            Brief::Text(number) => Value::Text(number as usize),
            Brief::OfClass(class, number) => Value::OfClass(u32::from(class), u64::from(number)),
            Brief::OfThread(thread, number) => Value::OfThread(
                u32::from(thread),
                u64::from(number),
            ),
            Brief::Out => Value::Out,
        }
    }

    #[inline(always)]
    fn narrow(value: Value) -> Option<Brief> {
        match value {
            Value::Int(number) => Some(Brief::Int(number)),
            Value::Long(_) => None,
            Value::Null => Some(Brief::Null),
            Value::Text(number) => match u32::try_from(number) {
                Ok(number) => Some(Brief::Text(number)),
                Err(_) => None,
            },
            Value::OfClass(class, number) => match brief_name(class, number) {
                Some((class, number)) => Some(Brief::OfClass(class, number)),
                None => None,
            },
            Value::OfThread(thread, number) => match brief_name(thread, number) {
                Some((thread, number)) => Some(Brief::OfThread(thread, number)),
                None => None,
            },
            Value::Out => Some(Brief::Out),
        }
    }

    fn many(self, alloc: Global, count: usize) -> Result<Vec<Brief>, AllocError> {
        vec![in alloc; self; count]
    }
}

/// The value at a slot.
#[inline(always)]
pub(crate) fn value_at<E: Packed>(elements: &[E], slot: usize) -> Option<Value>
    ensures { result ≡ slice_get (map E.value_of elements.now) slot }
{
    match elements.get(slot) {
        Some(element) => Some(element.value()),
        None => None,
    }
}

/// Puts a value into a slot, and says so; not where nothing stands for it. Where there is no such slot nothing changes.
#[inline(always)]
pub(crate) fn put_narrow<E: Packed>(elements: &mut Vec<E>, slot: usize, value: Value) -> bool
    ensures yes { result ≡ true
        → map E.value_of elements.new.items ≡ slice_set (map E.value_of elements.old.items) slot value }
    ensures no { result ≡ false → elements.new ≡ elements.old }
{
    match E::narrow(value) {
        Some(element) => {
            put_element(elements, slot, element);
            true
        }
        None => false,
    }
}

/// Puts an element into a slot. Where there is no such slot nothing changes.
#[inline(always)]
pub(crate) fn put_element<E: Copy>(elements: &mut Vec<E>, slot: usize, element: E)
    ensures { elements.new.items ≡ slice_set elements.old.items slot element }
{
    if let Some(held) = elements.get_mut(slot) {
        *held = element;
    }
}

/// Adds what stands for a value at the end, and says so; not where nothing does.
fn push_narrow<E: Packed>(elements: &mut Vec<E>, value: Value) -> Result<bool, AllocError>
    ensures yes { result ≡ Ok true
        → map E.value_of elements.new.items ≡ map E.value_of elements.old.items ++ value ∷ [] }
    ensures no { result ≡ Ok false → elements.new ≡ elements.old }
    ensures err { OnErr result (elements.new.items ≡ elements.old.items) }
{
    match E::narrow(value) {
        Some(element) => {
            elements.push(element)?;
            Ok(true)
        }
        None => Ok(false),
    }
}

/// The values that elements stand for.
fn widened<E: Packed>(alloc: Global, elements: &[E]) -> Result<Vec<Value>, AllocError>
    ensures { IfOk result (λ values. values.items ≡ map E.value_of elements.now) }
{
    let mut values = Vec::with_capacity(alloc, elements.len())?;
    for element in elements {
        values.push(element.value())?;
    }
    Ok(values)
}

/// What stands for this value, `count` times; none where nothing does.
fn filled_narrow<E: Packed>(
    alloc: Global,
    value: Value,
    count: usize,
) -> Result<Option<Vec<E>>, AllocError>
    ensures { IfOk result (λ r. IfSome r (λ v. map E.value_of v.items ≡ replicate count value)) }
{
    match E::narrow(value) {
        Some(element) => Ok(Some(element.many(alloc, count)?)),
        None => Ok(None),
    }
}

/// What stands for these values; none where nothing does for one of them.
fn narrowed<E: Packed>(alloc: Global, values: &[Value]) -> Result<Option<Vec<E>>, AllocError>
    ensures { IfOk result (λ r. IfSome r (λ v. map E.value_of v.items ≡ values.now)) }
{
    let mut elements = Vec::with_capacity(alloc, values.len())?;
    for value in values {
        let Some(element) = E::narrow(*value) else {
            return Ok(None);
        };
        elements.push(element)?;
    }
    Ok(Some(elements))
}

/// Puts a value into one of a few slots, and says so; not where nothing stands for it. Where there is no such slot
/// nothing changes.
#[inline(always)]
pub(crate) fn put_few(few: &mut Few, slot: usize, value: Value) -> bool
    ensures yes { result ≡ true
        → map brief_value few.new ≡ slice_set (map brief_value few.old) slot value }
    ensures no { result ≡ false → few.new ≡ few.old }
{
    match Brief::narrow(value) {
        Some(brief) => {
            few.put(slot, brief);
            true
        }
        None => false,
    }
}

/// Adds what stands for a value to a few, and says so; not where nothing does, or there is no room.
fn push_few(few: &mut Few, value: Value) -> bool
    ensures yes { result ≡ true → map brief_value few.new ≡ map brief_value few.old ++ value ∷ [] }
    ensures no { result ≡ false → few.new ≡ few.old }
{
    match Brief::narrow(value) {
        Some(brief) => few.push(brief),
        None => false,
    }
}

/// Values in a row.
#[derive(Drop)]
pub(crate) enum Elements {
    /// With what gives memory, where they are widened.
    Few(Few, Global),
    Briefs(Vec<Brief>),
    Bytes(Vec<i8>),
    Chars(Vec<u16>),
    Shorts(Vec<i16>),
    Ints(Vec<i32>),
    Longs(Vec<i64>),
    Values(Vec<Value>),
}

impl Elements {
    /// This value `count` times, in a row for any values.
    fn mixed(alloc: Global, value: Value, count: usize) -> Result<Elements, AllocError>
        ensures { IfOk result (λ e. values_of e ≡ replicate count value) }
    {
        Ok(Elements::Values(vec![in alloc; value; count]?))
    }

    fn bytes(alloc: Global, value: Value, count: usize) -> Result<Elements, AllocError>
        ensures { IfOk result (λ e. values_of e ≡ replicate count value) }
    {
        match filled_narrow(alloc, value, count)? {
            Some(bytes) => Ok(Elements::Bytes(bytes)),
            None => Elements::mixed(alloc, value, count),
        }
    }

    fn chars(alloc: Global, value: Value, count: usize) -> Result<Elements, AllocError>
        ensures { IfOk result (λ e. values_of e ≡ replicate count value) }
    {
        match filled_narrow(alloc, value, count)? {
            Some(chars) => Ok(Elements::Chars(chars)),
            None => Elements::mixed(alloc, value, count),
        }
    }

    fn shorts(alloc: Global, value: Value, count: usize) -> Result<Elements, AllocError>
        ensures { IfOk result (λ e. values_of e ≡ replicate count value) }
    {
        match filled_narrow(alloc, value, count)? {
            Some(shorts) => Ok(Elements::Shorts(shorts)),
            None => Elements::mixed(alloc, value, count),
        }
    }

    fn ints(alloc: Global, value: Value, count: usize) -> Result<Elements, AllocError>
        ensures { IfOk result (λ e. values_of e ≡ replicate count value) }
    {
        match filled_narrow(alloc, value, count)? {
            Some(ints) => Ok(Elements::Ints(ints)),
            None => Elements::mixed(alloc, value, count),
        }
    }

    fn longs(alloc: Global, value: Value, count: usize) -> Result<Elements, AllocError>
        ensures { IfOk result (λ e. values_of e ≡ replicate count value) }
    {
        match filled_narrow(alloc, value, count)? {
            Some(longs) => Ok(Elements::Longs(longs)),
            None => Elements::mixed(alloc, value, count),
        }
    }

    fn briefs(alloc: Global, value: Value, count: usize) -> Result<Elements, AllocError>
        ensures { IfOk result (λ e. values_of e ≡ replicate count value) }
    {
        match filled_narrow(alloc, value, count)? {
            Some(briefs) => Ok(Elements::Briefs(briefs)),
            None => Elements::mixed(alloc, value, count),
        }
    }

    /// These values, in as few bytes as all of them let.
    pub(crate) fn packed(alloc: Global, values: &[Value]) -> Result<Elements, AllocError>
        ensures { IfOk result (λ e. values_of e ≡ values.now) }
    {
        match few_of(values) {
            Some(few) => Ok(Elements::Few(few, alloc)),
            None => Elements::packed_many(alloc, values),
        }
    }

    fn packed_many(alloc: Global, values: &[Value]) -> Result<Elements, AllocError>
        ensures { IfOk result (λ e. values_of e ≡ values.now) }
    {
        match narrowed(alloc, values)? {
            Some(briefs) => Ok(Elements::Briefs(briefs)),
            None => Ok(Elements::Values(Vec::from_slice(alloc, values)?)),
        }
    }

    /// This value `count` times, in a row for the components of an array.
    pub(crate) fn filled(
        alloc: Global,
        array: ArrayType,
        value: Value,
        count: usize,
    ) -> Result<Elements, AllocError>
        ensures { IfOk result (λ e. values_of e ≡ replicate count value) }
    {
        if array.dimensions > 1 {
            return Elements::briefs(alloc, value, count);
        }
        match array.element {
            ElementType::Boolean | ElementType::Byte => Elements::bytes(alloc, value, count),
            ElementType::Char => Elements::chars(alloc, value, count),
            ElementType::Short => Elements::shorts(alloc, value, count),
            ElementType::Int => Elements::ints(alloc, value, count),
            ElementType::Long => Elements::longs(alloc, value, count),
            _ => Elements::briefs(alloc, value, count),
        }
    }

    /// A copy of the elements.
    pub(crate) fn copy(&self, alloc: Global) -> Result<Elements, AllocError>
        ensures { IfOk result (λ e. values_of e ≡ values_of self.now) }
    {
        match self {
            Elements::Few(few, _) => Ok(Elements::Few(few.copy(), alloc)),
            Elements::Briefs(briefs) => {
                Ok(Elements::Briefs(Vec::from_slice(alloc, briefs.as_slice())?))
            }
            Elements::Bytes(bytes) => {
                Ok(Elements::Bytes(Vec::from_slice(alloc, bytes.as_slice())?))
            }
            Elements::Chars(chars) => {
                Ok(Elements::Chars(Vec::from_slice(alloc, chars.as_slice())?))
            }
            Elements::Shorts(shorts) => {
                Ok(Elements::Shorts(Vec::from_slice(alloc, shorts.as_slice())?))
            }
            Elements::Ints(ints) => Ok(Elements::Ints(Vec::from_slice(alloc, ints.as_slice())?)),
            Elements::Longs(longs) => {
                Ok(Elements::Longs(Vec::from_slice(alloc, longs.as_slice())?))
            }
            Elements::Values(values) => {
                Ok(Elements::Values(Vec::from_slice(alloc, values.as_slice())?))
            }
        }
    }

    /// How many there are.
    #[inline(always)]
    pub(crate) fn len(&self) -> usize
        ensures { result ≡ length (values_of self.now) }
    {
        match self {
            Elements::Few(few, _) => few.as_slice().len(),
            Elements::Briefs(briefs) => briefs.len(),
            Elements::Bytes(bytes) => bytes.len(),
            Elements::Chars(chars) => chars.len(),
            Elements::Shorts(shorts) => shorts.len(),
            Elements::Ints(ints) => ints.len(),
            Elements::Longs(longs) => longs.len(),
            Elements::Values(values) => values.len(),
        }
    }

    /// The value at a slot, if there is one.
    #[inline(always)]
    pub(crate) fn get(&self, slot: usize) -> Option<Value>
        ensures { result ≡ slice_get (values_of self.now) slot }
    {
        match self {
            Elements::Few(few, _) => value_at(few.as_slice(), slot),
            Elements::Briefs(briefs) => value_at(briefs.as_slice(), slot),
            Elements::Bytes(bytes) => value_at(bytes.as_slice(), slot),
            Elements::Chars(chars) => value_at(chars.as_slice(), slot),
            Elements::Shorts(shorts) => value_at(shorts.as_slice(), slot),
            Elements::Ints(ints) => value_at(ints.as_slice(), slot),
            Elements::Longs(longs) => value_at(longs.as_slice(), slot),
            Elements::Values(values) => values.as_slice().get(slot).copied(),
        }
    }

    /// Puts a value into a slot, and says so; not where its kind does not fit among these. Where there is no such slot
    /// nothing changes.
    #[inline(always)]
    fn put(&mut self, slot: usize, value: Value) -> bool
        ensures yes { result ≡ true → values_of self.new ≡ slice_set (values_of self.old) slot value }
        ensures no { result ≡ false → self.new ≡ self.old }
    {
        match self {
            Elements::Few(few, _) => put_few(few, slot, value),
            Elements::Briefs(briefs) => put_narrow(briefs, slot, value),
            Elements::Bytes(bytes) => put_narrow(bytes, slot, value),
            Elements::Chars(chars) => put_narrow(chars, slot, value),
            Elements::Shorts(shorts) => put_narrow(shorts, slot, value),
            Elements::Ints(ints) => put_narrow(ints, slot, value),
            Elements::Longs(longs) => put_narrow(longs, slot, value),
            Elements::Values(values) => {
                put_element(values, slot, value);
                true
            }
        }
    }

    /// Its values, each as it is.
    fn to_values(&self) -> Result<Vec<Value>, AllocError>
        ensures { IfOk result (λ values. values.items ≡ values_of self.now) }
    {
        match self {
            Elements::Few(few, alloc) => widened(*alloc, few.as_slice()),
            Elements::Briefs(briefs) => widened(*briefs.allocator(), briefs.as_slice()),
            Elements::Bytes(bytes) => widened(*bytes.allocator(), bytes.as_slice()),
            Elements::Chars(chars) => widened(*chars.allocator(), chars.as_slice()),
            Elements::Shorts(shorts) => widened(*shorts.allocator(), shorts.as_slice()),
            Elements::Ints(ints) => widened(*ints.allocator(), ints.as_slice()),
            Elements::Longs(longs) => widened(*longs.allocator(), longs.as_slice()),
            Elements::Values(values) => Vec::from_slice(*values.allocator(), values.as_slice()),
        }
    }

    /// Puts a value into a slot, in a row for any values. Where there is no such slot no value changes.
    fn set_wide(&mut self, slot: usize, value: Value) -> Result<(), AllocError>
        ensures ok { OnOk result (values_of self.new ≡ slice_set (values_of self.old) slot value) }
        ensures err { OnErr result (self.new ≡ self.old) }
    {
        let mut values = self.to_values()?;
        put_element(&mut values, slot, value);
        *self = Elements::Values(values);
        Ok(())
    }

    /// Puts a value into a slot. Where there is no such slot no value changes.
    #[inline(never)]
    pub(crate) fn set(&mut self, slot: usize, value: Value) -> Result<(), AllocError>
        ensures ok { OnOk result (values_of self.new ≡ slice_set (values_of self.old) slot value) }
        ensures err { OnErr result (self.new ≡ self.old) }
    {
        if self.put(slot, value) {
            return Ok(());
        }
        self.set_wide(slot, value)
    }

    /// Puts values into the first two slots. Where there is no such slot no value changes.
    pub(crate) fn set_first(&mut self, first: Value, second: Value) -> Result<(), AllocError>
        ensures ok { OnOk result
            (values_of self.new ≡ slice_set (slice_set (values_of self.old) 0 first) 1 second) }
        ensures err { OnErr result (self.new ≡ self.old) }
    {
        let mut values = self.to_values()?;
        put_element(&mut values, 0, first);
        put_element(&mut values, 1, second);
        *self = Elements::packed(*values.allocator(), values.as_slice())?;
        Ok(())
    }

    /// Whether they are held as numbers; then all are.
    pub(crate) fn are_numbers(&self) -> bool
        ensures { result ≡ true → All IsNumber (values_of self.now) }
    {
        match self {
            Elements::Few(_, _) => false,
            Elements::Briefs(_) => false,
            Elements::Bytes(_) => true,
            Elements::Chars(_) => true,
            Elements::Shorts(_) => true,
            Elements::Ints(_) => true,
            Elements::Longs(_) => true,
            Elements::Values(_) => false,
        }
    }

    /// No values, with room for `room` components of an array.
    pub(crate) fn with_room(
        alloc: Global,
        array: ArrayType,
        room: usize,
    ) -> Result<Elements, AllocError>
        ensures { IfOk result (λ e. values_of e ≡ []) }
    {
        if array.dimensions > 1 {
            return Ok(Elements::Briefs(Vec::with_capacity(alloc, room)?));
        }
        match array.element {
            ElementType::Boolean | ElementType::Byte => {
                Ok(Elements::Bytes(Vec::with_capacity(alloc, room)?))
            }
            ElementType::Char => Ok(Elements::Chars(Vec::with_capacity(alloc, room)?)),
            ElementType::Short => Ok(Elements::Shorts(Vec::with_capacity(alloc, room)?)),
            ElementType::Int => Ok(Elements::Ints(Vec::with_capacity(alloc, room)?)),
            ElementType::Long => Ok(Elements::Longs(Vec::with_capacity(alloc, room)?)),
            _ => Ok(Elements::Briefs(Vec::with_capacity(alloc, room)?)),
        }
    }

    /// Adds a value at the end, and says so; not where its kind does not fit among these.
    fn add(&mut self, value: Value) -> Result<bool, AllocError>
        ensures yes { result ≡ Ok true → values_of self.new ≡ values_of self.old ++ value ∷ [] }
        ensures no { result ≡ Ok false → self.new ≡ self.old }
        ensures err { OnErr result (values_of self.new ≡ values_of self.old) }
    {
        match self {
            Elements::Few(few, _) => Ok(push_few(few, value)),
            Elements::Briefs(briefs) => push_narrow(briefs, value),
            Elements::Bytes(bytes) => push_narrow(bytes, value),
            Elements::Chars(chars) => push_narrow(chars, value),
            Elements::Shorts(shorts) => push_narrow(shorts, value),
            Elements::Ints(ints) => push_narrow(ints, value),
            Elements::Longs(longs) => push_narrow(longs, value),
            Elements::Values(values) => {
                values.push(value)?;
                Ok(true)
            }
        }
    }

    /// Adds a value at the end, in a row for any values.
    fn push_wide(&mut self, value: Value) -> Result<(), AllocError>
        ensures ok { OnOk result (values_of self.new ≡ values_of self.old ++ value ∷ []) }
        ensures err { OnErr result (self.new ≡ self.old) }
    {
        let mut values = self.to_values()?;
        values.push(value)?;
        *self = Elements::Values(values);
        Ok(())
    }

    /// Adds a value at the end.
    pub(crate) fn push(&mut self, value: Value) -> Result<(), AllocError>
        ensures ok { OnOk result (values_of self.new ≡ values_of self.old ++ value ∷ []) }
        ensures err { OnErr result (values_of self.new ≡ values_of self.old) }
    {
        match self.add(value) {
            Ok(true) => Ok(()),
            Ok(false) => self.push_wide(value),
            Err(error) => Err(error),
        }
    }
}
