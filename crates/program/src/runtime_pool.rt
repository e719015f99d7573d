//! The run-time constant pool of a class (JVMS 5.1).

ghost use Rattle.std.specs.Prelude.{◌≡◌, ◌<◌, ℕ, List, [], ◌∷◌, ◌++◌, length, true, Some, IfOk, OnOk, slice_get};
ghost use Rattle.std.specs.Prelude.{if◌then◌else◌};
ghost use Rattle.classfile.specs.ClassFile.{ClassFile as File};
ghost use Rattle.program.specs.RuntimePool.{int_of_bits, long_of_halves};
ghost use Rattle.program.specs.Fields.{static_number_of, static_of, final_of};
ghost use Rattle.program.specs.FieldTargets.{target_in, target_of, targeted};
ghost use Rattle.program.specs.InstanceFields.{slot_of};
ghost use Rattle.program.specs.steps.Slots.{field_slot_in};
ghost use Rattle.program.specs.steps.StaticNumbers.{static_number_in};
ghost use Rattle.program.specs.declared.runtime_constant.RuntimeConstant.{RuntimeConstant as Held};
ghost use Rattle.program.specs.declared.runtime_constant.RuntimeConstant.TheVariants.{Other};
ghost use Rattle.program.specs.declared.runtime_constant.FieldTarget.TheVariants as targets;
ghost use Rattle.loading.specs.Families.{Family as Classes, file_in};
ghost use Rattle.program.specs.RuntimePool.{IsRuntimeConstant, IsRuntimePool};
ghost use Rattle.program.specs.steps.ResolvedConstants.{IsTargetAt, IsResolved, IsPlain, IsFieldConstant};
ghost use Rattle.program.specs.steps.ResolvedConstants.{AreRuntimeConstants};
ghost use Rattle.program.specs.steps.Ahead.{AreAhead};
ghost use Rattle.program.specs.Strings.{string_of, strings_of};
ghost use Rattle.program.specs.steps.GrowingStrings.{Gains};

use crate::ahead::MembersAhead;
use crate::class::RuntimePool;
use crate::equal_entries::EarlierStrings;
use crate::field_slots::FieldSlots;
use crate::references::descriptor_at;
use crate::resolver::Resolver;
use crate::runtime_constant::{FieldTarget, RuntimeConstant};
use crate::statics::field_kind;
use classfile::flags::{FINAL, STATIC, has_flag};
use classfile::{ClassFile, Constant, Member};
use hierarchy::member::{Field, Unresolved};
use hierarchy::member_resolver::MemberResolver;
use hierarchy::texts::Texts;
use loading::names::text_at;
use std::alloc::{AllocError, Global};

/// The int of these bits (JVMS 4.4.4).
pub(crate) fn int_of_bits(bits: u32) -> i32
    ensures { result ≡ int_of_bits bits }
{
    i32::from_be_bytes(bits.to_be_bytes())
}

/// The long of these halves (JVMS 4.4.5).
pub(crate) fn long_of_halves(high: u32, low: u32) -> i64
    ensures { result ≡ long_of_halves high low }
{
    let bits = u64::from(high) * 4_294_967_296 + u64::from(low);
    i64::from_be_bytes(bits.to_be_bytes())
}

/// Whether no instruction can name an entry: a text, a name and type, or none.
fn is_unnamed(constant: &Constant) -> bool
    ensures { result ≡ true → (family : Classes) (strings : List (List ℕ)) (f : File) (index : ℕ)
        → IsRuntimeConstant family strings f index constant.now Other }
{
    match constant {
        Constant::Utf8 { .. } => true,
        Constant::NameAndType { .. } => true,
        Constant::Unusable => true,
        _ => false,
    }
}

/// A field of a class file as instructions use it, from its number and its slot.
fn target_in(file: &ClassFile, class: u32, index: u16, number: u32, slot: u32) -> FieldTarget
    requires { index < length file.now.fields → number ≡ static_number_of file.now index }
    ensures { result ≡ target_in (Some file.now) class index slot }
{
    match file.fields().get(usize::from(index)) {
        Some(field) => target_of_field(field, class, index, number, slot),
        None => FieldTarget::Instance { class, index, slot },
    }
}

/// A field as instructions use it, from its number and its slot.
fn target_of_field(field: &Member, class: u32, index: u16, number: u32, slot: u32) -> FieldTarget
    ensures { result ≡ (if static_of (Some field.now) then targets.Static class number (final_of (Some field.now)) index
        else targets.Instance class index slot) }
{
    if has_flag(field.access_flags, STATIC) {
        FieldTarget::Static {
            class,
            number,
            is_final: has_flag(field.access_flags, FINAL),
            index,
        }
    } else {
        FieldTarget::Instance { class, index, slot }
    }
}

/// The slot that was found for a field of instances.
fn slot_at(slots: &[FieldSlots], class: u32, index: u16) -> u32
    ensures { result ≡ field_slot_in slots.now class index }
{
    match slots.get(class as usize) {
        Some(slots) => slots.slot(index),
        None => 0,
    }
}

/// A run-time constant pool that is being made.
#[derive(Drop)]
struct GrowingPool {
    /// The members that were resolved first.
    ahead: MembersAhead,
    /// The strings so far.
    earlier: EarlierStrings,
    pool: RuntimePool,
}

impl Resolver<'_> {
    /// A field as instructions use it.
    fn target_of(&self, field: Field) -> FieldTarget
        ensures { result ≡ target_of self.now.hierarchy.now.family field }
    {
        match field {
            Field::Given { class, index } => self.given_target(class, index),
            Field::Out => FieldTarget::Out,
        }
    }

    /// What a field is that a reference resolves to, with its slot.
    fn targeted(&self, field: Result<Field, Unresolved>) -> Result<FieldTarget, Unresolved>
        ensures { result ≡ targeted self.now.hierarchy.now.family field }
    {
        match field {
            Ok(field) => Ok(self.target_of(field)),
            Err(fault) => Err(fault),
        }
    }

    /// A field of a given class as instructions use it.
    fn given_target(&self, class: u32, index: u16) -> FieldTarget
        ensures { result ≡ target_in (file_in self.now.hierarchy.now.family class) class index
            (slot_of self.now.hierarchy.now.family class index) }
    {
        let slot = self.slot(class, index);
        match self.hierarchy.family().file(class) {
            Some(file) => target_in(file, class, index, self.number(class, index), slot),
            None => FieldTarget::Instance { class, index, slot },
        }
    }

    /// The slot of a field of instances.
    fn slot(&self, class: u32, index: u16) -> u32
        ensures { result ≡ slot_of self.now.hierarchy.now.family class index }
    {
        slot_at(self.field_slots, class, index)
    }

    /// The number of a static field.
    fn number(&self, class: u32, index: u16) -> u32
        ensures { result ≡ static_number_in self.now.numbers.now class index }
    {
        match self.numbers.get(class as usize) {
            Some(numbers) => numbers.number(index),
            None => 0,
        }
    }

    /// A field that a reference resolves to, as instructions use it.
    fn field_at(
        &self,
        members: &mut MemberResolver<'_>,
        index: u16,
    ) -> Result<Result<FieldTarget, Unresolved>, AllocError>
        requires members { members.old ≡ self.now.hierarchy.now }
        ensures target { IfOk result (IsTargetAt self.now.hierarchy.now.family self.now.file.now index) }
        ensures kept { members.new ≡ members.old }
    {
        match self.resolve_field_at(members, index) {
            Ok(field) => Ok(self.targeted(field)),
            Err(error) => Err(error),
        }
    }

    /// A field reference as instructions use it.
    fn field_constant(
        &self,
        members: &mut MemberResolver<'_>,
        index: u16,
        name_and_type: u16,
    ) -> Result<RuntimeConstant, AllocError>
        requires members { members.old ≡ self.now.hierarchy.now }
        ensures held { IfOk result
            (IsFieldConstant self.now.hierarchy.now.family self.now.file.now index name_and_type) }
        ensures kept { members.new ≡ members.old }
    {
        let kind = field_kind(descriptor_at(self.file, name_and_type));
        let target = self.field_at(members, index)?;
        Ok(RuntimeConstant::Field(kind, target))
    }

    /// What an entry of a class file's constant pool stands for, other than a string.
    pub(crate) fn resolved_now(
        &self,
        members: &mut MemberResolver<'_>,
        index: u16,
        constant: &Constant,
    ) -> Result<RuntimeConstant, AllocError>
        requires members { members.old ≡ self.now.hierarchy.now }
        ensures held { IfOk result (IsResolved self.now.hierarchy.now.family self.now.file.now index constant.now) }
        ensures kept { members.new ≡ members.old }
    {
        match constant {
            Constant::Fieldref { name_and_type, .. } => {
                self.field_constant(members, index, *name_and_type)
            }
            Constant::Methodref {
                class,
                name_and_type,
            } => {
                let held = self.method_reference(members, index, *class, *name_and_type)?;
                Ok(RuntimeConstant::Method(held))
            }
            Constant::InterfaceMethodref {
                class,
                name_and_type,
            } => {
                let held = self.method_reference(members, index, *class, *name_and_type)?;
                Ok(RuntimeConstant::InterfaceMethod(held))
            }
            _ => Ok(self.plain(index, constant)),
        }
    }

    /// A constant that is no reference to a member.
    fn plain(&self, index: u16, constant: &Constant) -> RuntimeConstant
        ensures { IsPlain self.now.hierarchy.now.family self.now.file.now index constant.now result }
    {
        match constant {
            Constant::Integer { bits } => RuntimeConstant::Int(int_of_bits(*bits)),
            Constant::Long { high, low } => RuntimeConstant::Long(long_of_halves(*high, *low)),
            Constant::Float { .. } => RuntimeConstant::Float,
            Constant::Double { .. } => RuntimeConstant::Double,
            Constant::Class { .. } => RuntimeConstant::Class(self.class_at(index)),
            Constant::MethodHandle { .. } => RuntimeConstant::MethodHandle,
            Constant::MethodType { .. } => RuntimeConstant::MethodType,
            _ => RuntimeConstant::Other,
        }
    }

    /// What an entry of a class file's constant pool stands for, other than a string. It may have been found before.
    fn resolved(
        &self,
        members: &mut MemberResolver<'_>,
        ahead: &MembersAhead,
        index: u16,
        constant: &Constant,
    ) -> Result<RuntimeConstant, AllocError>
        requires members { members.old ≡ self.now.hierarchy.now }
        requires ahead { AreAhead self.now.hierarchy.now.family self.now.file.now ahead.now }
        requires here { slice_get self.now.file.now.constants index ≡ Some constant.now }
        ensures held { IfOk result (IsResolved self.now.hierarchy.now.family
            self.now.file.now index constant.now) }
        ensures kept { members.new ≡ members.old }
    {
        match ahead.at(index) {
            Some(held) => Ok(held),
            None => self.resolved_now(members, index, constant),
        }
    }

    /// What an entry of a class file's constant pool stands for. A string gets a number if it had none.
    #[tactic(auto, using(crate::proofs::StringsLemmas::gains_nothing))]
    fn runtime_constant_of(
        &self,
        alloc: Global,
        members: &mut MemberResolver<'_>,
        strings: &mut Texts,
        ahead: &MembersAhead,
        index: u16,
        constant: &Constant,
    ) -> Result<RuntimeConstant, AllocError>
        requires members { members.old ≡ self.now.hierarchy.now }
        requires ahead { AreAhead self.now.hierarchy.now.family self.now.file.now ahead.now }
        requires here { slice_get self.now.file.now.constants index ≡ Some constant.now }
        ensures held { IfOk result (IsRuntimeConstant self.now.hierarchy.now.family strings.new
            self.now.file.now index constant.now) }
        ensures gains { OnOk result (Gains strings.old (string_of self.now.file.now constant.now) strings.new) }
        ensures kept { members.new ≡ members.old }
    {
        let Constant::String { text } = constant else {
            let held = self.resolved(members, ahead, index, constant)?;
            return Ok(held);
        };
        let number = strings.add(alloc, text_at(self.file, *text))?;
        Ok(RuntimeConstant::String(number))
    }

    /// The run-time constant pool of the class. The members that the class file refers to are resolved first.
    pub(crate) fn runtime_pool_of(
        &self,
        alloc: Global,
        members: &mut MemberResolver<'_>,
        strings: &mut Texts,
    ) -> Result<RuntimePool, AllocError>
        requires members { members.old ≡ self.now.hierarchy.now }
        ensures pool { IfOk result (IsRuntimePool self.now.hierarchy.now.family strings.new self.now.file.now) }
        ensures gains { OnOk result (Gains strings.old (strings_of self.now.file.now) strings.new) }
        ensures kept { members.new ≡ members.old }
    {
        let ahead = self.members_ahead(alloc, members)?;
        let pool = RuntimePool::with_capacity(alloc, self.file.constants().len())?;
        let mut growing = GrowingPool {
            ahead,
            earlier: EarlierStrings::new(alloc),
            pool,
        };
        self.add_constants(alloc, members, strings, &mut growing)?;
        Ok(growing.pool)
    }

    /// Adds a constant for each entry of a class file's constant pool.
    fn add_constants(
        &self,
        alloc: Global,
        members: &mut MemberResolver<'_>,
        strings: &mut Texts,
        growing: &mut GrowingPool,
    ) -> Result<(), AllocError>
        requires members { members.old ≡ self.now.hierarchy.now }
        requires ahead { AreAhead self.now.hierarchy.now.family self.now.file.now growing.old.ahead }
        requires empty { growing.old.pool ≡ [] }
        ensures pool { OnOk result (IsRuntimePool self.now.hierarchy.now.family strings.new
            self.now.file.now growing.new.pool) }
        ensures gains { OnOk result (Gains strings.old (strings_of self.now.file.now) strings.new) }
        ensures kept { members.new ≡ members.old }
    {
        let constants = self.file.constants();
        for (index, constant) in constants.iter().enumerate() {
            self.add_constant(alloc, members, strings, growing, index as u16, constant)?;
        }
        Ok(())
    }

    /// Adds the constant of one more entry.
    fn add_constant(
        &self,
        alloc: Global,
        members: &mut MemberResolver<'_>,
        strings: &mut Texts,
        growing: &mut GrowingPool,
        index: u16,
        constant: &Constant,
    ) -> Result<(), AllocError>
        requires members { members.old ≡ self.now.hierarchy.now }
        requires ahead { AreAhead self.now.hierarchy.now.family self.now.file.now growing.old.ahead }
        requires here { slice_get self.now.file.now.constants index ≡ Some constant.now }
        requires pool { AreRuntimeConstants self.now.hierarchy.now.family strings.old
            self.now.file.now growing.old.pool }
        requires few { length growing.old.pool < 65535 }
        ensures held { OnOk result ((held : Held)
            × IsRuntimeConstant self.now.hierarchy.now.family strings.new
            self.now.file.now index constant.now held
            × (growing.new.pool ≡ growing.old.pool ++ held ∷ [])) }
        ensures ahead { growing.new.ahead ≡ growing.old.ahead }
        ensures gains { OnOk result (Gains strings.old (string_of self.now.file.now constant.now) strings.new) }
        ensures kept { members.new ≡ members.old }
    {
        if is_unnamed(constant) {
            growing.pool.push(RuntimeConstant::Other)?;
            return Ok(());
        }
        if let Some(held) = growing.earlier.held(self.file, constant, &growing.pool) {
            growing.pool.push(held)?;
            return Ok(());
        }
        let ahead = &growing.ahead;
        let held = self.runtime_constant_of(alloc, members, strings, ahead, index, constant)?;
        let count = self.file.constants().len();
        growing.earlier.note(constant, index, count)?;
        growing.pool.push(held)?;
        Ok(())
    }
}
