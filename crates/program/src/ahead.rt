//! The members that a class file refers to, resolved one class after another (JVMS 5.4.3).

ghost use Rattle.std.specs.Prelude.{◌≡◌, ℕ, Some, None, IfOk, IfSome, OnOk, slice_get, slice_set};
ghost use Rattle.program.specs.steps.Ahead.{ahead_at, AreAhead};
ghost use Rattle.program.specs.steps.ResolvedConstants.{IsResolved};

use crate::equal_entries::{member_named, stands_at};
use crate::resolver::Resolver;
use crate::runtime_constant::RuntimeConstant;
use classfile::{ClassFile, Constant};
use hierarchy::member_resolver::MemberResolver;
use std::alloc::{AllocError, Global};
use std::cmp::Ordering;
use std::marker::Model;

/// How many references are resolved in the order of their entries at most: what stands above a class is looked up for
/// each anew, which costs less than a place for each entry.
const FEW: usize = 8;

/// A reference to a member: the class that it names, its name and type, and where it stands, by their indices.
#[derive(Clone, Copy)]
struct Reference {
    class: u16,
    name_and_type: u16,
    index: u16,
}

/// The reference to a member that an entry is, if it is one.
fn reference_of(constant: &Constant, index: u16) -> Option<Reference> {
    let (class, name_and_type) = member_named(constant)?;
    Some(Reference {
        class,
        name_and_type,
        index,
    })
}

/// By class, then by name and type, so that equal references stand next to one another.
fn by_class(a: &Reference, b: &Reference) -> Ordering {
    (a.class, a.name_and_type, a.index).cmp(&(b.class, b.name_and_type, b.index))
}

/// The references to members of a class file, those to one class together.
fn references_by_class(alloc: Global, file: &ClassFile) -> Result<Vec<Reference>, AllocError> {
    let constants = file.constants();
    let mut references = Vec::with_capacity(alloc, constants.len())?;
    for (index, constant) in constants.iter().enumerate() {
        if let Some(reference) = reference_of(constant, index as u16) {
            references.push(reference)?;
        }
    }
    references.sort_unstable_by(|a, b| by_class(a, b));
    Ok(references)
}

/// What references to members of a class file stand for, by their indices, found before its other entries are looked
/// at.
#[derive(Drop)]
pub(crate) struct MembersAhead {
    held: Vec<Option<RuntimeConstant>>,
}

impl Model for MembersAhead {
    ghost use Rattle.std.specs.Prelude.{List, Option};
    ghost use Rattle.program.specs.declared.runtime_constant.RuntimeConstant.{RuntimeConstant as Held};

    ghost Value = { List (Option Held) };

    ghost view = { λ s. s.held.items };
}

impl MembersAhead {
    /// Nothing resolved, and no places.
    fn none(alloc: Global) -> Self
        ensures { (index : ℕ) → ahead_at result index ≡ None }
    {
        MembersAhead {
            held: Vec::new(alloc),
        }
    }

    /// Nothing resolved yet, with a place for each of `count` entries.
    fn new(alloc: Global, count: usize) -> Result<Self, AllocError>
        ensures { IfOk result (λ ahead. (index : ℕ) → ahead_at ahead index ≡ None) }
    {
        let held = vec![in alloc; None; count]?;
        Ok(MembersAhead { held })
    }

    /// What the reference at an index stands for, if it was found.
    pub(crate) fn at(&self, index: u16) -> Option<RuntimeConstant>
        ensures { result ≡ ahead_at self.now index }
    {
        match self.held.get(usize::from(index)) {
            Some(held) => *held,
            None => None,
        }
    }

    /// Notes what an entry stands for, if it has a place.
    fn set(&mut self, index: u16, held: RuntimeConstant)
        ensures { self.new ≡ slice_set self.old index (Some held) }
    {
        let place = usize::from(index);
        if place < self.held.len() {
            self.held[place] = Some(held);
        }
    }
}

/// What an entry stands for that is equal to one before, which was found.
fn equal_before(
    file: &ClassFile,
    before: Option<u16>,
    constant: &Constant,
    ahead: &MembersAhead,
) -> Option<RuntimeConstant>
    ensures { IfSome result (λ held. (i : ℕ) × (slice_get file.now.constants i ≡ Some constant.now)
        × (ahead_at ahead.now i ≡ Some held)) }
{
    let before = before?;
    if !stands_at(file, before, constant) {
        return None;
    }
    ahead.at(before)
}

impl Resolver<'_> {
    /// The members that the class file refers to. Those of one class are resolved one after the other, so that what
    /// stands above it is found once; of equal references the first is resolved. None where there are few.
    pub(crate) fn members_ahead(
        &self,
        alloc: Global,
        members: &mut MemberResolver<'_>,
    ) -> Result<MembersAhead, AllocError>
        requires members { members.old ≡ self.now.hierarchy.now }
        ensures ahead { IfOk result (AreAhead self.now.hierarchy.now.family self.now.file.now) }
        ensures kept { members.new ≡ members.old }
    {
        let references = references_by_class(alloc, self.file)?;
        if references.len() <= FEW {
            return Ok(MembersAhead::none(alloc));
        }
        let mut ahead = MembersAhead::new(alloc, self.file.constants().len())?;
        self.resolve_all(members, &references, &mut ahead)?;
        Ok(ahead)
    }

    /// Resolves references, of those that are equal and stand next to one another the first.
    fn resolve_all(
        &self,
        members: &mut MemberResolver<'_>,
        references: &[Reference],
        ahead: &mut MembersAhead,
    ) -> Result<(), AllocError>
        requires members { members.old ≡ self.now.hierarchy.now }
        requires ahead { AreAhead self.now.hierarchy.now.family self.now.file.now ahead.old }
        ensures ahead { OnOk result (AreAhead self.now.hierarchy.now.family self.now.file.now ahead.new) }
        ensures kept { members.new ≡ members.old }
    {
        let mut before = None;
        for reference in references {
            self.resolve_ahead(members, before, reference.index, ahead)?;
            before = Some(reference.index);
        }
        Ok(())
    }

    /// Notes what one more reference stands for, which is not resolved again if it is equal to the one before.
    fn resolve_ahead(
        &self,
        members: &mut MemberResolver<'_>,
        before: Option<u16>,
        index: u16,
        ahead: &mut MembersAhead,
    ) -> Result<(), AllocError>
        requires members { members.old ≡ self.now.hierarchy.now }
        requires ahead { AreAhead self.now.hierarchy.now.family self.now.file.now ahead.old }
        ensures ahead { OnOk result (AreAhead self.now.hierarchy.now.family self.now.file.now ahead.new) }
        ensures kept { members.new ≡ members.old }
    {
        let Some(constant) = self.file.constant(index) else {
            return Ok(());
        };
        let held = self.resolved_once(members, before, index, constant, ahead)?;
        ahead.set(index, held);
        Ok(())
    }

    /// What a reference stands for: the same as the one before, if they are equal.
    fn resolved_once(
        &self,
        members: &mut MemberResolver<'_>,
        before: Option<u16>,
        index: u16,
        constant: &Constant,
        ahead: &MembersAhead,
    ) -> Result<RuntimeConstant, AllocError>
        requires members { members.old ≡ self.now.hierarchy.now }
        requires ahead { AreAhead self.now.hierarchy.now.family self.now.file.now ahead.now }
        requires here { slice_get self.now.file.now.constants index ≡ Some constant.now }
        ensures held { IfOk result (IsResolved self.now.hierarchy.now.family self.now.file.now index constant.now) }
        ensures kept { members.new ≡ members.old }
    {
        match equal_before(self.file, before, constant, ahead) {
            Some(held) => Ok(held),
            None => self.resolved_now(members, index, constant),
        }
    }
}
