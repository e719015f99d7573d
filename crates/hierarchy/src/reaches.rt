//! Which classes are the nearest that declare a member, noted so that one is found by one search (JVMS 5.4.3.2,
//! 5.4.3.3; 6.5, invokevirtual).
//!
//! Classes stand so that those below a class follow it, all together. Along this order it is noted, for each name and
//! descriptor, where the nearest class that declares such a member changes: at a class that declares one, and where
//! the classes below one end.

ghost use Rattle.std.specs.Prelude.{◌≡◌, ◌⊎◌, ◌↔◌, IsTrue, ℕ, ◌<◌, ◌^◌, ◌++◌, ◌∷◌, [], List, length};
ghost use Rattle.std.specs.Prelude.{Option, Some, None, OnOk, ◌==◌, slice_index_or, if◌then◌else◌};
ghost use Rattle.built_in.specs.Keys.{NameAndType};
ghost use Rattle.hierarchy.specs.declared.member_key.MemberKey.{MemberKey as Key};
ghost use Rattle.hierarchy.specs.steps.MemberKeys.{AreNumbers};
ghost use Rattle.hierarchy.specs.steps.Reaches.{AllTell, EndsAt, IsLast, IsReachTable, StandsBehind, Tells};
ghost use Rattle.hierarchy.specs.steps.Reaches.{Nearest, NearestAbove, NearestFrom, reaches_of};
ghost use Rattle.hierarchy.specs.steps.DepthFirst.{IsDepthFirst, ArePlaces, StandOnce};
ghost use Rattle.loading.specs.Families.{IsFamily};
ghost use Rattle.hierarchy.specs.declared.member.DeclaredMember.{DeclaredMember as Found};
ghost use Rattle.hierarchy.specs.steps.NearestMembers.{IsEmpty};
ghost use Rattle.hierarchy.specs.steps.MemberTables.{IsTableOf};
ghost use Rattle.hierarchy.specs.steps.Sweeps.{AreNoted, Comes, ComesBehind, IsClassOrder, IsNoted, NotesMore};
ghost use Rattle.hierarchy.specs.steps.Sweeps.{came, counted, own_in};
ghost use Rattle.hierarchy.specs.steps.Sweeps.{members_by, members_in, members_of, members_of_file};

use crate::depth_first::given_superclass;
use crate::hierarchy::is_inherited;
use crate::member::DeclaredMember;
use crate::member_key::MemberKey;
use crate::reach_table::{Reach, ReachTable};
use crate::sweep::{ClassOrder, Sweep};
use crate::wanted::Wanted;
use classfile::{ClassFile, Member};
use loading::names::is_interface;
use std::alloc::{AllocError, Global};

impl Sweep<'_> {
    /// The nearest class that declares a member, from a class on that comes next and that has a place of its own or
    /// none.
    fn nearest(
        &self,
        rows: &ReachTable,
        key: MemberKey,
        class: u32,
        own: Option<u16>,
    ) -> Option<DeclaredMember>
        ensures { (name : NameAndType) (classes : List ℕ) (place : ℕ)
            → StandsBehind self.now.family.now self.now.places.now classes class place
            → Tells self.now.family.now (own_in self.now name) classes (reaches_of rows.now key)
            → own_in self.now name class ≡ own
            → Nearest self.now.family.now (own_in self.now name) class result }
    {
        if let Some(index) = own {
            return Some(DeclaredMember { class, index });
        }
        let above = given_superclass(self.family, class)?;
        rows.reaching(key, self.place(above))
    }

    /// The place of a class in the order.
    fn place(&self, class: u32) -> usize
        ensures { result ≡ slice_index_or self.now.places.now class 0 }
    {
        self.places.get(class as usize).copied().unwrap_or(0)
    }

    /// Notes what is the nearest from a class on that comes next, unless it was noted there. The class has a place of
    /// its own or none.
    fn note(
        &self,
        alloc: Global,
        rows: &mut ReachTable,
        key: MemberKey,
        class: u32,
        place: usize,
        own: Option<u16>,
    ) -> Result<(), AllocError>
        requires comes { Comes self.now rows.old class place }
        requires own { (name : NameAndType) → AreNumbers self.now.table.now.texts name key
            → IsNoted self.now place rows.old name ⊎ (own_in self.now name class ≡ own) }
        ensures notes { OnOk result (NotesMore self.now class place rows.old rows.new) }
        ensures noted { OnOk result (EndsAt (reaches_of rows.new key) place) }
    {
        if rows.ends_at(key, place) {
            return Ok(());
        }
        let nearest = self.nearest(rows, key, class, own);
        let reach = Reach {
            from: place,
            nearest,
        };
        rows.push(alloc, key, reach)?;
        Ok(())
    }
}

/// The members of a class file of the kind that counts.
fn members_of_file(wanted: Wanted, file: &ClassFile) -> &[Member]
    ensures value { result.now ≡ members_of_file wanted (Some file.now) }
    ensures count { length result.now < 2 ^ 16 }
{
    match wanted {
        Wanted::Field => file.fields(),
        Wanted::Method | Wanted::InstanceMethod => file.methods(),
        Wanted::InterfaceField if is_interface(file) => file.fields(),
        Wanted::InterfaceMethod if is_interface(file) => file.methods(),
        Wanted::InterfaceField | Wanted::InterfaceMethod => &[],
    }
}

/// The place of a member that a class itself declares, if its flags are those of the kind that counts.
fn own_place(wanted: Wanted, declaring: u32, class: u32, flags: u16, index: u16) -> Option<u16>
    ensures { result ≡ (if declaring == class then counted wanted flags index else None) }
{
    if declaring != class {
        return None;
    }
    match wanted {
        Wanted::Field | Wanted::InterfaceField | Wanted::Method => Some(index),
        Wanted::InstanceMethod | Wanted::InterfaceMethod if is_inherited(flags) => Some(index),
        Wanted::InstanceMethod | Wanted::InterfaceMethod => None,
    }
}

impl Sweep<'_> {
    /// The members of a class of the kind that counts.
    fn members(&self, class: u32) -> &[Member]
        ensures value { result.now ≡ members_in self.now.wanted self.now.family.now class }
        ensures count { length result.now < 2 ^ 16 }
    {
        match self.family.file(class) {
            Some(file) => members_of_file(self.wanted, file),
            None => &[],
        }
    }

    /// Notes the members that a class declares, or one that was left. The class's own come first, and where two are
    /// alike, the first.
    fn note_class(
        &self,
        alloc: Global,
        rows: &mut ReachTable,
        declaring: u32,
        class: u32,
        place: usize,
    ) -> Result<(), AllocError>
        requires comes { Comes self.now rows.old class place }
        requires own { (declaring ≡ class) ⊎ AreNoted self.now place rows.old class }
        ensures notes { OnOk result (NotesMore self.now class place rows.old rows.new) }
        ensures noted { OnOk result (AreNoted self.now place rows.new declaring) }
    {
        let Some(pool) = self.table.pool(declaring) else {
            return Ok(());
        };
        let members = self.members(declaring);
        for (index, member) in members.iter().enumerate() {
            let key = pool.key(member.name, member.descriptor);
            let flags = member.access_flags;
            let own = own_place(self.wanted, declaring, class, flags, index as u16);
            self.note(alloc, rows, key, class, place, own)?;
        }
        Ok(())
    }

    /// Notes the members of the classes that end before a class: from the one before it up to its superclass.
    fn leave(
        &self,
        alloc: Global,
        rows: &mut ReachTable,
        before: Option<u32>,
        class: u32,
        place: usize,
    ) -> Result<(), AllocError>
        requires behind { ComesBehind self.now rows.old before class place }
        requires own { AreNoted self.now place rows.old class }
        ensures notes { OnOk result (NotesMore self.now class place rows.old rows.new) }
        ensures left { OnOk result ((name : NameAndType) → IsNoted self.now place rows.new name
            ⊎ ((r : Option Found) → NearestFrom self.now.family.now (own_in self.now name) before r
            → NearestAbove self.now.family.now (own_in self.now name) class r)) }
    {
        let to = given_superclass(self.family, class);
        let mut at = before;
        loop {
            let Some(left) = at else {
                return Ok(());
            };
            if is_class(to, left) {
                return Ok(());
            }
            self.note_class(alloc, rows, left, class, place)?;
            at = given_superclass(self.family, left);
        }
    }

    /// Notes what changes at a class that comes next.
    fn enter(
        &self,
        alloc: Global,
        rows: &mut ReachTable,
        before: Option<u32>,
        class: u32,
        place: usize,
    ) -> Result<(), AllocError>
        requires behind { ComesBehind self.now rows.old before class place }
        requires last { IsLast (came self.now place) before }
        ensures rows { OnOk result (IsReachTable rows.new) }
        ensures tell { OnOk result (AllTell (members_of self.now) (came self.now place ++ class ∷ []) rows.new) }
    {
        self.note_class(alloc, rows, class, class, place)?;
        self.leave(alloc, rows, before, class, place)?;
        Ok(())
    }
}

/// Whether it is this class.
fn is_class(class: Option<u32>, other: u32) -> bool
    ensures { IsTrue result ↔ (class ≡ Some other) }
{
    match class {
        Some(class) => class == other,
        None => false,
    }
}

impl Sweep<'_> {
    /// Notes what changes at each class in order.
    fn note_order(&self, alloc: Global, rows: &mut ReachTable) -> Result<(), AllocError>
        requires family { IsFamily self.now.family.now }
        requires fits { IsTableOf self.now.family.now self.now.table.now }
        requires order { IsDepthFirst self.now.family.now None self.now.order.now }
        requires places { ArePlaces self.now.order.now self.now.places.now }
        requires once { StandOnce self.now.order.now }
        requires rows { IsReachTable rows.old }
        requires empty { (key : Key) → reaches_of rows.old key ≡ [] }
        ensures { OnOk result (AllTell (members_of self.now) self.now.order.now rows.new) }
    {
        let mut before = None;
        for (place, class) in self.order.iter().enumerate() {
            self.enter(alloc, rows, before, *class, place)?;
            before = Some(*class);
        }
        Ok(())
    }
}

impl ClassOrder<'_> {
    /// Notes the nearest classes that declare members of a kind, along all classes of a family.
    pub(crate) fn note(
        &self,
        alloc: Global,
        wanted: Wanted,
        rows: &mut ReachTable,
    ) -> Result<(), AllocError>
        requires order { IsClassOrder self.now }
        requires empty { IsEmpty rows.old }
        ensures { OnOk result (AllTell (members_by wanted self.now.family.now self.now.table.now) self.now.order.now
            rows.new) }
    {
        let _classes = self.family.classes();
        let sweep = Sweep {
            family: self.family,
            table: self.table,
            wanted,
            order: self.order,
            places: self.places,
        };
        sweep.note_order(alloc, rows)
    }
}
