//! The nearest members along superclasses, found by numbers (JVMS 5.4.3.2, 5.4.3.3; 6.5, invokevirtual).

ghost use Rattle.std.specs.Prelude.{◌≡◌, ◌<◌, ◌≤◌, ℕ, None, Some, IsTrue, length, slice_get, IfOk, OnOk};
ghost use Rattle.built_in.specs.Keys.{NameAndType};
ghost use Rattle.hierarchy.specs.steps.MemberKeys.{AreNumbers};
ghost use Rattle.hierarchy.specs.steps.MemberTables.{IsTableOf};
ghost use Rattle.loading.specs.Families.{Family as Classes};
ghost use Rattle.hierarchy.specs.declared.member_table.MemberTable.{MemberTable as Table};
ghost use Rattle.hierarchy.specs.steps.HierarchyTables.{wanted_in};
ghost use Rattle.hierarchy.specs.steps.Sweeps.{IsClassOrder};
ghost use Rattle.std.specs.List.{Contains};
ghost use Rattle.hierarchy.specs.steps.Reaches.{Nearest, classes_noted};
ghost use Rattle.hierarchy.specs.declared.wanted.Wanted.{Wanted as Kind};
ghost use Rattle.hierarchy.specs.steps.NearestMembers.{AreNearest, AllAreTold, IsEmpty, own_part, rows_of};

use crate::depth_first::{depth_first, places_in};
use crate::member::DeclaredMember;
use crate::member_key::MemberKey;
use crate::member_table::MemberTable;
use crate::reach_table::{Reach, ReachTable};
use crate::sweep::ClassOrder;
use crate::tops::{top_in, tops_of};
use crate::wanted::Wanted;
use built_in::class_id::BuiltIn;
use loading::family::Family;
use std::alloc::{AllocError, Global};

/// What the nearest members along superclasses are found by.
pub(crate) struct NearestMembers {
    /// By class: its place in an order in which those below a class stand together.
    places: Vec<usize>,
    /// By class: the built-in class at the end of its chain of superclasses.
    tops: Vec<BuiltIn>,
    reaches: Reaches,
}

// By hand, since a derived one is proved anew wherever one is let go.
impl Drop for NearestMembers {
    fn drop(self) {
        let NearestMembers {
            places: _,
            tops: _,
            reaches: _,
        } = self;
    }
}

/// How far the nearest members reach, by kind.
pub(crate) struct Reaches {
    fields: ReachTable,
    /// Of the fields of interfaces.
    interface_fields: ReachTable,
    methods: ReachTable,
    /// Of the methods that are neither private nor static.
    instance_methods: ReachTable,
    /// Of such methods of interfaces.
    interface_methods: ReachTable,
}

// By hand, since a derived one is proved anew wherever one is let go.
impl Drop for Reaches {
    fn drop(self) {
        let Reaches {
            fields: _,
            interface_fields: _,
            methods: _,
            instance_methods: _,
            interface_methods: _,
        } = self;
    }
}

impl NearestMembers {
    /// The nearest members of a family.
    pub(crate) fn of_family(
        alloc: Global,
        family: &Family,
        table: &MemberTable,
    ) -> Result<Self, AllocError>
        requires { IsTableOf family.now table.now }
        ensures { IfOk result (AreNearest family.now table.now) }
    {
        let order = depth_first(alloc, family)?;
        let order = order.as_slice();
        let places = places_in(alloc, order, family.classes().len())?;
        let tops = tops_of(alloc, family)?;
        let classes = ClassOrder {
            family,
            table,
            order,
            places: &places,
        };
        let reaches = Reaches::along(alloc, &classes)?;
        Ok(NearestMembers {
            places,
            tops,
            reaches,
        })
    }
}

impl Reaches {
    /// The reaches of classes in an order.
    fn along(alloc: Global, classes: &ClassOrder) -> Result<Self, AllocError>
        requires { IsClassOrder classes.now }
        ensures { IfOk result (AllAreTold classes.now.family.now classes.now.table.now classes.now.order.now) }
    {
        let mut reaches = Reaches::nowhere(alloc);
        match reaches.note(alloc, classes) {
            Ok(()) => Ok(reaches),
            Err(error) => Err(error),
        }
    }

    /// No class is noted yet.
    fn nowhere(alloc: Global) -> Self
        ensures { (kind : Kind) → IsEmpty (rows_of kind result) }
    {
        Reaches {
            fields: ReachTable::new(alloc),
            interface_fields: ReachTable::new(alloc),
            methods: ReachTable::new(alloc),
            instance_methods: ReachTable::new(alloc),
            interface_methods: ReachTable::new(alloc),
        }
    }

    /// Notes those of each kind.
    fn note(&mut self, alloc: Global, classes: &ClassOrder) -> Result<(), AllocError>
        requires order { IsClassOrder classes.now }
        requires empty { (kind : Kind) → IsEmpty (rows_of kind self.old) }
        ensures { OnOk result (AllAreTold classes.now.family.now classes.now.table.now classes.now.order.now self.new) }
    {
        classes.note(alloc, Wanted::Field, &mut self.fields)?;
        classes.note(alloc, Wanted::InterfaceField, &mut self.interface_fields)?;
        classes.note(alloc, Wanted::Method, &mut self.methods)?;
        classes.note(alloc, Wanted::InstanceMethod, &mut self.instance_methods)?;
        classes.note(alloc, Wanted::InterfaceMethod, &mut self.interface_methods)?;
        Ok(())
    }

    /// The rows of a kind of members.
    fn rows(&self, wanted: Wanted) -> &ReachTable
        ensures { result.now ≡ rows_of wanted self.now }
    {
        match wanted {
            Wanted::Field => &self.fields,
            Wanted::InterfaceField => &self.interface_fields,
            Wanted::Method => &self.methods,
            Wanted::InstanceMethod => &self.instance_methods,
            Wanted::InterfaceMethod => &self.interface_methods,
        }
    }
}

impl NearestMembers {
    /// Whether no class declares a member of a kind.
    pub(crate) fn is_undeclared(&self, wanted: Wanted, key: MemberKey) -> bool
        ensures { (family : Classes) (table : Table) (name : NameAndType) (class : ℕ) → AreNearest family table self.now
            → AreNumbers table.texts name key → IsTrue result → wanted_in wanted family name class ≡ None }
    {
        self.reaches.rows(wanted).lacks(key)
    }

    /// The reaches of a kind of members that were noted for a key. Each class that declares such a member is named
    /// there.
    pub(crate) fn noted(&self, wanted: Wanted, key: MemberKey) -> &[Reach]
        ensures { (family : Classes) (table : Table) (name : NameAndType) (class k : ℕ)
            → AreNearest family table self.now → AreNumbers table.texts name key
            → wanted_in wanted family name class ≡ Some k → Contains (classes_noted result.now) class }
    {
        self.reaches.rows(wanted).row(key)
    }

    /// The nearest class, from one upwards, that declares a member of a kind.
    pub(crate) fn nearest(
        &self,
        wanted: Wanted,
        class: u32,
        key: MemberKey,
    ) -> Option<DeclaredMember>
        ensures nearest { (family : Classes) (table : Table) (name : NameAndType) → AreNearest family table self.now
            → AreNumbers table.texts name key → class < length family
            → Nearest family (wanted_in wanted family name) class result }
        ensures past { length self.now.places.items ≤ class → result ≡ None }
    {
        let place = *self.places.get(class as usize)?;
        self.reaches.rows(wanted).reaching(key, place)
    }

    /// The place of a class's member of a kind.
    pub(crate) fn own(&self, wanted: Wanted, class: u32, key: MemberKey) -> Option<u16>
        ensures { (family : Classes) (table : Table) (name : NameAndType) → AreNearest family table self.now
            → AreNumbers table.texts name key → result ≡ wanted_in wanted family name class }
    {
        own_of(class, self.nearest(wanted, class, key))
    }

    /// The built-in class above a class.
    pub(crate) fn top(&self, class: u32) -> Option<BuiltIn>
        ensures { result ≡ slice_get self.now.tops.items class }
    {
        top_in(&self.tops, class)
    }
}

/// The place of a member, if a class declares it itself.
fn own_of(class: u32, nearest: Option<DeclaredMember>) -> Option<u16>
    ensures { result ≡ own_part class nearest }
{
    match nearest {
        Some(member) if member.class == class => Some(member.index),
        _ => None,
    }
}
