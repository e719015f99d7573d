//! The slots of objects, in which they hold the values of their fields (JVMS 2.7).

ghost use Rattle.std.specs.Prelude.{◌≡◌, ◌<◌, ◌≤◌, ◌^◌, ℕ, [], length, Some, IfOk, IfSome, slice_get};
ghost use Rattle.std.specs.Prelude.{if◌then◌else◌, slice_index_or};
ghost use Rattle.loading.specs.declared.given.Superclass.TheVariants as super;
ghost use Rattle.loading.specs.Families.{superclass_in};
ghost use Rattle.program.specs.InstanceFields.{added_slots, slots_of, slots_before, built_in_kinds, is_enum};
ghost use Rattle.program.specs.steps.Slots.{AreAddedBy, IsChain, AreChains, AreSlots, chain_in, no_chain, slots_above};
ghost use Rattle.program.specs.steps.Slots.{slots_if};

use crate::instance_fields::{FieldKinds, added_slots_of, is_enum};
use crate::objects::zeros_of_all;
use crate::runtime_constant::FieldKind;
use built_in::class_id::BuiltIn;
use loading::family::Family;
use loading::given::Superclass;
use std::alloc::{AllocError, Global};
use std::marker::Model;
use vm_state::object::Slots;

/// How many slots the objects of a class have, and which class is the nearest that adds some, itself or a superclass.
#[derive(Clone, Copy)]
pub(crate) struct SlotChain {
    pub(crate) count: u32,
    pub(crate) nearest: Option<u32>,
}

impl SlotChain {
    /// No slots.
    const NONE: SlotChain = SlotChain {
        count: 0,
        nearest: None,
    };
}

/// The slots of the objects of all classes.
pub(crate) struct SlotTable {
    /// By class: those that it adds to those of its given superclass.
    added: Vec<FieldKinds>,
    chains: Vec<SlotChain>,
    /// By class, where its objects have few slots: what they hold as they are made.
    zeros: Vec<Option<Slots>>,
}

impl Model for SlotTable {
    ghost use Rattle.program.specs.steps.Slots.{SlotTables};

    ghost Value = { SlotTables };

    ghost view = { λ s. record {
      added = s.added.items;
      chains = s.chains.items;
      zeros = s.zeros.items;
    } };
}

// By hand, since a derived one is proved anew wherever they are let go.
impl Drop for SlotTable {
    fn drop(self) {
        let SlotTable {
            added: _,
            chains: _,
            zeros: _,
        } = self;
    }
}

impl SlotTable {
    /// The slots of the classes of a family.
    pub(crate) fn of_family(alloc: Global, family: &Family) -> Result<SlotTable, AllocError>
        ensures { IfOk result (AreSlots family.now) }
    {
        let added = added_slots_of(alloc, family.classes())?;
        let tables = with_chains(alloc, family, added)?;
        let zeros = zeros_of_all(alloc, family, &tables)?;
        Ok(tables.with_zeros(zeros))
    }

    /// With what objects of the classes hold as they are made.
    fn with_zeros(self, zeros: Vec<Option<Slots>>) -> SlotTable
        ensures { result ≡ record self { zeros = zeros.items } }
    {
        let SlotTable {
            added,
            chains,
            zeros: _,
        } = self;
        SlotTable {
            added,
            chains,
            zeros,
        }
    }

    /// What objects of a class hold as they are made, if that is kept.
    #[inline(always)]
    pub(crate) fn zeros(&self, class: u32) -> Option<&Slots>
        ensures { IfSome result (λ slots. slice_get self.now.zeros class ≡ Some (Some slots.now)) }
    {
        match self.zeros.get(class as usize) {
            Some(Some(slots)) => Some(slots),
            _ => None,
        }
    }

    /// The slots that a class adds to those of its given superclass.
    pub(crate) fn added(&self, class: u32) -> &[FieldKind]
        ensures { result.now ≡ slice_index_or self.now.added class [] }
    {
        added_at(&self.added, class)
    }

    /// How many slots the objects of a class have, and from which class on.
    pub(crate) fn chain(&self, class: u32) -> SlotChain
        ensures { result ≡ chain_in self.now.chains class }
    {
        chain_at(&self.chains, class)
    }

    /// The chain of slots of the given superclass of a class.
    pub(crate) fn above(&self, family: &Family, class: u32) -> SlotChain
        requires { AreSlots family.now self.now }
        ensures { IsChain family.now (slots_above family.now class) result }
    {
        chain_above(family, &self.chains, class)
    }

    /// How many slots stand before those of a class's own fields.
    pub(crate) fn before(&self, family: &Family, class: u32) -> u32
        requires { AreSlots family.now self.now }
        ensures value { result ≡ length (slots_before family.now class) }
        ensures few { length (slots_of family.now class) < 2 ^ 32 }
    {
        let _classes = family.classes();
        let above = self.above(family, class);
        above.count + built_in_count(family.superclass(class))
    }
}

/// How many slots objects have of a built-in superclass.
fn built_in_count(superclass: Option<Superclass>) -> u32
    ensures { result ≡ length (built_in_kinds superclass) }
{
    match superclass {
        Some(Superclass::BuiltIn(class)) => enum_count(class),
        _ => 0,
    }
}

/// How many slots objects have of a built-in class.
fn enum_count(class: BuiltIn) -> u32
    ensures { result ≡ (if is_enum class then 2 else 0) }
{
    if is_enum(class) { 2 } else { 0 }
}

/// The slots of the classes of a family, from those that each class adds.
fn with_chains(
    alloc: Global,
    family: &Family,
    added: Vec<FieldKinds>,
) -> Result<SlotTable, AllocError>
    requires { AreAddedBy family.now added.items }
    ensures { IfOk result (AreSlots family.now) }
{
    match chains_of(alloc, family, added.as_slice()) {
        Ok(chains) => Ok(SlotTable {
            added,
            chains,
            zeros: Vec::new(alloc),
        }),
        Err(error) => Err(error),
    }
}

/// The chain of each class.
fn chains_of(
    alloc: Global,
    family: &Family,
    added: &[FieldKinds],
) -> Result<Vec<SlotChain>, AllocError>
    requires { AreAddedBy family.now added.now }
    ensures { IfOk result (λ chains. AreChains family.now chains.items) }
{
    let mut chains = vec![in alloc; SlotChain::NONE; family.classes().len()]?;
    find_chains(family, added, &mut chains);
    Ok(chains)
}

/// Finds the chain of each class, that of its superclass first.
fn find_chains(family: &Family, added: &[FieldKinds], chains: &mut Vec<SlotChain>)
    requires added { AreAddedBy family.now added.now }
    requires count { length chains.old.items ≡ length family.now }
    ensures { AreChains family.now chains.new.items }
{
    let _classes = family.classes();
    let order = family.parents_first();
    for class in order {
        let chain = chain_of(family, added, chains, *class);
        chains[*class as usize] = chain;
    }
}

/// The chain of a class, from that of its given superclass.
fn chain_of(family: &Family, added: &[FieldKinds], chains: &[SlotChain], class: u32) -> SlotChain
    requires added { AreAddedBy family.now added.now }
    requires above { (d : ℕ) → superclass_in family.now class ≡ Some (super.Given d)
        → IsChain family.now (slots_of family.now d) (chain_in chains.now d) }
    ensures { IsChain family.now (slots_of family.now class) result }
{
    let _classes = family.classes();
    let above = chain_above(family, chains, class);
    let more = added_count(family, added, class);
    if more == 0 {
        return above;
    }
    SlotChain {
        count: above.count + more,
        nearest: Some(class),
    }
}

/// The chain of the given superclass of a class.
fn chain_above(family: &Family, chains: &[SlotChain], class: u32) -> SlotChain
    requires { (d : ℕ) → superclass_in family.now class ≡ Some (super.Given d)
        → IsChain family.now (slots_of family.now d) (chain_in chains.now d) }
    ensures { IsChain family.now (slots_above family.now class) result }
{
    match family.superclass(class) {
        Some(Superclass::Given(superclass)) => chain_at(chains, superclass),
        _ => SlotChain::NONE,
    }
}

/// The chain of a class, if it was found.
fn chain_at(chains: &[SlotChain], class: u32) -> SlotChain
    ensures { result ≡ chain_in chains.now class }
{
    match chains.get(class as usize) {
        Some(chain) => *chain,
        None => SlotChain::NONE,
    }
}

/// The slots that a class adds to those of its given superclass.
fn added_at(added: &[FieldKinds], class: u32) -> &[FieldKind]
    ensures { result.now ≡ slice_index_or added.now class [] }
{
    match added.get(class as usize) {
        Some(kinds) => kinds.as_slice(),
        None => &[],
    }
}

/// How many these are.
fn added_count(family: &Family, added: &[FieldKinds], class: u32) -> u32
    requires { AreAddedBy family.now added.now }
    ensures { result ≡ length (added_slots family.now class) }
{
    added_at(added, class).len() as u32
}
