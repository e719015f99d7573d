//! What is initialized before each class (JVMS 5.5, step 7).

ghost use Rattle.std.specs.Prelude.{◌≡◌, ℕ, ◌<◌, ◌≤◌, ◌^◌, length, IfOk, OnOk};
ghost use Rattle.std.specs.List.{All};
ghost use Rattle.graph.specs.Rows.{IsClosed};
ghost use Rattle.loading.specs.Families.{IsFamily, AreParentsWithin, interfaces_in, superclasses_in};
ghost use Rattle.hierarchy.specs.Initialization.{IsInitializationOrder};
ghost use Rattle.hierarchy.specs.steps.InterfaceOrders.{AreShort, Gathers, TellFirst};
ghost use Rattle.hierarchy.specs.steps.Ascents.{KeepsRoom};
ghost use Rattle.hierarchy.specs.Search.{row_in};

use crate::ascent::Ascent;
use crate::class_lists::{ClassLists, empty_lists};
use crate::initialized_first::{add_flagged, initialized_first};
use crate::short_orders::{ShortOrders, gather};
use loading::family::Family;
use loading::given::{ClassNumbers, Superclass};
use std::alloc::{AllocError, Global};

/// For each class what is initialized before it. Before an interface that is nothing. Before a class it is its given
/// superclass, and then, of its direct superinterfaces and all above them, those that declare a method that is neither
/// abstract nor static, each once and after its own superinterfaces.
///
/// # Errors
/// Where memory runs out.
pub fn initialization_orders(alloc: Global, family: &Family) -> Result<ClassLists, AllocError>
    ensures len { IfOk result (λ rows. length rows ≡ length family.now) }
    ensures orders { IfOk result (λ rows. (c : ℕ) → c < length family.now → IsInitializationOrder family.now c
        (row_in rows c)) }
{
    let first = initialized_first(alloc, family)?;
    let mut ascent = Ascent::new(alloc, family.classes().len())?;
    let short = ShortOrders::new(alloc, family, first.as_slice(), &mut ascent)?;
    orders_of(alloc, family, first.as_slice(), &short, &mut ascent)
}

/// The orders of the classes of a family.
fn orders_of(
    alloc: Global,
    family: &Family,
    first: &[bool],
    short: &ShortOrders,
    ascent: &mut Ascent,
) -> Result<ClassLists, AllocError>
    requires first { TellFirst family.now first.now }
    requires short { AreShort family.now short.now.rows.items }
    requires entered { ascent.old.entered.limit ≡ length family.now }
    requires left { ascent.old.left.limit ≡ length family.now }
    ensures len { IfOk result (λ rows. length rows ≡ length family.now) }
    ensures orders { IfOk result (λ rows. (c : ℕ) → c < length family.now → IsInitializationOrder family.now c
        (row_in rows c)) }
{
    let mut rows = empty_lists(alloc, family.classes().len())?;
    fill_orders(alloc, family, first, short, ascent, &mut rows)?;
    Ok(ClassLists { rows })
}

/// Gives each class its order.
fn fill_orders(
    alloc: Global,
    family: &Family,
    first: &[bool],
    short: &ShortOrders,
    ascent: &mut Ascent,
    rows: &mut Vec<ClassNumbers>,
) -> Result<(), AllocError>
    requires fits { IsFamily family.now }
    requires parents { AreParentsWithin family.now }
    requires first { TellFirst family.now first.now }
    requires short { AreShort family.now short.now.rows.items }
    requires entered { ascent.old.entered.limit ≡ length family.now }
    requires left { ascent.old.left.limit ≡ length family.now }
    requires len { length rows.old.items ≡ length family.now }
    requires closed { IsClosed rows.old.items }
    ensures len { OnOk result (length rows.new.items ≡ length family.now) }
    ensures closed { OnOk result (IsClosed rows.new.items) }
    ensures orders { OnOk result ((c : ℕ) → c < length family.now
        → IsInitializationOrder family.now c (row_in rows.new.items c)) }
{
    let order = family.parents_first();
    for class in order {
        let row = order_of(alloc, family, *class, first, short, ascent)?;
        rows[*class as usize] = row;
    }
    Ok(())
}

/// What is initialized before a class.
fn order_of(
    alloc: Global,
    family: &Family,
    class: u32,
    first: &[bool],
    short: &ShortOrders,
    ascent: &mut Ascent,
) -> Result<ClassNumbers, AllocError>
    requires fits { IsFamily family.now }
    requires parents { AreParentsWithin family.now }
    requires few { length family.now ≤ 2 ^ 32 }
    requires first { TellFirst family.now first.now }
    requires short { AreShort family.now short.now.rows.items }
    requires entered { ascent.old.entered.limit ≡ length family.now }
    requires left { ascent.old.left.limit ≡ length family.now }
    ensures room { KeepsRoom ascent.old ascent.new }
    ensures order { IfOk result (λ order. IsInitializationOrder family.now class order) }
    ensures within { IfOk result (All (λ c. c < length family.now)) }
{
    if family.is_interface(class) {
        return Ok(ClassNumbers::new(Vec::new(alloc)));
    }
    let mut order = superclass_alone(alloc, family, class)?;
    leave_above(family, class, short, ascent)?;
    add_flagged(ascent.left(), first, &mut order)?;
    Ok(ClassNumbers::new(order))
}

/// The superclass of a class, if it is given, and nothing else.
fn superclass_alone(alloc: Global, family: &Family, class: u32) -> Result<Vec<u32>, AllocError>
    ensures value { IfOk result (λ numbers. numbers.items ≡ superclasses_in family.now class) }
    ensures within { IfOk result (λ numbers. All (λ c. c < length family.now) numbers.items) }
{
    let mut numbers = Vec::new(alloc);
    let Some(Superclass::Given(superclass)) = family.superclass(class) else {
        return Ok(numbers);
    };
    numbers.push(superclass)?;
    Ok(numbers)
}

/// Has an ascent leave what is initialized of the direct superinterfaces of a class and those above them: from the
/// lists
/// that they keep or, where one keeps none, by an ascent through all that stands above.
fn leave_above(
    family: &Family,
    class: u32,
    short: &ShortOrders,
    ascent: &mut Ascent,
) -> Result<(), AllocError>
    requires fits { IsFamily family.now }
    requires parents { AreParentsWithin family.now }
    requires short { AreShort family.now short.now.rows.items }
    requires entered { ascent.old.entered.limit ≡ length family.now }
    requires left { ascent.old.left.limit ≡ length family.now }
    ensures room { KeepsRoom ascent.old ascent.new }
    ensures gathered { OnOk result
        (Gathers family.now (interfaces_in family.now class) ascent.new.left.items) }
{
    if gather(family, class, short.rows.as_slice(), ascent)? {
        return Ok(());
    }
    ascent.above(family, family.interfaces(class))
}
