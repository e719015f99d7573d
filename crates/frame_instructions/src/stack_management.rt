//! Instructions that rearrange the operand stack alone (JVMS 2.11.6, and 6.5, `pop` to `swap`). After a fault the stack
//! is as it was.

ghost use Rattle.std.specs.Prelude.{◌≡◌, OnErr, OnOk, IfOk, Some, None};
ghost use Rattle.vm_state.specs.Operands.{top, rest, dropped, all_pushed};
ghost use Rattle.frame_instructions.specs.Rearranging.{is_category_1, values_of, count_of, group_of, without};
ghost use Rattle.frame_instructions.specs.Rearranging.{removed, doubled, put_under, doubled_under, exchanged};
ghost use Rattle.frame_instructions.specs.Rearranging.{rearranged};

use bytecode::StackOperation;
use vm_state::cells::Cells;
use vm_state::value::{Fault, Value};

/// How many places of an operand stack are moved together (JVMS 2.6.2).
#[derive(Clone, Copy)]
pub(crate) enum Places {
    One,
    Two,
}

/// The values of some places, the lower one first: one of either category, or two of category 1 (JVMS 2.11.1).
#[derive(Clone, Copy)]
pub(crate) enum Group {
    Single(Value),
    Pair(Value, Value),
}

impl Group {
    /// How many values it has.
    #[inline(always)]
    fn count(self) -> u8
        ensures { result ≡ count_of self }
    {
        match self {
            Group::Single(_) => 1,
            Group::Pair(_, _) => 2,
        }
    }
}

/// Whether a value is of category 1, which takes one place (JVMS 2.11.1).
#[inline(always)]
fn is_category_1(value: Value) -> bool
    ensures { result ≡ is_category_1 value }
{
    value.places() == 1
}

/// The value below `others` others and one more.
#[tactic(auto, using(vm_state::proofs::OperandLemmas::dropped_more))]
#[inline(always)]
fn next_below(cells: &Cells, others: u8) -> Result<Value, Fault>
    ensures ok { IfOk result (λ v. top (rest (dropped others cells.now.operands)) ≡ Some v) }
    ensures err { OnErr result (top (rest (dropped others cells.now.operands)) ≡ None) }
{
    cells.below(others as usize + 1)
}

/// The group of these places below `others` values.
#[tactic(auto, unfolding(crate::specs::Rearranging::group_of))]
#[inline(always)]
fn group_of(cells: &Cells, places: Places, others: u8) -> Result<Group, Fault>
    ensures ok { IfOk result (λ g. group_of places (dropped others cells.now.operands) ≡ Some g) }
    ensures err { OnErr result (group_of places (dropped others cells.now.operands) ≡ None) }
{
    let upper = cells.below(others as usize)?;
    match places {
        Places::One if is_category_1(upper) => Ok(Group::Single(upper)),
        Places::One => Err(Fault),
        Places::Two if is_category_1(upper) => {
            let lower = next_below(cells, others)?;
            if !is_category_1(lower) {
                return Err(Fault);
            }
            Ok(Group::Pair(lower, upper))
        }
        Places::Two => Ok(Group::Single(upper)),
    }
}

/// Takes off the group on top: `pop` and `pop2`.
#[inline(always)]
fn remove(cells: &mut Cells, places: Places) -> Result<(), Fault>
    ensures ok { OnOk result (removed places cells.old.operands ≡ Some cells.new.operands) }
    ensures err { OnErr result (removed places cells.old.operands ≡ None) }
    ensures locals { cells.new.locals ≡ cells.old.locals }
    ensures same { OnErr result (cells.new ≡ cells.old) }
{
    let group = group_of(cells, places, 0)?;
    cells.drop_top();
    if let Group::Pair(_, _) = group {
        cells.drop_top();
    }
    Ok(())
}

/// Pushes the group on top once more: `dup` and `dup2`.
#[tactic(auto, unfolding(vm_state::specs::Operands::all_pushed))]
#[inline(always)]
fn double(cells: &mut Cells, places: Places) -> Result<(), Fault>
    ensures ok { OnOk result (doubled places cells.old.operands ≡ Some cells.new.operands) }
    ensures err { OnErr result (doubled places cells.old.operands ≡ None) }
    ensures locals { cells.new.locals ≡ cells.old.locals }
    ensures same { OnErr result (cells.new ≡ cells.old) }
{
    match group_of(cells, places, 0)? {
        Group::Single(a) => cells.push(a),
        Group::Pair(b, a) => cells.replace(0, &[b, a]),
    }
}

/// Puts the value on top once more under the group below it.
fn put_under(cells: &mut Cells, a: Value, lower: Group) -> Result<(), Fault>
    ensures ok { OnOk result (put_under (Group.Single a) lower cells.old.operands ≡ Some cells.new.operands) }
    ensures err { OnErr result (put_under (Group.Single a) lower cells.old.operands ≡ None) }
    ensures locals { cells.new.locals ≡ cells.old.locals }
    ensures same { OnErr result (cells.new ≡ cells.old) }
{
    match lower {
        Group::Single(b) => cells.replace(2, &[a, b, a]),
        Group::Pair(c, b) => cells.replace(3, &[a, c, b, a]),
    }
}

/// Puts the two values on top once more under the group below them.
fn put_two_under(cells: &mut Cells, b: Value, a: Value, lower: Group) -> Result<(), Fault>
    ensures ok { OnOk result (put_under (Group.Pair b a) lower cells.old.operands ≡ Some cells.new.operands) }
    ensures err { OnErr result (put_under (Group.Pair b a) lower cells.old.operands ≡ None) }
    ensures locals { cells.new.locals ≡ cells.old.locals }
    ensures same { OnErr result (cells.new ≡ cells.old) }
{
    match lower {
        Group::Single(c) => cells.replace(3, &[b, a, c, b, a]),
        Group::Pair(d, c) => cells.replace(4, &[b, a, d, c, b, a]),
    }
}

/// Puts the group on top once more under the one below it: `dup_x1` to `dup2_x2`.
fn double_under(cells: &mut Cells, places: Places, below: Places) -> Result<(), Fault>
    ensures ok { OnOk result (doubled_under places below cells.old.operands ≡ Some cells.new.operands) }
    ensures err { OnErr result (doubled_under places below cells.old.operands ≡ None) }
    ensures locals { cells.new.locals ≡ cells.old.locals }
    ensures same { OnErr result (cells.new ≡ cells.old) }
{
    let group = group_of(cells, places, 0)?;
    let lower = group_of(cells, below, group.count())?;
    match group {
        Group::Single(a) => put_under(cells, a, lower),
        Group::Pair(b, a) => put_two_under(cells, b, a, lower),
    }
}

/// Exchanges the two values on top, both of category 1.
#[tactic(auto, unfolding(crate::specs::Rearranging::group_of))]
fn swap(cells: &mut Cells) -> Result<(), Fault>
    ensures ok { OnOk result (exchanged cells.old.operands ≡ Some cells.new.operands) }
    ensures err { OnErr result (exchanged cells.old.operands ≡ None) }
    ensures locals { cells.new.locals ≡ cells.old.locals }
    ensures same { OnErr result (cells.new ≡ cells.old) }
{
    let upper = cells.top()?;
    if !is_category_1(upper) {
        return Err(Fault);
    }
    let lower = cells.second()?;
    if !is_category_1(lower) {
        return Err(Fault);
    }
    cells.replace(2, &[upper, lower])
}

/// Rearranges an operand stack.
///
/// # Errors
/// `Fault` where the stack has too few values, the wrong categories, or no room. Then it is as it was.
#[inline(always)]
pub fn rearrange(cells: &mut Cells, operation: StackOperation) -> Result<(), Fault>
    ensures ok { OnOk result (rearranged operation cells.old.operands ≡ Some cells.new.operands) }
    ensures err { OnErr result (rearranged operation cells.old.operands ≡ None) }
    ensures locals { cells.new.locals ≡ cells.old.locals }
    ensures same { OnErr result (cells.new ≡ cells.old) }
{
    match operation {
        StackOperation::Pop => remove(cells, Places::One),
        StackOperation::Pop2 => remove(cells, Places::Two),
        StackOperation::Dup => double(cells, Places::One),
        StackOperation::DupX1 => double_under(cells, Places::One, Places::One),
        StackOperation::DupX2 => double_under(cells, Places::One, Places::Two),
        StackOperation::Dup2 => double(cells, Places::Two),
        StackOperation::Dup2X1 => double_under(cells, Places::Two, Places::One),
        StackOperation::Dup2X2 => double_under(cells, Places::Two, Places::Two),
        StackOperation::Swap => swap(cells),
    }
}
