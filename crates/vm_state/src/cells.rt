//! What a frame holds: its local variables (JVMS 2.6.1) and its operands (JVMS 2.6.2), in one vector.

ghost use Rattle.std.specs.Prelude.{◌≡◌, ◌≢◌, ◌+◌, ◌≤◌, ◌<◌, ◌^◌, ◌∷◌, [], IfOk, OnErr, OnOk, Some, None, true, false};
ghost use Rattle.std.specs.Prelude.{length, nat_le, map, reverse, option_map, slice_get, slice_set};
ghost use Rattle.vm_state.specs.declared.value.Value.{Value};
ghost use Rattle.vm_state.specs.Values.{places};
ghost use Rattle.vm_state.specs.Variables.{value_in, operand_in};
ghost use Rattle.vm_state.specs.Cells.{Fits, contents, blank, values_of};
ghost use Rattle.vm_state.specs.Locals.{int_at, stored, value_at};
ghost use Rattle.vm_state.specs.Operands.{all_places, pushed, top, top_int, top_long, rest, dropped, all_pushed};
ghost use Rattle.vm_state.specs.Arguments.{passed, taken};

use crate::value::{Fault, Value};
use crate::variable::Variable;
use std::alloc::{AllocError, Global};
use std::marker::Model;

/// The local variables and the operands of a frame, whose memory is reserved when the frame is made. The second place
/// of a long holds nothing among local variables; among operands a long takes one cell. A contract sees the list of
/// local variables, the operands, the top first, and how many places are free for more.
#[derive(Drop)]
pub struct Cells {
    /// The local variables, then the operands, the lowest first, then what is not in use.
    variables: Vec<Variable>,
    /// How many local variables there are.
    locals: u16,
    /// How many operands there are.
    depth: u16,
    /// How many places of the operand stack are free.
    free: u32,
}

impl Model for Cells {
    ghost use Rattle.vm_state.specs.Cells.{Contents, contents, Fits};

    ghost Value = { Contents };

    ghost view = { λ s. contents s.locals s.depth s.free s.variables.items };

    ghost invariant = { λ s. Fits s.locals s.depth s.free s.variables.items };
}

/// Whether these are the same, or there is none.
fn same_value(left: Option<Value>, right: Option<Value>) -> bool
    ensures yes { result ≡ true → left ≡ right }
    ensures no { result ≡ false → left ≢ right }
{
    match (left, right) {
        (Some(left), Some(right)) => left == right,
        (Some(_), None) => false,
        (None, Some(_)) => false,
        (None, None) => true,
    }
}

/// Whether local variables are the same.
fn same_locals(left: &[Variable], right: &[Variable]) -> bool
    ensures yes { result ≡ true → map value_in left.now ≡ map value_in right.now }
    ensures no { result ≡ false → map value_in left.now ≢ map value_in right.now }
{
    if left.len() != right.len() {
        return false;
    }
    for place in 0..left.len() {
        if !same_value(left[place].value(), right[place].value()) {
            return false;
        }
    }
    true
}

/// Whether two cells hold the same operand.
fn same_operand(left: Variable, right: Variable) -> bool
    ensures yes { result ≡ true → operand_in left ≡ operand_in right }
    ensures no { result ≡ false → operand_in left ≢ operand_in right }
{
    left.operand() == right.operand()
}

/// Whether operands are the same.
fn same_operands(left: &[Variable], right: &[Variable]) -> bool
    ensures yes { result ≡ true → map operand_in left.now ≡ map operand_in right.now }
    ensures no { result ≡ false → map operand_in left.now ≢ map operand_in right.now }
{
    if left.len() != right.len() {
        return false;
    }
    for place in 0..left.len() {
        if !same_operand(left[place], right[place]) {
            return false;
        }
    }
    true
}

impl Cells {
    /// Local variables (`max_locals`) that hold nothing, and no operands, with room for places (`max_stack`).
    ///
    /// # Errors
    /// `AllocError` where memory is refused.
    pub fn new(alloc: Global, locals: u16, room: u16) -> Result<Cells, AllocError>
        ensures { IfOk result (λ s. s ≡ blank locals room) }
    {
        let count = locals as usize + room as usize;
        let variables = vec![in alloc; Variable::Nothing; count]?;
        Ok(Cells {
            variables,
            locals,
            depth: 0,
            free: room as u32,
        })
    }

    /// No local variables, and no operands nor room for any.
    pub fn none(alloc: Global) -> Cells
        ensures { result ≡ blank 0 0 }
    {
        Cells {
            variables: Vec::new(alloc),
            locals: 0,
            depth: 0,
            free: 0,
        }
    }

    /// No local variables, and one operand of one place, which takes all the room.
    ///
    /// # Errors
    /// `AllocError` where memory is refused.
    pub fn with_operand(alloc: Global, value: Value) -> Result<Cells, AllocError>
        requires { places value ≡ 1 }
        ensures { IfOk result (λ s. s ≡ record { locals = []; operands = record { free = 0; values = value ∷ [] } }) }
    {
        let variables = vec![in alloc; Variable::holding(value); 1]?;
        Ok(Cells {
            variables,
            locals: 0,
            depth: 1,
            free: 0,
        })
    }

    /// What `new` makes, in the memory of these cells where it is enough.
    ///
    /// # Errors
    /// `AllocError` where memory is refused.
    #[inline(always)]
    pub fn emptied(self, locals: u16, room: u16) -> Result<Cells, AllocError>
        ensures { IfOk result (λ s. s ≡ blank locals room) }
    {
        let count = locals as usize + room as usize;
        let mut variables = self.variables;
        variables.clear();
        variables.reserve_exact(count)?;
        variables.resize(count, Variable::Nothing)?;
        Ok(Cells {
            variables,
            locals,
            depth: 0,
            free: room as u32,
        })
    }

    /// A copy.
    ///
    /// # Errors
    /// `AllocError` where memory is refused.
    pub fn copy(&self, alloc: Global) -> Result<Cells, AllocError>
        ensures { IfOk result (λ s. s ≡ self.now) }
    {
        let variables = Vec::from_slice(alloc, self.variables.as_slice())?;
        Ok(Cells {
            variables,
            locals: self.locals,
            depth: self.depth,
            free: self.free,
        })
    }

    /// Whether these are the same.
    pub fn is_same(&self, other: &Cells) -> bool
        ensures yes { result ≡ true → self.now ≡ other.now }
        ensures no { result ≡ false → self.now ≢ other.now }
    {
        self.free() == other.free()
            && same_locals(self.local_variables(), other.local_variables())
            && same_operands(self.operands(), other.operands())
    }

    /// The cells themselves: the local variables, then the operands, the lowest first, then some more.
    #[inline(always)]
    pub fn into_variables(self) -> Vec<Variable>
        ensures value { self ≡ contents (length self.locals) (length self.operands.values) self.operands.free
            result.items }
        ensures fits { Fits (length self.locals) (length self.operands.values) self.operands.free result.items }
    {
        let Cells { variables, .. } = self;
        variables
    }

    /// Local variables, operands and free places, as many as are said, in cells that have room for them; as
    /// many operands as there are cells, where there are fewer.
    #[inline(always)]
    pub fn of_variables(variables: Vec<Variable>, locals: u16, depth: u16, free: u32) -> Cells
        requires room { locals + (free + all_places (values_of locals depth variables.items)) ≤ length variables.items }
        requires small { free + all_places (values_of locals depth variables.items) ≤ 65535 }
        ensures { result ≡ contents locals depth free variables.items }
    {
        let above = variables.len() - locals as usize;
        if above < depth as usize {
            return Cells {
                variables,
                locals,
                depth: above as u16,
                free,
            };
        }
        Cells {
            variables,
            locals,
            depth,
            free,
        }
    }

    /// How many local variables there are.
    #[inline(always)]
    pub fn local_count(&self) -> usize
        ensures { result ≡ length self.now.locals }
    {
        self.locals as usize
    }

    /// How many cells there are, in use or not.
    pub(crate) fn size(&self) -> usize {
        self.variables.len()
    }

    /// The cells of the local variables.
    fn local_variables(&self) -> &[Variable]
        ensures { map value_in result.now ≡ self.now.locals }
    {
        &self.variables.as_slice()[..self.locals as usize]
    }

    /// What a local variable holds, where there is one.
    #[inline(always)]
    fn variable(&self, at: usize) -> Option<Variable>
        ensures { slice_get self.now.locals at ≡ option_map value_in result }
    {
        if at >= self.locals as usize {
            return None;
        }
        Some(self.variables[at])
    }

    /// Changes what a local variable holds.
    #[inline(always)]
    fn put(&mut self, at: usize, variable: Variable)
        requires { at < length self.old.locals }
        ensures locals { self.new.locals ≡ slice_set self.old.locals at (value_in variable) }
        ensures operands { self.new.operands ≡ self.old.operands }
    {
        self.variables[at] = variable;
    }

    /// Puts a value into its places, which are all there.
    #[tactic(auto, unfolding(crate::specs::Locals::stored))]
    #[inline(always)]
    fn put_value(&mut self, at: usize, value: Value)
        requires room { at + places value ≤ length self.old.locals }
        requires fits { at + places value < 2 ^ 64 }
        ensures stored { stored self.old.locals at value ≡ Some self.new.locals }
        ensures count { length self.new.locals ≡ length self.old.locals }
        ensures operands { self.new.operands ≡ self.old.operands }
    {
        self.put(at, Variable::holding(value));
        if let Value::Long(_) = value {
            self.put(at + 1, Variable::Nothing);
        }
    }

    /// The int in a local variable.
    ///
    /// # Errors
    /// `Fault` where no int is there.
    #[tactic(auto, unfolding(crate::specs::Locals::value_at))]
    #[inline(always)]
    pub fn int_at(&self, at: u16) -> Result<i32, Fault>
        ensures ok { IfOk result (λ n. int_at self.now.locals at ≡ Some n) }
        ensures err { OnErr result (int_at self.now.locals at ≡ None) }
    {
        match self.variable(at as usize) {
            Some(Variable::Int(number)) => Ok(number),
            _ => Err(Fault),
        }
    }

    /// The value in a local variable.
    ///
    /// # Errors
    /// `Fault` where there is none, or a long that was ended.
    #[tactic(auto, unfolding(crate::specs::Locals::value_at))]
    #[inline(always)]
    pub fn value_at(&self, at: u16) -> Result<Value, Fault>
        ensures ok { IfOk result (λ v. value_at self.now.locals at ≡ Some v) }
        ensures err { OnErr result (value_at self.now.locals at ≡ None) }
    {
        let at = at as usize;
        let Some(variable) = self.variable(at) else {
            return Err(Fault);
        };
        match variable.value() {
            Some(Value::Long(number)) => match self.variable(at + 1) {
                Some(Variable::Nothing) => Ok(Value::Long(number)),
                _ => Err(Fault),
            },
            Some(value) => Ok(value),
            None => Err(Fault),
        }
    }

    /// Stores a value in a local variable.
    ///
    /// # Errors
    /// `Fault` where its places are not all there; nothing has changed then.
    #[tactic(auto, unfolding(crate::specs::Locals::stored))]
    #[inline(always)]
    pub fn store_value(&mut self, at: u16, value: Value) -> Result<(), Fault>
        ensures ok { OnOk result (stored self.old.locals at value ≡ Some self.new.locals) }
        ensures err { OnErr result (stored self.old.locals at value ≡ None) }
        ensures operands { self.new.operands ≡ self.old.operands }
        ensures same { OnErr result (self.new ≡ self.old) }
    {
        let at = at as usize;
        if at + value.places() as usize > self.local_count() {
            return Err(Fault);
        }
        self.put_value(at, value);
        Ok(())
    }

    /// Stores an int in a local variable.
    ///
    /// # Errors
    /// `Fault` where there is no such variable; nothing has changed then.
    #[inline(always)]
    pub fn store_int(&mut self, at: u16, number: i32) -> Result<(), Fault>
        ensures ok { OnOk result (stored self.old.locals at (Value.Int number) ≡ Some self.new.locals) }
        ensures err { OnErr result (stored self.old.locals at (Value.Int number) ≡ None) }
        ensures operands { self.new.operands ≡ self.old.operands }
        ensures same { OnErr result (self.new ≡ self.old) }
    {
        self.store_value(at, Value::Int(number))
    }

    /// Stores a value from a local variable on, and answers the place after it.
    #[tactic(auto, unfolding(crate::specs::Locals::stored))]
    #[inline(always)]
    fn store_next(&mut self, at: usize, value: Value) -> Result<usize, Fault>
        requires { at ≤ length self.old.locals }
        ensures next { IfOk result (λ next. (next ≡ at + places value) × (next ≤ length self.new.locals)) }
        ensures ok { OnOk result (stored self.old.locals at value ≡ Some self.new.locals) }
        ensures err { OnErr result (stored self.old.locals at value ≡ None) }
        ensures operands { self.new.operands ≡ self.old.operands }
    {
        let places = value.places() as usize;
        if self.local_count() - at < places {
            return Err(Fault);
        }
        self.put_value(at, value);
        Ok(at + places)
    }

    /// Stores values one after another, from the first local variable on.
    #[tactic(auto, unfolding(crate::specs::Arguments::passed))]
    #[inline(always)]
    fn store_all(&mut self, values: &[Variable]) -> Result<(), Fault>
        ensures ok { OnOk result (passed self.old.locals 0 (map operand_in values.now) ≡ Some self.new.locals) }
        ensures err { OnErr result (passed self.old.locals 0 (map operand_in values.now) ≡ None) }
        ensures operands { self.new.operands ≡ self.old.operands }
    {
        let mut at = 0;
        for value in values {
            at = self.store_next(at, value.operand())?;
        }
        Ok(())
    }

    /// Stores the arguments of a call in local variables: the so many operands on top of the caller's, the lowest first
    /// (JVMS 2.6.1). Where there are fewer operands, all of them.
    ///
    /// # Errors
    /// `Fault` where they do not all fit; some may be stored then.
    #[inline(always)]
    pub fn pass(&mut self, caller: &Cells, count: usize) -> Result<(), Fault>
        ensures ok { OnOk result (passed self.old.locals 0 (taken count caller.now.operands) ≡ Some self.new.locals) }
        ensures err { OnErr result (passed self.old.locals 0 (taken count caller.now.operands) ≡ None) }
        ensures operands { self.new.operands ≡ self.old.operands }
    {
        self.store_all(caller.taken(count))
    }

    /// How many operands there are.
    #[inline(always)]
    pub fn len(&self) -> usize
        ensures { result ≡ length self.now.operands.values }
    {
        self.depth as usize
    }

    /// How many places are free.
    #[inline(always)]
    pub fn free(&self) -> u32
        ensures { result ≡ self.now.operands.free }
    {
        self.free
    }

    /// Whether there is room for so many places.
    #[inline(always)]
    pub fn has_room(&self, places: u32) -> bool
        ensures { result ≡ nat_le places self.now.operands.free }
    {
        places <= self.free()
    }

    /// The cells of the operands, the lowest first.
    #[inline(always)]
    fn operands(&self) -> &[Variable]
        ensures { reverse (map operand_in result.now) ≡ self.now.operands.values }
    {
        let first = self.locals as usize;
        &self.variables.as_slice()[first..first + self.depth as usize]
    }

    /// The cells of the so many operands on top, the lowest first: the arguments of a call in their order (JVMS 2.6.1).
    /// Where there are fewer, of all of them.
    #[inline(always)]
    pub fn taken(&self, count: usize) -> &[Variable]
        ensures { map operand_in result.now ≡ taken count self.now.operands }
    {
        let operands = self.operands();
        &operands[operands.len().saturating_sub(count)..]
    }

    /// Puts a value on top.
    ///
    /// # Errors
    /// `Fault` where there is no room for it; nothing has changed then.
    #[tactic(auto, unfolding(crate::specs::Operands::pushed))]
    #[inline(always)]
    pub fn push(&mut self, value: Value) -> Result<(), Fault>
        ensures fits { OnOk result (pushed value self.old.operands ≡ Some self.new.operands) }
        ensures full { OnErr result (pushed value self.old.operands ≡ None) }
        ensures locals { self.new.locals ≡ self.old.locals }
        ensures same { OnErr result (self.new ≡ self.old) }
    {
        let places = value.places();
        if self.free < places {
            return Err(Fault);
        }
        self.variables[self.locals as usize + self.depth as usize] = Variable::holding(value);
        self.depth += 1;
        self.free -= places;
        Ok(())
    }

    /// The value below so many others, which stays.
    ///
    /// # Errors
    /// `Fault` where there is none.
    #[inline(always)]
    pub fn below(&self, others: usize) -> Result<Value, Fault>
        ensures ok { IfOk result (λ v. top (dropped others self.now.operands) ≡ Some v) }
        ensures err { OnErr result (top (dropped others self.now.operands) ≡ None) }
    {
        let depth = self.depth as usize;
        if depth <= others {
            return Err(Fault);
        }
        let at = self.locals as usize + (depth - 1 - others);
        Ok(self.variables[at].operand())
    }

    /// The value on top, which stays.
    ///
    /// # Errors
    /// `Fault` where the stack is empty.
    #[inline(always)]
    pub fn top(&self) -> Result<Value, Fault>
        ensures ok { IfOk result (λ v. top self.now.operands ≡ Some v) }
        ensures err { OnErr result (top self.now.operands ≡ None) }
    {
        self.below(0)
    }

    /// The int on top, which stays.
    ///
    /// # Errors
    /// `Fault` where no int is there.
    #[inline(always)]
    pub fn top_int(&self) -> Result<i32, Fault>
        ensures ok { IfOk result (λ n. top_int self.now.operands ≡ Some n) }
        ensures err { OnErr result (top_int self.now.operands ≡ None) }
    {
        self.top()?.int()
    }

    /// The value below the top, which stays.
    ///
    /// # Errors
    /// `Fault` where there is none.
    #[inline(always)]
    pub fn second(&self) -> Result<Value, Fault>
        ensures ok { IfOk result (λ v. top (rest self.now.operands) ≡ Some v) }
        ensures err { OnErr result (top (rest self.now.operands) ≡ None) }
    {
        self.below(1)
    }

    /// The int below the top, which stays.
    ///
    /// # Errors
    /// `Fault` where no int is there.
    #[inline(always)]
    pub fn second_int(&self) -> Result<i32, Fault>
        ensures ok { IfOk result (λ n. top_int (rest self.now.operands) ≡ Some n) }
        ensures err { OnErr result (top_int (rest self.now.operands) ≡ None) }
    {
        self.second()?.int()
    }

    /// The long on top, which stays.
    ///
    /// # Errors
    /// `Fault` where no long is there.
    #[inline(always)]
    pub fn top_long(&self) -> Result<i64, Fault>
        ensures ok { IfOk result (λ n. top_long self.now.operands ≡ Some n) }
        ensures err { OnErr result (top_long self.now.operands ≡ None) }
    {
        self.top()?.long()
    }

    /// The long below the top, which stays.
    ///
    /// # Errors
    /// `Fault` where no long is there.
    #[inline(always)]
    pub fn second_long(&self) -> Result<i64, Fault>
        ensures ok { IfOk result (λ n. top_long (rest self.now.operands) ≡ Some n) }
        ensures err { OnErr result (top_long (rest self.now.operands) ≡ None) }
    {
        self.second()?.long()
    }

    /// How many places are free without so many values on top.
    #[tactic(auto, using(crate::proofs::OperandLemmas::free_more, crate::proofs::OperandLemmas::free_same))]
    #[inline(always)]
    fn free_under(&self, others: usize) -> u32
        ensures { result ≡ (dropped others self.now.operands).free }
    {
        let mut free = self.free;
        for depth in 0..others {
            if let Ok(value) = self.below(depth) {
                free += value.places();
            }
        }
        free
    }

    /// Puts a value in the place of the one on top.
    ///
    /// # Errors
    /// `Fault` where there is no room for it; nothing has changed then.
    #[tactic(auto, unfolding(crate::specs::Operands::pushed))]
    #[inline(always)]
    pub fn replace_one(&mut self, value: Value) -> Result<(), Fault>
        ensures fits { OnOk result (pushed value (rest self.old.operands) ≡ Some self.new.operands) }
        ensures full { OnErr result (pushed value (rest self.old.operands) ≡ None) }
        ensures locals { self.new.locals ≡ self.old.locals }
        ensures same { OnErr result (self.new ≡ self.old) }
    {
        if self.free_under(1) < value.places() {
            return Err(Fault);
        }
        self.drop_top();
        self.push(value)
    }

    /// Puts a value in the place of the two on top.
    ///
    /// # Errors
    /// `Fault` where there is no room for it; nothing has changed then.
    #[tactic(auto, unfolding(crate::specs::Operands::pushed))]
    #[inline(always)]
    pub fn replace_two(&mut self, value: Value) -> Result<(), Fault>
        ensures fits { OnOk result (pushed value (rest (rest self.old.operands)) ≡ Some self.new.operands) }
        ensures full { OnErr result (pushed value (rest (rest self.old.operands)) ≡ None) }
        ensures locals { self.new.locals ≡ self.old.locals }
        ensures same { OnErr result (self.new ≡ self.old) }
    {
        if self.free_under(2) < value.places() {
            return Err(Fault);
        }
        self.drop_top();
        self.drop_top();
        self.push(value)
    }

    /// Puts values on top, the first one first, as far as there is room.
    #[tactic(auto, unfolding(crate::specs::Operands::all_pushed))]
    fn push_all(&mut self, values: &[Value]) -> Result<(), Fault>
        ensures fits { OnOk result (all_pushed values.now self.old.operands ≡ Some self.new.operands) }
        ensures full { OnErr result (all_pushed values.now self.old.operands ≡ None) }
        ensures locals { self.new.locals ≡ self.old.locals }
    {
        for value in values {
            self.push(*value)?;
        }
        Ok(())
    }

    /// Puts values in the place of so many on top, the first one first.
    ///
    /// # Errors
    /// `Fault` where there is no room for all of them; nothing has changed then.
    #[tactic(auto, using(crate::proofs::OperandLemmas::pushed_none))]
    pub fn replace(&mut self, others: usize, values: &[Value]) -> Result<(), Fault>
        ensures fits { OnOk result (all_pushed values.now (dropped others self.old.operands) ≡ Some self.new.operands) }
        ensures full { OnErr result (all_pushed values.now (dropped others self.old.operands) ≡ None) }
        ensures locals { self.new.locals ≡ self.old.locals }
        ensures same { OnErr result (self.new ≡ self.old) }
    {
        fit(values, self.free_under(others))?;
        self.drop_many(others);
        self.push_all(values)
    }

    /// Takes the top off, where there is one.
    #[tactic(auto, unfolding(crate::specs::Operands::rest))]
    #[inline(always)]
    pub fn drop_top(&mut self)
        ensures operands { self.new.operands ≡ rest self.old.operands }
        ensures locals { self.new.locals ≡ self.old.locals }
    {
        if self.depth > 0 {
            self.depth -= 1;
            let top = self.variables[self.locals as usize + self.depth as usize].operand();
            self.free += top.places();
        }
    }

    /// Takes so many values off, as far as there are any.
    #[tactic(auto, using(crate::proofs::OperandLemmas::dropped_more))]
    #[inline(always)]
    pub fn drop_many(&mut self, count: usize)
        ensures operands { self.new.operands ≡ dropped count self.old.operands }
        ensures locals { self.new.locals ≡ self.old.locals }
    {
        for _ in 0..count {
            self.drop_top();
        }
    }

    /// Takes all values off, as where an exception is caught (JVMS 2.10).
    pub fn clear(&mut self)
        ensures operands { self.new.operands ≡ record {
          free = self.old.operands.free + all_places self.old.operands.values;
          values = [];
        } }
        ensures locals { self.new.locals ≡ self.old.locals }
    {
        let count = self.len();
        self.drop_many(count);
    }
}

/// A fault where some values do not fit into so many places.
fn fit(values: &[Value], places: u32) -> Result<(), Fault>
    ensures ok { OnOk result (all_places values.now ≤ places) }
    ensures err { OnErr result (places < all_places values.now) }
{
    let mut free = places;
    for value in values {
        let needed = value.places();
        if free < needed {
            return Err(Fault);
        }
        free -= needed;
    }
    Ok(())
}
