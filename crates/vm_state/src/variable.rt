//! What a frame's local variables and operands are kept in.

ghost use Rattle.std.specs.Prelude.{◌≡◌, Some};
ghost use Rattle.vm_state.specs.Variables.{value_in, operand_in, cell_of};

use crate::value::Value;

/// What a cell of a frame holds: a value or nothing, in the 16 bytes that a value takes.
#[derive(Clone, Copy)]
pub enum Variable {
    Nothing,
    Int(i32),
    Long(i64),
    Null,
    Text(usize),
    OfClass(u32, u64),
    OfThread(u32, u64),
    Out,
}

impl Variable {
    /// One that holds this value.
    #[inline(always)]
    pub fn holding(value: Value) -> Variable
        ensures cell { result ≡ cell_of value }
        ensures variable { value_in result ≡ Some value }
        ensures operand { operand_in result ≡ value }
    {
        match value {
            Value::Int(number) => Variable::Int(number),
            Value::Long(number) => Variable::Long(number),
            Value::Null => Variable::Null,
            Value::Text(text) => Variable::Text(text),
            Value::OfClass(class, number) => Variable::OfClass(class, number),
            Value::OfThread(thread, number) => Variable::OfThread(thread, number),
            Value::Out => Variable::Out,
        }
    }

    /// The value that it holds as a local variable.
    #[inline(always)]
    pub fn value(self) -> Option<Value>
        ensures { result ≡ value_in self }
    {
        match self {
            Variable::Nothing => None,
            Variable::Int(number) => Some(Value::Int(number)),
            Variable::Long(number) => Some(Value::Long(number)),
            Variable::Null => Some(Value::Null),
            Variable::Text(text) => Some(Value::Text(text)),
            Variable::OfClass(class, number) => Some(Value::OfClass(class, number)),
            Variable::OfThread(thread, number) => Some(Value::OfThread(thread, number)),
            Variable::Out => Some(Value::Out),
        }
    }

    /// The value that it holds as an operand; null where it holds nothing.
    #[inline(always)]
    pub fn operand(self) -> Value
        ensures { result ≡ operand_in self }
    {
        match self {
            Variable::Nothing => Value::Null,
            Variable::Int(number) => Value::Int(number),
            Variable::Long(number) => Value::Long(number),
            Variable::Null => Value::Null,
            Variable::Text(text) => Value::Text(text),
            Variable::OfClass(class, number) => Value::OfClass(class, number),
            Variable::OfThread(thread, number) => Value::OfThread(thread, number),
            Variable::Out => Value::Out,
        }
    }
}
