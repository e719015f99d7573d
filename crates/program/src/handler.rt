//! Exception tables with the classes that they catch (JVMS 2.10, 4.7.3).

ghost use Rattle.std.specs.Prelude.{◌≡◌, ◌==◌, length};

use built_in::class_id::ClassId;
use std::marker::Model;

/// What an entry of an exception table catches.
#[derive(Clone, Copy, Debug)]
pub enum Catches {
    /// Whatever is thrown.
    Anything,
    /// Objects of this class and of those below it. None where no class, given or built in, has the name.
    Class(Option<ClassId>),
}

/// An entry of an exception table. Where an instruction from `start_pc` on and before `end_pc` throws what it catches,
/// execution goes on at `handler_pc`.
#[derive(Clone, Copy)]
pub struct Handler {
    pub start_pc: u16,
    pub end_pc: u16,
    pub handler_pc: u16,
    pub catches: Catches,
}

/// An exception table, in the order in which its entries are searched.
#[derive(Drop)]
pub struct Handlers {
    pub(crate) handlers: Vec<Handler>,
}

impl Model for Handlers {
    ghost use Rattle.std.specs.Prelude.{List};
    ghost use Rattle.program.specs.declared.handler.Handler.{Handler as Held};

    ghost Value = { List Held };

    ghost view = { λ s. s.handlers.items };
}

impl Handlers {
    /// Whether there is none.
    pub fn is_empty(&self) -> bool
        ensures { result ≡ (length self.now == 0) }
    {
        self.handlers.is_empty()
    }

    /// The entries as a slice.
    pub fn as_slice(&self) -> &[Handler]
        ensures { result.now ≡ self.now }
    {
        self.handlers.as_slice()
    }
}
