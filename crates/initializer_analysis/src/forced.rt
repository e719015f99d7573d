//! The classes that are initialized at run time, whatever is known of them.

ghost use Rattle.std.specs.Prelude.{◌≡◌, []};
ghost use Rattle.initializer_analysis.specs.Forced.{has_class};

use std::alloc::Global;
use std::marker::Model;

/// A set of given classes: those that are to be initialized at run time, whatever is known of them.
#[derive(Drop)]
pub struct Forced {
    /// By number: whether the class is a member. Those beyond are none.
    flags: Vec<bool>,
}

impl Model for Forced {
    ghost use Rattle.std.specs.Prelude.{Bool, List};

    ghost Value = { List Bool };

    ghost view = { λ s. s.flags.items };
}

impl Forced {
    /// No classes. It takes no memory.
    pub fn none(alloc: Global) -> Forced
        ensures { result ≡ [] }
    {
        Forced {
            flags: Vec::new(alloc),
        }
    }

    /// The classes that are flagged, by their numbers.
    pub fn of_flags(flags: Vec<bool>) -> Forced
        ensures { result ≡ flags.items }
    {
        Forced { flags }
    }

    /// Whether a class is a member.
    pub fn has(&self, class: u32) -> bool
        ensures { result ≡ has_class self.now class }
    {
        match self.flags.get(class as usize) {
            Some(flag) => *flag,
            None => false,
        }
    }
}
