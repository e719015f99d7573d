//! The classes that are demanded at build time.

ghost use Rattle.std.specs.Prelude.{◌≡◌};
ghost use Rattle.initializer_analysis.specs.Forced.{has_class};

use std::marker::Model;

/// A set of given classes: those that are to be initialized at build time.
#[derive(Drop)]
pub struct Demand {
    /// By number: whether the class is a member. Those beyond are none.
    flags: Vec<bool>,
}

impl Model for Demand {
    ghost use Rattle.std.specs.Prelude.{Bool, List};

    ghost Value = { List Bool };

    ghost view = { λ s. s.flags.items };
}

impl Demand {
    /// The classes that are flagged, by their numbers.
    pub(crate) fn of_flags(flags: Vec<bool>) -> Demand
        ensures { result ≡ flags.items }
    {
        Demand { flags }
    }

    /// Whether a class is a member.
    pub fn has(&self, class: u32) -> bool
        ensures { result ≡ has_class self.now class }
    {
        match self.flags.get(class as usize) {
            Some(flag) => *flag,
            None => false,
        }
    }
}
