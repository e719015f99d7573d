//! What ends an instruction early.

ghost use Rattle.std.specs.Prelude.{◌≡◌};

use built_in::class_id::BuiltIn;
use vm_state::value::Fault;

/// What ends an instruction early. Its frame is as it was.
#[derive(Clone, Copy)]
pub enum Trap {
    /// A rule is broken that JVMS leaves to verification (JVMS 4.10).
    Fault,
    /// An exception of this class is to be raised (JVMS 2.10).
    Raise(BuiltIn),
}

impl From<Fault> for Trap {
    ghost use Rattle.frame_instructions.specs.declared.trap.Trap.TheVariants as traps;

    ghost from_gives = { λ fault trap. trap ≡ traps.Fault };

    #[inline(always)]
    fn from(_fault: Fault) -> Trap {
        Trap::Fault
    }
}
