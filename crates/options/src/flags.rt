//! Flags of classes, by their numbers.

ghost use Rattle.std.specs.Prelude.{◌≡◌, ◌<◌, length};
ghost use Rattle.options.specs.steps.Flags.{Grow};

/// Flags a class.
pub(crate) fn flag(flags: &mut [bool], class: usize)
    requires { class < length flags.old }
    ensures { Grow flags.old flags.new (λ c. c ≡ class) }
{
    flags[class] = true;
}
