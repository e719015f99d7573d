//! Which program and start a book is of.

use std::marker::Brand;

/// Which program a book is of, and the world that it starts from. Each call of a program picks them.
pub trait Origin {
    ghost use Rattle.program.specs.Tables.{Tables};
    ghost use Rattle.semantics.specs.Worlds.{World};

    ghost program: { Tables };

    ghost start: { World };
}

impl Origin for Brand {
    ghost use Rattle.thread_runner.specs.Origins.{no_classes, no_threads};

    ghost program = { no_classes };

    ghost start = { no_threads };
}
