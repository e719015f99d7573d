//! What the workers of a wave are lent.

use std::marker::Brand;

/// The program, the regions of lower waves and the budget that a wave's classes run with. Each wave picks them.
pub trait Lent {
    ghost use Rattle.std.specs.Prelude.{ℕ, List, Option};
    ghost use Rattle.program.specs.Tables.{Tables};
    ghost use Rattle.region_shape.specs.declared.regions.Region.{Region};

    ghost program: { Tables };

    ghost regions: { List (Option Region) };

    ghost budget: { ℕ };
}

impl Lent for Brand {
    ghost use Rattle.std.specs.Prelude.{[]};
    ghost use Rattle.wave_scheduler.specs.steps.Crews.{no_classes};

    ghost program = { no_classes };

    ghost regions = { [] };

    ghost budget = { 0 };
}
