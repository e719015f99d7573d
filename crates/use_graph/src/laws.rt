//! Laws of a linked program by its code.

ghost use Rattle.use_graph.specs.Soundness.{TableIsBounded, WorldsRunByCode, ParentsAreUses};
ghost use Rattle.use_graph.specs.Soundness.{UsesAreWithin, StopsByCode};

/// Each instruction of the table does no more beyond its frame than its code says.
pub fn table_is_bounded()
    ensures { TableIsBounded }
{}

/// In each world of a run of a linked program, what runs and begins for the initialization of a class are methods that
/// may run for it, and its uses.
pub fn worlds_run_by_code()
    ensures { WorldsRunByCode }
{}

/// What is initialized before a class is a use of it, of a linked program of a family of classes.
pub fn parents_are_uses()
    ensures { ParentsAreUses }
{}

/// Whatever a class of a linked program may use is one of the program's classes.
pub fn uses_are_within()
    ensures { UsesAreWithin }
{}

/// A class of a linked program whose code bears no mark of what is barred at build time, with all its uses at hand,
/// whose finals refer to objects of classes at hand, is not barred there: where it is stopped, it is refused.
pub fn stops_by_code()
    ensures { StopsByCode }
{}
