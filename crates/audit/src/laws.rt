//! Laws of the threads of a run.

ghost use Rattle.audit.specs.Ends.{EndsAreTold};
ghost use Rattle.audit.specs.Runs.{ThreadsRunReached};

/// In each world of a run of some entries, what threads run are the entries' `main`s and methods that may be reached
/// from these, and so are the classes that they initialize.
pub fn threads_run_reached()
    ensures { ThreadsRunReached }
{}

/// A thread of such a run that ended as Unsupported or Missing ended at one of the places that are told, or at one of
/// three kinds of instructions that end it by their operands.
pub fn ends_are_told()
    ensures { EndsAreTold }
{}
