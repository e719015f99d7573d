//! How a class's initializer ends at build time.

use region_shape::regions::Region;

/// Why an initializer is refused.
#[derive(Clone, Copy)]
pub enum Refusal {
    /// An exception is raised, also one that would be caught.
    Raised,
    /// An object of another class is looked into or changed.
    ForeignObject,
    /// It costs more than the budget.
    OverBudget,
    /// Its thread could not go on.
    Faulted,
}

/// Why an initializer is stopped.
#[derive(Clone, Copy)]
pub enum Halt {
    /// It is refused for this reason.
    Refused(Refusal),
    /// Its code alone bars its class.
    Barred,
}

/// How an initializer ended.
#[derive(Drop)]
pub enum Evaluation {
    /// It left this region.
    Settled(Region),
    /// It was stopped.
    Stopped(Halt),
}

/// How the initializer of a class ended whose code does not bar it.
#[derive(Drop)]
pub enum Outcome {
    /// Its initializer left this region.
    Settled(Region),
    /// Its initializer is refused.
    Refused(Refusal),
}
