//! The reasons for which classes are left to run time, and what can be done about them.

/// The words of the reasons, in the order in which a class is asked for them.
pub(crate) const REASONS: [&str; 14] = [
    "Forced",
    "Prints",
    "Throws",
    "Monitors",
    "ForeignWrite",
    "ForeignRead",
    "Unsupported",
    "Missing",
    "Cycle",
    "DependsOn",
    "Raised",
    "ForeignObject",
    "Budget",
    "Faulted",
];

/// What can be done about each, in the same order.
pub(crate) const CURES: [&str; 14] = [
    "take the class, its package or its superclass off the list of the option",
    "print from a method that the program calls as it runs",
    "answer a default, and check where the value is used",
    "leave out synchronized: other threads wait for an initialization anyway",
    "let the class that owns the field ask for its value",
    "make the field final",
    "do without what is left out: at run time it would end its thread",
    "hand in the class file that is missing, or do without",
    "put what both classes need into a third one",
    "cure the class that is named: 'preinit explain' ends with its reason",
    "ask first whether the instruction would raise an exception",
    "let the class look that made the object, and read what it found",
    "let it cost more, by --budget N: 'preinit explain' says how much it costs then",
    "compile all classes together",
];
