//! What the parts of a class are determined by.

ghost use Rattle.program.specs.Laws.{OneListOfStrings, OneListOfSignatures, OneReturnKind, OneRuntimePool};
ghost use Rattle.program.specs.Laws.{OneHandler, OneImplementation};

/// A list of texts has one list of its distinct texts, in the order in which they stand there first.
pub fn one_list_of_strings()
    ensures { OneListOfStrings }
{}

/// A class file says one list of signatures (JVMS 4.3.3).
pub fn one_list_of_signatures()
    ensures { OneListOfSignatures }
{}

/// A method's descriptor says one kind that it returns (JVMS 4.3.3).
pub fn one_return_kind()
    ensures { OneReturnKind }
{}

/// A class file has one run-time constant pool (JVMS 5.1).
pub fn one_runtime_pool()
    ensures { OneRuntimePool }
{}

/// An entry of an exception table is one handler (JVMS 4.7.3).
pub fn one_handler()
    ensures { OneHandler }
{}

/// A method is implemented in one way (JVMS 4.6, 4.7.3).
pub fn one_implementation()
    ensures { OneImplementation }
{}
