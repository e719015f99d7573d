//! Laws of the table of instructions as a whole.

ghost use Rattle.machine.specs.Laws.{LinkedTablesAreSound, TableIsLawful};

/// The static fields of a linked program begin as no objects, a static final is written in the class initialization
/// method of its own class alone, and no `main` is such a method.
pub fn linked_tables_are_sound()
    ensures { LinkedTablesAreSound }
{}

/// No instruction makes up a reference to an object, writes a final where it may not, or makes the frame of a class
/// initialization method, over a linked program.
pub fn table_is_lawful()
    ensures { TableIsLawful }
{}
