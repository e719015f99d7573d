//! Marks of what the initialization of a class may run.

ghost use Rattle.std.specs.Prelude.{◌↔◌, IsTrue};
ghost use Rattle.use_graph.specs.Uses.{Means};

use crate::feature::Feature;

/// What keeps a class from being initialized at build time, by its code alone. The least comes first.
#[derive(Clone, Copy, PartialEq, Eq)]
pub enum Mark {
    /// A call that resolves to a method of `java.io.PrintStream`.
    Prints,
    /// An `athrow`.
    Throws,
    /// A `monitorenter` or `monitorexit`.
    Monitors,
    /// A `putstatic` to a field of another given class.
    ForeignWrite,
    /// A `getstatic` of a field of another given class that is not final.
    ForeignRead,
    /// An instruction that is left out, or a call of a native or synchronized method.
    Unsupported,
    /// A reference that resolves to nothing.
    Missing,
}

/// Where an instruction stands that bears a mark.
#[derive(Clone, Copy)]
pub struct Evidence {
    /// The number of the class that declares the method.
    pub class: u32,
    /// The place of the method among those of its class.
    pub index: u16,
    /// Where the instruction begins in the method's code, in bytes.
    pub pc: u16,
}

/// Whether what is told of an instruction is a mark, for the initializer of a class.
pub fn means(class: u32, feature: Feature, mark: Mark) -> bool
    ensures { IsTrue result ↔ Means class feature mark }
{
    feature.mark() == mark && feature.field_class() != Some(class)
}
