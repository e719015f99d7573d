//! What is told of an instruction by itself.

ghost use Rattle.std.specs.Prelude.{◌≡◌};
ghost use Rattle.use_graph.specs.Uses.{mark_of, field_class};

use crate::mark::Mark;

/// What is told of an instruction by itself, whichever class's initialization runs it.
#[derive(Clone, Copy)]
pub enum Feature {
    Prints,
    Throws,
    /// It enters or leaves a monitor.
    Locks,
    /// It writes a field of a given class, as a static one.
    Writes(u32),
    /// It reads a field of a given class, as a static one, that is not final.
    Reads(u32),
    /// It is left out.
    LeftOut,
    /// What it names is not there.
    Misses,
}

impl Feature {
    /// The mark that it is to be told so.
    pub fn mark(self) -> Mark
        ensures { result ≡ mark_of self }
    {
        match self {
            Feature::Prints => Mark::Prints,
            Feature::Throws => Mark::Throws,
            Feature::Locks => Mark::Monitors,
            Feature::Writes(_) => Mark::ForeignWrite,
            Feature::Reads(_) => Mark::ForeignRead,
            Feature::LeftOut => Mark::Unsupported,
            Feature::Misses => Mark::Missing,
        }
    }

    /// The class whose field is written or read: of its own fields a class has no marks.
    pub fn field_class(self) -> Option<u32>
        ensures { result ≡ field_class self }
    {
        match self {
            Feature::Writes(class) | Feature::Reads(class) => Some(class),
            _ => None,
        }
    }
}
