//! What the initialization of a class may run and use.

use crate::mark::Evidence;
use hierarchy::member::DeclaredMember;

/// Where an instruction bears each mark, in a method that may run; none of a mark that no such instruction bears.
#[derive(Clone, Copy)]
pub struct Marks {
    pub prints: Option<Evidence>,
    pub throws: Option<Evidence>,
    pub monitors: Option<Evidence>,
    pub foreign_write: Option<Evidence>,
    pub foreign_read: Option<Evidence>,
    pub unsupported: Option<Evidence>,
    pub missing: Option<Evidence>,
}

/// What the initialization of a class may run and use, and what its code is marked for.
#[derive(Drop)]
pub struct Uses {
    /// The methods of given classes that may run, each once.
    pub methods: Vec<DeclaredMember>,
    /// The given classes that may be initialized, by their numbers, the least first; not the class itself.
    pub classes: Vec<u32>,
    pub marks: Marks,
}
