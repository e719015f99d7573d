//! Lists of classes by class.

ghost use Rattle.std.specs.Prelude.{◌≡◌, ◌<◌, [], length, replicate, IfOk, OnOk};
ghost use Rattle.std.specs.List.{All};
ghost use Rattle.hierarchy.specs.Search.{row_in};

use loading::given::ClassNumbers;
use std::alloc::{AllocError, Global};
use std::marker::Model;

/// For each class of a family a list of its classes.
#[derive(Drop)]
pub struct ClassLists {
    pub(crate) rows: Vec<ClassNumbers>,
}

impl Model for ClassLists {
    ghost use Rattle.std.specs.Prelude.{List, ℕ};
    ghost use Rattle.graph.specs.Rows.{IsClosed};

    ghost Value = { List (List ℕ) };

    ghost view = { λ s. s.rows.items };

    ghost invariant = { λ s. IsClosed s.rows.items };
}

impl ClassLists {
    /// The list of a class. Empty for a number of no class.
    pub fn of_class(&self, class: u32) -> &[u32]
        ensures value { result.now ≡ row_in self.now class }
        ensures within { All (λ c. c < length self.now) result.now }
    {
        match self.rows.get(class as usize) {
            Some(row) => row.as_slice(),
            None => &[],
        }
    }
}

/// An empty list for each of `count` classes.
pub(crate) fn empty_lists(alloc: Global, count: usize) -> Result<Vec<ClassNumbers>, AllocError>
    ensures { IfOk result (λ lists. lists.items ≡ replicate count []) }
{
    let mut lists = Vec::with_capacity(alloc, count)?;
    add_empty_lists(alloc, count, &mut lists)?;
    Ok(lists)
}

/// Adds an empty list for each of `count` classes.
fn add_empty_lists(
    alloc: Global,
    count: usize,
    lists: &mut Vec<ClassNumbers>,
) -> Result<(), AllocError>
    requires { lists.old.items ≡ [] }
    ensures { OnOk result (lists.new.items ≡ replicate count []) }
{
    for _ in 0..count {
        lists.push(ClassNumbers::new(Vec::new(alloc)))?;
    }
    Ok(())
}
