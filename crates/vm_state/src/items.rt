//! Lists whose items are compared and copied.

ghost use Rattle.std.specs.Prelude.{◌≡◌, ◌≢◌, [], IfOk, OnOk, true, false};

use std::alloc::{AllocError, Global};

/// What stands in a list and can be compared.
pub trait Item {
    /// Whether these are the same.
    fn is_same(&self, other: &Self) -> bool
        ensures yes { result ≡ true → self.now ≡ other.now }
        ensures no { result ≡ false → self.now ≢ other.now };
}

/// What stands in a list and can be copied.
pub trait CopiedItem: Drop {
    /// A copy of the item.
    ///
    /// # Errors
    /// `AllocError` where memory is refused.
    fn copy(&self, alloc: Global) -> Result<Self, AllocError>
        ensures { IfOk result (λ copied. copied ≡ self.now) };
}

impl Item for u32 {
    fn is_same(&self, other: &u32) -> bool {
        *self == *other
    }
}

/// Whether items are the same.
pub fn same_items<T: Item>(left: &Vec<T>, right: &Vec<T>) -> bool
    ensures yes { result ≡ true → left.now.items ≡ right.now.items }
    ensures no { result ≡ false → left.now.items ≢ right.now.items }
{
    if left.len() != right.len() {
        return false;
    }
    for place in 0..left.len() {
        if !left[place].is_same(&right[place]) {
            return false;
        }
    }
    true
}

/// Copies of some items, put where there are none.
pub fn copy_items<T: CopiedItem>(
    alloc: Global,
    items: &[T],
    copies: &mut Vec<T>,
) -> Result<(), AllocError>
    requires { copies.old.items ≡ [] }
    ensures { OnOk result (copies.new.items ≡ items.now) }
{
    for item in items {
        copies.push(item.copy(alloc)?)?;
    }
    Ok(())
}
