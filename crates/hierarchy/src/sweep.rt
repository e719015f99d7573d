//! What the nearest classes that declare members are noted with.

use crate::member_table::MemberTable;
use crate::wanted::Wanted;
use loading::family::Family;

/// What the nearest classes are noted with: members of one kind, and classes in their order.
#[derive(Drop)]
pub(crate) struct Sweep<'a> {
    pub(crate) family: &'a Family,
    pub(crate) table: &'a MemberTable,
    pub(crate) wanted: Wanted,
    pub(crate) order: &'a [u32],
    /// By class: its place in the order.
    pub(crate) places: &'a [usize],
}

/// Classes in an order in which those below a class stand together, with the table of their members.
#[derive(Drop)]
pub(crate) struct ClassOrder<'a> {
    pub(crate) family: &'a Family,
    pub(crate) table: &'a MemberTable,
    pub(crate) order: &'a [u32],
    /// By class: its place in the order.
    pub(crate) places: &'a [usize],
}
