//! Versions of the format.

/// A version of the format of images.
#[derive(Clone, Copy, Debug)]
pub enum Version {
    /// A region has all its objects, in the order of their numbers.
    One,
    /// A region has the objects alone that static fields reach, each after its number.
    Two,
}
