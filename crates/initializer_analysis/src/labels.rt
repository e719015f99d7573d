//! The two least of a set of labels.

ghost use Rattle.std.specs.Prelude.{◌≡◌, ◌≢◌, ◌⊎◌, Some};
ghost use Rattle.initializer_analysis.specs.Least.{IsFirst, AreLeast, IsOf};

/// The two least of a set of labels, as far as it has them.
#[derive(Clone, Copy)]
pub(crate) struct Least {
    /// The least.
    pub first: Option<u32>,
    /// The least of the others.
    pub second: Option<u32>,
}

/// The lesser of two labels, as far as they are there.
fn lesser(a: Option<u32>, b: Option<u32>) -> Option<u32>
    ensures { IsFirst (λ l. (a ≡ Some l) ⊎ (b ≡ Some l)) result }
{
    match a {
        None => b,
        Some(x) => match b {
            None => a,
            Some(y) => Some(x.min(y)),
        },
    }
}

/// A label, unless it is this other one.
fn unless(label: Option<u32>, other: Option<u32>) -> Option<u32>
    ensures { IsFirst (λ l. (label ≡ Some l) × (¬ (other ≡ Some l))) result }
{
    match label {
        None => None,
        Some(x) => match other {
            Some(y) if x == y => None,
            _ => label,
        },
    }
}

impl Least {
    /// The least of no labels.
    pub(crate) fn none() -> Least
        ensures { AreLeast (λ l. ⊥) result }
    {
        Least {
            first: None,
            second: None,
        }
    }

    /// The least of one label.
    pub(crate) fn one(label: u32) -> Least
        ensures { AreLeast (λ l. l ≡ label) result }
    {
        Least {
            first: Some(label),
            second: None,
        }
    }

    /// The least of a label, if it is there.
    pub(crate) fn of(label: Option<u32>) -> Least
        ensures { AreLeast (λ l. label ≡ Some l) result }
    {
        Least {
            first: label,
            second: None,
        }
    }

    /// The least of them but one that may be among them.
    pub(crate) fn but(self, other: Option<u32>) -> Option<u32>
        ensures { IsFirst (λ l. IsOf self l × (¬ (other ≡ Some l))) result }
    {
        lesser(unless(self.first, other), unless(self.second, other))
    }

    /// The least of the labels of both.
    pub(crate) fn join(self, other: Least) -> Least
        ensures { AreLeast (λ l. IsOf self l ⊎ IsOf other l) result }
    {
        let first = lesser(
            lesser(self.first, self.second),
            lesser(other.first, other.second),
        );
        let second = lesser(self.but(first), other.but(first));
        Least { first, second }
    }

    /// The least of these and one more label.
    pub(crate) fn add(self, label: u32) -> Least
        ensures { AreLeast (λ l. IsOf self l ⊎ (l ≡ label)) result }
    {
        self.join(Least::one(label))
    }

    /// The least of them but this one.
    pub(crate) fn first_but(self, label: u32) -> Option<u32>
        ensures { IsFirst (λ l. IsOf self l × (l ≢ label)) result }
    {
        self.but(Some(label))
    }
}
