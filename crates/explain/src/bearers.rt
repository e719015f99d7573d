//! Instructions that bear a mark, as the bearers of vertices.

ghost use Rattle.std.specs.Prelude.{◌≡◌, ◌≢◌, ◌↔◌, Some, None, IsTrue, MatchOption};
ghost use Rattle.explain.specs.declared.bearers.Bearer.{Bearer as Held};
ghost use Rattle.explain.specs.steps.Bearers.{IsOf, IsPair, Offers, Takes, room};

use use_graph::mark::Evidence;

/// An instruction that bears a mark, and the class whose field it writes or reads, if it is one that does.
#[derive(Clone, Copy)]
pub(crate) struct Bearer {
    pub(crate) at: Evidence,
    pub(crate) field_class: Option<u32>,
}

/// A bearer of a vertex: its own, or one that it reaches.
#[derive(Clone, Copy)]
pub(crate) struct VertexBearer {
    pub(crate) vertex: usize,
    pub(crate) bearer: Bearer,
}

/// Two bearers of a vertex that have different classes of fields, as far as it has such: so for each class one that is
/// a mark of it.
#[derive(Clone, Copy)]
pub(crate) struct Pair {
    pub(crate) first: Option<Bearer>,
    pub(crate) second: Option<Bearer>,
}

/// A bearer, unless it is a field's of this class.
fn unless(bearer: Option<Bearer>, class: u32) -> Option<Bearer>
    ensures { MatchOption result ((g : Held) → bearer ≡ Some g → g.field_class ≡ Some class)
        (λ g. (bearer ≡ Some g) × (g.field_class ≢ Some class)) }
{
    match bearer {
        Some(found) => {
            if found.field_class == Some(class) {
                None
            } else {
                bearer
            }
        }
        None => None,
    }
}

/// Whether two bearers have the same class of field, or both have none.
fn is_same_class(bearer: Bearer, other: Bearer) -> bool
    ensures { IsTrue result ↔ (bearer.field_class ≡ other.field_class) }
{
    bearer.field_class == other.field_class
}

impl Pair {
    /// No bearers.
    pub(crate) fn none() -> Pair
        ensures first { result.first ≡ None }
        ensures second { result.second ≡ None }
    {
        Pair {
            first: None,
            second: None,
        }
    }

    /// These and one more, where that says more: where it is the first one, or the first of another class of field.
    pub(crate) fn with(self, bearer: Bearer) -> Option<Pair>
        requires { IsPair self }
        ensures { MatchOption result (Offers self bearer) (Takes self bearer) }
    {
        let Some(first) = self.first else {
            return Some(Pair {
                first: Some(bearer),
                second: None,
            });
        };
        if is_same_class(first, bearer) {
            return None;
        }
        match self.second {
            Some(_) => None,
            None => Some(Pair {
                first: Some(first),
                second: Some(bearer),
            }),
        }
    }

    /// The first one that is no field's of this class.
    pub(crate) fn but(self, class: u32) -> Option<Bearer>
        ensures { MatchOption result ((g : Held) → IsOf self g → g.field_class ≡ Some class)
            (λ g. IsOf self g × (g.field_class ≢ Some class)) }
    {
        match unless(self.first, class) {
            Some(bearer) => Some(bearer),
            None => unless(self.second, class),
        }
    }
}
