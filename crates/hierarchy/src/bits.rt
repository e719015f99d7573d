//! What is known of up to 64 declarations of members from a class on, a bit each (JVMS 5.4.3.2 to 5.4.3.4).

ghost use Rattle.std.specs.Prelude.{◌≡◌, ◌<◌, ◌↔◌, ◌⊎◌, ◌∷◌, ◌++◌, [], ℕ, List, Option, Some, None, IfSome, IsTrue};
ghost use Rattle.loading.specs.Families.{Family as Classes, parents_in};
ghost use Rattle.hierarchy.specs.steps.DeclarationBits.{Has, IsOwn, Knows};

/// How many declarations are looked at in one way through all classes.
pub(crate) const BITS: usize = 64;

/// Whether a bit is set.
pub(crate) fn has_bit(word: u64, bit: usize) -> bool
    requires { bit < 64 }
    ensures { IsTrue result ↔ Has word bit }
{
    (word >> bit) & 1 == 1
}

/// A word with one more bit.
pub(crate) fn with_bit(word: u64, bit: usize) -> u64
    requires { bit < 64 }
    ensures { (n : ℕ) → Has result n ↔ (Has word n ⊎ (n ≡ bit)) }
{
    word | (1 << bit)
}

/// The bits of a word that another one has not.
pub(crate) fn without(word: u64, other: u64) -> u64
    ensures { (n : ℕ) → n < 64 → Has result n ↔ (Has word n × (¬ Has other n)) }
{
    word & !other
}

/// The first bit of a word.
pub(crate) fn first_bit(word: u64) -> Option<usize>
    ensures some { IfSome result (λ n. (n < 64) × Has word n) }
    ensures none { result ≡ None → (n : ℕ) → ¬ Has word n }
{
    if word == 0 {
        return None;
    }
    Some(word.trailing_zeros() as usize)
}

/// What a class declares itself.
#[derive(Clone, Copy)]
pub(crate) struct Own {
    /// The declarations of this class.
    pub(crate) here: u64,
    /// The declarations whose name and descriptor this class declares.
    pub(crate) same: u64,
}

/// What is known of declarations from some classes on: from these and what stands above them.
#[derive(Clone, Copy)]
pub(crate) struct Known {
    /// The first that a search finds.
    pub(crate) first: u64,
    /// The declarations whose name and descriptor one of the classes declares.
    pub(crate) covered: u64,
    /// The declarations of one of the classes.
    pub(crate) present: u64,
    /// The declarations above another one of their name and descriptor.
    pub(crate) hidden: u64,
}

impl Known {
    /// What is known of no classes.
    pub(crate) fn none() -> Known
        ensures { (family : Classes) (declares : ℕ → Option ℕ) (d k n : ℕ) → Knows family declares [] d k n result }
    {
        Known {
            first: 0,
            covered: 0,
            present: 0,
            hidden: 0,
        }
    }

    /// What is known of these classes and then of others.
    pub(crate) fn before(self, other: Known) -> Known
        ensures { (family : Classes) (declares : ℕ → Option ℕ) (xs : List ℕ) (y d k n : ℕ) → n < 64
            → Knows family declares xs d k n self → Knows family declares (y ∷ []) d k n other
            → Knows family declares (xs ++ y ∷ []) d k n result }
    {
        Known {
            first: self.first | without(other.first, self.covered),
            covered: self.covered | other.covered,
            present: self.present | other.present,
            hidden: self.hidden | other.hidden,
        }
    }

    /// What is known from a class on: by its own declarations and what is known of its parents.
    pub(crate) fn below(self, own: Own) -> Known
        ensures { (family : Classes) (declares : ℕ → Option ℕ) (c d k n : ℕ) → n < 64 → declares d ≡ Some k
            → IsOwn declares c d n own → Knows family declares (parents_in family c) d k n self
            → Knows family declares (c ∷ []) d k n result }
    {
        Known {
            first: own.here | without(self.first, own.same),
            covered: self.covered | own.same,
            present: self.present | own.here,
            hidden: self.hidden | (self.present & own.same),
        }
    }
}
