//! What references resolve to, by what is known of the declarations of their names and descriptors from class to class
//! (JVMS 5.4.3.2 to 5.4.3.4).

ghost use Rattle.std.specs.Prelude.{◌≡◌, ◌<◌, ◌≤◌, ◌+◌, ◌∷◌, [], ℕ, List, Some, None, true, length, take, slice_get};
ghost use Rattle.built_in.specs.Keys.{NameAndType};
ghost use Rattle.loading.specs.Families.{Family as Classes};
ghost use Rattle.hierarchy.specs.MemberLookup.{IsDefault};
ghost use Rattle.hierarchy.specs.declared.declarations.Declaration.{Declaration as Declared};
ghost use Rattle.hierarchy.specs.declared.member.DeclaredMember.{DeclaredMember as Member};
ghost use Rattle.hierarchy.specs.declared.member_key.MemberKey.{MemberKey as Key};
ghost use Rattle.hierarchy.specs.steps.Answers.{AreAnswers, AreBitsOf, AreTold, IsAnswer, classes_with};
ghost use Rattle.hierarchy.specs.steps.DeclarationBits.{Has, IsMask, Knows};
ghost use Rattle.hierarchy.specs.Hierarchies.{NumberedFamily as Numbered};
ghost use Rattle.hierarchy.specs.declared.wanted.Wanted.{Wanted as Kind};
ghost use Rattle.hierarchy.specs.steps.Declarations.{AreDeclared, IsWhole};
ghost use Rattle.hierarchy.specs.steps.Defaults.{AreFound};
ghost use Rattle.hierarchy.specs.steps.HierarchyTables.{wanted_in};
ghost use Rattle.hierarchy.specs.steps.MemberKeys.{AreNumbers};

use crate::asked::AskedReference;
use crate::bits::{BITS, Known, first_bit, has_bit, without};
use crate::declarations::Declaration;
use crate::defaults::FoundMethods;
use crate::hierarchy::Hierarchy;
use crate::masks::Mask;
use crate::member::DeclaredMember;
use crate::member_key::MemberKey;
use crate::member_name::MemberName;
use crate::wanted::Wanted;

/// What is known of a reference to a member of a given class.
#[derive(Clone, Copy)]
pub(crate) struct Answer {
    pub(crate) class: u32,
    pub(crate) key: MemberKey,
    pub(crate) member: MemberName,
    /// The first member that a search finds.
    pub(crate) first: Option<DeclaredMember>,
    /// Whether it finds none.
    pub(crate) none: bool,
    /// The defaults among superinterface methods.
    pub(crate) defaults: FoundMethods,
}

impl Answer {
    /// Nothing is known of a reference.
    pub(crate) fn unknown(asked: &AskedReference) -> Answer
        ensures key { result.key ≡ asked.now.key }
        ensures unknown { (h : Numbered) (w : Kind) (declared : List Declared) → asked.now.class < length h.family
            → IsWhole h w declared asked.now.key → IsAnswer h w declared 0 result }
    {
        Answer {
            class: asked.class,
            key: asked.key,
            member: asked.member,
            first: None,
            none: false,
            defaults: FoundMethods::Nothing,
        }
    }

    /// The first member that a search finds, or that it finds none, if that is known.
    pub(crate) fn found(&self) -> Option<Option<DeclaredMember>>
        ensures some { (m : Member) → result ≡ Some (Some m) → self.now.first ≡ Some m }
        ensures none { result ≡ Some None → self.now.none ≡ true }
    {
        match self.first {
            Some(first) => Some(Some(first)),
            None if self.none => Some(None),
            None => None,
        }
    }
}

/// What is known of references when one more window of declarations is looked at.
pub(crate) fn look(
    hierarchy: &Hierarchy,
    wanted: Wanted,
    declared: &[Declaration],
    start: usize,
    rows: &[Known],
    answers: &mut [Answer],
)
    requires start { start ≤ length declared.now }
    requires declared { AreDeclared hierarchy.now wanted declared.now }
    requires len { length rows.now ≡ length hierarchy.now.family }
    requires told { AreTold hierarchy.now wanted declared.now start rows.now }
    requires answers { AreAnswers hierarchy.now wanted declared.now start answers.old }
    ensures answers { AreAnswers hierarchy.now wanted declared.now (start + 64) answers.new }
    ensures len { length answers.new ≡ length answers.old }
{
    let mut mask = Mask::of_key(declared, start, MemberKey::EMPTY);
    for index in 0..answers.len() {
        let answer = answers[index];
        mask = mask.changed_to(declared, start, answer.key);
        let known = rows[answer.class as usize];
        answers[index] = look_at(hierarchy, wanted, declared, start, mask, known, answer);
    }
}

/// What is known of one reference when one more window of declarations is looked at.
fn look_at(
    hierarchy: &Hierarchy,
    wanted: Wanted,
    declared: &[Declaration],
    start: usize,
    mask: Mask,
    known: Known,
    answer: Answer,
) -> Answer
    requires start { start ≤ length declared.now }
    requires mask { IsMask declared.now start mask }
    requires key { mask.key ≡ answer.key }
    requires declared { AreDeclared hierarchy.now wanted declared.now }
    requires told { (n : ℕ) (e : Declared) (name : NameAndType) → n < 64 → slice_get declared.now (start + n) ≡ Some e
        → AreNumbers hierarchy.now.texts name e.key
        → Knows hierarchy.now.family (wanted_in wanted hierarchy.now.family name) (answer.class ∷ []) e.member.class
        e.member.index n known }
    requires answer { IsAnswer hierarchy.now wanted declared.now start answer }
    ensures { IsAnswer hierarchy.now wanted declared.now (start + 64) result }
{
    Answer {
        first: match answer.first {
            Some(first) => Some(first),
            None => first_of(declared, start, known.first & mask.same),
        },
        none: answer.none || first_bit(without(mask.same, known.covered)).is_some(),
        defaults: match wanted {
            Wanted::InterfaceMethod => with_defaults(
                answer.defaults,
                declared,
                start,
                without(known.present & mask.coded, known.hidden),
            ),
            _ => answer.defaults,
        },
        ..answer
    }
}

/// The declaration of the first bit.
fn first_of(declared: &[Declaration], start: usize, word: u64) -> Option<DeclaredMember>
    requires { start ≤ length declared.now }
    ensures { (m : Member) → result ≡ Some m → (n : ℕ) × (e : Declared) × (n < 64) × Has word n
        × (slice_get declared.now (start + n) ≡ Some e) × (e.member ≡ m) }
{
    let Some(bit) = first_bit(word) else {
        return None;
    };
    match declared.get(start + bit) {
        Some(declaration) => Some(declaration.member),
        None => None,
    }
}

/// What was found, with the declarations of some bits.
fn with_defaults(
    found: FoundMethods,
    declared: &[Declaration],
    start: usize,
    word: u64,
) -> FoundMethods
    requires { start ≤ length declared.now }
    ensures { (family : Classes) (name : NameAndType) (c : ℕ) (key : Key)
        → AreBitsOf (IsDefault family name c) declared.now start key word
        → AreFound (IsDefault family name c) (classes_with key (take start declared.now)) found
        → AreFound (IsDefault family name c) (classes_with key (take (start + 64) declared.now)) result }
{
    if word == 0 {
        return found;
    }
    if found.are_several() {
        return found;
    }
    with_all_defaults(found, declared, start, word)
}

/// What was found, with the declarations of some bits, one bit after another.
fn with_all_defaults(
    found: FoundMethods,
    declared: &[Declaration],
    start: usize,
    word: u64,
) -> FoundMethods
    requires { start ≤ length declared.now }
    ensures { (family : Classes) (name : NameAndType) (c : ℕ) (key : Key)
        → AreBitsOf (IsDefault family name c) declared.now start key word
        → AreFound (IsDefault family name c) (classes_with key (take start declared.now)) found
        → AreFound (IsDefault family name c) (classes_with key (take (start + 64) declared.now)) result }
{
    let mut found = found;
    for bit in 0..BITS {
        if let Some(declaration) = declared.get(start + bit) {
            if has_bit(word, bit) {
                let member = declaration.member;
                found = found.and(member.class, Some(member.index));
            }
        }
    }
    found
}
