//! The members of a table that stand before, found by name and descriptor.

ghost use Rattle.std.specs.Prelude.{◌≡◌, ◌++◌, ℕ, List, [], ◌∷◌, Some, None, true, unwrap_or, IfOk, OnOk};
ghost use Rattle.classfile.specs.reading.Earlier.{utf8_hash, find_utf8, find_after, first_of, AreFirsts, Grows};
ghost use Rattle.classfile.specs.reading.Earlier.{FindsBy, FindsIn, Finds};
ghost use Rattle.classfile.specs.reading.LookupTests.{has_utf8, same_utf8};
ghost use Rattle.classfile.specs.reading.Members.{is_declared};
ghost use Rattle.classfile.specs.declared.member.Member.{Member};

use crate::constant::Constant;
use crate::lookup::utf8_of;
use crate::member::Member;
use std::alloc::{AllocError, Global};
use std::collections::{BTreeMap, BTreeSet};

/// The longest table of which each member is compared with those before.
const FEW: u16 = 16;

/// The members so far.
#[derive(Drop)]
pub(crate) struct Earlier<'a> {
    pub(crate) members: Vec<Member>,
    /// Where the table has more than a few members.
    index: Option<SignatureIndex<'a>>,
}

/// The names and descriptors of members. Of equal texts one index stands for all, the first that was asked for.
#[derive(Drop)]
pub(crate) struct SignatureIndex<'a> {
    /// By index of the pool: the first index of the same text, once it was asked for.
    firsts: Vec<Option<u16>>,
    /// By text: its first index. A number of the text stands before it, since numbers are compared faster.
    by_utf8: BTreeMap<(u64, &'a [u8]), u16>,
    /// The first indices of each member's name and descriptor.
    pairs: BTreeSet<(u16, u16)>,
}

/// A number that most often tells a text from others.
fn hash_of(text: &[u8]) -> u64
    ensures { result ≡ utf8_hash text.now }
{
    let mut hash = 0u64;
    for byte in text {
        hash = (hash % 4_294_967_296) * 2_654_435_761 + u64::from(*byte);
    }
    hash
}

/// The first index of a text that stands at an index.
fn first_with<'a>(
    by_utf8: &mut BTreeMap<(u64, &'a [u8]), u16>,
    text: &'a [u8],
    index: u16,
) -> Result<u16, AllocError>
    ensures first { IfOk result (λ first. first ≡ unwrap_or (find_utf8 by_utf8.old text.now) index) }
    ensures after { OnOk result ((other : List ℕ) → find_utf8 by_utf8.new other
        ≡ find_after (find_utf8 by_utf8.old) text.now index other) }
{
    let hash = hash_of(text);
    match by_utf8.get(&(hash, text)) {
        Some(first) => Ok(*first),
        None => note_first(by_utf8, hash, text, index),
    }
}

/// Notes the first index of a text, by its number, and answers it.
fn note_first<'a>(
    by_utf8: &mut BTreeMap<(u64, &'a [u8]), u16>,
    hash: u64,
    text: &'a [u8],
    index: u16,
) -> Result<u16, AllocError>
    requires hash { hash ≡ utf8_hash text.now }
    requires none { find_utf8 by_utf8.old text.now ≡ None }
    ensures first { IfOk result (λ first. first ≡ index) }
    ensures after { OnOk result ((other : List ℕ) → find_utf8 by_utf8.new other
        ≡ find_after (find_utf8 by_utf8.old) text.now index other) }
{
    by_utf8.insert((hash, text), index)?;
    Ok(index)
}

/// The first index that was asked for of those with the text at an index.
#[tactic(auto, unfolding(crate::specs::reading::LookupTests::has_utf8))]
fn first_at<'a>(
    pool: &'a [Constant],
    firsts: &mut Vec<Option<u16>>,
    by_utf8: &mut BTreeMap<(u64, &'a [u8]), u16>,
    index: u16,
) -> Result<u16, AllocError>
    requires text { has_utf8 pool.now index ≡ true }
    requires firsts { AreFirsts pool.now firsts.old.items (find_utf8 by_utf8.old) }
    ensures first { IfOk result (λ first. first_of firsts.new.items index ≡ Some first) }
    ensures firsts { OnOk result (AreFirsts pool.now firsts.new.items (find_utf8 by_utf8.new)) }
    ensures grows { OnOk result (Grows firsts.old.items firsts.new.items) }
{
    if let Some(first) = firsts[usize::from(index)] {
        return Ok(first);
    }
    let Some(text) = utf8_of(pool, index) else {
        unreachable!();
    };
    let first = first_with(by_utf8, text, index)?;
    firsts[usize::from(index)] = Some(first);
    Ok(first)
}

impl<'a> SignatureIndex<'a> {
    /// The index of no members.
    fn new(alloc: Global, pool: &'a [Constant]) -> Result<Self, AllocError>
        ensures { IfOk result (λ index. FindsIn pool.now index []) }
    {
        let mut firsts = Vec::with_capacity(alloc, pool.len())?;
        firsts.resize(pool.len(), None)?;
        Ok(SignatureIndex {
            firsts,
            by_utf8: BTreeMap::new(alloc),
            pairs: BTreeSet::new(alloc),
        })
    }

    /// Whether one of the members has this name and descriptor. From then on one has.
    fn note(&mut self, pool: &'a [Constant], name: u16, descriptor: u16) -> Result<bool, AllocError>
        requires name { has_utf8 pool.now name ≡ true }
        requires descriptor { has_utf8 pool.now descriptor ≡ true }
        requires firsts { AreFirsts pool.now self.old.firsts.items (find_utf8 self.old.by_utf8) }
        ensures value { IfOk result (λ found. (members : List Member) → FindsIn pool.now self.old members
            → found ≡ is_declared pool.now name descriptor members) }
        ensures finds { OnOk result ((members : List Member) (m : Member) → FindsIn pool.now self.old members
            → m.name ≡ name → m.descriptor ≡ descriptor → FindsIn pool.now self.new (members ++ m ∷ [])) }
    {
        let name = first_at(pool, &mut self.firsts, &mut self.by_utf8, name)?;
        let descriptor = first_at(pool, &mut self.firsts, &mut self.by_utf8, descriptor)?;
        Ok(!self.pairs.insert((name, descriptor))?)
    }
}

/// The index of a table of `count` members, if it wants one.
fn index_for<'a>(
    alloc: Global,
    pool: &'a [Constant],
    count: u16,
) -> Result<Option<SignatureIndex<'a>>, AllocError>
    ensures { IfOk result (λ index. FindsBy pool.now index []) }
{
    if count <= FEW {
        return Ok(None);
    }
    Ok(Some(SignatureIndex::new(alloc, pool)?))
}

impl<'a> Earlier<'a> {
    /// No members yet, of a table of `count`. There is room for `room` of them.
    pub(crate) fn new(
        alloc: Global,
        pool: &'a [Constant],
        count: u16,
        room: usize,
    ) -> Result<Self, AllocError>
        ensures none { IfOk result (λ e. e.members.items ≡ []) }
        ensures finds { IfOk result (λ e. Finds pool.now e []) }
    {
        let members = Vec::with_capacity(alloc, room)?;
        let index = index_for(alloc, pool, count)?;
        Ok(Earlier { members, index })
    }

    /// The members alone.
    pub(crate) fn into_members(self) -> Vec<Member>
        ensures { result ≡ self.entry.members }
    {
        self.members
    }
}

/// Whether two indices name the same text.
#[tactic(auto, using(crate::proofs::Utf8Lemmas::same_index), unfolding(crate::specs::reading::LookupTests::same_utf8))]
fn same_utf8(pool: &[Constant], one: u16, other: u16) -> bool
    ensures { result ≡ same_utf8 pool.now one other }
{
    if one == other {
        return true;
    }
    match (utf8_of(pool, one), utf8_of(pool, other)) {
        (None, None) => true,
        (Some(one), Some(other)) => one == other,
        _ => false,
    }
}

/// Whether one of these members has this name and descriptor.
#[tactic(auto, unfolding(crate::specs::reading::Members::is_declared))]
fn is_among(pool: &[Constant], members: &[Member], name: u16, descriptor: u16) -> bool
    ensures { result ≡ is_declared pool.now name descriptor members.now }
{
    members.iter().any(|member| {
        same_utf8(pool, member.name, name) && same_utf8(pool, member.descriptor, descriptor)
    })
}

/// Whether one of these members has this name and descriptor. From then on they are found.
pub(crate) fn is_declared<'a>(
    pool: &'a [Constant],
    earlier: &mut Earlier<'a>,
    name: u16,
    descriptor: u16,
) -> Result<bool, AllocError>
    requires name { has_utf8 pool.now name ≡ true }
    requires descriptor { has_utf8 pool.now descriptor ≡ true }
    requires finds { Finds pool.now earlier.old earlier.old.members.items }
    ensures value { IfOk result (λ found. found ≡ is_declared pool.now name descriptor earlier.old.members.items) }
    ensures members { earlier.new.members ≡ earlier.old.members }
    ensures finds { OnOk result ((m : Member) → m.name ≡ name → m.descriptor ≡ descriptor
        → Finds pool.now earlier.new (earlier.old.members.items ++ m ∷ [])) }
{
    match &mut earlier.index {
        None => Ok(is_among(pool, &earlier.members, name, descriptor)),
        Some(index) => index.note(pool, name, descriptor),
    }
}
