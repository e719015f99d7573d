//! Rows of reaches by name and descriptor.

ghost use Rattle.std.specs.Prelude.{◌≡◌, ◌↔◌, [], Some, IsTrue, IfOk, OnOk, if◌then◌else◌};
ghost use Rattle.hierarchy.specs.declared.member_key.MemberKey.{MemberKey as Key};
ghost use Rattle.hierarchy.specs.steps.MemberKeys.{same_key};
ghost use Rattle.hierarchy.specs.steps.Reaches.{EndsAt, GoUp, IsReachTable};
ghost use Rattle.hierarchy.specs.steps.Reaches.{ends_idle, last_nearest, noted_in, number_in, reaches_of, reaching};

use crate::member::DeclaredMember;
use crate::member_key::MemberKey;
use std::alloc::{AllocError, Global};
use std::collections::BTreeMap;

/// From which place on what member is the nearest, among classes that stand depth first.
#[derive(Clone, Copy)]
pub(crate) struct Reach {
    pub(crate) from: usize,
    pub(crate) nearest: Option<DeclaredMember>,
}

/// For each name and descriptor its reaches, in the order of their places.
pub(crate) struct ReachTable {
    numbers: BTreeMap<MemberKey, usize>,
    rows: Vec<Vec<Reach>>,
}

// By hand, since a derived one is proved anew wherever one is let go.
impl Drop for ReachTable {
    fn drop(self) {
        let ReachTable {
            numbers: _,
            rows: _,
        } = self;
    }
}

impl ReachTable {
    /// No reaches.
    pub(crate) fn new(alloc: Global) -> Self
        ensures table { IsReachTable result }
        ensures empty { (key : Key) → reaches_of result key ≡ [] }
    {
        ReachTable {
            numbers: BTreeMap::new(alloc),
            rows: Vec::new(alloc),
        }
    }

    /// The reaches of a key.
    pub(crate) fn row(&self, key: MemberKey) -> &[Reach]
        ensures { result.now ≡ reaches_of self.now key }
    {
        let Some(number) = self.numbers.get(&key) else {
            return &[];
        };
        match self.rows.get(*number) {
            Some(row) => row.as_slice(),
            None => &[],
        }
    }

    /// The number of a key's row. The key gets an empty one if it had none.
    fn number_of(&mut self, alloc: Global, key: MemberKey) -> Result<usize, AllocError>
        requires { IsReachTable self.old }
        ensures table { OnOk result (IsReachTable self.new) }
        ensures number { IfOk result (λ n. number_in self.new key ≡ Some n) }
        ensures kept { OnOk result ((k : Key) → reaches_of self.new k ≡ reaches_of self.old k) }
    {
        if let Some(number) = self.numbers.get(&key) {
            return Ok(*number);
        }
        let number = self.rows.len();
        self.rows.push(Vec::new(alloc))?;
        self.numbers.insert(key, number)?;
        Ok(number)
    }

    /// Notes one more reach of a key. What says nothing behind nothing goes when the next one comes, so that the first
    /// of a row names a class if any does.
    pub(crate) fn push(
        &mut self,
        alloc: Global,
        key: MemberKey,
        reach: Reach,
    ) -> Result<(), AllocError>
        requires { IsReachTable self.old }
        ensures table { OnOk result (IsReachTable self.new) }
        ensures rows { OnOk result ((k : Key) → reaches_of self.new k
            ≡ (if same_key key k then noted_in (reaches_of self.old k) reach else reaches_of self.old k)) }
    {
        let number = self.number_of(alloc, key)?;
        push_reach(&mut self.rows[number], reach)?;
        Ok(())
    }

    /// Whether the last reach of a key is from a place.
    pub(crate) fn ends_at(&self, key: MemberKey, place: usize) -> bool
        ensures { IsTrue result ↔ EndsAt (reaches_of self.now key) place }
    {
        match self.row(key).last() {
            Some(reach) => reach.from == place,
            None => false,
        }
    }

    /// Whether a key has no reaches.
    pub(crate) fn lacks(&self, key: MemberKey) -> bool
        ensures { IsTrue result → reaches_of self.now key ≡ [] }
    {
        self.row(key).is_empty()
    }

    /// What reaches a place.
    pub(crate) fn reaching(&self, key: MemberKey, place: usize) -> Option<DeclaredMember>
        ensures { GoUp (reaches_of self.now key) → result ≡ reaching (reaches_of self.now key) place }
    {
        let row = self.row(key);
        let count = row.partition_point(|reach| reach.from <= place);
        last_of(row, count)
    }
}

/// Notes one more reach in a row.
fn push_reach(row: &mut Vec<Reach>, reach: Reach) -> Result<(), AllocError>
    ensures { OnOk result (row.new.items ≡ noted_in row.old.items reach) }
{
    if ends_idle(row) {
        row.pop();
    }
    row.push(reach)?;
    Ok(())
}

/// Whether the last reach of a row says nothing, as what stands before it.
fn ends_idle(row: &[Reach]) -> bool
    ensures { result ≡ ends_idle row.now }
{
    let count = row.len();
    last_of(row, count).is_none() && last_of(row, count.saturating_sub(1)).is_none()
}

/// What is the nearest from the last of the first `count` reaches on.
fn last_of(row: &[Reach], count: usize) -> Option<DeclaredMember>
    ensures { result ≡ last_nearest row.now count }
{
    match count.checked_sub(1) {
        Some(last) => row.get(last)?.nearest,
        None => None,
    }
}
