//! A set of numbers that tells in which order they came.

ghost use Rattle.std.specs.Prelude.{◌≡◌, ◌<◌, ◌≤◌, ◌↔◌, [], length, slice_index, IsTrue, IfOk, OnErr};
ghost use Rattle.std.specs.List.{Contains};
ghost use Rattle.graph.specs.Seen.{Joins, AreDistinct};

use std::alloc::{AllocError, Global};
use std::marker::Model;

/// A set of numbers below a limit, in the order in which they came.
#[derive(Drop)]
pub struct Visited {
    /// By number: whether it is a member.
    flags: Vec<bool>,
    order: Vec<usize>,
}

impl Model for Visited {
    ghost use Rattle.std.specs.Prelude.{length};
    ghost use Rattle.graph.specs.Seen.{Seen};
    ghost use Rattle.graph.specs.steps.Flags.{IsVisited};

    ghost Value = { Seen };

    ghost view = { λ v. record { limit = length v.flags.items; items = v.order.items } };

    ghost invariant = { λ v. IsVisited v.flags.items v.order.items };
}

impl Visited {
    /// No members, of the numbers below a limit.
    ///
    /// # Errors
    /// Where memory runs out.
    pub fn new(alloc: Global, limit: usize) -> Result<Visited, AllocError>
        ensures items { IfOk result (λ v. v.items ≡ []) }
        ensures limit { IfOk result (λ v. v.limit ≡ limit) }
    {
        let flags = vec![in alloc; false; limit]?;
        Ok(Visited {
            flags,
            order: Vec::new(alloc),
        })
    }

    /// How many members it has.
    pub fn len(&self) -> usize
        ensures value { result ≡ length self.now.items }
        ensures small { result ≤ self.now.limit }
        ensures distinct { AreDistinct self.now.items }
    {
        self.order.len()
    }

    /// The member that came at this place, counted from 0.
    pub fn at(&self, index: usize) -> usize
        requires { index < length self.now.items }
        ensures value { result ≡ slice_index self.now.items index }
        ensures below { result < self.now.limit }
    {
        self.order[index]
    }

    /// The members, in the order in which they came.
    pub fn items(&self) -> &[usize]
        ensures { result.now ≡ self.now.items }
    {
        self.order.as_slice()
    }

    /// Whether a number is a member.
    pub fn has(&self, member: usize) -> bool
        ensures { IsTrue result ↔ Contains self.now.items member }
    {
        member < self.flags.len() && self.flags[member]
    }

    /// Adds a member, and says whether it is new.
    ///
    /// # Errors
    /// Where memory runs out; the members are as they were.
    pub fn add(&mut self, member: usize) -> Result<bool, AllocError>
        requires { member < self.old.limit }
        ensures limit { self.new.limit ≡ self.old.limit }
        ensures small { length self.new.items ≤ self.new.limit }
        ensures ok { IfOk result (λ fresh. Joins fresh self.old.items member self.new.items) }
        ensures err { OnErr result (self.new.items ≡ self.old.items) }
    {
        if self.flags[member] {
            return Ok(false);
        }
        self.order.push(member)?;
        self.flags[member] = true;
        Ok(true)
    }

    /// Takes all members out, in a time that depends on them and not on the limit.
    pub fn clear(&mut self)
        ensures items { self.new.items ≡ [] }
        ensures limit { self.new.limit ≡ self.old.limit }
    {
        while let Some(member) = self.order.pop() {
            self.flags[member] = false;
        }
    }
}
