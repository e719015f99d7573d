//! Numbers of the methods of given classes.

ghost use Rattle.std.specs.Prelude.{◌≡◌, ◌↔◌, ℕ, ◌≤◌, ◌+◌, ◌*◌, [], length, Some, None, IsTrue};
ghost use Rattle.std.specs.Prelude.{IfOk, OnOk, MatchOption, slice_get};
ghost use Rattle.hierarchy.specs.declared.member.DeclaredMember.{DeclaredMember as Declared};
ghost use Rattle.use_graph.specs.Uses.{StandOnce};
ghost use Rattle.use_graph.specs.steps.Numbers.{HasNumber, AreNumbered, AreMethods, Adds, method_count};

use hierarchy::member::DeclaredMember;
use program::Program;
use std::alloc::{AllocError, Global};
use std::marker::Model;

/// The methods of all given classes, each by its number: those of a class stand together, in the order of its file.
/// A contract sees the methods in the order of their numbers.
#[derive(Drop)]
pub struct MethodNumbers {
    /// By class: the number of its first method.
    firsts: Vec<usize>,
    methods: Vec<DeclaredMember>,
}

impl Model for MethodNumbers {
    ghost use Rattle.std.specs.Prelude.{List};
    ghost use Rattle.hierarchy.specs.declared.member.DeclaredMember.{DeclaredMember as Held};
    ghost use Rattle.use_graph.specs.steps.Numbers.{AreNumbered};

    ghost Value = { List Held };

    ghost view = { λ n. n.methods.items };

    ghost invariant = { λ n. AreNumbered n.firsts.items n.methods.items };
}

/// Numbers the methods of a class.
fn number_class(
    program: &Program,
    class: u32,
    methods: &mut Vec<DeclaredMember>,
) -> Result<(), AllocError>
    ensures adds { OnOk result
        (Adds class (method_count program.now class) methods.old.items methods.new.items) }
    ensures few { method_count program.now class ≤ 65535 }
{
    let count = program.method_count(class);
    for index in 0..count {
        methods.push(DeclaredMember { class, index })?;
    }
    Ok(())
}

/// Numbers the methods of all classes.
fn number_all(
    program: &Program,
    firsts: &mut Vec<usize>,
    methods: &mut Vec<DeclaredMember>,
) -> Result<(), AllocError>
    requires firsts { firsts.old.items ≡ [] }
    requires methods { methods.old.items ≡ [] }
    ensures numbered { OnOk result (AreNumbered firsts.new.items methods.new.items) }
    ensures methods { OnOk result (AreMethods program.now methods.new.items) }
    ensures few { OnOk result (length methods.new.items ≤ 65535 * 65535) }
{
    for class in 0..program.given_count() {
        firsts.push(methods.len())?;
        number_class(program, class, methods)?;
    }
    Ok(())
}

impl MethodNumbers {
    /// Numbers all methods that the classes of a program declare.
    ///
    /// # Errors
    /// Where memory runs out.
    pub fn of_program(alloc: Global, program: &Program) -> Result<Self, AllocError>
        ensures methods { IfOk result (AreMethods program.now) }
        ensures few { IfOk result (λ numbers. length numbers ≤ 65535 * 65535) }
    {
        let mut firsts = Vec::new(alloc);
        let mut methods = Vec::new(alloc);
        match number_all(program, &mut firsts, &mut methods) {
            Ok(()) => Ok(MethodNumbers { firsts, methods }),
            Err(error) => Err(error),
        }
    }

    /// How many methods there are.
    pub fn len(&self) -> usize
        ensures { result ≡ length self.now }
    {
        self.methods.len()
    }

    /// The method of a number.
    pub fn method(&self, number: usize) -> Option<DeclaredMember>
        ensures value { result ≡ slice_get self.now number }
        ensures once { StandOnce self.now }
    {
        self.methods.get(number).copied()
    }

    /// The number that a method has if it is declared: its place behind the first one of its class.
    fn place(&self, class: u32, index: u16) -> Option<usize>
        ensures { MatchOption result (¬ HasNumber self.now class index)
            (λ place. (n : ℕ) → slice_get self.now n ≡ Some (record { class = class; index = index }) → n ≡ place) }
    {
        let first = *self.firsts.get(class as usize)?;
        first.checked_add(usize::from(index))
    }

    /// Whether a number is that of a method.
    fn is_at(&self, number: usize, class: u32, index: u16) -> bool
        ensures { IsTrue result ↔ (slice_get self.now number ≡ Some (record { class = class; index = index })) }
    {
        match self.methods.get(number) {
            Some(found) => found.class == class && found.index == index,
            None => false,
        }
    }

    /// The number of a method, if it is declared.
    pub fn number(&self, class: u32, index: u16) -> Option<usize>
        ensures { MatchOption result (¬ HasNumber self.now class index)
            (λ n. slice_get self.now n ≡ Some (record { class = class; index = index })) }
    {
        let place = self.place(class, index)?;
        if self.is_at(place, class, index) {
            Some(place)
        } else {
            None
        }
    }
}
