//! What the methods of a program may call, need and do, each looked at once.

ghost use Rattle.std.specs.Prelude.{◌≡◌, ◌<◌, ◌≤◌, ◌*◌, ℕ, length, IfOk, OnOk, option_copied, slice_get};
ghost use Rattle.use_graph.specs.steps.Bodies.{AddsBody, AreAllBodyUses, IsUseGraph};
ghost use Rattle.use_graph.specs.steps.CallGraphs.{IsCallGraph};
ghost use Rattle.use_graph.specs.steps.LeftOut.{AreKnown};

use crate::body::{BodyUses, body_uses};
use crate::call_graph::call_graph;
use crate::numbers::MethodNumbers;
use graph::Graph;
use program::Program;
use std::alloc::{AllocError, Global};

/// What the methods of a program may call, need and do.
pub struct UseGraph {
    /// The methods of given classes.
    pub methods: MethodNumbers,
    /// Each method has two vertices: its number, for itself, and its number after those of all methods, for what is
    /// selected by its name and descriptor.
    pub calls: Graph,
    /// By number of method.
    pub bodies: Vec<BodyUses>,
}

// By hand, since a derived one is proved anew wherever one is let go.
impl Drop for UseGraph {
    fn drop(self) {
        let UseGraph {
            methods: _,
            calls: _,
            bodies: _,
        } = self;
    }
}

/// Adds what the body of the method of a number needs, and what is told of it.
fn add_one_body(
    alloc: Global,
    program: &Program,
    numbers: &MethodNumbers,
    known: &mut [Option<bool>],
    number: usize,
    bodies: &mut Vec<BodyUses>,
) -> Result<(), AllocError>
    requires known { AreKnown program.now numbers.now known.old }
    requires number { number < length numbers.now }
    ensures known { AreKnown program.now numbers.now known.new }
    ensures uses { OnOk result (AddsBody program.now numbers.now number bodies.old.items bodies.new.items) }
{
    let Some(method) = numbers.method(number) else {
        unreachable!()
    };
    let uses = body_uses(alloc, program, numbers, known, method)?;
    bodies.push(uses)?;
    Ok(())
}

/// Adds what the bodies of all methods need, and what is told of them.
fn add_bodies(
    alloc: Global,
    program: &Program,
    numbers: &MethodNumbers,
    known: &mut [Option<bool>],
    bodies: &mut Vec<BodyUses>,
) -> Result<(), AllocError>
    requires known { AreKnown program.now numbers.now known.old }
    requires none { length bodies.old.items ≡ 0 }
    ensures len { OnOk result (length bodies.new.items ≡ length numbers.now) }
    ensures uses { OnOk result (AreAllBodyUses program.now numbers.now bodies.new.items) }
{
    for number in 0..numbers.len() {
        add_one_body(alloc, program, numbers, known, number, bodies)?;
    }
    Ok(())
}

/// What the bodies of all methods need, and what is told of them.
fn bodies_of(
    alloc: Global,
    program: &Program,
    numbers: &MethodNumbers,
) -> Result<Vec<BodyUses>, AllocError>
    ensures len { IfOk result (λ bodies. length bodies.items ≡ length numbers.now) }
    ensures uses { IfOk result (λ bodies. AreAllBodyUses program.now numbers.now bodies.items) }
{
    let mut known = vec![in alloc; None; numbers.len()]?;
    let mut bodies = Vec::new(alloc);
    match add_bodies(alloc, program, numbers, known.as_mut_slice(), &mut bodies) {
        Ok(()) => Ok(bodies),
        Err(error) => Err(error),
    }
}

impl UseGraph {
    /// The use graph of a program. It takes time near linear in the program.
    ///
    /// # Errors
    /// Where memory runs out.
    pub fn of_program(alloc: Global, program: &Program) -> Result<Self, AllocError>
        ensures { IfOk result (IsUseGraph program.now) }
    {
        let methods = MethodNumbers::of_program(alloc, program)?;
        let calls = call_graph(alloc, program, &methods)?;
        let bodies = bodies_of(alloc, program, &methods)?;
        Ok(UseGraph {
            methods,
            calls,
            bodies,
        })
    }

    /// What the body of the method of a number needs, and what is told of it.
    pub fn body(&self, number: usize) -> Option<&BodyUses>
        ensures { option_copied result ≡ slice_get self.now.bodies.items number }
    {
        self.bodies.get(number)
    }
}
