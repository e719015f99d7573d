//! Calls that may run a native or synchronized method, which is left out.

ghost use Rattle.std.specs.Prelude.{◌↔◌, IsTrue, IfOk};
ghost use Rattle.std.specs.List.{Contains};
ghost use Rattle.use_graph.specs.Uses.{IsLeftOut};
ghost use Rattle.use_graph.specs.declared.callee.Callee.TheVariants as callees;
ghost use Rattle.use_graph.specs.steps.Deeds.{MayRunLeftOut};
ghost use Rattle.use_graph.specs.steps.LeftOut.{HasLeftOut, SelectsLeftOut, AreKnown};

use crate::callee::Callee;
use crate::numbers::MethodNumbers;
use hierarchy::member::{DeclaredMember, Method};
use hierarchy::selectable::Selectable;
use program::Program;
use program::class::Implementation;
use std::alloc::{AllocError, Global};

/// Whether a method is native or synchronized.
fn is_left_out(program: &Program, class: u32, index: u16) -> bool
    ensures { IsTrue result ↔ IsLeftOut program.now class index }
{
    matches!(
        program.implementation(class, index),
        Some(Implementation::Unsupported)
    )
}

/// Whether one of some methods is native or synchronized.
fn has_left_out(program: &Program, methods: &[DeclaredMember]) -> bool
    ensures { IsTrue result ↔ HasLeftOut program.now methods.now }
{
    for method in methods {
        if is_left_out(program, method.class, method.index) {
            return true;
        }
    }
    false
}

/// Whether a native or synchronized method is declared, neither private nor static, by the name and descriptor of one.
fn selects_left_out(
    alloc: Global,
    program: &Program,
    method: DeclaredMember,
) -> Result<bool, AllocError>
    ensures { IfOk result (λ yes. IsTrue yes ↔ SelectsLeftOut program.now method) }
{
    let mut like = Vec::new(alloc);
    program.add_named_like(method, &mut like)?;
    Ok(has_left_out(program, &like))
}

/// Whether a native or synchronized method is declared so, asked once for each method of a number.
fn selects_left_out_once(
    alloc: Global,
    program: &Program,
    numbers: &MethodNumbers,
    known: &mut [Option<bool>],
    method: DeclaredMember,
) -> Result<bool, AllocError>
    requires known { AreKnown program.now numbers.now known.old }
    ensures known { AreKnown program.now numbers.now known.new }
    ensures answer { IfOk result (λ yes. IsTrue yes ↔ SelectsLeftOut program.now method) }
{
    let Some(number) = numbers.number(method.class, method.index) else {
        return selects_left_out(alloc, program, method);
    };
    if let Some(yes) = known[number] {
        return Ok(yes);
    }
    let yes = selects_left_out(alloc, program, method)?;
    known[number] = Some(yes);
    Ok(yes)
}

/// Whether calls that are selected for a method may run a native or synchronized one.
fn selected_left_out(
    alloc: Global,
    program: &Program,
    numbers: &MethodNumbers,
    known: &mut [Option<bool>],
    method: Method,
) -> Result<bool, AllocError>
    requires known { AreKnown program.now numbers.now known.old }
    ensures known { AreKnown program.now numbers.now known.new }
    ensures answer { IfOk result (λ yes. IsTrue yes ↔ MayRunLeftOut program.now (callees.Selected method)) }
{
    match program.selectable(method) {
        Selectable::Nothing => Ok(false),
        Selectable::Alone(member) => Ok(is_left_out(program, member.class, member.index)),
        Selectable::Named(member) => {
            let yes = selects_left_out_once(alloc, program, numbers, known, member)?;
            Ok(yes)
        }
    }
}

/// Whether a call may run a native or synchronized method. What is selected by one name and descriptor is looked
/// through once.
pub(crate) fn calls_left_out(
    alloc: Global,
    program: &Program,
    numbers: &MethodNumbers,
    known: &mut [Option<bool>],
    callee: Callee,
) -> Result<bool, AllocError>
    requires known { AreKnown program.now numbers.now known.old }
    ensures known { AreKnown program.now numbers.now known.new }
    ensures answer { IfOk result (λ yes. IsTrue yes ↔ MayRunLeftOut program.now callee) }
{
    match callee {
        Callee::Nobody => Ok(false),
        Callee::Exactly { class, index } => Ok(is_left_out(program, class, index)),
        Callee::Selected(method) => selected_left_out(alloc, program, numbers, known, method),
    }
}
