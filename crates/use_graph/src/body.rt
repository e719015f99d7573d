//! What the instructions of a method need, and what is told of them.

ghost use Rattle.std.specs.Prelude.{◌≡◌, ◌↔◌, ◌⊎◌, ℕ, Some, IsTrue, IfOk, OnOk};
ghost use Rattle.std.specs.List.{Contains};
ghost use Rattle.use_graph.specs.declared.body.Told.{Told as Held};
ghost use Rattle.use_graph.specs.declared.feature.Feature.TheVariants as features;
ghost use Rattle.use_graph.specs.steps.Bodies.{AreUsesOf, AreBodyUses};
ghost use Rattle.use_graph.specs.steps.Deeds.{IsToldOf, NeedsSo, HoldsOfOne};
ghost use Rattle.use_graph.specs.steps.LeftOut.{AreKnown};

use crate::code::Deed;
use crate::deeds::deeds_of;
use crate::feature::Feature;
use crate::left_out::calls_left_out;
use crate::numbers::MethodNumbers;
use hierarchy::member::DeclaredMember;
use program::Program;
use std::alloc::{AllocError, Global};

/// What is told of an instruction, and where it begins.
#[derive(Clone, Copy)]
pub struct Told {
    /// In bytes of the method's code.
    pub pc: u16,
    pub feature: Feature,
}

/// What the instructions of a method need, and what is told of them, in their order.
#[derive(Drop)]
pub struct BodyUses {
    /// The given classes that must be initialized. One may come several times.
    pub needs: Vec<u32>,
    pub told: Vec<Told>,
}

/// Adds the class that an instruction needs.
fn add_need(deed: Deed, needs: &mut Vec<u32>) -> Result<(), AllocError>
    ensures { OnOk result ((e : ℕ) → Contains needs.new.items e ↔ (Contains needs.old.items e ⊎ NeedsSo deed e)) }
{
    match deed.needs {
        Some(class) => {
            needs.push(class)?;
            Ok(())
        }
        None => Ok(()),
    }
}

/// Adds the classes that some instructions need.
fn add_needs(deeds: &[Deed], needs: &mut Vec<u32>) -> Result<(), AllocError>
    ensures { OnOk result ((e : ℕ) → Contains needs.new.items e
        ↔ (Contains needs.old.items e ⊎ HoldsOfOne NeedsSo deeds.now e)) }
{
    for deed in deeds {
        add_need(*deed, needs)?;
    }
    Ok(())
}

/// Adds what is told of an instruction by itself.
fn add_feature(deed: Deed, told: &mut Vec<Told>) -> Result<(), AllocError>
    ensures { OnOk result ((t : Held) → Contains told.new.items t
        ↔ (Contains told.old.items t ⊎ ((t.pc ≡ deed.pc) × (deed.feature ≡ Some t.feature)))) }
{
    match deed.feature {
        Some(feature) => {
            told.push(Told {
                pc: deed.pc,
                feature,
            })?;
            Ok(())
        }
        None => Ok(()),
    }
}

/// Adds that an instruction may call what is left out, where it may.
fn add_left_out(deed: Deed, calls_left_out: bool, told: &mut Vec<Told>) -> Result<(), AllocError>
    ensures { OnOk result ((t : Held) → Contains told.new.items t
        ↔ (Contains told.old.items t
        ⊎ ((t.pc ≡ deed.pc) × (t.feature ≡ features.LeftOut) × IsTrue calls_left_out))) }
{
    if !calls_left_out {
        return Ok(());
    }
    told.push(Told {
        pc: deed.pc,
        feature: Feature::LeftOut,
    })?;
    Ok(())
}

/// Adds what is told of an instruction.
fn add_told(
    alloc: Global,
    program: &Program,
    numbers: &MethodNumbers,
    known: &mut [Option<bool>],
    deed: Deed,
    told: &mut Vec<Told>,
) -> Result<(), AllocError>
    requires known { AreKnown program.now numbers.now known.old }
    ensures known { AreKnown program.now numbers.now known.new }
    ensures told { OnOk result ((t : Held) → Contains told.new.items t
        ↔ (Contains told.old.items t ⊎ IsToldOf program.now deed t)) }
{
    let leaves_out = calls_left_out(alloc, program, numbers, known, deed.callee)?;
    add_feature(deed, told)?;
    add_left_out(deed, leaves_out, told)?;
    Ok(())
}

/// Adds what is told of some instructions.
fn add_all_told(
    alloc: Global,
    program: &Program,
    numbers: &MethodNumbers,
    known: &mut [Option<bool>],
    deeds: &[Deed],
    told: &mut Vec<Told>,
) -> Result<(), AllocError>
    requires known { AreKnown program.now numbers.now known.old }
    ensures known { AreKnown program.now numbers.now known.new }
    ensures told { OnOk result ((t : Held) → Contains told.new.items t
        ↔ (Contains told.old.items t ⊎ HoldsOfOne (IsToldOf program.now) deeds.now t)) }
{
    for deed in deeds {
        add_told(alloc, program, numbers, known, *deed, told)?;
    }
    Ok(())
}

/// What some instructions need, and what is told of them.
fn uses_of(
    alloc: Global,
    program: &Program,
    numbers: &MethodNumbers,
    known: &mut [Option<bool>],
    deeds: &[Deed],
) -> Result<BodyUses, AllocError>
    requires known { AreKnown program.now numbers.now known.old }
    ensures known { AreKnown program.now numbers.now known.new }
    ensures uses { IfOk result (AreUsesOf program.now deeds.now) }
{
    let mut needs = Vec::new(alloc);
    let mut told = Vec::new(alloc);
    add_needs(deeds, &mut needs)?;
    add_all_told(alloc, program, numbers, known, deeds, &mut told)?;
    Ok(BodyUses { needs, told })
}

/// What the instructions of a method need, and what is told of them.
pub(crate) fn body_uses(
    alloc: Global,
    program: &Program,
    numbers: &MethodNumbers,
    known: &mut [Option<bool>],
    method: DeclaredMember,
) -> Result<BodyUses, AllocError>
    requires known { AreKnown program.now numbers.now known.old }
    ensures known { AreKnown program.now numbers.now known.new }
    ensures uses { IfOk result (AreBodyUses program.now method) }
{
    match deeds_of(alloc, program, method.class, method.index) {
        Ok(deeds) => uses_of(alloc, program, numbers, known, &deeds),
        Err(error) => Err(error),
    }
}
