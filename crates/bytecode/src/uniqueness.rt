//! What a code says it says once.

ghost use Rattle.std.specs.Prelude.{◌≡◌, ◌<◌, ◌^◌, ◌++◌, ℕ, ℤ, List, Option};
ghost use Rattle.std.specs.List.{All};
ghost use Rattle.bytecode.specs.Bad.{IsBad};
ghost use Rattle.bytecode.specs.Body.{IsBody};
ghost use Rattle.bytecode.specs.Spelling.{Spells};
ghost use Rattle.bytecode.specs.declared.instruction.Instruction.{Instruction};
ghost use Rattle.bytecode.specs.declared.placed.Placed.{Placed};
ghost use Rattle.bytecode.specs.reading.Causes.{HasBadCause};

/// A code has one body alone (JVMS 4.9.1, 6.5).
pub fn one_body()
    ensures { (code : List ℕ) (a b : List Placed) → IsBody code a → IsBody code b → a ≡ b }
{}

/// At a pc one instruction alone is spelled by a beginning of some bytes, and by one beginning alone
/// (JVMS 6.5), where each offset names one target.
pub fn one_instruction()
    ensures { (named : ℤ → Option ℕ) (pc : ℕ) (a b : Instruction) (spells_a spells_b after_a after_b : List ℕ)
        → Spells (λ offset target. target ≡ named offset) pc a spells_a
        → Spells (λ offset target. target ≡ named offset) pc b spells_b
        → spells_a ++ after_a ≡ spells_b ++ after_b → (a ≡ b) × (spells_a ≡ spells_b) }
{}

/// Where no instruction stands there is a cause: an unknown opcode, one that the code's end cuts from
/// its operands, or operands that it cannot have (JVMS 6.5). And where there is a cause none stands.
pub fn bad_by_causes()
    ensures only { (pc : ℕ) (code : List ℕ) → HasBadCause pc code → IsBad pc code }
    ensures all { (pc : ℕ) (code : List ℕ) → All (λ byte. byte < 2 ^ 8) code → IsBad pc code
        → HasBadCause pc code }
{}
