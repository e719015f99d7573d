//! Where switches lead (JVMS 6.5, `tableswitch` and `lookupswitch`).

ghost use Rattle.std.specs.Prelude.{◌≡◌};
ghost use Rattle.frame_instructions.specs.SwitchTargets.{distance_above, table_target, lookup_target};

use bytecode::{LookupSwitch, TableSwitch};

/// How far a key is above another int that is not above it.
#[tactic(auto, unfolding(crate::specs::SwitchTargets::distance_above))]
#[inline(always)]
fn distance_above(low: i32, key: i32) -> usize
    ensures { result ≡ distance_above low key }
{
    key.wrapping_sub(low).cast_unsigned() as usize
}

/// The target of a key, or none where no instruction begins there.
#[inline(always)]
pub fn table_target(switch: &TableSwitch, key: i32) -> Option<u32>
    ensures { result ≡ table_target switch.now key }
{
    let low = switch.low();
    if key < low {
        return switch.default();
    }
    match switch.targets().get(distance_above(low, key)) {
        Some(target) => *target,
        None => switch.default(),
    }
}

/// The target of a key, or none where no instruction begins there.
#[inline(always)]
pub fn lookup_target(switch: &LookupSwitch, key: i32) -> Option<u32>
    ensures { result ≡ lookup_target switch.now key }
{
    match switch.target(key) {
        Some(target) => target,
        None => switch.default(),
    }
}
