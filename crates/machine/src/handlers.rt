//! Exception handlers of methods (JVMS 2.10, 4.7.3).

ghost use Rattle.std.specs.Prelude.{◌≡◌, slice_get};
ghost use Rattle.std.specs.List.{find};
ghost use Rattle.machine.specs.Handlers.{catches, handles, place_from, thrown_at, handler_of};

use built_in::class_id::ClassId;
use bytecode::Body;
use program::Program;
use program::class::{Implementation, MethodCode};
use program::handler::{Catches, Handler};
use vm_state::frame::Activity;

/// A place where no body has an instruction: a code has at most 65,535 bytes (JVMS 4.7.3).
const NO_PLACE: u32 = u32::MAX;

/// Whether objects of a class are caught.
fn catches(program: &Program, class: ClassId, caught: Catches) -> bool
    ensures { result ≡ catches program.now.family class caught }
{
    match caught {
        Catches::Anything => true,
        Catches::Class(None) => false,
        Catches::Class(Some(other)) => program.is_below(class, other),
    }
}

/// Whether an entry of an exception table takes an exception of a class that is thrown at a pc.
fn handles(program: &Program, class: ClassId, pc: u16, handler: &Handler) -> bool
    ensures { result ≡ handles program.now.family class pc handler.now }
{
    handler.start_pc <= pc && pc < handler.end_pc && catches(program, class, handler.catches)
}

/// The first entry that takes it.
fn first_handler(
    program: &Program,
    handlers: &[Handler],
    class: ClassId,
    pc: u16,
) -> Option<Handler>
    ensures { result ≡ find (handles program.now.family class pc) handlers.now }
{
    for handler in handlers {
        if handles(program, class, pc, handler) {
            return Some(*handler);
        }
    }
    None
}

/// Where the instruction stands that begins at a pc.
fn place_from(body: &Body, pc: u16) -> u32
    ensures { result ≡ place_from body.now pc }
{
    match body.place_of(pc) {
        Some(place) => place,
        None => NO_PLACE,
    }
}

/// Where a method goes on after an exception of a class that is thrown at a place.
fn thrown_at(program: &Program, code: &MethodCode, class: ClassId, place: u32) -> Option<u32>
    ensures { result ≡ thrown_at program.now.family code.now class (slice_get code.now.body place) }
{
    let pc = code.body.pc(place)?;
    let handler = first_handler(program, code.handlers.as_slice(), class, pc)?;
    Some(place_from(&code.body, handler.handler_pc))
}

/// The place of the handler of an exception of a class that is thrown at a place, if there is one.
#[tactic(auto, unfolding(crate::specs::Handlers::handler_of))]
pub fn handler_of(program: &Program, activity: Activity, place: u32, class: ClassId) -> Option<u32>
    ensures { result ≡ handler_of program.now activity place class }
{
    let Activity::Method {
        class: owner,
        index,
    } = activity
    else {
        return None;
    };
    match program.implementation(owner, index) {
        Some(Implementation::Code(code)) => thrown_at(program, code, class, place),
        _ => None,
    }
}
