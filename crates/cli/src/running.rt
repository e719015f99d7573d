//! Runs of worlds whose text goes out while they run.

ghost use Rattle.std.specs.Prelude.{◌≡◌, ◌≤◌, length, drop, take, true, IfOk, IfErr};
ghost use Rattle.std.specs.Io.KnownBytes.{Appends};
ghost use Rattle.vm_state.specs.Output.{text_of};
ghost use Rattle.init_engine.specs.Schedules.{AreRuns};
ghost use Rattle.init_engine.specs.Turns.{world_of};
ghost use Rattle.cli.specs.declared.running.RunFault.TheVariants.{Memory};
ghost use Rattle.cli.specs.Running.{HasRun, IsCutShort, IsStanding, SendsTo};

use init_engine::{Ending, Output, Rest, Seen, Turning, World};
use program::Program;
use std::alloc::{AllocError, Global};
use std::io::Write;

/// How many steps a world makes at most before what it printed goes out.
const STEPS: u64 = 50_000;

/// After how many bytes of text these go out.
const BYTES: u64 = 65_536;

/// What is left to tell of a run whose text went out.
#[derive(Drop)]
pub struct Ran {
    /// How far each thread has come, by its number.
    pub threads: Vec<Ending>,
    /// Whether all threads have ended, or none has a step, or one still has.
    pub rest: Rest,
    /// The schedule by its runs: a thread, and how many steps it made in a row.
    pub schedule: Vec<(u32, u64)>,
}

/// Why a run was cut short.
#[derive(Clone, Copy, Debug)]
pub enum RunFault {
    /// Memory ran out. What was printed by the slices before has gone out.
    Memory,
    /// The sink failed. The first bytes of what was printed have gone out.
    Device,
}

impl From<AllocError> for RunFault {
    ghost from_gives = { λ _ e. e ≡ Memory };

    fn from(_error: AllocError) -> RunFault {
        RunFault::Memory
    }
}

/// Runs a world by turns, for at most `limit` steps, and sends what it prints while it runs: after 64 KiB of text or
/// 50,000 steps at the latest.
///
/// # Errors
/// `Device` where the sink failed, and `Memory` where memory was refused. What went out then is what a run from this
/// world printed, or its first bytes.
pub fn run_world<W: Write>(
    alloc: Global,
    program: &Program,
    world: World,
    limit: u64,
    out: &mut W,
) -> Result<Ran, RunFault>
    ensures ran { IfOk result (HasRun program.now (world_of world) limit (W.contents out.old) (W.contents out.new)) }
    ensures cut { IfErr result (IsCutShort program.now (world_of world) (W.contents out.old) (W.contents out.new)) }
{
    let mut turning = Turning::new(alloc, world, limit);
    let mut sent = 0;
    'slices: loop {
        let over = match turning.go_on(alloc, program, STEPS, BYTES) {
            Ok(over) => over,
            Err(_) => return Err(RunFault::Memory),
        };
        match send_further(turning.printed(), sent, out) {
            Ok(count) => sent = count,
            Err(fault) => return Err(fault),
        }
        if over {
            return match what_is_left(alloc, program, turning) {
                Ok(ran) => Ok(ran),
                Err(_) => Err(RunFault::Memory),
            };
        }
    }
}

/// What is left to tell of a run by turns that is over.
fn what_is_left(alloc: Global, program: &Program, turning: Turning) -> Result<Ran, AllocError>
    ensures stands { IfOk result (IsStanding program.now (world_of turning.world)) }
    ensures schedule { IfOk result (λ ran. ran.schedule.items ≡ turning.schedule) }
    ensures apart { IfOk result (λ ran. AreRuns ran.schedule.items) }
{
    let (world, schedule) = turning.into_parts()?;
    let threads = world.endings(alloc)?;
    let rest = world.rest(program);
    Ok(Ran {
        threads,
        rest,
        schedule,
    })
}

/// Sends the prints after the first `sent`, and answers how many there are.
fn send_further<W: Write>(printed: &Output, sent: usize, out: &mut W) -> Result<usize, RunFault>
    requires { sent ≤ length printed.now }
    ensures all { IfOk result (λ count. count ≡ length printed.now) }
    ensures sends { SendsTo (W.contents out.old) (W.contents out.new) (text_of (drop sent printed.now)) result }
{
    let text = printed.text_from(sent);
    if text.is_empty() {
        return Ok(printed.count());
    }
    let (_, whole) = send_all(text, out);
    if !whole || out.flush().is_err() {
        return Err(RunFault::Device);
    }
    Ok(printed.count())
}

/// Sends bytes, and answers how many went out, and whether all did.
fn send_all<W: Write>(bytes: &[u8], out: &mut W) -> (usize, bool)
    ensures within { result.0 ≤ length bytes.now }
    ensures got { Appends (W.contents out.old) (W.contents out.new) (take result.0 bytes.now) }
    ensures whole { result.1 ≡ true → result.0 ≡ length bytes.now }
{
    let mut at = 0;
    while at < bytes.len() {
        let (_, rest) = bytes.split_at(at);
        match out.write(rest) {
            Err(_) => return (at, false),
            Ok(0) => return (at, false),
            Ok(n) => at += n,
        }
    }
    (at, true)
}

/// Sends what was printed.
pub(crate) fn send_seen<W: Write>(seen: &Seen, out: &mut W) -> Result<(), RunFault>
    ensures { SendsTo (W.contents out.old) (W.contents out.new) (text_of seen.now.printed) result }
{
    match send_further(&seen.printed, 0, out) {
        Ok(_) => Ok(()),
        Err(fault) => Err(fault),
    }
}
