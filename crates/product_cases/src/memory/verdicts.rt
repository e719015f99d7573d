//! Calls that find out which classes are initialized at build time.

ghost use Rattle.std.specs.Prelude.{◌≡◌, IfOk, length};
ghost use Rattle.wave_scheduler.specs.Outcomes.{AreJudged};

use super::page::Page;
use evaluator::outcome::Evaluation;
use evaluator::settling::evaluate;
use initializer_analysis::forced::Forced;
use initializer_analysis::judge;
use initializer_analysis::verdict::Verdicts;
use program::Program;
use region_shape::regions::Regions;
use std::alloc::{AllocError, Global};
use std::io::Write;
use std::sync::Wait;
use std::thread::Threads;
use use_graph::uses;
use wave_scheduler::outcome::{Settled, WaveFault};
use wave_scheduler::{Open, settle_all, settle_all_here};

/// What each initializer may cost.
const BUDGET: u64 = 1_000;

/// How many workers settle.
const WORKERS: u32 = 3;

/// Makes a call twice over the same things lent.
pub fn call<R: Threads + Wait + Sync, W: Write>(
    rt: &R,
    page: &mut Page<'_, W>,
    name: &str,
    program: &Program,
) {
    let Ok(settled) = settled_of(page.alloc, program) else {
        return page.give_up();
    };
    make(rt, page, name, program, &settled.regions);
    make(rt, page, name, program, &settled.regions);
}

fn make<R: Threads + Wait + Sync, W: Write>(
    rt: &R,
    page: &mut Page<'_, W>,
    name: &str,
    program: &Program,
    regions: &Regions,
) {
    match name {
        "uses" => {
            page.ask(name);
            page.number(uses_in(page.alloc, program));
        }
        "judge" => {
            page.ask(name);
            page.number(judged_in(page.alloc, program));
        }
        "settle" => {
            page.ask(name);
            page.number(settled_over(page.alloc, program, regions));
        }
        "settle_all_here" | "settle_all" => settle(rt, page, name, program),
        "Regions::put" => put_last(page, program),
        _ => page.give_up(),
    }
}

/// How many methods may run for the classes of a program, and classes that they may use.
fn uses_in(alloc: Global, program: &Program) -> Result<usize, AllocError> {
    let mut count = 0usize;
    for class in 0..program.given_count() {
        let Ok(found) = uses(alloc, program, class) else {
            return Err(AllocError);
        };
        count = count.saturating_add(found.methods.len());
        count = count.saturating_add(found.classes.len());
    }
    Ok(count)
}

/// How many classes of a program settle over these regions.
fn settled_over(alloc: Global, program: &Program, regions: &Regions) -> Result<usize, AllocError> {
    let mut count = 0usize;
    for class in 0..program.given_count() {
        if let Evaluation::Settled(_) = evaluate(alloc, program, regions, class, BUDGET)? {
            count = count.saturating_add(1);
        }
    }
    Ok(count)
}

/// The verdicts on the classes of a program.
fn judged(alloc: Global, program: &Program) -> Result<Verdicts, AllocError>
    ensures { IfOk result (λ verdicts. AreJudged program.now verdicts) }
{
    judge(alloc, program, &Forced::none(alloc))
}

/// How many there are.
fn judged_in(alloc: Global, program: &Program) -> Result<usize, AllocError> {
    match judged(alloc, program) {
        Ok(verdicts) => Ok(verdicts.as_slice().len()),
        Err(error) => Err(error),
    }
}

/// Settles on this thread, or by workers.
fn settle<R: Threads + Wait + Sync, W: Write>(
    rt: &R,
    page: &mut Page<'_, W>,
    name: &str,
    program: &Program,
) {
    let Ok(verdicts) = judged(page.alloc, program) else {
        return page.give_up();
    };
    page.ask(name);
    let answer = if name == "settle_all" {
        settle_all(rt, page.alloc, program, verdicts, BUDGET, WORKERS, &Open)
    } else {
        settle_all_here(page.alloc, program, verdicts, BUDGET)
    };
    tell_settled(page, program, &answer)
}

/// Tells how many classes have a region.
fn tell_settled<W: Write>(
    page: &mut Page<'_, W>,
    program: &Program,
    answer: &Result<Settled, WaveFault>,
) {
    let mut count = 0usize;
    match answer {
        Ok(settled) => {
            for class in 0..program.given_count() {
                if settled.regions.get(class).is_some() {
                    count = count.saturating_add(1);
                }
            }
            page.value(count)
        }
        Err(fault) => page.line(fault),
    }
}

/// What becomes of all classes of a program.
pub fn settled_of(alloc: Global, program: &Program) -> Result<Settled, AllocError>
    ensures { IfOk result (λ settled. length settled.verdicts ≡ length program.now.classes) }
{
    let verdicts = judged(alloc, program)?;
    match settle_all_here(alloc, program, verdicts, BUDGET) {
        Ok(settled) => Ok(settled),
        Err(_) => Err(AllocError),
    }
}

/// Puts the region of the last class where there is none.
fn put_last<W: Write>(page: &mut Page<'_, W>, program: &Program) {
    let Ok(mut settled) = settled_of(page.alloc, program) else {
        return page.give_up();
    };
    let last = program.given_count().saturating_sub(1);
    let Some(region) = settled.regions.take(last) else {
        return page.give_up();
    };
    let mut regions = Regions::none(page.alloc);
    page.ask("Regions::put");
    let answer = regions.put(last, region);
    match (answer, regions.get(last).is_some()) {
        (Ok(()), true) => page.value(1),
        (Err(_), false) => page.memory(),
        _ => page.line(&"the regions are wrong"),
    }
}
