//! Calls on lists of patterns.

ghost use Rattle.std.specs.Prelude.{◌≡◌, length};

use super::page::Page;
use super::verdicts::settled_of;
use initializer_analysis::forced::Forced;
use options::{Demand, OptionFault, Patterns, check, demand, force, parse};
use program::Program;
use std::alloc::Global;
use std::io::Write;
use wave_scheduler::outcome::Settled;

/// Patterns that each match a class.
const FORCED: &str = "E,Box";

const DEMANDED: &str = "W,I,Point";

/// A class that is not accepted.
const UNMET: &str = "Log";

/// Makes a call twice over the same things lent.
pub fn call<W: Write>(page: &mut Page<'_, W>, name: &str, program: &Program) {
    match name {
        "options::parse" => {
            parse_list(page);
            parse_list(page);
        }
        "force" => force_twice(page, program),
        "demand" => demand_twice(page, program),
        "check" => match settled_of(page.alloc, program) {
            Ok(settled) => check_twice(page, program, &settled),
            Err(_) => page.give_up(),
        },
        _ => page.give_up(),
    }
}

fn parse_list<W: Write>(page: &mut Page<'_, W>) {
    page.ask("options::parse");
    match parse(page.alloc, FORCED) {
        Ok(_) => page.value(0),
        Err(fault) => page.line(&fault),
    }
}

fn force_twice<W: Write>(page: &mut Page<'_, W>, program: &Program) {
    let Ok(patterns) = parse(page.alloc, FORCED) else {
        return page.give_up();
    };
    force_list(page, program, &patterns);
    force_list(page, program, &patterns);
}

/// Tells how many classes are forced.
fn force_list<W: Write>(page: &mut Page<'_, W>, program: &Program, patterns: &Patterns) {
    page.ask("force");
    match force(page.alloc, program, patterns) {
        Ok(forced) => {
            let mut count = 0usize;
            for class in 0..program.given_count() {
                if forced.has(class) {
                    count = count.saturating_add(1);
                }
            }
            page.value(count)
        }
        Err(fault) => page.line(&fault),
    }
}

fn demand_twice<W: Write>(page: &mut Page<'_, W>, program: &Program) {
    let Ok(patterns) = parse(page.alloc, DEMANDED) else {
        return page.give_up();
    };
    demand_list(page, program, &patterns);
    demand_list(page, program, &patterns);
}

/// Tells how many classes are demanded.
fn demand_list<W: Write>(page: &mut Page<'_, W>, program: &Program, patterns: &Patterns) {
    let forced = Forced::none(page.alloc);
    page.ask("demand");
    match demand(page.alloc, program, patterns, &forced) {
        Ok(demand) => {
            let mut count = 0usize;
            for class in 0..program.given_count() {
                if demand.has(class) {
                    count = count.saturating_add(1);
                }
            }
            page.value(count)
        }
        Err(fault) => page.line(&fault),
    }
}

fn check_twice<W: Write>(page: &mut Page<'_, W>, program: &Program, settled: &Settled)
    requires { length settled.now.verdicts ≡ length program.now.classes }
{
    let Ok(unmet) = demanded(page.alloc, program) else {
        return page.give_up();
    };
    check_demand(page, program, settled, &unmet);
    check_demand(page, program, settled, &unmet);
}

/// What is demanded, and is not met.
fn demanded(alloc: Global, program: &Program) -> Result<Demand, OptionFault> {
    match parse(alloc, UNMET) {
        Ok(patterns) => demand(alloc, program, &patterns, &Forced::none(alloc)),
        Err(fault) => Err(fault),
    }
}

/// The class that is demanded is not accepted, and its name takes memory.
fn check_demand<W: Write>(
    page: &mut Page<'_, W>,
    program: &Program,
    settled: &Settled,
    demand: &Demand,
)
    requires { length settled.now.verdicts ≡ length program.now.classes }
{
    page.ask("check");
    match check(page.alloc, program, settled, demand) {
        Ok(()) => page.value(0),
        Err(fault) => page.line(&fault),
    }
}
