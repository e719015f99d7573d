//! Explanations as lines of text, each of which begins with the name of the class.

ghost use Rattle.std.specs.Prelude.{◌≡◌, ◌≤◌, length, IfOk, string_bytes};
ghost use Rattle.std.specs.List.{flat_map};
ghost use Rattle.explain.specs.Costs.{cost_text, IsCostsText};
ghost use Rattle.explain.specs.AllTexts.{IsAllText};
ghost use Rattle.explain.specs.Texts.{blamed_line, verdict_line, AreAtMost, AreEachBelow};
ghost use Rattle.explain.specs.Texts.{IsBlamedLine, IsClassText, IsTextAmongAll};
ghost use Rattle.explain.specs.steps.Known.{IsOverview};

use crate::blamed::Blamed;
use crate::chain_lines::chain_text;
use crate::costs::{Cost, costs_of, dearest_first};
use crate::explaining::Knowledge;
use crate::overview::Overview;
use crate::reason_lines::reason_lines;
use crate::run_lines::{cost_text, run_text};
use crate::words::{line, name_text};
use initializer_analysis::forced::Forced;
use initializer_analysis::verdict::Verdict;
use loading::family::Family;
use object_graph::Image;
use report::verdict_text;
use std::alloc::{AllocError, Global};

/// The line that a report has of a class.
pub(crate) fn verdict_line(
    alloc: Global,
    image: &Image,
    class: u32,
    verdict: Option<Verdict>,
) -> Result<String, AllocError>
    ensures { IfOk result (λ text. string_bytes text ≡ verdict_line image.now class verdict) }
{
    let Some(verdict) = verdict else {
        return Ok(String::new(alloc));
    };
    let words = verdict_text(alloc, image, class, verdict)?;
    line(alloc, image.program().family(), class, words.as_str())
}

/// The explanation of one class, of a build with this budget: the line that a report has of it; what its initializer
/// costs and leaves, or where it was stopped; and then each reason that holds, with the calls that lead to what its
/// code is marked for, and the classes down to the one for whose sake it stays.
///
/// # Errors
/// Where memory runs out.
pub fn class_text(
    alloc: Global,
    image: &Image,
    verdicts: &[Verdict],
    forced: &Forced,
    budget: u64,
    class: u32,
) -> Result<String, AllocError>
    requires { length verdicts.now ≡ length image.now.program.classes }
    ensures { IfOk result
        (λ text. IsClassText image.now verdicts.now forced.now budget class (string_bytes text)) }
{
    let program = image.program();
    let family = program.family();
    let mut known = Knowledge::of_program(alloc, program, verdicts)?;
    let explanation = known.explain(alloc, program, verdicts, forced, true, class)?;
    let verdict = verdict_line(alloc, image, class, explanation.verdict)?;
    let run = run_text(alloc, image, budget, class, explanation.verdict)?;
    let reasons = reason_lines(alloc, family, class, &explanation)?;
    let chain = chain_text(alloc, family, verdicts, class, explanation.first)?;
    let text = format!(in alloc; "{verdict}{run}{reasons}{chain}")?;
    Ok(text)
}

/// The explanations of the first `count` classes, in the order of their numbers.
fn each_text(
    alloc: Global,
    image: &Image,
    verdicts: &[Verdict],
    forced: &Forced,
    overview: &mut Overview,
    count: u32,
) -> Result<String, AllocError>
    requires { IsOverview image.now.program verdicts.now overview.old }
    ensures known { IsOverview image.now.program verdicts.now overview.new }
    ensures text { IfOk result
        (λ text. AreEachBelow (IsTextAmongAll image.now verdicts.now forced.now) count (string_bytes text)) }
{
    let mut text = String::new(alloc);
    for class in 0..count {
        let lines = overview.class_text(alloc, image, verdicts, forced, class)?;
        text.push_str(lines.as_str())?;
    }
    Ok(text)
}

/// The line of a class for whose sake others stay at run time.
fn blamed_line(alloc: Global, family: &Family, blamed: Blamed) -> Result<String, AllocError>
    ensures { IfOk result
        (λ text. string_bytes text ≡ blamed_line family.now blamed.class blamed.others) }
{
    let name = name_text(alloc, family, blamed.class)?;
    let others = blamed.others;
    format!(in alloc; "{others} depend on {name}\n")
}

/// The lines of a few classes for whose sake others stay at run time.
fn blamed_text(alloc: Global, family: &Family, blamed: &[Blamed]) -> Result<String, AllocError>
    requires { length blamed.now ≤ 10 }
    ensures { IfOk result (λ text. AreAtMost 10 (IsBlamedLine family.now) (string_bytes text)) }
{
    let mut text = String::new(alloc);
    for one in blamed {
        let line = blamed_line(alloc, family, *one)?;
        text.push_str(line.as_str())?;
    }
    Ok(text)
}

/// The lines of what accepted classes cost.
fn cost_lines(alloc: Global, family: &Family, costs: &[Cost]) -> Result<String, AllocError>
    ensures { IfOk result (λ text. string_bytes text ≡ flat_map (λ found. cost_text family.now found) costs.now) }
{
    let mut text = String::new(alloc);
    for cost in costs {
        let line = cost_text(alloc, family, *cost)?;
        text.push_str(line.as_str())?;
    }
    Ok(text)
}

/// The lines of what all accepted classes cost, the dearest first.
fn costs_text(
    alloc: Global,
    image: &Image,
    verdicts: &[Verdict],
    budget: u64,
) -> Result<String, AllocError>
    requires { length verdicts.now ≡ length image.now.program.classes }
    ensures { IfOk result (λ text. IsCostsText image.now verdicts.now budget (string_bytes text)) }
{
    let costs = costs_of(alloc, image, verdicts, budget)?;
    let dearest = dearest_first(alloc, costs.as_slice())?;
    let text = cost_lines(alloc, image.program().family(), dearest.as_slice())?;
    Ok(text)
}

/// The explanations of all classes, without calls and with the ends of chains alone; then the ten classes for whose
/// sake the most others stay at run time; and then what each accepted class costs, the dearest first.
///
/// # Errors
/// Where memory runs out.
pub fn all_text(
    alloc: Global,
    image: &Image,
    verdicts: &[Verdict],
    forced: &Forced,
    budget: u64,
) -> Result<String, AllocError>
    requires { length verdicts.now ≡ length image.now.program.classes }
    ensures { IfOk result (λ text. IsAllText image.now verdicts.now forced.now budget (string_bytes text)) }
{
    let program = image.program();
    let count = program.given_count();
    let mut overview = Overview::of_program(alloc, program, verdicts)?;
    let each = each_text(alloc, image, verdicts, forced, &mut overview, count)?;
    let most = overview.most_blamed(alloc, 10)?;
    let blamed = blamed_text(alloc, program.family(), most.as_slice())?;
    let costs = costs_text(alloc, image, verdicts, budget)?;
    let text = format!(in alloc; "{each}{blamed}{costs}")?;
    Ok(text)
}
