//! The table of classes.

ghost use Rattle.std.specs.Prelude.{◌≡◌, ◌++◌, ◌<◌, ◌≤◌, length, slice_index_or, IfOk, None, string_bytes};
ghost use Rattle.explain.specs.Texts.{AreEachBelow};
ghost use Rattle.explain.specs.steps.Known.{IsOverview};
ghost use Rattle.report_page.specs.Escapes.{escaped};
ghost use Rattle.report_page.specs.Rows.{cost_cells, cost_line, row_text, verdict_cells, IsRow};

use crate::escaping::{escaped, escaped_name};
use explain::{Cost, Overview, cost_text};
use initializer_analysis::forced::Forced;
use initializer_analysis::verdict::Verdict;
use loading::family::Family;
use object_graph::Image;
use report::reason_text;
use std::alloc::{AllocError, Global};

/// The cells of a verdict: at build or at run time, the wave, and the reason.
fn verdict_cells(alloc: Global, family: &Family, verdict: Verdict) -> Result<String, AllocError>
    ensures { IfOk result (λ text. string_bytes text ≡ verdict_cells family.now verdict) }
{
    match verdict {
        Verdict::Wave(wave) => format!(in alloc; "<td>build time<td>{wave}<td>"),
        Verdict::Refused(reason) => {
            let reason = reason_text(alloc, family, reason)?;
            let reason = escaped(alloc, reason.as_str())?;
            format!(in alloc; "<td>run time<td><td>{reason}")
        }
    }
}

/// The cells of what a class costs and leaves.
fn cost_cells(alloc: Global, found: Option<Cost>) -> Result<String, AllocError>
    ensures { IfOk result (λ text. string_bytes text ≡ cost_cells found) }
{
    let Some(found) = found else {
        return String::from_str(alloc, "<td><td><td><td>");
    };
    let Cost {
        class: _,
        cost,
        made,
        kept,
        bytes,
    } = found;
    format!(in alloc; "<td>{cost}<td>{made}<td>{kept}<td>{bytes}")
}

/// The line of what a class costs and leaves, if it is accepted.
fn cost_line(alloc: Global, family: &Family, found: Option<Cost>) -> Result<String, AllocError>
    ensures { IfOk result (λ text. string_bytes text ≡ cost_line family.now found) }
{
    match found {
        Some(found) => cost_text(alloc, family, found),
        None => Ok(String::new(alloc)),
    }
}

/// What is explained of a class, as text in HTML.
fn explained(
    alloc: Global,
    family: &Family,
    reasons: &str,
    found: Option<Cost>,
) -> Result<String, AllocError>
    ensures { IfOk result
        (λ text. string_bytes text ≡ escaped (reasons.now ++ cost_line family.now found)) }
{
    let cost = cost_line(alloc, family, found)?;
    let lines = format!(in alloc; "{reasons}{cost}")?;
    escaped(alloc, lines.as_str())
}

/// The row of a class, of which these lines are told.
fn row(
    alloc: Global,
    family: &Family,
    class: u32,
    verdict: Verdict,
    found: Option<Cost>,
    reasons: &str,
) -> Result<String, AllocError>
    ensures { IfOk result
        (λ text. string_bytes text ≡ row_text family.now class verdict found reasons.now) }
{
    let name = escaped_name(alloc, family, class)?;
    let verdict = verdict_cells(alloc, family, verdict)?;
    let cost = cost_cells(alloc, found)?;
    let told = explained(alloc, family, reasons, found)?;
    format!(in alloc; "<tr><td><b>{name}</b><pre>{told}</pre>{verdict}{cost}</tr>\n")
}

/// The cost at the number of a class.
fn cost_at(costs: &[Option<Cost>], class: u32) -> Option<Cost>
    ensures { result ≡ slice_index_or costs.now class None }
{
    match costs.get(class as usize) {
        Some(cost) => *cost,
        None => None,
    }
}

/// The row of a class.
fn class_row(
    alloc: Global,
    image: &Image,
    verdicts: &[Verdict],
    forced: &Forced,
    costs: &[Option<Cost>],
    overview: &mut Overview,
    class: u32,
) -> Result<String, AllocError>
    requires known { IsOverview image.now.program verdicts.now overview.old }
    requires class { class < length verdicts.now }
    ensures known { IsOverview image.now.program verdicts.now overview.new }
    ensures row { IfOk result
        (λ text. IsRow image.now verdicts.now forced.now costs.now class (string_bytes text)) }
{
    let reasons = overview.class_text(alloc, image, verdicts, forced, class)?;
    let verdict = verdicts[class as usize];
    let found = cost_at(costs, class);
    let text = row(
        alloc,
        image.program().family(),
        class,
        verdict,
        found,
        reasons.as_str(),
    )?;
    Ok(text)
}

/// The rows of the first `count` classes, in the order of their numbers.
pub(crate) fn rows(
    alloc: Global,
    image: &Image,
    verdicts: &[Verdict],
    forced: &Forced,
    costs: &[Option<Cost>],
    overview: &mut Overview,
    count: u32,
) -> Result<String, AllocError>
    requires known { IsOverview image.now.program verdicts.now overview.old }
    requires count { count ≤ length verdicts.now }
    ensures { IfOk result (λ text. AreEachBelow (IsRow image.now verdicts.now forced.now costs.now) count
        (string_bytes text)) }
{
    let mut rows = String::new(alloc);
    for class in 0..count {
        let row = class_row(alloc, image, verdicts, forced, costs, overview, class)?;
        rows.push_str(row.as_str())?;
    }
    Ok(rows)
}
