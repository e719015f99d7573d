//! A picture of the classes for whose sake others stay at run time, each with some of those that depend on it.

ghost use Rattle.std.specs.Prelude.{◌<◌};

use crate::drawing::{HEIGHT, Link, Picture, Point};
use explain::Blamed;
use initializer_analysis::verdict::{Reason, Verdict};
use std::alloc::{AllocError, Global};

/// How many classes a picture has, how many of those that depend on one, and how many levels of these.
const MOST: u32 = 60;

const MOST_OF_ONE: usize = 4;

const LEVELS: u32 = 5;

/// In how many columns the classes stand that depend on none, and how far a column is to the right of the one before.
const COLUMNS: usize = 3;

const COLUMN: u32 = 444;

/// How far one level is to the right of the one before, and a row below the one before.
const INDENT: u32 = 34;

const ROW: u32 = 30;

/// A class that is to be drawn, below the one on which it depends.
#[derive(Clone, Copy)]
struct Waiting {
    class: u32,
    level: u32,
    /// How many others stay for its sake, where it depends on none.
    others: Option<u64>,
    /// Where the box of the one stands on which it depends, and in which column.
    above: Option<Above>,
}

/// Where a box stands, and in which column.
#[derive(Clone, Copy)]
struct Above {
    at: Point,
    column: usize,
}

/// How many boxes each column has.
type Rows = [u32; COLUMNS];

/// Whether a verdict is that a class depends on another.
fn depends_on(verdict: Verdict, class: u32) -> bool {
    match verdict {
        Verdict::Refused(Reason::DependsOn(other)) => other == class,
        _ => false,
    }
}

/// The first few classes that depend on a class.
fn dependents_of(alloc: Global, verdicts: &[Verdict], class: u32) -> Result<Vec<u32>, AllocError> {
    let mut few = Vec::new(alloc);
    for (number, verdict) in verdicts.iter().enumerate() {
        let Ok(other) = u32::try_from(number) else {
            return Ok(few);
        };
        if few.len() < MOST_OF_ONE && depends_on(*verdict, class) {
            few.push(other)?;
        }
    }
    Ok(few)
}

/// Has the first few that depend on a class drawn next, in their order.
fn add_dependents(
    alloc: Global,
    verdicts: &[Verdict],
    of: Waiting,
    above: Above,
    waiting: &mut Vec<Waiting>,
) -> Result<(), AllocError> {
    let few = dependents_of(alloc, verdicts, of.class)?;
    for class in few.iter().rev() {
        waiting.push(Waiting {
            class: *class,
            level: of.level.saturating_add(1),
            others: None,
            above: Some(above),
        })?;
    }
    Ok(())
}

/// The curve from the box of a class down to the box of one that depends on it.
fn link_between(above: Point, at: Point) -> Link {
    let x = above.x.saturating_add(14);
    let y = at.y.saturating_add(HEIGHT / 2);
    Link {
        from: Point {
            x,
            y: above.y.saturating_add(HEIGHT),
        },
        first: Point { x, y },
        second: Point { x, y },
        to: Point { x: at.x, y },
    }
}

/// The column with the fewest boxes.
fn shortest(rows: &Rows) -> usize
    ensures { result < 3 }
{
    let mut least = 0;
    for column in 1..COLUMNS {
        if rows[column] < rows[least] {
            least = column;
        }
    }
    least
}

/// The place of a class: below the boxes of the column of the one on which it depends, or of the shortest column.
fn place_of(next: Waiting, rows: &mut Rows) -> Above {
    let column = match next.above {
        Some(above) => above.column.min(COLUMNS - 1),
        None => shortest(rows),
    };
    let row = rows[column];
    rows[column] = row.saturating_add(1);
    let left = (column as u32).saturating_mul(COLUMN);
    let at = Point {
        x: left
            .saturating_add(next.level.saturating_mul(INDENT))
            .saturating_add(1),
        y: row.saturating_mul(ROW).saturating_add(1),
    };
    Above { at, column }
}

/// Adds a class to a picture, and those that depend on it to what is to be drawn.
fn draw(
    alloc: Global,
    verdicts: &[Verdict],
    next: Waiting,
    rows: &mut Rows,
    waiting: &mut Vec<Waiting>,
    picture: &mut Picture,
) -> Result<(), AllocError> {
    let place = place_of(next, rows);
    if let Some(above) = next.above {
        picture.links.push(link_between(above.at, place.at))?;
    }
    picture.add(next.class, next.others, place.at)?;
    if next.level < LEVELS {
        add_dependents(alloc, verdicts, next, place, waiting)?;
    }
    Ok(())
}

/// Draws what waits, up to so many classes.
fn draw_all(
    alloc: Global,
    verdicts: &[Verdict],
    waiting: &mut Vec<Waiting>,
    picture: &mut Picture,
) -> Result<(), AllocError> {
    let mut rows = [0u32; COLUMNS];
    for _ in 0..MOST {
        let Some(next) = waiting.pop() else {
            return Ok(());
        };
        draw(alloc, verdicts, next, &mut rows, waiting, picture)?;
    }
    Ok(())
}

/// The picture of these classes, each with how many others stay at run time for its sake.
pub(crate) fn forest(
    alloc: Global,
    verdicts: &[Verdict],
    roots: &[Blamed],
) -> Result<Picture, AllocError> {
    let mut picture = Picture::none(alloc);
    let mut waiting = Vec::new(alloc);
    for root in roots.iter().rev() {
        let Ok(class) = u32::try_from(root.class) else {
            return Ok(picture);
        };
        waiting.push(Waiting {
            class,
            level: 0,
            others: Some(u64::from(root.others)),
            above: None,
        })?;
    }
    draw_all(alloc, verdicts, &mut waiting, &mut picture)?;
    Ok(picture)
}
