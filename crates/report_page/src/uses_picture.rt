//! A picture of the dearest accepted classes in the columns of their waves, with which of them use which.

ghost use Rattle.std.specs.Prelude.{◌<◌};
ghost use Rattle.use_graph.specs.steps.Bodies.{IsUseGraph};

use crate::drawing::{HEIGHT, Link, Node, Picture, Point, WIDTH};
use explain::{Cost, Overview};
use initializer_analysis::verdict::Verdict;
use program::Program;
use std::alloc::{AllocError, Global};

/// How many classes a picture has, and how many columns.
const MOST: usize = 24;

const COLUMNS: usize = 4;

/// How far a column is to the right of the one before, and a row below the one before.
const COLUMN: u32 = 336;

const ROW: u32 = 32;

/// The wave of a class, and 0 where it has none.
fn wave_of(verdicts: &[Verdict], class: u32) -> usize {
    match verdicts.get(class as usize) {
        Some(Verdict::Wave(wave)) => *wave,
        _ => 0,
    }
}

/// The waves of some classes, each once, in ascending order.
fn waves_of(alloc: Global, verdicts: &[Verdict], shown: &[Cost]) -> Result<Vec<usize>, AllocError> {
    let mut waves = Vec::new(alloc);
    for found in shown {
        let wave = wave_of(verdicts, found.class);
        if !waves.contains(&wave) {
            waves.push(wave)?;
        }
    }
    waves.sort_unstable();
    Ok(waves)
}

/// The column of a wave, by its place among the waves that are shown: each has a column of its own, or where there are
/// more of them some that follow one another share one.
fn column_of(waves: &[usize], wave: usize) -> usize
    ensures { result < 4 }
{
    for (place, other) in waves.iter().enumerate() {
        if *other == wave {
            let column = if waves.len() <= COLUMNS {
                place
            } else {
                place.saturating_mul(COLUMNS) / waves.len()
            };
            return column.min(COLUMNS - 1);
        }
    }
    0
}

/// Adds the boxes of classes, each in the column of its wave below those that are there.
fn add_nodes(
    alloc: Global,
    verdicts: &[Verdict],
    shown: &[Cost],
    picture: &mut Picture,
) -> Result<(), AllocError> {
    let waves = waves_of(alloc, verdicts, shown)?;
    let mut rows = [0u32; COLUMNS];
    for found in shown {
        let column = column_of(waves.as_slice(), wave_of(verdicts, found.class));
        let row = rows[column];
        rows[column] = row.saturating_add(1);
        let at = Point {
            x: (column as u32).saturating_mul(COLUMN).saturating_add(1),
            y: row.saturating_mul(ROW).saturating_add(1),
        };
        picture.add(found.class, Some(found.cost), at)?;
    }
    Ok(())
}

/// The curve from the box of a class to the box of one that uses it.
fn link_between(used: Node, user: Node) -> Link {
    let from = Point {
        x: used.x.saturating_add(WIDTH),
        y: used.y.saturating_add(HEIGHT / 2),
    };
    let to = Point {
        x: user.x,
        y: user.y.saturating_add(HEIGHT / 2),
    };
    Link {
        from,
        first: Point {
            x: from.x.saturating_add(35),
            y: from.y,
        },
        second: Point {
            x: to.x.saturating_sub(35),
            y: to.y,
        },
        to,
    }
}

/// Adds curves to the box of a class from those of the classes that it uses.
fn add_links_of(
    alloc: Global,
    program: &Program,
    overview: &Overview,
    user: Node,
    nodes: &[Node],
    links: &mut Vec<Link>,
) -> Result<(), AllocError>
    requires { IsUseGraph program.now overview.now.known.uses }
{
    let uses = overview.uses(alloc, program, user.class)?;
    for used in nodes {
        if used.x < user.x && uses.classes.contains(&used.class) {
            links.push(link_between(*used, user))?;
        }
    }
    Ok(())
}

/// The curves between the boxes of classes.
fn links_between(
    alloc: Global,
    program: &Program,
    overview: &Overview,
    nodes: &[Node],
) -> Result<Vec<Link>, AllocError>
    requires { IsUseGraph program.now overview.now.known.uses }
{
    let mut links = Vec::new(alloc);
    for user in nodes {
        add_links_of(alloc, program, overview, *user, nodes, &mut links)?;
    }
    Ok(links)
}

/// The first of some classes, as many as a picture has.
fn first_of(costs: &[Cost]) -> &[Cost] {
    if costs.len() <= MOST {
        costs
    } else {
        &costs[..MOST]
    }
}

/// The picture of the first of some accepted classes.
pub(crate) fn uses_picture(
    alloc: Global,
    program: &Program,
    overview: &Overview,
    verdicts: &[Verdict],
    dearest: &[Cost],
) -> Result<Picture, AllocError>
    requires { IsUseGraph program.now overview.now.known.uses }
{
    let mut picture = Picture::none(alloc);
    add_nodes(alloc, verdicts, first_of(dearest), &mut picture)?;
    picture.links = links_between(alloc, program, overview, picture.nodes.as_slice())?;
    Ok(picture)
}
