//! The classes with the most bytes.

ghost use Rattle.std.specs.Prelude.{◌≡◌, ◌++◌, ◌<◌, ◌^◌, ◌+◌, ℕ, List, MatchOption, IfSome, IfOk, OnOk, length};
ghost use Rattle.std.specs.List.{flat_map, All};
ghost use Rattle.std.specs.String.{string_bytes};
ghost use Rattle.image_writer.specs.ImageTexts.{region_sizes};
ghost use Rattle.inspection.specs.Largest.{AreLargest, IsGreatest, size_at};
ghost use Rattle.inspection.specs.Texts.{largest_line};
ghost use Rattle.inspection.specs.steps.Best.{IsBest};

use object_graph::Image;
use report::class_text;
use std::alloc::{AllocError, Global};

/// The size at a place, and 0 where there is none.
pub(crate) fn size_at(sizes: &[usize], place: usize) -> usize
    ensures { result ≡ size_at sizes.now place }
{
    match sizes.get(place) {
        Some(size) => *size,
        None => 0,
    }
}

/// The greatest size so far, and its first place, if it is above 0.
#[derive(Clone, Copy)]
pub(crate) struct Best {
    pub place: Option<usize>,
    pub size: usize,
}

/// The greatest with one more size.
#[tactic(auto, using(crate::proofs::LargestLemmas::best_is_next, crate::proofs::LargestLemmas::best_stays))]
fn better(best: Best, place: usize, size: usize) -> Best
    ensures { (sizes : List ℕ) → size ≡ size_at sizes place → IsBest sizes place best
        → IsBest sizes (place + 1) result }
{
    if size > best.size {
        return Best {
            place: Some(place),
            size,
        };
    }
    best
}

/// The place of the first of the greatest sizes, if one is above 0.
fn greatest(sizes: &[usize]) -> Option<usize>
    ensures is { MatchOption result ((d : ℕ) → size_at sizes.now d ≡ 0) (IsGreatest sizes.now) }
    ensures within { IfSome result (λ place. place < length sizes.now) }
{
    let mut best = Best {
        place: None,
        size: 0,
    };
    for place in 0..sizes.len() {
        best = better(best, place, size_at(sizes, place));
    }
    best.place
}

/// The places of the greatest sizes above 0, at most `most`: the greatest first, and of those that are equal the first.
pub(crate) fn largest(alloc: Global, sizes: &[usize], most: usize) -> Result<Vec<usize>, AllocError>
    ensures { IfOk result (λ places. AreLargest most sizes.now places.items) }
{
    let mut left = Vec::from_slice(alloc, sizes)?;
    let mut places = Vec::new(alloc);
    for _ in 0..most {
        let Some(place) = greatest(&left) else {
            return Ok(places);
        };
        left[place] = 0;
        places.push(place)?;
    }
    Ok(places)
}

/// Adds the line of a class, where these are the sizes of regions.
fn add_line(
    alloc: Global,
    text: &mut String,
    image: &Image,
    sizes: &[usize],
    class: usize,
) -> Result<(), AllocError>
    requires sizes { sizes.now ≡ region_sizes image.now }
    requires few { length sizes.now < 2 ^ 32 }
    requires class { class < length sizes.now }
    ensures { OnOk result (string_bytes text.new ≡ string_bytes text.old ++ largest_line image.now class) }
{
    let name = class_text(alloc, image.program().family(), class as u32)?;
    let size = size_at(sizes, class);
    writeln!(text, "largest {size} {name}")
}

/// The lines of classes, where these are the sizes of regions.
pub(crate) fn largest_lines(
    alloc: Global,
    image: &Image,
    sizes: &[usize],
    classes: &[usize],
) -> Result<String, AllocError>
    requires sizes { sizes.now ≡ region_sizes image.now }
    requires few { length sizes.now < 2 ^ 32 }
    requires classes { All (λ (class : ℕ). class < length sizes.now) classes.now }
    ensures { IfOk result (λ text. string_bytes text ≡ flat_map (largest_line image.now) classes.now) }
{
    let mut text = String::new(alloc);
    for class in classes {
        add_line(alloc, &mut text, image, sizes, *class)?;
    }
    Ok(text)
}
