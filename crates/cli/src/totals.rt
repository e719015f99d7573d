//! What a build comes to, in words.

ghost use Rattle.std.specs.Prelude.{◌≡◌, ◌++◌, ◌<◌, ◌≤◌, ◌^◌, IfOk, OnOk, length};
ghost use Rattle.std.specs.List.{count_by, flat_map, sum};
ghost use Rattle.std.specs.String.{string_bytes};
ghost use Rattle.image_writer.specs.ImageTexts.{region_sizes as sizes_in};
ghost use Rattle.command_line.specs.Requests.{texts};
ghost use Rattle.inspection.specs.Texts.{objects_below};
ghost use Rattle.cli.specs.Totals.{is_built, is_left_by, left_by, left_text, totals_text};

use crate::Watch;
use crate::cures::{CURES, REASONS};
use building::Built;
use image_writer::region_sizes;
use initializer_analysis::verdict::Verdict;
use object_graph::Image;
use std::alloc::{AllocError, Global};

fn is_built(verdict: Verdict) -> bool
    ensures { result ≡ is_built verdict }
{
    matches!(verdict, Verdict::Wave(_))
}

/// How many classes are initialized.
fn built_count(verdicts: &[Verdict]) -> usize
    ensures count { result ≡ count_by is_built verdicts.now }
    ensures within { result ≤ length verdicts.now }
{
    let mut count = 0;
    for place in 0..verdicts.len() {
        if is_built(verdicts[place]) {
            count += 1;
        }
    }
    count
}

/// Whether a class is left to run time for a reason of this word.
fn is_left_by(word: &str, verdict: Verdict) -> bool
    ensures { result ≡ is_left_by word.now verdict }
{
    match verdict {
        Verdict::Wave(_) => false,
        Verdict::Refused(reason) => reason.word() == word,
    }
}

/// How many classes are.
fn left_by(verdicts: &[Verdict], word: &str) -> usize
    ensures { result ≡ left_by verdicts.now word.now }
{
    let mut count = 0;
    for place in 0..verdicts.len() {
        if is_left_by(word, verdicts[place]) {
            count += 1;
        }
    }
    count
}

/// Adds how many classes are left by a reason, if any are.
fn add_left(text: &mut String, verdicts: &[Verdict], word: &str) -> Result<(), AllocError>
    ensures { OnOk result (string_bytes text.new ≡ string_bytes text.old ++ left_text verdicts.now word.now) }
{
    let count = left_by(verdicts, word);
    if count == 0 {
        return Ok(());
    }
    write!(text, " {word} {count}")
}

/// How many classes are left by each reason of some, in their order.
fn left_texts(alloc: Global, verdicts: &[Verdict], words: &[&str]) -> Result<String, AllocError>
    ensures { IfOk result (λ text. string_bytes text ≡ flat_map (left_text verdicts.now) (texts words.now)) }
{
    let mut text = String::new(alloc);
    for word in words {
        add_left(&mut text, verdicts, word)?;
    }
    Ok(text)
}

/// How many objects the regions of the classes below a number hold.
fn objects_below(image: &Image, count: u32) -> u64
    ensures { result ≡ objects_below image.now count }
{
    let mut objects = 0;
    for class in 0..count {
        objects += u64::from(image.object_count(class));
    }
    objects
}

/// How many bytes some regions take together.
fn sum_of(sizes: &[usize]) -> u128
    requires { length sizes.now < 2 ^ 32 }
    ensures { result ≡ sum sizes.now }
{
    let mut bytes = 0;
    for place in 0..sizes.len() {
        bytes += sizes[place] as u128;
    }
    bytes
}

/// How many bytes the regions of an image take in its text.
fn bytes_of(alloc: Global, image: &Image) -> Result<u128, AllocError>
    ensures { IfOk result (λ bytes. bytes ≡ sum (sizes_in image.now)) }
{
    let sizes = region_sizes(alloc, image)?;
    Ok(sum_of(sizes.as_slice()))
}

/// What a build comes to: its classes, and how many are initialized, with how many objects and bytes; and how many are
/// left to run time by each reason.
fn totals_text(alloc: Global, image: &Image, verdicts: &[Verdict]) -> Result<String, AllocError>
    ensures { IfOk result (λ text. string_bytes text ≡ totals_text image.now verdicts.now) }
{
    let classes = verdicts.len();
    let built = built_count(verdicts);
    let left = classes - built;
    let family = image.program().family().classes();
    let objects = objects_below(image, family.len() as u32);
    let bytes = bytes_of(alloc, image)?;
    let reasons = left_texts(alloc, verdicts, &REASONS)?;
    format!(in alloc;
        "classes {classes} built {built} objects {objects} bytes {bytes} left {left}{reasons}"
    )
}

/// Adds what can be done about a reason, if classes are left by it.
fn add_cure(
    text: &mut String,
    verdicts: &[Verdict],
    word: &str,
    cure: &str,
) -> Result<(), AllocError> {
    if left_by(verdicts, word) == 0 {
        return Ok(());
    }
    writeln!(text, "{word}: {cure}")
}

/// What can be done about the reasons that stand, a line for each.
fn cures_text(alloc: Global, verdicts: &[Verdict]) -> Result<String, AllocError> {
    let mut text = String::new(alloc);
    for place in 0..REASONS.len() {
        add_cure(&mut text, verdicts, REASONS[place], CURES[place])?;
    }
    Ok(text)
}

/// Tells what a build comes to, if more is to be told. Where memory is refused for it, it is not told.
pub(crate) fn tell_totals<H: Watch>(alloc: Global, built: &Built, watch: &H) {
    if watch.wants_more()
        && let Ok(text) = totals_text(alloc, &built.image, built.verdicts.as_slice())
    {
        watch.built(text.as_str());
    }
}

/// Tells what can be done about the reasons that stand, and what the build comes to, if more is to be told.
pub(crate) fn tell_cures_and_totals<H: Watch>(alloc: Global, built: &Built, watch: &H) {
    if watch.wants_more()
        && let Ok(text) = cures_text(alloc, built.verdicts.as_slice())
    {
        watch.note(text.as_str());
    }
    tell_totals(alloc, built, watch);
}
