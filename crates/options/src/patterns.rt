//! Lists of patterns.

ghost use Rattle.std.specs.Prelude.{◌≡◌, ◌⊎◌, [], ◌∷◌, ◌++◌, map, IfErr, IfOk, MatchOption, OnOk};
ghost use Rattle.std.specs.List.{All};
ghost use Rattle.std.specs.String.{string_bytes};
ghost use Rattle.options.specs.Lists.{items_of, IsNonEmpty, ListFails, IsFirstEmpty};
ghost use Rattle.options.specs.declared.fault.OptionFault.TheVariants.{Memory};

use crate::fault::OptionFault;
use std::alloc::{AllocError, Global};
use std::marker::Model;

/// Patterns of classes, in the order of their list.
#[derive(Drop)]
pub struct Patterns {
    /// None where there was no list.
    texts: Option<Vec<String>>,
}

impl Model for Patterns {
    ghost use Rattle.std.specs.Prelude.{List, ℕ};
    ghost use Rattle.options.specs.steps.Texts.{texts_if};

    ghost Value = { List (List ℕ) };

    ghost view = { λ s. texts_if s.texts };
}

impl Patterns {
    /// No patterns. It takes no memory.
    pub fn none() -> Patterns
        ensures { result ≡ [] }
    {
        Patterns { texts: None }
    }

    /// The patterns as texts.
    pub(crate) fn texts(&self) -> &[String]
        ensures { map string_bytes result.now ≡ self.now }
    {
        match &self.texts {
            Some(texts) => texts.as_slice(),
            None => &[],
        }
    }
}

/// The patterns of a list, which are its items between commas.
///
/// # Errors
/// `Empty` where an item is empty, by the first such; the empty text is one empty item. `Memory` where memory runs out.
pub fn parse(alloc: Global, list: &str) -> Result<Patterns, OptionFault>
    ensures items { IfOk result (λ patterns. patterns ≡ items_of list.now) }
    // A list is read just where no item is empty, but for memory.
    ensures whole { OnOk result (All IsNonEmpty (items_of list.now)) }
    ensures fault { IfErr result (λ fault. (fault ≡ Memory) ⊎ ListFails list.now fault) }
{
    let items = items_of(alloc, list)?;
    if let Some(place) = first_empty(items.as_slice()) {
        return Err(OptionFault::Empty(place));
    }
    let texts = copies(alloc, items.as_slice())?;
    Ok(Patterns { texts: Some(texts) })
}

/// The items of a list.
fn items_of<'a>(alloc: Global, list: &'a str) -> Result<Vec<&'a str>, AllocError>
    ensures { IfOk result (λ items. map (λ item. item.now) items.items ≡ items_of list.now) }
{
    list.split(',').collect(alloc)
}

/// The place of the first empty item.
fn first_empty(items: &[&str]) -> Option<usize>
    ensures { MatchOption result (All IsNonEmpty (map (λ item. item.now) items.now))
        (IsFirstEmpty (map (λ item. item.now) items.now)) }
{
    for (place, item) in items.iter().enumerate() {
        if item.is_empty() {
            return Some(place);
        }
    }
    None
}

/// Adds an item, to be kept.
fn add_copy(alloc: Global, item: &str, texts: &mut Vec<String>) -> Result<(), AllocError>
    ensures { OnOk result
        (map string_bytes texts.new.items ≡ map string_bytes texts.old.items ++ item.now ∷ []) }
{
    let text = String::from_str(alloc, item)?;
    texts.push(text)?;
    Ok(())
}

/// Adds items, to be kept, where there are none yet.
fn add_copies(alloc: Global, items: &[&str], texts: &mut Vec<String>) -> Result<(), AllocError>
    requires { texts.old.items ≡ [] }
    ensures { OnOk result (map string_bytes texts.new.items ≡ map (λ item. item.now) items.now) }
{
    for item in items {
        add_copy(alloc, item, texts)?;
    }
    Ok(())
}

/// The items, to be kept.
fn copies(alloc: Global, items: &[&str]) -> Result<Vec<String>, AllocError>
    ensures { IfOk result (λ texts. map string_bytes texts.items ≡ map (λ item. item.now) items.now) }
{
    let mut texts = Vec::new(alloc);
    match add_copies(alloc, items, &mut texts) {
        Ok(()) => Ok(texts),
        Err(error) => Err(error),
    }
}
