//! Names of array types whose elements are of a class that is neither given nor built in.

ghost use Rattle.std.specs.Prelude.{◌≡◌, ◌≤◌, length, option_map, IfOk};
ghost use Rattle.classfile.specs.reading.Modified.{is_modified};
ghost use Rattle.image_parser.specs.reading.Unknown.{brackets, object_in, is_object_name, unknown_of};

use crate::header::is_same;
use classfile::ClassName;
use std::alloc::{AllocError, Global};

/// How many `[` stand at the front.
fn brackets(name: &[u8]) -> usize
    ensures value { result ≡ brackets name.now }
    ensures within { result ≤ length name.now }
{
    name.iter().take_while(|byte| **byte == b'[').count()
}

/// The name of a class in its descriptor (JVMS 4.3.2).
fn object_in(text: &[u8]) -> Option<&[u8]>
    ensures { option_map (λ name. name.now) result ≡ object_in text.now }
{
    if text.len() > 1 && text[0] == b'L' && text[text.len() - 1] == b';' {
        Some(&text[1..text.len() - 1])
    } else {
        None
    }
}

/// Whether these bytes are modified UTF-8 (JVMS 4.4.7).
///
/// # Errors
/// Where memory runs out.
fn is_modified(alloc: Global, bytes: &[u8]) -> Result<bool, AllocError>
    ensures { IfOk result (λ b. b ≡ is_modified bytes.now) }
{
    let units = ClassName::from_modified_utf8(alloc, bytes)?;
    let spelled = units.modified_utf8(alloc)?;
    Ok(is_same(spelled.bytes(), bytes))
}

/// Whether it is a name of a class, as descriptors have it.
///
/// # Errors
/// Where memory runs out.
fn is_object_name(alloc: Global, name: &[u8]) -> Result<bool, AllocError>
    ensures { IfOk result (λ b. b ≡ is_object_name name.now) }
{
    if name.is_empty() || name.contains(&b';') {
        return Ok(false);
    }
    is_modified(alloc, name)
}

/// The dimensions of such a type, and the name of the elements' class.
///
/// # Errors
/// Where memory runs out.
#[tactic(auto, unfolding(crate::specs::reading::Unknown::unknown_of))]
pub(crate) fn unknown_of(alloc: Global, name: &[u8]) -> Result<Option<(u8, &[u8])>, AllocError>
    ensures { IfOk result (λ o. option_map (λ p. (p.0, p.1.now)) o ≡ unknown_of name.now) }
{
    let dimensions = brackets(name);
    let Some(class) = object_in(&name[dimensions..]) else {
        return Ok(None);
    };
    if dimensions == 0 || dimensions > 255 || !is_object_name(alloc, class)? {
        return Ok(None);
    }
    Ok(Some((dimensions as u8, class)))
}
