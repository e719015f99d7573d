//! Lists of entries.

use classfile::ClassName;
use std::alloc::{AllocError, Global};

/// The entries of a list: names between quotes, each with the number of its times before it, and `*`, where that is
/// not one.
pub fn entries_of(alloc: Global, list: &str) -> Result<Vec<ClassName>, AllocError> {
    let mut entries = Vec::new(alloc);
    for word in list.split_whitespace() {
        let (times, name) = word.split_once('*').unwrap_or(("1", word));
        for _ in 0..times.parse::<u32>().unwrap_or(0) {
            entries.push(ClassName::from_text(alloc, name.trim_matches('\''))?)?;
        }
    }
    Ok(entries)
}
