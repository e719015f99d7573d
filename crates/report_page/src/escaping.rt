//! Text in HTML.

ghost use Rattle.std.specs.Prelude.{◌≡◌, ◌++◌, IfOk, OnOk, string_bytes};
ghost use Rattle.std.specs.List.{All};
ghost use Rattle.report_page.specs.Escapes.{escape, escaped, IsPlain};
ghost use Rattle.report_page.specs.Pictures.{name_text};

use loading::family::Family;
use report::class_text;
use std::alloc::{AllocError, Global};

/// Adds what stands for a character in a text of HTML, or in the value of an attribute between quotes.
fn push_escaped(made: &mut String, character: char) -> Result<(), AllocError>
    ensures { OnOk result (string_bytes made.new ≡ string_bytes made.old ++ escape character) }
{
    match character {
        '&' => made.push_str("&amp;"),
        '<' => made.push_str("&lt;"),
        '>' => made.push_str("&gt;"),
        '"' => made.push_str("&quot;"),
        '\'' => made.push_str("&#39;"),
        _ => made.push(character),
    }
}

/// A text in HTML: each character that could be read as markup is escaped.
pub(crate) fn escaped(alloc: Global, text: &str) -> Result<String, AllocError>
    ensures is { IfOk result (λ made. string_bytes made ≡ escaped text.now) }
    // So it begins and ends no markup, and no value of an attribute.
    ensures plain { IfOk result (λ made. All IsPlain (string_bytes made)) }
{
    let mut made = String::new(alloc);
    for character in text.chars() {
        push_escaped(&mut made, character)?;
    }
    Ok(made)
}

/// The name of a class in HTML.
pub(crate) fn escaped_name(alloc: Global, family: &Family, class: u32) -> Result<String, AllocError>
    ensures { IfOk result (λ text. string_bytes text ≡ name_text family.now class) }
{
    let name = class_text(alloc, family, class)?;
    escaped(alloc, name.as_str())
}
