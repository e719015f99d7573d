//! Lists of names: files that words name with an `@` before their own name, and that stand for the names in them.
ghost use Rattle.std.specs.Prelude.{◌≡◌, ◌++◌, ◌∷◌, [], IfOk, OnOk, string_bytes};
ghost use Rattle.std.specs.List.{filter, flat_map};
ghost use Rattle.std.specs.Option.{option_map};
ghost use Rattle.std.specs.Str.Lines.{lines};
ghost use Rattle.command_line.specs.Requests.{texts};
ghost use Rattle.cli.specs.Files.{AreBytesOf};
ghost use Rattle.cli.specs.Lists.{is_filled, list_of};
ghost use Rattle.cli.specs.steps.Lists.{AreGivenAs, IsGivenAs, names_of};

use crate::files::get;
use crate::{CommandFault, Files};
use std::alloc::{AllocError, Global};

/// A word for a class file or for some.
#[derive(Drop)]
pub(crate) enum Given<'a> {
    /// It is the name of a file.
    Name(&'a str),
    /// It names a list, which has this text.
    List(String),
}

/// The list that a word names: what stands after an `@`, if anything does.
pub(crate) fn list_name(word: &str) -> Option<&str>
    ensures { option_map (λ name. name.now) result ≡ list_of word.now }
{
    match word.strip_prefix('@') {
        Some(name) => { if name.is_empty() { None } else { Some(name) } }
        None => None,
    }
}

/// What words stand for.
///
/// # Errors
/// `File` of the first list that can't be read, or `List` of the first that is not UTF-8; `Memory`.
pub(crate) fn words_given<'a, F: Files>(
    alloc: Global,
    words: &[&'a str],
    files: &mut F,
) -> Result<Vec<Given<'a>>, CommandFault>
    ensures given { IfOk result (λ given. AreGivenAs (F.holds files.old) (texts words.now) given.items) }
    ensures same { F.holds files.new ≡ F.holds files.old }
{
    let mut given = Vec::new(alloc);
    for word in words {
        match given_as(alloc, word, files) {
            Ok(one) => add_given(&mut given, one)?,
            Err(refusal) => return Err(refusal),
        }
    }
    Ok(given)
}

/// What a word stands for.
fn given_as<'a, F: Files>(
    alloc: Global,
    word: &'a str,
    files: &mut F,
) -> Result<Given<'a>, CommandFault>
    ensures given { IfOk result (IsGivenAs (F.holds files.old) word.now) }
    ensures same { F.holds files.new ≡ F.holds files.old }
{
    match list_name(word) {
        Some(list) => match list_text(alloc, list, files) {
            Ok(text) => Ok(Given::List(text)),
            Err(refusal) => Err(refusal),
        },
        None => Ok(Given::Name(word)),
    }
}

/// The text of a list.
fn list_text<F: Files>(alloc: Global, list: &str, files: &mut F) -> Result<String, CommandFault>
    ensures text { IfOk result (λ text. AreBytesOf (F.holds files.old list.now) (string_bytes text)) }
    ensures same { F.holds files.new ≡ F.holds files.old }
{
    let bytes = get(alloc, list, files)?;
    match String::from_utf8(bytes) {
        Ok(text) => Ok(text),
        Err(_) => Err(CommandFault::of_list(alloc, list)),
    }
}

fn add_given<'a>(given: &mut Vec<Given<'a>>, one: Given<'a>) -> Result<(), AllocError>
    ensures { OnOk result (given.new.items ≡ given.old.items ++ one.entry ∷ []) }
{
    Ok(given.push(one)?)
}

/// The names of the files that words stand for.
///
/// # Errors
/// `AllocError` where memory is refused.
pub(crate) fn names<'a>(alloc: Global, given: &'a [Given<'a>]) -> Result<Vec<&'a str>, AllocError>
    ensures { IfOk result (λ names. texts names.items ≡ flat_map names_of given.now) }
{
    let mut names = Vec::new(alloc);
    for one in given {
        add_names(alloc, &mut names, one)?;
    }
    Ok(names)
}

/// Adds the names that a word stands for.
fn add_names<'a>(
    alloc: Global,
    names: &mut Vec<&'a str>,
    one: &'a Given<'a>,
) -> Result<(), AllocError>
    ensures { OnOk result (texts names.new.items ≡ texts names.old.items ++ names_of one.now) }
{
    match one {
        Given::Name(name) => Ok(names.push(name)?),
        Given::List(text) => {
            let lines = lines_of(alloc, text.as_str())?;
            add_lines(names, lines.as_slice())
        }
    }
}

/// The lines of a text, empty ones too.
fn lines_of<'a>(alloc: Global, text: &'a str) -> Result<Vec<&'a str>, AllocError>
    ensures { IfOk result (λ found. texts found.items ≡ lines text.now) }
{
    text.lines().collect(alloc)
}

/// Adds those lines that are not empty.
fn add_lines<'a>(names: &mut Vec<&'a str>, lines: &[&'a str]) -> Result<(), AllocError>
    ensures { OnOk result (texts names.new.items ≡ texts names.old.items ++ filter is_filled (texts lines.now)) }
{
    for line in lines {
        if !line.is_empty() {
            names.push(line)?;
        }
    }
    Ok(())
}
