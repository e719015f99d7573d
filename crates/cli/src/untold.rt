//! What a refusal means, where that takes what the words of the command name: class files and what these hold, entries,
//! lists.
ghost use Rattle.std.specs.Prelude.{◌≡◌};

use crate::class_files::class_files;
use crate::files::contents;
use crate::meanings::{NO_CLASS_FILE, Untold};
use crate::{Building, CommandFault, Files, Request};
use built_in::class_id::BuiltIn;
use classfile::{ClassFile, printed};
use std::alloc::{AllocError, Global};
use std::collections::BTreeMap;
use std::io::Write;

/// What is wrong with a class that a list names.
const DEMANDED: &str = "it has to be initialized at build time, and can't be";

/// What a jar begins with, as every zip archive that is not empty.
const JAR: &[u8] = &[b'P', b'K', 3, 4];

/// Tells what was left to be told of a refusal, by what the words name. It changes no file.
pub(crate) fn tell_untold<F: Files, E: Write>(
    alloc: Global,
    untold: &Untold,
    request: &Request<'_>,
    files: &mut F,
    errors: &mut E,
)
    ensures { F.holds files.new ≡ F.holds files.old }
{
    match untold {
        Untold::Class(place, meaning) => {
            let file = request.files().get(*place).copied();
            let file = file.unwrap_or("a class file");
            tell_line(file, *meaning, errors);
        }
        Untold::NoClassFile(place) => {
            let file = request.files().get(*place).copied();
            let file = file.unwrap_or("a class file");
            tell_line(file, meaning_of_file(file, files), errors);
        }
        Untold::Entry(place, meaning) => match entry_in(request, *place) {
            "" => tell_line(
                "''",
                "this entry is empty: name a class with a main",
                errors,
            ),
            entry => tell_line(entry, *meaning, errors),
        },
        Untold::Image => {
            let image = image_in(request);
            tell_line(
                image,
                "it is no image, or was changed: build it again",
                errors,
            );
        }
        Untold::List(text) => {
            let building = building_of(request);
            let (name, meaning) = list_meaning(alloc, text.as_str(), building);
            tell_line(name, meaning, errors);
        }
        Untold::Parents | Untold::BuiltIn | Untold::Twice(_) => {
            tell_of_classes(alloc, untold, request.files(), files, errors);
        }
    }
}

/// What is wrong with a file that does not begin as a class file does: it may be a jar.
fn meaning_of_file<F: Files>(name: &str, files: &mut F) -> &'static str
    ensures { F.holds files.new ≡ F.holds files.old }
{
    let Ok(bytes) = files.get(name) else {
        return NO_CLASS_FILE;
    };
    if bytes.as_slice().starts_with(JAR) {
        "a jar, and no class file: unpack it, and name the class files in it"
    } else {
        NO_CLASS_FILE
    }
}

/// Tells what is wrong with what has a name. A failure of standard error is ignored.
fn tell_line<E: Write>(name: &str, meaning: &str, errors: &mut E) {
    let _ = writeln!(errors, "{name}: {meaning}");
    let _ = errors.flush();
}

/// The entry of a place, as it was written.
fn entry_in<'a>(request: &Request<'a>, place: usize) -> &'a str {
    let entries = match request {
        Request::Audit(words) => words.entries,
        Request::Explain(words) => return words.class,
        Request::Lazy(words) => words.entries,
        Request::Replay(words) => words.entries,
        Request::Run(words) => words.entries,
        Request::Build(_) | Request::Inspect(_) | Request::Renew(_) | Request::Report(_) => "",
    };
    entries.split(',').nth(place).unwrap_or("")
}

/// The name of the image's file.
fn image_in<'a>(request: &Request<'a>) -> &'a str {
    match request {
        Request::Inspect(words) => words.image,
        Request::Renew(words) => words.image,
        Request::Replay(words) => words.image,
        Request::Run(words) => words.image,
        Request::Audit(_)
        | Request::Build(_)
        | Request::Explain(_)
        | Request::Lazy(_)
        | Request::Report(_) => "the image",
    }
}

/// What a build is asked for.
fn building_of<'r, 'a>(request: &'r Request<'a>) -> Option<&'r Building<'a>> {
    match request {
        Request::Build(words) => Some(&words.building),
        Request::Explain(words) => Some(&words.building),
        Request::Report(words) => Some(&words.building),
        Request::Audit(_)
        | Request::Inspect(_)
        | Request::Lazy(_)
        | Request::Renew(_)
        | Request::Replay(_)
        | Request::Run(_) => None,
    }
}

/// Which list has an empty item: the one that is read first, if it has.
fn list_with_empty(building: Option<&Building<'_>>) -> &'static str {
    if let Some(building) = building
        && let Some(list) = building.run_time
    {
        for item in list.split(',') {
            if item.is_empty() {
                return "--initialize-at-run-time";
            }
        }
    }
    "--initialize-at-build-time"
}

/// What is wrong with a list of classes, by the text that says so: of which list or name, and what.
fn list_meaning<'a>(
    alloc: Global,
    text: &'a str,
    building: Option<&Building<'_>>,
) -> (&'a str, &'static str) {
    let (word, about) = text.split_once(' ').unwrap_or((text, ""));
    let meaning = match word {
        "Empty" => {
            return (
                list_with_empty(building),
                "the item of this place, from 0, is empty; take out a comma",
            );
        }
        "Unknown" =>
            "no class that is given has this name, or is in this package; write it with dots",
        "Both" => "both lists ask for it; subclasses count at run time, superclasses at build time",
        _ => {
            let (class, _) = about.split_once(' ').unwrap_or((about, ""));
            let list = match building {
                Some(building) => building.build_time.unwrap_or(""),
                None => "",
            };
            let meaning = demand_meaning(alloc, class, list);
            return (class, meaning.unwrap_or(DEMANDED));
        }
    };
    (about, meaning)
}

/// What is wrong with the demand of a list for a class: it may be one above what the list names.
fn demand_meaning(alloc: Global, class: &str, list: &str) -> Result<&'static str, AllocError> {
    let list = list.replace(alloc, ".", "/")?;
    for item in list.as_str().split(',') {
        if let Some(rest) = class.strip_prefix(item)
            && (rest.is_empty() || rest.starts_with('/'))
        {
            return Ok(DEMANDED);
        }
    }
    Ok("it is a superclass of what has to be initialized at build time, and can't be")
}

/// Tells what class files, which are read once more, say of a refusal.
fn tell_of_classes<F: Files, E: Write>(
    alloc: Global,
    untold: &Untold,
    names: &[&str],
    files: &mut F,
    errors: &mut E,
)
    ensures { F.holds files.new ≡ F.holds files.old }
{
    let text = match read_again(alloc, names, files) {
        Ok(classes) => said_by(alloc, untold, names, classes.as_slice()),
        Err(_) => Err(AllocError),
    };
    // A failure of standard error is ignored.
    let _ = match text {
        Ok(text) => writeln!(errors, "{text}"),
        Err(_) => writeln!(errors, "a class file is missing, or two are of one class"),
    };
    let _ = errors.flush();
}

/// What class files of these names say of a refusal.
fn said_by(
    alloc: Global,
    untold: &Untold,
    names: &[&str],
    classes: &[ClassFile],
) -> Result<String, AllocError> {
    match untold {
        Untold::Twice(class) => files_text(alloc, class.as_str(), names, classes),
        Untold::BuiltIn => built_in_text(alloc, classes),
        _ => parents_text(alloc, classes),
    }
}

/// The class files of these names.
fn read_again<F: Files>(
    alloc: Global,
    names: &[&str],
    files: &mut F,
) -> Result<Vec<ClassFile>, CommandFault>
    ensures { F.holds files.new ≡ F.holds files.old }
{
    let texts = contents(alloc, names, files, usize::MAX)?;
    class_files(alloc, texts.as_slice())
}

/// Which files are of a class, by its name as it is printed.
fn files_text(
    alloc: Global,
    class: &str,
    names: &[&str],
    classes: &[ClassFile],
) -> Result<String, AllocError> {
    let mut text = String::new(alloc);
    for (name, file) in names.iter().zip(classes) {
        let named = file.class_name(file.this_class()).unwrap_or(&[]);
        if printed(alloc, named)?.as_str() == class {
            let before = if text.is_empty() { "" } else { " and " };
            write!(text, "{before}{name}")?;
        }
    }
    text.push_str(" are of this class")?;
    Ok(text)
}

/// Which of these classes the machine has of itself, in the order given.
fn built_in_text(alloc: Global, classes: &[ClassFile]) -> Result<String, AllocError> {
    let mut text = String::from_str(alloc, "the machine has of itself, so leave out:")?;
    let mut before = " ";
    for class in classes {
        if let Some(name) = class.class_name(class.this_class())
            && BuiltIn::named(name).is_some()
        {
            let name = printed(alloc, name)?;
            write!(text, "{before}{name}")?;
            before = ", ";
        }
    }
    Ok(text)
}

/// What is known of a class by its name.
#[derive(Clone, Copy)]
enum Known {
    /// A class file of it is given.
    Given,
    /// None is given, and it is a superclass.
    Superclass,
    /// None is given, and it is an interface of some class.
    Interface,
}

impl Known {
    /// What stands after the name of a class of which no file is given.
    fn in_words(self) -> Option<&'static str> {
        match self {
            Known::Given => None,
            Known::Superclass => Some(""),
            Known::Interface => Some(" (an interface)"),
        }
    }
}

/// Which parents of classes are neither among these nor built in, each once, in the order of their names, and which of
/// them are interfaces.
fn parents_text(alloc: Global, classes: &[ClassFile]) -> Result<String, AllocError> {
    let mut known = given_names(alloc, classes)?;
    for class in classes {
        add_parents(&mut known, class)?;
    }
    let mut text = String::from_str(alloc, "no class file is given of")?;
    let mut is_first = true;
    for (name, what) in &known {
        if let Some(after) = what.in_words() {
            let before = if is_first { " " } else { ", " };
            let name = printed(alloc, name)?;
            write!(text, "{before}{name}{after}")?;
            is_first = false;
        }
    }
    Ok(text)
}

/// The names of classes, which are given.
fn given_names<'a>(
    alloc: Global,
    classes: &'a [ClassFile],
) -> Result<BTreeMap<&'a [u8], Known>, AllocError> {
    let mut names = BTreeMap::new(alloc);
    for class in classes {
        if let Some(name) = class.class_name(class.this_class()) {
            names.insert(name, Known::Given)?;
        }
    }
    Ok(names)
}

/// Adds the parents of a class that are neither known nor built in. They are not given.
fn add_parents<'a>(
    known: &mut BTreeMap<&'a [u8], Known>,
    class: &'a ClassFile,
) -> Result<(), AllocError> {
    add_parent(
        known,
        class.class_name(class.super_class()),
        Known::Superclass,
    )?;
    for constant in class.interfaces() {
        add_parent(known, class.class_name(*constant), Known::Interface)?;
    }
    Ok(())
}

/// Adds a parent that is neither known nor built in, if there is one.
fn add_parent<'a>(
    known: &mut BTreeMap<&'a [u8], Known>,
    name: Option<&'a [u8]>,
    what: Known,
) -> Result<(), AllocError> {
    if let Some(name) = name
        && BuiltIn::named(name).is_none()
        && !known.contains_key(&name)
    {
        known.insert(name, what)?;
    }
    Ok(())
}
