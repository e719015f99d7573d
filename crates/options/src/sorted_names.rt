//! The names of given classes as options write them, in order.

ghost use Rattle.std.specs.Prelude.{◌≡◌, ◌≤◌, [], ◌∷◌, ◌++◌, length, IfOk, OnOk};
ghost use Rattle.std.specs.Cmp.Lexicographic.{slice_cmp};
ghost use Rattle.std.specs.List.Sorted.{IsPermutation};
ghost use Rattle.std.specs.Ordering.{is_lt, nat_cmp};
ghost use Rattle.loading.specs.Names.{name_of};
ghost use Rattle.options.specs.Patterns.{dot_of};
ghost use Rattle.options.specs.steps.Names.{ended, AddsName, AreNames, AreSorted, IsFirstFrom, IsRunOf};

use loading::family::Family;
use loading::given::GivenClass;
use loading::names::name_of;
use std::alloc::{AllocError, Global};
use std::cmp::Ordering;

/// The name of a class with dots for slashes, and a dot behind it.
#[derive(Drop)]
pub(crate) struct DottedName {
    pub(crate) bytes: Vec<u8>,
    pub(crate) class: u32,
}

/// Places of names, one after the other.
#[derive(Clone, Copy)]
pub(crate) struct NameRange {
    pub(crate) first: usize,
    /// The place after the last one.
    pub(crate) end: usize,
}

/// A dot for a slash, and any other byte as it is.
fn dot_of(byte: u8) -> u8
    ensures { result ≡ dot_of byte }
{
    if byte == b'/' { b'.' } else { byte }
}

/// Adds a name with dots for slashes, and a dot behind it, where there are no bytes yet.
fn add_ended(name: &[u8], bytes: &mut Vec<u8>) -> Result<(), AllocError>
    requires { bytes.old.items ≡ [] }
    ensures { OnOk result (bytes.new.items ≡ ended name.now) }
{
    for byte in name {
        bytes.push(dot_of(*byte))?;
    }
    bytes.push(b'.')?;
    Ok(())
}

/// A name with dots for slashes, and a dot behind it.
fn ended(alloc: Global, name: &[u8]) -> Result<Vec<u8>, AllocError>
    ensures { IfOk result (λ bytes. bytes.items ≡ ended name.now) }
{
    let mut bytes = Vec::new(alloc);
    match add_ended(name, &mut bytes) {
        Ok(()) => Ok(bytes),
        Err(error) => Err(error),
    }
}

/// Adds the name of a class of this number.
fn add_name(
    alloc: Global,
    class: &GivenClass,
    number: u32,
    names: &mut Vec<DottedName>,
) -> Result<(), AllocError>
    ensures { OnOk result (AddsName (name_of class.now.file) number names.old.items names.new.items) }
{
    let bytes = ended(alloc, name_of(&class.file))?;
    names.push(DottedName {
        bytes,
        class: number,
    })?;
    Ok(())
}

/// Adds the names of classes, by their numbers.
fn add_names(
    alloc: Global,
    classes: &[GivenClass],
    names: &mut Vec<DottedName>,
) -> Result<(), AllocError>
    requires few { length classes.now ≤ 65535 }
    requires none { names.old.items ≡ [] }
    ensures { OnOk result (AreNames classes.now (length classes.now) names.new.items) }
{
    for (number, class) in classes.iter().enumerate() {
        add_name(alloc, class, number as u32, names)?;
    }
    Ok(())
}

/// How two names compare, by their bytes.
fn by_bytes(a: &DottedName, b: &DottedName) -> Ordering
    ensures { result ≡ slice_cmp nat_cmp a.now.bytes.items b.now.bytes.items }
{
    a.bytes.as_slice().cmp(&b.bytes.as_slice())
}

/// Puts names in order.
fn sort(names: &mut Vec<DottedName>)
    ensures permutation { IsPermutation names.old.items names.new.items }
    ensures sorted { AreSorted names.new.items }
{
    names.sort_unstable_by(|a, b| by_bytes(a, b));
}

/// The names of all classes, in order.
pub(crate) fn sorted_names(alloc: Global, family: &Family) -> Result<Vec<DottedName>, AllocError>
    ensures names { IfOk result (λ names. AreNames family.now (length family.now) names.items) }
    ensures sorted { IfOk result (λ names. AreSorted names.items) }
{
    let mut names = Vec::new(alloc);
    match add_names(alloc, family.classes(), &mut names) {
        Ok(()) => {
            sort(&mut names);
            Ok(names)
        }
        Err(error) => Err(error),
    }
}

/// Whether a name precedes a bound.
fn precedes(name: &DottedName, bound: &[u8]) -> bool
    ensures { result ≡ is_lt (slice_cmp nat_cmp name.now.bytes.items bound.now) }
{
    name.bytes.as_slice().cmp(&bound).is_lt()
}

/// The first place of a name that does not precede a bound.
fn first_from(names: &[DottedName], bound: &[u8]) -> usize
    requires { AreSorted names.now }
    ensures { IsFirstFrom names.now bound.now result }
{
    names.partition_point(|name| precedes(name, bound))
}

/// A text with one more byte.
fn with_byte(alloc: Global, text: &[u8], last: u8) -> Result<Vec<u8>, AllocError>
    ensures { IfOk result (λ bytes. bytes.items ≡ text.now ++ last ∷ []) }
{
    let mut bytes = text.to_vec(alloc)?;
    bytes.push(last)?;
    Ok(bytes)
}

/// The first place of a name that does not precede a text with this byte behind it.
fn first_after(
    alloc: Global,
    names: &[DottedName],
    text: &[u8],
    last: u8,
) -> Result<usize, AllocError>
    requires { AreSorted names.now }
    ensures { IfOk result (IsFirstFrom names.now (text.now ++ last ∷ [])) }
{
    let bound = with_byte(alloc, text, last)?;
    Ok(first_from(names, &bound))
}

/// Where the names stand that are this one, or begin with it and a dot.
pub(crate) fn run_of(
    alloc: Global,
    names: &[DottedName],
    outer: &[u8],
) -> Result<NameRange, AllocError>
    requires { AreSorted names.now }
    ensures { IfOk result (IsRunOf names.now outer.now) }
{
    let first = first_after(alloc, names, outer, b'.')?;
    // A slash is the byte that comes after a dot.
    let end = first_after(alloc, names, outer, b'/')?;
    Ok(NameRange { first, end })
}
