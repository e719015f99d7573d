//! What methods take and return (JVMS 4.3.3).

ghost use Rattle.std.specs.Prelude.{◌≡◌, ◌==◌, ◌<◌, ◌≤◌, ℕ, List, not, length, drop, IfOk, option_copied, position};
ghost use Rattle.std.specs.List.{list_all};
ghost use Rattle.classfile.specs.Grammar.{IsMethodDescriptor};
ghost use Rattle.program.specs.Fields.{has_value};
ghost use Rattle.program.specs.Signatures.{return_kind, signature_in, signature_of, IsSignatureOf, AreSignatures};
ghost use Rattle.program.specs.steps.ParsedSignatures.{dimensions, name_length, element_length, type_length};
ghost use Rattle.program.specs.steps.ParsedSignatures.{ends_parameters, AreParameters, IsParsed, IsEntry};

use crate::runtime_constant::FieldKind;
use crate::sparse::Sparse;
use crate::statics::{field_kind, has_value};
use classfile::{ClassFile, Constant, is_method_descriptor};
use std::alloc::{AllocError, Global};
use std::marker::Model;

/// The kinds of a method's parameters, in order.
#[derive(Drop)]
pub struct ParameterKinds {
    pub(crate) kinds: Vec<FieldKind>,
    /// Whether each has a value. It is asked of each call, and a stranger's method has 65,000 parameters.
    have_values: bool,
}

impl Model for ParameterKinds {
    ghost use Rattle.std.specs.Prelude.{List, ◌≡◌};
    ghost use Rattle.std.specs.List.{list_all};
    ghost use Rattle.program.specs.declared.runtime_constant.FieldKind.{FieldKind as Held};
    ghost use Rattle.program.specs.Fields.{has_value};

    ghost Value = { List Held };

    ghost view = { λ s. s.kinds.items };

    ghost invariant = { λ s. s.have_values ≡ list_all has_value s.kinds.items };
}

impl ParameterKinds {
    /// These kinds.
    fn of_kinds(kinds: Vec<FieldKind>) -> ParameterKinds
        ensures { result ≡ kinds.items }
    {
        let have_values = all_have_values(kinds.as_slice());
        ParameterKinds { kinds, have_values }
    }

    /// The kinds as a slice.
    pub fn as_slice(&self) -> &[FieldKind]
        ensures { result.now ≡ self.now }
    {
        self.kinds.as_slice()
    }

    /// Whether each has a value: none is a float or a double.
    pub fn have_values(&self) -> bool
        ensures { result ≡ list_all has_value self.now }
    {
        self.have_values
    }
}

/// Whether each of these kinds has a value.
fn all_have_values(kinds: &[FieldKind]) -> bool
    ensures { result ≡ list_all has_value kinds.now }
{
    kinds.iter().all(|kind| has_value(*kind))
}

/// What a method returns.
#[derive(Clone, Copy, Debug)]
pub enum ReturnKind {
    Nothing,
    Value(FieldKind),
}

/// What a method takes and returns, by its descriptor.
#[derive(Drop)]
pub struct Signature {
    pub parameters: ParameterKinds,
    pub returns: ReturnKind,
}

/// The signatures that the method descriptors of a class file's constant pool say, by their indices.
#[derive(Drop)]
pub struct Signatures {
    signatures: Sparse<Signature>,
}

impl Model for Signatures {
    ghost use Rattle.std.specs.Prelude.{List, Option};
    ghost use Rattle.program.specs.declared.signature.Signature.{Signature as Held};
    ghost use Rattle.program.specs.steps.Sparse.{entries, ArePlaces};

    ghost Value = { List (Option Held) };

    ghost view = { λ s. entries s.signatures.places.items s.signatures.items.items };

    ghost invariant = { λ s. ArePlaces s.signatures.places.items s.signatures.items.items };
}

/// The place of the first byte that is no `[`.
fn place_after_brackets(text: &[u8]) -> Option<usize>
    ensures { result ≡ position (λ b. not (b == 91)) text.now }
{
    text.iter().position(|byte| *byte != b'[')
}

/// How many `[` a text begins with.
fn dimensions(text: &[u8]) -> usize
    ensures { result ≡ dimensions text.now }
{
    place_after_brackets(text).unwrap_or(text.len())
}

/// The place of the first `;`.
fn place_of_semicolon(text: &[u8]) -> Option<usize>
    ensures { result ≡ position (λ b. b == 59) text.now }
{
    text.iter().position(|byte| *byte == b';')
}

/// How many bytes there are up to the first `;`, with it.
fn name_length(text: &[u8]) -> usize
    ensures { result ≡ name_length text.now }
{
    match place_of_semicolon(text) {
        Some(place) => place + 1,
        None => text.len(),
    }
}

/// How many bytes the element type takes that a text begins with (JVMS 4.3.2).
fn element_length(text: &[u8]) -> usize
    ensures { result ≡ element_length text.now }
{
    match text {
        [] => 0,
        [b'L', ..] => name_length(text),
        [_, ..] => 1,
    }
}

/// How many bytes the type takes that a text begins with (JVMS 4.3.2).
fn type_length(text: &[u8]) -> usize
    ensures length { result ≡ type_length text.now }
    ensures within { result ≤ length text.now }
    ensures some { 0 < length text.now → 0 < result }
{
    let depth = dimensions(text);
    depth + element_length(&text[depth..])
}

/// Whether no further parameter stands here.
fn ends_parameters(text: &[u8]) -> bool
    ensures { result ≡ ends_parameters text.now }
{
    matches!(text, [] | [b')', ..])
}

/// The kinds of the types that a text begins with, up to a `)`, and what stands from there on.
fn parameters_of(alloc: Global, text: &[u8]) -> Result<(ParameterKinds, &[u8]), AllocError>
    ensures { IfOk result (λ found. AreParameters text.now found.0 found.1.now) }
{
    let mut kinds = Vec::new(alloc);
    let mut rest = text;
    while !ends_parameters(rest) {
        let (parameter, after) = rest.split_at(type_length(rest));
        kinds.push(field_kind(parameter))?;
        rest = after;
    }
    Ok((ParameterKinds::of_kinds(kinds), rest))
}

/// What a return descriptor says (JVMS 4.3.3).
fn return_kind(text: &[u8]) -> ReturnKind
    ensures { result ≡ return_kind text.now }
{
    match text {
        b"V" => ReturnKind::Nothing,
        _ => ReturnKind::Value(field_kind(text)),
    }
}

/// The bytes after the first one.
fn after_first(text: &[u8]) -> &[u8]
    ensures { result.now ≡ drop 1 text.now }
{
    match text {
        [] => &[],
        [_, rest @ ..] => rest,
    }
}

/// What a method descriptor says.
fn parsed(alloc: Global, text: &[u8]) -> Result<Signature, AllocError>
    ensures { IfOk result (IsParsed text.now) }
{
    let (parameters, rest) = parameters_of(alloc, after_first(text))?;
    Ok(Signature {
        parameters,
        returns: return_kind(after_first(rest)),
    })
}

/// What a text says, if it is a method descriptor.
fn signature_of(alloc: Global, text: &[u8]) -> Result<Option<Signature>, AllocError>
    ensures { IfOk result (IsSignatureOf text.now) }
{
    if !is_method_descriptor(text) {
        return Ok(None);
    }
    Ok(Some(parsed(alloc, text)?))
}

/// What an entry of a constant pool says, if it is a method descriptor.
fn signature_in(alloc: Global, constant: &Constant) -> Result<Option<Signature>, AllocError>
    ensures { IfOk result (IsEntry constant.now) }
{
    match constant {
        Constant::Utf8 { text } => signature_of(alloc, text.bytes()),
        _ => Ok(None),
    }
}

/// The signatures of a class file. Each text is read once, however many methods have it.
pub(crate) fn signatures_of(alloc: Global, file: &ClassFile) -> Result<Signatures, AllocError>
    ensures { IfOk result (AreSignatures file.now) }
{
    let constants = file.constants();
    let mut signatures = Sparse::with_capacity(alloc, constants.len())?;
    for constant in constants {
        signatures.add(signature_in(alloc, constant)?)?;
    }
    Ok(Signatures { signatures })
}

impl Signatures {
    /// The signature that the method descriptor at an index of the constant pool says.
    pub fn at(&self, index: u16) -> Option<&Signature>
        ensures { option_copied result ≡ signature_in self.now index }
    {
        let place = self.signatures.place(index)?;
        self.signatures.items.get(usize::from(place))
    }
}

/// A text is a method descriptor in one way, so it says one signature (JVMS 4.3.3).
pub fn one_signature()
    ensures parts { (text : List ℕ) (a b : IsMethodDescriptor text)
        → (a.parameters ≡ b.parameters) × (a.returned ≡ b.returned) }
    ensures signature { (text : List ℕ) (a b : IsMethodDescriptor text) → signature_of a ≡ signature_of b }
{}
