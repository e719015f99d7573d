//! What stands at an index of a constant pool.

ghost use Rattle.std.specs.Prelude.{◌≡◌, Some, IfSome, option_map};
ghost use Rattle.classfile.specs.Lookup.{utf8_of, class_name_of};
ghost use Rattle.classfile.specs.reading.LookupTests.{has_utf8, is_class};
ghost use Rattle.classfile.specs.reading.LookupTests.{is_class_or_none, is_plain_class, descriptor_of, member_in};
ghost use Rattle.classfile.specs.reading.LookupTests.{is_member};
ghost use Rattle.classfile.specs.Units.{IsModifiedUtf8};

use crate::constant::Constant;

/// The bytes of the Utf8 at an index.
#[tactic(auto, unfolding(crate::specs::Lookup::utf8_of))]
pub(crate) fn utf8_of(pool: &[Constant], index: u16) -> Option<&[u8]>
    ensures value { utf8_of pool.now index ≡ option_map (λ t. t.now) result }
    ensures modified { IfSome result (λ t. IsModifiedUtf8 t.now) }
{
    match pool.get(usize::from(index)) {
        Some(Constant::Utf8 { text }) => Some(text.bytes()),
        _ => None,
    }
}

/// Whether a Utf8 stands at an index.
#[tactic(auto, unfolding(crate::specs::reading::LookupTests::has_utf8))]
pub(crate) fn has_utf8(pool: &[Constant], index: u16) -> bool
    ensures { result ≡ has_utf8 pool.now index }
{
    utf8_of(pool, index).is_some()
}

/// The bytes of the name of the Class at an index.
#[tactic(auto, unfolding(crate::specs::Lookup::class_name_of))]
pub(crate) fn class_name_of(pool: &[Constant], index: u16) -> Option<&[u8]>
    ensures value { class_name_of pool.now index ≡ option_map (λ t. t.now) result }
    ensures modified { IfSome result (λ t. IsModifiedUtf8 t.now) }
{
    match pool.get(usize::from(index)) {
        Some(Constant::Class { name }) => utf8_of(pool, *name),
        _ => None,
    }
}

/// Whether a Class stands at an index.
#[tactic(auto, unfolding(crate::specs::reading::LookupTests::is_class))]
pub(crate) fn is_class(pool: &[Constant], index: u16) -> bool
    ensures { result ≡ is_class pool.now index }
{
    matches!(pool.get(usize::from(index)), Some(Constant::Class { .. }))
}

/// Whether an index is 0 or that of a Class.
#[tactic(auto, unfolding(crate::specs::reading::LookupTests::is_class_or_none))]
pub(crate) fn is_class_or_none(pool: &[Constant], index: u16) -> bool
    ensures { result ≡ is_class_or_none pool.now index }
{
    index == 0 || is_class(pool, index)
}

/// Whether a Class that is no array stands at an index.
#[tactic(auto, unfolding(crate::specs::reading::LookupTests::is_plain_class))]
pub(crate) fn is_plain_class(pool: &[Constant], index: u16) -> bool
    ensures { result ≡ is_plain_class pool.now index }
{
    match class_name_of(pool, index) {
        None | Some([b'[', ..]) => false,
        Some(_) => true,
    }
}

/// The index of the descriptor of the NameAndType at an index.
#[tactic(auto, unfolding(crate::specs::reading::LookupTests::descriptor_of))]
pub(crate) fn descriptor_of(pool: &[Constant], index: u16) -> Option<u16>
    ensures { result ≡ descriptor_of pool.now index }
{
    match pool.get(usize::from(index)) {
        Some(Constant::NameAndType { descriptor, .. }) => Some(*descriptor),
        _ => None,
    }
}

/// Whether a Fieldref, Methodref or InterfaceMethodref stands at an index.
#[tactic(auto, unfolding(crate::specs::reading::LookupTests::is_member))]
pub(crate) fn is_member(pool: &[Constant], index: u16) -> bool
    ensures { result ≡ is_member pool.now index }
{
    match pool.get(usize::from(index)) {
        Some(constant) => is_reference(constant),
        None => false,
    }
}

/// Whether a constant is a Fieldref, Methodref or InterfaceMethodref.
fn is_reference(constant: &Constant) -> bool
    ensures { result ≡ member_in (Some constant.now) }
{
    matches!(
        constant,
        Constant::Fieldref { .. } | Constant::Methodref { .. } | Constant::InterfaceMethodref { .. }
    )
}
