//! Constant pools.

ghost use Rattle.std.specs.Prelude.{◌≡◌, ◌<◌, ◌^◌, IfOk, option_map, slice_get};
ghost use Rattle.classfile.specs.reading.Descriptors.{is_field, is_method, is_class_name};
ghost use Rattle.classfile.specs.reading.Forms.{form_of};
ghost use Rattle.classfile.specs.Lookup.{utf8_of};
ghost use Rattle.classfile.specs.reading.LookupTests.{passes};
ghost use Rattle.classfile.specs.Gives.{Gives};
ghost use Rattle.classfile.specs.reading.Pool.{checked_at, pool_at};

use crate::checks::check_all;
use crate::constant::Constant;
use crate::constants_reading::constants_at;
use crate::fault::ClassFault;
use crate::forms::{TextForm, forms_of};
use crate::numbers::u16_at;
use std::alloc::{AllocError, Global};
use std::marker::Model;

/// A constant pool (JVMS 4.4). Its indices are those of the file: index 0 is unusable, and so is
/// the one after a Long or a Double.
#[derive(Drop)]
pub struct ConstantPool {
    constants: Vec<Constant>,
    /// What each text is, so that none is looked through twice.
    forms: Vec<TextForm>,
}

impl Model for ConstantPool {
    ghost use Rattle.std.specs.Prelude.{◌≡◌, List};
    ghost use Rattle.classfile.specs.declared.constant.Constant.{Constant};
    ghost use Rattle.classfile.specs.reading.Forms.{forms_of};

    ghost Value = { List Constant };

    ghost view = { λ p. p.constants.items };

    ghost invariant = { λ p. p.forms.items ≡ forms_of p.constants.items };
}

impl ConstantPool {
    /// The constants by index.
    pub fn as_slice(&self) -> &[Constant]
        ensures { result.now ≡ self.now }
    {
        &self.constants
    }

    fn from_constants(alloc: Global, constants: Vec<Constant>) -> Result<Self, AllocError>
        ensures { IfOk result (λ p. p ≡ constants.items) }
    {
        let forms = forms_of(alloc, &constants)?;
        Ok(ConstantPool { constants, forms })
    }

    fn form(&self, index: u16) -> Option<TextForm>
        ensures { result ≡ option_map form_of (slice_get self.now index) }
    {
        self.forms.get(usize::from(index)).copied()
    }

    /// Whether the descriptor of a field stands at an index (JVMS 4.3.2).
    #[tactic(auto, using(crate::proofs::FormsLemmas::field_form), unfolding(crate::specs::Lookup::utf8_of))]
    pub(crate) fn is_field(&self, index: u16) -> bool
        ensures { result ≡ passes is_field (utf8_of self.now index) }
    {
        matches!(self.form(index), Some(TextForm { is_field: true, .. }))
    }

    /// Whether the descriptor of a method stands at an index (JVMS 4.3.3).
    #[tactic(auto, using(crate::proofs::FormsLemmas::method_form), unfolding(crate::specs::Lookup::utf8_of))]
    pub(crate) fn is_method(&self, index: u16) -> bool
        ensures { result ≡ passes is_method (utf8_of self.now index) }
    {
        matches!(
            self.form(index),
            Some(TextForm {
                is_method: true,
                ..
            })
        )
    }

    /// Whether the name of a class or the descriptor of an array stands at an index (JVMS 4.4.1).
    #[tactic(auto, using(crate::proofs::FormsLemmas::class_name_form), unfolding(crate::specs::Lookup::utf8_of))]
    pub(crate) fn is_class_name(&self, index: u16) -> bool
        ensures { result ≡ passes is_class_name (utf8_of self.now index) }
    {
        matches!(
            self.form(index),
            Some(TextForm {
                is_class_name: true,
                ..
            })
        )
    }
}

/// The count of a pool, its constants, and the checks of its constants against one another.
#[tactic(auto, unfolding(crate::specs::reading::Pool::pool_at))]
pub(crate) fn pool_at(
    alloc: Global,
    total: usize,
    bytes: &[u8],
) -> Result<(ConstantPool, &[u8]), ClassFault>
    requires { total < 2 ^ 63 }
    ensures { Gives (λ x. (x.0, x.1.now)) result (pool_at total bytes.now) }
{
    let (count, rest) = u16_at(total, bytes)?;
    if count == 0 {
        return Err(ClassFault::Index {
            at: total.saturating_sub(bytes.len()),
        });
    }
    checked_at(alloc, total, count, rest)
}

/// The constants of a pool of this count, checked against one another.
fn checked_at(
    alloc: Global,
    total: usize,
    count: u16,
    bytes: &[u8],
) -> Result<(ConstantPool, &[u8]), ClassFault>
    requires { total < 2 ^ 63 }
    ensures { Gives (λ x. (x.0, x.1.now)) result (checked_at count total bytes.now) }
{
    let (constants, rest) = constants_at(alloc, total, count, bytes)?;
    let pool = ConstantPool::from_constants(alloc, constants)?;
    check_all(&pool, total, bytes.len())?;
    Ok((pool, rest))
}
