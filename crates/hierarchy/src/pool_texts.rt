//! The texts of a class file's constant pool by number, so that each is looked at once.

ghost use Rattle.std.specs.Prelude.{◌≡◌, [], Some, List, ℕ, slice_get, slice_index_or, unwrap_or, IfOk};
ghost use Rattle.std.specs.Prelude.{OnOk};
ghost use Rattle.classfile.specs.ClassFile.{ClassFile as File};
ghost use Rattle.classfile.specs.Lookup.{utf8_in};
ghost use Rattle.loading.specs.Names.{text_at};
ghost use Rattle.hierarchy.specs.Texts.{AreDistinct};
ghost use Rattle.hierarchy.specs.steps.GrowingTexts.{KeepsNumbers};
ghost use Rattle.hierarchy.specs.steps.MemberKeys.{AreNumbers};
ghost use Rattle.hierarchy.specs.steps.PoolTexts.{AreTextNumbers};

use crate::interner::Interner;
use crate::member_key::MemberKey;
use classfile::{ClassFile, Constant};
use std::alloc::{AllocError, Global};
use std::marker::Model;

/// By index of a class file's constant pool: the number of its text. Where no text stands it is 0, the number of the
/// empty text.
#[derive(Drop)]
pub(crate) struct PoolTexts {
    numbers: Vec<usize>,
}

impl Model for PoolTexts {
    ghost use Rattle.std.specs.Prelude.{List, ℕ};

    ghost Value = { List ℕ };

    ghost view = { λ s. s.numbers.items };
}

/// The number of a constant's text, which gets one if it had none.
fn number_of(alloc: Global, texts: &mut Interner, constant: &Constant) -> Result<usize, AllocError>
    requires { slice_get texts.old 0 ≡ Some [] }
    ensures number { IfOk result (λ n. slice_get texts.new n ≡ Some (unwrap_or (utf8_in (Some constant.now)) [])) }
    ensures keeps { KeepsNumbers texts.old texts.new }
    ensures distinct { OnOk result (AreDistinct texts.old → AreDistinct texts.new) }
{
    match constant {
        Constant::Utf8 { text } => texts.add(alloc, text.bytes()),
        _ => Ok(0),
    }
}

/// Adds the numbers of the texts of a class file's constants.
fn add_numbers(
    alloc: Global,
    texts: &mut Interner,
    file: &ClassFile,
    numbers: &mut Vec<usize>,
) -> Result<(), AllocError>
    requires first { slice_get texts.old 0 ≡ Some [] }
    requires empty { numbers.old.items ≡ [] }
    ensures numbers { OnOk result (AreTextNumbers texts.new file.now numbers.new.items) }
    ensures keeps { KeepsNumbers texts.old texts.new }
    ensures distinct { OnOk result (AreDistinct texts.old → AreDistinct texts.new) }
{
    let constants = file.constants();
    for constant in constants {
        let number = number_of(alloc, texts, constant)?;
        numbers.push(number)?;
    }
    Ok(())
}

impl PoolTexts {
    /// The numbers of a class file's texts, of which each gets one if it had none.
    ///
    /// # Errors
    /// Where memory runs out; each text that had a number keeps it.
    pub(crate) fn of_file(
        alloc: Global,
        texts: &mut Interner,
        file: &ClassFile,
    ) -> Result<Self, AllocError>
        requires { slice_get texts.old 0 ≡ Some [] }
        ensures numbers { IfOk result (AreTextNumbers texts.new file.now) }
        ensures keeps { KeepsNumbers texts.old texts.new }
        ensures distinct { OnOk result (AreDistinct texts.old → AreDistinct texts.new) }
    {
        let mut numbers = Vec::with_capacity(alloc, file.constants().len())?;
        add_numbers(alloc, texts, file, &mut numbers)?;
        Ok(PoolTexts { numbers })
    }

    /// The number of the text at an index.
    pub(crate) fn number(&self, index: u16) -> usize
        ensures { result ≡ slice_index_or self.now index 0 }
    {
        self.numbers.get(usize::from(index)).copied().unwrap_or(0)
    }

    /// The numbers of a name and a descriptor, by their indices.
    pub(crate) fn key(&self, name: u16, descriptor: u16) -> MemberKey
        ensures { (texts : List (List ℕ)) (f : File) → AreTextNumbers texts f self.now
            → AreNumbers texts (record { name = text_at f name; descriptor = text_at f descriptor }) result }
    {
        MemberKey {
            name: self.number(name),
            descriptor: self.number(descriptor),
        }
    }
}
