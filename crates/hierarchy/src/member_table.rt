//! The names and descriptors of the members of a family by number.

ghost use Rattle.std.specs.Prelude.{◌≡◌, ◌∷◌, ◌++◌, [], IfOk, OnOk, Some, option_copied, slice_get};
ghost use Rattle.std.specs.Prelude.{slice_index_or};
ghost use Rattle.loading.specs.Families.{Family};
ghost use Rattle.built_in.specs.Methods.{key_of_member};
ghost use Rattle.hierarchy.specs.steps.MemberKeys.{AreNumbers};
ghost use Rattle.hierarchy.specs.steps.MemberTables.{HavePools, IsTableOf};
ghost use Rattle.hierarchy.specs.MemberNames.{named_in};

use crate::built_in_texts::built_in_key;
use crate::interner::Interner;
use crate::member_key::MemberKey;
use crate::member_name::MemberName;
use crate::numbered_texts::NumberedTexts;
use crate::pool_texts::PoolTexts;
use crate::text_state::TextState;
use built_in::method::BuiltInMethod;
use loading::given::GivenClass;
use std::alloc::{AllocError, Global};

/// The texts of the classes of a family by number.
pub(crate) struct MemberTable {
    texts: NumberedTexts,
    /// By class: the numbers of its file's texts.
    pools: Vec<PoolTexts>,
    later: TextState,
}

// By hand, since a derived one is proved anew wherever one is let go.
impl Drop for MemberTable {
    fn drop(self) {
        let MemberTable {
            texts: _,
            pools: _,
            later: _,
        } = self;
    }
}

/// The same while classes come in.
#[derive(Drop)]
struct GrowingTable {
    texts: Interner,
    pools: Vec<PoolTexts>,
}

impl GrowingTable {
    /// Gives the texts of all classes numbers.
    fn add_classes(&mut self, alloc: Global, classes: &[GivenClass]) -> Result<(), AllocError>
        requires { HavePools [] self.old.texts self.old.pools.items }
        ensures { OnOk result (HavePools classes.now self.new.texts self.new.pools.items) }
    {
        for given in classes {
            self.prepare(alloc, classes, given)?;
            self.add_class(alloc, given)?;
        }
        Ok(())
    }

    /// Sees that to seek the texts of the next class costs little, whoever chose them.
    fn prepare(
        &mut self,
        alloc: Global,
        classes: &[GivenClass],
        given: &GivenClass,
    ) -> Result<(), AllocError>
        ensures texts { self.new.texts ≡ self.old.texts }
        ensures pools { self.new.pools ≡ self.old.pools }
    {
        if self.texts.is_at_risk(given.file.constants().len()) {
            let coming = classes.get(self.pools.len()..).unwrap_or(classes);
            return self.texts.hash_by_all(alloc, coming);
        }
        Ok(())
    }

    /// Gives the texts of the next class numbers.
    fn add_class(&mut self, alloc: Global, given: &GivenClass) -> Result<(), AllocError>
        requires { slice_get self.old.texts 0 ≡ Some [] }
        ensures { OnOk result ((family : Family) → HavePools family self.old.texts self.old.pools.items
            → HavePools (family ++ given.now ∷ []) self.new.texts self.new.pools.items) }
    {
        let pool = PoolTexts::of_file(alloc, &mut self.texts, &given.file)?;
        self.pools.push(pool)?;
        Ok(())
    }

    /// The table, once all classes came in.
    fn finish(self, alloc: Global, classes: &[GivenClass]) -> Result<MemberTable, AllocError>
        requires { HavePools classes.now self.texts self.pools.items }
        ensures { IfOk result (IsTableOf classes.now) }
    {
        let GrowingTable { texts, pools } = self;
        let later = texts.later_state(classes);
        let texts = texts.into_texts(alloc)?;
        Ok(MemberTable {
            texts,
            pools,
            later,
        })
    }
}

impl MemberTable {
    /// The table of these classes by their numbers.
    pub(crate) fn of_classes(alloc: Global, classes: &[GivenClass]) -> Result<Self, AllocError>
        ensures { IfOk result (IsTableOf classes.now) }
    {
        let texts = Interner::new(alloc)?;
        let pools = Vec::new(alloc);
        let mut table = GrowingTable { texts, pools };
        table.add_classes(alloc, classes)?;
        table.finish(alloc, classes)
    }

    /// What texts that come later may be hashed by.
    pub(crate) fn text_state(&self) -> TextState {
        self.later
    }

    /// The text of a number, or no bytes.
    pub(crate) fn text(&self, number: usize) -> &[u8]
        ensures { result.now ≡ slice_index_or self.now.texts number [] }
    {
        self.texts.text(number).unwrap_or(&[])
    }

    /// The numbers of what a built-in method is called.
    pub(crate) fn built_in_key(&self, member: BuiltInMethod) -> MemberKey
        ensures { (family : Family) → IsTableOf family self.now
            → AreNumbers self.now.texts (key_of_member member) result }
    {
        built_in_key(member)
    }

    /// The numbers of what a member is called. A number of no class has no texts.
    pub(crate) fn key(&self, member: MemberName) -> MemberKey
        ensures { (family : Family) → IsTableOf family self.now
            → AreNumbers self.now.texts (named_in family member) result }
    {
        match self.pool(member.class) {
            Some(pool) => pool.key(member.name, member.descriptor),
            None => MemberKey::EMPTY,
        }
    }

    /// The numbers of the texts of a class's file.
    pub(crate) fn pool(&self, class: u32) -> Option<&PoolTexts>
        ensures { option_copied result ≡ slice_get self.now.pools.items class }
    {
        self.pools.get(class as usize)
    }
}
