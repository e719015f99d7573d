//! References that are resolved before they are asked for, those of some names and descriptors together (JVMS 5.4.3.2
//! to 5.4.3.4).
//!
//! For names and descriptors that an interface declares, what is known of 64 of their declarations is found of all
//! classes in one way through them. That takes the place of an ascent for each reference, wherever these ascents
//! would be
//! longer.

ghost use Rattle.std.specs.Prelude.{◌≡◌, length, IfOk, IsTrue, OnOk};
ghost use Rattle.std.specs.List.{Contains};
ghost use Rattle.hierarchy.specs.declared.answers.Answer.{Answer as Reference};
ghost use Rattle.hierarchy.specs.declared.wanted.Wanted.TheVariants as kind;
ghost use Rattle.hierarchy.specs.steps.Answers.{AreAnswers, AreResolved, IsResolved};
ghost use Rattle.hierarchy.specs.steps.Declarations.{AreDeclared, AreWhole, IsWhole};
ghost use Rattle.hierarchy.specs.steps.FoundAhead.{AreAhead, AreFields, AreMethods, wanted_by};
ghost use Rattle.hierarchy.specs.steps.Groups.{AreWays, IsGroup};
ghost use Rattle.hierarchy.specs.steps.ParentSteps.{AreSteps};

use crate::answers::{Answer, look};
use crate::asked::{AskedReference, MemberKind};
use crate::bits::{BITS, Known, Own};
use crate::declarations::Declaration;
use crate::found_ahead::FoundAhead;
use crate::hierarchy::Hierarchy;
use crate::member_key::MemberKey;
use crate::parents_first::ParentsFirst;
use crate::wanted::Wanted;
use crate::ways::fill;
use crate::windows::note;
use std::alloc::{AllocError, Global};

/// What a way through all classes needs, whose room is used again by the next one.
struct Ways {
    order: ParentsFirst,
    /// By class: at most how many steps an ascent takes.
    ascents: Vec<usize>,
    own: Vec<Own>,
    rows: Vec<Known>,
}

// By hand, since a derived one is proved anew wherever one is let go.
impl Drop for Ways {
    fn drop(self) {
        let Ways {
            order: _,
            ascents: _,
            own: _,
            rows: _,
        } = self;
    }
}

/// References whose names and descriptors are looked at together.
struct ReferenceGroup {
    declared: Vec<Declaration>,
    answers: Vec<Answer>,
}

// By hand, since a derived one is proved anew wherever one is let go.
impl Drop for ReferenceGroup {
    fn drop(self) {
        let ReferenceGroup {
            declared: _,
            answers: _,
        } = self;
    }
}

impl Ways {
    /// The ways through the classes of a hierarchy.
    fn of_hierarchy(alloc: Global, hierarchy: &Hierarchy) -> Result<Self, AllocError>
        ensures order { IfOk result
            (λ w. AreSteps hierarchy.now.family w.order.steps.items w.order.parents.items) }
        ensures own { IfOk result (λ w. length w.own.items ≡ length hierarchy.now.family) }
        ensures rows { IfOk result (λ w. length w.rows.items ≡ length hierarchy.now.family) }
    {
        let count = hierarchy.family().classes().len();
        let order = ParentsFirst::of_family(alloc, hierarchy.family())?;
        let ascents = ascent_lengths(alloc, &order, count)?;
        let own = vec![in alloc; Own { here: 0, same: 0 }; count]?;
        let rows = vec![in alloc; Known::none(); count]?;
        Ok(Ways {
            order,
            ascents,
            own,
            rows,
        })
    }

    /// Whether ascents for some references, and a look at each class that declares a member, would take longer than
    /// ways
    /// through all classes. A step of an ascent takes some ten times as long as one of a way.
    fn are_shorter(&self, hierarchy: &Hierarchy, wanted: Wanted, group: &ReferenceGroup) -> bool {
        let steps = self.order.steps.len();
        let way = steps.saturating_add(self.order.parents.len());
        let way = way.saturating_add(group.declared.len());
        let ways = way.saturating_mul(group.declared.len() / BITS + 1);
        let mut ascents: usize = 0;
        for answer in &group.answers {
            let steps = self
                .ascents
                .get(answer.class as usize)
                .copied()
                .unwrap_or(0);
            let row = hierarchy.noted(wanted, Some(answer.key)).len();
            ascents = ascents.saturating_add(steps.saturating_add(row).saturating_mul(10));
        }
        ascents > ways
    }
}

/// By class: how many steps an ascent takes at most.
fn ascent_lengths(
    alloc: Global,
    order: &ParentsFirst,
    count: usize,
) -> Result<Vec<usize>, AllocError> {
    let mut lengths: Vec<usize> = vec![in alloc; 0; count]?;
    for step in &order.steps {
        let mut length: usize = 0;
        for place in step.from..step.to {
            let parent = order.parents.get(place).copied().unwrap_or(0);
            let above = lengths.get(parent as usize).copied().unwrap_or(0);
            length = length.saturating_add(above).saturating_add(1);
        }
        if (step.class as usize) < lengths.len() {
            lengths[step.class as usize] = length.min(count);
        }
    }
    Ok(lengths)
}

impl ReferenceGroup {
    /// Adds a reference that is another one than the last, with the declarations of its name and descriptor.
    fn add(
        &mut self,
        hierarchy: &Hierarchy,
        wanted: Wanted,
        asked: &AskedReference,
    ) -> Result<(), AllocError>
        requires { IsGroup hierarchy.now wanted self.old }
        ensures { OnOk result (IsGroup hierarchy.now wanted self.new) }
    {
        let is_given = (asked.class as usize) < hierarchy.family().classes().len();
        if !is_given || self.ends_with(asked) {
            return Ok(());
        }
        self.declare(hierarchy, wanted, asked.key)?;
        self.answers.push(Answer::unknown(asked))?;
        Ok(())
    }

    /// Whether a reference is the last one.
    fn ends_with(&self, asked: &AskedReference) -> bool {
        match self.answers.last() {
            Some(last) => last.class == asked.class && last.key.is(asked.key),
            None => false,
        }
    }

    /// Adds the declarations of a name and descriptor, if it is not that of the last reference.
    fn declare(
        &mut self,
        hierarchy: &Hierarchy,
        wanted: Wanted,
        key: MemberKey,
    ) -> Result<(), AllocError>
        requires { IsGroup hierarchy.now wanted self.old }
        ensures group { OnOk result (IsGroup hierarchy.now wanted self.new) }
        ensures whole { OnOk result (IsWhole hierarchy.now wanted self.new.declared.items key) }
    {
        if self.ends_with_key(key) {
            return Ok(());
        }
        hierarchy.add_declarations(wanted, key, &mut self.declared)?;
        Ok(())
    }

    /// Whether a name and descriptor is that of the last reference.
    fn ends_with_key(&self, key: MemberKey) -> bool
        ensures { IsTrue result → (a : Reference) × Contains self.now.answers.items a × (a.key ≡ key) }
    {
        match self.answers.last() {
            Some(last) => last.key.is(key),
            None => false,
        }
    }
}

impl Hierarchy {
    /// What references of a kind resolve to, of those that are resolved ahead.
    pub(crate) fn found_ahead(
        &self,
        alloc: Global,
        kind: MemberKind,
    ) -> Result<FoundAhead, AllocError>
        ensures { IfOk result (AreAhead kind self.now) }
    {
        match self.asked(alloc, kind) {
            Ok(asked) => self.found_for(alloc, kind, &asked),
            Err(error) => Err(error),
        }
    }

    /// What these resolve to.
    fn found_for(
        &self,
        alloc: Global,
        kind: MemberKind,
        asked: &[AskedReference],
    ) -> Result<FoundAhead, AllocError>
        ensures { IfOk result (AreAhead kind self.now) }
    {
        let mut found = FoundAhead::new(alloc);
        match self.add_asked_ahead(alloc, kind, asked, &mut found) {
            Ok(()) => Ok(found),
            Err(error) => Err(error),
        }
    }

    /// Adds what these resolve to, if there are any.
    fn add_asked_ahead(
        &self,
        alloc: Global,
        kind: MemberKind,
        asked: &[AskedReference],
        found: &mut FoundAhead,
    ) -> Result<(), AllocError>
        requires { AreAhead kind self.now found.old }
        ensures { OnOk result (AreAhead kind self.now found.new) }
    {
        if asked.is_empty() {
            return Ok(());
        }
        match Ways::of_hierarchy(alloc, self) {
            Ok(mut ways) => self.add_batches(alloc, kind, asked, &mut ways, found),
            Err(error) => Err(error),
        }
    }

    /// Adds what these resolve to, one batch after another.
    fn add_batches(
        &self,
        alloc: Global,
        kind: MemberKind,
        asked: &[AskedReference],
        ways: &mut Ways,
        found: &mut FoundAhead,
    ) -> Result<(), AllocError>
        requires ways { AreWays self.now.family ways.old }
        requires found { AreAhead kind self.now found.old }
        ensures { OnOk result (AreAhead kind self.now found.new) }
    {
        let mut start = 0;
        while start < asked.len() {
            let rest = &asked[start..];
            let count = self.batch_length(kind.wanted(), rest);
            self.add_batch(alloc, kind, &rest[..count], ways, found)?;
            start += count;
        }
        Ok(())
    }

    /// Some references with all declarations of their names and descriptors.
    fn group(
        &self,
        alloc: Global,
        wanted: Wanted,
        batch: &[AskedReference],
    ) -> Result<ReferenceGroup, AllocError>
        ensures { IfOk result (IsGroup self.now wanted) }
    {
        let mut group = ReferenceGroup {
            declared: Vec::new(alloc),
            answers: Vec::new(alloc),
        };
        for asked in batch {
            group.add(self, wanted, asked)?;
        }
        Ok(group)
    }

    /// Adds what some references resolve to.
    fn add_batch(
        &self,
        alloc: Global,
        kind: MemberKind,
        batch: &[AskedReference],
        ways: &mut Ways,
        found: &mut FoundAhead,
    ) -> Result<(), AllocError>
        requires ways { AreWays self.now.family ways.old }
        requires found { AreAhead kind self.now found.old }
        ensures ways { AreWays self.now.family ways.new }
        ensures found { OnOk result (AreAhead kind self.now found.new) }
    {
        match self.group(alloc, kind.wanted(), batch) {
            Ok(mut group) => self.add_group(kind, ways, &mut group, found),
            Err(error) => Err(error),
        }
    }

    /// Adds what the references of a group resolve to, unless ascents are shorter.
    fn add_group(
        &self,
        kind: MemberKind,
        ways: &mut Ways,
        group: &mut ReferenceGroup,
        found: &mut FoundAhead,
    ) -> Result<(), AllocError>
        requires ways { AreWays self.now.family ways.old }
        requires group { IsGroup self.now (wanted_by kind) group.old }
        requires found { AreAhead kind self.now found.old }
        ensures ways { AreWays self.now.family ways.new }
        ensures found { OnOk result (AreAhead kind self.now found.new) }
    {
        let wanted = kind.wanted();
        if !ways.are_shorter(self, wanted, group) {
            return Ok(());
        }
        self.look_through(wanted, ways, group);
        self.add_answers(kind, &group.answers, found)
    }

    /// Adds what references resolve to.
    fn add_answers(
        &self,
        kind: MemberKind,
        answers: &[Answer],
        found: &mut FoundAhead,
    ) -> Result<(), AllocError>
        requires answers { AreResolved self.now (wanted_by kind) answers.now }
        requires found { AreAhead kind self.now found.old }
        ensures { OnOk result (AreAhead kind self.now found.new) }
    {
        for answer in answers {
            self.add_answer(kind, answer, found)?;
        }
        Ok(())
    }

    /// Adds what a reference resolves to.
    fn add_answer(
        &self,
        kind: MemberKind,
        answer: &Answer,
        found: &mut FoundAhead,
    ) -> Result<(), AllocError>
        requires answer { IsResolved self.now (wanted_by kind) answer.now }
        requires found { AreAhead kind self.now found.old }
        ensures { OnOk result (AreAhead kind self.now found.new) }
    {
        match kind {
            MemberKind::Field => self.add_field(answer, found),
            MemberKind::Method => self.add_method(answer, found),
        }
    }

    /// Finds what the references of a group resolve to.
    fn look_through(&self, wanted: Wanted, ways: &mut Ways, group: &mut ReferenceGroup)
        requires ways { AreWays self.now.family ways.old }
        requires group { IsGroup self.now wanted group.old }
        ensures ways { AreWays self.now.family ways.new }
        ensures resolved { AreResolved self.now wanted group.new.answers.items }
    {
        let ReferenceGroup { declared, answers } = group;
        let Ways {
            order,
            own,
            rows,
            ..
        } = ways;
        self.look_at_all(wanted, order, declared, own, rows, answers);
    }

    /// Finds what the references of a group resolve to, one window of declarations after another.
    fn look_at_all(
        &self,
        wanted: Wanted,
        order: &ParentsFirst,
        declared: &[Declaration],
        own: &mut [Own],
        rows: &mut [Known],
        answers: &mut [Answer],
    )
        requires order { AreSteps self.now.family order.now.steps.items order.now.parents.items }
        requires own { length own.old ≡ length self.now.family }
        requires rows { length rows.old ≡ length self.now.family }
        requires declared { AreDeclared self.now wanted declared.now }
        requires wholes { AreWhole self.now wanted declared.now }
        requires answers { AreAnswers self.now wanted declared.now 0 answers.old }
        ensures own { length own.new ≡ length self.now.family }
        ensures rows { length rows.new ≡ length self.now.family }
        ensures count { length answers.new ≡ length answers.old }
        ensures resolved { AreResolved self.now wanted answers.new }
    {
        let mut start = 0;
        while start < declared.len() {
            note(declared, start, own);
            fill(self.family(), order, own, rows);
            look(self, wanted, declared, start, rows, answers);
            start += BITS;
        }
    }

    /// Adds what a reference to a field resolves to.
    fn add_field(&self, answer: &Answer, found: &mut FoundAhead) -> Result<(), AllocError>
        requires answer { IsResolved self.now kind.Field answer.now }
        requires found { AreFields self.now found.old }
        ensures { OnOk result (AreFields self.now found.new) }
    {
        if let Some(member) = answer.found() {
            found.insert(answer.class, answer.key, member)?;
        }
        Ok(())
    }

    /// Adds what a reference to a method resolves to, if that is known.
    fn add_method(&self, answer: &Answer, found: &mut FoundAhead) -> Result<(), AllocError>
        requires answer { IsResolved self.now kind.InterfaceMethod answer.now }
        requires found { AreMethods self.now found.old }
        ensures { OnOk result (AreMethods self.now found.new) }
    {
        let sought = self.sought(answer.member);
        if !sought.is_of(answer.key) {
            return Ok(());
        }
        if let Some(member) = self.answered_method(sought, answer) {
            found.insert(answer.class, answer.key, member)?;
        }
        Ok(())
    }
}
