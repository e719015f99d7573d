//! Initializations of classes in progress (JVMS 5.5), and the whole stack of a thread.

ghost use Rattle.std.specs.Prelude.{◌≡◌, ◌∷◌, [], IfOk, OnOk, OnErr, None, IsSome, option_copied, ◌≢◌, true, false};
ghost use Rattle.std.specs.Prelude.{reverse};
ghost use Rattle.vm_state.specs.Segments.{frames_in, first_frame, callers_of};
ghost use Rattle.vm_state.specs.Stacks.{first_of, others_of, first_level, levels_in, segment_of, levels_of};
ghost use Rattle.vm_state.specs.Stacks.{parent_taken};
ghost use Rattle.vm_state.specs.Stacks.{initializer_begun, exception_pending, IsLeft};

use crate::frame::{Frame, FrameList, Segment};
use crate::items::{CopiedItem, Item, copy_items, same_items};
use crate::value::Name;
use std::alloc::{AllocError, Global};
use std::marker::Model;
use std::mem;

/// The superclass and superinterfaces that are still to be initialized before a class, in order.
#[derive(Drop)]
pub struct ParentsLeft {
    reversed: Vec<u32>,
}

impl Model for ParentsLeft {
    ghost use Rattle.std.specs.Prelude.{List, ℕ, reverse};

    ghost Value = { List ℕ };

    ghost view = { λ s. reverse s.reversed.items };
}

/// Whether these are the same, or there is none.
fn same_pending(left: Option<Name>, right: Option<Name>) -> bool
    ensures yes { result ≡ true → left ≡ right }
    ensures no { result ≡ false → left ≢ right }
{
    match (left, right) {
        (Some(left), Some(right)) => left.is_same(right),
        (Some(_), None) => false,
        (None, Some(_)) => false,
        (None, None) => true,
    }
}

impl ParentsLeft {
    /// Whether these are the same.
    pub fn is_same(&self, other: &ParentsLeft) -> bool
        ensures yes { result ≡ true → self.now ≡ other.now }
        ensures no { result ≡ false → self.now ≢ other.now }
    {
        same_items(&self.reversed, &other.reversed)
    }

    /// A copy of the parents.
    ///
    /// # Errors
    /// `AllocError` where memory is refused.
    pub fn copy(&self, alloc: Global) -> Result<ParentsLeft, AllocError>
        ensures { IfOk result (λ p. p ≡ self.now) }
    {
        let reversed = Vec::from_slice(alloc, self.reversed.as_slice())?;
        Ok(ParentsLeft { reversed })
    }

    /// These classes, in this order.
    ///
    /// # Errors
    /// `AllocError` where memory is refused.
    pub fn of(alloc: Global, classes: &[u32]) -> Result<ParentsLeft, AllocError>
        ensures { IfOk result (λ s. s ≡ classes.now) }
    {
        let mut reversed = Vec::from_slice(alloc, classes)?;
        reversed.reverse();
        Ok(ParentsLeft { reversed })
    }

    /// The next one, which stays.
    pub fn first(&self) -> Option<u32>
        ensures { result ≡ first_of self.now }
    {
        self.reversed.last().copied()
    }

    /// Takes the next one off.
    pub fn drop_first(&mut self)
        ensures { self.new ≡ others_of self.old }
    {
        let _ = self.reversed.pop();
    }
}

/// The initialization of a class in progress (JVMS 5.5, steps 6 to 12).
#[derive(Drop)]
pub struct Initialization {
    pub class: u32,
    /// What is still to be initialized before it.
    pub left: ParentsLeft,
    /// Whether its class initialization method has begun.
    pub begun: bool,
    /// The exception that came out of it.
    pub pending: Option<Name>,
}

/// An initialization in progress, and the frames under it down to the next one.
#[derive(Drop)]
pub struct Level {
    pub initialization: Initialization,
    pub under: FrameList,
}

impl Initialization {
    /// Whether these are the same.
    pub fn is_same(&self, other: &Initialization) -> bool
        ensures yes { result ≡ true → self.now ≡ other.now }
        ensures no { result ≡ false → self.now ≢ other.now }
    {
        self.class == other.class
            && self.begun == other.begun
            && same_pending(self.pending, other.pending)
            && self.left.is_same(&other.left)
    }
}

impl Level {
    /// Whether these are the same.
    pub fn is_same(&self, other: &Level) -> bool
        ensures yes { result ≡ true → self.now ≡ other.now }
        ensures no { result ≡ false → self.now ≢ other.now }
    {
        self.initialization.is_same(&other.initialization) && self.under.is_same(&other.under)
    }

    /// A copy of the level.
    ///
    /// # Errors
    /// `AllocError` where memory is refused.
    pub fn copy(&self, alloc: Global) -> Result<Level, AllocError>
        ensures { IfOk result (λ l. l ≡ self.now) }
    {
        let under = self.under.copy(alloc)?;
        match self.initialization.left.copy(alloc) {
            Ok(left) => Ok(Level {
                initialization: Initialization {
                    class: self.initialization.class,
                    left,
                    begun: self.initialization.begun,
                    pending: self.initialization.pending,
                },
                under,
            }),
            Err(error) => Err(error),
        }
    }
}

impl Item for Level {
    fn is_same(&self, other: &Level) -> bool {
        Level::is_same(self, other)
    }
}

impl CopiedItem for Level {
    fn copy(&self, alloc: Global) -> Result<Level, AllocError> {
        Level::copy(self, alloc)
    }
}

/// Some initializations in progress by one thread, the innermost first.
#[derive(Drop)]
pub struct LevelList {
    levels: Vec<Level>,
}

impl Model for LevelList {
    ghost use Rattle.std.specs.Prelude.{List, reverse};
    ghost use Rattle.vm_state.specs.declared.initialization.Level.{Level as Held};

    ghost Value = { List Held };

    ghost view = { λ s. reverse s.levels.items };
}

impl LevelList {
    /// The initializations, the outermost first.
    pub fn outermost_first(&self) -> &[Level]
        ensures { result.now ≡ reverse self.now }
    {
        self.levels.as_slice()
    }

    /// Whether these are the same.
    pub fn is_same(&self, other: &LevelList) -> bool
        ensures yes { result ≡ true → self.now ≡ other.now }
        ensures no { result ≡ false → self.now ≢ other.now }
    {
        same_items(&self.levels, &other.levels)
    }

    /// A copy of the list.
    ///
    /// # Errors
    /// `AllocError` where memory is refused.
    pub fn copy(&self, alloc: Global) -> Result<LevelList, AllocError>
        ensures { IfOk result (λ l. l ≡ self.now) }
    {
        let mut levels = Vec::new(alloc);
        match copy_items(alloc, self.levels.as_slice(), &mut levels) {
            Ok(()) => Ok(LevelList { levels }),
            Err(error) => Err(error),
        }
    }

    /// None.
    pub fn none(alloc: Global) -> LevelList
        ensures { result ≡ [] }
    {
        LevelList {
            levels: Vec::new(alloc),
        }
    }

    /// These, where there is one.
    fn into_levels(self) -> Option<Levels>
        ensures { levels_in result ≡ self }
    {
        let mut levels = self.levels;
        match levels.pop() {
            Some(highest) => Some(Levels {
                highest,
                outer: LevelList { levels },
            }),
            None => None,
        }
    }
}

/// Initializations in progress by one thread, at least one.
#[derive(Drop)]
pub struct Levels {
    pub highest: Level,
    /// The others, the innermost first.
    pub outer: LevelList,
}

impl Levels {
    /// Whether these are the same.
    pub fn is_same(&self, other: &Levels) -> bool
        ensures yes { result ≡ true → self.now ≡ other.now }
        ensures no { result ≡ false → self.now ≢ other.now }
    {
        self.highest.is_same(&other.highest) && self.outer.is_same(&other.outer)
    }

    /// A copy of the levels.
    ///
    /// # Errors
    /// `AllocError` where memory is refused.
    pub fn copy(&self, alloc: Global) -> Result<Levels, AllocError>
        ensures { IfOk result (λ l. l ≡ self.now) }
    {
        let outer = self.outer.copy(alloc)?;
        match self.highest.copy(alloc) {
            Ok(highest) => Ok(Levels { highest, outer }),
            Err(error) => Err(error),
        }
    }

    /// Puts an initialization on all frames above the highest one. Where memory is refused nothing changes.
    fn cover(
        &mut self,
        alloc: Global,
        initialization: Initialization,
        segment: &mut Option<Segment>,
    ) -> Result<(), AllocError>
        ensures highest { OnOk result
            (self.new.highest ≡ record { initialization = initialization; under = frames_in segment.old }) }
        ensures outer { OnOk result (self.new.outer ≡ self.old.highest ∷ self.old.outer) }
        ensures segment { OnOk result (segment.new ≡ None) }
        ensures err { OnErr result ((self.new ≡ self.old) × (segment.new ≡ segment.old)) }
    {
        self.outer.levels.reserve(1)?;
        let under = FrameList::take_all(alloc, segment)?;
        let covered = mem::replace(
            &mut self.highest,
            Level {
                initialization,
                under,
            },
        );
        self.outer.levels.push_reserved(covered);
        Ok(())
    }
}

/// A thread's number and whole stack.
#[derive(Drop)]
pub struct Frames {
    pub thread: u32,
    /// The frames above the highest initialization, if there is one.
    pub segment: Option<Segment>,
    /// The initializations in progress, if there is one.
    pub levels: Option<Levels>,
}

/// Whether these are the same, or there is none.
fn same_segment(left: &Option<Segment>, right: &Option<Segment>) -> bool
    ensures yes { result ≡ true → left.now ≡ right.now }
    ensures no { result ≡ false → left.now ≢ right.now }
{
    match (left, right) {
        (Some(left), Some(right)) => left.is_same(right),
        (Some(_), None) => false,
        (None, Some(_)) => false,
        (None, None) => true,
    }
}

/// Whether these are the same, or there is none.
fn same_levels_in(left: &Option<Levels>, right: &Option<Levels>) -> bool
    ensures yes { result ≡ true → left.now ≡ right.now }
    ensures no { result ≡ false → left.now ≢ right.now }
{
    match (left, right) {
        (Some(left), Some(right)) => left.is_same(right),
        (Some(_), None) => false,
        (None, Some(_)) => false,
        (None, None) => true,
    }
}

/// A copy of the frames, if there are some.
fn copy_segment(alloc: Global, segment: &Option<Segment>) -> Result<Option<Segment>, AllocError>
    ensures { IfOk result (λ s. s ≡ segment.now) }
{
    match segment {
        Some(segment) => match segment.copy(alloc) {
            Ok(segment) => Ok(Some(segment)),
            Err(error) => Err(error),
        },
        None => Ok(None),
    }
}

/// A copy of the initializations, if there are some.
fn copy_levels_in(alloc: Global, levels: &Option<Levels>) -> Result<Option<Levels>, AllocError>
    ensures { IfOk result (λ l. l ≡ levels.now) }
{
    match levels {
        Some(levels) => match levels.copy(alloc) {
            Ok(levels) => Ok(Some(levels)),
            Err(error) => Err(error),
        },
        None => Ok(None),
    }
}

impl Frames {
    /// Whether these are the same.
    pub fn is_same(&self, other: &Frames) -> bool
        ensures yes { result ≡ true → self.now ≡ other.now }
        ensures no { result ≡ false → self.now ≢ other.now }
    {
        self.thread == other.thread
            && same_segment(&self.segment, &other.segment)
            && same_levels_in(&self.levels, &other.levels)
    }

    /// A copy of the thread's frames.
    ///
    /// # Errors
    /// `AllocError` where memory is refused.
    pub fn copy(&self, alloc: Global) -> Result<Frames, AllocError>
        ensures { IfOk result (λ f. f ≡ self.now) }
    {
        let levels = copy_levels_in(alloc, &self.levels)?;
        match copy_segment(alloc, &self.segment) {
            Ok(segment) => Ok(Frames {
                thread: self.thread,
                segment,
                levels,
            }),
            Err(error) => Err(error),
        }
    }

    /// The innermost frame above the highest initialization.
    pub fn innermost(&self) -> Option<&Frame>
        ensures { option_copied result ≡ first_frame (segment_of self.now) }
    {
        match &self.segment {
            Some(segment) => Some(&segment.innermost),
            None => None,
        }
    }

    /// The highest initialization.
    pub fn highest(&self) -> Option<&Level>
        ensures { option_copied result ≡ first_level (levels_of self.now) }
    {
        match &self.levels {
            Some(levels) => Some(&levels.highest),
            None => None,
        }
    }

    /// Puts an initialization on top of the stack.
    ///
    /// # Errors
    /// `AllocError` where memory is refused; nothing has changed then.
    pub fn enter(&mut self, alloc: Global, initialization: Initialization) -> Result<(), AllocError>
        ensures thread { self.new.thread ≡ self.old.thread }
        ensures segment { OnOk result (segment_of self.new ≡ []) }
        ensures levels { OnOk result
            (levels_of self.new ≡ record { initialization = initialization; under = segment_of self.old }
            ∷ levels_of self.old) }
        ensures err { OnErr result (self.new ≡ self.old) }
    {
        if let Some(levels) = &mut self.levels {
            return levels.cover(alloc, initialization, &mut self.segment);
        }
        let under = FrameList::take_all(alloc, &mut self.segment)?;
        self.levels = Some(Levels {
            highest: Level {
                initialization,
                under,
            },
            outer: LevelList::none(alloc),
        });
        Ok(())
    }

    /// Takes the highest initialization away, with all frames above it; those under it are the topmost ones then.
    /// Where there is none nothing changes.
    pub fn leave(&mut self)
        ensures thread { self.new.thread ≡ self.old.thread }
        ensures left { IsLeft (levels_of self.old) self.new }
        ensures none { levels_of self.old ≡ [] → self.new ≡ self.old }
    {
        let Some(levels) = self.levels.take() else {
            return;
        };
        let Levels { highest, outer } = levels;
        self.segment = highest.under.into_segment();
        self.levels = outer.into_levels();
    }

    /// Takes the next parent off the highest initialization.
    pub fn take_parent(&mut self)
        requires { IsSome self.old.levels }
        ensures thread { self.new.thread ≡ self.old.thread }
        ensures segment { self.new.segment ≡ self.old.segment }
        ensures levels { levels_of self.new ≡ parent_taken (levels_of self.old) }
    {
        let Some(mut levels) = self.levels.take() else {
            unreachable!()
        };
        levels.highest.initialization.left.drop_first();
        self.levels = Some(levels);
    }

    /// Puts the frame of its class initialization method on the highest initialization.
    pub fn begin_initializer(&mut self, alloc: Global, frame: Frame)
        requires levels { IsSome self.old.levels }
        requires none { self.old.segment ≡ None }
        ensures thread { self.new.thread ≡ self.old.thread }
        ensures segment { segment_of self.new ≡ frame ∷ [] }
        ensures levels { levels_of self.new ≡ initializer_begun (levels_of self.old) }
    {
        let Some(levels) = &mut self.levels else {
            unreachable!()
        };
        levels.highest.initialization.begun = true;
        self.segment = Some(Segment {
            innermost: frame,
            callers: FrameList::none(alloc),
        });
    }

    /// Takes all frames above the highest initialization away; the exception that came out of them becomes pending
    /// there.
    pub fn set_pending(&mut self, exception: Name)
        requires { IsSome self.old.levels }
        ensures thread { self.new.thread ≡ self.old.thread }
        ensures segment { self.new.segment ≡ None }
        ensures levels { levels_of self.new ≡ exception_pending exception (levels_of self.old) }
    {
        let Some(levels) = &mut self.levels else {
            unreachable!()
        };
        levels.highest.initialization.pending = Some(exception);
        self.segment = None;
    }
}
