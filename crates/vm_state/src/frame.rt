//! Frames (JVMS 2.6), and lists of them.

ghost use Rattle.std.specs.Prelude.{◌≡◌, ◌∷◌, [], IfOk, IfErr, OnOk, OnErr, None, ◌≢◌, true, false, reverse};
ghost use Rattle.vm_state.specs.Segments.{frames_in, first_frame, callers_of};
ghost use Rattle.vm_state.specs.Operands.{dropped};

use crate::cells::Cells;
use crate::items::{CopiedItem, Item, copy_items, same_items};
use std::alloc::{AllocError, Global};
use std::marker::Model;
use std::mem;

/// What a frame is for.
#[derive(Clone, Copy)]
pub enum Activity {
    /// The start of a thread, which calls the `main` of this class (JVMS 5.2).
    Start(u32),
    /// A method of a given class, by its place among those that the class declares.
    Method { class: u32, index: u16 },
}

/// The frame of one call. A contract sees its local variables and its operands beside the others.
#[derive(Drop)]
pub struct Frame {
    pub activity: Activity,
    /// The place of the next instruction in the method's body, from 0.
    pub place: u32,
    pub cells: Cells,
}

impl Model for Frame {
    ghost use Rattle.vm_state.specs.Frames.{FrameState};

    ghost Value = { FrameState };

    ghost view = { λ s. record {
      activity = s.activity;
      place = s.place;
      locals = s.cells.locals;
      operands = s.cells.operands;
    } };
}

/// Whether two frames are for the same.
fn same_activity(left: Activity, right: Activity) -> bool
    ensures yes { result ≡ true → left ≡ right }
    ensures no { result ≡ false → left ≢ right }
{
    match (left, right) {
        (Activity::Start(left), Activity::Start(right)) => left == right,
        (
            Activity::Method { class, index },
            Activity::Method {
                class: other_class,
                index: other_index,
            },
        ) => class == other_class && index == other_index,
        (Activity::Start(_), Activity::Method { .. }) => false,
        (Activity::Method { .. }, Activity::Start(_)) => false,
    }
}

impl Frame {
    /// Whether these are the same.
    pub fn is_same(&self, other: &Frame) -> bool
        ensures yes { result ≡ true → self.now ≡ other.now }
        ensures no { result ≡ false → self.now ≢ other.now }
    {
        self.place == other.place
            && same_activity(self.activity, other.activity)
            && self.cells.is_same(&other.cells)
    }

    /// A copy.
    ///
    /// # Errors
    /// `AllocError` where memory is refused.
    pub fn copy(&self, alloc: Global) -> Result<Frame, AllocError>
        ensures { IfOk result (λ f. f ≡ self.now) }
    {
        let cells = self.cells.copy(alloc)?;
        Ok(Frame {
            activity: self.activity,
            place: self.place,
            cells,
        })
    }
}

impl Item for Frame {
    fn is_same(&self, other: &Frame) -> bool {
        Frame::is_same(self, other)
    }
}

impl CopiedItem for Frame {
    fn copy(&self, alloc: Global) -> Result<Frame, AllocError> {
        Frame::copy(self, alloc)
    }
}

/// Some frames of one thread, the innermost first.
#[derive(Drop)]
pub struct FrameList {
    frames: Vec<Frame>,
}

impl Model for FrameList {
    ghost use Rattle.std.specs.Prelude.{List, reverse};
    ghost use Rattle.vm_state.specs.declared.frame.Frame.{Frame as Held};

    ghost Value = { List Held };

    ghost view = { λ s. reverse s.frames.items };
}

impl FrameList {
    /// The frames, the outermost first.
    pub fn outermost_first(&self) -> &[Frame]
        ensures { result.now ≡ reverse self.now }
    {
        self.frames.as_slice()
    }

    /// Whether these are the same.
    pub fn is_same(&self, other: &FrameList) -> bool
        ensures yes { result ≡ true → self.now ≡ other.now }
        ensures no { result ≡ false → self.now ≢ other.now }
    {
        same_items(&self.frames, &other.frames)
    }

    /// A copy.
    ///
    /// # Errors
    /// `AllocError` where memory is refused.
    pub fn copy(&self, alloc: Global) -> Result<FrameList, AllocError>
        ensures { IfOk result (λ l. l ≡ self.now) }
    {
        let mut frames = Vec::new(alloc);
        match copy_items(alloc, self.frames.as_slice(), &mut frames) {
            Ok(()) => Ok(FrameList { frames }),
            Err(error) => Err(error),
        }
    }

    /// No frames.
    pub fn none(alloc: Global) -> FrameList
        ensures { result ≡ [] }
    {
        FrameList {
            frames: Vec::new(alloc),
        }
    }

    /// Takes the innermost one off.
    pub fn pop(&mut self) -> Option<Frame>
        ensures frame { result ≡ first_frame self.old }
        ensures rest { self.new ≡ callers_of self.old }
    {
        self.frames.pop()
    }

    /// Puts the frame of a caller on, without so many operands on top, as where it made a call with so many arguments
    /// (JVMS 2.6.1).
    ///
    /// # Errors
    /// The frame as it was where memory is refused; nothing has changed then.
    pub fn push_caller(&mut self, frame: Frame, dropped_count: usize) -> Result<(), Frame>
        ensures ok { OnOk result
            (self.new ≡ record frame { operands = dropped dropped_count frame.operands } ∷ self.old) }
        ensures err { IfErr result (λ kept. (kept ≡ frame) × (self.new ≡ self.old)) }
    {
        if self.frames.reserve(1).is_err() {
            return Err(frame);
        }
        let mut caller = frame;
        caller.cells.drop_many(dropped_count);
        self.frames.push_reserved(caller);
        Ok(())
    }

    /// These frames as a segment, where there is one.
    pub fn into_segment(self) -> Option<Segment>
        ensures { frames_in result ≡ self }
    {
        let mut frames = self.frames;
        match frames.pop() {
            Some(innermost) => Some(Segment {
                innermost,
                callers: FrameList { frames },
            }),
            None => None,
        }
    }

    /// Takes all frames of a segment away.
    ///
    /// # Errors
    /// `AllocError` where memory is refused; nothing has changed then.
    pub fn take_all(alloc: Global, segment: &mut Option<Segment>) -> Result<FrameList, AllocError>
        ensures ok { IfOk result (λ r. (r ≡ frames_in segment.old) × (segment.new ≡ None)) }
        ensures err { OnErr result (segment.new ≡ segment.old) }
    {
        let Some(taken) = segment.take() else {
            return Ok(FrameList::none(alloc));
        };
        match taken.into_frames() {
            Ok(frames) => Ok(frames),
            Err(kept) => {
                *segment = Some(kept);
                Err(AllocError)
            }
        }
    }
}

/// Frames of one thread, at least one.
#[derive(Drop)]
pub struct Segment {
    pub innermost: Frame,
    /// The others, the innermost first.
    pub callers: FrameList,
}

impl Segment {
    /// Whether these are the same.
    pub fn is_same(&self, other: &Segment) -> bool
        ensures yes { result ≡ true → self.now ≡ other.now }
        ensures no { result ≡ false → self.now ≢ other.now }
    {
        self.innermost.is_same(&other.innermost) && self.callers.is_same(&other.callers)
    }

    /// A copy.
    ///
    /// # Errors
    /// `AllocError` where memory is refused.
    pub fn copy(&self, alloc: Global) -> Result<Segment, AllocError>
        ensures { IfOk result (λ s. s ≡ self.now) }
    {
        let callers = self.callers.copy(alloc)?;
        match self.innermost.copy(alloc) {
            Ok(innermost) => Ok(Segment { innermost, callers }),
            Err(error) => Err(error),
        }
    }

    /// All of them; where memory is refused, they as they are.
    fn into_frames(self) -> Result<FrameList, Segment>
        ensures ok { IfOk result (λ r. r ≡ self.innermost ∷ self.callers) }
        ensures err { IfErr result (λ kept. kept ≡ self) }
    {
        let Segment { innermost, callers } = self;
        let mut frames = callers.frames;
        match frames.push(innermost) {
            Ok(()) => Ok(FrameList { frames }),
            Err(refused) => Err(Segment {
                innermost: refused.value,
                callers: FrameList { frames },
            }),
        }
    }

    /// Puts the frame of a call on top.
    ///
    /// # Errors
    /// `AllocError` where memory is refused; nothing has changed then.
    pub fn call(&mut self, callee: Frame) -> Result<(), AllocError>
        ensures ok { OnOk result
            (self.new ≡ record { innermost = callee; callers = self.old.innermost ∷ self.old.callers }) }
        ensures err { OnErr result (self.new ≡ self.old) }
    {
        self.callers.frames.reserve(1)?;
        let caller = mem::replace(&mut self.innermost, callee);
        self.callers.frames.push_reserved(caller);
        Ok(())
    }
}
