//! The stacks of a world's threads, one by one.

ghost use Rattle.std.specs.Prelude.{◌≡◌, ◌≢◌, ◌<◌, true, false, Some, IfOk, length, option_copied, slice_get};
ghost use Rattle.vm_state.specs.declared.classes.ClassState.TheVariants.{Initialized};
ghost use Rattle.init_engine.specs.Stacks.{IsStackOf, AreFrames, front_of, innermost_of};
ghost use Rattle.init_engine.specs.Threads.{thread_of, HasNumber};
ghost use Rattle.init_engine.specs.Turns.{Goes, world_of};

use crate::world::{Thread, World};
use std::alloc::{AllocError, Global};
use vm_state::classes::ClassState;
use vm_state::frame::Frame;
use vm_state::initialization::Frames;

/// The frames of a thread; none where it has ended.
fn copy_of(alloc: Global, number: u32, thread: &Thread) -> Result<Frames, AllocError>
    requires { HasNumber thread.now number }
    ensures number { IfOk result (λ s. s.thread ≡ number) }
    ensures stack { IfOk result (λ s. IsStackOf (Some (thread_of thread.now)) s) }
{
    match thread {
        Thread::Going(frames) => frames.copy(alloc),
        Thread::Ended(_) => Ok(Frames {
            thread: number,
            segment: None,
            levels: None,
        }),
    }
}

/// Whether these are the frames of a thread.
fn is_copy_of(number: u32, thread: &Thread, frames: &Frames) -> bool
    requires { HasNumber thread.now number }
    ensures yes { result ≡ true → (frames.now.thread ≡ number) × IsStackOf (Some (thread_of thread.now)) frames.now }
    ensures no { result ≡ false
        → ¬ ((frames.now.thread ≡ number) × IsStackOf (Some (thread_of thread.now)) frames.now) }
{
    match thread {
        Thread::Going(own) => own.is_same(frames),
        Thread::Ended(_) => {
            frames.thread == number && frames.segment.is_none() && frames.levels.is_none()
        }
    }
}

/// Whether a thread has not ended.
fn goes(thread: &Thread) -> bool
    ensures yes { result ≡ true → Goes (Some (thread_of thread.now)) }
    ensures no { result ≡ false → ¬ Goes (Some (thread_of thread.now)) }
{
    matches!(thread, Thread::Going(_))
}

/// The innermost frame of a thread above its highest initialization, if there is one.
fn innermost(thread: &Thread) -> Option<&Frame>
    ensures { option_copied result ≡ innermost_of (Some (thread_of thread.now)) }
{
    let Thread::Going(frames) = thread else {
        return None;
    };
    match &frames.segment {
        Some(segment) => Some(&segment.innermost),
        None => None,
    }
}

impl World {
    /// The innermost frame of a thread above its highest initialization, if there is one.
    pub fn innermost(&self, thread: u32) -> Option<&Frame>
        requires { thread < length self.now.threads }
        ensures { option_copied result ≡ front_of (world_of self.now) thread }
    {
        innermost(&self.threads()[thread as usize])
    }

    /// A copy of it.
    ///
    /// # Errors
    /// `AllocError` where memory is refused.
    pub fn front(&self, alloc: Global, thread: u32) -> Result<Option<Frame>, AllocError>
        requires { thread < length self.now.threads }
        ensures { IfOk result (λ f. f ≡ front_of (world_of self.now) thread) }
    {
        let Some(frame) = self.innermost(thread) else {
            return Ok(None);
        };
        match frame.copy(alloc) {
            Ok(copy) => Ok(Some(copy)),
            Err(error) => Err(error),
        }
    }

    /// Whether this is the innermost frame of a thread above its highest initialization.
    pub fn has_front(&self, thread: u32, front: &Frame) -> bool
        requires { thread < length self.now.threads }
        ensures yes { result ≡ true → front_of (world_of self.now) thread ≡ Some front.now }
        ensures no { result ≡ false → front_of (world_of self.now) thread ≢ Some front.now }
    {
        match self.innermost(thread) {
            Some(frame) => frame.is_same(front),
            None => false,
        }
    }

    /// The frames of a thread; none where it has ended.
    ///
    /// # Errors
    /// `AllocError` where memory is refused.
    pub fn frames(&self, alloc: Global, thread: u32) -> Result<Frames, AllocError>
        requires { thread < length self.now.threads }
        ensures { IfOk result (λ s. AreFrames (world_of self.now) thread s) }
    {
        copy_of(alloc, thread, &self.threads()[thread as usize])
    }

    /// Whether these are the frames of a thread.
    pub fn has_frames(&self, thread: u32, frames: &Frames) -> bool
        requires { thread < length self.now.threads }
        ensures yes { result ≡ true → AreFrames (world_of self.now) thread frames.now }
        ensures no { result ≡ false → ¬ AreFrames (world_of self.now) thread frames.now }
    {
        is_copy_of(thread, &self.threads()[thread as usize], frames)
    }

    /// Whether a thread has not ended.
    pub fn goes(&self, thread: u32) -> bool
        requires { thread < length self.now.threads }
        ensures yes { result ≡ true → Goes (slice_get (world_of self.now).threads thread) }
        ensures no { result ≡ false → ¬ Goes (slice_get (world_of self.now).threads thread) }
    {
        goes(&self.threads()[thread as usize])
    }

    /// Whether a class is initialized.
    pub fn is_initialized(&self, class: u32) -> bool
        ensures yes { result ≡ true → (world_of self.now).shared.states class ≡ Initialized }
        ensures no { result ≡ false → ¬ ((world_of self.now).shared.states class ≡ Initialized) }
    {
        match self.shared().state(class) {
            ClassState::Initialized => true,
            ClassState::Uninitialized => false,
            ClassState::InProgress(_) => false,
            ClassState::Erroneous => false,
        }
    }
}
