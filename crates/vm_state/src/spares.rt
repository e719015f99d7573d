//! Memory of frames that have ended, which later frames use again.

use crate::cells::Cells;
use crate::frame::Frame;
use std::alloc::Global;
use std::marker::Model;

/// How many are kept at most: more than most programs have frames above one another, and few beside a deep recursion.
const MOST: usize = 256;

/// A frame of more cells than this is wide: of 64 KB up to 2 MB.
const WIDE: usize = 4_096;

/// A wide frame's memory is kept only where that of fewer than this many is.
const FEW: usize = 4;

/// Memory of frames that have ended, which later frames use again. A contract sees nothing of it.
#[derive(Drop)]
pub struct Spares {
    cells: Vec<Cells>,
}

impl Model for Spares {
    ghost Value = { Unit {0} };

    ghost view = { λ s. tt };
}

impl Spares {
    /// None.
    pub fn none(alloc: Global) -> Spares {
        Spares {
            cells: Vec::new(alloc),
        }
    }

    /// Keeps the memory of a frame that has ended, where there is room for it.
    pub fn keep(&mut self, frame: Frame) {
        let most = if frame.cells.size() > WIDE { FEW } else { MOST };
        if self.cells.len() < most && self.cells.reserve(1).is_ok() {
            self.cells.push_reserved(frame.cells);
        }
    }

    /// The memory of a frame that was kept, or none yet, for the frame that comes.
    pub fn take(&mut self, alloc: Global) -> Cells {
        match self.cells.pop() {
            Some(cells) => cells,
            None => Cells::none(alloc),
        }
    }
}
