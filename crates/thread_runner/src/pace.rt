//! How far a thread goes at once, and when it lets others have the lock of its run.

use vm_state::cells::Cells;
use vm_state::frame::{Activity, Frame};
use vm_state::value::Value;

/// How many steps a thread does under the lock at most before others may take it.
const MOST_STEPS: u64 = 8_000;

/// How many while it may wait in a loop: at first, and more each further time.
const WAITING_STEPS: u64 = 64;

/// How many commits in a row a thread makes at most while others ask for the lock.
const MOST_COMMITS: u32 = 64;

/// How many local variables are looked at.
const LOCALS: u16 = 16;

/// What a thread keeps from commit to commit. If its local variables stand as they did at one of its last commits, it
/// may wait in a loop for what another one does: then it goes less far and lets another in soon, and less so as long as
/// they stand.
#[derive(Drop)]
pub(crate) struct Pace {
    /// Its runs of unshared instructions may be longer than one commit counts at the limit.
    long: bool,
    /// The last sums of its local variables.
    sums: [u64; 4],
    /// For how many commits they have stood.
    stood: u32,
    /// How many commits in a row it makes then, while others ask for the lock.
    limit: u32,
    /// How many it has made.
    commits: u32,
    /// How many steps more it does under the lock, another number each time: or else all its courses through a loop
    /// might end at one place, in a call from within a monitor that others wait for.
    more: u8,
}

impl Pace {
    /// Before the first commit.
    pub(crate) fn new() -> Pace {
        Pace {
            long: true,
            sums: [0, 0, 0, 0],
            stood: 0,
            limit: 1,
            commits: 0,
            more: 0,
        }
    }

    /// Whether its runs may be long.
    pub(crate) fn is_long(&self) -> bool {
        self.long
    }

    /// A run was too long for what is left up to the limit.
    pub(crate) fn shorten(&mut self) {
        self.long = false;
    }

    /// How many steps the thread may do under the lock.
    pub(crate) fn steps(&self) -> u64 {
        let steps = if self.stood == 0 {
            MOST_STEPS
        } else {
            (WAITING_STEPS * self.stood as u64).min(MOST_STEPS)
        };
        steps + self.more as u64
    }

    /// Looks at the thread's innermost frame.
    pub(crate) fn look(&mut self, frame: &Option<Frame>) {
        let Some(frame) = frame else {
            return;
        };
        self.more = self.more.wrapping_mul(5).wrapping_add(3);
        let sum = sum_of(frame);
        let [first, second, third, fourth] = self.sums;
        if sum == first || sum == second || sum == third || sum == fourth {
            self.stood = self.stood.saturating_add(1);
        } else {
            self.sums = [sum, first, second, third];
            self.stood = 0;
            self.limit = 1;
        }
    }

    /// Whether the thread lets another one in after a commit, where others ask for the lock or not.
    pub(crate) fn is_over(&mut self, are_asking: bool) -> bool {
        if !are_asking {
            self.commits = 0;
            return false;
        }
        let limit = if self.stood > 0 {
            self.limit
        } else {
            MOST_COMMITS
        };
        self.commits = self.commits.saturating_add(1);
        if self.commits < limit {
            return false;
        }
        self.commits = 0;
        self.limit = self.limit.saturating_mul(2).min(MOST_COMMITS);
        true
    }
}

/// A sum of a frame's method and local variables: others mostly have another one.
pub(crate) fn sum_of(frame: &Frame) -> u64 {
    let mut sum = match frame.activity {
        Activity::Start(class) => class as u64,
        Activity::Method { class, index } => (class as u64)
            .wrapping_mul(65_536)
            .wrapping_add(index as u64),
    };
    for at in 0..LOCALS {
        sum = sum
            .wrapping_mul(0x9E37_79B9_7F4A_7C15)
            .wrapping_add(number_of(&frame.cells, at));
    }
    sum
}

/// What stands for a local variable in a sum.
fn number_of(cells: &Cells, at: u16) -> u64 {
    match cells.value_at(at) {
        Ok(Value::Int(number)) => i64::from(number).cast_unsigned(),
        Ok(Value::Long(number)) => number.cast_unsigned(),
        Ok(Value::Text(text)) => text as u64,
        Ok(Value::OfClass(class, number)) => number.wrapping_add(class as u64),
        Ok(Value::OfThread(thread, number)) => number.wrapping_add(thread as u64),
        Ok(Value::Null) | Ok(Value::Out) | Err(_) => 0,
    }
}
