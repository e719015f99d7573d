//! Who waits for other threads of a run.

/// How often a thread of a run has moved and has taken its lock, and how many wait for that.
#[derive(Clone, Copy)]
pub(crate) struct Waits {
    /// How many commits have moved a thread, modulo 2^64.
    moves: u64,
    /// How many threads sleep until another one has moved.
    sleepers: u64,
    /// How many of these wake up, since one has.
    waking: u64,
    /// How often a thread has taken the lock, modulo 2^64.
    entries: u64,
    /// How many threads sleep until another one has taken it.
    letting_in: u64,
}

impl Waits {
    /// Before the threads are started.
    pub(crate) fn none() -> Waits {
        Waits {
            moves: 0,
            sleepers: 0,
            waking: 0,
            entries: 0,
            letting_in: 0,
        }
    }

    /// A commit has moved a thread.
    pub(crate) fn move_on(&mut self) {
        self.moves = self.moves.wrapping_add(1);
    }

    /// Whether no commit has moved a thread since there were `moves` such commits.
    pub(crate) fn is_last_move(&self, moves: u64) -> bool {
        self.moves == moves
    }

    /// A thread falls asleep. It answers how many commits have moved a thread.
    pub(crate) fn begin_sleep(&mut self) -> u64 {
        self.sleepers = self.sleepers.saturating_add(1);
        self.moves
    }

    /// A thread has woken up. It answers whether it is one of those that wake up since another one has moved.
    pub(crate) fn end_sleep(&mut self) -> bool {
        let wakes = self.waking > 0;
        self.sleepers = self.sleepers.saturating_sub(1);
        self.waking = self.waking.saturating_sub(1);
        wakes
    }

    /// Those that sleep wake up. It answers how many more than did already.
    pub(crate) fn wake(&mut self) -> u64 {
        let more = self.sleepers.saturating_sub(self.waking);
        self.waking = self.sleepers;
        more
    }

    /// A thread has taken the lock. It answers how many let it in: they wake up.
    pub(crate) fn enter(&mut self) -> u64 {
        self.entries = self.entries.wrapping_add(1);
        let waking = self.letting_in;
        self.letting_in = 0;
        waking
    }

    /// A thread lets another one in. It answers how often the lock was taken.
    pub(crate) fn begin_let_in(&mut self) -> u64 {
        self.letting_in = self.letting_in.saturating_add(1);
        self.entries
    }

    /// Whether nobody has taken the lock since it was taken `entries` times.
    pub(crate) fn is_last_entry(&self, entries: u64) -> bool {
        self.entries == entries
    }
}
