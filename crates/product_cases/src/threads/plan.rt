//! What is asked of threads.

use crate::threads::gates::{GateRule, Place};

/// No run may take more steps.
pub const MOST_STEPS: u64 = 1_000_000_000_000;

/// Threads: `'ENTRY' .. over 'CLASS' .. | SETTING .. | WORD ..`. `over` may be left out.
#[derive(Clone, Copy)]
pub struct ThreadPlan<'a> {
    pub entries: &'a str,
    /// The classes that are initialized at the start.
    pub initialized: &'a str,
    /// Of a run: those of its gate, `room=N` for after how many bytes its sink fails, `limit=N` for how many steps it
    /// may take, and `again` where its journal is replayed.
    pub settings: &'a str,
    /// What is told of a run, or committed.
    pub words: &'a str,
}

impl<'a> ThreadPlan<'a> {
    pub fn of(about: &'a str) -> ThreadPlan<'a> {
        let (start, rest) = halves(about, " | ");
        let (entries, initialized) = halves(start, " over ");
        let (settings, words) = halves(rest, " | ");
        ThreadPlan {
            entries,
            initialized,
            settings,
            words,
        }
    }
}

/// What stands before a text and behind it, or all and nothing.
pub fn halves<'a>(text: &'a str, between: &str) -> (&'a str, &'a str) {
    text.split_once(between).unwrap_or((text, ""))
}

/// The gate of some settings: `before`, `after` or `across`, for its place, `job=N`, and `open`.
pub fn rule_of(settings: &str) -> GateRule {
    GateRule {
        place: place_in(settings),
        job: number_in(settings, "job=", 0),
        is_open: settings.contains("open"),
    }
}

fn place_in(settings: &str) -> Place {
    if settings.contains("before") {
        Place::Before
    } else if settings.contains("after") {
        Place::After
    } else if settings.contains("across") {
        Place::Across
    } else {
        Place::Nowhere
    }
}

/// The number that stands behind a key.
pub fn number_in(settings: &str, key: &str, otherwise: u64) -> u64 {
    let (_, rest) = halves(settings, key);
    let (word, _) = halves(rest, " ");
    word.parse::<u64>().unwrap_or(otherwise)
}
