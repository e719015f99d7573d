//! A line on the terminal, written over, that tells how far a long build has come.

use cli::{Stage, Watch};
use std::alloc::{AllocError, Global};
use std::fs;
use std::io::{self, Write};
use std::rt::{self, Clock};
use std::sync::{Condvar, Mutex, MutexGuard, Wait};
use std::time::{Duration, Instant};

/// After how many milliseconds a build tells how far it has come.
const PATIENCE: u64 = 2_000;

/// After how many it tells so again.
const PAUSE: u64 = 500;

/// How many characters of a class's name are told.
const NAME: usize = 30;

/// How far a build has come, and where it is told.
#[derive(Drop)]
struct State<E: Write> {
    to: E,
    stage: Stage,
    /// How many classes were initialized, or refused.
    done: u64,
    /// The class that a worker began last.
    class: String,
    /// Lines that are told once the build is over.
    notes: String,
    /// What the build came to, once it is known and if it is wanted.
    totals: String,
    /// Whether that was handed out.
    summed: bool,
    /// Whether a line stands on the terminal.
    told: bool,
    over: bool,
}

/// How far a build has come, told by its thread and its workers to a thread that tells it on.
#[derive(Drop)]
pub struct ProgressLine<'a, R, E: Write> {
    rt: &'a R,
    /// Whether it is to be told what the build came to.
    is_verbose: bool,
    state: Mutex<State<E>>,
    ended: Condvar,
}

impl<'a, R: AllocGlobal, E: Write> ProgressLine<'a, R, E> {
    pub fn new(rt: &'a R, to: E, is_verbose: bool) -> ProgressLine<'a, R, E> {
        let state = State {
            to,
            stage: Stage::Reading,
            done: 0,
            class: String::new(rt.alloc()),
            notes: String::new(rt.alloc()),
            totals: String::new(rt.alloc()),
            summed: false,
            told: false,
            over: false,
        };
        ProgressLine {
            rt,
            is_verbose,
            state: Mutex::new(state),
            ended: Condvar::new(),
        }
    }
}

impl<R: Wait + Clock, E: Write> ProgressLine<'_, R, E> {
    /// Tells how far the build has come, from two seconds on and until it is over.
    pub fn tell(&self) {
        let mut state = self.waited(self.state.lock(self.rt), PATIENCE);
        for _ in self.rt.forever() {
            if state.over {
                return;
            }
            // A failure of standard error is ignored.
            let _ = state.tell();
            state = self.waited(state, PAUSE);
        }
    }

    /// The state after so many milliseconds, or once the build is over.
    fn waited<'b>(&self, state: MutexGuard<'b, State<E>>, time: u64) -> MutexGuard<'b, State<E>> {
        self.ended
            .wait_timeout_while(
                self.rt,
                state,
                Duration::from_millis(time),
                |state| !state.over,
            )
            .0
    }
}

impl<R: Wait, E: Write> ProgressLine<'_, R, E> {
    /// The build is over: the line goes.
    pub fn end(&self) {
        let mut state = self.state.lock(self.rt);
        if !state.over {
            state.over = true;
            // A failure of standard error is ignored.
            let _ = state.erase();
        }
        self.ended.notify_all();
    }
}

impl<E: Write> State<E> {
    fn tell(&mut self) -> io::Result<()> {
        let done = self.done;
        let class = self.class.as_str();
        match self.stage {
            Stage::Reading => write!(self.to, "\rpreinit: reading")?,
            Stage::Building if class.is_empty() => write!(self.to, "\rpreinit: linking")?,
            Stage::Building => write!(
                self.to,
                "\rpreinit: initializing, {done} classes done, at {class:<NAME$.NAME$}"
            )?,
            Stage::Writing | Stage::Ended => {
                write!(
                    self.to,
                    "\rpreinit: writing, {done} classes done{:<NAME$}",
                    ""
                )?
            }
        }
        self.told = true;
        self.to.flush()
    }

    /// The lines that were noted, and what the build came to, which are handed out now.
    fn summary(&mut self, alloc: Global) -> Result<String, AllocError> {
        let notes = self.notes.as_str();
        let totals = self.totals.as_str();
        let text = format!(in alloc; "{notes}{totals}")?;
        self.summed = !self.totals.as_str().is_empty();
        Ok(text)
    }

    /// What the build is at, in words that follow 'while'. Of several classes at work it is the one that was begun
    /// last.
    fn work(&self, alloc: Global) -> Result<String, AllocError> {
        match self.stage {
            Stage::Reading => String::from_str(alloc, "reading class files"),
            Stage::Building if self.class.is_empty() => String::from_str(alloc, "linking"),
            Stage::Building => format!(in alloc; "initializing {}", self.class.as_str()),
            Stage::Writing | Stage::Ended => String::from_str(alloc, "writing what was built"),
        }
    }

    fn erase(&mut self) -> io::Result<()> {
        if self.told {
            write!(self.to, "\r{:<79}\r", "")?;
            self.to.flush()?;
        }
        Ok(())
    }
}

impl<R: Wait, E: Write> ProgressLine<'_, R, E> {
    /// Whether it was handed out what the build came to.
    pub fn is_summed(&self) -> bool {
        self.state.lock(self.rt).summed
    }
}

/// What a build took that began then, for the end of the line on what it came to: its time, and the most memory that
/// the process had, where the system says so.
pub fn taken<R: Clock + rt::Files + AllocGlobal>(rt: &R, began: Instant) -> Option<String> {
    let Ok(time) = began.elapsed(rt) else {
        return None;
    };
    let alloc = rt.alloc();
    let seconds = time.as_secs();
    let hundredths = time.subsec_millis() / 10;
    match most_memory(rt) {
        Some(megabytes) => {
            format!(in alloc; "; {seconds}.{hundredths:02} s, at most {megabytes} MB").ok()
        }
        None => format!(in alloc; "; {seconds}.{hundredths:02} s").ok(),
    }
}

/// How many megabytes the process had at most, where the system says so.
fn most_memory<R: rt::Files + AllocGlobal>(rt: &R) -> Option<u64> {
    let Ok(status) = fs::read_to_string(rt, "/proc/self/status") else {
        return None;
    };
    for line in status.as_str().lines() {
        if let Some(rest) = line.strip_prefix("VmHWM:")
            && let Some(number) = rest.trim().strip_suffix(" kB")
            && let Ok(kilobytes) = number.trim().parse::<u64>()
        {
            return Some(kilobytes / 1024);
        }
    }
    None
}

impl<R: Wait + Sync, E: Write + Send> Watch for ProgressLine<'_, R, E> {
    fn watches(&self) -> bool {
        true
    }

    fn begin(&self, stage: Stage) {
        match stage {
            Stage::Ended => self.end(),
            _ => self.state.lock(self.rt).stage = stage,
        }
    }

    fn class(&self, name: &str) {
        let mut state = self.state.lock(self.rt);
        state.class.clear();
        // Where memory is refused for it, it is not told.
        let _ = state.class.push_str(name);
    }

    fn done(&self) {
        let mut state = self.state.lock(self.rt);
        state.done = state.done.saturating_add(1);
    }

    fn wants_more(&self) -> bool {
        self.is_verbose
    }

    fn note(&self, lines: &str) {
        // Where memory is refused for them, they are not told.
        let _ = self.state.lock(self.rt).notes.push_str(lines);
    }

    fn built(&self, totals: &str) {
        // Where memory is refused for it, it is not told.
        let _ = self.state.lock(self.rt).totals.push_str(totals);
    }

    fn summary(&self, alloc: Global) -> Option<String> {
        self.state.lock(self.rt).summary(alloc).ok()
    }

    fn work(&self, alloc: Global) -> Option<String> {
        self.state.lock(self.rt).work(alloc).ok()
    }
}
