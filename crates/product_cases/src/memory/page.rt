//! The page on which calls and their answers are written.

use init_engine::{Ending, Output, World};
use std::alloc::{AllocError, Global};
use std::fmt::Display;
use std::io::{self, Write};

/// Where lines go: each has the name of a call, `: ` and what it answered. It knows whether all went well so far.
#[derive(Drop)]
pub struct Page<'a, W: Write> {
    pub alloc: Global,
    out: &'a mut W,
    is_well: bool,
}

impl<'a, W: Write> Page<'a, W> {
    pub fn new(alloc: Global, out: &'a mut W) -> Page<'a, W> {
        Page {
            alloc,
            out,
            is_well: true,
        }
    }

    /// Whether all that calls need was made, and all was written.
    pub fn is_well(&self) -> bool {
        self.is_well
    }

    /// There is no such call, or what it needs could not be made, as the data are wrong.
    pub fn give_up(&mut self) {
        self.is_well = false;
    }

    fn note(&mut self, written: io::Result<()>) {
        self.is_well = self.is_well && written.is_ok();
    }

    /// Begins the line of a call, which is made next. Growths may be refused from here to what is written next.
    pub fn ask(&mut self, call: &str) {
        let written = write!(self.out, "{call}: ");
        self.note(written);
    }

    /// Ends the line of a call that answered a value, of which a number is told.
    pub fn value(&mut self, number: usize) {
        let written = writeln!(self.out, "Ok {number}");
        self.note(written);
    }

    /// Ends the line of a call that answered a number, or was refused memory.
    pub fn number(&mut self, answer: Result<usize, AllocError>) {
        match answer {
            Ok(number) => self.value(number),
            Err(_) => self.memory(),
        }
    }

    /// Ends the line of a call that was refused memory.
    pub fn memory(&mut self) {
        self.line(&"Memory");
    }

    /// Ends the line by a fault, or writes another line.
    pub fn line<F: Display>(&mut self, text: &F) {
        let written = writeln!(self.out, "{text}");
        self.note(written);
    }

    /// Writes how the threads of a world stand, on a line, and what they printed.
    pub fn world(&mut self, world: &World) {
        match world.endings(self.alloc) {
            Ok(endings) => self.seen(&endings, world.printed()),
            Err(_) => self.give_up(),
        }
    }

    /// Writes how threads stand, on a line, and what they printed.
    pub fn seen(&mut self, endings: &[Ending], printed: &Output) {
        let written = writeln!(self.out, "{endings:?}");
        self.note(written);
        let written = self.out.write_all(printed.text_from(0));
        self.note(written);
    }
}
