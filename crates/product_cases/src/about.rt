//! What the cases of a folder are about.

use crate::answer::Answer;
use crate::{class_files, codes, graphs, image_bytes, programs, threads, words};
use std::sync::Wait;
use std::thread::Threads;

/// What the cases of a folder are about.
#[derive(Clone, Copy)]
pub enum About {
    /// The bytes of codes, and the instructions that they spell.
    Codes,
    /// Class files, their parts, and names of classes.
    ClassFiles,
    /// Graphs and their arrangements.
    Graphs,
    /// The bytes of images, what reading them answers, and writes of them into sinks that fail.
    Images,
    /// Classes, and what linking and the graph of uses answer of them.
    Programs,
    /// Classes, runs of them by several threads of the system, and what workers make of them at build time.
    Threads,
    /// Words of commands, and lists of names.
    Words,
}

impl About {
    /// What the cases of a file are about, by its folder.
    pub fn of_file(name: &str) -> About {
        let name = name.strip_prefix("assembled/").unwrap_or(name);
        match name.split_once('/') {
            Some(("codes", _)) => About::Codes,
            Some(("class_files", _)) => About::ClassFiles,
            Some(("graphs", _)) => About::Graphs,
            Some(("images", _)) => About::Images,
            Some(("threads", _)) => About::Threads,
            Some(("words", _)) => About::Words,
            _ => About::Programs,
        }
    }

    /// Adds what is found when this is asked of what is given. Faults are answers too.
    pub fn ask<R: Threads + Wait + Sync>(
        self,
        rt: &R,
        answer: &mut Answer,
        given: &str,
        asked: &str,
    ) {
        match self {
            About::Codes => codes::ask(answer, asked),
            About::ClassFiles => class_files::ask(answer, given, asked),
            About::Graphs => graphs::ask(answer, given, asked),
            About::Images => image_bytes::ask(answer, given, asked),
            About::Programs => programs::ask(answer, given, asked),
            About::Threads => threads::ask(rt, answer, given, asked),
            About::Words => words::ask(answer, asked),
        }
    }
}
