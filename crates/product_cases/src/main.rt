//! The program `product_cases`: makes the calls that no command of `preinit` reaches, or does not show.
//!
//! A word of the command line names a file of cases, whose folder says what they are about ([`About`]): its questions
//! are asked, and the answers compared with those that stand after them. A word that begins with `memory ` has a call
//! made that takes memory, or inputs fed to a reader (`MEMORY.md`).
//!
//! It prints a line for each word, and one for each answer that is not as it is wanted. Its status is 0 where all
//! are.
#![tactic(auto)]

mod about;
mod answer;
mod cases;
mod class_files;
mod codes;
mod graphs;
mod hex;
mod image_bytes;
mod image_sinks;
mod members;
mod memory;
mod programs;
mod streams;
mod tables;
mod threads;
mod uses;
mod words;

use about::About;
use cases::run_cases;
use std::io::{self, Write};
use std::process::ExitCode;
use std::sync::Wait;
use std::thread::Threads;
use std::{env, fs, rt};

/// Does one word, and answers whether all is as it is wanted.
fn do_word<R, W>(rt: &R, out: &mut W, word: &str) -> io::Result<bool>
where
    R: rt::Files + AllocGlobal + Threads + Wait + Sync,
    W: Write,
{
    match word.split_once(' ') {
        Some(("memory", call)) => memory::call(rt, out, call),
        _ => {
            let text = fs::read_to_string(rt, word)?;
            run_cases(rt, rt.alloc(), out, About::of_file(word), word, &text)
        }
    }
}

/// Does the words of the command line in order, and answers whether all is as it is wanted.
fn run<R, W>(rt: &R, out: &mut W) -> io::Result<bool>
where
    R: rt::Env + rt::Files + AllocGlobal + Threads + Wait + Sync,
    W: Write,
{
    let mut all_well = true;
    for word in env::args(rt)?.skip(1) {
        match do_word(rt, out, &word) {
            Ok(is_well) => all_well &= is_well,
            Err(error) => return Err(error),
        }
    }
    Ok(all_well)
}

fn main(rt: HostRuntime) -> io::Result<ExitCode> {
    let mut out = rt.stdout();
    let all_well = run(&rt, &mut out)?;
    Ok(ExitCode::from(if all_well { 0 } else { 1 }))
}
