//! Files of cases: what is asked, and what the answer has to be.
//!
//! A case begins with a heading after `# `. Lines with ` => ` ask: before it stands what is asked, after it the answer
//! that is wanted. A line that begins with `## ` is a remark. All other lines give what the questions of the case are
//! about, and those before the first heading what all questions of the file are about.

use crate::about::About;
use crate::answer::Answer;
use std::alloc::{AllocError, Global};
use std::io::{self, Write};
use std::sync::Wait;
use std::thread::Threads;

/// How many questions there were, and how many had another answer than is wanted.
#[derive(Clone, Copy, Default)]
struct Tally {
    questions: u64,
    others: u64,
}

/// A case: the file that it stands in, what stands before all cases of it, the heading, and the other lines.
#[derive(Clone, Copy)]
struct Case<'a> {
    file: &'a str,
    before: &'a str,
    heading: &'a str,
    lines: &'a str,
}

/// Asks the questions of a file. Writes each that has another answer, and a line with the counts. Answers whether none
/// has.
pub fn run_cases<R: Threads + Wait + Sync, W: Write>(
    rt: &R,
    alloc: Global,
    out: &mut W,
    about: About,
    file: &str,
    text: &str,
) -> io::Result<bool> {
    let mut tally = Tally::default();
    let (before, parts) = text.split_once("\n# ").unwrap_or((text, ""));
    for part in parts.split("\n# ") {
        let (heading, lines) = part.split_once('\n').unwrap_or((part, ""));
        let case = Case {
            file,
            before,
            heading,
            lines,
        };
        run_case(rt, alloc, out, about, case, &mut tally)?;
    }
    let Tally { questions, others } = tally;
    writeln!(out, "{file}: {questions} questions, {others} otherwise")?;
    Ok(others == 0)
}

/// Asks the questions of a case.
fn run_case<R: Threads + Wait + Sync, W: Write>(
    rt: &R,
    alloc: Global,
    out: &mut W,
    about: About,
    case: Case<'_>,
    tally: &mut Tally,
) -> io::Result<()> {
    let given = given_of(alloc, case)?;
    for line in case.lines.lines() {
        if let Some((asked, wanted)) = line.split_once(" => ") {
            tally.questions = tally.questions.saturating_add(1);
            let found = found(rt, alloc, about, &given, asked)?;
            if found.as_str() != wanted {
                tally.others = tally.others.saturating_add(1);
                let Case { file, heading, .. } = case;
                writeln!(out, "{file}: {heading}: {asked} => {found}")?;
            }
        }
    }
    Ok(())
}

/// The lines that give something, of those before all cases and of those of a case.
fn given_of(alloc: Global, case: Case<'_>) -> Result<String, AllocError> {
    let mut given = String::new(alloc);
    for lines in [case.before, case.lines] {
        for line in lines.lines() {
            if !line.contains(" => ") && !line.starts_with("## ") {
                given.push_str(line)?;
                given.push('\n')?;
            }
        }
    }
    Ok(given)
}

/// What is found, with the end of a line as `;`, and U+0000 as a class file's text form has it.
fn found<R: Threads + Wait + Sync>(
    rt: &R,
    alloc: Global,
    about: About,
    given: &str,
    asked: &str,
) -> Result<String, AllocError> {
    let mut answer = Answer::new(alloc);
    about.ask(rt, &mut answer, given, asked);
    let answer = answer.finish()?;
    let lines = answer.replace(alloc, "\n", ";")?;
    lines.replace(alloc, "\0", "\\u0000")
}
