//! Words of commands, and what they ask for.

use crate::answer::Answer;
use classfile::ClassName;
use cli::{
    Audit, Build, Building, Explain, Inspect, Lazy, Renew, Replay, Request, Run, entries_of, line,
};
use std::alloc::{AllocError, Global};

/// Asked is `line WORDS`, what the words of a command ask for, or `entries LIST`, the names of a list.
pub fn ask(answer: &mut Answer, asked: &str) {
    match asked.split_once(' ').unwrap_or((asked, "")) {
        ("line", words) => add_request(answer, words),
        ("entries", list) => add_names(answer, list),
        _ => answer.word("no question"),
    }
}

/// The words of a text; `''` is an empty one.
fn words_of<'a>(alloc: Global, text: &'a str) -> Result<Vec<&'a str>, AllocError> {
    let mut words = Vec::new(alloc);
    for word in text.split_whitespace() {
        words.push(word.trim_matches('\''))?;
    }
    Ok(words)
}

/// What the words of a text ask for.
fn add_request(answer: &mut Answer, text: &str) {
    let Ok(words) = words_of(answer.alloc, text) else {
        return answer.refuse();
    };
    match line(answer.alloc, &words) {
        Ok(request) => of_request(answer, &request),
        Err(_) => answer.word("no command"),
    }
}

fn of_request(answer: &mut Answer, request: &Request<'_>) {
    match request {
        Request::Audit(audit) => add_audit(answer, audit),
        Request::Build(build) => add_build(answer, build),
        Request::Explain(explain) => add_explain(answer, explain),
        Request::Inspect(inspect) => add_inspect(answer, inspect),
        Request::Lazy(lazy) => add_lazy(answer, lazy),
        Request::Report(report) => {
            answer.word("report");
            add_building(answer, &report.building);
            add_named(answer, " page", report.page)
        }
        Request::Renew(renew) => add_renew(answer, renew),
        Request::Replay(replay) => add_replay(answer, replay),
        Request::Run(run) => add_run(answer, run),
    }
}

fn add_audit(answer: &mut Answer, audit: &Audit<'_>) {
    answer.word("audit");
    answer.bracketed(audit.entries);
    add_files(answer, &audit.files)
}

fn add_files(answer: &mut Answer, files: &[&str]) {
    for file in files {
        answer.bracketed(file);
    }
}

fn add_explain(answer: &mut Answer, explain: &Explain<'_>) {
    answer.word("explain");
    answer.bracketed(explain.class);
    add_building(answer, &explain.building)
}

fn add_inspect(answer: &mut Answer, inspect: &Inspect<'_>) {
    answer.word("inspect");
    answer.bracketed(inspect.image)
}

fn add_lazy(answer: &mut Answer, lazy: &Lazy<'_>) {
    answer.word("lazy");
    answer.bracketed(lazy.entries);
    add_limit(answer, lazy.limit, lazy.stacks);
    add_files(answer, &lazy.files)
}

/// How many steps a run may take, and whether its stacks are asked for.
fn add_limit(answer: &mut Answer, limit: u64, stacks: bool) {
    answer.word(" ");
    answer.show(&limit);
    answer.word(stacks_word(stacks))
}

fn stacks_word(asked: bool) -> &'static str {
    if asked { " stacks" } else { "" }
}

fn add_run(answer: &mut Answer, run: &Run<'_>) {
    answer.word(if run.turns { "run" } else { "run by threads" });
    answer.bracketed(run.entries);
    add_limit(answer, run.limit, run.stacks);
    answer.bracketed(run.image);
    add_named(answer, " journal", run.journal)
}

/// Adds a file after what it is for, where there is one.
fn add_named(answer: &mut Answer, what: &str, file: Option<&str>) {
    if let Some(file) = file {
        answer.word(what);
        answer.bracketed(file)
    }
}

fn add_renew(answer: &mut Answer, renew: &Renew<'_>) {
    answer.word("renew");
    answer.bracketed(renew.new);
    answer.bracketed(renew.image)
}

fn add_replay(answer: &mut Answer, replay: &Replay<'_>) {
    answer.word("replay");
    answer.bracketed(replay.entries);
    answer.bracketed(replay.journal);
    answer.word(stacks_word(replay.stacks));
    answer.bracketed(replay.image)
}

fn add_build(answer: &mut Answer, build: &Build<'_>) {
    answer.word("build");
    if build.workers != 1 {
        answer.word(" by ");
        answer.show(&build.workers)
    }
    answer.bracketed(build.image);
    add_building(answer, &build.building);
    add_named(answer, " report", build.report);
    add_named(answer, " page", build.page)
}

/// What the words of a build ask for, after the command.
fn add_building(answer: &mut Answer, building: &Building<'_>) {
    answer.bracketed(building.build_time.unwrap_or("none"));
    answer.bracketed(building.run_time.unwrap_or("none"));
    answer.word(" ");
    answer.show(&building.budget);
    add_files(answer, &building.files)
}

/// The names of a list of entries, each between quotes.
fn add_names(answer: &mut Answer, list: &str) {
    match entries_of(answer.alloc, list) {
        Ok(entries) => add_quoted(answer, &entries),
        Err(_) => answer.refuse(),
    }
}

fn add_quoted(answer: &mut Answer, names: &[ClassName]) {
    for name in names {
        answer.word("'");
        answer.show(name);
        answer.word("'");
    }
}
