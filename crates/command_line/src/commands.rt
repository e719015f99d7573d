//! The commands of the program and their arguments.
ghost use Rattle.std.specs.Prelude.{◌≡◌, IfOk, fold};
ghost use Rattle.clap.specs.Simple.{app_of, new_app};
ghost use Rattle.command_line.specs.CommandLine.{preinit};
ghost use Rattle.command_line.specs.steps.Described.{HasApp, IsLocal, program_alone, with_argument, with_description};

use crate::arguments::Argument;
use crate::texts::{
    AUDIT_ABOUT, AUDIT_LONG_ABOUT, BUILD_ABOUT, BUILD_LONG_ABOUT, EXPLAIN_ABOUT,
    EXPLAIN_LONG_ABOUT, INSPECT_ABOUT, INSPECT_LONG_ABOUT, LAZY_ABOUT, LAZY_LONG_ABOUT,
    PROGRAM_ABOUT, RENEW_ABOUT, RENEW_LONG_ABOUT, REPLAY_ABOUT, REPLAY_LONG_ABOUT, REPORT_ABOUT,
    REPORT_LONG_ABOUT, RUN_ABOUT, RUN_LONG_ABOUT, STATUSES,
};
use clap::Command;
use clap::builder::ValueParser;
use std::alloc::{AllocError, Global};

/// What `--version` prints after the program's name.
const VERSION: &str = "0.1.0";

/// A command, what help says of it, and its arguments in help's order.
struct Description {
    name: &'static str,
    about: &'static str,
    long_about: &'static str,
    arguments: &'static [Argument],
}

const COMMANDS: [Description; 9] = [
    Description {
        name: "build",
        about: BUILD_ABOUT,
        long_about: BUILD_LONG_ABOUT,
        arguments: &[
            VERBOSE,
            OUT,
            REPORT,
            PAGE,
            WORKERS,
            BUILD_TIME,
            RUN_TIME,
            BUDGET,
            BUILT_FILES,
        ],
    },
    Description {
        name: "report",
        about: REPORT_ABOUT,
        long_about: REPORT_LONG_ABOUT,
        arguments: &[VERBOSE, PAGE, BUILD_TIME, RUN_TIME, BUDGET, BUILT_FILES],
    },
    Description {
        name: "explain",
        about: EXPLAIN_ABOUT,
        long_about: EXPLAIN_LONG_ABOUT,
        arguments: &[VERBOSE, CLASS, BUILD_TIME, RUN_TIME, BUDGET, BUILT_FILES],
    },
    Description {
        name: "renew",
        about: RENEW_ABOUT,
        long_about: RENEW_LONG_ABOUT,
        arguments: &[VERBOSE, OUT, RENEWED_IMAGE],
    },
    Description {
        name: "inspect",
        about: INSPECT_ABOUT,
        long_about: INSPECT_LONG_ABOUT,
        arguments: &[VERBOSE, INSPECTED_IMAGE],
    },
    Description {
        name: "audit",
        about: AUDIT_ABOUT,
        long_about: AUDIT_LONG_ABOUT,
        arguments: &[VERBOSE, ENTRIES, AUDITED_FILES],
    },
    Description {
        name: "lazy",
        about: LAZY_ABOUT,
        long_about: LAZY_LONG_ABOUT,
        arguments: &[VERBOSE, ENTRIES, LIMIT, STACKS, RUN_FILES],
    },
    Description {
        name: "run",
        about: RUN_ABOUT,
        long_about: RUN_LONG_ABOUT,
        arguments: &[
            VERBOSE,
            ENTRIES,
            LIMIT,
            TURNS,
            STACKS,
            WRITTEN_JOURNAL,
            RUN_IMAGE,
        ],
    },
    Description {
        name: "replay",
        about: REPLAY_ABOUT,
        long_about: REPLAY_LONG_ABOUT,
        arguments: &[VERBOSE, ENTRIES, STACKS, AT, READ_JOURNAL, RUN_IMAGE],
    },
];

const OUT: Argument = Argument::Text {
    id: "out",
    name: "out",
    value: "IMG",
    is_required: true,
    help: "The file that gets the image",
};

const REPORT: Argument = Argument::Text {
    id: "report",
    name: "report",
    value: "FILE",
    is_required: false,
    help: "The file that gets the report of the build, as 'preinit report' prints it",
};

const PAGE: Argument = Argument::Text {
    id: "page",
    name: "page",
    value: "FILE",
    is_required: false,
    help: "The file that gets the build as a page of HTML",
};

const WORKERS: Argument = Argument::Number {
    name: "workers",
    default: "1",
    numbers: ValueParser::Unsigned(0, 4_294_967_295),
    help: "How many threads run initializers, from 1 to 64",
};

const ENTRIES: Argument = Argument::Text {
    id: "entries",
    name: "entries",
    value: "LIST",
    is_required: true,
    help: "Classes whose main methods are run, with dots, separated by commas, as 'app.Main,app.Other'",
};

const LIMIT: Argument = Argument::Number {
    name: "limit",
    default: "100000000",
    numbers: ValueParser::Unsigned(1, 1_000_000_000_000_000),
    help: "Ends the run after this many steps, from 1 to 10^15",
};

const VERBOSE: Argument = Argument::Flag {
    name: "verbose",
    help: "Says more on standard error: what a refusal means, where threads ended, what a build came to",
};

const TURNS: Argument = Argument::Flag {
    name: "turns",
    help: "Runs by turns: in each round every thread takes one step",
};

const STACKS: Argument = Argument::Flag {
    name: "stacks",
    help: "Shows on standard error where each thread stands that has not returned",
};

const AT: Argument = Argument::Maybe {
    name: "at",
    numbers: ValueParser::Unsigned(0, 1_000_000_000_000_000),
    help: "Ends after this many steps of the journal, and reports the stacks there, with local variables and operands",
};

const WRITTEN_JOURNAL: Argument = Argument::Text {
    id: "journal",
    name: "journal",
    value: "FILE",
    is_required: false,
    help: "The file that gets the journal, from which 'preinit replay' runs the same again",
};

const READ_JOURNAL: Argument = Argument::Text {
    id: "journal",
    name: "journal",
    value: "FILE",
    is_required: true,
    help: "The file that has the journal",
};

const CLASS: Argument = Argument::Word {
    id: "class",
    value: "CLASS",
    help: "The class, with dots, as 'app.Main', or 'all'",
};

const RENEWED_IMAGE: Argument = Argument::Word {
    id: "image",
    value: "IMG",
    help: "The image to write again",
};

const INSPECTED_IMAGE: Argument = Argument::Word {
    id: "image",
    value: "IMG",
    help: "The image to look into",
};

const RUN_IMAGE: Argument = Argument::Word {
    id: "image",
    value: "IMG",
    help: "The image to run",
};

const BUILT_FILES: Argument = Argument::Files {
    help: "The class files, in any order; '@NAMES' for those that NAMES names, one a line",
};

const AUDITED_FILES: Argument = Argument::Files {
    help: "The class files to look at, in any order; '@NAMES' for those that NAMES names, one a line",
};

const RUN_FILES: Argument = Argument::Files {
    help: "The class files to run, in any order; '@NAMES' for those that NAMES names, one a line",
};

const BUILD_TIME: Argument = Argument::Text {
    id: "build_time",
    name: "initialize-at-build-time",
    value: "LIST",
    is_required: false,
    help: "Classes and packages, with dots, separated by commas, that have to be initialized at build time; with \
           their superclasses",
};

const RUN_TIME: Argument = Argument::Text {
    id: "run_time",
    name: "initialize-at-run-time",
    value: "LIST",
    is_required: false,
    help: "Classes and packages that are initialized at run time, whatever they do; with their subclasses",
};

const BUDGET: Argument = Argument::Number {
    name: "budget",
    default: "1000000",
    numbers: ValueParser::Unsigned(0, u64::MAX),
    help: "What each initializer may cost, in instructions and elements of new arrays, from 1 to 10^9",
};

/// The program with its commands.
pub(crate) fn program<'a>(alloc: Global) -> Result<Command<'a>, AllocError>
    ensures { IfOk result (λ program. app_of program ≡ preinit) }
{
    with_commands(alloc, described_program(alloc), &COMMANDS)?.bin_name("preinit")
}

/// The program without its commands.
fn described_program<'a>(alloc: Global) -> Command<'a>
    ensures { HasApp program_alone result }
{
    Command::new(alloc, "preinit")
        .no_binary_name(true)
        .version(VERSION)
        .about(PROGRAM_ABOUT)
        .after_help(STATUSES)
        .subcommand_required(true)
        .arg_required_else_help(true)
}

fn with_commands<'a>(
    alloc: Global,
    program: Command<'a>,
    descriptions: &[Description],
) -> Result<Command<'a>, AllocError>
    ensures { IfOk result (λ all. app_of all ≡ fold with_description (app_of program.entry) descriptions.now) }
{
    let mut program = program;
    for description in descriptions {
        program = with_command(alloc, program, description)?;
    }
    Ok(program)
}

fn with_command<'a>(
    alloc: Global,
    program: Command<'a>,
    description: &Description,
) -> Result<Command<'a>, AllocError>
    ensures { IfOk result (λ more. app_of more ≡ with_description (app_of program.entry) description.now) }
{
    let command = described(alloc, description);
    match with_arguments(alloc, command, description.arguments) {
        Ok(command) => program.subcommand(command),
        Err(error) => Err(error),
    }
}

/// A command without its arguments.
fn described<'a>(alloc: Global, description: &Description) -> Command<'a>
    ensures { HasApp (new_app description.now.name.now) result }
{
    Command::new(alloc, description.name)
        .about(description.about)
        .long_about(description.long_about)
        .after_help(STATUSES)
}

fn with_arguments<'a>(
    alloc: Global,
    command: Command<'a>,
    arguments: &[Argument],
) -> Result<Command<'a>, AllocError>
    requires { IsLocal command }
    ensures { IfOk result (HasApp (fold with_argument (app_of command.entry) arguments.now)) }
{
    let mut command = command;
    for argument in arguments {
        command = command.arg(argument.arg(alloc))?;
    }
    Ok(command)
}
