//! The kinds of arguments that commands have.
ghost use Rattle.std.specs.Prelude.{◌≡◌, false};
ghost use Rattle.clap.specs.Walk.{rule_of};
ghost use Rattle.command_line.specs.CommandLine.{files, flag, maybe, number, text, word};
ghost use Rattle.command_line.specs.steps.Described.{rule_for};

use clap::builder::ValueParser;
use clap::{Arg, ArgAction};
use std::alloc::Global;

/// An argument, with what help says of it.
pub(crate) enum Argument {
    /// `--NAME`, used or not.
    Flag {
        name: &'static str,
        help: &'static str,
    },
    /// `--NAME VALUE`, a text.
    Text {
        id: &'static str,
        name: &'static str,
        value: &'static str,
        is_required: bool,
        help: &'static str,
    },
    /// `--NAME N`, a number that has a default.
    Number {
        name: &'static str,
        default: &'static str,
        numbers: ValueParser<'static>,
        help: &'static str,
    },
    /// `--NAME N`, a number that has no default.
    Maybe {
        name: &'static str,
        numbers: ValueParser<'static>,
        help: &'static str,
    },
    /// A text that is required, in a place of its own.
    Word {
        id: &'static str,
        value: &'static str,
        help: &'static str,
    },
    /// All further texts, the names of files.
    Files {
        help: &'static str,
    },
}

impl Argument {
    /// The argument as `clap` has it.
    pub(crate) fn arg<'a>(&self, alloc: Global) -> Arg<'a>
        ensures rule { rule_of result ≡ rule_for self.now }
        ensures local { result.global ≡ false }
    {
        match self {
            Argument::Flag { name, help } => flag(alloc, name, help),
            Argument::Text {
                id,
                name,
                value,
                is_required,
                help,
            } => text(alloc, id, name, value, *is_required, help),
            Argument::Number {
                name,
                default,
                numbers,
                help,
            } => number(alloc, name, default, *numbers, help),
            Argument::Maybe {
                name,
                numbers,
                help,
            } => maybe(alloc, name, *numbers, help),
            Argument::Word { id, value, help } => word(alloc, id, value, help),
            Argument::Files { help } => files(alloc, help),
        }
    }
}

fn flag<'a>(alloc: Global, name: &'a str, help: &'a str) -> Arg<'a>
    ensures rule { rule_of result ≡ flag name.now }
    ensures local { result.global ≡ false }
{
    Arg::new(alloc, name)
        .long(name)
        .action(ArgAction::SetTrue)
        .help(help)
}

fn text<'a>(
    alloc: Global,
    id: &'a str,
    name: &'a str,
    value: &'a str,
    is_required: bool,
    help: &'a str,
) -> Arg<'a>
    ensures rule { rule_of result ≡ text id.now name.now is_required }
    ensures local { result.global ≡ false }
{
    Arg::new(alloc, id)
        .long(name)
        .value_name(value)
        .required(is_required)
        .help(help)
}

fn number<'a>(
    alloc: Global,
    name: &'a str,
    default: &'a str,
    numbers: ValueParser<'a>,
    help: &'a str,
) -> Arg<'a>
    ensures rule { rule_of result ≡ number name.now default.now numbers.entry }
    ensures local { result.global ≡ false }
{
    Arg::new(alloc, name)
        .long(name)
        .value_name("N")
        .default_value(default)
        .value_parser(numbers)
        .help(help)
}

fn maybe<'a>(alloc: Global, name: &'a str, numbers: ValueParser<'a>, help: &'a str) -> Arg<'a>
    ensures rule { rule_of result ≡ maybe name.now numbers.entry }
    ensures local { result.global ≡ false }
{
    Arg::new(alloc, name)
        .long(name)
        .value_name("N")
        .value_parser(numbers)
        .help(help)
}

fn word<'a>(alloc: Global, id: &'a str, value: &'a str, help: &'a str) -> Arg<'a>
    ensures rule { rule_of result ≡ word id.now }
    ensures local { result.global ≡ false }
{
    Arg::new(alloc, id)
        .value_name(value)
        .required(true)
        .help(help)
}

fn files<'a>(alloc: Global, help: &'a str) -> Arg<'a>
    ensures rule { rule_of result ≡ files }
    ensures local { result.global ≡ false }
{
    Arg::new(alloc, "file")
        .value_name("FILE")
        .num_args(0..)
        .help(help)
}
