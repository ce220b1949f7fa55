//! The words as `clap` knows them.

use crate::words::VERSION;
use clap::{Arg, ArgAction, Command, value_parser};
use std::alloc::{AllocError, Global};

const USAGE: &str =
    "snobol [OPTIONS] <DECK>... [UNIT=FILE]... [-- <WORD>...]\n       snobol <COMMAND>";

const RUN_HELP: &str =
    "The decks, read as one, `-` for standard input; and UNIT=FILE, a file for a unit";

const ABOUT: &str = "Compiles and runs SNOBOL4 decks.";

const AFTER: &str =
    "Unit 5 (INPUT) is standard input and unit 6 (OUTPUT) standard output, unless files are given for them.\n\
     Exit status: 0 normal, 1 error of the run, 2 bad words, 3 deck refused, 4 module refused,\n\
     5 &STLIMIT or steps used up, 6 unit, file or memory.";

// A word that must be there.
fn word<'a>(alloc: Global, name: &'a str, help: &'a str) -> Arg<'a> {
    Arg::new(alloc, name)
        .required(true)
        .action(ArgAction::Set)
        .help(help)
}

// One word or more.
fn words<'a>(alloc: Global, name: &'a str, help: &'a str) -> Arg<'a> {
    Arg::new(alloc, name)
        .required(true)
        .num_args(1..)
        .action(ArgAction::Append)
        .help(help)
}

fn records<'a>(alloc: Global) -> Arg<'a> {
    Arg::new(alloc, "WORD")
        .num_args(0..)
        .last(true)
        .action(ArgAction::Append)
        .help("The records of unit 4")
}

fn steps_option<'a>(alloc: Global) -> Arg<'a> {
    Arg::new(alloc, "steps")
        .long("steps")
        .value_name("N")
        .value_parser(value_parser!(u64))
        .action(ArgAction::Set)
        .help("Run at most N steps; without it there is no bound")
}

fn messages_option<'a>(alloc: Global) -> Arg<'a> {
    Arg::new(alloc, "messages")
        .long("messages")
        .value_name("FORM")
        .value_parser(["text", "json", "codes"].as_slice())
        .action(ArgAction::Set)
        .help("How messages are written: with the card and a caret, as JSON, or as by sno")
}

fn warnings_option<'a>(alloc: Global) -> Arg<'a> {
    Arg::new(alloc, "warnings")
        .long("warnings")
        .value_name("WHAT")
        .value_parser(["show", "error", "none"].as_slice())
        .action(ArgAction::Set)
        .help("Whether warnings are shown, refuse the deck too, or are left out")
}

fn code_option<'a>(alloc: Global) -> Arg<'a> {
    Arg::new(alloc, "code")
        .long("code")
        .action(ArgAction::SetTrue)
        .help("With the instructions under each statement")
}

fn source_option<'a>(alloc: Global) -> Arg<'a> {
    Arg::new(alloc, "source")
        .long("source")
        .value_name("DECK")
        .action(ArgAction::Set)
        .help("Show them under the cards of the deck from which the module was compiled")
}

fn fold_option<'a>(alloc: Global) -> Arg<'a> {
    Arg::new(alloc, "fold")
        .long("fold")
        .action(ArgAction::SetTrue)
        .help("Raise small letters of names where a deck is written anew")
}

fn strict_option<'a>(alloc: Global) -> Arg<'a> {
    Arg::new(alloc, "strict")
        .long("strict")
        .action(ArgAction::SetTrue)
        .help("Run the decks as they are, though they were written for another SNOBOL4")
}

// A report of a run, to standard error or to a file.
fn report_option<'a>(alloc: Global, name: &'a str, help: &'a str) -> Arg<'a> {
    Arg::new(alloc, name)
        .long(name)
        .value_name("FILE")
        .num_args(0..=1)
        .require_equals(true)
        .default_missing_value("-")
        .action(ArgAction::Set)
        .help(help)
}

fn with_reports<'a>(alloc: Global, command: Command<'a>) -> Result<Command<'a>, AllocError> {
    command
        .arg(report_option(
            alloc,
            "trace",
            "Write a line for each statement that begins, to standard error or a file",
        ))?
        .arg(report_option(
            alloc,
            "profile",
            "Write how often each statement ran and how many steps it took",
        ))?
        .arg(report_option(
            alloc,
            "dump",
            "Write what the variables hold at the end of the run",
        ))
}

fn named<'a>(alloc: Global, name: &'a str, about: &'a str) -> Command<'a> {
    Command::new(alloc, name)
        .about(about)
        .disable_help_subcommand(true)
}

fn check_words<'a>(alloc: Global) -> Result<Command<'a>, AllocError> {
    named(alloc, "check", "Reports what is wrong in a deck")
        .arg(words(
            alloc,
            "DECK",
            "The decks, read as one; `-` is standard input",
        ))?
        .arg(messages_option(alloc))?
        .arg(warnings_option(alloc))
}

fn list_words<'a>(alloc: Global) -> Result<Command<'a>, AllocError> {
    named(alloc, "list", "Lists a deck, with what is wrong in it")
        .arg(words(
            alloc,
            "DECK",
            "The decks, read as one; `-` is standard input",
        ))?
        .arg(code_option(alloc))?
        .arg(messages_option(alloc))?
        .arg(warnings_option(alloc))
}

fn explain_words<'a>(alloc: Global) -> Result<Command<'a>, AllocError> {
    named(alloc, "explain", "Says what a code of a message means").arg(word(
        alloc,
        "CODE",
        "A code, as L1 or E3",
    ))
}

fn compile_words<'a>(alloc: Global) -> Result<Command<'a>, AllocError> {
    named(alloc, "compile", "Compiles a deck to a module")
        .arg(word(alloc, "DECK", "The deck; `-` is standard input"))?
        .arg(word(alloc, "MODULE", "The file that is written"))?
        .arg(messages_option(alloc))
}

fn port_words<'a>(alloc: Global) -> Result<Command<'a>, AllocError> {
    named(
        alloc,
        "port",
        "Writes a deck of another SNOBOL4 as one of this language",
    )
    .arg(word(alloc, "DECK", "The deck; `-` is standard input"))?
    .arg(fold_option(alloc))?
    .arg(messages_option(alloc))
}

fn show_words<'a>(alloc: Global) -> Result<Command<'a>, AllocError> {
    named(alloc, "show", "Shows the instructions of a module")
        .arg(word(alloc, "MODULE", "The module"))?
        .arg(source_option(alloc))?
        .arg(messages_option(alloc))
}

fn run_words<'a>(alloc: Global) -> Result<Command<'a>, AllocError> {
    let run = named(alloc, "snobol", ABOUT)
        .version(VERSION)
        .override_usage(USAGE)
        .after_help(AFTER)
        .no_binary_name(true)
        .bin_name("snobol")?
        .args_conflicts_with_subcommands(true)
        .arg(words(alloc, "DECK", RUN_HELP))?
        .arg(records(alloc))?
        .arg(steps_option(alloc))?
        .arg(fold_option(alloc))?
        .arg(strict_option(alloc))?
        .arg(messages_option(alloc))?;
    with_reports(alloc, run)
}

// A command with one below it.
fn with<'a>(
    top: Command<'a>,
    below: Result<Command<'a>, AllocError>,
) -> Result<Command<'a>, AllocError> {
    top.subcommand(below?)
}

/// The commands, with their help.
pub(crate) fn command<'a>(alloc: Global) -> Result<Command<'a>, AllocError> {
    let top = run_words(alloc)?;
    let top = with(top, check_words(alloc))?;
    let top = with(top, list_words(alloc))?;
    let top = with(top, explain_words(alloc))?;
    let top = with(top, compile_words(alloc))?;
    let top = with(top, port_words(alloc))?;
    with(top, show_words(alloc))
}
