//! The words of the program `sno`.

ghost use Rattle.std.specs.Prelude.{IfErr};
ghost use Rattle.driver.specs.Exits.{IsOfBadWords};

use crate::telling::FinalReport;
use clap::error::ErrorKind;
use clap::{Arg, ArgAction, ArgMatches, Command, Error};
use std::alloc::{AllocError, Global};

/// How many steps a run takes at most, where the words don't say.
const DEFAULT_STEPS: u64 = 1_000_000_000;

/// The last unit.
const MOST_UNIT: u8 = 99;

/// A file that is given for a unit.
#[derive(Clone, Copy, PartialEq, Eq)]
pub struct UnitFile<'a> {
    pub unit: u8,
    pub file: &'a str,
}

/// What the program is asked to do.
#[derive(Drop)]
pub enum Job<'a> {
    /// Compile the deck on standard input and run its module.
    CompileAndRun {
        steps: u64,
    },
    /// Compile a deck to a module.
    Compile {
        deck: &'a str,
        module: &'a str,
    },
    /// Write a module of version 1 of the format anew in version 2.
    Upgrade {
        old: &'a str,
        new: &'a str,
    },
    /// Say whether a module is accepted.
    Check {
        module: &'a str,
    },
    /// Show a module's instructions.
    Show {
        module: &'a str,
    },
    /// Run a module, at most so many steps. No two files are given for one unit.
    Run {
        module: &'a str,
        steps: u64,
        files: Vec<UnitFile<'a>>,
    },
    /// Compile a deck and run its module, in the same way.
    Go {
        deck: &'a str,
        steps: u64,
        files: Vec<UnitFile<'a>>,
    },
}

// A word that must be there.
fn file<'a>(alloc: Global, name: &'a str) -> Arg<'a> {
    Arg::new(alloc, name).required(true).action(ArgAction::Set)
}

// A command without help and version.
fn bare<'a>(alloc: Global, name: &'a str) -> Command<'a> {
    Command::new(alloc, name)
        .disable_help_flag(true)
        .disable_version_flag(true)
        .disable_help_subcommand(true)
}

// A command that takes a module.
fn of_module<'a>(alloc: Global, name: &'a str) -> Result<Command<'a>, AllocError> {
    bare(alloc, name).arg(file(alloc, "MODULE"))
}

fn compile_words<'a>(alloc: Global) -> Result<Command<'a>, AllocError> {
    bare(alloc, "compile")
        .arg(file(alloc, "DECK"))?
        .arg(file(alloc, "MODULE"))
}

fn upgrade_words<'a>(alloc: Global) -> Result<Command<'a>, AllocError> {
    bare(alloc, "upgrade")
        .arg(file(alloc, "OLD"))?
        .arg(file(alloc, "NEW"))
}

// A command that leads to a run.
fn of_run<'a>(
    alloc: Global,
    command: Result<Command<'a>, AllocError>,
) -> Result<Command<'a>, AllocError> {
    let files = Arg::new(alloc, "UNIT=FILE")
        .num_args(0..)
        .action(ArgAction::Append);
    let command = command?.arg(files)?;
    command.arg(
        Arg::new(alloc, "steps")
            .long("steps")
            .action(ArgAction::Set),
    )
}

fn go_words<'a>(alloc: Global) -> Result<Command<'a>, AllocError> {
    of_run(alloc, bare(alloc, "go").arg(file(alloc, "DECK")))
}

// A command with one below it. Here alone a command is held where memory may be refused: a proof follows the fall of
// each value that is held at a `?`, field by field.
fn with<'a>(
    top: Command<'a>,
    below: Result<Command<'a>, AllocError>,
) -> Result<Command<'a>, AllocError> {
    top.subcommand(below?)
}

fn command<'a>(alloc: Global) -> Result<Command<'a>, AllocError> {
    let top = bare(alloc, "sno").no_binary_name(true);
    let top = with(top, compile_words(alloc))?;
    let top = with(top, upgrade_words(alloc))?;
    let top = with(top, of_module(alloc, "check"))?;
    let top = with(top, of_module(alloc, "show"))?;
    let top = with(top, of_run(alloc, of_module(alloc, "run")))?;
    with(top, go_words(alloc))
}

// The number that digits spell. Nothing, if there is no digit, or another byte, or the number is too large.
fn number(digits: &str) -> Option<u64> {
    if digits.is_empty() {
        return None;
    }
    let mut number: u64 = 0;
    for &byte in digits.as_bytes() {
        if !byte.is_ascii_digit() {
            return None;
        }
        number = number.checked_mul(10)?.checked_add(u64::from(byte - b'0'))?;
    }
    Some(number)
}

// How many steps a run takes at most, where the words are in order.
fn steps(matches: &ArgMatches<'_>) -> Option<u64> {
    match matches.get_str("steps") {
        Some(digits) => number(digits),
        None => Some(DEFAULT_STEPS),
    }
}

// The file that a word gives for a unit, where the word is in order.
fn unit_file<'a>(word: &'a str) -> Option<UnitFile<'a>> {
    let (unit, file) = word.split_once('=')?;
    let unit = u8::try_from(number(unit)?).ok()?;
    if unit > MOST_UNIT || file.is_empty() {
        return None;
    }
    Some(UnitFile { unit, file })
}

// The files that words give for units, at most one for each.
fn unit_files<'a>(
    alloc: Global,
    words: &[&'a str],
) -> Result<Vec<UnitFile<'a>>, FinalReport<'static>>
    ensures { IfErr result IsOfBadWords }
{
    let mut files: Vec<UnitFile<'a>> = Vec::new(alloc);
    for word in words {
        let given = unit_file(word).ok_or(FinalReport::BadCommandLine)?;
        if files.iter().any(|file| file.unit == given.unit) {
            return Err(FinalReport::BadCommandLine);
        }
        if files.push(given).is_err() {
            return Err(FinalReport::NoMemory);
        }
    }
    Ok(files)
}

// What the words of `run` ask for.
fn run_job<'a>(
    alloc: Global,
    module: &'a str,
    matches: &ArgMatches<'a>,
) -> Result<Job<'a>, FinalReport<'static>>
    ensures { IfErr result IsOfBadWords }
{
    let steps = steps(matches).ok_or(FinalReport::BadCommandLine)?;
    let files = unit_files(alloc, matches.get_strs("UNIT=FILE").unwrap_or(&[]))?;
    Ok(Job::Run {
        module,
        steps,
        files,
    })
}

// What the words of `go` ask for.
fn go_job<'a>(alloc: Global, matches: &ArgMatches<'a>) -> Result<Job<'a>, FinalReport<'static>>
    ensures { IfErr result IsOfBadWords }
{
    let deck = matches.get_str("DECK").ok_or(FinalReport::BadCommandLine)?;
    let steps = steps(matches).ok_or(FinalReport::BadCommandLine)?;
    let files = unit_files(alloc, matches.get_strs("UNIT=FILE").unwrap_or(&[]))?;
    Ok(Job::Go { deck, steps, files })
}

// What the words of `upgrade` ask for.
fn upgrade_job<'a>(matches: &ArgMatches<'a>) -> Result<Job<'a>, FinalReport<'static>>
    ensures { IfErr result IsOfBadWords }
{
    let old = matches.get_str("OLD").ok_or(FinalReport::BadCommandLine)?;
    let new = matches.get_str("NEW").ok_or(FinalReport::BadCommandLine)?;
    Ok(Job::Upgrade { old, new })
}

// What the words of a subcommand ask for.
fn subcommand_job<'a>(
    alloc: Global,
    name: &str,
    matches: &ArgMatches<'a>,
) -> Result<Job<'a>, FinalReport<'static>>
    ensures { IfErr result IsOfBadWords }
{
    if name == "upgrade" {
        return upgrade_job(matches);
    }
    if name == "go" {
        return go_job(alloc, matches);
    }
    let module = matches
        .get_str("MODULE")
        .ok_or(FinalReport::BadCommandLine)?;
    match name {
        "compile" => {
            let deck = matches.get_str("DECK").ok_or(FinalReport::BadCommandLine)?;
            Ok(Job::Compile { deck, module })
        }
        "check" => Ok(Job::Check { module }),
        "show" => Ok(Job::Show { module }),
        "run" => run_job(alloc, module, matches),
        _ => Err(FinalReport::BadCommandLine),
    }
}

fn told(error: &Error) -> FinalReport<'static>
    ensures { IsOfBadWords result }
{
    match error.kind() {
        ErrorKind::OutOfMemory => FinalReport::NoMemory,
        _ => FinalReport::BadCommandLine,
    }
}

/// What the words after the program's name ask for; every other command line is a bad one.
pub fn read_words<'a>(alloc: Global, words: &'a [&'a str]) -> Result<Job<'a>, FinalReport<'a>>
    ensures { IfErr result IsOfBadWords }
{
    let Ok(command) = command(alloc) else {
        return Err(FinalReport::NoMemory);
    };
    let matches = match command.try_get_matches_from(words) {
        Ok(matches) => matches,
        Err(error) => return Err(told(&error)),
    };
    let Some((name, inner)) = matches.subcommand() else {
        return Ok(Job::CompileAndRun {
            steps: DEFAULT_STEPS,
        });
    };
    subcommand_job(alloc, name, inner)
}
