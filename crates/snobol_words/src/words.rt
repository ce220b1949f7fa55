//! What words ask for.

use crate::commands::command;
use crate::given::sorted;
use crate::jobs::{NoJob, Port, ReportFiles, Reporting, Request, Warnings};
use clap::error::ErrorKind;
use clap::{ArgMatches, Error};
use messages::Form;
use std::alloc::{AllocError, Global};

/// The version of the program.
pub const VERSION: &str = "1.0";

/// The columns of a message's card, where the environment doesn't say them.
pub const COLUMNS: usize = 80;

fn form_asked(matches: &ArgMatches<'_>) -> Option<Form> {
    match matches.get_str("messages")? {
        "json" => Some(Form::Json),
        "codes" => Some(Form::Codes),
        _ => Some(Form::Text(COLUMNS)),
    }
}

fn port_asked(matches: &ArgMatches<'_>) -> Port {
    if matches.get_flag("strict") {
        return Port::Never;
    }
    Port::Anew {
        folds: matches.get_flag("fold"),
    }
}

fn reports_asked<'a>(matches: &ArgMatches<'a>) -> ReportFiles<'a> {
    ReportFiles {
        trace: matches.get_str("trace"),
        profile: matches.get_str("profile"),
        dump: matches.get_str("dump"),
    }
}

fn reporting_asked(matches: &ArgMatches<'_>) -> Reporting {
    let warnings = match matches.get_str("warnings") {
        Some("error") => Warnings::Errors,
        Some("none") => Warnings::Hidden,
        _ => Warnings::Shown,
    };
    Reporting {
        form: form_asked(matches),
        warnings,
    }
}

// The words of an argument, copied, since the matches go.
fn copied<'a>(
    alloc: Global,
    matches: &ArgMatches<'a>,
    name: &str,
) -> Result<Vec<&'a str>, AllocError> {
    let mut words = Vec::new(alloc);
    for word in matches.get_strs(name).unwrap_or(&[]) {
        words.push(*word)?;
    }
    Ok(words)
}

// A word that `clap` saw to be there.
fn there<'a>(matches: &ArgMatches<'a>, name: &str) -> &'a str {
    matches.get_str(name).unwrap_or("")
}

fn run_job<'a>(alloc: Global, matches: &ArgMatches<'a>) -> Result<Request<'a>, NoJob<'a>> {
    let records = copied(alloc, matches, "WORD")?;
    let given = sorted(alloc, matches.get_strs("DECK").unwrap_or(&[]), &records)?;
    Ok(Request::Run {
        given,
        records,
        steps: matches.get_one::<u64>("steps").unwrap_or(u64::MAX),
        port: port_asked(matches),
        reports: reports_asked(matches),
        form: form_asked(matches),
    })
}

fn subcommand_job<'a>(
    alloc: Global,
    name: &str,
    matches: &ArgMatches<'a>,
) -> Result<Request<'a>, NoJob<'a>> {
    match name {
        "check" => Ok(Request::Check {
            decks: copied(alloc, matches, "DECK")?,
            reporting: reporting_asked(matches),
        }),
        "list" => Ok(Request::List {
            decks: copied(alloc, matches, "DECK")?,
            has_code: matches.get_flag("code"),
            reporting: reporting_asked(matches),
        }),
        "compile" => Ok(Request::Compile {
            deck: there(matches, "DECK"),
            module: there(matches, "MODULE"),
            form: form_asked(matches),
        }),
        "port" => Ok(Request::Port {
            deck: there(matches, "DECK"),
            folds: matches.get_flag("fold"),
            form: form_asked(matches),
        }),
        "show" => Ok(Request::Show {
            module: there(matches, "MODULE"),
            source: matches.get_str("source"),
            form: form_asked(matches),
        }),
        _ => Ok(Request::Explain {
            code: there(matches, "CODE"),
        }),
    }
}

fn said<'a>(error: Error) -> NoJob<'a> {
    match error.kind() {
        ErrorKind::OutOfMemory => NoJob::NoMemory,
        _ => NoJob::Said(error),
    }
}

/// What the words after the program's name ask for.
pub fn read_words<'a>(alloc: Global, words: &'a [&'a str]) -> Result<Request<'a>, NoJob<'a>> {
    let command = command(alloc)?;
    let matches = match command.try_get_matches_from(words) {
        Ok(matches) => matches,
        Err(error) => return Err(said(error)),
    };
    match matches.subcommand() {
        Some((name, inner)) => subcommand_job(alloc, name, inner),
        None => run_job(alloc, &matches),
    }
}
