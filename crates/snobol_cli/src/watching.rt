//! Runs with a trace, a profile or a dump.

use crate::files::{Outcome, not_written, write_file};
use driver::{FinalReport, Ran, Refusal, watch_deck};
use messages::Sources;
use run_reports::{Dump, Profile, Reports, Statements, Trace, put_profile};
use snobol_words::ReportFiles;
use std::alloc::{AllocError, Global};
use std::fs::{Files, OpenOptions};
use std::io::{self, BufWriter, Write};
use unit_io::Units;

/// The word for standard error.
const STANDARD_ERROR: &str = "-";

/// Where a trace goes.
#[derive(Drop)]
enum TraceOut<'e, F: Write + Drop, W: Write> {
    File(BufWriter<F>),
    Errors(&'e mut W),
}

impl<F: Write + Drop, W: Write> Write for TraceOut<'_, F, W> {
    fn write(&mut self, buf: &[u8]) -> io::Result<usize> {
        match self {
            TraceOut::File(file) => file.write(buf),
            TraceOut::Errors(errors) => errors.write(buf),
        }
    }

    fn flush(&mut self) -> io::Result<()> {
        match self {
            TraceOut::File(file) => file.flush(),
            TraceOut::Errors(errors) => errors.flush(),
        }
    }
}

/// What was seen of a run, as lines, where it is wanted.
#[derive(Drop)]
pub(crate) struct Seen {
    profile: Option<String>,
    dump: Option<String>,
}

/// How a run came out, and what was seen of it.
#[derive(Drop)]
pub(crate) struct Watched<'a> {
    pub(crate) ran: Ran,
    pub(crate) seen: Result<Seen, Outcome<'a>>,
}

impl Watched<'_> {
    /// Nothing was seen of it.
    pub(crate) fn unseen(ran: Ran) -> Watched<'static> {
        let seen = Seen {
            profile: None,
            dump: None,
        };
        Watched {
            ran,
            seen: Ok(seen),
        }
    }
}

fn trace_out<'e, R: Files + AllocGlobal, W: Write>(
    rt: &R,
    file: &str,
    errors: &'e mut W,
) -> io::Result<TraceOut<'e, R::File, W>> {
    if file == STANDARD_ERROR {
        return Ok(TraceOut::Errors(errors));
    }
    let mut how = OpenOptions::new();
    how.write(true).create(true).truncate(true);
    let file = how.open(rt, file)?;
    Ok(TraceOut::File(BufWriter::new(rt.alloc(), file)?))
}

fn profile_lines(
    alloc: Global,
    profile: &Profile,
    statements: &Statements<'_>,
) -> Result<String, AllocError> {
    if profile.is_lost() {
        return Err(AllocError);
    }
    let mut lines = String::new(alloc);
    put_profile(alloc, profile, statements, &mut lines)?;
    Ok(lines)
}

fn lines_of(
    alloc: Global,
    profile: Option<Profile>,
    dump: Option<Dump>,
    statements: &Statements<'_>,
) -> Result<Seen, AllocError> {
    let profile = match &profile {
        Some(profile) => Some(profile_lines(alloc, profile, statements)?),
        None => None,
    };
    let dump = match dump {
        Some(dump) => Some(dump.into_lines()?),
        None => None,
    };
    Ok(Seen { profile, dump })
}

// What was seen, or why it can't be reported.
fn seen_of<'a, W: Write>(
    alloc: Global,
    reports: Reports<'_, '_, '_, W>,
    statements: &Statements<'_>,
    trace_file: &'a str,
) -> Result<Seen, Outcome<'a>> {
    let Reports {
        trace,
        profile,
        dump,
    } = reports;
    if let Some(trace) = trace {
        if let Some(error) = trace.into_fault() {
            return Err(not_written(error, trace_file));
        }
    }
    match lines_of(alloc, profile, dump, statements) {
        Ok(seen) => Ok(seen),
        Err(_) => Err(Outcome::from(FinalReport::NoMemory)),
    }
}

// A trace that is written there, if it is wanted.
fn trace_of<'a, 's, 'o, W: Write>(
    alloc: Global,
    is_wanted: bool,
    statements: &'a Statements<'s>,
    out: &'o mut W,
) -> Option<Trace<'a, 's, 'o, W>> {
    if !is_wanted {
        return None;
    }
    Some(Trace::new(alloc, statements, out))
}

// What is reported of a run, as it is wanted; the trace is written there.
fn reports_of<'a, 's, 'o, W: Write>(
    alloc: Global,
    files: ReportFiles<'_>,
    statements: &'a Statements<'s>,
    out: &'o mut W,
) -> Reports<'a, 's, 'o, W> {
    Reports {
        trace: trace_of(alloc, files.trace.is_some(), statements, out),
        profile: files.profile.is_some().then_some(Profile::new(alloc)),
        dump: files.dump.is_some().then_some(Dump::new(alloc)),
    }
}

// Compiles a deck and runs its module, of which the reports hear, which are given back.
fn run_reported<'a, 's, 'o, U: Units, W: Write>(
    alloc: Global,
    deck: &[u8],
    units: &mut U,
    steps: u64,
    reports: Reports<'a, 's, 'o, W>,
) -> (Result<Ran, Refusal>, Reports<'a, 's, 'o, W>) {
    let mut reports = reports;
    let ran = watch_deck(alloc, deck, units, steps, &mut reports);
    (ran, reports)
}

// Compiles a deck and runs its module, with what is wanted of it; the trace is written there.
fn run_traced<'a, U: Units, W: Write>(
    alloc: Global,
    sources: &Sources<'_>,
    statements: &Statements<'_>,
    files: ReportFiles<'a>,
    units: &mut U,
    steps: u64,
    out: &mut W,
) -> Result<Watched<'a>, Outcome<'a>> {
    let file = files.trace.unwrap_or(STANDARD_ERROR);
    let reports = reports_of(alloc, files, statements, out);
    let (ran, reports) = run_reported(alloc, sources.bytes(), units, steps, reports);
    let seen = seen_of(alloc, reports, statements, file);
    match ran {
        Ok(ran) => Ok(Watched { ran, seen }),
        Err(refusal) => Err(Outcome::from(FinalReport::Refused(refusal))),
    }
}

/// Compiles a deck and runs its module as `run_deck` does, with a trace, a profile or a dump, as they are wanted.
pub(crate) fn run_watched<'a, R: Files + AllocGlobal, U: Units, W: Write>(
    rt: &R,
    sources: &Sources<'_>,
    files: ReportFiles<'a>,
    units: &mut U,
    steps: u64,
    errors: &mut W,
) -> Result<Watched<'a>, Outcome<'a>> {
    let alloc = rt.alloc();
    let statements = Statements::of(alloc, &*sources);
    let file = files.trace.unwrap_or(STANDARD_ERROR);
    let mut out = match trace_out(rt, file, errors) {
        Ok(out) => out,
        Err(error) => return Err(not_written(error, file)),
    };
    let Watched { ran, seen } = run_traced(
        alloc,
        sources,
        &statements,
        files,
        units,
        steps,
        &mut out,
    )?;
    let seen = match out.flush() {
        Ok(()) => seen,
        Err(error) => Err(not_written(error, file)),
    };
    Ok(Watched { ran, seen })
}

// Writes lines to a file or to standard error.
fn write_lines<'a, R: Files + AllocGlobal, W: Write>(
    rt: &R,
    file: &'a str,
    lines: &str,
    errors: &mut W,
) -> Result<(), Outcome<'a>> {
    if file != STANDARD_ERROR {
        return write_file(rt, file, lines.as_bytes());
    }
    match errors.write_all(lines.as_bytes()) {
        Ok(()) => Ok(()),
        Err(_) => Err(Outcome::from(FinalReport::CannotWrite("standard error"))),
    }
}

/// Writes what was seen of a run.
pub(crate) fn write_seen<'a, R: Files + AllocGlobal, W: Write>(
    rt: &R,
    files: ReportFiles<'a>,
    seen: &Seen,
    errors: &mut W,
) -> Result<(), Outcome<'a>> {
    if let (Some(file), Some(lines)) = (files.profile, &seen.profile) {
        write_lines(rt, file, lines.as_str(), errors)?;
    }
    if let (Some(file), Some(lines)) = (files.dump, &seen.dump) {
        write_lines(rt, file, lines.as_str(), errors)?;
    }
    Ok(())
}
