//! Runs of decks.

use crate::files::{
    Outcome, is_output_piped, read_decks, unreadable, why_not_read, why_not_written,
};
use crate::included::take_in;
use crate::porting::{is_foreign, use_written, written_anew};
use crate::reporting::{report_alone, report_outcome};
use crate::statuses::FAILED;
use crate::watching::{Watched, run_watched, write_seen};
use crate::words_unit::WordsUnit;
use driver::{FinalReport, Ran, UnitFile, finished, run_deck};
use messages::{Form, Sources};
use model::{Status, Stop, UnitFault};
use program::{system_of, units_of};
use snobol_words::{GivenFiles, Port, ReportFiles};
use std::env::Env;
use std::fs::Files;
use std::io::{self, Input, Print, Write};
use unit_io::Units;

// A run that a unit stopped before it began.
fn unread(unit: u8, reason: io::Error) -> Outcome<'static> {
    let cause = UnitFault::ReadFailed;
    Outcome {
        told: FinalReport::Ran(Ran {
            status: Status::Stopped(Stop::Unit { unit, cause }),
            card: 0,
        }),
        reason: Some(reason),
    }
}

// The file that is given for a unit.
fn file_of<'a>(unit: u8, files: &[UnitFile<'a>]) -> Option<&'a str> {
    let given = files.iter().find(|given| given.unit == unit)?;
    Some(given.file)
}

// Why a unit failed, if the system still says so.
fn reason_of<R: Files>(rt: &R, ran: Ran, files: &[UnitFile<'_>]) -> Option<io::Error> {
    let Status::Stopped(Stop::Unit { unit, cause }) = ran.status else {
        return None;
    };
    let file = file_of(unit, files)?;
    match cause {
        UnitFault::ReadFailed => why_not_read(rt, file),
        UnitFault::WriteFailed => why_not_written(rt, file),
        UnitFault::NotOpen | UnitFault::Memory => None,
    }
}

// Compiles a deck and runs its module, and nothing is seen of it.
fn run_unwatched<'a, R: AllocGlobal, U: Units>(
    rt: &R,
    sources: &Sources<'_>,
    units: &mut U,
    steps: u64,
) -> Result<Watched<'a>, Outcome<'a>> {
    match run_deck(rt.alloc(), sources.bytes(), units, steps) {
        Ok(ran) => Ok(Watched::unseen(ran)),
        Err(refusal) => Err(Outcome::from(FinalReport::Refused(refusal))),
    }
}

// Compiles a deck and runs its module on the units that are given.
fn run_sources<'a, R: Files + Input + Print + AllocGlobal, W: Write>(
    rt: &R,
    sources: &Sources<'_>,
    files: &[UnitFile<'_>],
    asked: Asked<'a>,
    errors: &mut W,
) -> Result<Outcome<'a>, Outcome<'a>> {
    if let Some((unit, reason)) = unreadable(rt, files) {
        return Ok(unread(unit, reason));
    }
    let system = match system_of(rt, files) {
        Ok(system) => system,
        Err(told) => return Err(Outcome::from(told)),
    };
    let units = match units_of(rt.alloc(), &system, files) {
        Ok(units) => units,
        Err(told) => return Err(Outcome::from(told)),
    };
    let mut units = WordsUnit::new(rt.alloc(), asked.records, units);
    let watched = if asked.reports.are_wanted() {
        run_watched(rt, sources, asked.reports, &mut units, asked.steps, errors)?
    } else {
        run_unwatched(rt, sources, &mut units, asked.steps)?
    };
    let ran = finished(watched.ran, units.into_units().flush());
    write_seen(rt, asked.reports, &watched.seen?, errors)?;
    Ok(Outcome {
        told: FinalReport::Ran(ran),
        reason: reason_of(rt, ran, files),
    })
}

// Whether a run was stopped since nobody reads what it prints.
fn is_unread<R: Files + AllocGlobal>(
    rt: &R,
    told: &FinalReport<'_>,
    files: &[UnitFile<'_>],
) -> bool {
    match told {
        FinalReport::Ran(
            Ran {
                status: Status::Stopped(
                    Stop::Unit {
                        unit: 6,
                        cause: UnitFault::WriteFailed,
                    },
                ),
                ..
            },
        ) => file_of(6, files).is_none() && is_output_piped(rt),
        _ => false,
    }
}

// Runs decks, which are written anew if that is permitted, and they are refused as they are, or need it, or small
// letters are to be raised.
fn run_as_asked<'a, R: Files + Input + Print + AllocGlobal, W: Write>(
    rt: &R,
    sources: &mut Sources<'_>,
    given: &GivenFiles<'_>,
    asked: Asked<'a>,
    errors: &mut W,
) -> Result<Outcome<'a>, Outcome<'a>> {
    let Port::Anew { folds } = asked.port else {
        return run_sources(rt, sources, &given.files, asked, errors);
    };
    let Ok(written) = written_anew(rt.alloc(), sources, folds) else {
        return Err(Outcome::from(FinalReport::NoMemory));
    };
    if !(written.is_needed() || folds && written.is_changed()) {
        let ran = run_sources(rt, sources, &given.files, asked, errors);
        let is_refused = match &ran {
            Err(outcome) => is_foreign(&outcome.told),
            Ok(_) => false,
        };
        if !(is_refused && written.is_changed()) {
            return ran;
        }
    }
    match use_written(rt.alloc(), sources, written, asked.form, errors) {
        Ok(()) => run_sources(rt, sources, &given.files, asked, errors),
        Err(told) => Err(Outcome::from(told)),
    }
}

/// What is asked of a run but for its decks and files.
#[derive(Clone, Copy)]
pub(crate) struct Asked<'a> {
    pub(crate) records: &'a [&'a str],
    pub(crate) steps: u64,
    pub(crate) port: Port,
    pub(crate) reports: ReportFiles<'a>,
    pub(crate) form: Form,
}

/// Compiles decks as one, runs the module, and returns the exit status.
pub(crate) fn run_decks<R: Env + Files + Input + Print + AllocGlobal, W: Write>(
    rt: &R,
    given: &GivenFiles<'_>,
    asked: Asked<'_>,
    errors: &mut W,
) -> u8 {
    let (alloc, form) = (rt.alloc(), asked.form);
    let mut sources = match read_decks(rt, &given.decks) {
        Ok(sources) => sources,
        Err(outcome) => return report_alone(alloc, form, &outcome, "", errors),
    };
    if matches!(asked.port, Port::Anew { .. }) {
        if let Err(status) = take_in(rt, &mut sources, form, errors) {
            return status;
        }
    }
    let outcome = match run_as_asked(rt, &mut sources, given, asked, errors) {
        Ok(outcome) => outcome,
        Err(outcome) => outcome,
    };
    if is_unread(rt, &outcome.told, &given.files) {
        return FAILED;
    }
    report_outcome(alloc, form, &outcome, &sources, &given.files, "", errors)
}
