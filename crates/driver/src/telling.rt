//! What the program reports on standard error.

ghost use Rattle.std.specs.Prelude.{◌≡◌, IfOk, OnOk};
ghost use Rattle.std.specs.Io.KnownBytes.{Appends};
ghost use Rattle.driver.specs.Exits.{exit_of};
ghost use Rattle.driver.specs.FaultLines.{line};
ghost use Rattle.driver.specs.Lines.{card_text, ending_lines, error_number, lines_of};
ghost use Rattle.driver.specs.Lines.{module_lines, no_memory_line, refusal_lines, run_lines, stop_lines};

use crate::exits::exit_status;
use crate::fault_lines::{tell_card_fault, tell_faults, tell_format_fault, tell_module_fault};
use crate::refusal::Refusal;
use crate::running::Ran;
use model::{Ending, ErrorCode, FormatRule, LoadFault, Status, Stop, UnitFault};
use std::io::{self, Write};

/// What the program has to report at its end.
#[derive(Drop)]
pub enum FinalReport<'a> {
    BadCommandLine,
    Refused(Refusal),
    BadModule(LoadFault),
    Ran(Ran),
    CannotRead(&'a str),
    CannotWrite(&'a str),
    NoMemory,
}

/// A line that could not be written.
#[derive(Drop)]
pub struct WriteFault {
    pub error: io::Error,
}

impl From<io::Error> for WriteFault {
    fn from(error: io::Error) -> WriteFault {
        WriteFault { error }
    }
}

// The end of a line about a statement: the card where it begins, if that is known.
fn end_with_card<W: Write>(card: u32, out: &mut W) -> io::Result<()>
    ensures { OnOk result (Appends (W.contents out.old) (W.contents out.new) (line (card_text card))) }
{
    if card == 0 {
        writeln!(out)
    } else {
        writeln!(out, " card {card}")
    }
}

// The number in an error's code.
fn error_number(code: ErrorCode) -> u8
    ensures { result ≡ error_number code }
{
    match code {
        ErrorCode::WrongType => 1,
        ErrorCode::Arithmetic => 2,
        ErrorCode::NotAnInteger => 3,
        ErrorCode::UndefinedFunction => 4,
        ErrorCode::NotAName => 5,
        ErrorCode::UndefinedLabel => 6,
        ErrorCode::ReturnAtLevelZero => 7,
        ErrorCode::FailureInGoto => 8,
        ErrorCode::StringTooLong => 9,
        ErrorCode::BadPatternArgument => 10,
        ErrorCode::BadKeywordValue => 11,
        ErrorCode::BadPrototype => 12,
        ErrorCode::BadArray => 13,
        ErrorCode::NotPrintable => 14,
        ErrorCode::BadUnit => 15,
        ErrorCode::TooManyArguments => 16,
    }
}

fn tell_ending<W: Write>(ending: Ending, card: u32, out: &mut W) -> io::Result<()>
    ensures { OnOk result (Appends (W.contents out.old) (W.contents out.new) (ending_lines ending card)) }
{
    match ending {
        Ending::Normal => Ok(()),
        Ending::Error { code, statement } => {
            let number = error_number(code);
            write!(out, "error E{number} statement {statement}")?;
            end_with_card(card, out)
        }
        Ending::StLimit { statement } => {
            write!(out, "stlimit statement {statement}")?;
            end_with_card(card, out)
        }
    }
}

fn tell_no_memory<W: Write>(out: &mut W) -> io::Result<()>
    ensures { OnOk result (Appends (W.contents out.old) (W.contents out.new) no_memory_line) }
{
    writeln!(out, "no memory")
}

fn tell_stop<W: Write>(stop: Stop, out: &mut W) -> io::Result<()>
    ensures { OnOk result (Appends (W.contents out.old) (W.contents out.new) (stop_lines stop)) }
{
    match stop {
        Stop::Unit {
            cause: UnitFault::Memory,
            ..
        }
        | Stop::NoMemory => tell_no_memory(out),
        Stop::Unit {
            unit,
            cause: UnitFault::NotOpen,
        } => writeln!(out, "unit {unit} U1"),
        Stop::Unit {
            unit,
            cause: UnitFault::ReadFailed,
        } => writeln!(out, "unit {unit} U2"),
        Stop::Unit {
            unit,
            cause: UnitFault::WriteFailed,
        } => writeln!(out, "unit {unit} U3"),
    }
}

fn tell_bad_module<W: Write>(fault: LoadFault, out: &mut W) -> io::Result<()>
    ensures { OnOk result (Appends (W.contents out.old) (W.contents out.new) (module_lines fault)) }
{
    match fault {
        LoadFault::Format(fault) => match fault.rule {
            FormatRule::Memory => tell_no_memory(out),
            _ => tell_format_fault(fault, out),
        },
        LoadFault::Module(fault) => tell_module_fault(fault, out),
    }
}

fn tell_run<W: Write>(ran: Ran, out: &mut W) -> io::Result<()>
    ensures { OnOk result (Appends (W.contents out.old) (W.contents out.new)
        (run_lines ran.status ran.card)) }
{
    match ran.status {
        Status::Running => writeln!(out, "steps used up"),
        Status::Ended(ending) => tell_ending(ending, ran.card, out),
        Status::Stopped(stop) => tell_stop(stop, out),
    }
}

fn tell_refusal<W: Write>(refusal: &Refusal, out: &mut W) -> io::Result<()>
    ensures { OnOk result (Appends (W.contents out.old) (W.contents out.new) (refusal_lines refusal.now)) }
{
    match refusal {
        Refusal::Card(fault) => tell_card_fault(*fault, out),
        Refusal::Statements(faults) => tell_faults(faults.as_slice(), out),
        Refusal::Memory => tell_no_memory(out),
    }
}

fn tell<W: Write>(told: &FinalReport<'_>, out: &mut W) -> io::Result<()>
    ensures { OnOk result (Appends (W.contents out.old) (W.contents out.new) (lines_of told.now)) }
{
    match told {
        FinalReport::BadCommandLine => writeln!(out, "bad command line"),
        FinalReport::Refused(refusal) => tell_refusal(refusal, out),
        FinalReport::BadModule(fault) => tell_bad_module(*fault, out),
        FinalReport::Ran(ran) => tell_run(*ran, out),
        FinalReport::CannotRead(file) => writeln!(out, "cannot read {file}"),
        FinalReport::CannotWrite(file) => writeln!(out, "cannot write {file}"),
        FinalReport::NoMemory => tell_no_memory(out),
    }
}

/// Writes the lines that report it, and returns the exit status. After a failure nothing is said of what was written.
pub fn report<W: Write>(told: &FinalReport<'_>, out: &mut W) -> Result<u8, WriteFault>
    ensures exit { IfOk result (λ exit. exit ≡ exit_of told.now) }
    ensures lines { OnOk result (Appends (W.contents out.old) (W.contents out.new) (lines_of told.now)) }
{
    tell(told, out)?;
    Ok(exit_status(told))
}
