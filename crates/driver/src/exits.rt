//! The exit status of the program.

ghost use Rattle.std.specs.Prelude.{◌≡◌};
ghost use Rattle.driver.specs.Exits.{exit_of, exit_of_ending, exit_of_fault, exit_of_refusal, exit_of_rule, exit_of_status};

use crate::refusal::Refusal;
use crate::telling::FinalReport;
use model::{Ending, FormatRule, LoadFault, Status};

fn of_ending(ending: Ending) -> u8
    ensures { result ≡ exit_of_ending ending }
{
    match ending {
        Ending::Normal => 0,
        Ending::Error { .. } => 1,
        Ending::StLimit { .. } => 5,
    }
}

fn of_status(status: Status) -> u8
    ensures { result ≡ exit_of_status status }
{
    match status {
        Status::Running => 5,
        Status::Ended(ending) => of_ending(ending),
        Status::Stopped(_) => 6,
    }
}

fn of_refusal(refusal: &Refusal) -> u8
    ensures { result ≡ exit_of_refusal refusal.now }
{
    match refusal {
        Refusal::Card(_) => 3,
        Refusal::Statements(_) => 3,
        Refusal::Memory => 6,
    }
}

fn of_rule(rule: FormatRule) -> u8
    ensures { result ≡ exit_of_rule rule }
{
    match rule {
        FormatRule::BadMagic => 4,
        FormatRule::BadVersion => 4,
        FormatRule::Truncated => 4,
        FormatRule::TrailingBytes => 4,
        FormatRule::BadTable => 4,
        FormatRule::UnknownInstruction => 4,
        FormatRule::Memory => 6,
    }
}

fn of_fault(fault: LoadFault) -> u8
    ensures { result ≡ exit_of_fault fault }
{
    match fault {
        LoadFault::Format(fault) => of_rule(fault.rule),
        LoadFault::Module(_) => 4,
    }
}

/// The exit status for what is reported.
pub fn exit_status(told: &FinalReport<'_>) -> u8
    ensures { result ≡ exit_of told.now }
{
    match told {
        FinalReport::BadCommandLine => 2,
        FinalReport::Refused(refusal) => of_refusal(refusal),
        FinalReport::BadModule(fault) => of_fault(*fault),
        FinalReport::Ran(ran) => of_status(ran.status),
        FinalReport::CannotRead(_) => 6,
        FinalReport::CannotWrite(_) => 6,
        FinalReport::NoMemory => 6,
    }
}
