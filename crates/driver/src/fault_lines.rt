//! The lines that report why a deck or a module is refused.

ghost use Rattle.std.specs.Prelude.{◌≡◌, OnOk};
ghost use Rattle.std.specs.Io.KnownBytes.{Appends};
ghost use Rattle.driver.specs.FaultLines.{card_code, card_line, cause_code, fault_line, fault_lines};
ghost use Rattle.driver.specs.FaultLines.{format_code, format_line, module_code, module_line};

use model::{
    CardFault, CardRule, Cause, FormatFault, FormatRule, ModuleFault, ModuleRule, StmtFault,
};
use std::io::{self, Write};

fn card_code(rule: CardRule) -> &'static str
    ensures { result.now ≡ card_code rule }
{
    match rule {
        CardRule::BadByte => "C1",
        CardRule::NothingToContinue => "C2",
        CardRule::UnknownControl => "C3",
        CardRule::NoEnd => "C4",
        CardRule::DeckTooLong => "C5",
        CardRule::StatementTooLong => "C6",
        CardRule::Memory => "C7",
    }
}

fn cause_code(cause: Cause) -> &'static str
    ensures { result.now ≡ cause_code cause }
{
    match cause {
        Cause::StrayByte => "L1",
        Cause::UnclosedLiteral => "L2",
        Cause::IntegerTooLarge => "L3",
        Cause::TooManyBrackets => "L4",
        Cause::TooManyMarks => "L5",
        Cause::NoTree => "P1",
        Cause::LabelTaken => "P2",
        Cause::TooManyArguments => "P3",
        Cause::UnknownKeyword => "P4",
        Cause::NotATarget => "P5",
        Cause::EntryMissing => "P6",
        Cause::Memory => "no memory",
    }
}

fn format_code(rule: FormatRule) -> &'static str
    ensures { result.now ≡ format_code rule }
{
    match rule {
        FormatRule::BadMagic => "F1",
        FormatRule::BadVersion => "F2",
        FormatRule::Truncated => "F3",
        FormatRule::TrailingBytes => "F4",
        FormatRule::BadTable => "F5",
        FormatRule::UnknownInstruction => "F6",
        FormatRule::Memory => "F7",
    }
}

fn module_code(rule: ModuleRule) -> &'static str
    ensures { result.now ≡ module_code rule }
{
    match rule {
        ModuleRule::BadIndex => "W1",
        ModuleRule::BadTarget => "W2",
        ModuleRule::BadFlow => "W3",
        ModuleRule::BadJump => "W4",
        ModuleRule::NoEnd => "W5",
    }
}

/// Writes the line of a card fault.
pub(crate) fn tell_card_fault<W: Write>(fault: CardFault, out: &mut W) -> io::Result<()>
    ensures { OnOk result (Appends (W.contents out.old) (W.contents out.new) (card_line fault)) }
{
    let CardFault { card, rule } = fault;
    let code = card_code(rule);
    writeln!(out, "card {card} {code}")
}

// Writes the line of a faulty statement.
fn tell_fault<W: Write>(fault: StmtFault, out: &mut W) -> io::Result<()>
    ensures { OnOk result (Appends (W.contents out.old) (W.contents out.new) (fault_line fault)) }
{
    let StmtFault { number, cause } = fault;
    let code = cause_code(cause);
    writeln!(out, "statement {number} {code}")
}

/// Writes the lines of faulty statements, in order.
pub(crate) fn tell_faults<W: Write>(faults: &[StmtFault], out: &mut W) -> io::Result<()>
    ensures { OnOk result (Appends (W.contents out.old) (W.contents out.new) (fault_lines faults.now)) }
{
    for fault in faults {
        tell_fault(*fault, out)?;
    }
    Ok(())
}

/// Writes the line of a fault of the module format.
pub(crate) fn tell_format_fault<W: Write>(fault: FormatFault, out: &mut W) -> io::Result<()>
    ensures { OnOk result (Appends (W.contents out.old) (W.contents out.new) (format_line fault)) }
{
    let FormatFault { offset, rule } = fault;
    let code = format_code(rule);
    writeln!(out, "offset {offset} {code}")
}

/// Writes the line of a module that isn't well-formed.
pub(crate) fn tell_module_fault<W: Write>(fault: ModuleFault, out: &mut W) -> io::Result<()>
    ensures { OnOk result (Appends (W.contents out.old) (W.contents out.new) (module_line fault)) }
{
    let ModuleFault { offset, rule } = fault;
    let code = module_code(rule);
    writeln!(out, "offset {offset} {code}")
}
