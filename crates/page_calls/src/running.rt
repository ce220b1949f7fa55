//! A deck's run on units in memory.

ghost use Rattle.std.specs.Prelude.{◌≡◌, [], Some, IfErr, IfOk};
ghost use Rattle.model.specs.declared.run.Ending.TheVariants.{Normal};
ghost use Rattle.model.specs.Language.Units.{bytes_on};
ghost use Rattle.unit_io.specs.Held.{io_of};
ghost use Rattle.statement_machine.specs.Stopped.{ending_of};
ghost use Rattle.driver.specs.Compiled.{IsRefusalOf};
ghost use Rattle.page_calls.specs.Shown.{IsShown, inputs_of};

use crate::watched::Watched;
use driver::{Ran, Refusal, run_deck};
use model::{Ending, Status, UnitFault};
use std::alloc::Global;
use unit_io::MemUnits;

/// What a run printed on unit 6, and how it came out.
#[derive(Drop)]
pub(crate) struct Outcome {
    pub(crate) ran: Ran,
    pub(crate) printed: Vec<u8>,
}

// Unit 5 with the lines of the bytes, and unit 6.
fn units(alloc: Global, input: &[u8]) -> Result<MemUnits, UnitFault>
    ensures left { IfOk result (λ units. (io_of units).left ≡ inputs_of input.now) }
    ensures printed { IfOk result (λ units. (io_of units).printed ≡ []) }
{
    let mut units = MemUnits::new(alloc);
    units.open_input(5, input)?;
    units.open_output(6)?;
    Ok(units)
}

// What was printed on unit 6, which is open as it was at first.
fn printed_on(alloc: Global, units: &MemUnits) -> Result<Vec<u8>, UnitFault>
    ensures { IfOk result (λ bytes. bytes.items ≡ bytes_on 6 (io_of units.now).printed) }
{
    let Some(bytes) = units.bytes(6) else {
        return Err(UnitFault::NotOpen);
    };
    match Vec::from_slice(alloc, bytes) {
        Ok(printed) => Ok(printed),
        Err(_) => Err(UnitFault::Memory),
    }
}

/// Compiles a deck and runs it on the lines of the input, at most so many steps. What is refused for want of memory says
/// nothing of the deck.
pub(crate) fn run(alloc: Global, deck: &[u8], input: &[u8], steps: u64) -> Result<Outcome, Refusal>
    ensures refused { IfErr result (IsRefusalOf deck.now) }
    ensures shown { IfOk result (λ run. IsShown deck.now input.now run.ran.status run.printed.items) }
{
    let Ok(units) = units(alloc, input) else {
        return Err(Refusal::Memory);
    };
    let mut watched = Watched { units };
    let ran = run_deck(alloc, deck, &mut watched, steps)?;
    match printed_on(alloc, &watched.units) {
        Ok(printed) => Ok(Outcome { ran, printed }),
        Err(_) => Err(Refusal::Memory),
    }
}

/// The exit status of a run that `sno` would end with this one.
pub(crate) fn exit_status(status: Status, told: u8) -> u8
    ensures { result ≡ 0 → ending_of status ≡ Some Normal }
{
    match status {
        Status::Ended(Ending::Normal) => 0,
        _ => told.max(1),
    }
}
