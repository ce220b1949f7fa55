//! From a module to what it prints.

ghost use Rattle.std.specs.Prelude.{◌≡◌, ℕ, List, Err, Ok, IfErr, IfOk, OnErr};
ghost use Rattle.model.specs.declared.image.Image.{Image};
ghost use Rattle.model.specs.Module.Images.{card_of};
ghost use Rattle.model.specs.Module.Reading.{read_image};
ghost use Rattle.loader.specs.Answers.{IsAnswer};
ghost use Rattle.loader.specs.Loaded.{IsLoaded};
ghost use Rattle.statement_machine.specs.Stopped.{stop_of_run};
ghost use Rattle.unit_io.specs.Service.{KeepsCounts};
ghost use Rattle.driver.specs.Cards.{card_told, number_in};
ghost use Rattle.driver.specs.Compiled.{IsModuleOf};
ghost use Rattle.driver.specs.Whole.{IsModuleRun, RefinesMeaning};

use crate::watching::watch_with_card;
use loader::Module;
use model::{Ending, LoadFault, Status};
use statement_machine::Unwatched;
use std::alloc::Global;
use unit_io::Units;

/// How a run came out, and the card where the statement begins that this is about.
#[derive(Clone, Copy)]
pub struct Ran {
    /// How it came out.
    pub status: Status,
    /// 0 where no card is known, or the status names no statement.
    pub card: u32,
}

// The card of a statement whose number a keyword has.
#[tactic(auto, using(crate::proofs::CardsTold::no_card))]
fn card_at(program: &Module, statement: i64) -> u32
    requires { IsLoaded program.now }
    ensures { result ≡ card_of program.now.cards (number_in statement) }
{
    if statement < 0 {
        return 0;
    }
    match u32::try_from(statement.unsigned_abs()) {
        Ok(number) => program.card(number),
        Err(_) => 0,
    }
}

/// The card that is reported beside a status.
pub(crate) fn card_told(program: &Module, status: Status) -> u32
    requires { IsLoaded program.now }
    ensures { result ≡ card_told program.now.cards status }
{
    match status {
        Status::Ended(Ending::Error { statement, .. }) => card_at(program, statement),
        Status::Ended(Ending::StLimit { statement }) => program.card(statement),
        _ => 0,
    }
}

/// Runs the module that bytes spell, at most so many steps, or reports why it is refused. The card is the one where the
/// statement begins that the status names.
pub fn run_with_card<U: Units>(
    alloc: Global,
    bytes: &[u8],
    units: &mut U,
    bound: u64,
) -> Result<Ran, LoadFault>
    ensures refused { IfErr result (λ fault. IsAnswer bytes.now (Err fault)) }
    ensures untouched { OnErr result (units.new ≡ units.old) }
    // The run is the machine's on the image that the bytes spell.
    ensures run { IfOk result (λ ran.
        IsModuleRun bytes.now bound (U.may_fail units.old) ran.status
        (U.told units.old) (U.told units.new)) }
    // A run that nothing stopped met no failure of a unit. One stopped by a failed unit names it, and no other unit
    // failed; for want of memory, none failed.
    ensures counts { IfOk result (λ ran.
        KeepsCounts (stop_of_run ran.status) (U.failures units.old) (U.failures units.new)) }
    // Of a module that compile_deck wrote, in the words of its deck alone: it does what the deck means.
    ensures meaning { IfOk result (λ ran.
        (deck : List ℕ) → IsModuleOf deck bytes.now
        → RefinesMeaning deck bound ran.status (U.told units.old) (U.told units.new)) }
    // The card of the statement at which the run ended by an error or the limit.
    ensures card { IfOk result (λ ran.
        (m : Image) × (read_image bytes.now ≡ Ok m) × (ran.card ≡ card_told m.cards ran.status)) }
{
    watch_with_card(alloc, bytes, units, bound, &mut Unwatched)
}

/// Runs the module that bytes spell, at most so many steps, or reports why it is refused.
pub fn run_module<U: Units>(
    alloc: Global,
    bytes: &[u8],
    units: &mut U,
    bound: u64,
) -> Result<Status, LoadFault>
    ensures refused { IfErr result (λ fault. IsAnswer bytes.now (Err fault)) }
    ensures untouched { OnErr result (units.new ≡ units.old) }
    // The run is the machine's on the image that the bytes spell.
    ensures run { IfOk result (λ status.
        IsModuleRun bytes.now bound (U.may_fail units.old) status
        (U.told units.old) (U.told units.new)) }
    // A run that nothing stopped met no failure of a unit. One stopped by a failed unit names it, and no other unit
    // failed; for want of memory, none failed.
    ensures counts { IfOk result (λ status.
        KeepsCounts (stop_of_run status) (U.failures units.old) (U.failures units.new)) }
    // Of a module that compile_deck wrote, in the words of its deck alone: it does what the deck means.
    ensures meaning { IfOk result (λ status.
        (deck : List ℕ) → IsModuleOf deck bytes.now
        → RefinesMeaning deck bound status (U.told units.old) (U.told units.new)) }
{
    let ran = run_with_card(alloc, bytes, units, bound)?;
    Ok(ran.status)
}
