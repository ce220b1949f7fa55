//! From a deck, or a module, to the bytes that it writes to standard output and to files.

ghost use Rattle.std.specs.Prelude.{◌≡◌, ℕ, List, [], Err, Ok, IfErr, IfOk, OnErr};
ghost use Rattle.model.specs.declared.image.Image.{Image};
ghost use Rattle.model.specs.Deck.Cards.{first_cards};
ghost use Rattle.model.specs.Module.Reading.{read_image};
ghost use Rattle.loader.specs.Answers.{IsAnswer};
ghost use Rattle.statement_machine.specs.Stopped.{IfRan};
ghost use Rattle.unit_io.specs.Counts.{Same, failures_at};
ghost use Rattle.unit_io.specs.Files.{back_on};
ghost use Rattle.driver.specs.Cards.{card_told};
ghost use Rattle.driver.specs.Compiled.{IsModuleOf, IsRefusalOf};
ghost use Rattle.driver.specs.Finished.{IsFinished};
ghost use Rattle.unit_io.specs.Ways.{any_may_fail};
ghost use Rattle.driver.specs.OnFiles.{IsRunOnFiles, WritesMeaning};
ghost use Rattle.driver.specs.Whole.{IsModuleRun, IsRunOf};

use crate::refusal::Refusal;
use crate::running::{Ran, run_with_card};
use crate::whole::run_deck;
use model::{LoadFault, Status, Stop, UnitFault};
use std::alloc::Global;
use unit_io::{FileUnits, UnitSystem};

/// How a run came out once what its units kept back was written, or a unit could not be written.
pub fn finished(ran: Ran, written: Result<(), u8>) -> Ran
    ensures status { IsFinished ran.status written result.status }
    ensures card { result.card ≡ ran.card }
{
    match (ran.status, written) {
        (Status::Stopped(_), _) | (_, Ok(())) => ran,
        (_, Err(unit)) => Ran {
            status: Status::Stopped(Stop::Unit {
                unit,
                cause: UnitFault::WriteFailed,
            }),
            card: ran.card,
        },
    }
}

/// Compiles a deck and runs its module on standard streams and files, at most so many steps, and writes what they kept
/// back; or reports why the deck is refused. A run that ended, but whose last bytes could not be written, was stopped by
/// that unit.
pub fn run_deck_on_files<S: UnitSystem>(
    alloc: Global,
    deck: &[u8],
    units: &mut FileUnits<'_, S>,
    bound: u64,
) -> Result<Ran, Refusal>
    // A deck is refused by exactly its faults; want of memory says nothing of the deck.
    ensures refused { IfErr result (IsRefusalOf deck.now) }
    ensures untouched { OnErr result (units.new ≡ units.old) }
    // In the deck's own words, and in bytes: the deck has no fault, and the run writes what it means.
    ensures meaning { IfOk result (λ ran.
        WritesMeaning S.exposes deck.now bound ran.status units.old units.new) }
    // The run itself is that of run_deck, and a unit that could not be written at its end is the only other stop: a run
    // that a unit stopped stands where the machine may ask one, or has come as far as the bound allows.
    ensures run { IfOk result (λ ran.
        IsRunOnFiles S.exposes (IsRunOf deck.now bound any_may_fail) ran.status units.old units.new) }
    // Unless a unit or want of memory stopped the run, nothing is kept back, and no unit has failed.
    ensures handed_on { IfOk result (λ ran.
        IfRan ran.status ((unit : ℕ) → back_on unit units.new.given units.new.back ≡ [])) }
    ensures sound_units { IfOk result (λ ran.
        IfRan ran.status (Same (failures_at units.old.counts) (failures_at units.new.counts))) }
    // The card of the statement at which it ended by an error or the limit.
    ensures card { IfOk result (λ ran.
        IfRan ran.status (ran.card ≡ card_told (first_cards deck.now) ran.status)) }
{
    let ran = run_deck(alloc, deck, units, bound)?;
    Ok(finished(ran, units.flush()))
}

/// Runs the module that bytes spell in the same way, or reports why it is refused.
pub fn run_module_on_files<S: UnitSystem>(
    alloc: Global,
    bytes: &[u8],
    units: &mut FileUnits<'_, S>,
    bound: u64,
) -> Result<Ran, LoadFault>
    ensures refused { IfErr result (λ fault. IsAnswer bytes.now (Err fault)) }
    ensures untouched { OnErr result (units.new ≡ units.old) }
    // Of a module that compile_deck wrote, in the words of its deck alone, and in bytes.
    ensures meaning { IfOk result (λ ran.
        (deck : List ℕ) → IsModuleOf deck bytes.now
        → WritesMeaning S.exposes deck bound ran.status units.old units.new) }
    // The run itself is that of run_with_card, and a unit that could not be written at its end is the only other stop.
    ensures run { IfOk result (λ ran.
        IsRunOnFiles S.exposes (IsModuleRun bytes.now bound any_may_fail) ran.status units.old units.new) }
    // Unless a unit or want of memory stopped the run, nothing is kept back, and no unit has failed.
    ensures handed_on { IfOk result (λ ran.
        IfRan ran.status ((unit : ℕ) → back_on unit units.new.given units.new.back ≡ [])) }
    ensures sound_units { IfOk result (λ ran.
        IfRan ran.status (Same (failures_at units.old.counts) (failures_at units.new.counts))) }
    // The card of the statement at which it ended by an error or the limit.
    ensures card { IfOk result (λ ran. (m : Image) × (read_image bytes.now ≡ Ok m)
        × IfRan ran.status (ran.card ≡ card_told m.cards ran.status)) }
{
    let ran = run_with_card(alloc, bytes, units, bound)?;
    Ok(finished(ran, units.flush()))
}
