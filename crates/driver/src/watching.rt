//! Runs of decks that are watched.

ghost use Rattle.std.specs.Prelude.{◌≡◌, ℕ, List, Err, Ok, IfErr, IfOk, OnErr};
ghost use Rattle.model.specs.declared.image.Image.{Image};
ghost use Rattle.model.specs.Deck.Cards.{first_cards};
ghost use Rattle.model.specs.Module.Reading.{read_image};
ghost use Rattle.loader.specs.Answers.{IsAnswer, no_memory};
ghost use Rattle.statement_machine.specs.Stopped.{stop_of_run};
ghost use Rattle.unit_io.specs.Service.{KeepsCounts};
ghost use Rattle.driver.specs.Cards.{card_told};
ghost use Rattle.driver.specs.Compiled.{IsModuleOf, IsRefusalOf};
ghost use Rattle.driver.specs.declared.refusal.Refusal.TheVariants.{Memory};
ghost use Rattle.driver.specs.Whole.{IsModuleRun, IsRunOf, RefinesMeaning};

use crate::compiling::compile_deck;
use crate::refusal::Refusal;
use crate::running::{Ran, card_told};
use loader::load;
use model::LoadFault;
use statement_machine::{WatchRun, watch_from_entry};
use std::alloc::Global;
use unit_io::Units;

/// What `run_with_card` does, watched.
pub(crate) fn watch_with_card<U: Units, W: WatchRun>(
    alloc: Global,
    bytes: &[u8],
    units: &mut U,
    bound: u64,
    watch: &mut W,
) -> Result<Ran, LoadFault>
    ensures refused { IfErr result (λ fault. IsAnswer bytes.now (Err fault)) }
    ensures untouched { OnErr result (units.new ≡ units.old) }
    ensures run { IfOk result (λ ran.
        IsModuleRun bytes.now bound (U.may_fail units.old) ran.status
        (U.told units.old) (U.told units.new)) }
    ensures counts { IfOk result (λ ran.
        KeepsCounts (stop_of_run ran.status) (U.failures units.old) (U.failures units.new)) }
    ensures meaning { IfOk result (λ ran.
        (deck : List ℕ) → IsModuleOf deck bytes.now
        → RefinesMeaning deck bound ran.status (U.told units.old) (U.told units.new)) }
    ensures card { IfOk result (λ ran.
        (m : Image) × (read_image bytes.now ≡ Ok m) × (ran.card ≡ card_told m.cards ran.status)) }
{
    let program = load(alloc, bytes)?;
    let status = watch_from_entry(alloc, &program, units, bound, watch);
    let card = card_told(&program, status);
    Ok(Ran { status, card })
}

// The loader takes each module that was compiled, unless it lacks memory.
fn lacking(fault: LoadFault) -> Refusal
    requires memory { fault ≡ no_memory }
    ensures { result ≡ Memory }
{
    let _ = fault;
    Refusal::Memory
}

/// What `run_deck` does, watched: the watch hears where statements begin and functions return, and when the run is over.
/// The run does what the deck means, whoever watches.
pub fn watch_deck<U: Units, W: WatchRun>(
    alloc: Global,
    deck: &[u8],
    units: &mut U,
    bound: u64,
    watch: &mut W,
) -> Result<Ran, Refusal>
    // A deck is refused by exactly its faults; want of memory says nothing of the deck.
    ensures refused { IfErr result (IsRefusalOf deck.now) }
    ensures untouched { OnErr result (units.new ≡ units.old) }
    // In the deck's own words: the deck has no fault, and the run does what it means.
    ensures meaning { IfOk result (λ ran.
        RefinesMeaning deck.now bound ran.status (U.told units.old) (U.told units.new)) }
    // The run is the machine's, on an image that does what the deck's statements mean.
    ensures run { IfOk result (λ ran.
        IsRunOf deck.now bound (U.may_fail units.old) ran.status
        (U.told units.old) (U.told units.new)) }
    // A run that nothing stopped met no failure of a unit. One stopped by a failed unit names it, and no other unit
    // failed; for want of memory, none failed.
    ensures counts { IfOk result (λ ran.
        KeepsCounts (stop_of_run ran.status) (U.failures units.old) (U.failures units.new)) }
    // The card of the statement at which the run ended by an error or the limit.
    ensures card { IfOk result (λ ran. ran.card ≡ card_told (first_cards deck.now) ran.status) }
{
    let module = compile_deck(alloc, deck)?;
    match watch_with_card(alloc, &module, units, bound, watch) {
        Ok(ran) => Ok(ran),
        Err(fault) => Err(lacking(fault)),
    }
}
