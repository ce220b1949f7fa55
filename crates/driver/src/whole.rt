//! From a deck to what it prints.

ghost use Rattle.std.specs.Prelude.{◌≡◌, IfErr, IfOk, OnErr};
ghost use Rattle.model.specs.Deck.Cards.{first_cards};
ghost use Rattle.statement_machine.specs.Stopped.{stop_of_run};
ghost use Rattle.unit_io.specs.Service.{KeepsCounts};
ghost use Rattle.driver.specs.Cards.{card_told};
ghost use Rattle.driver.specs.Compiled.{IsRefusalOf};
ghost use Rattle.driver.specs.Whole.{IsRunOf, RefinesMeaning};

use crate::refusal::Refusal;
use crate::running::Ran;
use crate::watching::watch_deck;
use statement_machine::Unwatched;
use std::alloc::Global;
use unit_io::Units;

/// Compiles a deck and runs its module, at most so many steps, or reports why the deck is refused.
pub fn run_deck<U: Units>(
    alloc: Global,
    deck: &[u8],
    units: &mut U,
    bound: u64,
) -> Result<Ran, Refusal>
    // A deck is refused by exactly its faults; want of memory says nothing of the deck.
    ensures refused { IfErr result (IsRefusalOf deck.now) }
    ensures untouched { OnErr result (units.new ≡ units.old) }
    // In the deck's own words: the deck has no fault, and the run does what it means.
    ensures meaning { IfOk result (λ ran.
        RefinesMeaning deck.now bound ran.status (U.told units.old) (U.told units.new)) }
    // The run is the machine's, on an image that does what the deck's statements mean.
    ensures run { IfOk result (λ ran.
        IsRunOf deck.now bound (U.may_fail units.old) ran.status
        (U.told units.old) (U.told units.new)) }
    // A run that nothing stopped met no failure of a unit. One stopped by a failed unit names it, and no other unit
    // failed; for want of memory, none failed.
    ensures counts { IfOk result (λ ran.
        KeepsCounts (stop_of_run ran.status) (U.failures units.old) (U.failures units.new)) }
    // The card of the statement at which the run ended by an error or the limit.
    ensures card { IfOk result (λ ran. ran.card ≡ card_told (first_cards deck.now) ran.status) }
{
    watch_deck(alloc, deck, units, bound, &mut Unwatched)
}
