//! Laws of cards: functions that do nothing, each with a contract that says the law.

ghost use Rattle.model.specs.Rows.Cards.{CardRows};

/// The worked cases of cards.
pub fn worked_decks()
    ensures { CardRows }
{}
