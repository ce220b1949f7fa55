//! Laws of accepted decks: functions that do nothing, each with a contract that says the law.

ghost use Rattle.model.specs.Laws.Decks.{AcceptedDecksFit, DecksFit, EndIsLast, FirstCardsFit, TreesFit};

/// END is the last statement of each accepted deck, and no other is.
pub fn end_is_last()
    ensures { EndIsLast }
{}

/// A deck without faults of cards has at most 16,777,216 bytes, no more statements than bytes, and
/// none of more than 4,000 bytes.
pub fn decks_fit()
    ensures { DecksFit }
{}

/// A text is at least as long as its tree is heavy.
pub fn trees_fit()
    ensures { TreesFit }
{}

/// The trees of an accepted deck are no more than its bytes, and together no heavier.
pub fn accepted_decks_fit()
    ensures { AcceptedDecksFit }
{}

/// The cards where the statements of an accepted deck begin are those that a module has: one for each statement, from 1
/// on, and never falling.
pub fn first_cards_fit()
    ensures { FirstCardsFit }
{}
