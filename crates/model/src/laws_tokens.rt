//! Laws of tokens: functions that do nothing, each with a contract that says the law.

ghost use Rattle.model.specs.Rows.Cut.{CutRows};
ghost use Rattle.model.specs.Deck.Pieces.{EachTextHasOneCut};

/// Each text is cut into pieces in exactly one way.
pub fn each_text_has_one_cut()
    ensures { EachTextHasOneCut }
{}

/// The worked cases of texts.
pub fn worked_texts()
    ensures { CutRows }
{}
