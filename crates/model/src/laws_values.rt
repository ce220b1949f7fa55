//! The laws of values. Each function does nothing; its contract states a law, and who calls it may use the law.

ghost use Rattle.model.specs.Laws.Values.{ReadsIntegers, RefusesOtherTexts, FitsInRange, FaultsBeyond};

/// The text of an integer of 64 bits is read as that integer, and no other text is.
pub fn integers_read()
    ensures read { ReadsIntegers }
    ensures refused { RefusesOtherTexts }
{}

/// An integer in range is one of 64 bits.
pub fn integers_fit()
    ensures fit { FitsInRange }
    ensures beyond { FaultsBeyond }
{}
