//! Laws of the module format: an image has one spelling, and bytes spell at most one image.

ghost use Rattle.model.specs.Laws.OneSpelling.{ReadIsSpelt, SpeltIsRead};
ghost use Rattle.model.specs.Rows.Spelling.{SpellingRows};

/// Bytes that are read as an image are its spelling, and the image has one.
pub fn read_is_spelt()
    ensures { ReadIsSpelt }
{}

/// The spelling of an image is read as that image.
pub fn spelt_is_read()
    ensures { SpeltIsRead }
{}

/// The module of ` OUTPUT = 'HI'` and `END`, whole and damaged.
pub fn spelling_rows()
    ensures { SpellingRows }
{}
