//! Messages.

use codes::Code;

/// How bad it is.
#[derive(Clone, Copy, PartialEq, Eq)]
pub enum Severity {
    Error,
    Warning,
    /// Something was done that is no fault.
    Note,
}

impl Severity {
    /// Its name in messages.
    pub fn name(self) -> &'static str {
        match self {
            Severity::Error => "error",
            Severity::Warning => "warning",
            Severity::Note => "note",
        }
    }
}

/// Where something is wrong on a card.
#[derive(Clone, Copy)]
pub struct CardPlace {
    /// The card's number in its file, from 1.
    pub card: Option<u32>,
    /// From 0.
    pub column: Option<usize>,
    /// How many columns.
    pub length: usize,
    /// The card's number in the decks as a whole; 0 where there is no card.
    pub whole_card: u32,
}

impl CardPlace {
    /// A file as a whole.
    pub fn whole() -> CardPlace {
        CardPlace {
            card: None,
            column: None,
            length: 0,
            whole_card: 0,
        }
    }

    /// The same card with a column, if there is one, and how many.
    pub fn at(self, column: Option<usize>, length: usize) -> CardPlace {
        CardPlace {
            card: self.card,
            column,
            length,
            whole_card: self.whole_card,
        }
    }
}

/// What is reported of a file, a card, a statement or a run.
#[derive(Drop)]
pub struct Message {
    pub file: String,
    pub place: CardPlace,
    pub statement: Option<i64>,
    pub severity: Severity,
    pub code: Code,
    pub text: String,
}

impl Message {
    /// An error that no statement has.
    pub fn new(file: String, place: CardPlace, code: Code, text: String) -> Message {
        Message {
            file,
            place,
            statement: None,
            severity: Severity::Error,
            code,
            text,
        }
    }

    /// An error that a statement has.
    pub fn of_statement(
        file: String,
        place: CardPlace,
        statement: i64,
        code: Code,
        text: String,
    ) -> Message {
        Message {
            file,
            place,
            statement: Some(statement),
            severity: Severity::Error,
            code,
            text,
        }
    }
}
