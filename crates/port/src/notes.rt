//! What is changed in a deck.

use std::alloc::{AllocError, Global};

/// A change.
#[derive(Clone, Copy, PartialEq, Eq)]
pub enum Change {
    /// Carriage returns are dropped.
    Returns,
    /// Tabs are blanks.
    Tabs,
    /// A comment has `*` in column 1 and a card of its own.
    Comments,
    /// A control card is a comment.
    Controls,
    /// What stands in columns past 72 is continued.
    LongCards,
    /// `[` and `]` are `<` and `>`.
    Brackets,
    /// Operators and keywords are those of this language.
    Operators,
    /// Small letters of names are capital ones.
    Letters,
    /// Bytes that no card has are written by CHAR.
    Bytes,
    /// Blanks in a prototype are dropped.
    Prototypes,
    /// INPUT and OUTPUT don't name the file of a unit.
    Files,
    /// Functions that aren't primitive here stand before the deck.
    Functions,
}

impl Change {
    /// What was done, in a few words.
    pub fn text(self) -> &'static str {
        match self {
            Change::Returns => "carriage returns are dropped",
            Change::Tabs => "tabs are blanks",
            Change::Comments => "comments have * in column 1, on cards of their own",
            Change::Controls => "control cards that aren't known are comments",
            Change::LongCards => "cards of more than 72 columns are continued",
            Change::Brackets => "[ and ] are < and >",
            Change::Operators => "operators and keywords are those of this language",
            Change::Letters => "small letters of names are capital ones",
            Change::Bytes => "bytes that no card has are written as CHAR(N)",
            Change::Prototypes => "blanks in prototypes are dropped",
            Change::Files => "INPUT and OUTPUT name no file; give it for the unit as UNIT=FILE",
            Change::Functions => "functions of the library stand before the deck",
        }
    }
}

/// A change, and the first card of the old deck where it was made, from 1; 0 where it is of the deck as a whole.
#[derive(Clone, Copy)]
pub struct PortNote {
    pub change: Change,
    pub card: u32,
}

/// The changes that were made, each once.
#[derive(Drop)]
pub(crate) struct Notes {
    card: u32,
    notes: Vec<PortNote>,
}

impl Notes {
    pub(crate) fn new(alloc: Global) -> Notes {
        Notes {
            card: 0,
            notes: Vec::new(alloc),
        }
    }

    /// Goes on at this card.
    pub(crate) fn at(&mut self, card: u32) {
        self.card = card;
    }

    /// The card where it is.
    pub(crate) fn card(&self) -> u32 {
        self.card
    }

    /// Notes a change, unless it was noted before.
    pub(crate) fn put(&mut self, change: Change) -> Result<(), AllocError> {
        if self.notes.iter().any(|note| note.change == change) {
            return Ok(());
        }
        self.notes.push(PortNote {
            change,
            card: self.card,
        })?;
        Ok(())
    }

    pub(crate) fn into_notes(self) -> Vec<PortNote> {
        self.notes
    }
}
