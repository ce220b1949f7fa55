//! The statements of decks, by their numbers.

use card_reader::read_deck;
use messages::Sources;
use model::{Deck, Statement};
use std::alloc::{AllocError, Global};

/// The statements of decks that are read as one.
#[derive(Drop)]
pub struct Statements<'a> {
    sources: &'a Sources<'a>,
    deck: Option<Deck>,
}

impl<'a> Statements<'a> {
    /// The statements of decks; none of decks that are refused.
    pub fn of(alloc: Global, sources: &'a Sources<'a>) -> Statements<'a> {
        Statements {
            sources,
            deck: read_deck(alloc, sources.bytes()).ok(),
        }
    }

    fn statement(&self, number: u32) -> Option<&Statement> {
        let index = (number as usize).checked_sub(1)?;
        match &self.deck {
            Some(deck) => deck.statements.as_slice().get(index),
            None => None,
        }
    }

    // The text of a statement, without the blanks around it.
    fn text(&self, number: u32) -> &[u8] {
        match self.statement(number) {
            Some(statement) => statement.text.as_slice().trim_ascii(),
            None => &[],
        }
    }

    // The file in which a statement begins, and the number of the card.
    fn place(&self, number: u32) -> (&'a str, u32) {
        match self.statement(number) {
            Some(statement) => self.sources.named(statement.card),
            None => self.sources.named(0),
        }
    }

    /// Puts where a statement begins, and its number.
    pub(crate) fn put_place(&self, line: &mut String, number: u32) -> Result<(), AllocError> {
        let (file, card) = self.place(number);
        write!(line, "{file}:{card}: statement {number}")
    }

    /// Puts a statement's text, and ends the line.
    pub(crate) fn put_text(&self, line: &mut String, number: u32) -> Result<(), AllocError> {
        line.push_str(": ")?;
        for byte in self.text(number).iter().copied() {
            line.push(char::from(byte))?;
        }
        line.push('\n')?;
        Ok(())
    }
}
