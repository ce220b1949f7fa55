//! Statements as cards give them, and the rules of cards.

use crate::seq::{Bytes, Seq};

/// A statement as cards give it, before it is cut into tokens.
#[derive(Drop)]
pub struct Statement {
    /// Its number among the deck's statements, from 1.
    pub number: u32,
    /// The number of the card that holds its first byte, from 1.
    pub card: u32,
    /// Its bytes, those of its continuation cards included.
    pub text: Bytes,
}

/// The statements of a deck in order, END's last.
#[derive(Drop)]
pub struct Deck {
    /// Numbered from 1 with no gap.
    pub statements: Seq<Statement>,
}

/// A rule of cards that a deck breaks.
#[derive(Clone, Copy, PartialEq, Eq)]
pub enum CardRule {
    /// A byte that is neither 32 to 126 nor a line feed.
    BadByte,
    /// A continuation card before any text.
    NothingToContinue,
    /// A control card that is none of the known ones.
    UnknownControl,
    /// No END statement.
    NoEnd,
    /// A deck that is too long.
    DeckTooLong,
    /// A statement that is too long.
    StatementTooLong,
    /// A growth of memory was refused.
    Memory,
}

/// A broken rule of cards, and the number of the card at which it is reported.
#[derive(Clone, Copy, PartialEq, Eq)]
pub struct CardFault {
    /// From 1; 0 for the deck as a whole, and one more than the cards for a missing END.
    pub card: u32,
    /// The rule that is broken there.
    pub rule: CardRule,
}
