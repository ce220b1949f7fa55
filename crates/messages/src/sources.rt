//! Decks that are read as one, and where their cards are.

use crate::message::CardPlace;
use memchr::memchr_iter;
use std::alloc::{AllocError, Global};

/// A deck among others: its name, and how many cards stand before it.
#[derive(Clone, Copy)]
struct Part<'a> {
    name: &'a str,
    before: u32,
}

/// The bytes of decks, one behind another.
#[derive(Drop)]
pub struct Sources<'a> {
    bytes: Vec<u8>,
    cards: u32,
    parts: Vec<Part<'a>>,
    /// Of each card the one that is named in its place; empty where each is named itself.
    origins: Vec<u32>,
}

// How many line feeds some bytes have.
fn line_feeds(bytes: &[u8]) -> u32 {
    let mut count: u32 = 0;
    for _ in memchr_iter(b'\n', bytes) {
        count = count.saturating_add(1);
    }
    count
}

impl<'a> Sources<'a> {
    /// No deck.
    pub fn new(alloc: Global) -> Sources<'a> {
        Sources {
            bytes: Vec::new(alloc),
            cards: 0,
            parts: Vec::new(alloc),
            origins: Vec::new(alloc),
        }
    }

    /// One more deck behind the others, whose last card ends now.
    pub fn add(&mut self, name: &'a str, bytes: &[u8]) -> Result<(), AllocError> {
        if self.bytes.last().is_some_and(|byte| *byte != b'\n') {
            self.bytes.push(b'\n')?;
            self.cards = self.cards.saturating_add(1);
        }
        self.parts.push(Part {
            name,
            before: self.cards,
        })?;
        self.cards = self.cards.saturating_add(line_feeds(bytes));
        self.bytes.extend_from_slice(bytes)?;
        Ok(())
    }

    /// Puts a deck that was written anew in the place of what they are, with the card from which each of its cards comes.
    pub fn write_anew(&mut self, bytes: Vec<u8>, origins: Vec<u32>) {
        self.bytes = bytes;
        self.origins = origins;
    }

    /// The card that is named in the place of another one: the one from which it comes, if they were written anew.
    pub fn origin(&self, card: u32) -> u32 {
        let Some(index) = (card as usize).checked_sub(1) else {
            return card;
        };
        match self.origins.get(index) {
            Some(origin) => *origin,
            None => card,
        }
    }

    /// The deck that they are.
    pub fn bytes(&self) -> &[u8] {
        self.bytes.as_slice()
    }

    /// The last deck's name.
    pub fn last_name(&self) -> &'a str {
        match self.parts.last() {
            Some(part) => part.name,
            None => "",
        }
    }

    /// The deck in which a card stood before the decks were written anew, if they were, and its number there.
    pub fn named(&self, card: u32) -> (&'a str, u32) {
        self.place(self.origin(card))
    }

    /// The deck in which a card stands, and its number there.
    fn place(&self, card: u32) -> (&'a str, u32) {
        let mut found = (self.last_name(), card);
        for part in self.parts.iter().copied() {
            if part.before < card {
                found = (part.name, card.saturating_sub(part.before));
            }
        }
        found
    }
}

impl Sources<'_> {
    /// The file in which a card of the decks stood before they were written anew, and its place there.
    pub fn old_place(&self, alloc: Global, card: u32) -> Result<(String, CardPlace), AllocError> {
        let (file, number) = self.place(card);
        let place = CardPlace {
            card: (card > 0).then_some(number),
            column: None,
            length: 0,
            whole_card: 0,
        };
        Ok((String::from_str(alloc, file)?, place))
    }

    /// The file in which a card stands, and its place there; of card 0 the last deck as a whole.
    pub fn message_place(
        &self,
        alloc: Global,
        card: u32,
    ) -> Result<(String, CardPlace), AllocError> {
        let origin = self.origin(card);
        let (file, number) = self.place(origin);
        let place = CardPlace {
            card: (origin > 0).then_some(number),
            column: None,
            length: 0,
            whole_card: card,
        };
        Ok((String::from_str(alloc, file)?, place))
    }
}

/// Where the cards of a deck begin.
#[derive(Drop)]
pub struct Cards<'a> {
    bytes: &'a [u8],
    ends: Vec<usize>,
}

impl<'a> Cards<'a> {
    /// The cards of a deck.
    pub fn of(alloc: Global, bytes: &'a [u8]) -> Result<Cards<'a>, AllocError> {
        let mut ends = Vec::new(alloc);
        for end in memchr_iter(b'\n', bytes) {
            ends.push(end)?;
        }
        Ok(Cards { bytes, ends })
    }

    /// A card by its number, from 1; nothing where there is none.
    pub fn card(&self, number: u32) -> &'a [u8] {
        let Some(index) = (number as usize).checked_sub(1) else {
            return &[];
        };
        let start = match index.checked_sub(1) {
            None => 0,
            Some(before) => match self.ends.get(before) {
                Some(end) => end.saturating_add(1),
                None => return &[],
            },
        };
        let end = match self.ends.get(index) {
            Some(end) => *end,
            None => self.bytes.len(),
        };
        self.bytes.get(start..end).unwrap_or(&[])
    }
}
