//! Decks that are written anew.

use crate::cards::{COLUMNS, Cards, include_of};
use crate::characters::{begins_with_word, cut_name, is_printable, without_blanks};
use crate::notes::{Change, PortNote};
use crate::texts::Text;
use card_text::next_line;
use std::alloc::{AllocError, Global};

/// A deck that was written anew: its bytes, of each of its cards the old deck's card from which it comes (0 where it comes
/// from none), what was changed, and the words that give units the files which the old deck names.
#[derive(Drop)]
pub struct Ported {
    pub deck: Vec<u8>,
    pub origins: Vec<u32>,
    pub notes: Vec<PortNote>,
    pub files: Vec<u8>,
}

/// What is written anew so far.
#[derive(Drop)]
struct Porter {
    alloc: Global,
    cards: Cards,
    text: Text,
    entry: Vec<u8>,
    is_over: bool,
}

fn is_blank(line: &[u8]) -> bool {
    without_blanks(line).is_empty()
}

// A line without blanks at its end.
fn trimmed(line: &[u8]) -> &[u8] {
    let mut end: usize = 0;
    for (at, byte) in line.iter().copied().enumerate() {
        if byte != b' ' && byte != b'\t' {
            end = at.saturating_add(1);
        }
    }
    line.get(..end).unwrap_or(line)
}

// Whether a control card is one of this language.
fn is_known(name: &[u8], behind: &[u8]) -> bool {
    let is_whole = matches!(behind.first(), None | Some(b' '));
    is_whole && matches!(name, b"LIST" | b"UNLIST" | b"EJECT")
}

impl Porter {
    fn comment(&mut self, text: &[u8], was_one: bool) -> Result<(), AllocError> {
        let is_same = self.cards.put_comment(text, self.text.notes.card())?;
        if !(was_one && is_same) {
            self.text.notes.put(Change::Comments)?;
        }
        Ok(())
    }

    fn control(&mut self, line: &[u8], text: &[u8]) -> Result<(), AllocError> {
        let (name, behind) = cut_name(text);
        if is_known(name, behind) || include_of(line).is_some() {
            return self.cards.put(line, self.text.notes.card());
        }
        if begins_with_word(text, b"CASE") {
            self.text
                .fold(without_blanks(behind).first() != Some(&b'0'));
        }
        self.text.notes.put(Change::Controls)?;
        self.cards.put_comment(line, self.text.notes.card())?;
        Ok(())
    }

    // Puts a card of a text.
    fn put_text(&mut self, text: &[u8], mark: Option<u8>) -> Result<(), AllocError> {
        let comment = self.text.put_card(text)?;
        let written = self.text.take();
        let card = self.text.notes.card();
        let shown = if written.len() <= COLUMNS || self.text.is_open() {
            written.as_slice()
        } else {
            trimmed(&written)
        };
        if !self.cards.put_text(shown, mark, card)? {
            self.text.notes.put(Change::LongCards)?;
        }
        match comment {
            Some(comment) => self.comment(comment, false),
            None => Ok(()),
        }
    }

    // Puts the card with END. The entry label is that of a goto where functions stand before the deck.
    fn put_end(&mut self, line: &[u8]) -> Result<(), AllocError> {
        self.is_over = true;
        let (_, behind) = cut_name(line);
        self.text.begin();
        let _ = self.text.put_card(without_blanks(behind))?;
        let entry = self.text.take();
        let (name, _) = cut_name(&entry);
        self.entry.extend_from_slice(name)?;
        let is_headed = !self.text.library.cards(self.alloc)?.is_empty();
        let is_same = line.iter().all(|byte| is_printable(*byte)) && line.starts_with(b"END");
        if is_same && !is_headed {
            self.cards.put(line, self.text.notes.card())
        } else if is_headed || name.is_empty() {
            self.cards.put(b"END", self.text.notes.card())
        } else {
            self.cards.bytes.extend_from_slice(b"END ")?;
            self.cards.put(name, self.text.notes.card())
        }
    }

    // Puts a card of blanks and tabs.
    fn put_blank(&mut self, line: &[u8]) -> Result<(), AllocError> {
        let shown = if line.iter().all(|byte| *byte == b' ') {
            line
        } else {
            &[]
        };
        self.cards.put(shown, self.text.notes.card())
    }

    fn put_line(&mut self, line: &[u8]) -> Result<(), AllocError> {
        match line {
            [b'*', text @ ..] => self.comment(text, true),
            [b'#' | b'|' | b'!', text @ ..] => self.comment(text, false),
            [b'-', text @ ..] => self.control(line, text),
            [mark @ (b'+' | b'.'), text @ ..] => self.put_text(text, Some(*mark)),
            _ if is_blank(line) => self.put_blank(line),
            _ => {
                let (name, behind) = cut_name(line);
                if self.text.is_word(name, b"END")
                    && matches!(behind.first(), None | Some(b' ' | b'\t'))
                {
                    return self.put_end(line);
                }
                self.text.begin();
                self.put_text(line, None)
            }
        }
    }

    // Puts a card of the old deck.
    fn put(&mut self, card: u32, line: &[u8]) -> Result<(), AllocError> {
        self.text.notes.at(card);
        if self.is_over {
            return self.cards.put(line, card);
        }
        match line {
            [before @ .., b'\r'] => {
                self.text.notes.put(Change::Returns)?;
                self.put_line(before)
            }
            line => self.put_line(line),
        }
    }

    fn finish(self) -> Result<Ported, AllocError> {
        let Porter {
            alloc,
            cards,
            mut text,
            entry,
            is_over: _,
        } = self;
        let mut deck = text.library.cards(alloc)?;
        if !deck.is_empty() {
            text.notes.at(0);
            text.notes.put(Change::Functions)?;
            if !entry.is_empty() {
                deck.extend_from_slice(b" :(")?;
                deck.extend_from_slice(&entry)?;
                deck.extend_from_slice(b")\n")?;
            }
        }
        let mut origins = Vec::new(alloc);
        for byte in deck.iter().copied() {
            if byte == b'\n' {
                origins.push(0)?;
            }
        }
        deck.extend_from_slice(&cards.bytes)?;
        origins.extend_from_slice(&cards.origins)?;
        Ok(Ported {
            deck,
            origins,
            notes: text.notes.into_notes(),
            files: text.files,
        })
    }
}

// Whether a deck's END is in small letters.
fn is_small(deck: &[u8]) -> bool {
    let mut rest = deck;
    let mut is_small = false;
    for _ in 0..deck.len() {
        let Some((line, more)) = next_line(rest) else {
            break;
        };
        if begins_with_word(line, b"END") {
            let (name, _) = cut_name(line);
            if name == b"END".as_slice() {
                return false;
            }
            is_small = true;
        }
        rest = more;
    }
    is_small
}

/// Writes a deck of another SNOBOL4 as a deck of this language, as far as that can be done card by card. Small letters of
/// names are raised where that is asked for, by a control card `-CASE`, and where END is in small letters.
pub fn port(alloc: Global, deck: &[u8], folds: bool) -> Result<Ported, AllocError> {
    let mut porter = Porter {
        alloc,
        cards: Cards::new(alloc),
        text: Text::new(alloc, folds || is_small(deck)),
        entry: Vec::new(alloc),
        is_over: false,
    };
    let mut rest = deck;
    let mut card: u32 = 1;
    for _ in 0..deck.len() {
        let Some((line, more)) = next_line(rest) else {
            break;
        };
        porter.put(card, line)?;
        card = card.saturating_add(1);
        rest = more;
    }
    porter.finish()
}
