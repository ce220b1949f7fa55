//! The bytes of cards as they are joined to statements.

use memchr::memchr;

/// The columns that are read.
const COLUMNS: usize = 72;

/// The first line, without its line feed, and what follows it.
pub fn next_line(deck: &[u8]) -> Option<(&[u8], &[u8])> {
    if deck.is_empty() {
        return None;
    }
    match memchr(b'\n', deck) {
        Some(end) => Some((
            deck.get(..end)?,
            deck.get(end.saturating_add(1)..).unwrap_or(&[]),
        )),
        None => Some((deck, &[])),
    }
}

/// How a card goes on what stands before it.
#[derive(Clone, Copy, PartialEq, Eq)]
pub enum Joined {
    /// It adds nothing.
    Nothing,
    /// It begins a text.
    Text,
    /// It continues a text, from its second column on.
    Continuation,
}

/// The columns of a card that are read.
pub fn columns(line: &[u8]) -> &[u8] {
    line.get(..COLUMNS).unwrap_or(line)
}

fn is_blank(columns: &[u8]) -> bool {
    for byte in columns.iter().copied() {
        if byte != b' ' {
            return false;
        }
    }
    true
}

/// How a card with these columns goes on what stands before it.
pub fn joining(columns: &[u8]) -> Joined {
    if is_blank(columns) {
        return Joined::Nothing;
    }
    match columns {
        [] | [b'*' | b'-', ..] => Joined::Nothing,
        [b'+' | b'.', ..] => Joined::Continuation,
        _ => Joined::Text,
    }
}

/// A byte of a statement: the statement's number, and the byte's place in its text.
#[derive(Clone, Copy, PartialEq, Eq)]
pub struct Spot {
    pub number: u32,
    pub place: usize,
}

/// Where a walk over the bytes of cards has come to.
#[derive(Drop)]
pub struct Walk {
    quote: Option<u8>,
    number: u32,
    length: usize,
    is_blank: bool,
}

impl Walk {
    /// Before the first card.
    pub fn new() -> Walk {
        Walk {
            quote: None,
            number: 1,
            length: 0,
            is_blank: true,
        }
    }

    // Another piece begins; one that was blank is no statement.
    fn next_piece(&mut self) {
        if !self.is_blank {
            self.number = self.number.saturating_add(1);
        }
        self.length = 0;
        self.is_blank = true;
    }

    /// Another text begins.
    pub fn next_text(&mut self) {
        self.next_piece();
        self.quote = None;
    }

    /// Goes over one byte, and says where it stands unless it is a blank or parts two pieces.
    pub fn step(&mut self, byte: u8) -> Option<Spot> {
        if self.quote.is_none() && byte == b';' {
            self.next_piece();
            return None;
        }
        self.quote = match self.quote {
            None if byte == b'\'' || byte == b'"' => Some(byte),
            Some(quote) if quote == byte => None,
            quote => quote,
        };
        let place = self.length;
        self.length = place.saturating_add(1);
        if byte == b' ' {
            return None;
        }
        self.is_blank = false;
        Some(Spot {
            number: self.number,
            place,
        })
    }
}
