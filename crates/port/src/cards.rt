//! Cards of a deck that is written anew.

use crate::characters::{cut_at, cut_name, is_printable, is_same_word, without_blanks};
use std::alloc::{AllocError, Global};

/// How many columns of a card are read.
pub(crate) const COLUMNS: usize = 72;

/// Before this column no card is cut at a blank.
const MIDDLE: usize = 40;

/// Cards, and for each the card of the old deck from which it comes.
#[derive(Drop)]
pub(crate) struct Cards {
    pub(crate) bytes: Vec<u8>,
    pub(crate) origins: Vec<u32>,
}

// Where a text is cut that has more columns than these: at its last blank, unless that stands far before.
fn cut_place(text: &[u8], room: usize) -> usize {
    let mut place = room;
    for (at, byte) in text.iter().copied().enumerate().take(room) {
        if byte == b' ' && at >= MIDDLE {
            place = at;
        }
    }
    place
}

impl Cards {
    pub(crate) fn new(alloc: Global) -> Cards {
        Cards {
            bytes: Vec::new(alloc),
            origins: Vec::new(alloc),
        }
    }

    /// Puts a card.
    pub(crate) fn put(&mut self, card: &[u8], origin: u32) -> Result<(), AllocError> {
        self.bytes.extend_from_slice(card)?;
        self.bytes.push(b'\n')?;
        self.origins.push(origin)?;
        Ok(())
    }

    /// Puts a comment; whether all its bytes are as they were.
    pub(crate) fn put_comment(&mut self, text: &[u8], origin: u32) -> Result<bool, AllocError> {
        let mut is_same = true;
        self.bytes.push(b'*')?;
        for byte in text.iter().copied() {
            if is_printable(byte) {
                self.bytes.push(byte)?;
            } else {
                is_same = false;
                self.bytes.push(if byte == b'\t' { b' ' } else { b'?' })?;
            }
        }
        self.put(&[], origin)?;
        Ok(is_same)
    }

    /// Puts a text, or one that goes on with this mark, as one card or more; whether it is one.
    pub(crate) fn put_text(
        &mut self,
        text: &[u8],
        mark: Option<u8>,
        origin: u32,
    ) -> Result<bool, AllocError> {
        let mut rest = text;
        let mut mark = mark;
        let mut is_one = true;
        for _ in 0..text.len() {
            let room = match mark {
                Some(_) => COLUMNS.saturating_sub(1),
                None => COLUMNS,
            };
            if rest.len() <= room {
                break;
            }
            let (card, more) = cut_at(rest, cut_place(rest, room));
            if let Some(byte) = mark {
                self.bytes.push(byte)?;
            }
            self.put(card, origin)?;
            rest = more;
            mark = Some(b'+');
            is_one = false;
        }
        if let Some(byte) = mark {
            self.bytes.push(byte)?;
        }
        self.put(rest, origin)?;
        Ok(is_one)
    }
}

/// The file that a card takes in: that of a control card `-INCLUDE 'FILE'`, in letters of any case.
pub fn include_of(line: &[u8]) -> Option<&[u8]> {
    let [b'-', rest @ ..] = line else {
        return None;
    };
    let (name, rest) = cut_name(rest);
    if !is_same_word(name, b"INCLUDE") {
        return None;
    }
    match without_blanks(rest) {
        [quote @ (b'\'' | b'"'), more @ ..] => {
            let end = more.iter().position(|byte| byte == quote)?;
            more.get(..end)
        }
        _ => None,
    }
}
