//! The faults of a deck's statements, and where on its cards they are reported.

use crate::places::place;
use crate::walk::{Joined, Spot, Walk, columns, joining, next_line};
use model::{Cause, Deck, StmtFault};
use std::alloc::{AllocError, Global};

/// A faulty statement: the card under which it is reported, and the column of the token, from 0, where that is known.
#[derive(Clone, Copy)]
pub struct FaultPlace {
    /// The statement's number, from 1.
    pub number: u32,
    pub cause: Cause,
    /// From 1.
    pub card: u32,
    pub column: Option<usize>,
    /// Where in the statement's text the token stands, where that is known.
    pub place: Option<usize>,
}

// The note of a fault, reported under the card where the statement begins.
fn note_of(alloc: Global, deck: &Deck, fault: StmtFault) -> Result<FaultPlace, AllocError> {
    let index = fault.number.saturating_sub(1) as usize;
    let (card, place) = match deck.statements.as_slice().get(index) {
        Some(statement) => (
            statement.card,
            place(alloc, fault.cause, statement.text.as_slice())?,
        ),
        None => (0, None),
    };
    Ok(FaultPlace {
        number: fault.number,
        cause: fault.cause,
        card,
        column: None,
        place,
    })
}

// Looks whether a byte is where the next note's token begins; the index of the note that is looked for then.
fn see(notes: &mut [FaultPlace], next: usize, spot: Spot, card: u32, column: usize) -> usize {
    let next = match notes.get(next) {
        Some(note) if note.number < spot.number => next.saturating_add(1),
        _ => next,
    };
    if let Some(note) = notes.get_mut(next) {
        if note.number == spot.number && note.place == Some(spot.place) {
            note.card = card;
            note.column = Some(column);
        }
    }
    next
}

// Goes over a card.
fn see_card(
    walk: &mut Walk,
    notes: &mut [FaultPlace],
    next: usize,
    card: u32,
    line: &[u8],
) -> usize {
    let read = columns(line);
    let skipped = match joining(read) {
        Joined::Nothing => return next,
        Joined::Text => {
            walk.next_text();
            0
        }
        Joined::Continuation => 1,
    };
    let mut next = next;
    for (column, byte) in read.iter().copied().enumerate().skip(skipped) {
        if let Some(spot) = walk.step(byte) {
            next = see(notes, next, spot, card, column);
        }
    }
    next
}

/// Puts the columns of notes of the deck with these cards, and the cards on which their places are.
pub fn locate(bytes: &[u8], notes: &mut [FaultPlace]) {
    let mut walk = Walk::new();
    let mut rest = bytes;
    let mut next = 0;
    let mut card: u32 = 1;
    for _ in 0..bytes.len() {
        let Some((line, more)) = next_line(rest) else {
            break;
        };
        next = see_card(&mut walk, notes, next, card, line);
        card = card.saturating_add(1);
        rest = more;
    }
}

/// The notes of a deck's faults, in order, each on the card where its statement begins, and without a column.
pub fn notes_of(
    alloc: Global,
    deck: &Deck,
    faults: &[StmtFault],
) -> Result<Vec<FaultPlace>, AllocError> {
    let mut notes = Vec::new(alloc);
    for fault in faults.iter().copied() {
        notes.push(note_of(alloc, deck, fault)?)?;
    }
    Ok(notes)
}

/// The notes of a deck's faults, in order, each on the card and in the column of its token.
pub fn fault_notes(
    alloc: Global,
    bytes: &[u8],
    deck: &Deck,
    faults: &[StmtFault],
) -> Result<Vec<FaultPlace>, AllocError> {
    let mut notes = notes_of(alloc, deck, faults)?;
    locate(bytes, notes.as_mut_slice());
    Ok(notes)
}
