//! What is to be warned of on cards.

use crate::warning::Warning;
use card_text::{Joined, Spot, Walk, columns, joining, next_line};
use codes::Topic;
use std::alloc::{AllocError, Global};

/// How many columns of a card are read.
const COLUMNS: usize = 72;

/// Where a walk over the cards has come to: the warning that is looked for, and the card that ends the deck.
#[derive(Clone, Copy)]
struct Reached {
    next: usize,
    end: Option<u32>,
}

// Puts the card and column of the warnings that stand at a spot, from the next one on; which is the next one then.
fn put_place(
    warnings: &mut [Warning<'_>],
    next: usize,
    spot: Spot,
    card: u32,
    column: usize,
) -> usize {
    let mut next = next;
    let Some(rest) = warnings.get_mut(next..) else {
        return next;
    };
    for warning in rest {
        if warning.number != spot.number || warning.place != spot.place {
            break;
        }
        warning.card = card;
        warning.column = column;
        next = next.saturating_add(1);
    }
    next
}

// Goes over the bytes of a card, which are at most 72.
fn see_card(
    walk: &mut Walk,
    warnings: &mut [Warning<'_>],
    reached: Reached,
    last: u32,
    card: u32,
    line: &[u8],
) -> Reached {
    let read = columns(line);
    let skipped = match joining(read) {
        Joined::Nothing => return reached,
        Joined::Text => {
            walk.next_text();
            0
        }
        Joined::Continuation => 1,
    };
    let mut reached = reached;
    for (column, byte) in read.iter().copied().enumerate().skip(skipped) {
        let Some(spot) = walk.step(byte) else {
            continue;
        };
        reached.next = put_place(warnings, reached.next, spot, card, column);
        // The third byte of END.
        if spot.number == last && spot.place == 2 {
            reached.end = Some(card);
        }
    }
    reached
}

fn is_blank(bytes: &[u8]) -> bool {
    bytes.iter().all(|byte| *byte == b' ' || *byte == b'\r')
}

// The warning of a card's columns behind those that are read.
fn of_card<'a>(card: u32, line: &[u8]) -> Option<Warning<'a>> {
    let rest = line.get(COLUMNS..)?;
    let is_read = !matches!(line.first(), Some(b'*' | b'-'));
    (is_read && !is_blank(rest)).then_some(Warning::of_columns(
        Topic::Columns,
        card,
        COLUMNS,
        rest.len(),
    ))
}

// The warning of a card behind the one that ends the deck.
fn of_behind<'a>(card: u32, line: &[u8]) -> Option<Warning<'a>> {
    (!is_blank(line)).then_some(Warning::of_columns(Topic::BehindEnd, card, 0, line.len()))
}

/// Finds the cards of the warnings, and puts those of cards.
pub(crate) fn of_cards<'a>(
    alloc: Global,
    bytes: &[u8],
    last: u32,
    warnings: &mut [Warning<'a>],
) -> Result<Vec<Warning<'a>>, AllocError> {
    let mut walk = Walk::new();
    let mut reached = Reached { next: 0, end: None };
    let mut found = Vec::new(alloc);
    let mut rest = bytes;
    let mut card: u32 = 1;
    for _ in 0..bytes.len() {
        let Some((line, more)) = next_line(rest) else {
            break;
        };
        if reached.end.is_some() {
            if let Some(warning) = of_behind(card, line) {
                found.push(warning)?;
                break;
            }
        } else {
            reached = see_card(&mut walk, warnings, reached, last, card, line);
            if let Some(warning) = of_card(card, line) {
                found.push(warning)?;
            }
        }
        card = card.saturating_add(1);
        rest = more;
    }
    Ok(found)
}
