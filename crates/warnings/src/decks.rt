//! The warnings of a deck.

use crate::cards::of_cards;
use crate::statements::of_statements;
use crate::warning::{Warning, message_of};
use card_reader::read_deck;
use messages::{Message, Severity, Sources};
use model::StmtFault;
use std::alloc::{AllocError, Global};

// Puts the message of a warning.
fn put(
    alloc: Global,
    messages: &mut Vec<Message>,
    sources: &Sources<'_>,
    severity: Severity,
    warning: Warning<'_>,
) -> Result<(), AllocError> {
    let message = message_of(alloc, sources, severity, warning)?;
    messages.push(message)?;
    Ok(())
}

// Puts the warnings as messages, by their cards; the second ones follow the first of the same card.
fn put_merged(
    alloc: Global,
    messages: &mut Vec<Message>,
    sources: &Sources<'_>,
    severity: Severity,
    names: &[Warning<'_>],
    cards: &[Warning<'_>],
) -> Result<(), AllocError> {
    let mut cards = cards;
    for warning in names.iter().copied() {
        for _ in 0..cards.len() {
            match cards {
                [first, rest @ ..] if first.card < warning.card => {
                    put(alloc, messages, sources, severity, *first)?;
                    cards = rest;
                }
                _ => break,
            }
        }
        put(alloc, messages, sources, severity, warning)?;
    }
    for warning in cards.iter().copied() {
        put(alloc, messages, sources, severity, warning)?;
    }
    Ok(())
}

/// The warnings of a deck without a card fault, whose statements have these faults.
pub fn warnings_of(
    alloc: Global,
    sources: &Sources<'_>,
    severity: Severity,
    faults: &[StmtFault],
) -> Result<Vec<Message>, AllocError> {
    let Ok(deck) = read_deck(alloc, sources.bytes()) else {
        return Err(AllocError);
    };
    let statements = deck.statements.as_slice();
    let last = match statements.last() {
        Some(statement) => statement.number,
        None => 0,
    };
    let mut names = of_statements(alloc, statements, faults)?;
    let cards = of_cards(alloc, sources.bytes(), last, names.as_mut_slice())?;
    let mut messages = Vec::new(alloc);
    put_merged(alloc, &mut messages, sources, severity, &names, &cards)?;
    Ok(messages)
}
