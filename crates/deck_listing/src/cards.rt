//! The cards of a deck with what is reported of them.

use crate::code::{Reached, statement};
use crate::lines::{Style, caret, loud, sentence, text};
use card_text::{FaultPlace, next_line};
use codes::{card_code, cause_code};
use model::{CardFault, Image, Statement};
use std::io::{self, Write};

/// How far sentences about a card stand from the margin.
const INDENT: usize = 16;

/// What is known of a deck.
#[derive(Clone, Copy)]
pub(crate) struct Known<'a> {
    pub(crate) statements: &'a [Statement],
    pub(crate) notes: &'a [FaultPlace],
    pub(crate) fault: Option<CardFault>,
    pub(crate) image: Option<&'a Image>,
}

// How many of the statements begin at a card, which are the first of these.
fn begin_at(statements: &[Statement], card: u32) -> usize {
    let mut count: usize = 0;
    for statement in statements {
        if statement.card != card {
            break;
        }
        count = count.saturating_add(1);
    }
    count
}

// How many of the notes are of a card, which are the first of these.
fn noted_at(notes: &[FaultPlace], card: u32) -> usize {
    let mut count: usize = 0;
    for note in notes {
        if note.card != card {
            break;
        }
        count = count.saturating_add(1);
    }
    count
}

// The numbers before a card: its own, and those of the statements that begin there.
fn numbers<W: Write>(card: u32, here: &[Statement], out: &mut W) -> io::Result<()> {
    match here {
        [] => write!(out, "{card:>6}          "),
        [only] => write!(out, "{card:>6} {:>7}  ", only.number),
        [first, .., last] => write!(out, "{card:>6} {:>3}-{:<3}  ", first.number, last.number),
    }
}

// The fault of the cards, where it is reported at this card.
fn card_fault<W: Write>(
    style: Style,
    fault: Option<CardFault>,
    card: u32,
    out: &mut W,
) -> io::Result<()> {
    let Some(fault) = fault else {
        return Ok(());
    };
    if fault.card != card {
        return Ok(());
    }
    loud(style, true, out)?;
    let code = card_code(fault.rule);
    writeln!(out, "{:>16}card {card} {}", "", code.name)?;
    loud(style, false, out)?;
    sentence(style, INDENT, code.help, out)
}

fn write_note<W: Write>(style: Style, note: FaultPlace, out: &mut W) -> io::Result<()> {
    loud(style, true, out)?;
    if let Some(column) = note.column {
        caret(style, column, out)?;
    }
    let code = cause_code(note.cause);
    writeln!(out, "{:>16}statement {} {}", "", note.number, code.name)?;
    loud(style, false, out)?;
    sentence(style, INDENT, code.help, out)
}

// Writes the notes of a card, which are the first of these, and gives the others.
fn notes_of<'a, W: Write>(
    style: Style,
    notes: &'a [FaultPlace],
    card: u32,
    out: &mut W,
) -> io::Result<&'a [FaultPlace]> {
    let count = noted_at(notes, card);
    for here in notes.get(..count).unwrap_or(&[]) {
        write_note(style, *here, out)?;
    }
    Ok(notes.get(count..).unwrap_or(&[]))
}

// Writes the instructions of some statements.
fn code_of<W: Write>(
    image: Option<&Image>,
    here: &[Statement],
    reached: Reached,
    out: &mut W,
) -> io::Result<Reached> {
    let Some(image) = image else {
        return Ok(reached);
    };
    let mut reached = reached;
    for one in here {
        reached = statement(image, one.number, reached, out)?;
    }
    Ok(reached)
}

/// Writes the cards of a deck, each with what is reported of it, and returns how many there are.
pub(crate) fn cards<W: Write>(
    style: Style,
    bytes: &[u8],
    known: Known<'_>,
    out: &mut W,
) -> io::Result<u32> {
    let mut statements = known.statements;
    let mut notes = known.notes;
    let mut reached = Reached::start();
    let mut rest = bytes;
    let mut card: u32 = 1;
    card_fault(style, known.fault, 0, out)?;
    for _ in 0..bytes.len() {
        let Some((line, more)) = next_line(rest) else {
            break;
        };
        let count = begin_at(statements, card);
        let here = statements.get(..count).unwrap_or(&[]);
        numbers(card, here, out)?;
        text(style, line, out)?;
        card_fault(style, known.fault, card, out)?;
        notes = notes_of(style, notes, card, out)?;
        reached = code_of(known.image, here, reached, out)?;
        statements = statements.get(count..).unwrap_or(&[]);
        card = card.saturating_add(1);
        rest = more;
    }
    card_fault(style, known.fault, card, out)?;
    Ok(card.saturating_sub(1))
}
