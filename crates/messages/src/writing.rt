//! How messages are written.

use crate::json::json_line;
use crate::message::Message;
use crate::sources::Cards;
use std::alloc::{AllocError, Global};
use std::io::{self, Write};

/// How far a card stands from the margin.
const MARGIN: &str = "    ";

/// The least columns in which a card is shown.
const NARROWEST: usize = 20;

/// How messages are written.
#[derive(Clone, Copy, PartialEq, Eq)]
pub enum Form {
    /// A line each, with the card and a caret, in so many columns.
    Text(usize),
    /// A line each.
    Lines,
    /// An object of JSON each, on a line.
    Json,
    /// The lines of the program `sno`.
    Codes,
}

// The line of a message.
fn line_of(alloc: Global, message: &Message) -> Result<String, AllocError> {
    let place = message.place;
    let mut line = String::from_str(alloc, message.file.as_str())?;
    if let Some(card) = place.card {
        write!(line, ":{card}")?;
    }
    if let Some(column) = place.column {
        let column = column.saturating_add(1);
        write!(line, ":{column}")?;
    }
    let severity = message.severity.name();
    let code = message.code.name;
    write!(line, ": {severity} {code}")?;
    if let (Some(statement), None) = (message.statement, place.column) {
        write!(line, " in statement {statement}")?;
    }
    let text = message.text.as_str();
    write!(line, ": {text}\n")?;
    Ok(line)
}

// How many columns a byte of a card takes.
fn width_of(byte: u8) -> usize {
    if (32..=126).contains(&byte) { 1 } else { 4 }
}

// How many columns bytes of a card take.
fn width_of_all(bytes: &[u8]) -> usize {
    let mut width: usize = 0;
    for byte in bytes.iter().copied() {
        width = width.saturating_add(width_of(byte));
    }
    width
}

// Puts a byte of a card; one that isn't printable as its number.
fn put_byte(line: &mut String, byte: u8) -> Result<(), AllocError> {
    if (32..=126).contains(&byte) {
        line.push(char::from(byte))?;
        return Ok(());
    }
    write!(line, "\\x{byte:02x}")
}

// What is shown of a card that is wider than it may be: the bytes from the first one on with which the caret's stands
// within three quarters.
fn shown(card: &[u8], column: usize, room: usize) -> &[u8] {
    let most = room.saturating_sub(room.checked_div(4).unwrap_or(0));
    let mut first = column;
    let mut width: usize = 0;
    for byte in card.get(..column).unwrap_or(&[]).iter().rev().copied() {
        width = width.saturating_add(width_of(byte));
        if width >= most {
            break;
        }
        first = first.saturating_sub(1);
    }
    card.get(first..).unwrap_or(card)
}

// Puts as many bytes of a card as there is room for.
fn put_bytes(line: &mut String, bytes: &[u8], room: usize) -> Result<(), AllocError> {
    let mut left = room;
    for byte in bytes.iter().copied() {
        let Some(rest) = left.checked_sub(width_of(byte)) else {
            break;
        };
        put_byte(line, byte)?;
        left = rest;
    }
    Ok(())
}

// The card, and a caret under the column. Of a card that is too wide the part around the column is shown.
fn put_card(
    line: &mut String,
    card: &[u8],
    column: Option<usize>,
    columns: usize,
) -> Result<(), AllocError> {
    let room = columns.max(NARROWEST).saturating_sub(MARGIN.len());
    let at = column.unwrap_or(0).min(card.len());
    let part = if width_of_all(card) > room {
        shown(card, at, room)
    } else {
        card
    };
    line.push_str(MARGIN)?;
    put_bytes(line, part, room)?;
    line.push('\n')?;
    if column.is_some() {
        let left_out = card.len().saturating_sub(part.len());
        line.push_str(MARGIN)?;
        for _ in 0..width_of_all(card.get(left_out..at).unwrap_or(&[])) {
            line.push(' ')?;
        }
        line.push_str("^\n")?;
    }
    Ok(())
}

// The lines of a message with its card.
fn text_of(
    alloc: Global,
    message: &Message,
    cards: &Cards<'_>,
    columns: usize,
) -> Result<String, AllocError> {
    let mut text = line_of(alloc, message)?;
    if message.place.card.is_some() {
        let card = cards.card(message.place.whole_card);
        if !card.is_empty() {
            put_card(&mut text, card, message.place.column, columns)?;
        }
    }
    let help = message.code.help;
    write!(text, "{MARGIN}help: {help}\n")?;
    Ok(text)
}

/// Writes messages in a form; none as `sno` writes them.
pub fn write_messages<W: Write>(
    alloc: Global,
    form: Form,
    messages: &[Message],
    deck: &[u8],
    errors: &mut W,
) -> io::Result<()> {
    let cards = Cards::of(alloc, deck)?;
    for message in messages {
        let line = match form {
            Form::Lines => line_of(alloc, message)?,
            Form::Text(columns) => text_of(alloc, message, &cards, columns)?,
            Form::Json => json_line(alloc, message)?,
            Form::Codes => return Ok(()),
        };
        errors.write_all(line.as_bytes())?;
    }
    Ok(())
}
