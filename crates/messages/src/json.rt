//! Messages as objects of JSON.

use crate::message::Message;
use std::alloc::{AllocError, Global};

// Puts a character as it stands in a string of JSON.
fn put_char(line: &mut String, c: char) -> Result<(), AllocError> {
    match c {
        '"' => line.push_str("\\\""),
        '\\' => line.push_str("\\\\"),
        '\0'..='\x1f' => {
            let number = u32::from(c);
            write!(line, "\\u{number:04x}")
        }
        _ => line.push(c),
    }
}

fn put_string(line: &mut String, text: &str) -> Result<(), AllocError> {
    line.push('"')?;
    for c in text.chars() {
        put_char(line, c)?;
    }
    line.push('"')
}

// Puts a member whose value is a string, behind others.
fn put_text(line: &mut String, name: &str, text: &str) -> Result<(), AllocError> {
    write!(line, ",\"{name}\":")?;
    put_string(line, text)
}

// Puts a member whose value is a number, or null.
fn put_number(line: &mut String, name: &str, number: Option<i64>) -> Result<(), AllocError> {
    match number {
        Some(number) => write!(line, ",\"{name}\":{number}"),
        None => write!(line, ",\"{name}\":null"),
    }
}

fn counted(number: usize) -> Option<i64> {
    i64::try_from(number).ok()
}

/// The line of a message as an object of JSON.
pub(crate) fn json_line(alloc: Global, message: &Message) -> Result<String, AllocError> {
    let place = message.place;
    let (column, length) = match place.column {
        Some(column) => (counted(column.saturating_add(1)), counted(place.length)),
        None => (None, None),
    };
    let mut line = String::from_str(alloc, "{\"file\":")?;
    put_string(&mut line, message.file.as_str())?;
    put_number(&mut line, "card", place.card.map(i64::from))?;
    put_number(&mut line, "column", column)?;
    put_number(&mut line, "length", length)?;
    put_number(&mut line, "statement", message.statement)?;
    put_text(&mut line, "severity", message.severity.name())?;
    put_text(&mut line, "code", message.code.name)?;
    put_text(&mut line, "text", message.text.as_str())?;
    put_text(&mut line, "help", message.code.help)?;
    line.push_str("}\n")?;
    Ok(line)
}
