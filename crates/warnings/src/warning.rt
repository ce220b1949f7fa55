//! A warning.

use codes::{Topic, topic_code};
use messages::{Message, Severity, Sources};
use std::alloc::{AllocError, Global};

/// A warning of a statement's piece, or of a card's columns, and where it stands.
#[derive(Clone, Copy)]
pub(crate) struct Warning<'a> {
    topic: Topic,
    name: &'a [u8],
    other: &'a [u8],
    /// The statement's number; 0 where it is of a card.
    pub(crate) number: u32,
    /// Where in the statement's text it stands.
    pub(crate) place: usize,
    /// From 1; 0 where it isn't known yet.
    pub(crate) card: u32,
    /// From 0.
    pub(crate) column: usize,
    length: usize,
}

impl<'a> Warning<'a> {
    /// A warning of a name, and of another one where there is one, from a place in a statement on, whose card isn't known.
    pub(crate) fn of_piece(
        topic: Topic,
        number: u32,
        place: usize,
        length: usize,
        name: &'a [u8],
        other: &'a [u8],
    ) -> Warning<'a> {
        Warning {
            topic,
            name,
            other,
            number,
            place,
            card: 0,
            column: 0,
            length,
        }
    }

    /// A warning of some columns of a card.
    pub(crate) fn of_columns(topic: Topic, card: u32, column: usize, length: usize) -> Warning<'a> {
        Warning {
            topic,
            name: &[],
            other: &[],
            number: 0,
            place: 0,
            card,
            column,
            length,
        }
    }
}

// Puts a name, which is of letters, digits, dots and underlines.
fn put_name(text: &mut String, name: &[u8]) -> Result<(), AllocError> {
    for byte in name.iter().copied() {
        text.push(char::from(byte))?;
    }
    Ok(())
}

fn text_of(alloc: Global, warning: Warning<'_>) -> Result<String, AllocError> {
    let mut text = String::new(alloc);
    match warning.topic {
        Topic::UndefinedLabel => {
            text.push_str("no statement has the label ")?;
            put_name(&mut text, warning.name)?;
        }
        Topic::UndefinedFunction => {
            text.push_str("neither DEFINE nor DATA nor the language has the function ")?;
            put_name(&mut text, warning.name)?;
        }
        Topic::Case => {
            text.push_str("the variable ")?;
            put_name(&mut text, warning.name)?;
            text.push_str(" differs in case alone from ")?;
            put_name(&mut text, warning.other)?;
        }
        Topic::Unused => {
            text.push_str("the third argument of ")?;
            put_name(&mut text, warning.name)?;
            text.push_str(" isn't used")?;
        }
        topic => text.push_str(topic_code(topic).text)?,
    }
    Ok(text)
}

/// The message of a warning.
pub(crate) fn message_of(
    alloc: Global,
    sources: &Sources<'_>,
    severity: Severity,
    warning: Warning<'_>,
) -> Result<Message, AllocError> {
    let (file, place) = sources.message_place(alloc, warning.card)?;
    Ok(Message {
        file,
        place: place.at(Some(warning.column), warning.length),
        statement: (warning.number > 0).then_some(i64::from(warning.number)),
        severity,
        code: topic_code(warning.topic),
        text: text_of(alloc, warning)?,
    })
}
