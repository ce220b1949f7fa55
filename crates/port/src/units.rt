//! The arguments of INPUT and OUTPUT.

use crate::characters::without_blanks;

/// What is left of a text at the second comma of a call's arguments, and at the bracket that closes them.
#[derive(Clone, Copy)]
pub(crate) struct Extra {
    pub(crate) from: usize,
    pub(crate) to: usize,
}

/// Where a walk over arguments has come to.
#[derive(Clone, Copy)]
struct Reached {
    quote: Option<u8>,
    open: u32,
    commas: u32,
}

impl Reached {
    fn past(self, byte: u8) -> Reached {
        match (self.quote, byte) {
            (Some(quote), _) => Reached {
                quote: (quote != byte).then_some(quote),
                ..self
            },
            (None, b'\'' | b'"') => Reached {
                quote: Some(byte),
                ..self
            },
            (None, b'(' | b'<' | b'[') => Reached {
                open: self.open.saturating_add(1),
                ..self
            },
            (None, b')' | b'>' | b']') => Reached {
                open: self.open.saturating_sub(1),
                ..self
            },
            (None, b',') if self.open == 1 => Reached {
                commas: self.commas.saturating_add(1),
                ..self
            },
            (None, _) => self,
        }
    }
}

/// The arguments behind the second of a call, whose bracket begins this text, if the call has any and is closed there.
pub(crate) fn extra_arguments(text: &[u8]) -> Option<Extra> {
    let mut reached = Reached {
        quote: None,
        open: 0,
        commas: 0,
    };
    let mut from: Option<usize> = None;
    for (at, byte) in text.iter().copied().enumerate() {
        reached = reached.past(byte);
        if reached.commas == 2 && from.is_none() {
            from = Some(text.len().saturating_sub(at));
        }
        if reached.open == 0 {
            let to = text.len().saturating_sub(at);
            return Some(Extra { from: from?, to });
        }
    }
    None
}

// An argument of a call, whose bracket begins this text, from 0.
fn argument(text: &[u8], number: u32) -> Option<&[u8]> {
    let mut reached = Reached {
        quote: None,
        open: 0,
        commas: 0,
    };
    let mut from: Option<usize> = None;
    for (at, byte) in text.iter().copied().enumerate() {
        reached = reached.past(byte);
        if reached.open == 0 || reached.commas > number {
            return text.get(from?..at);
        }
        if reached.commas == number && from.is_none() {
            from = Some(at.saturating_add(1));
        }
    }
    None
}

// What stands between the quotes of a literal, or else before the first blank.
fn plain(argument: &[u8]) -> &[u8] {
    let text = without_blanks(argument);
    match text {
        [quote @ (b'\'' | b'"'), more @ ..] => {
            let count = more.iter().take_while(|byte| *byte != quote).count();
            more.get(..count).unwrap_or(&[])
        }
        _ => {
            let count = text.iter().take_while(|byte| **byte != b' ').count();
            text.get(..count).unwrap_or(&[])
        }
    }
}

/// The unit and the file that a call of INPUT or OUTPUT names, whose bracket begins this text, if it names both.
pub(crate) fn unit_and_file(text: &[u8]) -> Option<(&[u8], &[u8])> {
    let unit = plain(argument(text, 1)?);
    let file = plain(argument(text, 3)?);
    let is_number = !unit.is_empty() && unit.iter().all(|byte| byte.is_ascii_digit());
    (is_number && !file.is_empty()).then_some((unit, file))
}
