//! Where in a statement its fault stands.

use crate::cut::{Piece, PieceKind, cut_text};
use model::{Cause, KeyId, PrimId};
use std::alloc::{AllocError, Global};

/// The most brackets that may be open at once.
const MOST_OPEN: u32 = 64;

/// The most marks of unary operators in a row.
const MOST_IN_A_ROW: u32 = 16;

/// The greatest integer.
const GREATEST: u64 = 9_223_372_036_854_775_807;

fn first_of(pieces: &[Piece], kind: PieceKind) -> Option<usize> {
    for piece in pieces.iter().copied() {
        if piece.kind == kind {
            return Some(piece.start);
        }
    }
    None
}

// The value of digits, and nothing if it is over the greatest integer.
fn value(digits: &[u8]) -> Option<u64> {
    let mut value: u64 = 0;
    for digit in digits.iter().copied() {
        value = value
            .checked_mul(10)?
            .checked_add(u64::from(digit.saturating_sub(b'0')))?;
    }
    (value <= GREATEST).then_some(value)
}

fn large_integer(pieces: &[Piece], text: &[u8]) -> Option<usize> {
    for piece in pieces.iter().copied() {
        if piece.kind == PieceKind::Digits && value(piece.bytes(text)).is_none() {
            return Some(piece.start);
        }
    }
    None
}

// How many brackets are open behind a piece.
fn open_behind(open: u32, piece: Piece) -> u32 {
    match (piece.kind, piece.first) {
        (PieceKind::Mark, b'(' | b'<') => open.saturating_add(1),
        (PieceKind::Mark, b')' | b'>') => open.saturating_sub(1),
        _ => open,
    }
}

// The bracket with which too many are open.
fn deep_bracket(pieces: &[Piece]) -> Option<usize> {
    let mut open = 0;
    for piece in pieces.iter().copied() {
        open = open_behind(open, piece);
        if open > MOST_OPEN {
            return Some(piece.start);
        }
    }
    None
}

// Whether a piece is the mark of a unary operator.
fn is_unary(piece: Piece, text: &[u8]) -> bool {
    let is_one = matches!(
        piece.first,
        b'*' | b'+' | b'-' | b'.' | b'$' | b'@' | b'?' | b'&' | b'~'
    );
    is_one && piece.is_mark(piece.first, text)
}

// The mark with which too many stand in a row.
fn long_row(pieces: &[Piece], text: &[u8]) -> Option<usize> {
    let mut row: u32 = 0;
    for piece in pieces.iter().copied() {
        row = if is_unary(piece, text) {
            row.saturating_add(1)
        } else {
            0
        };
        if row > MOST_IN_A_ROW {
            return Some(piece.start);
        }
    }
    None
}

// How many arguments a call has, whose pieces behind the opening bracket these are.
fn arguments(pieces: &[Piece]) -> usize {
    let mut open: u32 = 1;
    let mut count: usize = 1;
    for piece in pieces.iter().copied() {
        open = open_behind(open, piece);
        if open == 0 {
            return count;
        }
        if open == 1 && piece.kind == PieceKind::Mark && piece.first == b',' {
            count = count.saturating_add(1);
        }
    }
    count
}

// Whether a piece with those behind it is a call of a primitive with too many arguments.
fn is_full_call(piece: Piece, behind: &[Piece], text: &[u8]) -> bool {
    let Some(primitive) = PrimId::named(piece.bytes(text)) else {
        return false;
    };
    match behind {
        [bracket, rest @ ..] if bracket.is_mark(b'(', text) => {
            arguments(rest) > primitive.most_arguments()
        }
        _ => false,
    }
}

fn full_call(pieces: &[Piece], text: &[u8]) -> Option<usize> {
    for (place, piece) in pieces.iter().copied().enumerate() {
        let behind = pieces.get(place.saturating_add(1)..).unwrap_or(&[]);
        if piece.kind == PieceKind::Word && is_full_call(piece, behind, text) {
            return Some(piece.start);
        }
    }
    None
}

fn unknown_keyword(pieces: &[Piece], text: &[u8]) -> Option<usize> {
    let mut is_keyword = false;
    for piece in pieces.iter().copied() {
        if is_keyword
            && piece.kind == PieceKind::Word
            && KeyId::named(piece.bytes(text)).is_none()
        {
            return Some(piece.start);
        }
        is_keyword = piece.is_mark(b'&', text);
    }
    None
}

// The entry label of END.
fn entry(pieces: &[Piece]) -> Option<usize> {
    first_of(pieces.get(1..)?, PieceKind::Word)
}

/// Where in a statement's text the token stands for which it has this cause, where that is known.
pub(crate) fn place(alloc: Global, cause: Cause, text: &[u8]) -> Result<Option<usize>, AllocError> {
    let pieces = cut_text(alloc, text)?;
    let pieces = pieces.as_slice();
    Ok(match cause {
        Cause::StrayByte => first_of(pieces, PieceKind::Stray),
        Cause::UnclosedLiteral => first_of(pieces, PieceKind::Unclosed),
        Cause::IntegerTooLarge => large_integer(pieces, text),
        Cause::TooManyBrackets => deep_bracket(pieces),
        Cause::TooManyMarks => long_row(pieces, text),
        Cause::LabelTaken => Some(0),
        Cause::TooManyArguments => full_call(pieces, text),
        Cause::UnknownKeyword => unknown_keyword(pieces, text),
        Cause::EntryMissing => entry(pieces),
        Cause::NoTree | Cause::NotATarget | Cause::Memory => None,
    })
}
