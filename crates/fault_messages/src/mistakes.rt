//! Why a statement has no form that is permitted, as far as its pieces show it.

use card_text::{Piece, PieceKind, cut_text};
use std::alloc::{AllocError, Global};

/// A mistake for which a statement has no tree.
#[derive(Clone, Copy, PartialEq, Eq)]
pub(crate) enum Mistake {
    /// A comment stands behind a `;`.
    CommentInside,
    /// The first column has neither a label nor a blank.
    NoLabel,
    /// Digits, a point and digits.
    RealNumber,
    /// A binary operator has no blanks around it.
    NoBlanks,
    /// Two values stand with nothing between.
    TwoValues,
    /// A bracket isn't closed.
    Unclosed,
    /// A bracket closes none, or one of the other kind.
    Unopened,
    /// Something stands behind the goto.
    BehindGoto,
    /// What stands behind a colon is no goto.
    BadGoto,
    /// An `=` without a subject.
    NoSubject,
    /// An operator stands behind the subject.
    LongSubject,
}

impl Mistake {
    /// What is wrong, in a few words.
    pub(crate) fn text(self) -> &'static str {
        match self {
            Mistake::CommentInside => "a comment stands on a card of its own, with * in column 1",
            Mistake::NoLabel =>
                "column 1 has neither a label nor a blank, with which a statement begins",
            Mistake::RealNumber => "there are no real numbers",
            Mistake::NoBlanks => "a binary operator has blanks on both sides",
            Mistake::TwoValues => "two values with nothing between; a blank joins them",
            Mistake::Unclosed => "a bracket that isn't closed",
            Mistake::Unopened => "a bracket that closes none of its kind",
            Mistake::BehindGoto => "text behind the goto",
            Mistake::BadGoto => "a goto is :(A), :S(A), :F(A) or :S(A)F(B)",
            Mistake::NoSubject =>
                "no subject before =; a name in column 1 is a label, and a statement without one begins with a blank",
            Mistake::LongSubject =>
                "an operator behind the subject, which is one name, call or value in brackets",
        }
    }
}

/// A mistake, and where in the text it stands.
type Found = (Mistake, usize);

fn is_blank(piece: Option<&Piece>) -> bool {
    piece.is_some_and(|piece| piece.kind == PieceKind::Blank)
}

fn is_kind(piece: Option<&Piece>, kind: PieceKind) -> bool {
    piece.is_some_and(|piece| piece.kind == kind)
}

// Whether a piece is a mark that begins with this byte.
fn is_mark(piece: Piece, mark: u8) -> bool {
    piece.kind == PieceKind::Mark && piece.first == mark
}

// Whether a value may end with a piece.
fn ends_value(piece: Piece) -> bool {
    match piece.kind {
        PieceKind::Word | PieceKind::Digits | PieceKind::Literal => true,
        PieceKind::Mark => matches!(piece.first, b')' | b'>'),
        PieceKind::Blank | PieceKind::Unclosed | PieceKind::Stray => false,
    }
}

// Whether a value, or what belongs to one, may begin with a piece.
fn begins_value(piece: Piece) -> bool {
    match piece.kind {
        PieceKind::Word | PieceKind::Digits | PieceKind::Literal => true,
        PieceKind::Mark => matches!(piece.first, b'(' | b'<'),
        PieceKind::Blank | PieceKind::Unclosed | PieceKind::Stray => false,
    }
}

fn is_operator(piece: Piece) -> bool {
    piece.kind == PieceKind::Mark && !matches!(piece.first, b'(' | b')' | b'<' | b'>' | b',')
}

// Whether a piece is an operator that is never unary.
fn is_binary(piece: Piece, text: &[u8]) -> bool {
    is_operator(piece)
        && (matches!(piece.first, b'=' | b'/' | b'|') || piece.bytes(text) == b"**".as_slice())
}

// What is wrong where a piece stands directly behind another one.
fn behind_another(before: Piece, piece: Piece, next: Option<&Piece>) -> Option<Mistake> {
    if !ends_value(before) {
        return None;
    }
    let is_call = before.kind == PieceKind::Word && matches!(piece.first, b'(' | b'<');
    if begins_value(piece) {
        return (!is_call).then_some(Mistake::TwoValues);
    }
    if before.kind == PieceKind::Digits
        && is_mark(piece, b'.')
        && is_kind(next, PieceKind::Digits)
    {
        return Some(Mistake::RealNumber);
    }
    is_operator(piece).then_some(Mistake::NoBlanks)
}

// What is wrong around a piece.
fn around(
    before: Option<&Piece>,
    piece: Piece,
    next: Option<&Piece>,
    text: &[u8],
) -> Option<Mistake> {
    let mistake = match before {
        Some(before) => behind_another(*before, piece, next),
        None => None,
    };
    if mistake.is_some() {
        return mistake;
    }
    let is_last = next.is_none() && piece.first == b'=';
    (is_binary(piece, text) && !is_last && !is_blank(next)).then_some(Mistake::NoBlanks)
}

// The first mistake around a piece of a statement up to the colon of its goto.
fn in_row(pieces: &[Piece], text: &[u8]) -> Option<Found> {
    let mut before: Option<&Piece> = None;
    for (at, piece) in pieces.iter().enumerate() {
        let next = pieces.get(at.saturating_add(1));
        if let Some(mistake) = around(before, *piece, next, text) {
            return Some((mistake, piece.start));
        }
        before = Some(piece);
    }
    None
}

fn closing(opening: u8) -> u8 {
    match opening {
        b'(' => b')',
        _ => b'>',
    }
}

// The first bracket that closes none of its kind, or the last that isn't closed.
fn of_brackets(alloc: Global, pieces: &[Piece]) -> Result<Option<Found>, AllocError> {
    let mut open: Vec<Piece> = Vec::new(alloc);
    for piece in pieces.iter().copied() {
        if piece.kind != PieceKind::Mark {
            continue;
        }
        match piece.first {
            b'(' | b'<' => open.push(piece)?,
            b')' | b'>' => match open.pop() {
                Some(bracket) if closing(bracket.first) == piece.first => (),
                _ => return Ok(Some((Mistake::Unopened, piece.start))),
            },
            _ => (),
        }
    }
    Ok(match open.last() {
        Some(piece) => Some((Mistake::Unclosed, piece.start)),
        None => None,
    })
}

/// Where a goto is read: how many brackets are open, and how many parts are read.
#[derive(Clone, Copy)]
struct Reached {
    open: u32,
    parts: u32,
}

// What is wrong with a piece of a goto that stands in no bracket.
fn outside(reached: Reached, piece: Piece, next: Option<&Piece>, text: &[u8]) -> Option<Mistake> {
    let is_part = match piece.kind {
        PieceKind::Blank => return None,
        PieceKind::Word => {
            matches!(piece.bytes(text), b"S" | b"F")
                && next.is_some_and(|next| is_mark(*next, b'('))
        }
        _ => is_mark(piece, b'('),
    };
    match (is_part, reached.parts) {
        (true, 0..=2) => None,
        (_, 0) => Some(Mistake::BadGoto),
        _ => Some(Mistake::BehindGoto),
    }
}

// The first mistake of a goto, whose pieces behind the colon these are.
fn of_goto(pieces: &[Piece], text: &[u8]) -> Option<Found> {
    let mut reached = Reached { open: 0, parts: 0 };
    for (at, piece) in pieces.iter().copied().enumerate() {
        if reached.open == 0 {
            let next = pieces.get(at.saturating_add(1));
            if let Some(mistake) = outside(reached, piece, next, text) {
                return Some((mistake, piece.start));
            }
        }
        if is_mark(piece, b'(') {
            reached.open = reached.open.saturating_add(1);
        } else if is_mark(piece, b')') {
            reached.open = reached.open.saturating_sub(1);
            reached.parts = reached.parts.saturating_add(1);
        }
    }
    let first = pieces.first()?;
    (reached.parts == 0).then_some((Mistake::BadGoto, first.start))
}

// The pieces behind a label and the blanks that follow it.
fn behind_label(pieces: &[Piece]) -> &[Piece] {
    let pieces = match pieces {
        [label, rest @ ..] if label.kind == PieceKind::Word => rest,
        pieces => pieces,
    };
    match pieces {
        [blank, rest @ ..] if blank.kind == PieceKind::Blank => rest,
        pieces => pieces,
    }
}

// The pieces from the first blank on that stands in no bracket.
fn behind_element(pieces: &[Piece]) -> &[Piece] {
    let mut open: u32 = 0;
    for (at, piece) in pieces.iter().copied().enumerate() {
        if piece.kind == PieceKind::Blank && open == 0 {
            return pieces.get(at..).unwrap_or(&[]);
        }
        if is_mark(piece, b'(') || is_mark(piece, b'<') {
            open = open.saturating_add(1);
        } else if is_mark(piece, b')') || is_mark(piece, b'>') {
            open = open.saturating_sub(1);
        }
    }
    &[]
}

// What is wrong with a statement's subject.
fn of_subject(pieces: &[Piece]) -> Option<Found> {
    let body = behind_label(pieces);
    match body.first() {
        Some(piece) if is_mark(*piece, b'=') => return Some((Mistake::NoSubject, piece.start)),
        _ => (),
    }
    match behind_element(body) {
        [_, mark, rest @ ..] if is_operator(*mark) && mark.first != b'=' => {
            is_blank(rest.first()).then_some((Mistake::LongSubject, mark.start))
        }
        _ => None,
    }
}

// What is wrong with the first column.
fn of_first(pieces: &[Piece]) -> Option<Found> {
    let piece = pieces.first()?;
    match piece.kind {
        PieceKind::Blank | PieceKind::Word => None,
        PieceKind::Mark if piece.first == b'*' => Some((Mistake::CommentInside, piece.start)),
        _ => Some((Mistake::NoLabel, piece.start)),
    }
}

/// The first mistake that is seen in a statement that has no tree, and where in its text it stands.
pub(crate) fn mistake_in(
    alloc: Global,
    text: &[u8],
) -> Result<Option<(Mistake, usize)>, AllocError> {
    let pieces = cut_text(alloc, text)?;
    let pieces = pieces.as_slice();
    let colon = pieces.iter().position(|piece| is_mark(*piece, b':'));
    let end = match colon {
        Some(at) => at.saturating_add(1),
        None => pieces.len(),
    };
    let body = pieces.get(..end).unwrap_or(pieces);
    if let Some(found) = of_first(body).or(in_row(body, text)) {
        return Ok(Some(found));
    }
    if let Some(found) = of_brackets(alloc, pieces)? {
        return Ok(Some(found));
    }
    let goto = match colon {
        Some(_) => of_goto(pieces.get(end..).unwrap_or(&[]), text),
        None => None,
    };
    Ok(goto.or(of_subject(body)))
}
