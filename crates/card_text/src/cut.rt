//! A statement's text cut into pieces, those of a faulty text too.

use std::alloc::{AllocError, Global};

/// The bytes that are marks.
const MARKS: &[u8] = b"()<>,=:*/+-.$@?&|~";

/// What a piece is.
#[derive(Clone, Copy, PartialEq, Eq)]
pub enum PieceKind {
    Blank,
    Word,
    Digits,
    Literal,
    /// A literal without its closing quote.
    Unclosed,
    Mark,
    /// A byte that begins no token.
    Stray,
}

/// A piece of a text: what it is, its first byte, and where it stands.
#[derive(Clone, Copy)]
pub struct Piece {
    pub kind: PieceKind,
    pub first: u8,
    pub start: usize,
    pub end: usize,
}

impl Piece {
    /// Its bytes in the text.
    pub fn bytes<'a>(&self, text: &'a [u8]) -> &'a [u8] {
        text.get(self.start..self.end).unwrap_or(&[])
    }

    /// Whether it is this mark of one byte.
    pub fn is_mark(&self, mark: u8, text: &[u8]) -> bool {
        self.kind == PieceKind::Mark && self.first == mark && self.bytes(text).len() == 1
    }

    // Whether a byte behind it belongs to it.
    fn takes(&self, byte: u8, at: usize) -> bool {
        match self.kind {
            PieceKind::Blank => byte == b' ',
            PieceKind::Word => byte.is_ascii_alphanumeric() || byte == b'.' || byte == b'_',
            PieceKind::Digits => byte.is_ascii_digit(),
            PieceKind::Unclosed => true,
            PieceKind::Mark => {
                self.first == b'*' && byte == b'*' && at == self.start.saturating_add(1)
            }
            PieceKind::Literal | PieceKind::Stray => false,
        }
    }

    // The piece with one byte more.
    fn grown(self, byte: u8, at: usize) -> Piece {
        let is_closed = self.kind == PieceKind::Unclosed && byte == self.first;
        let kind = if is_closed {
            PieceKind::Literal
        } else {
            self.kind
        };
        Piece {
            kind,
            end: at.saturating_add(1),
            ..self
        }
    }
}

// What a piece is that begins with this byte.
fn kind_of(byte: u8) -> PieceKind {
    match byte {
        b' ' => PieceKind::Blank,
        b'A'..=b'Z' | b'a'..=b'z' => PieceKind::Word,
        b'0'..=b'9' => PieceKind::Digits,
        b'\'' | b'"' => PieceKind::Unclosed,
        _ if MARKS.contains(&byte) => PieceKind::Mark,
        _ => PieceKind::Stray,
    }
}

fn begun(byte: u8, at: usize) -> Piece {
    Piece {
        kind: kind_of(byte),
        first: byte,
        start: at,
        end: at.saturating_add(1),
    }
}

/// The pieces of a text, in order.
pub fn cut_text(alloc: Global, text: &[u8]) -> Result<Vec<Piece>, AllocError> {
    let mut pieces = Vec::new(alloc);
    let mut open: Option<Piece> = None;
    for (at, byte) in text.iter().copied().enumerate() {
        open = match open {
            Some(piece) if piece.takes(byte, at) => Some(piece.grown(byte, at)),
            Some(piece) => {
                pieces.push(piece)?;
                Some(begun(byte, at))
            }
            None => Some(begun(byte, at)),
        };
    }
    if let Some(piece) = open {
        pieces.push(piece)?;
    }
    Ok(pieces)
}
