//! What names stand for in a statement, by its pieces.

use card_text::{Piece, PieceKind};

/// What a name stands for.
#[derive(Clone, Copy, PartialEq, Eq)]
pub(crate) enum Use {
    /// The label of a goto.
    Goto,
    /// A function that is called.
    Call,
    Variable,
}

/// Where in a statement names are looked at.
#[derive(Clone, Copy)]
pub(crate) struct Place {
    in_goto: bool,
    open: u32,
}

impl Place {
    /// The beginning of a statement.
    pub(crate) fn start() -> Place {
        Place {
            in_goto: false,
            open: 0,
        }
    }

    /// Behind a piece.
    pub(crate) fn past(self, piece: Piece) -> Place {
        match (piece.kind, piece.first) {
            (PieceKind::Mark, b':') => Place {
                in_goto: true,
                open: 0,
            },
            (PieceKind::Mark, b'(') => Place {
                open: self.open.saturating_add(1),
                ..self
            },
            (PieceKind::Mark, b')') => Place {
                open: self.open.saturating_sub(1),
                ..self
            },
            _ => self,
        }
    }
}

fn is_mark(piece: Option<&Piece>, mark: u8) -> bool {
    piece.is_some_and(|piece| piece.kind == PieceKind::Mark && piece.first == mark)
}

// The last of some pieces that is no blank.
fn last_shown(before: &[Piece]) -> Option<&Piece> {
    before.iter().rfind(|piece| piece.kind != PieceKind::Blank)
}

// The first of some pieces that is no blank.
fn first_shown(behind: &[Piece]) -> Option<&Piece> {
    behind.iter().find(|piece| piece.kind != PieceKind::Blank)
}

/// What a piece that is a name stands for between those before and behind it; nothing where it is a label, a keyword, or
/// the S or F of a goto.
pub(crate) fn use_of(place: Place, before: &[Piece], name: Piece, behind: &[Piece]) -> Option<Use> {
    if name.kind != PieceKind::Word || name.start == 0 || is_mark(before.last(), b'&') {
        return None;
    }
    if place.in_goto && place.open == 0 {
        return None;
    }
    let is_whole_place = place.in_goto
        && place.open == 1
        && is_mark(last_shown(before), b'(')
        && is_mark(first_shown(behind), b')');
    if is_whole_place {
        return Some(Use::Goto);
    }
    if is_mark(behind.first(), b'(') {
        return Some(Use::Call);
    }
    Some(Use::Variable)
}
