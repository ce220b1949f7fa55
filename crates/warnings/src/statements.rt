//! What is to be warned of in statements.

use crate::names::{Names, Spellings};
use crate::uses::{Place, Use, use_of};
use crate::warning::Warning;
use card_text::{Piece, PieceKind, cut_text};
use codes::Topic;
use model::{PrimId, Statement, StmtFault};
use std::alloc::{AllocError, Global};

// What is to be warned of a name, if anything.
fn of_use<'a>(
    names: &Names<'a>,
    spellings: &mut Spellings<'a>,
    found: Use,
    name: &'a [u8],
) -> Result<Option<(Topic, &'a [u8])>, AllocError> {
    match found {
        Use::Goto if !names.has_label(name) => Ok(Some((Topic::UndefinedLabel, &[]))),
        Use::Call if PrimId::named(name).is_none() && !names.may_define(name) => {
            Ok(Some((Topic::UndefinedFunction, &[])))
        }
        Use::Goto | Use::Call => Ok(None),
        Use::Variable => match spellings.put(name)? {
            Some(other) => Ok(Some((Topic::Case, other))),
            None => Ok(None),
        },
    }
}

/// An argument that isn't used: where it begins, and the function that is called.
#[derive(Clone, Copy)]
struct Unused<'a> {
    piece: Piece,
    function: &'a [u8],
}

// The first piece that is no blank of the third argument of a call, whose pieces behind the function's name these are.
fn third_argument(pieces: &[Piece]) -> Option<Piece> {
    let mut open: u32 = 0;
    let mut commas: u32 = 0;
    for piece in pieces.iter().copied() {
        if commas == 2 && piece.kind != PieceKind::Blank {
            let is_absent = piece.kind == PieceKind::Mark && matches!(piece.first, b')' | b',');
            return (!is_absent).then_some(piece);
        }
        match (piece.kind, piece.first) {
            (PieceKind::Mark, b'(' | b'<') => open = open.saturating_add(1),
            (PieceKind::Mark, b')' | b'>') if open <= 1 => return None,
            (PieceKind::Mark, b')' | b'>') => open = open.saturating_sub(1),
            (PieceKind::Mark, b',') if open == 1 => commas = commas.saturating_add(1),
            _ => (),
        }
    }
    None
}

// The argument that isn't used of a call by this name, if there is one.
fn argument_of<'a>(found: Use, function: &'a [u8], behind: &[Piece]) -> Option<Unused<'a>> {
    let is_unit = matches!(function, b"INPUT" | b"OUTPUT");
    if found != Use::Call || !is_unit {
        return None;
    }
    let piece = third_argument(behind)?;
    Some(Unused { piece, function })
}

// The warning of an argument, where that is the one that begins with this piece.
fn of_argument<'a>(number: u32, piece: Piece, argument: Option<Unused<'a>>) -> Option<Warning<'a>> {
    let argument = argument?;
    if argument.piece.start != piece.start {
        return None;
    }
    let length = piece.end.saturating_sub(piece.start);
    Some(Warning::of_piece(
        Topic::Unused,
        number,
        piece.start,
        length,
        argument.function,
        &[],
    ))
}

// Puts the warnings of a statement's pieces.
fn put_statement<'a>(
    names: &Names<'a>,
    spellings: &mut Spellings<'a>,
    statement: &'a Statement,
    pieces: &[Piece],
    warnings: &mut Vec<Warning<'a>>,
) -> Result<(), AllocError> {
    let number = statement.number;
    let mut place = Place::start();
    let mut argument = None;
    for (at, piece) in pieces.iter().copied().enumerate() {
        let before = pieces.get(..at).unwrap_or(&[]);
        let behind = pieces.get(at.saturating_add(1)..).unwrap_or(&[]);
        if let Some(warning) = of_argument(number, piece, argument) {
            warnings.push(warning)?;
        }
        let found = use_of(place, before, piece, behind);
        place = place.past(piece);
        let Some(found) = found else {
            continue;
        };
        let name = piece.bytes(statement.text.as_slice());
        if let Some((topic, other)) = of_use(names, spellings, found, name)? {
            let warning = Warning::of_piece(topic, number, piece.start, name.len(), name, other);
            warnings.push(warning)?;
        }
        argument = argument_of(found, name, behind).or(argument);
    }
    Ok(())
}

/// The warnings of statements, in order, but for those that are faulty, and END.
pub(crate) fn of_statements<'a>(
    alloc: Global,
    statements: &'a [Statement],
    faults: &[StmtFault],
) -> Result<Vec<Warning<'a>>, AllocError> {
    let names = Names::of(alloc, statements)?;
    let mut spellings = Spellings::new(alloc)?;
    let mut warnings = Vec::new(alloc);
    let mut faults = faults;
    for statement in statements {
        let number = statement.number;
        match faults {
            [first, rest @ ..] if first.number == number => {
                faults = rest;
                continue;
            }
            _ => (),
        }
        if (number as usize) < statements.len() {
            let pieces = cut_text(alloc, statement.text.as_slice())?;
            put_statement(&names, &mut spellings, statement, &pieces, &mut warnings)?;
        }
    }
    Ok(warnings)
}
