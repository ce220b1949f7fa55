//! The names that a deck gives: labels, and functions in the texts of DEFINE and DATA.

use card_text::{Piece, PieceKind, cut_text};
use indexmap::{IndexMap, IndexSet};
use model::Statement;
use std::alloc::{AllocError, Global};

/// The names that statements give.
#[derive(Drop)]
pub(crate) struct Names<'a> {
    labels: IndexSet<&'a [u8]>,
    functions: IndexSet<&'a [u8]>,
    is_computed: bool,
}

fn is_in_name(byte: u8) -> bool {
    byte.is_ascii_alphanumeric() || byte == b'.' || byte == b'_'
}

// The name with which some bytes begin, which may be empty.
fn first_name(bytes: &[u8]) -> &[u8] {
    let end = bytes.iter().take_while(|byte| is_in_name(**byte)).count();
    bytes.get(..end).unwrap_or(&[])
}

// What stands between the quotes of a literal.
fn inside<'a>(piece: Piece, text: &'a [u8]) -> &'a [u8] {
    let start = piece.start.saturating_add(1);
    let end = piece.end.saturating_sub(1);
    text.get(start..end).unwrap_or(&[])
}

fn is_mark(piece: Option<&Piece>, mark: u8) -> bool {
    piece.is_some_and(|piece| piece.kind == PieceKind::Mark && piece.first == mark)
}

// Whether a piece is a call of DEFINE or DATA.
fn is_definition(piece: Piece, behind: &[Piece], text: &[u8]) -> bool {
    let is_name = matches!(piece.bytes(text), b"DEFINE" | b"DATA");
    is_name && piece.kind == PieceKind::Word && is_mark(behind.first(), b'(')
}

// Whether the first argument of a call begins with a literal.
fn has_literal(behind: &[Piece]) -> bool {
    let argument = behind
        .iter()
        .skip(1)
        .find(|piece| piece.kind != PieceKind::Blank);
    argument.is_some_and(|piece| piece.kind == PieceKind::Literal)
}

impl<'a> Names<'a> {
    fn new(alloc: Global) -> Names<'a> {
        Names {
            labels: IndexSet::new(alloc),
            functions: IndexSet::new(alloc),
            is_computed: false,
        }
    }

    // Puts each name of a literal of a statement that calls DEFINE or DATA.
    fn put_all(&mut self, bytes: &'a [u8]) -> Result<(), AllocError> {
        for part in bytes.split(|byte| !is_in_name(*byte)) {
            if !part.is_empty() {
                self.functions.insert(part)?;
            }
        }
        Ok(())
    }

    // Puts the name of a literal that may be given to DEFINE or DATA elsewhere.
    fn put_first(&mut self, bytes: &'a [u8]) -> Result<(), AllocError> {
        let name = first_name(bytes);
        if !name.is_empty() && bytes.get(name.len()) == Some(&b'(') {
            self.functions.insert(name)?;
        }
        Ok(())
    }

    fn put_literals(
        &mut self,
        pieces: &[Piece],
        text: &'a [u8],
        defines: bool,
    ) -> Result<(), AllocError> {
        for piece in pieces.iter().copied() {
            if piece.kind != PieceKind::Literal {
                continue;
            }
            if defines {
                self.put_all(inside(piece, text))?;
            } else {
                self.put_first(inside(piece, text))?;
            }
        }
        Ok(())
    }

    fn put_statement(&mut self, pieces: &[Piece], text: &'a [u8]) -> Result<(), AllocError> {
        let label = first_name(text);
        if !label.is_empty() {
            self.labels.insert(label)?;
        }
        let mut defines = false;
        for (at, piece) in pieces.iter().copied().enumerate() {
            let behind = pieces.get(at.saturating_add(1)..).unwrap_or(&[]);
            if is_definition(piece, behind, text) {
                defines = true;
                self.is_computed = self.is_computed || !has_literal(behind);
            }
        }
        self.put_literals(pieces, text, defines)
    }

    /// The names that some statements give.
    pub(crate) fn of(alloc: Global, statements: &'a [Statement]) -> Result<Names<'a>, AllocError> {
        let mut names = Names::new(alloc);
        for statement in statements {
            let text = statement.text.as_slice();
            let pieces = cut_text(alloc, text)?;
            names.put_statement(&pieces, text)?;
        }
        Ok(names)
    }

    /// Whether a goto may lead to a label: a statement has it, or it is a return.
    pub(crate) fn has_label(&self, name: &[u8]) -> bool {
        let is_return = matches!(name, b"RETURN" | b"FRETURN" | b"NRETURN");
        is_return || self.labels.contains(name)
    }

    /// Whether a function of this name may be defined.
    pub(crate) fn may_define(&self, name: &[u8]) -> bool {
        self.is_computed || self.functions.contains(name)
    }
}

/// The spellings of variables.
#[derive(Drop)]
pub(crate) struct Spellings<'a> {
    alloc: Global,
    seen: IndexSet<&'a [u8]>,
    first: IndexMap<Vec<u8>, &'a [u8]>,
}

/// The variables that hold something at first, or are associated with units.
const FIRST: [&[u8]; 10] = [
    b"INPUT", b"OUTPUT", b"PUNCH", b"ARB", b"BAL", b"REM", b"FAIL", b"SUCCEED", b"ABORT", b"FENCE",
];

impl<'a> Spellings<'a> {
    /// Those of the variables that are there at first.
    pub(crate) fn new(alloc: Global) -> Result<Spellings<'a>, AllocError> {
        let mut spellings = Spellings {
            alloc,
            seen: IndexSet::new(alloc),
            first: IndexMap::new(alloc),
        };
        for name in FIRST {
            let _ = spellings.put(name)?;
        }
        Ok(spellings)
    }

    /// Puts a spelling; one that was there before and differs in case alone, if this one is new.
    pub(crate) fn put(&mut self, name: &'a [u8]) -> Result<Option<&'a [u8]>, AllocError> {
        if self.seen.contains(name) {
            return Ok(None);
        }
        self.seen.insert(name)?;
        let mut small = Vec::new(self.alloc);
        for byte in name.iter().copied() {
            small.push(byte.to_ascii_lowercase())?;
        }
        if let Some(other) = self.first.get(small.as_slice()) {
            return Ok(Some(*other));
        }
        self.first.insert(small, name)?;
        Ok(None)
    }
}
