//! A deck's listing as a whole.

ghost use Rattle.std.specs.Prelude.{◌≡◌, ◌≢◌, List, IfOk, true, false};
ghost use Rattle.model.specs.Deck.Trees as tree;
ghost use Rattle.driver.specs.declared.refusal.Refusal as reasons;
ghost use Rattle.driver.specs.declared.refusal.Refusal.TheVariants.{Memory};
ghost use Rattle.driver.specs.Compiled.{IsRefusalOf};
ghost use Rattle.model.specs.Deck.Faults.{verdict, Accepted};

use crate::cards::{Known, cards};
use crate::lines::Style;
use card_reader::read_deck;
use card_text::fault_notes;
use driver::{Refusal, compile_deck};
use model::{CardFault, StmtFault};
use module_format::read_image;
use std::alloc::{AllocError, Global};
use std::io::{self, Write};

/// Why a listing isn't whole.
#[derive(Drop)]
pub enum Trouble {
    /// Memory was refused.
    Memory,
    /// A line could not be written.
    Write(io::Error),
}

impl From<AllocError> for Trouble {
    fn from(_e: AllocError) -> Trouble {
        Trouble::Memory
    }
}

impl From<io::Error> for Trouble {
    fn from(error: io::Error) -> Trouble {
        Trouble::Write(error)
    }
}

fn count<W: Write>(count: usize, one: &str, many: &str, out: &mut W) -> io::Result<()> {
    write!(out, "{count} {}", if count == 1 { one } else { many })
}

// The listing of a deck whose cards have a fault.
fn of_card_fault<W: Write>(
    style: Style,
    bytes: &[u8],
    fault: CardFault,
    out: &mut W,
) -> io::Result<()> {
    let known = Known {
        statements: &[],
        notes: &[],
        fault: Some(fault),
        image: None,
    };
    let found = cards(style, bytes, known, out)?;
    count(found as usize, "card", "cards", out)?;
    out.write_all(b", refused for one of them\n")
}

// The listing of a deck whose statements have faults.
fn of_faults<W: Write>(
    alloc: Global,
    style: Style,
    bytes: &[u8],
    faults: &[StmtFault],
    out: &mut W,
) -> Result<(), Trouble> {
    let Ok(deck) = read_deck(alloc, bytes) else {
        return Err(Trouble::Memory);
    };
    let notes = fault_notes(alloc, bytes, &deck, faults)?;
    let known = Known {
        statements: deck.statements.as_slice(),
        notes: notes.as_slice(),
        fault: None,
        image: None,
    };
    let found = cards(style, bytes, known, out)?;
    totals(found, known, out)?;
    Ok(())
}

fn totals<W: Write>(found: u32, known: Known<'_>, out: &mut W) -> io::Result<()> {
    count(found as usize, "card", "cards", out)?;
    out.write_all(b", ")?;
    count(known.statements.len(), "statement", "statements", out)?;
    writeln!(out, ", {} faulty", known.notes.len())
}

// The listing of a deck without faults, with its instructions where they are wanted.
fn of_module<W: Write>(
    alloc: Global,
    style: Style,
    bytes: &[u8],
    module: Option<&[u8]>,
    out: &mut W,
) -> Result<(), Trouble> {
    let Ok(deck) = read_deck(alloc, bytes) else {
        return Err(Trouble::Memory);
    };
    let image = match module {
        Some(module) => read_image(alloc, module).ok(),
        None => None,
    };
    let known = Known {
        statements: deck.statements.as_slice(),
        notes: &[],
        fault: None,
        image: image.as_ref(),
    };
    let found = cards(style, bytes, known, out)?;
    totals(found, known, out)?;
    Ok(())
}

/// Writes the listing of a deck, with its instructions where they are wanted; whether the deck has no fault.
pub fn list<W: Write>(
    alloc: Global,
    style: Style,
    has_code: bool,
    bytes: &[u8],
    out: &mut W,
) -> Result<bool, Trouble>
    // A deck of which that is said has trees.
    ensures faultless { IfOk result (λ f. f ≡ true → (ss : List tree.Stmt) × (verdict bytes.now ≡ Accepted ss)) }
    // Any other is refused, by exactly its faults.
    ensures faulty { IfOk result (λ f. f ≡ false → (why : reasons.Refusal)
        × IsRefusalOf bytes.now why × (why ≢ Memory)) }
{
    match compile_deck(alloc, bytes) {
        Ok(module) => {
            let module = has_code.then_some(module.as_slice());
            of_module(alloc, style, bytes, module, out)?;
            Ok(true)
        }
        Err(Refusal::Card(fault)) => {
            of_card_fault(style, bytes, fault, out)?;
            Ok(false)
        }
        Err(Refusal::Statements(faults)) => {
            of_faults(alloc, style, bytes, faults.as_slice(), out)?;
            Ok(false)
        }
        Err(Refusal::Memory) => Err(Trouble::Memory),
    }
}
