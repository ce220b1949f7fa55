//! A deck's run in pieces, of which the page hears.

ghost use Rattle.std.specs.Prelude.{◌≡◌, IfErr};
ghost use Rattle.driver.specs.Compiled.{IsRefusalOf};
ghost use Rattle.statement_machine.specs.Stopped.{status_at};

use crate::given::GivenUnits;
use crate::hooks::page_went;
use driver::{Ran, Refusal, compile_deck};
use loader::{Module, load};
use model::{Ending, Status, Stop};
use statement_machine::Machine;
use std::alloc::Global;

/// How many steps a run makes in one piece.
#[derive(Clone, Copy)]
pub struct Pieces {
    /// All of them, at most.
    pub bound: u64,
    /// Those of the first piece.
    pub first: u64,
    /// Those of each further piece.
    pub further: u64,
}

/// How a run in pieces came out.
#[derive(Drop)]
pub(crate) struct Outcome {
    pub(crate) ran: Ran,
    /// How many steps it had made when its last piece began.
    pub(crate) made: u64,
}

// The number of the statement that a status names.
fn statement_of(status: Status) -> Option<u32> {
    match status {
        Status::Ended(Ending::Error { statement, .. }) => u32::try_from(statement).ok(),
        Status::Ended(Ending::StLimit { statement }) => Some(statement),
        _ => None,
    }
}

// The run of a machine, and how many steps it had made when its last piece began.
fn go_on(machine: &mut Machine<'_, '_>, units: &mut GivenUnits, pieces: Pieces) -> (Status, u64)
    ensures status { result.0 ≡ status_at machine.new.halt }
{
    let mut made = 0;
    let mut next = pieces.first;
    for _ in 0..pieces.bound {
        let piece = next.max(1).min(pieces.bound.saturating_sub(made));
        let status = machine.run(units, piece);
        match status {
            Status::Running => {}
            _ => return (status, made),
        }
        made = made.saturating_add(piece);
        page_went(made);
        if made >= pieces.bound {
            return (status, made);
        }
        next = pieces.further;
    }
    (machine.run(units, 0), made)
}

/// Compiles a deck and runs it in pieces. What is refused for want of memory says nothing of the deck.
pub(crate) fn run_in_pieces(
    alloc: Global,
    deck: &[u8],
    units: &mut GivenUnits,
    pieces: Pieces,
) -> Result<Outcome, Refusal>
    ensures refused { IfErr result (IsRefusalOf deck.now) }
{
    let bytes = compile_deck(alloc, deck)?;
    let Ok(program) = load(alloc, &bytes) else {
        return Err(Refusal::Memory);
    };
    let Ok(mut machine) = Machine::new(alloc, &program) else {
        return Err(Refusal::Memory);
    };
    let (status, made) = go_on(&mut machine, units, pieces);
    let card = match statement_of(status) {
        Some(number) => program.card(number),
        None => 0,
    };
    let ran = Ran { status, card };
    Ok(Outcome { ran, made })
}
