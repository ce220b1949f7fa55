//! From a deck to a module.

ghost use Rattle.std.specs.Prelude.{◌≡◌, ◌<◌, ◌+◌, ℕ, List, Option, Ok, IfOk, IfErr, OnOk, get_or, length};
ghost use Rattle.model.specs.declared.cards.Statement.{Statement};
ghost use Rattle.model.specs.Deck.Cards as spec;
ghost use Rattle.model.specs.Deck.Trees.{Bytes};
ghost use Rattle.driver.specs.Reading.{Kept};
ghost use Rattle.model.specs.Deck.Faults.{verdict, Accepted};
ghost use Rattle.model.specs.Deck.Trees as tree;
ghost use Rattle.driver.specs.Compiled.{IsDraftFor, IsModuleOf, IsRefusalOf, OfCards, OfStatements};

use crate::refusal::Refusal;
use bumpalo::Bump;
use card_reader::{StatementView, view_deck};
use codegen::{Draft, ImageBuilder};
use model::{CardFault, CardRule, DeckFault, decks_fit, trees_fit};
use parser::{Reader, cards_of, labels_of};
use std::alloc::{AllocError, Global};

impl From<CardFault> for Refusal {
    ghost from_gives = { OfCards };

    fn from(fault: CardFault) -> Refusal {
        match fault.rule {
            CardRule::Memory => Refusal::Memory,
            _ => Refusal::Card(fault),
        }
    }
}

impl From<DeckFault> for Refusal {
    ghost from_gives = { OfStatements };

    fn from(fault: DeckFault) -> Refusal {
        match fault {
            DeckFault::Faulty(faults) => Refusal::Statements(faults),
            DeckFault::Memory => Refusal::Memory,
        }
    }
}

// Reads the next statement of a deck, and puts its tree unless it is faulty.
fn put_next<'a>(
    alloc: Global,
    reader: &mut Reader<'a>,
    builder: &mut ImageBuilder<'_, '_>,
    statement: &StatementView<'a>,
) -> Result<(), AllocError>
    requires { (text : List ℕ) × (names : List (Option Bytes)) × (ss : List Statement) × (i : ℕ)
        × (spec.deck text ≡ Ok ss) × (i < length ss) × (statement.now ≡ get_or ss i statement.now)
        × Kept names ss i reader.old builder.old }
    ensures { OnOk result ((names : List (Option Bytes)) (ss : List Statement) (i : ℕ)
        → i < length ss → statement.now ≡ get_or ss i statement.now
        → Kept names ss i reader.old builder.old → Kept names ss (i + 1) reader.new builder.new) }
{
    decks_fit();
    trees_fit();
    let given = reader.read(alloc, statement)?;
    if let Some(tree) = given {
        builder.put(alloc, &tree.statement)?;
    }
    Ok(())
}

// The image of a deck without faults, made statement by statement: the tree of each goes before the next is read.
// Strings are kept in the arena.
fn draft_of<'a>(alloc: Global, arena: &'a Bump, deck: &[u8]) -> Result<Draft<'a>, Refusal>
    ensures draft { IfOk result (IsDraftFor deck.now) }
    ensures refused { IfErr result (IsRefusalOf deck.now) }
{
    decks_fit();
    let texts = Bump::new(alloc);
    let deck = view_deck(alloc, &texts, deck)?;
    let statements = deck.statements.as_slice();
    let labels = labels_of(alloc, statements)?;
    let mut builder = ImageBuilder::new(alloc, arena, &labels)?;
    let mut reader = Reader::new(alloc);
    for statement in statements {
        put_next(alloc, &mut reader, &mut builder, statement)?;
    }
    reader.finish(alloc)?;
    let cards = cards_of(alloc, statements)?;
    let draft = builder.finish(alloc, &labels, cards)?;
    Ok(draft)
}

/// The module of a deck, or why the deck is refused.
pub fn compile_deck(alloc: Global, deck: &[u8]) -> Result<Vec<u8>, Refusal>
    // A deck that is accepted has no fault.
    ensures accepted { OnOk result ((ss : List tree.Stmt) × (verdict deck.now ≡ Accepted ss)) }
    // The module is well-formed, and does what the deck's statements mean, on all inputs.
    ensures module { IfOk result (λ bytes. IsModuleOf deck.now bytes.items) }
    // A deck is refused by exactly its faults; want of memory says nothing of the deck.
    ensures refused { IfErr result (IsRefusalOf deck.now) }
{
    let arena = Bump::new(alloc);
    let draft = draft_of(alloc, &arena, deck)?;
    let module = draft.write(alloc)?;
    Ok(module)
}
