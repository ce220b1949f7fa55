//! From the bytes of a deck to the texts of its statements, or the first fault of its cards.
//!
//! `read_deck(alloc, bytes)` gives the deck's statements up to and with END, each with its number, card and text; or
//! the fault of the least card, C1 to C6, and there the least.
//!
//!     let deck = read_deck(alloc, b" OUTPUT = 'HI'\nEND\n")?;
//!
//! `view_deck(alloc, &arena, bytes)` does the same without a copy of texts that stand on one card.
//!
//! Promised: each is the definition `deck` of `model`'s `Cards`, both ways, for every list of bytes; C7 says that a
//! growth of memory was refused, in place of any other result.
#![tactic(auto)]

ghost use Rattle.std.specs.Prelude.{◌≡◌, ◌≢◌, ◌≤◌, length, IfOk, IfErr, Ok, Err};
ghost use Rattle.model.specs.declared.cards.CardRule.TheVariants as rule;
ghost use Rattle.model.specs.Deck.Cards as cards;

mod kinds;
mod lines;
mod reader;
mod views;

use crate::lines::next_line;
use crate::reader::Reader;
use bumpalo::Bump;
use model::{CardFault, CardRule, Deck};
use std::alloc::{AllocError, Global};
pub use views::{DeckView, StatementView};

/// The most bytes of a deck.
const LONGEST_DECK: usize = 16_777_216;

// The deck's statements or its first fault, for a deck that isn't too long.
fn read_cards<'a>(
    alloc: Global,
    arena: &'a Bump,
    deck: &'a [u8],
) -> Result<Result<DeckView<'a>, CardFault>, AllocError>
    requires { length deck.now ≤ 16777216 }
    ensures statements { IfOk result (λ read.
        IfOk read (λ d. cards.deck_of (cards.cards deck.now) (cards.ended (cards.cards deck.now))
        ≡ Ok d.statements)) }
    ensures fault { IfOk result (λ read.
        IfErr read (λ f. cards.deck_of (cards.cards deck.now) (cards.ended (cards.cards deck.now))
        ≡ Err f)) }
{
    let mut reader = Reader::new(alloc, arena);
    let mut rest = deck;
    let mut card: u32 = 1;
    while let Some((line, more)) = next_line(rest) {
        if reader.read_card(alloc, card, line)? {
            return Ok(reader.finish());
        }
        rest = more;
        card += 1;
    }
    Ok(Err(reader.without_end(alloc, card)?))
}

const NO_MEMORY: CardFault = CardFault {
    card: 0,
    rule: CardRule::Memory,
};

/// The statements of a deck up to and with END, or its first fault: the least card's, and there the least rule's.
/// A refused growth of memory is reported at card 0 in place of any other fault. Texts that stand on several cards are
/// kept in the arena.
pub fn view_deck<'a>(
    alloc: Global,
    arena: &'a Bump,
    deck: &'a [u8],
) -> Result<DeckView<'a>, CardFault>
    ensures statements { IfOk result (λ d. cards.deck deck.now ≡ Ok d.statements) }
    ensures fault { IfErr result (λ f. f.rule ≢ rule.Memory → cards.deck deck.now ≡ Err f) }
    ensures memory { IfErr result (λ f. f.rule ≡ rule.Memory → f ≡ cards.fault 0 rule.Memory) }
{
    if deck.len() > LONGEST_DECK {
        return Err(CardFault {
            card: 0,
            rule: CardRule::DeckTooLong,
        });
    }
    match read_cards(alloc, arena, deck) {
        Ok(read) => read,
        Err(_) => Err(NO_MEMORY),
    }
}

/// The statements of a deck up to and with END, each with a text of its own, or its first fault as `view_deck` has it.
pub fn read_deck(alloc: Global, deck: &[u8]) -> Result<Deck, CardFault>
    ensures statements { IfOk result (λ d. cards.deck deck.now ≡ Ok d.statements) }
    ensures fault { IfErr result (λ f. f.rule ≢ rule.Memory → cards.deck deck.now ≡ Err f) }
    ensures memory { IfErr result (λ f. f.rule ≡ rule.Memory → f ≡ cards.fault 0 rule.Memory) }
{
    let arena = Bump::new(alloc);
    let view = view_deck(alloc, &arena, deck)?;
    match view.to_deck(alloc) {
        Ok(deck) => Ok(deck),
        Err(_) => Err(NO_MEMORY),
    }
}
