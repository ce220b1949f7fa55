//! Decks of other SNOBOL4 systems, written as decks of this language.
//!
//! `port(alloc, deck, folds)` writes a deck anew, with notes of what it changed; `include_of(line)` is the file that a card
//! takes in. docs/porting.md says what is changed, and what isn't.
//!
//!     let ported = port(alloc, b"\tOUTPUT = 'HI'\nEND\n", false)?;
//!
//! Promised: each call returns. What decks become is tested.
#![tactic(auto)]

mod cards;
mod characters;
mod decks;
mod library;
mod notes;
mod texts;
mod units;

pub use cards::include_of;
pub use decks::{Ported, port};
pub use notes::{Change, PortNote};
