//! A deck's trees, or its faulty statements.
//!
//! A `Reader` takes the statements of a deck one by one. It cuts each into tokens, gives its tree, and asks the rules
//! of whole decks: labels, arguments, keywords, targets, the entry label.
//!
//!     let mut reader = Reader::new(alloc);
//!     for statement in deck.statements.as_slice() {
//!         if let Some(tree) = reader.read(alloc, statement)? { .. }
//!     }
//!     reader.finish(alloc)?;
//!
//! `labels_of(alloc, statements)` gives the labels that the statements of a deck without faults give, before any is
//! read.
//!
//! Promised: the trees exactly where the definitions accept the deck; else all faulty statements in order, each with
//! its least cause, L1 to L5 or P1 to P6. Want of memory is a result of its own.
#![tactic(auto)]

mod deck;
mod labels;
mod reading;
mod rules;
mod statements;

pub use deck::{cards_of, labels_of};
pub use reading::Reader;
