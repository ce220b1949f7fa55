//! Where on the cards of a deck something stands, those of a faulty deck too.
//!
//! `cut_text(alloc, text)` cuts a statement's text into pieces, `fault_notes(alloc, bytes, deck, faults)` finds the cards
//! and columns of faulty statements, `notes_of` and `locate` do so where a caller moves what is to be found, and `Walk`
//! goes over the bytes of cards as they are joined to statements.
//!
//!     let notes = fault_notes(alloc, bytes, &deck, &faults)?;
//!
//! Promised: each call returns. Cards and columns are tested.
#![tactic(auto)]

mod cut;
mod notes;
mod places;
mod walk;

pub use cut::{Piece, PieceKind, cut_text};
pub use notes::{FaultPlace, fault_notes, locate, notes_of};
pub use walk::{Joined, Spot, Walk, columns, joining, next_line};
