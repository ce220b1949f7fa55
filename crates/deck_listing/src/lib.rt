//! The listing of a deck: its cards, what is wrong with them, and its instructions.
//!
//! `list(alloc, style, has_code, bytes, out)` writes it in lines of a `Style`. docs/listing.md has the rules.
//!
//!     let is_faultless = list(alloc, Style::new(80, false), false, b"END\n", &mut out)?;
//!
//! Promised, of `list`: a deck that it calls faultless has trees and each of its statements runs; any other is refused by
//! exactly its faults. Lines, carets and sentences are tested.
#![tactic(auto)]

mod cards;
mod code;
mod decks;
mod lines;

pub use decks::{Trouble, list};
pub use lines::Style;
