//! Messages for people, and the decks that they are about.
//!
//! `Message` is what is said of a file, a card, a statement or a run, `write_messages(alloc, form, messages, deck, errors)`
//! writes some in a form, and `Sources` are decks that are read as one, with where their cards are.
//!
//!     write_messages(alloc, Form::Lines, &messages, sources.bytes(), &mut errors)?;
//!
//! Promised: each call returns. What is written is tested.
#![tactic(auto)]

mod json;
mod message;
mod sources;
mod writing;

pub use message::{CardPlace, Message, Severity};
pub use sources::{Cards, Sources};
pub use writing::{Form, write_messages};
