//! Warnings of decks: what is no fault, but seldom meant.
//!
//! `warnings_of(alloc, sources, severity, faults)` gives the warnings of a deck, in the order of its cards, but for those of
//! statements that have these faults.
//!
//!     let warnings = warnings_of(alloc, &sources, Severity::Warning, &[])?;
//!
//! Promised: the call returns. Which warnings there are is tested.
#![tactic(auto)]

mod cards;
mod decks;
mod names;
mod statements;
mod uses;
mod warning;

pub use decks::warnings_of;
