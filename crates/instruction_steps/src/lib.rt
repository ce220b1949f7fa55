//! The state of a run outside of its matches, and the instructions of a module, one at a time.
//!
//! `State` is where a run stands and what it holds, upon frames that wait and that it doesn't know. `State::execute` makes
//! one instruction; those that match or call are made by who has the frames, of parts that stand here.
//!
//!     let done = state.execute(&module, module.at(state.place), state.place + 1, &mut units);
//!
//! Promised: each does what `act` of the definitions does, upon any frames, and says why it doesn't go on in the code where
//! it doesn't (`Exit`). CALLING.md has the clauses.
#![tactic(auto)]

mod callers;
mod elements;
mod failing;
mod gotos;
mod instructions;
mod matches;
mod operators;
mod patterns;
mod predicates;
mod resuming;
mod slots;
mod state;
mod status;
mod variables;

pub use gotos::{entry_noted, entry_of};
pub use matches::{number_of, value_told};
pub use slots::{NO_STRING, note, slot_at};
pub use state::{State, is_of_call};
pub use status::{Exit, Halt};
