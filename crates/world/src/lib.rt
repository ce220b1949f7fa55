//! The world of a run: variables, keywords, functions and objects.
//!
//! `World` has variables by their names and slots, and what a call saves of them and gives back. Crate `operations` has what
//! operators and assignments do with it.
//!
//!     let mut world = World::new(alloc, module.level())?;
//!     let slot = world.enter(&name)?;
//!     world.keep_slots()?;
//!
//! Promised: each is its definition in `model` (`Operators`, `Calls`), errors and failures included. CALLING.md says how
//! results are stated.
#![tactic(auto)]

mod associations;
mod calls;
mod counts;
mod functions;
mod lookup;
mod marking;
mod views;
mod world;

pub use calls::{Given, Kept};
pub use world::{World, is_zero};
