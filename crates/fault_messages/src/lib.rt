//! Messages of decks and modules that are refused, of files, and of runs.
//!
//! `of_refusal(alloc, sources, refusal)` says why a deck is refused, a message for each faulty statement, `of_module` why a
//! module is, `of_run` how a run ended that didn't end normally, and `of_file` that a file can't be read or written.
//!
//!     let messages = of_refusal(alloc, &sources, &refusal)?;
//!
//! Promised: each call returns. What the messages say is tested.
#![tactic(auto)]

mod endings;
mod faults;
mod files;
mod mistakes;

pub use endings::of_run;
pub use faults::{of_memory, of_module, of_refusal};
pub use files::of_file;
