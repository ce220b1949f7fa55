//! The machine: a run of a module, step by step.
//!
//! `Machine::new(alloc, &module)` is a run before its first step, `run(units, bound)` makes at most `bound` steps more
//! and gives the status; `run_from_entry` is both.
//!
//!     let module = load(alloc, &bytes)?;
//!     let status = run_from_entry(alloc, &module, &mut units, 1_000);
//!
//! Promised: `run(b)` is the machine of the definitions, b steps further, matches included, unless a unit failed or
//! memory was refused; no instruction lacks what it takes. A run that ended or stopped answers the same from then on.
//! CALLING.md has the clauses, and how an instruction is added.
#![tactic(auto)]

mod calls;
mod collecting;
mod joined_calls;
mod machine;
mod run;
mod watching;

pub use joined_steps::WatchRun;
pub use machine::{Machine, run_from_entry};
pub use segment_loop::{Clock, Unwatched, Watch};
pub use watching::watch_from_entry;

/// Where the meaning of a deck ends having used r rules, a run of its module has ended after this many steps for each
/// of r + 1 rules: three of a statement (BEGIN, BODY and its goto), and two of its body (an absent object and the
/// assignment).
pub const STEPS_PER_RULE: u64 = 5;
