//! What is reported of a run as it goes, or at its end.
//!
//! `Trace` writes a line for each statement that begins, `Profile` counts how often each statement ran, failed and how
//! many steps it took, and `Dump` has what the run holds when it is over. Each is a `WatchRun`, and `Reports` is
//! all of them that are wanted.
//!
//!     let statements = Statements::of(alloc, &sources)?;
//!     let mut reports = Reports { trace: None, profile: Some(Profile::new(alloc)), dump: None };
//!     let ran = watch_deck(alloc, sources.bytes(), &mut units, bound, &mut reports)?;
//!
//! Promised: each call returns. What is written is tested. That a run does what it does unwatched is promised by
//! `watch_deck` of `driver`.
#![tactic(auto)]

mod dump;
mod dump_values;
mod objects;
mod profile;
mod profile_lines;
mod reports;
mod statements;
mod trace;

pub use dump::Dump;
pub use profile::Profile;
pub use profile_lines::put_profile;
pub use reports::Reports;
pub use statements::Statements;
pub use trace::Trace;
