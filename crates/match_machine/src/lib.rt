//! The matcher: pattern code on a subject, step by step.
//!
//! `Matcher::start(alloc, code, subject, anchored)` is a match before its first step; `go_on(bound)` makes steps up to
//! the next event, which `event()` returns; `supply(answer)` answers the question that it asks.
//!
//!     let mut matcher = Matcher::start(alloc, code, subject, false);
//!     let steps = matcher.go_on(1_000)?;
//!     let event = matcher.event();
//!
//! Promised: events and ends are those of the pattern steps of `model`'s `Steps`, step for step; after a refusal of
//! memory it refuses from then on. By a law of `model` these are the answers of the search that the language defines.
#![tactic(auto)]

mod again;
mod event;
mod falls;
mod glide;
mod matcher;
mod one_pass;
mod run;
mod state;
mod step;
mod turn;

pub use backtrack::Assignment;
pub use event::{Answer, Event, Told, Want};
pub use matcher::Matcher;
pub use one_pass::{Capture, MatchedPart, OnePassMatch, match_in_one_pass};
pub use run::between;
