//! What one part of a pattern does at a place, and looks that show that an attempt fails before it begins.
//!
//! `one_end` and `bal_end` are the ends of a part from a place. `fails_at` tells in how many steps an attempt fails, `pass`
//! how many starts a match may pass, and in how many steps.
//!
//!     let passed = pass(bytes, &code, start, left, bound);
//!
//! Promised: the ends are those of the definitions. The steps that are told are those in which an attempt or a start
//! fails by the pattern steps of `model`, whatever is gone back to (`FailsAt` of `specs/Looks.antt`, `ArePassed` of
//! `specs/Starts.antt`).
#![tactic(auto)]

mod ends;
mod look;
mod prefilter;
mod search;

pub use ends::{bal_end, has_one_end, lit_end, one_end};
pub use look::{both_miss, fails_at, jump_from, part_of, parts_beside, target};
pub use prefilter::{Passed, front, idle_from, lost_from, none_passed, pass, pass_part};
pub use search::lit_fails_for;
