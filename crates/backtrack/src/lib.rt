//! The trail of a match: where the attempt under way stands, and the choices that are gone back to.
//!
//! `Trail` has the attempt's code, its notes and its pending assignments, and a stack of choices. `keep` keeps one more.
//! `retry` goes back to the newest if it is an alternative in the code under way. `recover` makes the code of the newest
//! the one under way; then `rewind` goes back to it, whatever it is.
//!
//!     let mut trail = Trail::new(alloc);
//!     trail.begin(&code)?;
//!     trail.keep(WayBack::To(3), place, cursor)?;
//!     trail.recover()?;
//!     let choice = trail.rewind();
//!
//! Promised: what it goes back to is the attempt as it was when the choice was kept (`Standing` of
//! `specs/Standing.antt`). A choice takes 32 bytes at most, and no copy of notes or assignments.
#![tactic(auto)]

mod assignment;
mod trail;
mod way_back;

pub use assignment::Assignment;
pub use trail::Trail;
pub use way_back::WayBack;
