//! Laws of the image of an accepted deck. Each function does nothing; its contract states laws.
//!
//! `accepted_images` is the main one: the image that the definitions give an accepted deck has a spelling, is
//! well-formed, does what the deck means, and ends and prints in time. `accepted_trees` has what the trees of such a deck
//! keep, `placed_images` that the code of each statement and expression stands in the image.
//!
//! To use a law, call its function, and cite its clause in the proof of the caller:
//!
//!     accepted_images();
//!
//! Promised: the laws hold for the whole language.
#![tactic(auto)]

mod laws;

pub use laws::{accepted_images, accepted_trees, placed_images};
