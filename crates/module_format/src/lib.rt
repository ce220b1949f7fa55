//! Modules as bytes: the one spelling of an image, and the image that bytes spell.
//!
//! `write_image(alloc, &image)` gives the bytes, `write_parts` those of an image whose code is bytes already;
//! `read_image(alloc, bytes)` gives the image or the first fault and its offset; `view_image` the same without a copy
//! of strings and code; `view_image_v1` reads what was written in version 1 of the format.
//!
//!     let bytes = write_image(alloc, &image)?;
//!     let same = read_image(alloc, &bytes)?;
//!
//! Promised: what is written is the image's one spelling (`model`'s `Spelling`); bytes are read exactly where they
//! spell an image, and else the defined fault F1 to F6 is reported at its offset; F7 says that a growth of memory was
//! refused. Nothing is reserved for a count before it is checked. Whether an image is well-formed is not asked here,
//! but by `loader`.
#![tactic(auto)]

mod code;
mod fields;
mod instrs;
mod reading;
mod strings;
mod tables;
mod view;
mod writing;

pub use instrs::{Instrs, Listed, instrs_of};
pub use reading::{read_image, view_image, view_image_v1};
pub use view::ImageView;
pub use writing::{ImageParts, write_image, write_parts};
