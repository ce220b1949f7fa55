//! From bytes to a checked module, as the machine reads it.
//!
//! `load(alloc, bytes)` gives a `Module` or the fault that is reported: F1 to F7 of the bytes, W1 to W5 of the image. A
//! module is read by place (`at`), by number (`statement`, `card`, `string`, ..) and by name (`label`).
//! `load_v1` gives the image of bytes that were written in version 1 of the format.
//!
//!     let module = load(alloc, &bytes)?;
//!     let first = module.entry();
//!
//! Promised: bytes are accepted exactly if they spell a well-formed image, want of memory aside; else the one defined
//! fault is reported. So a `Module` is well-formed by its type. CALLING.md has the clauses.
#![tactic(auto)]

mod code;
mod decoding;
mod instrs;
mod joining;
mod labels;
mod leads;
mod loading;
mod module;
mod names;
mod patterns;
mod places;
mod tables;

pub use decoding::Decoded;
pub use loading::{load, load_v1};
pub use module::Module;
