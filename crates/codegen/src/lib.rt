//! Code of programs: labels, statements, bodies and gotos, on top of `expr_codegen`.
//!
//! An `ImageBuilder` takes the statements of a program one by one, once the labels that they give are known.
//!
//!     let arena = Bump::new(alloc);
//!     let mut builder = ImageBuilder::new(alloc, &arena, &names)?;
//!     builder.put(alloc, &statement)?;
//!     let draft = builder.finish(alloc, &names, cards)?;
//!     let module = draft.write(alloc)?;
//!
//! Promised: exactly the image that the definitions give the program, for the whole language, and its one spelling; it
//! is refused by want of memory alone. It asks that the program's counts fit (`Fits`), as those of each accepted deck do. That such an image
//! is well-formed and does what the deck means are laws of the definitions, proved in `codegen_laws`.
#![tactic(auto)]

mod bodies;
mod building;
mod gotos;
mod labels;
mod statements;

pub use bodies::body;
pub use building::{Draft, ImageBuilder};
pub use gotos::{after_failure, after_success, place};
pub use labels::{Labels, labels_of};
pub use statements::statement;
