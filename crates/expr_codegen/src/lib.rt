//! Code of expressions, and what it is put into.
//!
//! `value(alloc, &mut generator, &expr)` puts the code of an expression for its value, `name` the code for its name. A
//! `Generator` has the bytes of the code so far, the strings by number, and the unevaluated expressions whose code is still to come.
//!
//!     let arena = Bump::new(alloc);
//!     let mut generator = Generator::new(alloc, &arena);
//!     value(alloc, &mut generator, &expr)?;
//!     let (code, strings) = generator.into_parts();
//!
//! Promised: exactly the instructions, strings and unevaluated expressions that the definitions give the expression,
//! behind those that were there; refused by want of memory alone. Room for them in the limits is asked for.
#![tactic(auto)]

mod copies;
mod expr;
mod generator;
mod single;
mod strings;

pub use expr::{name, value};
pub use generator::Generator;
pub use strings::Strings;
