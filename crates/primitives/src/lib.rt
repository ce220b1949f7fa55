//! The primitive functions.
//!
//! `call_prim(alloc, id, &arguments, &mut world)` calls one. It comes to an `Outcome`, that is a value, a name, failure or
//! a function to call, or to a `Fault`.
//!
//!     let outcome = call_prim(alloc, PrimId::Size, &arguments, &mut world)?;
//!
//! `holds(id, first, second)` is a call of one that `is_test`: it says something of two values and takes no memory.
//!
//! `integers_compare` is one that compares the integers of two values.
//!
//! `call_pure(alloc, id, first, second, third, &world)` is a call of one that `is_pure`: it changes nothing.
//!
//! `call_one(alloc, id, value)` is a call with one argument of one that makes a part of a pattern, of SIZE or of TRIM.
//! `replace_strings(alloc, value, from, to)` is a call of REPLACE with three strings.
//!
//! Promised: each is its row of the table, `prim_op` of `model`; a call that gives an error or stops changes nothing.
//! CALLING.md says how another primitive is added.
#![tactic(auto)]

mod applying;
mod call;
mod defining;
mod functions;
mod objects;
mod outcome;
mod patterns;
mod predicates;
mod pure;
mod units;

pub use call::call_prim;
pub use functions::{integers_remainder, replace_strings};
pub use outcome::Outcome;
pub use patterns::call_one;
pub use predicates::{holds, integers_compare, is_test};
pub use pure::{call_pure, is_pure};
