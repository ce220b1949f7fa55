//! Values, their conversions and operators, and what names stand for: variables and functions.
//!
//! `Value` has the conversions (`to_text`, `to_int`, `to_pattern`, ..); `arith`, `alt`, .. are the operators that need no
//! world. `Variable` is a value and its units, `FunctionTable` has the functions that aren't primitive. `mark_values` marks
//! the objects that values hold.
//!
//!     let sum = arith(ArithOp::Add, &left, &right)?;
//!
//! Promised: each is its definition in `model` (`Conversions`, `Operators`), errors and failures included. CALLING.md says
//! how results are stated.
#![tactic(auto)]

mod arguments;
mod arithmetic;
mod conversions;
mod fault;
mod functions;
mod marking;
mod matched;
mod operators;
mod shared_name;
mod value;
mod variable;

pub use arguments::{argument, fill, put_values, slot_at};
pub use arithmetic::{arith, arith_integers, sign};
pub use fault::Fault;
pub use functions::{Function, FunctionTable};
pub use marking::{mark_code, mark_name, mark_values};
pub use matched::{Begun, Span};
pub use operators::{alt, cond, cursor, imm, indir};
pub use shared_name::SharedName;
pub use value::Value;
pub use variable::{NO_SLOT, Variable};
