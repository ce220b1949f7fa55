//! Pattern code at run time: instructions, code that is shared by its clones, and the joining of codes.
//!
//! `PatCode` is the code of a pattern: `lit` and `prim` make that of a part, and `get` gives an instruction by its place.
//! `Pattern` is a pattern as a value: a literal, a part that has a count or BREAK of few bytes in place, or code. `cat`,
//! `alt`, `arbno`, `fence_of`, `cond` and `imm` join patterns, and copy no code that nothing else shares.
//! `Led` is code behind a part that is another one each time, which is put together in the same memory again.
//! `Set` is a set of bytes: a table that is made once where the pattern is made, and that the clones of its code share.
//!
//!     let letters = Pattern::arbno(alloc, Pattern::lit(text))?;
//!     let code = letters.into_code(alloc)?;
//!
//! Promised: if the parts' code stands for their patterns (`model`'s `Stands`), the result stands for the joined
//! pattern; refused by want of memory alone.
#![tactic(auto)]

mod code;
mod copies;
mod instr;
mod join;
mod led;
mod pattern;
mod set;
mod single;

pub use code::PatCode;
pub use instr::{Basic, Instr, Kind, Name};
pub use led::Led;
pub use pattern::{Counted, Pattern};
pub use set::{Set, break_at};
