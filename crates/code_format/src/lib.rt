//! Instructions of modules as bytes, and back: one spelling each.
//!
//! `put_instr(&instr, &mut bytes)` puts an instruction behind what is there; `first_instr(&bytes)` gives the one in front,
//! and what is behind it. `put_pat_instr` and `first_pat_instr` are the same for instructions of pattern tables.
//!
//!     put_instr(&Instr::Goto(3), &mut bytes)?;
//!     let Some((instr, rest)) = first_instr(&bytes) else {
//!         return None;
//!     };
//!
//! Promised: what is put is the spelling of `model`'s `Spelling`; what spells no instruction is refused with the
//! defined fault and offset, F6 or, for a pattern's operand that is cut, F3. Putting may be refused memory; reading
//! takes none.
#![tactic(auto)]

mod codes;
mod instrs;
mod numbers;
mod pats;

pub use instrs::{first_instr, put_instr};
pub use numbers::{CUT, put_u32, read_u16, read_u32};
pub use pats::{first_pat_instr, put_pat_instr};
