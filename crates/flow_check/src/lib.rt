//! The flow of a module's code: what each instruction asks, and what the code before it leaves.
//!
//! `check_flow(alloc, &view, code)` follows the code from each statement and each unevaluated expression, and gives the
//! least offset of an instruction that lacks what it asks or is reached in two ways that differ (W3); `None` where
//! there is none.
//!
//!     let broken = check_flow(alloc, &view, instrs_of(&code))?;
//!
//! Promised: exactly the least such offset of `model`'s `Flow`, for every image; refused by want of memory alone. One
//! walk over the code in order.
#![tactic(auto)]

mod check;
mod flow;
mod marks;
mod operands;
mod pool;
mod rules;
mod shapes;
mod slots;

pub use check::check_flow;
