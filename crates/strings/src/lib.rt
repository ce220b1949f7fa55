//! Byte strings of the run time: shared texts, sets of bytes, and the texts of integers.
//!
//! `Text` is a list of bytes that its clones share: `from_slice`, `concat`, `sub`, `dupl`, `replace` and `int_text`
//! make one. `ByteSet` with `span_end` and `break_end` looks for bytes; `read_int` reads an integer.
//!
//!     let whole = Text::concat(alloc, &left, &right, limit)?;
//!     let first = whole.sub(0, 1)?;
//!
//! Promised: each call is its function on lists of bytes; it is refused exactly where the result would be longer than
//! the limit, or for want of memory.
#![tactic(auto)]

mod bytes;
mod equality;
mod fault;
mod text;

pub use bytes::{ByteSet, break_end, read_int, span_end, trim_end};
pub use fault::StrFault;
pub use text::{InlineBytes, SharedBytes, Text};
