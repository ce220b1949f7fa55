//! What a run has put on and not yet taken off: operands, handlers, and the match under way.
//!
//! `Stack<T>` holds the operands or the handlers of a whole run: `pop_value`, `pop_name`, `pop_span` and `pop_values`
//! take operands off, `fail` returns where a failure leads. A `Frame` is what waits for the code that runs. `Matching` is
//! a match with what goes on after it: `go_on` makes steps, `event` returns the event, `supply` answers, with what
//! `answer` makes of a value.
//!
//!     operands.push(Operand::Value(value))?;
//!     let value = pop_value(&mut operands);
//!
//! Promised: each call is its function on the definitions' lists, and a match makes as many steps of the machine as it
//! reports. Popping asks that such an operand lies on top. CALLING.md has a row for each call.
#![tactic(auto)]

mod answering;
mod frame;
mod handler;
mod literal;
mod marking;
mod matching;
mod operand;
mod stack;

pub use answering::answer_of;
pub use frame::{Frame, Waiting};
pub use handler::{Caught, Handler, fail, pop_begin, pop_try};
pub use marking::{are_calls, mark_operands};
pub use matching::Matching;
pub use operand::{
    Named, Operand, pop_name, pop_span, pop_value, pop_values, replace_integers, top_name,
};
pub use stack::Stack;
