//! Handlers, and where a failure leads.

ghost use Rattle.std.specs.Prelude.{◌≡◌, ◌∷◌, ℕ, List, drop};
ghost use Rattle.frames.specs.View.{operands_of, handlers_of};
ghost use Rattle.frames.specs.Failing.{IsInBegin, IsInTry, caught_by, kept_by, caught_at};
ghost use Rattle.model.specs.Machine.Steps as m;
ghost use Rattle.model.specs.Machine.Steps.{Frame, MW, State, fail_to, unbegin, untry};

use crate::operand::Operand;
use crate::stack::Stack;

/// What a failure leads to, by its place: BEGIN's, under which there is no operand, or a TRY's with the number of
/// operands under it.
#[derive(Clone, Copy)]
pub enum Handler {
    Begin { target: usize },
    Try { target: usize, depth: usize },
}

/// Where a failure leads. That of a statement is counted.
#[derive(Clone, Copy)]
pub enum Caught {
    Statement { target: usize },
    Try { target: usize },
}

/// Takes off the newest handler, BEGIN's.
pub fn pop_begin(handlers: &mut Stack<Handler>)
    requires { IsInBegin handlers.old.top }
    ensures rest { handlers.new ≡ record handlers.old { top = drop 1 handlers.old.top } }
    ensures pops { (o : ℕ → ℕ) (w : MW) (k : List m.Handler → State)
        → unbegin (handlers_of o handlers.old.top) w k ≡ k (handlers_of o handlers.new.top) }
{
    let _handler = handlers.pop();
}

/// Takes off the newest handler, a TRY's.
pub fn pop_try(handlers: &mut Stack<Handler>)
    requires { IsInTry handlers.old.top }
    ensures rest { handlers.new ≡ record handlers.old { top = drop 1 handlers.old.top } }
    ensures pops { (o : ℕ → ℕ) (w : MW) (k : List m.Handler → State)
        → untry (handlers_of o handlers.old.top) w k ≡ k (handlers_of o handlers.new.top) }
{
    let _handler = handlers.pop();
}

/// A failure: takes off the newest handler, drops the operands that it doesn't keep, and returns where to go on. Without
/// a handler there is nowhere, and nothing changes.
pub fn fail(operands: &mut Stack<Operand>, handlers: &mut Stack<Handler>) -> Option<Caught>
    ensures caught { result ≡ caught_by handlers.old.top }
    ensures operands { operands.new
        ≡ record operands.old { top = kept_by handlers.old.top operands.old.top } }
    ensures handlers { handlers.new ≡ record handlers.old { top = drop 1 handlers.old.top } }
    ensures leads { (o : ℕ → ℕ) (fs : List Frame) (w : MW) →
        fail_to (handlers_of o handlers.old.top) (operands_of operands.old.top) fs w
        ≡ caught_at o result (operands_of operands.new.top) (handlers_of o handlers.new.top) fs w }
{
    if handlers.is_empty() {
        return None;
    }
    match handlers.pop() {
        Handler::Begin { target } => {
            operands.cut(0);
            Some(Caught::Statement { target })
        }
        Handler::Try { target, depth } => {
            operands.cut(depth);
            Some(Caught::Try { target })
        }
    }
}
