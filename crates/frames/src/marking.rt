//! The objects that operands hold are marked.

ghost use Rattle.std.specs.Prelude.{◌≡◌, ◌++◌, OnOk, true};
ghost use Rattle.heap.specs.Marked.{HasMarked, marks_in};
ghost use Rattle.frames.specs.Frames.{AreCalls, IsCall};
ghost use Rattle.frames.specs.View.{operand_of, operands_of};
ghost use Rattle.model.specs.Machine.Living.{OperandLives, OperandsLive};

use crate::frame::{Frame, Waiting};
use crate::operand::Operand;
use crate::stack::Stack;
use heap::Marks;
use std::alloc::AllocError;
use values::mark_name;

impl Operand {
    // Marks the object that it holds.
    fn mark(&self, marks: &mut Marks) -> Result<(), AllocError>
        ensures lives { OnOk result (OperandLives (marks_in marks.new) (operand_of self.now)) }
        ensures grown { OnOk result (HasMarked marks.old marks.new) }
    {
        match self {
            Operand::Value(value) => value.mark(marks),
            Operand::Name(named) => mark_name(&named.name, marks),
            Operand::Span(_) => Ok(()),
        }
    }
}

/// Marks the objects that operands hold, those under what waits too.
pub fn mark_operands(operands: &Stack<Operand>, marks: &mut Marks) -> Result<(), AllocError>
    ensures lives { OnOk result
        (OperandsLive (marks_in marks.new) (operands_of (operands.now.top ++ operands.now.under))) }
    ensures grown { OnOk result (HasMarked marks.old marks.new) }
{
    let items = operands.as_slice();
    for operand in items {
        operand.mark(marks)?;
    }
    Ok(())
}

// Whether a frame is a call.
fn is_call(frame: &Frame) -> bool
    ensures { result ≡ true → IsCall frame.now }
{
    match &frame.waiting {
        Waiting::Call { .. } => true,
        Waiting::Match { .. } => false,
    }
}

/// Whether each frame is a call.
pub fn are_calls(frames: &Stack<Frame>) -> bool
    ensures { result ≡ true → AreCalls (frames.now.top ++ frames.now.under) }
{
    let items = frames.as_slice();
    for frame in items {
        if !is_call(frame) {
            return false;
        }
    }
    true
}
