//! What the code before an instruction leaves.

ghost use Rattle.std.specs.Prelude.{◌≡◌};
ghost use Rattle.flow_check.specs.Shapes.{same_shape};

use crate::pool::Stack;

/// A statement's body, its goto, or the evaluation of an expression.
#[derive(Clone, Copy, PartialEq, Eq)]
pub(crate) enum Mode {
    Body,
    Goto,
    Evaluation,
}

/// The mode, and the stacks of operands and of handlers.
#[derive(Clone, Copy)]
pub(crate) struct Shape {
    pub mode: Mode,
    pub kinds: Stack,
    pub depth: u32,
    pub handlers: Stack,
    /// How many of the operands the newest handler keeps.
    pub floor: u32,
}

/// Where an instruction leads, and with what shape: to the next one, and to a target.
#[derive(Clone, Copy)]
pub(crate) struct Led {
    pub next: Option<Shape>,
    pub target: Option<(u32, Shape)>,
}

impl Shape {
    /// Whether these are the numbers of one shape.
    pub(crate) fn is_same(self, other: Shape) -> bool
        ensures { result ≡ same_shape self other }
    {
        self.mode == other.mode && self.kinds == other.kinds && self.handlers == other.handlers
    }
}
