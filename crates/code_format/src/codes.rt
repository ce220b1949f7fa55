//! The codes of keywords, primitives and operand bytes.

ghost use Rattle.std.specs.Prelude.{◌≡◌, slice_get};

use model::{ArithOp, ReturnKind, SignOp};

/// The one at the place that the code says.
pub(crate) fn coded<T: Copy>(all: &[T], code: u8) -> Option<T>
    ensures { result ≡ slice_get all.now code }
{
    all.get(code as usize).copied()
}

pub(crate) const RETURN_KINDS: [ReturnKind; 3] = [
    ReturnKind::Return,
    ReturnKind::FReturn,
    ReturnKind::NReturn,
];

pub(crate) const SIGN_OPS: [SignOp; 2] = [SignOp::Plus, SignOp::Minus];

pub(crate) const ARITH_OPS: [ArithOp; 5] = [
    ArithOp::Add,
    ArithOp::Subtract,
    ArithOp::Multiply,
    ArithOp::Divide,
    ArithOp::Power,
];
