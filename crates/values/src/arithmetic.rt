//! Arithmetic on values. It takes no memory.

ghost use Rattle.std.specs.Prelude.{◌≡◌, ◌≤ℤ◌, pos};
ghost use Rattle.model.specs.Machine.Steps.{MW};
ghost use Rattle.model.specs.Language.Operators.{arith_op, arith_of, sign_op, sign_of, raised, power};
ghost use Rattle.model.specs.Language.Values.{Int};
ghost use Rattle.values.specs.Values.{value_of};
ghost use Rattle.values.specs.Answers.{answer_map, conv_of, integer_or_error, op_of};

use crate::value::Value;
use model::{ArithOp, ErrorCode, SignOp};

/// A sum, a difference, a product, a quotient or a power, which is an integer.
#[inline(always)]
pub fn arith(op: ArithOp, left: &Value, right: &Value) -> Result<i64, ErrorCode>
    ensures { (w : MW) → op_of (answer_map Int result) w
        ≡ arith_op op (value_of left.now) (value_of right.now) w }
{
    let a = left.to_int()?;
    let b = right.to_int()?;
    arith_of(op, a, b)
}

/// The same of two integers.
#[inline(always)]
pub fn arith_integers(op: ArithOp, left: i64, right: i64) -> Result<i64, ErrorCode>
    ensures { (w : MW) → op_of (answer_map Int result) w ≡ arith_op op (Int left) (Int right) w }
{
    arith_of(op, left, right)
}

/// The integer of a value, or the one with the other sign.
pub fn sign(op: SignOp, value: &Value) -> Result<Value, ErrorCode>
    ensures { (w : MW) → op_of (answer_map value_of result) w ≡ sign_op op (value_of value.now) w }
{
    let a = value.to_int()?;
    Ok(Value::Integer(sign_of(op, a)?))
}

#[inline(always)]
fn arith_of(op: ArithOp, a: i64, b: i64) -> Result<i64, ErrorCode>
    ensures { conv_of result ≡ arith_of op a b }
{
    operated(op, a, b).ok_or(ErrorCode::Arithmetic)
}

// What an operator gives, or nothing where that is an error. Sums and differences are made in line, unless they overflow:
// that they are then made once more leaves LLVM nothing to join with them.
#[inline(always)]
fn operated(op: ArithOp, a: i64, b: i64) -> Option<i64>
    ensures { integer_or_error result ≡ arith_of op a b }
{
    if let ArithOp::Subtract = op {
        if let Some(difference) = a.checked_sub(b) {
            return Some(difference);
        }
    } else if let ArithOp::Add = op {
        if let Some(sum) = a.checked_add(b) {
            return Some(sum);
        }
    }
    let n = operated_apart(op, a, b)?;
    Some(n)
}

// The same by a call.
#[inline(never)]
fn operated_apart(op: ArithOp, a: i64, b: i64) -> Option<i64>
    ensures { integer_or_error result ≡ arith_of op a b }
{
    match op {
        ArithOp::Add => a.checked_add(b),
        ArithOp::Subtract => a.checked_sub(b),
        ArithOp::Multiply => a.checked_mul(b),
        ArithOp::Divide => a.checked_div(b),
        ArithOp::Power => raised(a, b),
    }
}

fn sign_of(op: SignOp, a: i64) -> Result<i64, ErrorCode>
    ensures { conv_of result ≡ sign_of op a }
{
    match op {
        SignOp::Plus => Ok(a),
        SignOp::Minus => a.checked_neg().ok_or(ErrorCode::Arithmetic),
    }
}

// A power whose exponent isn't negative.
#[inline(never)]
fn raised(base: i64, exponent: i64) -> Option<i64>
    ensures { integer_or_error result ≡ raised base exponent }
{
    if exponent < 0 {
        return None;
    }
    let mut product = 1i64;
    for _turn in 0..short_exponent(base, exponent as u64) {
        match base.checked_mul(product) {
            Some(next) => product = next,
            None => return None,
        }
    }
    Some(product)
}

// An exponent with which the power is the same. It is at most 2 for the bases whose powers never overflow.
fn short_exponent(base: i64, exponent: u64) -> u64
    ensures { power base result ≡ power base exponent }
{
    if exponent > 2 && -1 <= base && base <= 1 {
        return 2 - exponent % 2;
    }
    exponent
}
