//! The parts that trees are made of.

ghost use Rattle.std.specs.Prelude.{◌≡◌, ◌≤◌, length, pos, true, IfOk, map};
ghost use Rattle.model.specs.Deck.Cut.{all, is_digit};
ghost use Rattle.model.specs.Deck.Digits.{decimal_value};
ghost use Rattle.model.specs.Deck.Grammar as grammar;
ghost use Rattle.model.specs.Deck.Tokens.{between_quotes};
ghost use Rattle.model.specs.Deck.Trees as tree;
ghost use Rattle.model.specs.Deck.TreeViews.{args_of, expr_of};
ghost use Rattle.stmt_parser.specs.Powers.{marks_before, powers};
ghost use Rattle.stmt_parser.specs.Views.{boxed_of};

use model::{Argument, Binary, Expr, Unary};
use std::alloc::AllocError;
use tree_drops::FreeParts;

/// Unary operators before an operand, the last of them next to it.
pub(crate) fn applied(
    free: &mut FreeParts,
    marks: Vec<Unary>,
    operand: Box<Expr>,
) -> Result<Box<Expr>, AllocError>
    ensures { IfOk result (λ e. boxed_of e ≡ marks_before marks.items (boxed_of operand)) }
{
    let mut marks = marks;
    let mut found = operand;
    while let Some(op) = marks.pop() {
        found = free.unary(op, found)?;
    }
    Ok(found)
}

/// The operands of `**` with the last, grouped to the right.
pub(crate) fn power(
    free: &mut FreeParts,
    operands: Vec<Box<Expr>>,
    last: Box<Expr>,
) -> Result<Box<Expr>, AllocError>
    ensures { IfOk result (λ e. boxed_of e ≡ powers (map boxed_of operands.items) (boxed_of last)) }
{
    let mut operands = operands;
    let mut right = last;
    while let Some(left) = operands.pop() {
        right = free.binary(Binary::Power, left, right)?;
    }
    Ok(right)
}

/// The number that digits stand for.
pub(crate) fn integer(digits: &[u8]) -> i64
    requires digits { all is_digit digits.now ≡ true }
    requires small { decimal_value digits.now ≤ 9223372036854775807 }
    ensures { result ≡ pos (decimal_value digits.now) }
{
    let mut number: u64 = 0;
    for digit in digits {
        number = 10 * number + u64::from(digit - b'0');
    }
    number as i64
}

/// The bytes between the quotes of a literal.
pub(crate) fn unquoted(text: &[u8]) -> &[u8]
    requires { 2 ≤ length text.now }
    ensures { result.now ≡ between_quotes text.now }
{
    &text[1..text.len() - 1]
}

/// One absent argument is none.
#[tactic(auto, unfolding(model::specs::Deck::TreeViews::args_of))]
pub(crate) fn shown(arguments: Vec<Argument>) -> Vec<Argument>
    ensures { args_of result.items ≡ grammar.shown (args_of arguments.items) }
{
    match arguments.as_slice() {
        [Argument::Absent { .. }] => {
            let mut none = arguments;
            none.clear();
            none
        }
        _ => arguments,
    }
}

/// Whether no argument is absent.
#[tactic(auto, unfolding(model::specs::Deck::TreeViews::args_of))]
pub(crate) fn given(arguments: &[Argument]) -> bool
    ensures { result ≡ grammar.given (args_of arguments.now) }
{
    for argument in arguments {
        if let Argument::Absent = argument {
            return false;
        }
    }
    true
}
