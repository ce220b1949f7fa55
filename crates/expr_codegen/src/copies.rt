//! Copies of expressions, which stay where the trees that they were taken from go.
//!
//! Operands nest on the stack, so a copy is handed up behind a pointer.

ghost use Rattle.std.specs.Prelude.{◌≡◌, IfOk};
ghost use Rattle.model.specs.Deck.TreeViews.{args_of, arg_of, expr_of};
ghost use Rattle.model.specs.Deck.Trees as trees;

use model::{Argument, Binary, Expr, Unary};
use std::alloc::{AllocError, Global};
use std::rc::Rc;
use tree_drops::ExprTree;

#[inline(never)]
fn node(alloc: Global, e: Expr) -> Result<Box<Expr>, AllocError>
    ensures { IfOk result (λ b. expr_of b.value ≡ expr_of e) }
{
    Ok(Box::new(alloc, e)?)
}

#[inline(never)]
fn name(alloc: Global, x: &[u8]) -> Result<Box<Expr>, AllocError>
    ensures { IfOk result (λ b. expr_of b.value ≡ trees.Name x.now) }
{
    node(alloc, Expr::Name(Vec::from_slice(alloc, x)?))
}

#[inline(never)]
fn literal(alloc: Global, s: &[u8]) -> Result<Box<Expr>, AllocError>
    ensures { IfOk result (λ b. expr_of b.value ≡ trees.Literal s.now) }
{
    node(alloc, Expr::Literal(Vec::from_slice(alloc, s)?))
}

#[inline(never)]
fn keyword(alloc: Global, k: &[u8]) -> Result<Box<Expr>, AllocError>
    ensures { IfOk result (λ b. expr_of b.value ≡ trees.Keyword k.now) }
{
    node(alloc, Expr::Keyword(Vec::from_slice(alloc, k)?))
}

#[inline(never)]
fn call(alloc: Global, f: &[u8], args: Vec<Argument>) -> Result<Box<Expr>, AllocError>
    ensures { IfOk result (λ b. expr_of b.value ≡ trees.Call f.now (args_of args.items)) }
{
    let name = Vec::from_slice(alloc, f)?;
    node(alloc, Expr::Call(name, args))
}

#[inline(never)]
fn reference(alloc: Global, a: &[u8], args: Vec<Argument>) -> Result<Box<Expr>, AllocError>
    ensures { IfOk result (λ b. expr_of b.value ≡ trees.Reference a.now (args_of args.items)) }
{
    let name = Vec::from_slice(alloc, a)?;
    node(alloc, Expr::Reference(name, args))
}

#[inline(never)]
fn unary(alloc: Global, op: Unary, x: Box<Expr>) -> Result<Box<Expr>, AllocError>
    ensures { IfOk result (λ b. expr_of b.value ≡ trees.Apply op (expr_of x.value)) }
{
    Ok(Box::new(alloc, Expr::Unary(op, x))?)
}

#[inline(never)]
fn binary(alloc: Global, op: Binary, x: Box<Expr>, y: Box<Expr>) -> Result<Box<Expr>, AllocError>
    ensures { IfOk result (λ b.
        expr_of b.value ≡ trees.Combine op (expr_of x.value) (expr_of y.value)) }
{
    Ok(Box::new(alloc, Expr::Binary(op, x, y))?)
}

#[inline(never)]
fn integer(alloc: Global, z: i64) -> Result<Box<Expr>, AllocError>
    ensures { IfOk result (λ b. expr_of b.value ≡ trees.Integer z) }
{
    node(alloc, Expr::Integer(z))
}

// A copy of an expression.
#[cycle(copy)]
fn copied(alloc: Global, e: &Expr) -> Result<Box<Expr>, AllocError>
    ensures { IfOk result (λ b. expr_of b.value ≡ expr_of e.now) }
{
    match e {
        Expr::Name(x) => name(alloc, x),
        Expr::Integer(z) => integer(alloc, *z),
        Expr::Literal(s) => literal(alloc, s),
        Expr::Keyword(k) => keyword(alloc, k),
        Expr::Call(f, args) => copied_call(alloc, f, args),
        Expr::Reference(a, args) => copied_reference(alloc, a, args),
        Expr::Unary(op, x) => unary(alloc, *op, copied(alloc, x)?),
        Expr::Binary(op, x, y) => with_right(alloc, *op, copied(alloc, x)?, y),
    }
}

// A binary operator with its left operand, and a copy of the right one.
#[cycle(copy)]
#[inline(never)]
fn with_right(
    alloc: Global,
    op: Binary,
    left: Box<Expr>,
    right: &Expr,
) -> Result<Box<Expr>, AllocError>
    ensures { IfOk result (λ b.
        expr_of b.value ≡ trees.Combine op (expr_of left.value) (expr_of right.now)) }
{
    binary(alloc, op, left, copied(alloc, right)?)
}

// A copy of a call.
#[cycle(copy)]
#[inline(never)]
fn copied_call(alloc: Global, f: &[u8], args: &[Argument]) -> Result<Box<Expr>, AllocError>
    ensures { IfOk result (λ b. expr_of b.value ≡ trees.Call f.now (args_of args.now)) }
{
    let arguments = all_copied(alloc, args)?;
    call(alloc, f, arguments)
}

// A copy of a reference.
#[cycle(copy)]
#[inline(never)]
fn copied_reference(alloc: Global, a: &[u8], args: &[Argument]) -> Result<Box<Expr>, AllocError>
    ensures { IfOk result (λ b. expr_of b.value ≡ trees.Reference a.now (args_of args.now)) }
{
    let subscripts = all_copied(alloc, args)?;
    reference(alloc, a, subscripts)
}

// A copy of an argument.
#[cycle(copy)]
#[inline(never)]
fn copied_argument(alloc: Global, argument: &Argument) -> Result<Argument, AllocError>
    ensures { IfOk result (λ a. arg_of a ≡ arg_of argument.now) }
{
    match argument {
        Argument::Absent => Ok(Argument::Absent),
        Argument::Given(e) => Ok(Argument::Given(Box::into_inner(copied(alloc, e)?))),
    }
}

// Copies of arguments.
#[cycle(copy)]
#[inline(never)]
fn all_copied(alloc: Global, args: &[Argument]) -> Result<Vec<Argument>, AllocError>
    ensures { IfOk result (λ copies. args_of copies.items ≡ args_of args.now) }
{
    let mut copies = Vec::with_capacity(alloc, args.len())?;
    for argument in args {
        copies.push(copied_argument(alloc, argument)?)?;
    }
    Ok(copies)
}

/// A copy of an expression, to be kept.
#[inline(never)]
pub(crate) fn kept_copy(alloc: Global, e: &Expr) -> Result<Rc<ExprTree>, AllocError>
    ensures { IfOk result (λ kept. expr_of kept.value.expr ≡ expr_of e.now) }
{
    let copy = copied(alloc, e)?;
    Ok(Rc::new(alloc, ExprTree::new(alloc, Box::into_inner(copy)))?)
}
