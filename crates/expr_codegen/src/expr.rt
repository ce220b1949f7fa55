//! Code of expressions.

ghost use Rattle.std.specs.Prelude.{◌≡◌, ◌<◌, ◌≤◌, ◌+◌, ◌*◌, ◌^◌, length, OnOk};
ghost use Rattle.model.specs.Language.Names.{prim_named};
ghost use Rattle.model.specs.declared.trees.Unary.TheVariants as u;
ghost use Rattle.model.specs.Deck.Trees.{Apply, Combine};
ghost use Rattle.model.specs.Deck.TreeViews.{expr_of, args_of};
ghost use Rattle.model.specs.Deck.Weights.{of_expr, of_args};
ghost use Rattle.expr_codegen.specs.Code as code;
ghost use Rattle.expr_codegen.specs.Emitting.{AddsAtMost, Emits, Extends, Countable, AllCountable, size, most_counted};
ghost use Rattle.expr_codegen.specs.Views as views;
ghost use Rattle.expr_codegen.specs.Views.{gen_of};

use crate::generator::Generator;
use crate::single::{call, keyword, literal, variable};
use model::{Argument, ArithOp, Binary, Expr, Instr, SignOp, Unary};
use std::alloc::{AllocError, Global};

/// Puts the code for the value of an expression.
#[cycle(tree)]
pub fn value(alloc: Global, g: &mut Generator<'_>, e: &Expr) -> Result<(), AllocError>
    requires countable { Countable (expr_of e.now) }
    requires room { size (gen_of g.old) + 9 * of_expr (expr_of e.now) < 2 ^ 31 }
    ensures emits { OnOk result (Emits (code.value (expr_of e.now)) (gen_of g.old) (gen_of g.new)) }
    ensures size { OnOk result
        (AddsAtMost (9 * of_expr (expr_of e.now)) (gen_of g.old) (gen_of g.new)) }
    ensures extends { Extends (gen_of g.old) (gen_of g.new) }
{
    match e {
        Expr::Name(x) => fetched(g, x),
        Expr::Integer(z) => g.put(Instr::Int(*z)),
        Expr::Literal(s) => literal(g, s),
        Expr::Keyword(k) => keyword(g, k),
        Expr::Call(f, args) => called(alloc, g, f, args, false),
        Expr::Reference(x, args) => fetched_element(alloc, g, x, args),
        Expr::Unary(op, x) => applied(alloc, g, *op, x),
        Expr::Binary(op, x, y) => combined(alloc, g, *op, x, y),
    }
}

/// Puts the code for the name that an expression gives; what is no target has none.
#[cycle(tree)]
pub fn name(alloc: Global, g: &mut Generator<'_>, e: &Expr) -> Result<(), AllocError>
    requires countable { Countable (expr_of e.now) }
    requires room { size (gen_of g.old) + 9 * of_expr (expr_of e.now) < 2 ^ 31 }
    ensures emits { OnOk result (Emits (code.name (expr_of e.now)) (gen_of g.old) (gen_of g.new)) }
    ensures size { OnOk result
        (AddsAtMost (9 * of_expr (expr_of e.now)) (gen_of g.old) (gen_of g.new)) }
    ensures extends { Extends (gen_of g.old) (gen_of g.new) }
{
    match e {
        Expr::Name(x) => variable(g, x),
        Expr::Call(f, args) => called(alloc, g, f, args, true),
        Expr::Reference(x, args) => element(alloc, g, x, args),
        Expr::Unary(op, x) => applied_name(alloc, g, *op, x),
        Expr::Integer(_) | Expr::Literal(_) | Expr::Keyword(_) | Expr::Binary(_, _, _) => Ok(()),
    }
}

// Puts the code for a variable's value.
#[inline(never)]
fn fetched(g: &mut Generator<'_>, x: &[u8]) -> Result<(), AllocError>
    requires { size (gen_of g.old) + 7 < 2 ^ 31 }
    ensures emits { OnOk result
        (Emits (views.fetched x.now) (gen_of g.old) (gen_of g.new)) }
    ensures size { OnOk result (AddsAtMost 7 (gen_of g.old) (gen_of g.new)) }
    ensures extends { Extends (gen_of g.old) (gen_of g.new) }
{
    variable(g, x)?;
    g.put(Instr::Fetch)
}

// Puts the code for the value of a reference.
#[cycle(tree)]
#[inline(never)]
fn fetched_element(
    alloc: Global,
    g: &mut Generator<'_>,
    x: &[u8],
    args: &[Argument],
) -> Result<(), AllocError>
    requires countable { AllCountable (args_of args.now) }
    requires few { length args.now ≤ 65535 }
    requires room { size (gen_of g.old) + 9 * of_args (args_of args.now) + 11 < 2 ^ 31 }
    ensures emits { OnOk result
        (Emits (views.fetched_element x.now (args_of args.now) (length args.now)) (gen_of g.old)
        (gen_of g.new)) }
    ensures size { OnOk result
        (AddsAtMost (9 * of_args (args_of args.now) + 11) (gen_of g.old) (gen_of g.new)) }
    ensures extends { Extends (gen_of g.old) (gen_of g.new) }
{
    element(alloc, g, x, args)?;
    g.put(Instr::Fetch)
}

// Puts the code for the name that a unary operator and its operand give.
#[cycle(tree)]
#[inline(never)]
fn applied_name(alloc: Global, g: &mut Generator<'_>, op: Unary, x: &Expr) -> Result<(), AllocError>
    requires countable { Countable (expr_of x.now) }
    requires room { size (gen_of g.old) + 9 * of_expr (expr_of x.now) + 9 < 2 ^ 31 }
    ensures emits { OnOk result
        (Emits (code.name (Apply op (expr_of x.now))) (gen_of g.old) (gen_of g.new)) }
    ensures size { OnOk result
        (AddsAtMost (9 * of_expr (expr_of x.now) + 9) (gen_of g.old) (gen_of g.new)) }
    ensures extends { Extends (gen_of g.old) (gen_of g.new) }
{
    match op {
        Unary::Indirect => {
            value(alloc, g, x)?;
            g.put(Instr::Indir)
        }
        _ => Ok(()),
    }
}

// Puts the code for the value of a unary operator and its operand.
#[cycle(tree)]
#[inline(never)]
fn applied(alloc: Global, g: &mut Generator<'_>, op: Unary, x: &Expr) -> Result<(), AllocError>
    requires countable { Countable (expr_of x.now) }
    requires room { size (gen_of g.old) + 9 * of_expr (expr_of x.now) + 9 < 2 ^ 31 }
    ensures emits { OnOk result
        (Emits (code.value (Apply op (expr_of x.now))) (gen_of g.old) (gen_of g.new)) }
    ensures size { OnOk result
        (AddsAtMost (9 * of_expr (expr_of x.now) + 9) (gen_of g.old) (gen_of g.new)) }
    ensures extends { Extends (gen_of g.old) (gen_of g.new) }
{
    match op {
        Unary::NameOf => {
            name(alloc, g, x)?;
            g.put(Instr::NameV)
        }
        Unary::Cursor => {
            name(alloc, g, x)?;
            g.put(Instr::Cursor)
        }
        Unary::Indirect => indirect(alloc, g, x),
        Unary::Unevaluated => g.defer(alloc, x),
        Unary::Plus => {
            value(alloc, g, x)?;
            g.put(Instr::Sign(SignOp::Plus))
        }
        Unary::Minus => {
            value(alloc, g, x)?;
            g.put(Instr::Sign(SignOp::Minus))
        }
        Unary::Interrogate => interrogated(alloc, g, x),
        Unary::Negate => negated(alloc, g, x),
    }
}

// Puts the code for the value of `$` and its operand.
#[cycle(tree)]
#[inline(never)]
fn indirect(alloc: Global, g: &mut Generator<'_>, x: &Expr) -> Result<(), AllocError>
    requires countable { Countable (expr_of x.now) }
    requires room { size (gen_of g.old) + 9 * of_expr (expr_of x.now) + 9 < 2 ^ 31 }
    ensures emits { OnOk result
        (Emits (code.value (Apply u.Indirect (expr_of x.now))) (gen_of g.old) (gen_of g.new)) }
    ensures size { OnOk result
        (AddsAtMost (9 * of_expr (expr_of x.now) + 9) (gen_of g.old) (gen_of g.new)) }
    ensures extends { Extends (gen_of g.old) (gen_of g.new) }
{
    value(alloc, g, x)?;
    g.put(Instr::Indir)?;
    g.put(Instr::Fetch)
}

// Puts the code for the value of `?` and its operand.
#[cycle(tree)]
#[inline(never)]
fn interrogated(alloc: Global, g: &mut Generator<'_>, x: &Expr) -> Result<(), AllocError>
    requires countable { Countable (expr_of x.now) }
    requires room { size (gen_of g.old) + 9 * of_expr (expr_of x.now) + 9 < 2 ^ 31 }
    ensures emits { OnOk result
        (Emits (code.value (Apply u.Interrogate (expr_of x.now))) (gen_of g.old) (gen_of g.new)) }
    ensures size { OnOk result
        (AddsAtMost (9 * of_expr (expr_of x.now) + 9) (gen_of g.old) (gen_of g.new)) }
    ensures extends { Extends (gen_of g.old) (gen_of g.new) }
{
    value(alloc, g, x)?;
    g.put(Instr::Drop)?;
    g.put(Instr::Null)
}

// Puts the code for the value of `~` and its operand.
#[cycle(tree)]
#[inline(never)]
fn negated(alloc: Global, g: &mut Generator<'_>, x: &Expr) -> Result<(), AllocError>
    requires countable { Countable (expr_of x.now) }
    requires room { size (gen_of g.old) + 9 * of_expr (expr_of x.now) + 9 < 2 ^ 31 }
    ensures emits { OnOk result
        (Emits (code.value (Apply u.Negate (expr_of x.now))) (gen_of g.old) (gen_of g.new)) }
    ensures size { OnOk result
        (AddsAtMost (9 * of_expr (expr_of x.now) + 9) (gen_of g.old) (gen_of g.new)) }
    ensures extends { Extends (gen_of g.old) (gen_of g.new) }
{
    let begin = g.at();
    g.put(Instr::Try(0))?;
    value(alloc, g, x)?;
    g.put(Instr::Drop)?;
    g.put(Instr::Untry)?;
    g.put(Instr::Fail)?;
    let target = g.at();
    g.put(Instr::Null)?;
    g.set_number(begin, target);
    Ok(())
}

// Puts the code for the value of a binary operator and its operands.
#[cycle(tree)]
#[inline(never)]
fn combined(
    alloc: Global,
    g: &mut Generator<'_>,
    op: Binary,
    x: &Expr,
    y: &Expr,
) -> Result<(), AllocError>
    requires left { Countable (expr_of x.now) }
    requires right { Countable (expr_of y.now) }
    requires room { size (gen_of g.old)
        + 9 * (of_expr (expr_of x.now) + of_expr (expr_of y.now) + 1) < 2 ^ 31 }
    ensures emits { OnOk result
        (Emits (code.value (Combine op (expr_of x.now) (expr_of y.now))) (gen_of g.old)
        (gen_of g.new)) }
    ensures size { OnOk result
        (AddsAtMost (9 * (of_expr (expr_of x.now) + of_expr (expr_of y.now) + 1)) (gen_of g.old)
        (gen_of g.new)) }
    ensures extends { Extends (gen_of g.old) (gen_of g.new) }
{
    value(alloc, g, x)?;
    wanted(alloc, g, takes_target(op), y)?;
    g.put(instr_of(op))?;
    Ok(())
}

// Puts the code for the name or for the value of an expression.
#[cycle(tree)]
fn wanted(
    alloc: Global,
    g: &mut Generator<'_>,
    wants_name: bool,
    e: &Expr,
) -> Result<(), AllocError>
    requires countable { Countable (expr_of e.now) }
    requires room { size (gen_of g.old) + 9 * of_expr (expr_of e.now) < 2 ^ 31 }
    ensures emits { OnOk result
        (Emits (views.wanted wants_name (expr_of e.now)) (gen_of g.old) (gen_of g.new)) }
    ensures size { OnOk result
        (AddsAtMost (9 * of_expr (expr_of e.now)) (gen_of g.old) (gen_of g.new)) }
    ensures extends { Extends (gen_of g.old) (gen_of g.new) }
{
    if wants_name {
        name(alloc, g, e)
    } else {
        value(alloc, g, e)
    }
}

// Puts the code of a call.
#[cycle(tree)]
#[inline(never)]
fn called(
    alloc: Global,
    g: &mut Generator<'_>,
    f: &[u8],
    args: &[Argument],
    wants_name: bool,
) -> Result<(), AllocError>
    requires countable { AllCountable (args_of args.now) }
    requires few { length args.now ≤ most_counted (prim_named f.now) }
    requires room { size (gen_of g.old) + 9 * of_args (args_of args.now) + 8 < 2 ^ 31 }
    ensures emits { OnOk result
        (Emits (views.called wants_name f.now (args_of args.now) (length args.now)) (gen_of g.old)
        (gen_of g.new)) }
    ensures size { OnOk result
        (AddsAtMost (9 * of_args (args_of args.now) + 8) (gen_of g.old) (gen_of g.new)) }
    ensures extends { Extends (gen_of g.old) (gen_of g.new) }
{
    arguments(alloc, g, args)?;
    call(g, f, args.len(), wants_name)?;
    Ok(())
}

// Puts the code for the name of a reference.
#[cycle(tree)]
#[inline(never)]
fn element(
    alloc: Global,
    g: &mut Generator<'_>,
    x: &[u8],
    args: &[Argument],
) -> Result<(), AllocError>
    requires countable { AllCountable (args_of args.now) }
    requires few { length args.now ≤ 65535 }
    requires room { size (gen_of g.old) + 9 * of_args (args_of args.now) + 10 < 2 ^ 31 }
    ensures emits { OnOk result
        (Emits (views.element x.now (args_of args.now) (length args.now)) (gen_of g.old)
        (gen_of g.new)) }
    ensures size { OnOk result
        (AddsAtMost (9 * of_args (args_of args.now) + 10) (gen_of g.old) (gen_of g.new)) }
    ensures extends { Extends (gen_of g.old) (gen_of g.new) }
{
    variable(g, x)?;
    g.put(Instr::Fetch)?;
    arguments(alloc, g, args)?;
    g.put(Instr::Elem(args.len() as u16))?;
    Ok(())
}

// Puts the code of arguments, one after another.
#[cycle(tree)]
#[inline(never)]
fn arguments(alloc: Global, g: &mut Generator<'_>, args: &[Argument]) -> Result<(), AllocError>
    requires countable { AllCountable (args_of args.now) }
    requires room { size (gen_of g.old) + 9 * of_args (args_of args.now) < 2 ^ 31 }
    ensures emits { OnOk result
        (Emits (code.arguments (args_of args.now)) (gen_of g.old) (gen_of g.new)) }
    ensures size { OnOk result
        (AddsAtMost (9 * of_args (args_of args.now)) (gen_of g.old) (gen_of g.new)) }
    ensures extends { Extends (gen_of g.old) (gen_of g.new) }
{
    for argument in args {
        match argument {
            Argument::Absent => g.put(Instr::Null)?,
            Argument::Given(e) => value(alloc, g, e)?,
        }
    }
    Ok(())
}

// Whether the right operand is a target.
fn takes_target(op: Binary) -> bool
    ensures { result ≡ views.takes_target op }
{
    matches!(op, Binary::Conditional | Binary::Immediate)
}

// The instruction of a binary operator.
fn instr_of(op: Binary) -> Instr
    ensures { result ≡ views.instr_of op }
{
    match op {
        Binary::Conditional => Instr::Cond,
        Binary::Immediate => Instr::Imm,
        Binary::Power => Instr::Arith(ArithOp::Power),
        Binary::Multiply => Instr::Arith(ArithOp::Multiply),
        Binary::Divide => Instr::Arith(ArithOp::Divide),
        Binary::Add => Instr::Arith(ArithOp::Add),
        Binary::Subtract => Instr::Arith(ArithOp::Subtract),
        Binary::Concatenate => Instr::Cat,
        Binary::Alternate => Instr::Alt,
    }
}
