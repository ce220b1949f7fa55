//! Expressions by grades.
//!
//! Brackets nest on the stack, so what is read is handed up behind a pointer, and marks of unary operators wait in a
//! list.

ghost use Rattle.std.specs.Prelude.{◌≡◌, ◌≢◌, false, ◌≤◌, ◌<◌, ◌+◌, ◌-◌, length, IfOk};
ghost use Rattle.model.specs.Deck.Parse as spec;
ghost use Rattle.model.specs.Deck.Tokens.{between_quotes};
ghost use Rattle.model.specs.Deck.Trees.{Literal};
ghost use Rattle.model.specs.Deck.TreeViews.{arg_of, expr_of};
ghost use Rattle.stmt_parser.specs.Views.{Reads, Unprefixed, arguments_of, boxed_of, powered, tight};

use crate::cursor::Cursor;
use crate::marks::{Role, role_of};
use crate::parts::{applied, given, integer, power, shown, unquoted};
use crate::stop::Stop;
use model::{Argument, Expr, Mark, Token, TokenKind};
use std::alloc::AllocError;
use tree_drops::FreeParts;

/// A whole expression; brackets and unary operators are nested less deep than the number.
pub(crate) fn whole(
    free: &mut FreeParts,
    cursor: &mut Cursor<'_>,
    depth: usize,
) -> Result<Expr, Stop>
    ensures { Reads expr_of (spec.whole depth cursor.old) result cursor.new }
{
    let found = graded(free, cursor, depth, 7)?;
    Ok(free.unboxed(found))
}

/// An element; brackets and unary operators are nested less deep than the number.
pub(crate) fn element(
    free: &mut FreeParts,
    cursor: &mut Cursor<'_>,
    depth: usize,
) -> Result<Expr, Stop>
    ensures { Reads expr_of (spec.element depth cursor.old) result cursor.new }
{
    let found = marked(free, cursor, depth)?;
    Ok(free.unboxed(found))
}

/// An expression of a grade.
#[cycle(expr)]
fn graded(
    free: &mut FreeParts,
    cursor: &mut Cursor<'_>,
    depth: usize,
    grade: u8,
) -> Result<Box<Expr>, Stop>
    ensures { Reads boxed_of (spec.graded (spec.element depth) grade cursor.old) result cursor.new }
{
    match grade {
        0 => marked(free, cursor, depth),
        1 => assigned(free, cursor, depth),
        2 => {
            let turns = cursor.len();
            rights(free, cursor, depth, turns)
        }
        _ => climbed(free, cursor, depth, grade),
    }
}

/// An expression of grade 1.
#[cycle(expr)]
#[inline(always)]
fn assigned(free: &mut FreeParts, cursor: &mut Cursor<'_>, depth: usize) -> Result<Box<Expr>, Stop>
    ensures { Reads boxed_of (spec.graded (spec.element depth) 1 cursor.old) result cursor.new }
{
    let first = marked(free, cursor, depth)?;
    if cursor.grade_ahead() != 1 {
        return Ok(first);
    }
    lefts(free, cursor, depth, 1, first)
}

/// Whether an operator binds tighter than those that group to the left from grade 3 on.
#[inline(always)]
fn is_tight(grade: u8) -> bool
    ensures { result ≡ false → (grade ≢ 1) × (grade ≢ 2) }
{
    grade == 1 || grade == 2
}

/// An expression of a grade above 2: an element, then the operators of each grade, as they come.
#[cycle(expr)]
#[inline(never)]
fn climbed(
    free: &mut FreeParts,
    cursor: &mut Cursor<'_>,
    depth: usize,
    grade: u8,
) -> Result<Box<Expr>, Stop>
    requires { 2 < grade }
    ensures { Reads boxed_of (spec.graded (spec.element depth) grade cursor.old) result cursor.new }
{
    let turns = cursor.len();
    let first = marked(free, cursor, depth)?;
    let mut found = first;
    let mut ahead = cursor.grade_ahead();
    if is_tight(ahead) {
        found = tight(free, cursor, depth, turns, found)?;
        ahead = cursor.grade_ahead();
    }
    for below in 2..grade {
        if ahead == below + 1 {
            found = lefts(free, cursor, depth, below + 1, found)?;
            ahead = cursor.grade_ahead();
        }
    }
    Ok(found)
}

/// Operators of a grade that group to the left, with their operands, after the first operand.
#[cycle(expr)]
#[tactic(auto, unfolding(model::specs::Deck::Parse::lefts, model::specs::Deck::Parse::bind, model::specs::Deck::Parse::on))]
fn lefts(
    free: &mut FreeParts,
    cursor: &mut Cursor<'_>,
    depth: usize,
    grade: u8,
    mut found: Box<Expr>,
) -> Result<Box<Expr>, Stop>
    requires { 0 < grade }
    ensures { Reads boxed_of
        (spec.lefts (spec.graded (spec.element depth) (grade - 1)) grade (length cursor.old)
        (boxed_of found) cursor.old) result cursor.new }
{
    for _turn in 0..cursor.len() {
        let Some(op) = cursor.operator(grade) else {
            return Ok(found);
        };
        match graded(free, cursor, depth, grade - 1) {
            Ok(right) => found = free.binary(op, found, right)?,
            Err(stop) => {
                free.keep_boxed(found);
                return Err(stop);
            }
        }
    }
    Ok(found)
}

/// Operators of the grades 1 and 2 after the first element of an expression of so many tokens.
#[cycle(expr)]
#[inline(never)]
#[tactic(auto, unfolding(model::specs::Deck::Parse::bind))]
fn tight(
    free: &mut FreeParts,
    cursor: &mut Cursor<'_>,
    depth: usize,
    turns: usize,
    first: Box<Expr>,
) -> Result<Box<Expr>, Stop>
    ensures { Reads boxed_of (tight (spec.element depth) (turns - 1) (boxed_of first) cursor.old) result cursor.new }
{
    let found = lefts(free, cursor, depth, 1, first)?;
    powered(free, cursor, depth, turns, found)
}

/// The operands of `**` after the first, and the power; at most so many operands.
#[cycle(expr)]
#[inline(never)]
fn powered(
    free: &mut FreeParts,
    cursor: &mut Cursor<'_>,
    depth: usize,
    turns: usize,
    first: Box<Expr>,
) -> Result<Box<Expr>, Stop>
    ensures { Reads boxed_of
        (powered (spec.graded (spec.element depth) 1) (turns - 1) (boxed_of first) cursor.old) result cursor.new }
{
    let Some(op) = cursor.operator(2) else {
        return Ok(first);
    };
    match rights(free, cursor, depth, turns.saturating_sub(1)) {
        Ok(right) => Ok(free.binary(op, first, right)?),
        Err(stop) => {
            free.keep_boxed(first);
            Err(stop)
        }
    }
}

/// At most so many operands of `**`, which groups to the right.
#[cycle(expr)]
#[tactic(auto, unfolding(model::specs::Deck::Parse::rights, model::specs::Deck::Parse::bind, model::specs::Deck::Parse::on))]
fn rights(
    free: &mut FreeParts,
    cursor: &mut Cursor<'_>,
    depth: usize,
    turns: usize,
) -> Result<Box<Expr>, Stop>
    ensures { Reads boxed_of
        (spec.rights (spec.graded (spec.element depth) 1) 2 turns cursor.old) result cursor.new }
{
    let mut operands = Vec::new(free.alloc());
    for _turn in 0..turns {
        let operand = assigned(free, cursor, depth)?;
        if cursor.operator(2).is_none() {
            return Ok(power(free, operands, operand)?);
        }
        operands.push(operand)?;
    }
    Err(Stop::NoTree)
}

/// An element: the marks of unary operators, and what they stand before.
#[cycle(expr)]
#[inline(never)]
fn marked(free: &mut FreeParts, cursor: &mut Cursor<'_>, depth: usize) -> Result<Box<Expr>, Stop>
    ensures { Reads boxed_of (spec.element depth cursor.old) result cursor.new }
{
    if depth > 0 && !cursor.sees_prefix() {
        return bare(free, cursor, depth - 1);
    }
    unary_marked(free, cursor, depth)
}

/// An element that may begin with marks of unary operators.
#[cycle(expr)]
#[inline(never)]
fn unary_marked(
    free: &mut FreeParts,
    cursor: &mut Cursor<'_>,
    depth: usize,
) -> Result<Box<Expr>, Stop>
    ensures { Reads boxed_of (spec.element depth cursor.old) result cursor.new }
{
    let mut marks = Vec::new(free.alloc());
    for turn in 0..depth {
        match cursor.prefix() {
            Some(op) => marks.push(op)?,
            None => {
                let operand = bare(free, cursor, depth - turn - 1)?;
                return Ok(applied(free, marks, operand)?);
            }
        }
    }
    Err(Stop::NoTree)
}

/// An element that begins with no unary operator; what stands in its brackets is nested less deep than the number.
#[cycle(expr)]
#[inline(always)]
#[tactic(auto, unfolding(model::specs::Deck::Parse::element, model::specs::Deck::Parse::element_step, model::specs::Deck::Parse::bind))]
fn bare(free: &mut FreeParts, cursor: &mut Cursor<'_>, depth: usize) -> Result<Box<Expr>, Stop>
    requires { Unprefixed cursor.old }
    ensures { Reads boxed_of (spec.element (depth + 1) cursor.old) result cursor.new }
{
    let Some(token) = cursor.take() else {
        return Err(Stop::NoTree);
    };
    match token.kind {
        TokenKind::Blank => Err(Stop::NoTree),
        TokenKind::Name => named(free, cursor, depth, token.text),
        TokenKind::Integer => Ok(free.integer(integer(token.text))?),
        TokenKind::Literal => Ok(literal(free, token.text)?),
        TokenKind::Mark(mark) => match role_of(mark) {
            Role::Opens => bracketed(free, cursor, depth),
            Role::Refers => keyword(free, cursor),
            _ => Err(Stop::NoTree),
        },
    }
}

/// A keyword, after its `&`.
#[inline(never)]
fn keyword(free: &mut FreeParts, cursor: &mut Cursor<'_>) -> Result<Box<Expr>, Stop>
    ensures { Reads boxed_of (spec.keyword_of (spec.whole 0) cursor.old) result cursor.new }
{
    match cursor.take() {
        Some(
            Token {
                kind: TokenKind::Name,
                text,
                ..
            },
        ) => Ok(free.keyword(text)?),
        _ => Err(Stop::NoTree),
    }
}

/// The literal of a text with its quotes.
#[inline(never)]
fn literal(free: &mut FreeParts, text: &[u8]) -> Result<Box<Expr>, AllocError>
    requires { 2 ≤ length text.now }
    ensures { IfOk result (λ e. boxed_of e ≡ Literal (between_quotes text.now)) }
{
    free.literal(unquoted(text))
}

/// An expression and the round bracket that closes, after the one that opens.
#[cycle(expr)]
#[inline(never)]
#[tactic(auto, unfolding(model::specs::Deck::Parse::bracketed, model::specs::Deck::Parse::bind, model::specs::Deck::Parse::expect))]
fn bracketed(free: &mut FreeParts, cursor: &mut Cursor<'_>, depth: usize) -> Result<Box<Expr>, Stop>
    ensures { Reads boxed_of (spec.bracketed (spec.whole depth) cursor.old) result cursor.new }
{
    cursor.skip();
    let inner = graded(free, cursor, depth, 7)?;
    cursor.skip();
    if cursor.eat(Mark::Close) {
        Ok(inner)
    } else {
        free.keep_boxed(inner);
        Err(Stop::NoTree)
    }
}

/// A name, a call or a reference, after the name.
#[cycle(expr)]
#[inline(never)]
#[tactic(auto, unfolding(model::specs::Deck::Parse::after_name, model::specs::Deck::Parse::bind, model::specs::Deck::Parse::expect))]
fn named(
    free: &mut FreeParts,
    cursor: &mut Cursor<'_>,
    depth: usize,
    name: &[u8],
) -> Result<Box<Expr>, Stop>
    ensures { Reads boxed_of
        (spec.after_name (spec.whole depth) name.now cursor.old) result cursor.new }
{
    let turns = cursor.len();
    if cursor.eat(Mark::Open) {
        let arguments = several(free, cursor, depth, turns)?;
        if cursor.eat(Mark::Close) {
            Ok(free.call(name, shown(arguments))?)
        } else {
            Err(Stop::NoTree)
        }
    } else if cursor.eat(Mark::Less) {
        let subscripts = several(free, cursor, depth, turns)?;
        if given(&subscripts) && cursor.eat(Mark::Greater) {
            Ok(free.reference(name, subscripts)?)
        } else {
            Err(Stop::NoTree)
        }
    } else {
        Ok(free.name(name)?)
    }
}

/// At most so many arguments, with commas between.
#[cycle(expr)]
#[inline(never)]
#[tactic(auto, unfolding(model::specs::Deck::Parse::several, model::specs::Deck::Parse::bind))]
fn several(
    free: &mut FreeParts,
    cursor: &mut Cursor<'_>,
    depth: usize,
    turns: usize,
) -> Result<Vec<Argument>, Stop>
    ensures { Reads arguments_of
        (spec.several (spec.whole depth) turns cursor.old) result cursor.new }
{
    let mut found = free.list();
    for _turn in 0..turns {
        found.push(one(free, cursor, depth)?)?;
        if !cursor.eat(Mark::Comma) {
            return Ok(found);
        }
    }
    Err(Stop::NoTree)
}

/// One argument.
#[cycle(expr)]
#[inline(never)]
#[tactic(auto, unfolding(model::specs::Deck::Parse::one_argument, model::specs::Deck::Parse::bind))]
fn one(free: &mut FreeParts, cursor: &mut Cursor<'_>, depth: usize) -> Result<Argument, Stop>
    ensures { Reads arg_of (spec.one_argument (spec.whole depth) cursor.old) result cursor.new }
{
    cursor.skip();
    if !cursor.starts() {
        return Ok(Argument::Absent);
    }
    let value = graded(free, cursor, depth, 7)?;
    cursor.skip();
    Ok(Argument::Given(free.unboxed(value)))
}
