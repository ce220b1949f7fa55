//! One instruction: whether what it asks is there, and where it leads.

ghost use Rattle.std.specs.Prelude.{◌≡◌, ◌<◌, ◌≤◌, ◌^◌, ℕ, length, map, List, [], ◌∷◌, IfOk, OnOk};
ghost use Rattle.std.specs.Bool.{Decides};
ghost use Rattle.model.specs.Machine.Steps.{Handler, OnBegin};
ghost use Rattle.model.specs.Module.Flow as flow;
ghost use Rattle.flow_check.specs.declared.pool.Node.{Node};
ghost use Rattle.flow_check.specs.declared.rules.Rule.TheVariants as rules;
ghost use Rattle.flow_check.specs.Numbers.{Is, Grows};
ghost use Rattle.flow_check.specs.Shapes.{IsShape, IsPut, Advances, empty_shape, led_by, top_of, runs};
ghost use Rattle.flow_check.specs.Rules.{left};

use crate::pool::{EMPTY, Node, Pool, Stack, Top};
use crate::rules::{Leaves, Rule, Takes};
use crate::shapes::{Led, Mode, Shape};
use std::alloc::AllocError;

/// In a mode, with nothing.
pub(crate) fn empty(mode: Mode) -> Shape
    ensures { result ≡ empty_shape mode }
{
    Shape {
        mode,
        kinds: EMPTY,
        depth: 0,
        handlers: EMPTY,
        floor: 0,
    }
}

/// Whether it is a goto's, with nothing.
fn is_bare(shape: Shape) -> bool
    ensures { (ns : List Node) → (s : flow.Shape) → IsShape ns shape s
        → Decides result (s ≡ flow.bare) }
{
    shape.is_same(empty(Mode::Goto))
}

const NOWHERE: Led = Led {
    next: None,
    target: None,
};

fn leave(shape: Shape) -> Option<Led>
    ensures { (ns : List Node) → (s : flow.Shape) → IsShape ns shape s
        → Advances ns result rules.Leave s }
{
    if is_bare(shape) { Some(NOWHERE) } else { None }
}

fn begin(pool: &mut Pool, target: u32, shape: Shape) -> Result<Option<Led>, AllocError>
    ensures grows { OnOk result (Grows pool.old.nodes.keys pool.new.nodes.keys) }
    ensures advanced { IfOk result (λ led.
        (s : flow.Shape) → IsShape pool.old.nodes.keys shape s
        → Advances pool.new.nodes.keys led (rules.Begin target) s) }
{
    if !is_bare(shape) {
        return Ok(None);
    }
    let handlers = pool.put(Top::Begin(target), EMPTY)?;
    let next = Shape {
        mode: Mode::Body,
        kinds: EMPTY,
        depth: 0,
        handlers,
        floor: 0,
    };
    Ok(Some(Led {
        next: Some(next),
        target: Some((target, empty(Mode::Goto))),
    }))
}

/// Whether the only handler is a statement's.
fn is_in_begin(pool: &Pool, handlers: Stack) -> bool
    ensures { (hs : List Handler) → Is pool.now.nodes.keys handlers (map top_of hs)
        → Decides result ((t : ℕ) × (hs ≡ OnBegin t ∷ [])) }
{
    let Some(node) = pool.top(handlers) else {
        return false;
    };
    match node.top {
        Top::Begin(_) => node.below == EMPTY,
        _ => false,
    }
}

fn body(pool: &Pool, shape: Shape) -> Option<Led>
    ensures { (s : flow.Shape) → IsShape pool.now.nodes.keys shape s
        → Advances pool.now.nodes.keys result rules.Body s }
{
    match shape.mode {
        Mode::Body if shape.kinds == EMPTY && is_in_begin(pool, shape.handlers) => Some(Led {
            next: Some(empty(Mode::Goto)),
            target: None,
        }),
        _ => None,
    }
}

/// Whether there is a value and nothing else.
fn is_one_value(pool: &Pool, shape: Shape) -> bool
    ensures { (s : flow.Shape) → IsShape pool.now.nodes.keys shape s
        → Decides result (s ≡ flow.shape s.mode (flow.V ∷ []) []) }
{
    if shape.handlers == EMPTY {
        pool.is_value(shape.kinds)
    } else {
        false
    }
}

#[inline(never)]
fn jump(pool: &Pool, shape: Shape) -> Option<Led>
    ensures { (s : flow.Shape) → IsShape pool.now.nodes.keys shape s
        → Advances pool.now.nodes.keys result rules.Jump s }
{
    match shape.mode {
        Mode::Goto if is_one_value(pool, shape) => Some(NOWHERE),
        _ => None,
    }
}

#[inline(never)]
fn answer(pool: &Pool, shape: Shape) -> Option<Led>
    ensures { (s : flow.Shape) → IsShape pool.now.nodes.keys shape s
        → Advances pool.now.nodes.keys result rules.Answer s }
{
    match shape.mode {
        Mode::Evaluation if is_one_value(pool, shape) => Some(NOWHERE),
        _ => None,
    }
}

/// Whether there are as many operands as the newest handler keeps.
fn is_kept(shape: Shape) -> bool
    ensures { (ns : List Node) → (s : flow.Shape) → IsShape ns shape s
        → Decides result (flow.floor_of s.handlers ≤ length s.kinds) }
{
    shape.floor <= shape.depth
}

#[inline(never)]
fn enter_try(pool: &mut Pool, target: u32, shape: Shape) -> Result<Option<Led>, AllocError>
    ensures grows { OnOk result (Grows pool.old.nodes.keys pool.new.nodes.keys) }
    ensures advanced { IfOk result (λ led.
        (s : flow.Shape) → IsShape pool.old.nodes.keys shape s
        → Advances pool.new.nodes.keys led (rules.Try target) s) }
{
    if !is_kept(shape) {
        return Ok(None);
    }
    let handlers = pool.put(Top::Try(target, shape.depth), shape.handlers)?;
    let next = Shape {
        handlers,
        floor: shape.depth,
        ..shape
    };
    Ok(Some(Led {
        next: Some(next),
        target: Some((target, shape)),
    }))
}

#[inline(never)]
fn leave_try(pool: &Pool, shape: Shape) -> Option<Led>
    ensures { (s : flow.Shape) → IsShape pool.now.nodes.keys shape s
        → Advances pool.now.nodes.keys result rules.Untry s }
{
    match pool.top(shape.handlers) {
        Some(
            Node {
                top: Top::Try(..),
                below,
            },
        ) => Some(Led {
            next: Some(Shape {
                handlers: below,
                floor: pool.floor(below),
                ..shape
            }),
            target: None,
        }),
        _ => None,
    }
}

fn fail(shape: Shape) -> Option<Led>
    ensures { (ns : List Node) → (s : flow.Shape) → IsShape ns shape s
        → Advances ns result rules.Fail s }
{
    if is_kept(shape) { Some(NOWHERE) } else { None }
}

/// The other half of an operation: what it leaves on the stack below what it took.
#[inline(always)]
fn put_back(
    pool: &mut Pool,
    leaves: Leaves,
    below: Stack,
    depth: u32,
    shape: Shape,
) -> Result<Option<Shape>, AllocError>
    requires { (ks : List flow.OperandKind) × Is pool.old.nodes.keys below (runs ks)
        × (length ks < 2 ^ 31) × (depth ≡ length ks) }
    ensures grows { OnOk result (Grows pool.old.nodes.keys pool.new.nodes.keys) }
    ensures put { IfOk result (λ next.
        (ks : List flow.OperandKind) → (hs : List Handler) → Is pool.old.nodes.keys below (runs ks)
        → depth ≡ length ks → Is pool.old.nodes.keys shape.handlers (map top_of hs)
        → shape.floor ≡ flow.floor_of hs
        → IsPut pool.new.nodes.keys (led_by next) shape.mode (left leaves) ks hs) }
{
    if depth < shape.floor {
        return Ok(None);
    }
    let kinds = pool.leave(leaves, below)?;
    Ok(Some(Shape {
        kinds,
        depth: depth + leaves.count(),
        ..shape
    }))
}

/// What an operation leaves, if what it takes is there.
#[inline(always)]
pub(crate) fn operate(
    pool: &mut Pool,
    takes: Takes,
    leaves: Leaves,
    shape: Shape,
) -> Result<Option<Shape>, AllocError>
    requires { (s : flow.Shape) × IsShape pool.old.nodes.keys shape s × (length s.kinds < 2 ^ 31) }
    ensures grows { OnOk result (Grows pool.old.nodes.keys pool.new.nodes.keys) }
    ensures advanced { IfOk result (λ next.
        (s : flow.Shape) → IsShape pool.old.nodes.keys shape s
        → Advances pool.new.nodes.keys (led_by next) (rules.Operate takes leaves) s) }
{
    match pool.take(takes, shape.kinds)? {
        None => Ok(None),
        Some(below) => {
            let next = put_back(pool, leaves, below, shape.depth - takes.count(), shape)?;
            Ok(next)
        }
    }
}

/// Where an operation leads.
fn led_by(next: Option<Shape>) -> Option<Led>
    ensures { result ≡ led_by next }
{
    match next {
        None => None,
        Some(_) => Some(Led { next, target: None }),
    }
}

/// Whether what the rule asks is there, and where it leads.
#[inline(always)]
pub(crate) fn advance(pool: &mut Pool, rule: Rule, shape: Shape) -> Result<Option<Led>, AllocError>
    requires { (s : flow.Shape) × IsShape pool.old.nodes.keys shape s × (length s.kinds < 2 ^ 31) }
    ensures grows { OnOk result (Grows pool.old.nodes.keys pool.new.nodes.keys) }
    ensures advanced { IfOk result (λ led.
        (s : flow.Shape) → IsShape pool.old.nodes.keys shape s
        → Advances pool.new.nodes.keys led rule s) }
{
    match rule {
        Rule::Leave => Ok(leave(shape)),
        Rule::Begin(target) => begin(pool, target, shape),
        Rule::Body => Ok(body(pool, shape)),
        Rule::Jump => Ok(jump(pool, shape)),
        Rule::Answer => Ok(answer(pool, shape)),
        Rule::Try(target) => enter_try(pool, target, shape),
        Rule::Untry => Ok(leave_try(pool, shape)),
        Rule::Fail => Ok(fail(shape)),
        Rule::Operate(takes, leaves) => {
            let next = operate(pool, takes, leaves, shape)?;
            Ok(led_by(next))
        }
    }
}
