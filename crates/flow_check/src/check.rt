//! One walk over the code.

ghost use Rattle.std.specs.Prelude.{◌≡◌, ◌<◌, ◌^◌, ℕ, length, None, Some, IfOk, OnOk};
ghost use Rattle.model.specs.Module.Spelling.{IsImage};
ghost use Rattle.module_format.specs.Views.{listed_left};
ghost use Rattle.model.specs.Module.Flow.{BreaksFlow, IsLeast};
ghost use Rattle.flow_check.specs.Marks.{marked, met, seeded, Followed, Stepped};
ghost use Rattle.flow_check.specs.declared.marks.Mark.TheVariants.{One};
ghost use Rattle.flow_check.specs.declared.shapes.Shape as shapes;
ghost use Rattle.flow_check.specs.declared.rules.Rule.TheVariants as rules;
ghost use Rattle.flow_check.specs.Rules.{rule_of};
ghost use Rattle.model.specs.Module.Flow as flow;
ghost use Rattle.flow_check.specs.Shapes.{empty_shape, IsShape};
ghost use Rattle.flow_check.specs.declared.shapes.Mode.TheVariants.{Goto, Evaluation};

use crate::flow::{advance, empty, operate};
use crate::marks::{Mark, Marks};
use crate::pool::Pool;
use crate::rules::{Leaves, Rule, Takes, rule_for};
use crate::shapes::{Mode, Shape};
use model::Instr;
use module_format::{ImageView, Listed};
use std::alloc::{AllocError, Global};

/// Marks where statements or expressions begin.
fn seed(marks: &mut Marks, offsets: &[u32], shape: Shape) -> Result<(), AllocError>
    ensures { OnOk result
        ((y : ℕ) → marked marks.new y ≡ seeded offsets.now shape (marked marks.old) y) }
{
    for offset in offsets {
        marks.note(*offset, shape)?;
    }
    Ok(())
}

/// The most bytes of an instruction.
const MOST_SIZE: usize = 9;

/// The offset behind the last one.
fn behind_last(offsets: &[u32]) -> usize {
    match offsets.last() {
        Some(last) => *last as usize + 1,
        None => 0,
    }
}

/// How many offsets have a slot: those up to the last one that the tables tell, as far as the code can reach.
fn slots_of(image: &ImageView<'_>) -> usize {
    let last = behind_last(image.statements()).max(behind_last(image.expressions()));
    last.min(image.code_len().saturating_mul(MOST_SIZE))
}

/// The marks of where the code can begin.
fn roots(alloc: Global, image: &ImageView<'_>) -> Result<Marks, AllocError>
    ensures { IfOk result (λ m.
        (y : ℕ) → marked m y
        ≡ seeded image.now.expressions (empty_shape Evaluation)
        (seeded image.now.statements (empty_shape Goto) (λ _. None)) y) }
{
    let mut marks = Marks::new(alloc, slots_of(image))?;
    seed(&mut marks, image.statements(), empty(Mode::Goto))?;
    seed(&mut marks, image.expressions(), empty(Mode::Evaluation))?;
    Ok(marks)
}

/// How far the walk has come: the stacks and marks there are, and the shape that the instruction before leaves.
struct Walk {
    pool: Pool,
    marks: Marks,
    carried: Option<Shape>,
}

impl Drop for Walk {
    fn drop(self) {
        let Walk {
            pool: _,
            marks: _,
            carried: _,
        } = self;
    }
}

/// What follows where one shape comes; whether what is asked is there.
#[inline(always)]
fn follow(walk: &mut Walk, at: u32, rule: Rule, shape: Shape) -> Result<bool, AllocError>
    requires { (s : flow.Shape) × IsShape walk.old.pool.nodes.keys shape s
        × (length s.kinds < 2 ^ 31) }
    ensures { IfOk result (λ fine.
        Followed walk.old.pool.nodes.keys walk.new.pool.nodes.keys (marked walk.old.marks)
        (marked walk.new.marks) walk.new.carried at rule shape fine) }
{
    match rule {
        Rule::Operate(takes, leaves) => operated(walk, at, takes, leaves, shape),
        _ => advanced(walk, at, rule, shape),
    }
}

/// The same of an operation.
#[inline(always)]
fn operated(
    walk: &mut Walk,
    at: u32,
    takes: Takes,
    leaves: Leaves,
    shape: Shape,
) -> Result<bool, AllocError>
    requires { (s : flow.Shape) × IsShape walk.old.pool.nodes.keys shape s
        × (length s.kinds < 2 ^ 31) }
    ensures { IfOk result (λ fine.
        Followed walk.old.pool.nodes.keys walk.new.pool.nodes.keys (marked walk.old.marks)
        (marked walk.new.marks) walk.new.carried at (rules.Operate takes leaves) shape fine) }
{
    let next = operate(&mut walk.pool, takes, leaves, shape)?;
    let fine = next.is_some();
    walk.carried = next;
    Ok(fine)
}

/// The same of any other rule.
#[inline(always)]
fn advanced(walk: &mut Walk, at: u32, rule: Rule, shape: Shape) -> Result<bool, AllocError>
    requires { (s : flow.Shape) × IsShape walk.old.pool.nodes.keys shape s
        × (length s.kinds < 2 ^ 31) }
    ensures { IfOk result (λ fine.
        Followed walk.old.pool.nodes.keys walk.new.pool.nodes.keys (marked walk.old.marks)
        (marked walk.new.marks) walk.new.carried at rule shape fine) }
{
    match advance(&mut walk.pool, rule, shape)? {
        None => Ok(false),
        Some(led) => {
            walk.marks.follow(at, led.target)?;
            walk.carried = led.next;
            Ok(true)
        }
    }
}

/// One instruction; whether it keeps the flow.
fn step(walk: &mut Walk, at: u32, instr: Instr) -> Result<bool, AllocError>
    requires { (a : shapes.Shape) → met walk.old.carried (marked walk.old.marks at) ≡ Some (One a)
        → (s : flow.Shape) × IsShape walk.old.pool.nodes.keys a s × (length s.kinds < 2 ^ 31) }
    ensures { IfOk result (λ fine.
        Stepped walk.old.pool.nodes.keys walk.new.pool.nodes.keys (marked walk.old.marks)
        (marked walk.new.marks) walk.new.carried at (rule_of instr)
        (met walk.old.carried (marked walk.old.marks at)) fine) }
{
    if !walk.marks.is_free(at) {
        return step_marked(walk, at, instr);
    }
    match walk.carried {
        None => Ok(true),
        Some(shape) => follow(walk, at, rule_for(instr), shape),
    }
}

/// The same where there may be a mark.
#[inline(always)]
fn step_marked(walk: &mut Walk, at: u32, instr: Instr) -> Result<bool, AllocError>
    requires { (a : shapes.Shape) → met walk.old.carried (marked walk.old.marks at) ≡ Some (One a)
        → (s : flow.Shape) × IsShape walk.old.pool.nodes.keys a s × (length s.kinds < 2 ^ 31) }
    ensures { IfOk result (λ fine.
        Stepped walk.old.pool.nodes.keys walk.new.pool.nodes.keys (marked walk.old.marks)
        (marked walk.new.marks) walk.new.carried at (rule_of instr)
        (met walk.old.carried (marked walk.old.marks at)) fine) }
{
    if walk.marks.is_usual(at, walk.carried) {
        if let Instr::Begin(target) = instr {
            return advanced(walk, at, Rule::Begin(target), empty(Mode::Goto));
        }
    }
    step_met(walk, at, instr)
}

/// The same of any mark.
#[inline(never)]
fn step_met(walk: &mut Walk, at: u32, instr: Instr) -> Result<bool, AllocError>
    requires { (a : shapes.Shape) → met walk.old.carried (marked walk.old.marks at) ≡ Some (One a)
        → (s : flow.Shape) × IsShape walk.old.pool.nodes.keys a s × (length s.kinds < 2 ^ 31) }
    ensures { IfOk result (λ fine.
        Stepped walk.old.pool.nodes.keys walk.new.pool.nodes.keys (marked walk.old.marks)
        (marked walk.new.marks) walk.new.carried at (rule_of instr)
        (met walk.old.carried (marked walk.old.marks at)) fine) }
{
    match walk.marks.meet(at, walk.carried) {
        None => {
            walk.carried = None;
            Ok(true)
        }
        Some(Mark::Torn) => Ok(false),
        Some(Mark::One(shape)) => follow(walk, at, rule_for(instr), shape),
    }
}

/// The least offset of an instruction that breaks the flow: one that lacks what it asks, or is reached in two ways that
/// differ. One walk over the code in order, which was read before, in time linear in its bytes.
pub fn check_flow(
    alloc: Global,
    image: &ImageView<'_>,
    code: Listed<'_>,
) -> Result<Option<u32>, AllocError>
    requires spelt { IsImage image.now }
    requires code { listed_left code ≡ image.now.code }
    ensures least { IfOk result (λ flow. IsLeast (BreaksFlow image.now) flow) }
{
    let marks = roots(alloc, image)?;
    let pool = Pool::new(alloc);
    let mut walk = Walk {
        pool,
        marks,
        carried: None,
    };
    let mut at = 0;
    for instr in code {
        let fine = step(&mut walk, at, instr)?;
        if !fine {
            return Ok(Some(at));
        }
        at += instr.size();
    }
    Ok(None)
}
