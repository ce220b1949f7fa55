//! The operands of instructions.

ghost use Rattle.std.specs.Prelude.{◌≡◌, [], ◌∷◌, ◌++◌, ℤ, List, map, reverse, replicate, length, drop, OnOk, OnErr};
ghost use Rattle.frames.specs.View.{operands_of};
ghost use Rattle.frames.specs.Kinds.{TopIs, AreOnTop};
ghost use Rattle.frames.specs.declared.operand.Operand.TheVariants as operand;
ghost use Rattle.model.specs.Module.Flow.{V, N, R};
ghost use Rattle.model.specs.Machine.Steps as m;
ghost use Rattle.model.specs.Machine.Steps.{MVal, MW, State, pop_many};
ghost use Rattle.values.specs.Values.{value_of};
ghost use Rattle.values.specs.declared.value.Value.TheVariants as value;

use crate::stack::Stack;
use pattern_compiler::Name;
use std::alloc::AllocError;
use values::{Span, Value};

const _: () = prove!(size_of::<Operand>() <= 48);

/// A name, and the slot where its variable may stand.
#[derive(Drop)]
pub struct Named {
    pub name: Name,
    /// A hint, which nothing that is said of a name depends on.
    pub slot: u32,
}

/// An operand of an instruction.
pub enum Operand {
    Value(Value),
    Name(Named),
    /// What a replacement replaces: the subject, and where the match in it began and ended.
    Span(Span),
}

// Whether anything is owned is looked at where an operand is let go.
impl Drop for Operand {
    #[inline(always)]
    fn drop(self) {
        match self {
            Operand::Value(_) | Operand::Name(_) | Operand::Span(_) => {}
        }
    }
}

impl Operand {
    // The value that it is.
    #[inline(always)]
    fn into_value(self) -> Value
        requires { TopIs V (self ∷ []) }
        ensures { self ≡ operand.Value result }
    {
        match self {
            Operand::Value(value) => value,
            _ => unreachable!(),
        }
    }

    // The name that it is.
    #[inline(always)]
    fn into_name(self) -> Named
        requires { TopIs N (self ∷ []) }
        ensures { self ≡ operand.Name result }
    {
        match self {
            Operand::Name(named) => named,
            _ => unreachable!(),
        }
    }

    // The part of a subject that it is.
    fn into_span(self) -> Span
        requires { TopIs R (self ∷ []) }
        ensures { self ≡ operand.Span result }
    {
        match self {
            Operand::Span(span) => span,
            _ => unreachable!(),
        }
    }
}

/// Takes off the newest operand, a value.
#[inline(always)]
pub fn pop_value(operands: &mut Stack<Operand>) -> Value
    requires { TopIs V operands.old.top }
    ensures { operands.old ≡ record operands.new { top = operand.Value result ∷ operands.new.top } }
{
    operands.pop().into_value()
}

/// Another integer in the place of the newest two operands, which are integers.
#[inline(always)]
pub fn replace_integers(operands: &mut Stack<Operand>, n: i64)
    requires { (a : ℤ) × (b : ℤ) × (operands.old.top
        ≡ operand.Value (value.Integer b) ∷ operand.Value (value.Integer a) ∷ drop 2 operands.old.top) }
    ensures { operands.new
        ≡ record operands.old { top = operand.Value (value.Integer n) ∷ drop 2 operands.old.top } }
{
    let Value::Integer(..) = pop_value(operands) else {
        unreachable!()
    };
    let old = operands.replace_top(Operand::Value(Value::Integer(n)));
    let Value::Integer(..) = old.into_value() else {
        unreachable!()
    };
}

/// Takes off the newest operand, a name.
#[inline(always)]
pub fn pop_name(operands: &mut Stack<Operand>) -> Named
    requires { TopIs N operands.old.top }
    ensures { operands.old ≡ record operands.new { top = operand.Name result ∷ operands.new.top } }
{
    operands.pop().into_name()
}

/// Takes off the newest operand, what a replacement replaces.
pub fn pop_span(operands: &mut Stack<Operand>) -> Span
    requires { TopIs R operands.old.top }
    ensures { operands.old ≡ record operands.new { top = operand.Span result ∷ operands.new.top } }
{
    operands.pop().into_span()
}

/// The newest operand, a name, which stays.
pub fn top_name(operands: &Stack<Operand>) -> &Named
    requires { TopIs N operands.now.top }
    ensures { operands.now.top ≡ operand.Name result.now ∷ drop 1 operands.now.top }
{
    match operands.top() {
        Operand::Name(name) => name,
        _ => unreachable!(),
    }
}

/// Takes off values into the vector, in the order in which they were put on. What was in it is dropped.
pub fn pop_values(
    operands: &mut Stack<Operand>,
    count: usize,
    values: &mut Vec<Value>,
) -> Result<(), AllocError>
    requires { AreOnTop (replicate count V) operands.old.top }
    ensures count { OnOk result (length values.new.items ≡ count) }
    ensures operands { OnOk result
        (operands.old ≡ record operands.new {
          top = map operand.Value (reverse values.new.items)
              ++ operands.new.top;
        }) }
    ensures err { OnErr result ((operands.new ≡ operands.old) × (values.new.items ≡ [])) }
    ensures pops { OnOk result ((w : MW) (k : List MVal → List m.Operand → State) →
        pop_many count (operands_of operands.old.top) [] w k
        ≡ k (map value_of values.new.items) (operands_of operands.new.top)) }
{
    values.clear();
    values.reserve(count)?;
    for _turn in 0..count {
        values.push_reserved(pop_value(operands));
    }
    values.reverse();
    Ok(())
}
