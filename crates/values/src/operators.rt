//! Operators that don't ask the world.

ghost use Rattle.std.specs.Prelude.{◌≡◌, IfOk};
ghost use Rattle.model.specs.Machine.Steps.{MW, codes_of};
ghost use Rattle.model.specs.Language.Values.{Pat};
ghost use Rattle.model.specs.Language.Operators.{alt_op, cond_op, imm_op, indir_op};
ghost use Rattle.model.specs.declared.run.Stop.TheVariants.{NoMemory};
ghost use Rattle.pattern_compiler.specs.View.{name_of};
ghost use Rattle.values.specs.Values.{value_of};
ghost use Rattle.values.specs.Answers.{answer_map, AnswersAs, IfStopped};

use crate::fault::Fault;
use crate::value::Value;
use pattern_compiler::{Name, PatCode, Pattern};
use std::alloc::{AllocError, Global};

/// One pattern, or else the other.
pub fn alt(alloc: Global, left: Value, right: Value) -> Result<Value, Fault>
    ensures value { (w : MW)
        → AnswersAs (answer_map value_of result) w
        (alt_op codes_of (value_of left) (value_of right) w) }
    ensures stop { IfStopped result (λ stop. stop ≡ NoMemory) }
{
    let first = left.into_pattern(alloc)?;
    let second = right.into_pattern(alloc)?;
    Ok(Value::Pattern(Pattern::alt(alloc, first, second)?))
}

/// A pattern with a conditional assignment of what it matches.
pub fn cond(alloc: Global, value: Value, name: Name) -> Result<Value, Fault>
    ensures value { (w : MW)
        → AnswersAs (answer_map value_of result) w
        (cond_op codes_of (value_of value) (name_of name) w) }
    ensures stop { IfStopped result (λ stop. stop ≡ NoMemory) }
{
    let part = value.into_pattern(alloc)?;
    Ok(Value::Pattern(Pattern::cond(alloc, part, name)?))
}

/// A pattern with an immediate assignment of what it matches.
pub fn imm(alloc: Global, value: Value, name: Name) -> Result<Value, Fault>
    ensures value { (w : MW)
        → AnswersAs (answer_map value_of result) w
        (imm_op codes_of (value_of value) (name_of name) w) }
    ensures stop { IfStopped result (λ stop. stop ≡ NoMemory) }
{
    let part = value.into_pattern(alloc)?;
    Ok(Value::Pattern(Pattern::imm(alloc, part, name)?))
}

/// A pattern that matches null, and assigns where it stands.
pub fn cursor(alloc: Global, name: Name) -> Result<Value, AllocError>
    ensures { IfOk result (λ value. value_of value ≡ Pat (codes_of.cursor (name_of name))) }
{
    Ok(Value::Pattern(Pattern::of(PatCode::at(alloc, name)?)))
}

/// The name that a value stands for.
pub fn indir(alloc: Global, value: &Value) -> Result<Name, Fault>
    ensures name { (w : MW)
        → AnswersAs (answer_map name_of result) w (indir_op (value_of value.now) w) }
    ensures stop { IfStopped result (λ stop. stop ≡ NoMemory) }
{
    value.to_name(alloc)
}
