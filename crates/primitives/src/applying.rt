//! APPLY.

ghost use Rattle.std.specs.Prelude.{◌≡◌, ◌∷◌, map, IfOk};
ghost use Rattle.model.specs.Machine.Steps.{MW};
ghost use Rattle.model.specs.declared.run.Stop.TheVariants.{NoMemory};
ghost use Rattle.values.specs.Answers.{IfStopped};
ghost use Rattle.values.specs.Values.{value_of};
ghost use Rattle.primitives.specs.Calling.{IsApplied, IsApplyIf, IsReached};

use model::{ErrorCode, Level, PrimId};
use std::alloc::{AllocError, Global};
use strings::Text;
use values::{Fault, Value};

/// What APPLY calls with its other arguments.
#[derive(Drop)]
pub(crate) enum Applied {
    Primitive(PrimId),
    Function(Text),
}

// What APPLY calls by a name at a level with other arguments, of which a primitive takes no more than it may.
fn applied_to(alloc: Global, level: Level, name: &Value, others: &[Value]) -> Result<Applied, Fault>
    ensures applied { (w : MW) → w.plain.level ≡ level
        → IsApplied result (value_of name.now ∷ map value_of others.now) w }
    ensures stop { IfStopped result (λ stop. stop ≡ NoMemory) }
{
    let name = name.to_variable(alloc)?;
    let Some(id) = PrimId::named_at(level, name.as_slice()) else {
        return Ok(Applied::Function(name));
    };
    if id.most_arguments() < others.len() {
        return Err(Fault::Error(ErrorCode::TooManyArguments));
    }
    Ok(Applied::Primitive(id))
}

impl Applied {
    // Whether it is APPLY itself.
    fn is_apply(&self) -> bool
        ensures { IsApplyIf result self.now }
    {
        matches!(self, Applied::Primitive(PrimId::Apply))
    }
}

/// What APPLY calls at last at a level, by its arguments, and the arguments for that. It may call itself on the way.
pub(crate) fn apply(
    alloc: Global,
    level: Level,
    arguments: &[Value],
) -> Result<(Applied, &[Value]), Fault>
    ensures applied { (w : MW) → w.plain.level ≡ level
        → IsReached result (map value_of arguments.now) w }
    ensures stop { IfStopped result (λ stop. stop ≡ NoMemory) }
{
    let mut rest = arguments;
    while let Some((name, others)) = rest.split_first() {
        let applied = applied_to(alloc, level, name, others)?;
        if !applied.is_apply() {
            return Ok((applied, others));
        }
        rest = others;
    }
    Err(Fault::Error(ErrorCode::NotAName))
}

/// A copy of the arguments, with a clone of each value.
pub(crate) fn copied(alloc: Global, arguments: &[Value]) -> Result<Vec<Value>, AllocError>
    ensures { IfOk result (λ copy. copy.items ≡ arguments.now) }
{
    let mut copy = Vec::with_capacity(alloc, arguments.len())?;
    for argument in arguments {
        copy.push(argument.clone()?)?;
    }
    Ok(copy)
}
