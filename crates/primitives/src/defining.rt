//! DEFINE.

ghost use Rattle.std.specs.Prelude.{◌≡◌, OnErr};
ghost use Rattle.model.specs.Language.Primitives.{to_entry_label};
ghost use Rattle.model.specs.declared.run.Stop.TheVariants.{NoMemory};
ghost use Rattle.values.specs.Answers.{Converts, IfStopped};
ghost use Rattle.values.specs.Values.{value_of};
ghost use Rattle.primitives.specs.Answers.{Changes};
ghost use Rattle.primitives.specs.Calling.{define_row};

use crate::outcome::Outcome;
use model::ErrorCode;
use prototypes::function_prototype;
use std::alloc::Global;
use strings::Text;
use values::{Fault, Value};
use world::World;

// The entry label, if one is given.
fn entry_label(alloc: Global, value: &Value) -> Result<Option<Text>, Fault>
    ensures label { Converts result (to_entry_label (value_of value.now)) }
    ensures stop { IfStopped result (λ stop. stop ≡ NoMemory) }
{
    if value.is_null() {
        return Ok(None);
    }
    Ok(Some(value.to_label(alloc)?))
}

/// DEFINE, with a prototype and a label.
pub(crate) fn define(
    alloc: Global,
    prototype: &Value,
    label: &Value,
    world: &mut World,
) -> Result<Outcome, Fault>
    ensures answer { Changes result (define_row (value_of prototype.now) (value_of label.now)) world.old world.new }
    ensures stop { IfStopped result (λ stop. stop ≡ NoMemory) }
    ensures unchanged { OnErr result (world.new ≡ world.old) }
    ensures names { world.new.names ≡ world.old.names }
{
    let text = prototype.to_text(alloc)?;
    let entry = entry_label(alloc, label)?;
    let Some(prototype) = function_prototype(alloc, world.module_level(), text.as_slice())? else {
        return Err(Fault::Error(ErrorCode::BadPrototype));
    };
    world.define(entry, prototype)?;
    Ok(Outcome::Value(Value::null()))
}
