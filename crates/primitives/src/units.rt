//! The primitives that associate variables with units.

ghost use Rattle.std.specs.Prelude.{◌≡◌, OnErr};
ghost use Rattle.model.specs.Language.Primitives.{input_op, output_op, detach_op};
ghost use Rattle.model.specs.declared.run.Stop.TheVariants.{NoMemory};
ghost use Rattle.values.specs.Values.{value_of};
ghost use Rattle.values.specs.Answers.{IfStopped, conv_of};
ghost use Rattle.primitives.specs.Answers.{Changes};
ghost use Rattle.primitives.specs.Units.{unit_of};

use crate::outcome::Outcome;
use model::ErrorCode;
use std::alloc::Global;
use values::{Fault, Value};
use world::World;

/// INPUT.
pub(crate) fn input(
    alloc: Global,
    variable: &Value,
    unit: &Value,
    world: &mut World,
) -> Result<Outcome, Fault>
    ensures answer { Changes result (input_op (value_of variable.now) (value_of unit.now)) world.old world.new }
    ensures stop { IfStopped result (λ stop. stop ≡ NoMemory) }
    ensures unchanged { OnErr result (world.new ≡ world.old) }
    ensures names { world.new.names ≡ world.old.names }
{
    let name = variable.to_variable(alloc)?;
    let unit = unit_of(5, unit)?;
    world.read_from(&name, unit)?;
    Ok(Outcome::Value(Value::null()))
}

/// OUTPUT.
pub(crate) fn output(
    alloc: Global,
    variable: &Value,
    unit: &Value,
    world: &mut World,
) -> Result<Outcome, Fault>
    ensures answer { Changes result (output_op (value_of variable.now) (value_of unit.now)) world.old world.new }
    ensures stop { IfStopped result (λ stop. stop ≡ NoMemory) }
    ensures unchanged { OnErr result (world.new ≡ world.old) }
    ensures names { world.new.names ≡ world.old.names }
{
    let name = variable.to_variable(alloc)?;
    let unit = unit_of(6, unit)?;
    world.write_to(&name, unit)?;
    Ok(Outcome::Value(Value::null()))
}

/// DETACH.
pub(crate) fn detach(alloc: Global, variable: &Value, world: &mut World) -> Result<Outcome, Fault>
    ensures answer { Changes result (detach_op (value_of variable.now)) world.old world.new }
    ensures stop { IfStopped result (λ stop. stop ≡ NoMemory) }
    ensures unchanged { OnErr result (world.new ≡ world.old) }
    ensures names { world.new.names ≡ world.old.names }
{
    let name = variable.to_variable(alloc)?;
    world.detach(&name)?;
    Ok(Outcome::Value(Value::null()))
}

// The unit that a value is, where null stands for the usual one.
fn unit_of(usual: u8, value: &Value) -> Result<u8, ErrorCode>
    ensures { conv_of result ≡ unit_of usual (value_of value.now) }
{
    if value.is_null() {
        return Ok(usual);
    }
    match value.to_int()? {
        unit @ 0..100 => Ok(unit as u8),
        _ => Err(ErrorCode::BadUnit),
    }
}
