//! The primitives of arrays, tables and records.

ghost use Rattle.std.specs.Prelude.{◌≡◌, [], map, OnErr};
ghost use Rattle.model.specs.Language.Io.{Io};
ghost use Rattle.model.specs.Machine.Steps.{codes_of};
ghost use Rattle.model.specs.Language.Values.{Str, Int, Pat, TableOf};
ghost use Rattle.model.specs.Language.Conversions.{Gives, conv, to_text, to_integer, to_pattern};
ghost use Rattle.model.specs.Language.Prototypes.{array_prototype, type_prototype};
ghost use Rattle.model.specs.Language.Aggregates.{new_object, array_op, copy_op, as_array};
ghost use Rattle.model.specs.Language.Primitives.{data_op, item_op, converted, or_fail};
ghost use Rattle.model.specs.declared.run.Stop.TheVariants.{NoMemory};
ghost use Rattle.values.specs.Values.{value_of};
ghost use Rattle.world.specs.Held.{world_of};
ghost use Rattle.values.specs.Answers.{IfStopped};
ghost use Rattle.primitives.specs.Answers.{AnswersAs, Changes, ComesTo};

use crate::functions::type_name;
use crate::outcome::Outcome;
use model::ErrorCode;
use operations::rows;
use pattern_compiler::Pattern;
use prototypes::{dimensions, type_prototype};
use std::alloc::Global;
use values::{Fault, Value};
use world::World;

/// ARRAY.
pub(crate) fn array(
    alloc: Global,
    prototype: &Value,
    value: &Value,
    world: &mut World,
) -> Result<Outcome, Fault>
    ensures answer { Changes result (λ w. conv (to_text (value_of prototype.now)) w (λ s.
        array_op (array_prototype s) (value_of value.now) w)) world.old world.new }
    ensures stop { IfStopped result (λ stop. stop ≡ NoMemory) }
    ensures unchanged { OnErr result (world.new ≡ world.old) }
    ensures names { world.new.names ≡ world.old.names }
{
    let text = prototype.to_text(alloc)?;
    let Some(bounds) = dimensions(alloc, text.as_slice())? else {
        return Err(Fault::Error(ErrorCode::BadArray));
    };
    Ok(Outcome::Value(operations::array(world, alloc, bounds, value)?))
}

/// TABLE.
pub(crate) fn table(alloc: Global, world: &mut World) -> Result<Outcome, Fault>
    ensures answer { Changes result (new_object (TableOf [])) world.old world.new }
    ensures stop { IfStopped result (λ stop. stop ≡ NoMemory) }
    ensures unchanged { OnErr result (world.new ≡ world.old) }
    ensures names { world.new.names ≡ world.old.names }
{
    Ok(Outcome::Value(operations::table(world, alloc)?))
}

/// COPY.
pub(crate) fn copy(alloc: Global, value: &Value, world: &mut World) -> Result<Outcome, Fault>
    ensures answer { Changes result (copy_op (value_of value.now)) world.old world.new }
    ensures stop { IfStopped result (λ stop. stop ≡ NoMemory) }
    ensures unchanged { OnErr result (world.new ≡ world.old) }
    ensures names { world.new.names ≡ world.old.names }
{
    Ok(Outcome::Value(operations::copy(world, alloc, value)?))
}

/// ITEM.
pub(crate) fn item(arguments: &[Value], world: &World) -> Result<Outcome, Fault>
    ensures answer { (io : Io)
        → ComesTo result (world_of world.now io)
        (item_op (map value_of arguments.now) (world_of world.now io)) }
    ensures stop { IfStopped result (λ stop. stop ≡ NoMemory) }
{
    let [base, subscripts @ ..] = arguments else {
        return Err(Fault::Error(ErrorCode::WrongType));
    };
    match operations::item(world, base, subscripts)? {
        Some(name) => Ok(Outcome::Name(name)),
        None => Ok(Outcome::Failure),
    }
}

/// DATA.
pub(crate) fn data(alloc: Global, prototype: &Value, world: &mut World) -> Result<Outcome, Fault>
    ensures answer { Changes result (λ w. conv (to_text (value_of prototype.now)) w (λ s.
        data_op (type_prototype world.old.level s) w)) world.old world.new }
    ensures stop { IfStopped result (λ stop. stop ≡ NoMemory) }
    ensures unchanged { OnErr result (world.new ≡ world.old) }
    ensures names { world.new.names ≡ world.old.names }
{
    let text = prototype.to_text(alloc)?;
    let Some(prototype) = type_prototype(alloc, world.module_level(), text.as_slice())? else {
        return Err(Fault::Error(ErrorCode::BadPrototype));
    };
    operations::data(world, alloc, &prototype)?;
    Ok(Outcome::Value(Value::null()))
}

/// CONVERT.
pub(crate) fn convert(
    alloc: Global,
    value: &Value,
    type_name: &Value,
    world: &mut World,
) -> Result<Outcome, Fault>
    ensures answer { Changes result (λ w. conv (to_text (value_of type_name.now)) w (λ t.
        converted codes_of (value_of value.now) t w)) world.old world.new }
    ensures stop { IfStopped result (λ stop. stop ≡ NoMemory) }
    ensures unchanged { OnErr result (world.new ≡ world.old) }
    ensures names { world.new.names ≡ world.old.names }
{
    let wanted = type_name.to_text(alloc)?;
    converted(alloc, value, wanted.as_slice(), world)
}

// A value of the type of this name, or failure.
fn converted(
    alloc: Global,
    value: &Value,
    wanted: &[u8],
    world: &mut World,
) -> Result<Outcome, Fault>
    ensures answer { Changes result (converted codes_of (value_of value.now) wanted.now) world.old world.new }
    ensures stop { IfStopped result (λ stop. stop ≡ NoMemory) }
    ensures unchanged { OnErr result (world.new ≡ world.old) }
    ensures names { world.new.names ≡ world.old.names }
{
    if wanted == type_name(value, world) {
        Ok(Outcome::Value(value.clone()?))
    } else if wanted == b"STRING".as_slice() {
        as_string(alloc, value)
    } else if wanted == b"INTEGER".as_slice() {
        as_integer(value)
    } else if wanted == b"PATTERN".as_slice() {
        as_pattern(alloc, value)
    } else if wanted == b"ARRAY".as_slice() {
        as_array(alloc, value, world)
    } else {
        Ok(Outcome::Failure)
    }
}

// The string that a value is, or failure.
fn as_string(alloc: Global, value: &Value) -> Result<Outcome, Fault>
    ensures answer { AnswersAs result (λ w.
        or_fail (to_text (value_of value.now)) w (λ s. Gives (Str s) w)) }
    ensures stop { IfStopped result (λ stop. stop ≡ NoMemory) }
{
    match value.to_text(alloc) {
        Ok(text) => Ok(Outcome::Value(Value::String(text))),
        Err(Fault::Error(_)) => Ok(Outcome::Failure),
        Err(stop) => Err(stop),
    }
}

// The integer that a value is, or failure.
fn as_integer(value: &Value) -> Result<Outcome, Fault>
    ensures answer { AnswersAs result (λ w.
        or_fail (to_integer (value_of value.now)) w (λ z. Gives (Int z) w)) }
    ensures stop { IfStopped result (λ stop. stop ≡ NoMemory) }
{
    match value.to_int() {
        Ok(n) => Ok(Outcome::Value(Value::Integer(n))),
        Err(_) => Ok(Outcome::Failure),
    }
}

// The pattern that a value is, or failure.
fn as_pattern(alloc: Global, value: &Value) -> Result<Outcome, Fault>
    ensures answer { AnswersAs result (λ w.
        or_fail (to_pattern codes_of (value_of value.now)) w (λ q. Gives (Pat q) w)) }
    ensures stop { IfStopped result (λ stop. stop ≡ NoMemory) }
{
    match value.to_pattern(alloc) {
        Ok(code) => Ok(Outcome::Value(Value::Pattern(Pattern::of(code)))),
        Err(Fault::Error(_)) => Ok(Outcome::Failure),
        Err(stop) => Err(stop),
    }
}

// The array of a table's rows, or failure.
fn as_array(alloc: Global, value: &Value, world: &mut World) -> Result<Outcome, Fault>
    ensures answer { Changes result (as_array (value_of value.now)) world.old world.new }
    ensures stop { IfStopped result (λ stop. stop ≡ NoMemory) }
    ensures unchanged { OnErr result (world.new ≡ world.old) }
    ensures names { world.new.names ≡ world.old.names }
{
    match rows(world, alloc, value)? {
        Some(array) => Ok(Outcome::Value(array)),
        None => Ok(Outcome::Failure),
    }
}
