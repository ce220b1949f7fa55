//! Arrays, tables and records: what makes them.

ghost use Rattle.std.specs.Prelude.{◌≡◌, [], Some, option_map, OnErr};
ghost use Rattle.model.specs.Language.Io.{Io};
ghost use Rattle.model.specs.Language.Values.{Obj, TableOf};
ghost use Rattle.model.specs.Language.Prototypes.{passing, are_bounds};
ghost use Rattle.model.specs.Language.Aggregates.{new_object, array_op, copy_op, as_array, type_of};
ghost use Rattle.model.specs.declared.run.Stop.TheVariants.{NoMemory};
ghost use Rattle.values.specs.Values.{value_of};
ghost use Rattle.world.specs.Held.{world_of};
ghost use Rattle.values.specs.Answers.{answer_map, AnswersAs, AnswersOrFails, IfStopped};

use aggregates::{Bounds, ObjectKind};
use model::ErrorCode;
use std::alloc::Global;
use values::{Fault, Value};
use world::World;

/// A new table without entries.
pub fn table(world: &mut World, alloc: Global) -> Result<Value, Fault>
    ensures made { (io : Io)
        → AnswersAs (answer_map value_of result) (world_of world.new io)
        (new_object (TableOf []) (world_of world.old io)) }
    ensures stop { IfStopped result (λ stop. stop ≡ NoMemory) }
    ensures err { OnErr result (world.new ≡ world.old) }
    ensures names { world.new.names ≡ world.old.names }
{
    let table = world.objects_mut().new_table(alloc)?;
    Ok(Value::Object(table))
}

/// Another array like this one.
pub fn copy(world: &mut World, alloc: Global, value: &Value) -> Result<Value, Fault>
    ensures made { (io : Io)
        → AnswersAs (answer_map value_of result) (world_of world.new io)
        (copy_op (value_of value.now) (world_of world.old io)) }
    ensures stop { IfStopped result (λ stop. stop ≡ NoMemory) }
    ensures err { OnErr result (world.new ≡ world.old) }
    ensures names { world.new.names ≡ world.old.names }
{
    let Value::Object(object) = value else {
        return Err(Fault::Error(ErrorCode::WrongType));
    };
    let Some(copy) = world.objects_mut().copy_array(alloc, *object)? else {
        return Err(Fault::Error(ErrorCode::WrongType));
    };
    Ok(Value::Object(copy))
}

/// The name of an object's type. Takes no memory.
pub fn object_type(world: &World, object: usize) -> &[u8]
    ensures { (io : Io) → result.now ≡ type_of (world_of world.now io) (Obj object) }
{
    let objects = world.objects();
    if let Some(name) = objects.record_type(object) {
        return name.as_slice();
    }
    match objects.kind(object) {
        Some(ObjectKind::Table) => b"TABLE",
        _ => b"ARRAY",
    }
}

/// A new array with this value everywhere. Dimensions that no array may have are an error.
pub fn array(
    world: &mut World,
    alloc: Global,
    bounds: Vec<Bounds>,
    value: &Value,
) -> Result<Value, Fault>
    ensures made { (io : Io)
        → AnswersAs (answer_map value_of result) (world_of world.new io)
        (array_op (passing are_bounds (Some bounds.items)) (value_of value.now)
        (world_of world.old io)) }
    ensures stop { IfStopped result (λ stop. stop ≡ NoMemory) }
    ensures err { OnErr result (world.new ≡ world.old) }
    ensures names { world.new.names ≡ world.old.names }
{
    let Some(array) = world.objects_mut().new_array(alloc, bounds, value)? else {
        return Err(Fault::Error(ErrorCode::BadArray));
    };
    Ok(Value::Object(array))
}

/// A table's keys and values as an array, a row for each value that isn't null. What is no table, or has no row,
/// gives none.
pub fn rows(world: &mut World, alloc: Global, value: &Value) -> Result<Option<Value>, Fault>
    ensures made { (io : Io)
        → AnswersOrFails (answer_map (option_map value_of) result) (world_of world.new io)
        (as_array (value_of value.now) (world_of world.old io)) }
    ensures stop { IfStopped result (λ stop. stop ≡ NoMemory) }
    ensures err { OnErr result (world.new ≡ world.old) }
    ensures names { world.new.names ≡ world.old.names }
{
    let Value::Object(object) = value else {
        return Ok(None);
    };
    if world.objects().row_count(*object) > 524_288 {
        return Err(Fault::Error(ErrorCode::BadArray));
    }
    let Some(array) = world.objects_mut().table_to_array(alloc, *object)? else {
        return Ok(None);
    };
    Ok(Some(Value::Object(array)))
}
