//! Records: calls of the functions that DATA makes.

ghost use Rattle.std.specs.Prelude.{◌≡◌, map, IfOk, IfSome, OnErr, OnOk};
ghost use Rattle.model.specs.Deck.Target.{Element};
ghost use Rattle.model.specs.Language.Io.{Io};
ghost use Rattle.model.specs.Language.Calls.{AValue, construct_op, select_op};
ghost use Rattle.model.specs.Language.Conversions.{Gives};
ghost use Rattle.model.specs.Language.Aggregates.{field_values, field_op};
ghost use Rattle.pattern_compiler.specs.View.{name_of};
ghost use Rattle.values.specs.Answers.{answer_map, op_of};
ghost use Rattle.model.specs.Language.Values.{Obj};
ghost use Rattle.world.specs.Calling.{given_of};
ghost use Rattle.operations.specs.Elements.{FieldNames};
ghost use Rattle.world.specs.Held.{world_of};
ghost use Rattle.values.specs.Values.{value_of};

use aggregates::Names;
use model::ErrorCode;
use pattern_compiler::Name;
use std::alloc::AllocError;
use strings::Text;
use values::{Function, Value, argument, fill};
use world::{Given, World};

// Makes arguments the values of fields: an absent one is null, and those that are too many are dropped.
fn fit_to_fields(fields: &[Text], arguments: &mut Vec<Value>) -> Result<(), AllocError>
    ensures { OnOk result (map value_of arguments.new.items
        ≡ field_values fields.now (map value_of arguments.old.items)) }
{
    let count = fields.len();
    arguments.truncate(count);
    fill(arguments, count)?;
    Ok(())
}

/// A call of a constructor: a new record of the type of this name. The arguments are moved to its fields; an absent one
/// leaves its field null.
pub fn construct(
    world: &mut World,
    type_name: &Text,
    fields: Names,
    arguments: &mut Vec<Value>,
) -> Result<Value, AllocError>
    ensures made { IfOk result (λ value. (io : Io)
        → construct_op type_name.now fields (map value_of arguments.old.items) (world_of world.old io)
        ≡ Gives (AValue (value_of value)) (world_of world.new io)) }
    ensures err { OnErr result (world.new ≡ world.old) }
    ensures names { world.new.names ≡ world.old.names }
{
    fit_to_fields(fields.as_slice(), arguments)?;
    let number = world
        .objects_mut()
        .new_record(type_name.clone()?, fields, arguments)?;
    Ok(Value::Object(number))
}

// The name of a record's field. Takes no memory.
fn field_named(world: &World, field: &Text, value: &Value) -> Result<Name, ErrorCode>
    ensures { (io : Io)
        → op_of (answer_map name_of result) (world_of world.now io)
        ≡ field_op field.now (value_of value.now) (world_of world.now io) }
{
    let Value::Object(object) = value else {
        return Err(ErrorCode::WrongType);
    };
    match world.objects().field(*object, field) {
        Some(index) => Ok(Name::Element {
            object: *object,
            index,
        }),
        None => Err(ErrorCode::WrongType),
    }
}

/// The place in a record of the field whose function has the name of the variable in a slot. Takes no memory.
#[inline(never)]
pub fn field_place(world: &World, slot: u32, object: usize) -> Option<usize>
    ensures { IfSome result (λ index. (io : Io)
        → FieldNames world.now.names slot (Obj object) (Element object index) (world_of world.now io)) }
{
    let Some(name) = world.name_in(slot) else {
        return None;
    };
    let Some(Function::Field) = world.held_function(name, slot) else {
        return None;
    };
    world.objects().field(object, name)
}

/// A call of a field's function: the name of that field in the record that is the first argument. Takes no memory.
pub fn select(world: &World, field: &Text, arguments: &[Value]) -> Result<Given, ErrorCode>
    ensures { (io : Io)
        → op_of (answer_map given_of result) (world_of world.now io)
        ≡ select_op field.now (map value_of arguments.now) (world_of world.now io) }
{
    let null = Value::null();
    let name = field_named(world, field, argument(arguments, 0, &null))?;
    Ok(Given::Name(name))
}
