//! Names of elements, by an array or a table and the subscripts.

ghost use Rattle.std.specs.Prelude.{◌≡◌, ◌≤◌, List, length, map, take, slice_get, Some, option_map, IfErr, IfSome, OnOk};
ghost use Rattle.model.specs.Language.Io.{Io};
ghost use Rattle.model.specs.Machine.Steps.{MW};
ghost use Rattle.model.specs.Language.Values.{Bounds, ArrayOf, Obj};
ghost use Rattle.model.specs.Language.Conversions.{Got, Bad, Gives};
ghost use Rattle.model.specs.Deck.Target.{Element};
ghost use Rattle.model.specs.Language.Aggregates.{all_integers, element_op, table_element};
ghost use Rattle.model.specs.declared.run.Stop.TheVariants.{NoMemory};
ghost use Rattle.pattern_compiler.specs.View.{name_of};
ghost use Rattle.values.specs.Values.{value_of};
ghost use Rattle.world.specs.Held.{world_of};
ghost use Rattle.world.specs.Objects.{item_at};
ghost use Rattle.values.specs.declared.value.Value.{Value};
ghost use Rattle.values.specs.Answers.{answer_map, conv_of, AnswersOrFails, IfStopped};

use aggregates::ObjectKind;
use model::{ErrorCode, Stop};
use pattern_compiler::Name;
use values::{Fault, Value};
use world::World;

/// The name of an element, by its array or table and the subscripts; outside an array's bounds there is none.
pub fn item(world: &World, base: &Value, subscripts: &[Value]) -> Result<Option<Name>, Fault>
    ensures name { (io : Io)
        → AnswersOrFails (answer_map (option_map name_of) result) (world_of world.now io)
        (element_op (value_of base.now) (map value_of subscripts.now) (world_of world.now io)) }
    ensures stop { IfStopped result (λ stop. stop ≡ NoMemory) }
{
    let Value::Object(object) = base else {
        return Err(Fault::Error(ErrorCode::WrongType));
    };
    if let Some(index) = only_place(world, *object, subscripts) {
        return Ok(Some(Name::Element {
            object: *object,
            index,
        }));
    }
    item_of(world, *object, subscripts)
}

// The place of an array's element, if there is one subscript, an integer.
fn only_place(world: &World, object: usize, subscripts: &[Value]) -> Option<usize>
    ensures { IfSome result (λ index. (io : Io)
        → element_op (Obj object) (map value_of subscripts.now) (world_of world.now io)
        ≡ Gives (Element object index) (world_of world.now io)) }
{
    let [subscript] = subscripts else {
        return None;
    };
    match subscript {
        Value::Integer(n) => world.objects().place_of_one(object, *n),
        _ => None,
    }
}

// The name of an element, by the number of its array or table and the subscripts.
#[inline(never)]
fn item_of(world: &World, object: usize, subscripts: &[Value]) -> Result<Option<Name>, Fault>
    ensures name { (io : Io)
        → AnswersOrFails (answer_map (option_map name_of) result) (world_of world.now io)
        (element_op (Obj object) (map value_of subscripts.now) (world_of world.now io)) }
    ensures stop { IfStopped result (λ stop. stop ≡ NoMemory) }
{
    match world.objects().kind(object) {
        Some(ObjectKind::Array) => Ok(array_item(world, object, subscripts)?),
        Some(ObjectKind::Table) => table_item(object, subscripts),
        Some(ObjectKind::Record) => Err(Fault::Error(ErrorCode::WrongType)),
        None => Err(Fault::Error(ErrorCode::WrongType)),
    }
}

// The name of an array's element. Takes no memory.
fn array_item(world: &World, object: usize, subscripts: &[Value]) -> Result<Option<Name>, ErrorCode>
    ensures { (bs : List Bounds) (es : List Value)
        → slice_get world.now.objects object ≡ Some (ArrayOf bs es)
        → conv_of (answer_map (option_map name_of) result)
        ≡ item_at object bs (map value_of subscripts.now) }
{
    let count = subscripts.len();
    let objects = world.objects();
    if objects.dimensions(object) != count {
        return Err(ErrorCode::BadArray);
    }
    let mut integers = [0; 8];
    put_integers(subscripts, &mut integers)?;
    match objects.place(object, &integers[..count]) {
        Some(index) => Ok(Some(Name::Element { object, index })),
        None => Ok(None),
    }
}

// The integers that values convert to, put at the front of others.
fn put_integers(values: &[Value], integers: &mut [i64]) -> Result<(), ErrorCode>
    requires { length values.now ≤ length integers.old }
    ensures ok { OnOk result
        (all_integers (map value_of values.now) ≡ Got (take (length values.now) integers.new)) }
    ensures err { IfErr result (λ error. all_integers (map value_of values.now) ≡ Bad error) }
    ensures len { length integers.new ≡ length integers.old }
{
    for (k, value) in values.iter().enumerate() {
        integers[k] = value.to_int()?;
    }
    Ok(())
}

// The name of a key's value in a table.
fn table_item(object: usize, subscripts: &[Value]) -> Result<Option<Name>, Fault>
    ensures name { (w : MW)
        → AnswersOrFails (answer_map (option_map name_of) result) w
        (table_element object (map value_of subscripts.now) w) }
    ensures stop { IfStopped result (λ stop. stop ≡ NoMemory) }
{
    let [key] = subscripts else {
        return Err(Fault::Error(ErrorCode::BadArray));
    };
    match key {
        Value::String(text) => {
            let Ok(object) = u32::try_from(object) else {
                return Err(Fault::Stop(Stop::NoMemory));
            };
            let key = text.clone()?;
            Ok(Some(Name::StringKey { object, key }))
        }
        Value::Integer(n) => Ok(Some(Name::IntegerKey { object, key: *n })),
        _ => Err(Fault::Error(ErrorCode::WrongType)),
    }
}
