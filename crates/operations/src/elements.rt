//! Elements of arrays, values of tables and fields of records.

ghost use Rattle.std.specs.Prelude.{◌≡◌, ◌∷◌, [], List, slice_get, option_map, true, false, IfSome, OnErr};
ghost use Rattle.model.specs.Language.Io.{Io};
ghost use Rattle.model.specs.Deck.Target as target;
ghost use Rattle.model.specs.Deck.Target.{Element};
ghost use Rattle.model.specs.Language.Values.{Int, Obj, Str};
ghost use Rattle.model.specs.Language.Operators.{there, assign_op, entry_of, fetch_op, put_object};
ghost use Rattle.model.specs.Language.Aggregates.{all_integers, element_op};
ghost use Rattle.model.specs.Language.Conversions.{Gives, Got, Refuses};
ghost use Rattle.model.specs.Machine.Steps.{MVal};
ghost use Rattle.model.specs.declared.run.Stop.TheVariants.{NoMemory};
ghost use Rattle.aggregates.specs.Keys.{key_of};
ghost use Rattle.aggregates.specs.Objects.{stored_at};
ghost use Rattle.pattern_compiler.specs.View.{name_of};
ghost use Rattle.values.specs.Values.{value_of};
ghost use Rattle.world.specs.Held.{StaySilent, world_of};
ghost use Rattle.operations.specs.Elements.{HoldsAt, IndexesEntry, IsEntry, key_value};
ghost use Rattle.values.specs.Answers.{answer_map, done, AnswersAs, AnswersOrFails, IfStopped};

use aggregates::{ElementPlace, Key, ObjectKind};
use model::ErrorCode;
use pattern_compiler::Name;
use strings::Text;
use values::{Fault, Value};
use world::World;

/// The place of an array's element, by its only subscript; what isn't an array has none here.
#[inline(always)]
pub fn place_in(world: &World, object: usize, subscript: i64) -> Option<usize>
    ensures { IfSome result (λ index. (io : Io)
        → element_op (Obj object) (Int subscript ∷ []) (world_of world.now io)
        ≡ Gives (Element object index) (world_of world.now io)) }
{
    world.objects().place_of_one(object, subscript)
}

/// The place of an array's element, by what its subscripts convert to; what isn't an array has none here.
#[inline]
pub fn place_by(world: &World, object: usize, subscripts: &[i64]) -> Option<usize>
    ensures { IfSome result (λ index. (vs : List MVal) → all_integers vs ≡ Got subscripts.now → (io : Io)
        → element_op (Obj object) vs (world_of world.now io)
        ≡ Gives (Element object index) (world_of world.now io)) }
{
    world.objects().place(object, subscripts)
}

/// The value of an element by its place.
#[inline(always)]
pub fn value_at(world: &World, object: usize, index: usize) -> Option<&Value>
    ensures { IfSome result (λ value. (io : Io)
        → fetch_op (Element object index) (world_of world.now io)
        ≡ Gives (value_of value.now) (world_of world.now io)) }
{
    let Some(value) = world.objects().get(object, &ElementPlace::Element(index)) else {
        return None;
    };
    Some(value)
}

// Where the entry stands that a table has for a key.
#[inline(always)]
fn index_by(world: &World, object: usize, key: &Key) -> Option<usize>
    ensures { IfSome result (λ index.
        IndexesEntry object (key_value (key_of key.now)) index world.now) }
{
    let Some(index) = world.objects().index_of(object, key) else {
        return None;
    };
    Some(index)
}

// The same for a string.
#[inline(always)]
fn index_by_text(world: &World, object: usize, text: &Text) -> Option<usize>
    ensures { IfSome result (λ index. IndexesEntry object (Str text.now) index world.now) }
{
    let Some(index) = world.objects().index_of_text(object, text) else {
        return None;
    };
    Some(index)
}

/// Where the entry stands that a table has for a string or an integer; what isn't so has none here.
#[inline(never)]
pub fn index_for(world: &World, object: usize, subscript: &Value) -> Option<usize>
    ensures { IfSome result (λ index.
        IndexesEntry object (value_of subscript.now) index world.now) }
{
    match subscript {
        Value::Integer(n) => index_by(world, object, &Key::Integer(*n)),
        Value::String(text) => index_by_text(world, object, text),
        _ => None,
    }
}

/// The value of the entry of a table that stands at an index.
#[inline(always)]
pub fn entry_at(world: &World, object: usize, index: usize) -> Option<&Value>
    ensures { IfSome result (λ value. (name : target.Name) → IsEntry name object index world.now → (io : Io)
        → fetch_op name (world_of world.now io)
        ≡ Gives (value_of value.now) (world_of world.now io)) }
{
    let Some(value) = world.objects().entry(object, index) else {
        return None;
    };
    Some(value)
}

/// An integer in the entry of a table that stands at an index, if that was stored; else nothing changed.
#[inline]
pub fn put_entry(world: &mut World, object: usize, index: usize, n: i64) -> bool
    ensures set { result ≡ true → (name : target.Name) → IsEntry name object index world.old → (io : Io)
        → assign_op name (Int n) (world_of world.old io)
        ≡ Gives (record {}) (world_of world.new io) }
    ensures silent { StaySilent world.old world.new }
    ensures kept { result ≡ false → world.new ≡ world.old }
    ensures names { world.new.names ≡ world.old.names }
{
    let stored = world
        .objects_mut()
        .put_entry(object, index, Value::Integer(n));
    stored
}

/// A value in the entry of a table that stands at an index, if that was stored; else nothing changed.
#[inline]
pub fn put_in_entry(world: &mut World, object: usize, index: usize, value: Value) -> bool
    ensures set { result ≡ true → (name : target.Name) → IsEntry name object index world.old → (io : Io)
        → assign_op name (value_of value) (world_of world.old io)
        ≡ Gives (record {}) (world_of world.new io) }
    ensures kept { result ≡ false → world.new ≡ world.old }
    ensures names { world.new.names ≡ world.old.names }
{
    let stored = world.objects_mut().put_entry(object, index, value);
    stored
}

/// What an array holds for its only subscript; what isn't an array has nothing here.
#[inline(always)]
pub fn element_in(world: &World, object: usize, subscript: i64) -> Option<&Value>
    ensures { IfSome result (λ value.
        HoldsAt (Obj object) (Int subscript) (value_of value.now) world.now) }
{
    let Some(value) = world.objects().element(object, subscript) else {
        return None;
    };
    Some(value)
}

// The name of a table's value for a key.
#[inline(never)]
fn named_for(world: &World, object: usize, key: &Text) -> Option<Name>
    ensures { IfSome result (λ name. (io : Io)
        → element_op (Obj object) (Str key.now ∷ []) (world_of world.now io)
        ≡ Gives (name_of name) (world_of world.now io)) }
{
    let Some(ObjectKind::Table) = world.objects().kind(object) else {
        return None;
    };
    let Ok(object) = u32::try_from(object) else {
        return None;
    };
    let Ok(key) = key.clone() else {
        return None;
    };
    Some(Name::StringKey { object, key })
}

/// The name of an element, by an array and an integer or a table and a string; what isn't so has none here.
#[inline(always)]
pub fn named(world: &World, base: &Value, subscript: &Value) -> Option<Name>
    ensures { IfSome result (λ name. (io : Io)
        → element_op (value_of base.now) (value_of subscript.now ∷ []) (world_of world.now io)
        ≡ Gives (name_of name) (world_of world.now io)) }
{
    let Value::Object(object) = base else {
        return None;
    };
    let Value::Integer(n) = subscript else {
        let Value::String(key) = subscript else {
            return None;
        };
        return named_for(world, *object, key);
    };
    let Some(index) = world.objects().place_of_one(*object, *n) else {
        return None;
    };
    Some(Name::Element {
        object: *object,
        index,
    })
}

/// Gives an element, a field or a key another value, and returns whether it did; else nothing changed.
#[inline]
pub fn replace(world: &mut World, name: &Name, value: &Value) -> bool
    ensures set { result ≡ true → (io : Io)
        → assign_op (name_of name.now) (value_of value.now) (world_of world.old io)
        ≡ Gives (record {}) (world_of world.new io) }
    ensures kept { result ≡ false → world.new ≡ world.old }
    ensures names { world.new.names ≡ world.old.names }
{
    match name {
        Name::Variable(_) => false,
        Name::Element { object, index } => match value {
            Value::Integer(n) => put_integer(world, *object, *index, *n),
            _ => put_at(world, *object, ElementPlace::Element(*index), value),
        },
        Name::IntegerKey { object, key } => {
            put_at(world, *object, ElementPlace::Key(Key::Integer(*key)), value)
        }
        Name::StringKey { object, key } => {
            let Ok(key) = key.clone() else {
                return false;
            };
            put_at(
                world,
                *object as usize,
                ElementPlace::Key(Key::String(key)),
                value,
            )
        }
    }
}

/// An integer at a place of an array or a record, if that was stored; else nothing changed.
#[inline(always)]
pub fn put_integer(world: &mut World, object: usize, index: usize, n: i64) -> bool
    ensures set { result ≡ true → (io : Io)
        → assign_op (Element object index) (Int n) (world_of world.old io)
        ≡ Gives (record {}) (world_of world.new io) }
    ensures silent { StaySilent world.old world.new }
    ensures kept { result ≡ false → world.new ≡ world.old }
    ensures names { world.new.names ≡ world.old.names }
{
    let Ok(stored) = world
        .objects_mut()
        .set(object, ElementPlace::Element(index), Value::Integer(n))
    else {
        return false;
    };
    stored
}

/// A value in an element of an array that is written; else nothing changed.
#[inline(always)]
pub fn put_written(world: &mut World, object: usize, index: usize, value: Value) -> bool
    ensures set { result ≡ true → (io : Io)
        → assign_op (Element object index) (value_of value) (world_of world.old io)
        ≡ Gives (record {}) (world_of world.new io) }
    ensures silent { StaySilent world.old world.new }
    ensures keys { world.new.keys ≡ world.old.keys }
    ensures kept { result ≡ false → world.new ≡ world.old }
    ensures names { world.new.names ≡ world.old.names }
{
    world.objects_mut().put_written(object, index, value)
}

/// `replace` with a value that isn't needed any more.
#[inline(never)]
pub fn give(world: &mut World, name: &Name, value: Value) -> bool
    ensures set { result ≡ true → (io : Io)
        → assign_op (name_of name.now) (value_of value) (world_of world.old io)
        ≡ Gives (record {}) (world_of world.new io) }
    ensures kept { result ≡ false → world.new ≡ world.old }
    ensures names { world.new.names ≡ world.old.names }
{
    match name {
        Name::Variable(_) => false,
        Name::Element { object, index } => {
            put_value(world, *object, ElementPlace::Element(*index), value)
        }
        Name::IntegerKey { object, key } => {
            put_value(world, *object, ElementPlace::Key(Key::Integer(*key)), value)
        }
        Name::StringKey { object, key } => {
            let Ok(key) = key.clone() else {
                return false;
            };
            put_value(
                world,
                *object as usize,
                ElementPlace::Key(Key::String(key)),
                value,
            )
        }
    }
}

/// A value at a place of an array or a record, if that was stored; else nothing changed.
#[inline]
pub fn put_in_place(world: &mut World, object: usize, index: usize, value: Value) -> bool
    ensures set { result ≡ true → (io : Io)
        → assign_op (Element object index) (value_of value) (world_of world.old io)
        ≡ Gives (record {}) (world_of world.new io) }
    ensures kept { result ≡ false → world.new ≡ world.old }
    ensures names { world.new.names ≡ world.old.names }
{
    put_value(world, object, ElementPlace::Element(index), value)
}

// A value at a place of an object, if that was stored.
#[inline(always)]
fn put_value(world: &mut World, object: usize, place: ElementPlace, value: Value) -> bool
    ensures set { result ≡ true → (io : Io)
        → put_object object (stored_at place (value_of value)
        (slice_get (world_of world.old io).objects object)) (world_of world.old io)
        ≡ Gives (record {}) (world_of world.new io) }
    ensures kept { result ≡ false → world.new ≡ world.old }
    ensures names { world.new.names ≡ world.old.names }
{
    let Ok(()) = store(world, object, place, value) else {
        return false;
    };
    true
}

// A copy of a value at a place of an object, if that was stored.
#[inline(never)]
fn put_at(world: &mut World, object: usize, place: ElementPlace, value: &Value) -> bool
    ensures set { result ≡ true → (io : Io)
        → put_object object (stored_at place (value_of value.now)
        (slice_get (world_of world.old io).objects object)) (world_of world.old io)
        ≡ Gives (record {}) (world_of world.new io) }
    ensures kept { result ≡ false → world.new ≡ world.old }
    ensures names { world.new.names ≡ world.old.names }
{
    let Ok(value) = value.clone() else {
        return false;
    };
    let Ok(()) = store(world, object, place, value) else {
        return false;
    };
    true
}

/// An element of an array, or a field of a record.
pub(crate) fn element(world: &World, object: usize, index: usize) -> Result<Option<Value>, Fault>
    ensures value { (io : Io)
        → AnswersOrFails (answer_map (option_map value_of) result) (world_of world.now io)
        (fetch_op (Element object index) (world_of world.now io)) }
    ensures stop { IfStopped result (λ stop. stop ≡ NoMemory) }
{
    match world.objects().get(object, &ElementPlace::Element(index)) {
        Some(value) => Ok(Some(value.clone()?)),
        None => Err(Fault::Error(ErrorCode::WrongType)),
    }
}

/// The value that a table has for a key, which is null at first.
pub(crate) fn entry(world: &World, object: usize, key: Key) -> Result<Option<Value>, Fault>
    ensures value { (io : Io)
        → AnswersOrFails (answer_map (option_map value_of) result) (world_of world.now io)
        (there (entry_of (Str []) (slice_get (world_of world.now io).objects object)
        (key_of key)) (world_of world.now io)) }
    ensures stop { IfStopped result (λ stop. stop ≡ NoMemory) }
{
    let objects = world.objects();
    let Some(ObjectKind::Table) = objects.kind(object) else {
        return Err(Fault::Error(ErrorCode::WrongType));
    };
    match objects.get(object, &ElementPlace::Key(key)) {
        Some(value) => Ok(Some(value.clone()?)),
        None => Ok(Some(Value::null())),
    }
}

/// Another value at a place of an object.
#[inline]
pub(crate) fn store(
    world: &mut World,
    object: usize,
    place: ElementPlace,
    value: Value,
) -> Result<(), Fault>
    ensures stored { (io : Io)
        → AnswersAs (done result) (world_of world.new io)
        (put_object object (stored_at place (value_of value)
        (slice_get (world_of world.old io).objects object)) (world_of world.old io)) }
    ensures err { OnErr result (world.new ≡ world.old) }
    ensures stop { IfStopped result (λ stop. stop ≡ NoMemory) }
    ensures names { world.new.names ≡ world.old.names }
{
    if world.objects_mut().set(object, place, value)? {
        return Ok(());
    }
    Err(Fault::Error(ErrorCode::WrongType))
}
