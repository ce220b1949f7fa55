//! The arguments of a call.

ghost use Rattle.std.specs.Prelude.{◌≡◌, ◌≤◌, ◌++◌, ◌∷◌, [], map, length, OnOk};
ghost use Rattle.model.specs.Language.Values.{Str};
ghost use Rattle.model.specs.Language.Calls.{arg_at};
ghost use Rattle.values.specs.Arguments.{AreFilled, ArePut, slot_in};
ghost use Rattle.values.specs.Values.{value_of};

use crate::value::Value;
use crate::variable::NO_SLOT;
use prototypes::FunctionPrototype;
use std::alloc::AllocError;

/// The argument of this number, or null.
pub fn argument<'a>(arguments: &'a [Value], number: usize, null: &'a Value) -> &'a Value
    requires { value_of null.now ≡ Str [] }
    ensures { value_of result.now ≡ arg_at (map value_of arguments.now) number }
{
    match arguments.get(number) {
        Some(value) => value,
        None => null,
    }
}

/// The slot of a name among the slots of names, if it is known.
#[inline]
pub fn slot_at(slots: &[u32], number: usize) -> u32
    ensures { result ≡ slot_in slots.now number }
{
    match slots.get(number) {
        Some(slot) => *slot,
        None => NO_SLOT,
    }
}

// Puts a value at the end.
#[inline(always)]
fn put(values: &mut Vec<Value>, value: Value) -> Result<(), AllocError>
    ensures { OnOk result (values.new.items ≡ values.old.items ++ value ∷ []) }
{
    if values.len() >= values.capacity() {
        values.reserve(1)?;
    }
    values.push_reserved(value);
    Ok(())
}

/// Puts null values at the end, up to so many values in all.
#[inline(always)]
pub fn fill(values: &mut Vec<Value>, count: usize) -> Result<(), AllocError>
    requires { length values.old.items ≤ count }
    ensures { OnOk result (AreFilled count values.old.items values.new.items) }
{
    for _number in values.len()..count {
        put(values, Value::null())?;
    }
    Ok(())
}

/// Puts at the end what a call gives to the variables of its function: null to its name, to each argument its value,
/// which is moved, and null to a missing one and to locals.
pub fn put_values(
    prototype: &FunctionPrototype,
    arguments: &mut Vec<Value>,
    values: &mut Vec<Value>,
) -> Result<(), AllocError>
    ensures { OnOk result
        (ArePut prototype.now arguments.old.items values.old.items values.new.items) }
{
    let count = values.len() + prototype.names().len();
    put(values, Value::null())?;
    arguments.truncate(prototype.arity());
    values.append(arguments)?;
    fill(values, count)
}
