//! Values that tables have for keys, those that were never assigned included.

ghost use Rattle.std.specs.Prelude.{◌≡◌, [], IfSome, None, Some, slice_get};
ghost use Rattle.aggregates.specs.Objects.{index_in};
ghost use Rattle.model.specs.Language.Values as values;
ghost use Rattle.model.specs.Language.Values.{Obj, Str};
ghost use Rattle.operations.specs.Elements.{HoldsAt, key_value};
ghost use Rattle.values.specs.Values.{value_of};

use aggregates::{Key, ObjectKind};
use values::Value;
use world::World;

// The value of the key of a table whose entry stands at an index; without an entry it is null.
#[inline(always)]
fn entry_or_null(world: &World, object: usize, index: Option<usize>) -> Option<Option<&Value>>
    ensures there { IfSome result (λ held. IfSome held (λ value. (key : values.Key)
        → index ≡ index_in key (slice_get world.now.objects object)
        → HoldsAt (Obj object) (key_value key) (value_of value.now) world.now)) }
    ensures absent { result ≡ Some None → (key : values.Key)
        → index ≡ index_in key (slice_get world.now.objects object)
        → HoldsAt (Obj object) (key_value key) (Str []) world.now }
{
    match index {
        None => match world.objects().kind(object) {
            Some(ObjectKind::Table) => Some(None),
            _ => None,
        },
        Some(index) => match world.objects().entry(object, index) {
            Some(value) => Some(Some(value)),
            None => None,
        },
    }
}

/// The value that a table has for a string or an integer, where `None` within is the null string, which it has for
/// what was never assigned; what isn't so has none here.
#[inline(never)]
pub fn entry_for<'a>(
    world: &'a World,
    object: usize,
    subscript: &Value,
) -> Option<Option<&'a Value>>
    ensures there { IfSome result (λ held. IfSome held (λ value.
        HoldsAt (Obj object) (value_of subscript.now) (value_of value.now) world.now)) }
    ensures absent { result ≡ Some None
        → HoldsAt (Obj object) (value_of subscript.now) (Str []) world.now }
{
    match subscript {
        Value::Integer(n) => {
            let index = world.objects().index_of(object, &Key::Integer(*n));
            entry_or_null(world, object, index)
        }
        Value::String(text) => {
            let index = world.objects().index_of_text(object, text);
            entry_or_null(world, object, index)
        }
        _ => None,
    }
}
